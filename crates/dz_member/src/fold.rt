//! What is known of the catalogs and their members.

ghost use Rattle.std.specs.Prelude.{◌≡◌, ◌+◌, ◌<◌, ◌≤◌, ◌^◌, length, map, position, slice_index_or, slice_get, Some};
ghost use Rattle.std.specs.Prelude.{None, IfOk, IfSome, All, option_map};
ghost use Rattle.std.specs.List.Sorted.{IsStrictlySortedBy};
ghost use Rattle.dz_name.specs.Name.{canonical_order, same_name};
ghost use Rattle.std.specs.Option.{option_map_or, ForSome};
ghost use Rattle.dz_settings.specs.Config.{IsAllowed};
ghost use Rattle.dz_settings.specs.Key.{IsKey};
ghost use Rattle.dz_member.specs.Membership.{settings_at, shown, key_of, policy_of, primaries_of, IsNumbered};
ghost use Rattle.dz_member.specs.Fold.{IsFold, number_of, member_of, started};

use crate::known::{Known, nothing_known, share_all};
use crate::members::{Held, Members, Memberships};
use crate::membership::{Member, Membership, key_of, policy_of, primaries_of};
use crate::nodes::Nodes;
use dz_name::Name;
use dz_settings::{CatalogSettings, Config, Key, Peers, Policy};
use std::alloc::{AllocError, Global};
use std::marker::Model;
use std::sync::Arc;

/// The configuration, the members of its catalogs in the canonical order of their zones, and each catalog's last
/// unbroken listing. A fold never changes: a listing makes a new one, which shares the configuration and the other
/// listings.
#[derive(Drop)]
pub struct Fold {
    pub(crate) config: Arc<Config>,
    pub(crate) members: Arc<Members>,
    pub(crate) listings: Vec<Known>,
    /// Whether a catalog is settled: its last unbroken listing, processed again, would tell nothing. What isn't marked so
    /// may be settled too.
    pub(crate) settled: Vec<bool>,
}

impl Model for Fold {
    ghost use Rattle.dz_member.specs.Fold.{FoldOf};
    ghost use Rattle.dz_member.specs.inner.Kept.{fold_in, IsKept};

    ghost Value = { FoldOf };

    ghost view = { λ f. fold_in f.config.value f.members.value f.listings.items };

    ghost invariant = { λ f. IsKept f.config.value f.members.value f.listings.items f.settled.items };
}

/// The most members of a fold.
pub(crate) const MOST: usize = 9_223_372_036_854_775_807;

impl Fold {
    /// The fold of a configuration: no zone is a member yet. The error is out of memory.
    pub fn start(alloc: Global, config: Config) -> Result<Fold, AllocError>
        requires { IsAllowed config }
        ensures { IfOk result (λ f. f ≡ started config) }
    {
        let count = config.catalogs().len();
        let listings = nothing_known(alloc, count)?;
        let settled = vec![in alloc; false; count]?;
        let members = Arc::new(alloc, Members::empty(alloc))?;
        let config = Arc::new(alloc, config)?;
        Ok(Fold {
            config,
            members,
            listings,
            settled,
        })
    }

    /// The catalogs, in the order of the configuration.
    pub fn catalogs(&self) -> &[CatalogSettings]
        ensures catalogs { result.now ≡ self.now.config }
        ensures fold { IsFold self.now }
        ensures few { length self.now.members < 2 ^ 63 }
    {
        self.config.catalogs()
    }

    /// The configuration, as folds share it.
    pub fn config(&self) -> &Arc<Config>
        ensures { result.now.value ≡ self.now.config }
    {
        &self.config
    }

    /// The number of a catalog in the configuration, from 0; none where no catalog has this name.
    pub fn catalog_number(&self, name: &Name) -> Option<usize>
        ensures { result ≡ number_of self.now.config name.now }
    {
        self.catalogs()
            .iter()
            .position(|catalog| catalog.name.same(name))
    }

    /// The settings of a catalog.
    pub fn settings(&self, number: usize) -> &CatalogSettings
        requires { number < length self.now.config }
        ensures settings { result.now ≡ settings_at self.now.config number }
        ensures number { number_of self.now.config result.now.name ≡ Some number }
        ensures few { length result.now.groups ≤ 64 }
        ensures usable { ForSome result.now.key IsKey }
    {
        &self.catalogs()[number]
    }

    /// The nodes of the last unbroken listing of a catalog.
    pub(crate) fn listing(&self, number: usize) -> Option<&Nodes>
        requires { number < length self.now.config }
        ensures { option_map (λ r. r.now) result ≡ slice_index_or self.now.listings number None }
    {
        match self.listings[number].nodes() {
            None => None,
            Some(nodes) => Some(&**nodes),
        }
    }

    /// The same nodes, as another fold can share them.
    pub(crate) fn shared_nodes(&self, number: usize) -> Option<&Arc<Nodes>>
        requires { number < length self.now.config }
        ensures { option_map (λ r. r.now.value) result
            ≡ slice_index_or self.now.listings number None }
    {
        self.listings[number].nodes()
    }

    /// How many members there are.
    pub fn count(&self) -> usize
        ensures { result ≡ length self.now.members }
    {
        self.members.len()
    }

    /// The members, in the canonical order of their zones, with numbers of catalogs and groups.
    pub fn memberships(&self) -> Memberships<'_>
        ensures members { map (shown self.now.config) result ≡ self.now.members }
        ensures order { IsStrictlySortedBy canonical_order (map (λ m. m.zone) result) }
        ensures numbered { All (IsNumbered self.now.config) result }
        ensures fold { IsFold self.now }
    {
        self.members.walk()
    }

    /// The memberships, as another fold can share them.
    pub(crate) fn held(&self) -> Held<'_>
        ensures members { map (shown self.now.config) result ≡ self.now.members }
        ensures order { IsStrictlySortedBy canonical_order (map (λ m. m.zone) result) }
        ensures numbered { All (IsNumbered self.now.config) result }
    {
        let _ = &self.config;
        self.members.held()
    }

    /// The membership at a place, from 0.
    fn membership(&self, place: usize) -> &Membership
        requires { place < length self.now.members }
        ensures numbered { IsNumbered self.now.config result.now }
        ensures is { slice_get self.now.members place ≡ Some (shown self.now.config result.now) }
    {
        let _ = &self.config;
        match self.members.at(place) {
            Some(membership) => membership,
            None => unreachable!(),
        }
    }

    /// The member at a place, from 0.
    pub fn member(&self, place: usize) -> Member<'_>
        requires { place < length self.now.members }
        ensures { slice_get self.now.members place ≡ Some result }
    {
        Member::new(self.catalogs(), self.membership(place))
    }

    /// The members, as another fold can share them.
    pub(crate) fn shared_members(&self) -> &Arc<Members>
        ensures members { map (shown self.now.config) result.now.value ≡ self.now.members }
        ensures order { IsStrictlySortedBy canonical_order (map (λ m. m.zone) result.now.value) }
        ensures numbered { All (IsNumbered self.now.config) result.now.value }
    {
        let _ = &self.config;
        &self.members
    }

    /// The members, with numbers of catalogs and groups.
    pub(crate) fn members(&self) -> &Members
        ensures members { map (shown self.now.config) result.now ≡ self.now.members }
        ensures order { IsStrictlySortedBy canonical_order (map (λ m. m.zone) result.now) }
        ensures numbered { All (IsNumbered self.now.config) result.now }
    {
        let _ = &self.config;
        &*self.members
    }

    /// The membership of a zone.
    pub(crate) fn membership_of(&self, zone: &Name) -> Option<&Membership>
        ensures is { option_map (λ r. shown self.now.config r.now) result
            ≡ member_of zone.now self.now.members }
        ensures numbered { IfSome result (λ r. IsNumbered self.now.config r.now) }
    {
        match self.place_of(zone) {
            None => None,
            Some(place) => Some(self.membership(place)),
        }
    }

    /// The same fold with these members alone. The error is out of memory.
    pub(crate) fn narrowed(&self, alloc: Global, members: Members) -> Result<Fold, AllocError>
        requires order { IsStrictlySortedBy canonical_order (map (λ m. m.zone) members) }
        requires numbered { All (IsNumbered self.now.config) members }
        ensures { IfOk result (λ f. f
            ≡ record self.now { members = map (shown self.now.config) members }) }
    {
        if members.len() > MOST {
            return Err(AllocError);
        }
        let settled = vec![in alloc; false; self.catalogs().len()]?;
        let listings = share_all(alloc, &self.listings)?;
        let members = Arc::new(alloc, members)?;
        let config = self.shared_config()?;
        Ok(Fold {
            config,
            members,
            listings,
            settled,
        })
    }

    /// The place of the member of a zone.
    pub fn place_of(&self, zone: &Name) -> Option<usize>
        ensures { result ≡ position (λ m. same_name m.zone zone.now) self.now.members }
    {
        self.members().place_of(zone)
    }

    /// The place of the member of a zone. It is looked for first at a place where it is likely.
    pub fn place_near(&self, likely: usize, zone: &Name) -> Option<usize>
        ensures { result ≡ position (λ m. same_name m.zone zone.now) self.now.members }
    {
        match self.members().at(likely) {
            Some(m) if m.zone.as_ref().same(&zone.as_ref()) => Some(likely),
            _ => self.place_of(zone),
        }
    }

    /// The member of a zone, which is looked for first at a likely place. The place after it is likely then, so that
    /// zones in canonical order that are mostly members take one comparison each.
    pub fn find_near(&self, likely: &mut usize, zone: &Name) -> Option<Member<'_>>
        ensures member { result ≡ member_of zone.now self.now.members }
        ensures next { likely.new ≡ option_map_or (λ place. place + 1)
            (position (λ m. same_name m.zone zone.now) self.now.members) likely.old }
    {
        let count = self.members.len();
        match self.place_near(*likely, zone) {
            Some(place) => {
                let member = self.member(place);
                let next = place + 1;
                *likely = next.min(count);
                Some(member)
            }
            None => None,
        }
    }

    /// The member of a zone.
    pub fn find(&self, zone: &Name) -> Option<Member<'_>>
        ensures { result ≡ member_of zone.now self.now.members }
    {
        match self.place_of(zone) {
            Some(place) => Some(self.member(place)),
            None => None,
        }
    }

    /// The policy that holds for a member: that of its group, or else its catalog's own.
    pub fn policy(&self, place: usize) -> Policy
        requires { place < length self.now.members }
        ensures { IfSome (slice_get self.now.members place)
            (λ m. policy_of self.now.config m ≡ Some result) }
    {
        policy_of(self.catalogs(), self.membership(place))
    }

    /// The primaries of a member: those of its group, or else its catalog's own.
    pub fn primaries(&self, place: usize) -> &Peers
        requires { place < length self.now.members }
        ensures { IfSome (slice_get self.now.members place)
            (λ m. primaries_of self.now.config m ≡ Some result.now) }
    {
        primaries_of(self.catalogs(), self.membership(place))
    }

    /// The key of a member's catalog.
    pub fn key(&self, place: usize) -> Option<&Key>
        requires { place < length self.now.members }
        ensures key { IfSome (slice_get self.now.members place)
            (λ m. key_of self.now.config m ≡ option_map (λ r. r.now) result) }
        ensures usable { ForSome (option_map (λ r. r.now) result) IsKey }
    {
        key_of(self.catalogs(), self.membership(place))
    }
}
