//! Members of catalogs.

ghost use Rattle.std.specs.Prelude.{◌≡◌, ◌+◌, IfOk, option_map};
ghost use Rattle.dz_member.specs.Membership.{settings_at, shown, policy_in, primaries_in, IsNumbered};

use dz_chunks::Keyed;
use dz_keys::ZoneKey;
use dz_name::{KeptName, Label, Name, NameRef, Octets};
use dz_settings::{CatalogSettings, Key, Peers, Policy};
use dz_steps::Steps;
use std::alloc::AllocError;
use std::cmp::Ordering;
use std::marker::Model;
use std::sync::ledger::Ledger;

/// A zone that a catalog assigns, with the numbers of the catalog in the configuration and of the group in the catalog.
/// What they represent is read from the [`crate::Fold`] that has it, by a [`Member`].
#[derive(Debug, Drop)]
pub struct Membership {
    pub zone: KeptName,
    /// The label of the zone's node in the catalog.
    pub label: Label,
    /// The position of the listing that the zone entered by.
    pub incarnation: u64,
    /// The number of the catalog, from 0.
    pub catalog: u8,
    /// The number of the group in the catalog, from 0.
    pub group: Option<u8>,
}

const _: () = prove!(size_of::<Membership>() == 128);

impl Membership {
    /// The same membership once more. The error is out of memory.
    pub(crate) fn try_clone(&self) -> Result<Membership, AllocError>
        ensures { IfOk result (λ copy. copy ≡ self.now) }
    {
        Ok(Membership {
            zone: self.zone.try_clone()?,
            label: self.label,
            incarnation: self.incarnation,
            catalog: self.catalog,
            group: self.group,
        })
    }
}

impl Keyed<ZoneKey> for Membership {
    ghost key = { λ m. m.zone };

    /// The key of the zone.
    fn key(&self) -> ZoneKey {
        ZoneKey::of(&self.zone.as_ref().to_name())
    }

    /// How the zone compares in canonical order with the one that is asked for. It is one step.
    fn compare<L: Ledger>(&self, asked: &ZoneKey, steps: &mut Steps<L>) -> Ordering {
        steps.tick();
        self.zone.as_ref().canonical_cmp(&asked.zone().as_ref())
    }
}

/// A membership with the names and settings that its numbers represent.
#[derive(Debug, Drop)]
pub struct Member<'a> {
    catalogs: &'a [CatalogSettings],
    membership: &'a Membership,
}

impl<'a> Model for Member<'a> {
    ghost use Rattle.dz_member.specs.Membership.{MemberOf, shown, IsNumbered};

    ghost Value = { MemberOf };

    ghost view = { λ m. shown m.catalogs.now m.membership.now };

    ghost invariant = { λ m. IsNumbered m.catalogs.now m.membership.now };
}

impl<'a> Member<'a> {
    /// The member of these numbers.
    pub(crate) fn new(catalogs: &'a [CatalogSettings], membership: &'a Membership) -> Member<'a>
        requires { IsNumbered catalogs.now membership.now }
        ensures { result ≡ shown catalogs.now membership.now }
    {
        Member {
            catalogs,
            membership,
        }
    }

    /// The zone.
    pub fn zone(&self) -> NameRef<'a>
        ensures { result ≡ self.now.zone }
    {
        self.membership.zone.as_ref()
    }

    /// The name of the catalog that holds the zone.
    pub fn catalog(&self) -> &'a Name
        ensures { result.now ≡ self.now.catalog }
    {
        &self.catalogs[self.membership.catalog as usize].name
    }

    /// The label of the zone's node in the catalog.
    pub fn label(&self) -> &'a Label
        ensures { result.now ≡ self.now.label }
    {
        &self.membership.label
    }

    /// The position of the listing that the zone entered by.
    pub fn incarnation(&self) -> u64
        ensures { result ≡ self.now.incarnation }
    {
        self.membership.incarnation
    }

    /// The word of the group that the zone belongs to.
    pub fn choice(&self) -> Option<&'a Octets>
        ensures { option_map (λ r. r.now) result ≡ self.now.choice }
    {
        let catalog = &self.catalogs[self.membership.catalog as usize];
        match self.membership.group {
            None => None,
            Some(group) => Some(&catalog.groups.as_slice()[group as usize].word),
        }
    }
}

/// The policy that holds for a member: that of its group, or else its catalog's own.
pub(crate) fn policy_of(catalogs: &[CatalogSettings], membership: &Membership) -> Policy
    requires { IsNumbered catalogs.now membership.now }
    ensures { result
        ≡ policy_in (settings_at catalogs.now membership.now.catalog) membership.now.group }
{
    let catalog = &catalogs[membership.catalog as usize];
    match membership.group {
        None => catalog.policy,
        Some(group) => catalog.groups.as_slice()[group as usize].policy,
    }
}

/// The primaries of a member: those of its group, or else its catalog's own.
pub(crate) fn primaries_of<'a>(
    catalogs: &'a [CatalogSettings],
    membership: &Membership,
) -> &'a Peers
    requires { IsNumbered catalogs.now membership.now }
    ensures { result.now
        ≡ primaries_in (settings_at catalogs.now membership.now.catalog) membership.now.group }
{
    let catalog = &catalogs[membership.catalog as usize];
    match membership.group {
        None => &catalog.primaries,
        Some(group) => &catalog.groups.as_slice()[group as usize].primaries,
    }
}

/// The key of a member's catalog.
pub(crate) fn key_of<'a>(
    catalogs: &'a [CatalogSettings],
    membership: &Membership,
) -> Option<&'a Key>
    requires { IsNumbered catalogs.now membership.now }
    ensures { option_map (λ r. r.now) result
        ≡ (settings_at catalogs.now membership.now.catalog).key }
{
    catalogs[membership.catalog as usize].key.as_ref()
}
