//! What the listing of a catalog changes (RFC 9432 section 5).

ghost use Rattle.std.specs.Prelude.{◌≡◌, ◌<◌, ◌^◌, length, map, All, IfOk, IsSome, Some};
ghost use Rattle.std.specs.List.Sorted.{IsStrictlySortedBy};
ghost use Rattle.dz_name.specs.Name.{canonical_order};
ghost use Rattle.dz_member.specs.Listing.{IsListing};
ghost use Rattle.dz_member.specs.Membership.{shown, IsNumbered};
ghost use Rattle.dz_member.specs.Fold.{number_of, IsFold};
ghost use Rattle.dz_member.specs.Process.{process, changes, EachZone};
ghost use Rattle.dz_member.specs.inner.Happened.{change_of, IsConfigured};
ghost use Rattle.dz_member.specs.inner.Kept.{catalog_at};

use crate::change::{Changes, Happening};
use crate::fold::Fold;
use crate::known::with_listing;
use crate::listing::Listing;
use crate::members::Members;
use crate::nodes::Nodes;
use crate::settled::settled_after;
use crate::walk::{Processed, Turn, walk};
use dz_name::Name;
use dz_settings::Config;
use std::alloc::{AllocError, Global};
use std::sync::Arc;

/// What a fold has after a listing that it hadn't before.
#[derive(Drop)]
pub(crate) struct After {
    pub(crate) members: Arc<Members>,
    pub(crate) changes: Vec<Happening>,
    pub(crate) nodes: Arc<Nodes>,
}

impl Fold {
    /// The fold after an unbroken listing of a configured catalog, and what happened. The listing's position is the
    /// incarnation of the zones that become members by it. This fold stays as it is.
    ///
    /// # Errors
    ///
    /// `AllocError` where there is no memory for the new fold.
    pub fn process(
        &self,
        alloc: Global,
        catalog: &Name,
        listing: Listing,
        position: u64,
    ) -> Result<(Fold, Changes), AllocError>
        requires { IsSome (number_of self.now.config catalog.now) }
        ensures fold { IfOk result (λ r. r.0 ≡ process self.now catalog.now listing position) }
        ensures changes { IfOk result (λ r. r.1 ≡ changes self.now catalog.now listing position) }
        ensures each { IfOk result (λ r. EachZone self.now catalog.now listing position r.0 r.1) }
    {
        let number = self.configured_number(catalog);
        let turn = Turn { number, position };
        let processed = process_nodes(alloc, self, turn, &listing)?;
        let members = Members::from_shared(alloc, processed.members)?;
        let members = Arc::new(alloc, members)?;
        let nodes = Nodes::from_listing(alloc, listing)?;
        let nodes = Arc::new(alloc, nodes)?;
        let after = After {
            members,
            changes: processed.changes,
            nodes,
        };
        self.with(alloc, turn, after)
    }

    /// The number of a configured catalog.
    pub(crate) fn configured_number(&self, catalog: &Name) -> u8
        requires { IsSome (number_of self.now.config catalog.now) }
        ensures number { number_of self.now.config catalog.now ≡ Some result }
        ensures fold { IsFold self.now }
    {
        let _ = &self.config;
        match self.catalog_number(catalog) {
            Some(number) => number as u8,
            None => unreachable!(),
        }
    }

    /// The fold that has these members after a listing, and the changes. The error is out of memory.
    pub(crate) fn with(
        &self,
        alloc: Global,
        turn: Turn,
        after: After,
    ) -> Result<(Fold, Changes), AllocError>
        requires number { turn.number < length self.now.config }
        requires listing { IsListing after.nodes.value }
        requires members { map (shown self.now.config) after.members.value ≡ (process self.now
            (catalog_at self.now turn.number) after.nodes.value turn.position).members }
        requires numbered { All (IsNumbered self.now.config) after.members.value }
        requires few { length after.members.value < 2 ^ 63 }
        requires changes { map (change_of self.now.config) after.changes.items
            ≡ changes self.now (catalog_at self.now turn.number) after.nodes.value turn.position }
        requires configured { All (λ h. IsConfigured self.now.config h.what) after.changes.items }
        ensures fold { IfOk result (λ r. r.0 ≡ process self.now (catalog_at self.now turn.number)
            after.nodes.value turn.position) }
        ensures changes { IfOk result (λ r. r.1 ≡ changes self.now (catalog_at self.now turn.number)
            after.nodes.value turn.position) }
        ensures each { IfOk result (λ r. EachZone self.now (catalog_at self.now turn.number)
            after.nodes.value turn.position r.0 r.1) }
    {
        let number = turn.number as usize;
        let settled = settled_after(alloc, &self.settled, number, &after.changes)?;
        let listings = with_listing(alloc, &self.listings, number, after.nodes)?;
        let changes = Changes::new(self.shared_config()?, after.changes);
        let config = self.shared_config()?;
        let fold = Fold {
            config,
            members: after.members,
            listings,
            settled,
        };
        Ok((fold, changes))
    }

    /// The configuration once more. The error is out of memory.
    pub(crate) fn shared_config(&self) -> Result<Arc<Config>, AllocError>
        ensures { IfOk result (λ config. config.value ≡ self.now.config) }
    {
        Arc::try_clone(&self.config)
    }
}

/// The members and the changes after the nodes of a listing. The error is out of memory.
pub(crate) fn process_nodes(
    alloc: Global,
    fold: &Fold,
    turn: Turn,
    listing: &Listing,
) -> Result<Processed, AllocError>
    requires fold { IsFold fold.now }
    requires number { turn.number < length fold.now.config }
    ensures members { IfOk result (λ p. map (shown fold.now.config) p.members.items
        ≡ (process fold.now (catalog_at fold.now turn.number) listing.now turn.position).members) }
    ensures changes { IfOk result (λ p. map (change_of fold.now.config) p.changes.items
        ≡ changes fold.now (catalog_at fold.now turn.number) listing.now turn.position) }
    ensures order { IfOk result (λ p. IsStrictlySortedBy canonical_order
        (map (λ m. m.zone) (map (shown fold.now.config) p.members.items))) }
    ensures numbered { IfOk result (λ p. All (IsNumbered fold.now.config) p.members.items) }
    ensures configured { IfOk result
        (λ p. All (λ h. IsConfigured fold.now.config h.what) p.changes.items) }
    ensures listing { IsListing listing.now }
{
    walk(alloc, fold, turn, listing)
}
