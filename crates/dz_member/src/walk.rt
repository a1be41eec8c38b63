//! The walk over members and nodes that are both in the order of their zones.

ghost use Rattle.std.specs.Prelude.{◌≡◌, ◌<◌, ◌++◌, length, map, drop, if◌then◌else◌, option_map, OnOk, IfOk, All};
ghost use Rattle.std.specs.Prelude.{Some, None, slice_get, IfSome};
ghost use Rattle.std.specs.Option.{option_to_list, ForSome};
ghost use Rattle.std.specs.List.{AllByRecursion};
ghost use Rattle.std.specs.List.Sorted.{IsStrictlySortedBy};
ghost use Rattle.dz_name.specs.Name.{canonical_order};
ghost use Rattle.dz_member.specs.Membership.{settings_at, shown, IsNumbered};
ghost use Rattle.dz_member.specs.Fold.{IsFold};
ghost use Rattle.dz_member.specs.Listing.{IsListing};
ghost use Rattle.dz_member.specs.Process.{in_zone_order};
ghost use Rattle.dz_member.specs.inner.Kept.{members_from, changes_from};
ghost use Rattle.dz_member.specs.inner.Happened.{change_of, IsConfigured};
ghost use Rattle.dz_member.specs.inner.Kept.{membership_after, StandsNumbered};
ghost use Rattle.dz_member.specs.inner.Walk.{judge_of, first_pair, pair_of};

use crate::change::{Happened, Happening};
use crate::fold::Fold;
use crate::judge::{Judged, Stands, judge, stays};
use crate::listing::{Listing, Node};
use crate::members::{Held, Shared};
use crate::membership::Membership;
use dz_name::{KeptName, NameRef};
use std::alloc::{AllocError, Global};
use std::cmp::Ordering;

/// Whose listing is processed: the number of its catalog, and the position that is the incarnation of what begins by it.
#[derive(Clone, Copy)]
pub(crate) struct Turn {
    pub(crate) number: u8,
    pub(crate) position: u64,
}

/// The members and the changes after a listing.
#[derive(Drop)]
pub(crate) struct Processed {
    alloc: Global,
    pub(crate) members: Vec<Shared>,
    pub(crate) changes: Vec<Happening>,
}

/// The first zone of two lists in zone order, its membership, and its node.
#[derive(Drop)]
struct Pair<'a> {
    zone: NameRef<'a>,
    member: Option<&'a Membership>,
    node: Option<&'a Node>,
}

impl<'a> Pair<'a> {
    /// The zone of a membership, which may have a node.
    fn of_member(member: &'a Membership, node: Option<&'a Node>) -> Pair<'a>
        ensures { pair_of result ≡ record {
          zone = member.now.zone;
          member = Some member.now;
          node = option_map (λ r. r.now) node.entry;
        } }
    {
        Pair {
            zone: member.zone.as_ref(),
            member: Some(member),
            node,
        }
    }

    /// The zone of a node that has no membership.
    fn of_node(node: &'a Node) -> Pair<'a>
        ensures { pair_of result ≡ record { zone = node.now.zone; member = None; node = Some node.now } }
    {
        Pair {
            zone: node.zone.as_ref(),
            member: None,
            node: Some(node),
        }
    }
}

/// The canonical order of two zones, which mostly are the same.
#[tactic(auto, using(crate::proofs::OrderLemmas::tied_same))]
fn zone_order(a: &NameRef, b: &NameRef) -> Ordering
    ensures { result ≡ canonical_order a.now b.now }
{
    if a.same(b) {
        Ordering::Equal
    } else {
        a.canonical_cmp(b)
    }
}

/// The first zone of memberships and of a list of nodes, of both of which the first is given.
fn first_pair<'a>(member: Option<&'a Membership>, node: Option<&'a Node>) -> Option<Pair<'a>>
    ensures { option_map pair_of result ≡ first_pair (option_map (λ r. r.now) member.entry)
        (option_map (λ r. r.now) node.entry) }
{
    match (member, node) {
        (None, None) => None,
        (None, Some(n)) => Some(Pair::of_node(n)),
        (Some(m), None) => Some(Pair::of_member(m, None)),
        (Some(m), Some(n)) => Some(match zone_order(&m.zone.as_ref(), &n.zone.as_ref()) {
            Ordering::Less => Pair::of_member(m, None),
            Ordering::Equal => Pair::of_member(m, Some(n)),
            Ordering::Greater => Pair::of_node(n),
        }),
    }
}

/// The number of the first node that is left, after the one of a number where it was taken.
fn behind(nodes: &[Node], at: usize, taken: bool) -> usize
    ensures { drop result (in_zone_order nodes.now)
        ≡ drop (if taken then 1 else 0) (drop at (in_zone_order nodes.now)) }
{
    if taken && at < nodes.len() {
        at + 1
    } else {
        at
    }
}

/// Passes the first membership, if it was taken.
fn pass(held: &mut Held, taken: bool)
    ensures { held.new ≡ drop (if taken then 1 else 0) held.old }
{
    if taken {
        held.step();
    }
}

impl Processed {
    /// Adds what is judged of the first zone of two lists. A member that stays is shared. The error is out of memory.
    fn add_pair(
        &mut self,
        fold: &Fold,
        turn: Turn,
        held: &Held,
        pair: &Pair,
    ) -> Result<(), AllocError>
        requires fold { IsFold fold.now }
        requires number { turn.number < length fold.now.config }
        requires numbered { ForSome (pair_of pair.now).member (IsNumbered fold.now.config) }
        requires first { IfSome (pair_of pair.now).member (λ m. slice_get held.now 0 ≡ Some m) }
        ensures members { OnOk result (map (shown fold.now.config) self.new.members.items
            ≡ map (shown fold.now.config) self.old.members.items ++ option_to_list
            (judge_of fold.now (settings_at fold.now.config turn.number).name turn.position
            (pair_of pair.now).member (pair_of pair.now).node).stands) }
        ensures changes { OnOk result (map (change_of fold.now.config) self.new.changes.items
            ≡ map (change_of fold.now.config) self.old.changes.items ++ option_to_list
            (option_map (λ what. record { zone = pair.now.zone; what = what })
            (judge_of fold.now (settings_at fold.now.config turn.number).name turn.position
            (pair_of pair.now).member (pair_of pair.now).node).change)) }
        ensures numbered { AllByRecursion (IsNumbered fold.now.config) self.old.members.items
            → OnOk result (AllByRecursion (IsNumbered fold.now.config) self.new.members.items) }
        ensures configured { AllByRecursion (λ h. IsConfigured fold.now.config h.what) self.old.changes.items
            → OnOk result
            (AllByRecursion (λ h. IsConfigured fold.now.config h.what) self.new.changes.items) }
    {
        if stays(fold, turn.number, pair.member, pair.node) {
            return self.keep(held, pair.member);
        }
        let judged = judge(fold, turn.number, turn.position, pair.member, pair.node)?;
        self.stand(held, pair.member, judged.stands)?;
        self.tell(&pair.zone, judged.change)
    }

    /// Adds a member, the first of these if there is one, as it is. The error is out of memory.
    fn keep(&mut self, held: &Held, member: Option<&Membership>) -> Result<(), AllocError>
        requires { IfSome (option_map (λ r. r.now) member) (λ m. slice_get held.now 0 ≡ Some m) }
        ensures members { OnOk result (self.new.members.items
            ≡ self.old.members.items ++ option_to_list (option_map (λ r. r.now) member.entry)) }
        ensures changes { self.new.changes.items ≡ self.old.changes.items }
    {
        if member.is_none() {
            return Ok(());
        }
        if let Some(shared) = held.share_first()? {
            self.members.push(shared)?;
        }
        Ok(())
    }

    /// Adds the member afterwards of a zone that has this one before, the first of these. The error is out of memory.
    fn stand(
        &mut self,
        held: &Held,
        member: Option<&Membership>,
        stands: Stands,
    ) -> Result<(), AllocError>
        requires { IfSome (option_map (λ r. r.now) member) (λ m. slice_get held.now 0 ≡ Some m) }
        ensures members { OnOk result (self.new.members.items
            ≡ self.old.members.items ++ option_to_list (membership_after
            (option_map (λ r. r.now) member.entry) stands)) }
        ensures changes { self.new.changes.items ≡ self.old.changes.items }
    {
        match stands {
            Stands::Same => self.keep(held, member),
            Stands::Gone => Ok(()),
            Stands::Now(membership) => {
                self.members.push(Shared::new(self.alloc, membership)?)?;
                Ok(())
            }
        }
    }

    /// Adds what happened to a zone. The error is out of memory.
    fn tell(&mut self, zone: &NameRef, change: Option<Happened>) -> Result<(), AllocError>
        ensures changes { OnOk result (self.new.changes.items
            ≡ self.old.changes.items ++ option_to_list
            (option_map (λ what. record { zone = zone.now; what = what }) change)) }
        ensures members { self.new.members.items ≡ self.old.members.items }
    {
        if let Some(what) = change {
            self.changes.push(Happening {
                zone: KeptName::of(self.alloc, zone)?,
                what,
            })?;
        }
        Ok(())
    }
}

/// The members and the changes after a listing. The error is out of memory.
pub(crate) fn walk(
    alloc: Global,
    fold: &Fold,
    turn: Turn,
    listing: &Listing,
) -> Result<Processed, AllocError>
    requires fold { IsFold fold.now }
    requires number { turn.number < length fold.now.config }
    ensures members { IfOk result (λ p. map (shown fold.now.config) p.members.items
        ≡ members_from fold.now (settings_at fold.now.config turn.number).name turn.position
        (in_zone_order listing.now)) }
    ensures changes { IfOk result (λ p. map (change_of fold.now.config) p.changes.items
        ≡ changes_from fold.now (settings_at fold.now.config turn.number).name turn.position
        (in_zone_order listing.now)) }
    ensures numbered { IfOk result (λ p. All (IsNumbered fold.now.config) p.members.items) }
    ensures configured { IfOk result
        (λ p. All (λ h. IsConfigured fold.now.config h.what) p.changes.items) }
    ensures listing { IsListing listing.now }
{
    let nodes = listing.nodes();
    let mut processed = Processed {
        alloc,
        members: Vec::with_capacity(alloc, fold.count())?,
        changes: Vec::new(alloc),
    };
    let mut held = fold.held();
    let mut at = 0;
    'zones: while let Some(pair) = first_pair(held.first(), listing.node_by_zone(at)) {
        processed.add_pair(fold, turn, &held, &pair)?;
        pass(&mut held, pair.member.is_some());
        at = behind(nodes, at, pair.node.is_some());
    }
    Ok(processed)
}
