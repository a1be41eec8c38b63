//! The table after a listing.

ghost use Rattle.std.specs.Prelude.{◌≡◌, map, IfOk};
ghost use Rattle.dz_member.specs.Membership.{shown};
ghost use Rattle.dz_member.specs.Fold.{IsFold};
ghost use Rattle.std.specs.Option.{unwrap_or};
ghost use Rattle.dz_table.specs.Table.{slot_of};
ghost use Rattle.dz_history.specs.State.{IsState};
ghost use Rattle.dz_history.specs.After.{slot_after, fresh};
ghost use Rattle.dz_history.specs.inner.Changed.{AreListed};

use crate::holdings::Holdings;
use crate::table_changed::table_changed;
use dz_member::{Changes, Fold, Membership, Memberships};
use dz_name::Name;
use dz_steps::Steps;
use dz_table::{Ahead, SharedSlot, Slot, Table};
use std::alloc::{AllocError, Global};
use std::marker::Brand;
use std::sync::Arc;
use std::sync::ledger::{Blank, Ledger};

/// The most changes that are made one by one, so that a listing that changes little costs little.
const FEW: usize = 64;

/// The table after a listing: the slots of zones whose incarnation is unchanged stay, and others are fresh. Few changes
/// are made to the table before; after many the slots of all members are gathered. `AllocError` where memory runs out.
pub(crate) fn table_after(
    alloc: Global,
    before: &Holdings,
    fold: &Fold,
    changes: &Changes,
) -> Result<Arc<Table>, AllocError>
    requires state { IsState before.now }
    requires listed { AreListed before.now fold.now changes.now }
    ensures table { IfOk result (λ t. t.value ≡ map (slot_after before.now) fold.now.members) }
    ensures fold { IsFold fold.now }
{
    let memberships = fold.memberships();
    if changes.len() <= FEW {
        return table_changed(alloc, before.table(), changes);
    }
    let slots = slots_after(alloc, before, memberships)?;
    Ok(Arc::new(alloc, Table::from_shared(alloc, slots)?)?)
}

/// The slots of these members, in their order. `AllocError` where memory runs out.
fn slots_after(
    alloc: Global,
    before: &Holdings,
    memberships: Memberships,
) -> Result<Vec<SharedSlot>, AllocError>
    ensures { IfOk result (λ slots. slots.items
        ≡ map (λ m. slot_after before.now (shown before.now.fold.config m)) memberships.entry) }
{
    let mut slots = Vec::new(alloc);
    let mut likely = 0;
    let mut ahead = before.table().ahead();
    'members: for membership in memberships {
        let slot = slot_after(alloc, before, &mut likely, &mut ahead, membership)?;
        slots.push(slot)?;
    }
    Ok(slots)
}

/// The slot of a member. Its earlier membership is looked for first at a likely place, and its earlier slot among those
/// ahead. `AllocError` where memory runs out.
fn slot_after(
    alloc: Global,
    before: &Holdings,
    likely: &mut usize,
    ahead: &mut Ahead,
    membership: &Membership,
) -> Result<SharedSlot, AllocError>
    requires { ahead.old ≡ before.now.table }
    ensures slot { IfOk result (λ slot. slot
        ≡ slot_after before.now (shown before.now.fold.config membership.now)) }
    ensures ahead { ahead.new ≡ ahead.old }
{
    let zone = membership.zone.as_ref().to_name();
    match before.fold().find_near(likely, &zone) {
        Some(member) => {
            if member.incarnation() == membership.incarnation {
                same_slot(alloc, ahead, &zone)
            } else {
                fresh(alloc, &zone)
            }
        }
        None => fresh(alloc, &zone),
    }
}

/// The slot of a zone, shared, or else a fresh one. `AllocError` where memory runs out.
fn same_slot(alloc: Global, ahead: &mut Ahead, zone: &Name) -> Result<SharedSlot, AllocError>
    ensures slot { IfOk result (λ slot. slot
        ≡ unwrap_or (slot_of zone.now ahead.old) (fresh zone.now)) }
    ensures ahead { ahead.new ≡ ahead.old }
{
    match counted_slot::<Brand>(Blank::new(1), alloc, ahead, zone)? {
        Some(slot) => Ok(slot),
        None => fresh(alloc, zone),
    }
}

/// The slot of a zone, if it has one, counted in a ledger that is still blank.
fn counted_slot<L: Ledger>(
    blank: Blank,
    alloc: Global,
    ahead: &mut Ahead,
    zone: &Name,
) -> Result<Option<SharedSlot>, AllocError>
    requires name { blank.name ≡ L.name }
    requires parts { blank.parts ≡ L.parts }
    requires whole { blank.parts ≡ 1 }
    ensures slot { IfOk result (λ slot. slot ≡ slot_of zone.now ahead.old) }
    ensures ahead { ahead.new ≡ ahead.old }
{
    let mut steps = Steps::<L>::new(blank);
    ahead.slot(alloc, zone, &mut steps)
}

/// The slot of a zone that begins.
fn fresh(alloc: Global, zone: &Name) -> Result<SharedSlot, AllocError>
    ensures { IfOk result (λ slot. slot ≡ fresh zone.now) }
{
    SharedSlot::new(alloc, Slot::new(alloc, zone, 0, None)?)
}
