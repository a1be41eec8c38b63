//! The slots of a table, for lookups of zones in ascending order.

ghost use Rattle.std.specs.Prelude.{◌≡◌, ◌+◌, ◌≤◌, List, Some, IfOk, IfSome};
ghost use Rattle.dz_table.specs.Table.{slot_of};
ghost use Rattle.dz_table.specs.inner.Ahead.{AreOf};
ghost use Rattle.dz_table.specs.inner.Kept.{slots_of};

use crate::shared_slot::SharedSlot;
use crate::slot::Slot;
use crate::table::Table;
use dz_chunks::{Entry, Share, Walk};
use dz_keys::ZoneKey;
use dz_name::Name;
use dz_steps::Steps;
use std::alloc::{AllocError, Global};
use std::cmp::Ordering;
use std::marker::Model;
use std::sync::ledger::Ledger;

/// The most slots that are passed at once.
const MOST: u32 = 256;

/// A table that is asked for zones in ascending order, and the slots that they have not passed yet: the first of them,
/// and those after it. Zones that mostly have slots take one comparison each. Contracts see the table.
#[derive(Drop)]
pub struct Ahead<'a> {
    table: &'a Table,
    first: Option<&'a Entry<ZoneKey, Slot>>,
    behind: Walk<'a, ZoneKey, Slot>,
}

impl<'a> Model for Ahead<'a> {
    ghost use Rattle.std.specs.Prelude.{List, ◌++◌, option_map};
    ghost use Rattle.std.specs.Option.{option_to_list};
    ghost use Rattle.dz_table.specs.Slot.{SlotOf};
    ghost use Rattle.dz_table.specs.inner.Ahead.{AreOf};
    ghost use Rattle.dz_table.specs.inner.Kept.{slots_of};

    ghost Value = { List SlotOf };

    ghost view = { λ a. a.table.now };

    ghost invariant = { λ a. AreOf a.table.now
        (slots_of (option_to_list (option_map (λ r. r.now) a.first) ++ a.behind)) };
}

impl<'a> Ahead<'a> {
    /// A table with all its slots ahead.
    pub(crate) fn of(table: &'a Table, mut behind: Walk<'a, ZoneKey, Slot>) -> Ahead<'a>
        requires { AreOf table.now (slots_of behind) }
        ensures { result ≡ table.now }
    {
        let first = behind.next_entry();
        Ahead {
            table,
            first,
            behind,
        }
    }

    /// The slot of a zone, as tables share it. It is looked for among all slots where the zones before it don't lead to
    /// it. At most one reference to a slot is copied.
    ///
    /// # Errors
    ///
    /// `AllocError` if memory runs out.
    pub fn slot<L: Ledger>(
        &mut self,
        alloc: Global,
        zone: &Name,
        steps: &mut Steps<L>,
    ) -> Result<Option<SharedSlot>, AllocError>
        ensures slot { IfOk result (λ slot. slot ≡ slot_of zone.now self.old) }
        ensures table { self.new ≡ self.old }
        ensures cost { steps.new ≤ steps.old + 1 }
    {
        if let Some(entry) = self.take(zone) {
            return Ok(Some(SharedSlot::of(entry, steps)?));
        }
        self.pass(zone);
        match self.take(zone) {
            Some(entry) => Ok(Some(SharedSlot::of(entry, steps)?)),
            None => search(alloc, self.table, zone),
        }
    }

    /// Goes on after the first slot.
    fn step(&mut self)
        ensures { self.new ≡ self.old }
    {
        self.first = self.behind.next_entry();
    }

    /// The first slot, if it is the zone's; the iteration then goes on after it.
    fn take(&mut self, zone: &Name) -> Option<&'a Entry<ZoneKey, Slot>>
        ensures slot { IfSome result (λ entry. Some entry.now.1 ≡ slot_of zone.now self.old) }
        ensures table { self.new ≡ self.old }
    {
        let entry = self.first?;
        if entry.value().zone().same(&zone.as_ref()) {
            self.step();
            Some(entry)
        } else {
            None
        }
    }

    /// Goes on after the slots of zones that come before a zone, 256 at most.
    fn pass(&mut self, zone: &Name)
        ensures { self.new ≡ self.old }
    {
        'slots: for _ in 0..MOST {
            match self.first {
                None => return,
                Some(entry) => {
                    if entry.value().zone().canonical_cmp(&zone.as_ref()) != Ordering::Less {
                        return;
                    }
                    self.step();
                }
            }
        }
    }
}

/// The slot of a zone among all, in memory of its own. The error is out of memory.
fn search(alloc: Global, table: &Table, zone: &Name) -> Result<Option<SharedSlot>, AllocError>
    ensures { IfOk result (λ slot. slot ≡ slot_of zone.now table.now) }
{
    match table.get(zone) {
        None => Ok(None),
        Some(slot) => Ok(Some(SharedSlot::new(alloc, slot.share()?)?)),
    }
}
