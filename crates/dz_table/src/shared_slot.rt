//! Slots as tables share them.

ghost use Rattle.std.specs.Prelude.{◌≡◌, ◌+◌, map, IfOk};
ghost use Rattle.dz_table.specs.inner.Kept.{entries_of};

use crate::slot::Slot;
use dz_chunks::Entry;
use dz_keys::ZoneKey;
use dz_steps::Steps;
use std::alloc::{AllocError, Global};
use std::marker::Model;
use std::sync::ledger::Ledger;

/// A slot as tables share it: another table takes it over by one more reference to it.
#[derive(Drop)]
pub struct SharedSlot {
    entry: Entry<ZoneKey, Slot>,
}

impl Model for SharedSlot {
    ghost use Rattle.std.specs.Prelude.{◌≡◌};
    ghost use Rattle.dz_table.specs.Slot.{SlotOf};

    ghost Value = { SlotOf };

    ghost view = { λ s. s.entry.1 };

    ghost invariant = { λ s. s.entry.0 ≡ s.entry.1.zone };
}

impl SharedSlot {
    /// A slot that no table has yet. The error is out of memory.
    pub fn new(alloc: Global, slot: Slot) -> Result<SharedSlot, AllocError>
        ensures { IfOk result (λ shared. shared ≡ slot) }
    {
        Ok(SharedSlot {
            entry: Entry::new(alloc, slot)?,
        })
    }

    /// The slot of an entry of a map, once more. It is one step. The error is want of memory.
    pub(crate) fn of<L: Ledger>(
        entry: &Entry<ZoneKey, Slot>,
        steps: &mut Steps<L>,
    ) -> Result<SharedSlot, AllocError>
        ensures slot { IfOk result (λ shared. shared ≡ entry.now.1) }
        ensures counted { steps.new ≡ steps.old + 1 }
    {
        Ok(SharedSlot {
            entry: entry.copied(steps)?,
        })
    }

    /// The entry of a map.
    fn into_entry(self) -> Entry<ZoneKey, Slot>
        ensures { result ≡ (self.zone, self) }
    {
        self.entry
    }
}

/// Slots as the entries of a map. The error is out of memory.
pub(crate) fn entries_of(
    alloc: Global,
    slots: Vec<SharedSlot>,
) -> Result<Vec<Entry<ZoneKey, Slot>>, AllocError>
    ensures { IfOk result (λ entries. entries.items ≡ entries_of slots.items) }
{
    let mut entries = Vec::with_capacity(alloc, slots.len())?;
    'slots: for slot in slots {
        entries.push(slot.into_entry())?;
    }
    Ok(entries)
}
