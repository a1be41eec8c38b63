//! The table of zones.

ghost use Rattle.std.specs.Prelude.{◌≡◌, ◌≢◌, ◌≤◌, ◌+◌, ◌-◌, ◌/◌, [], Some, None, IfOk, IfSome, length, option_map};
ghost use Rattle.dz_name.specs.Name.{IsWithin};
ghost use Rattle.dz_name.specs.Words.{Name};
ghost use Rattle.dz_table.specs.Table.{closest_for, closest_above, IsTable, IsClosest, put, without, slot_of, closest};
ghost use Rattle.dz_table.specs.Table.{SearchesTake};
ghost use Rattle.dz_chunks.specs.Search.{TakesAtMost};

use crate::ahead::Ahead;
use crate::shared_slot::{SharedSlot, entries_of};
use crate::slot::Slot;
use crate::slots::Slots;
use dz_chunks::{Chunks, Copies};
use dz_index::labels_apart;
use dz_keys::ZoneKey;
use dz_name::Name;
use dz_name::dns::TYPE_DS;
use dz_steps::Steps;
use std::alloc::{AllocError, Global};
use std::marker::{Brand, Model};
use std::sync::ledger::{Blank, Ledger};

/// Slots in the canonical order of their zones (RFC 4034 section 6.1), one at most for each zone. A changed table is a
/// new one, which shares with the old one all other slots.
#[derive(Drop)]
pub struct Table {
    slots: Chunks<ZoneKey, Slot>,
}

impl Model for Table {
    ghost use Rattle.std.specs.Prelude.{List};
    ghost use Rattle.dz_table.specs.Slot.{SlotOf};
    ghost use Rattle.dz_table.specs.inner.Kept.{slots_of, IsKept};

    ghost Value = { List SlotOf };

    ghost view = { λ t. slots_of t.slots };

    ghost invariant = { λ t. IsKept t.slots };
}

/// Ledgers that are still blank: one for each counter of a change.
struct Blanks {
    entries: Blank,
    references: Blank,
    comparisons: Blank,
}

/// Counters of a change, in ledgers that are still blank.
fn copies_in<E: Ledger, R: Ledger, C: Ledger>(blanks: Blanks) -> Copies<E, R, C>
    requires entries_name { blanks.entries.name ≡ E.name }
    requires entries_parts { blanks.entries.parts ≡ E.parts }
    requires entries_whole { blanks.entries.parts ≡ 1 }
    requires references_name { blanks.references.name ≡ R.name }
    requires references_parts { blanks.references.parts ≡ R.parts }
    requires references_whole { blanks.references.parts ≡ 1 }
    requires comparisons_name { blanks.comparisons.name ≡ C.name }
    requires comparisons_parts { blanks.comparisons.parts ≡ C.parts }
    requires comparisons_whole { blanks.comparisons.parts ≡ 1 }
{
    let Blanks {
        entries,
        references,
        comparisons,
    } = blanks;
    Copies {
        entries: Steps::<E>::new(entries),
        references: Steps::<R>::new(references),
        comparisons: Steps::<C>::new(comparisons),
    }
}

impl Table {
    /// The table without slots. It takes no memory.
    pub fn empty(alloc: Global) -> Table
        ensures { result ≡ [] }
    {
        Table {
            slots: Chunks::empty(alloc),
        }
    }

    /// The table of shared slots in the canonical order of their zones, made in one pass over them. The error is out of
    /// memory.
    pub fn from_shared(alloc: Global, slots: Vec<SharedSlot>) -> Result<Table, AllocError>
        requires { IsTable slots.items }
        ensures { IfOk result (λ t. t ≡ slots.items) }
    {
        let entries = entries_of(alloc, slots)?;
        let slots = Chunks::from_entries(alloc, entries)?;
        Ok(Table { slots })
    }

    /// The slots, in the canonical order of their zones.
    pub fn walk(&self) -> Slots<'_>
        ensures slots { result ≡ self.now }
        ensures order { IsTable self.now }
    {
        Slots::over(self.slots.walk())
    }

    /// The slots, for lookups of zones in ascending order.
    pub fn ahead(&self) -> Ahead<'_>
        ensures { result ≡ self.now }
    {
        Ahead::of(self, self.slots.walk())
    }

    /// A new table with this slot in place of the one of its zone, or beside the others, which it shares. It copies at most
    /// 256 references to slots, and one to a chunk of them for each 64 slots and one more, and makes one search.
    pub fn with<E: Ledger, R: Ledger, C: Ledger>(
        &self,
        alloc: Global,
        slot: Slot,
        copies: &mut Copies<E, R, C>,
    ) -> Result<Table, AllocError>
        ensures value { IfOk result (λ t. t ≡ put self.now slot) }
        ensures own { IfOk result (λ t. slot_of slot.zone t ≡ Some slot) }
        ensures others { IfOk result
            (λ t. (zone : Name) → zone ≢ slot.zone → slot_of zone t ≡ slot_of zone self.now) }
        ensures entries { copies.new.entries ≤ copies.old.entries + 256 }
        ensures references { copies.new.references
            ≤ copies.old.references + (length self.now / 64 + 1) }
        ensures comparisons { TakesAtMost (length self.now) 9
            (copies.new.comparisons - copies.old.comparisons) }
    {
        let slots = self.slots.with(alloc, slot, copies)?;
        Ok(Table { slots })
    }

    /// The same as [`Table::with`], for a caller that counts nothing.
    pub fn with_slot(&self, alloc: Global, slot: Slot) -> Result<Table, AllocError>
        ensures { IfOk result (λ t. t ≡ put self.now slot) }
    {
        let blanks = Blanks {
            entries: Blank::new(1),
            references: Blank::new(1),
            comparisons: Blank::new(1),
        };
        self.counted_with::<Brand, Brand, Brand>(blanks, alloc, slot)
    }

    /// The same, counted in ledgers that are still blank.
    fn counted_with<E: Ledger, R: Ledger, C: Ledger>(
        &self,
        blanks: Blanks,
        alloc: Global,
        slot: Slot,
    ) -> Result<Table, AllocError>
        requires entries_name { blanks.entries.name ≡ E.name }
        requires entries_parts { blanks.entries.parts ≡ E.parts }
        requires entries_whole { blanks.entries.parts ≡ 1 }
        requires references_name { blanks.references.name ≡ R.name }
        requires references_parts { blanks.references.parts ≡ R.parts }
        requires references_whole { blanks.references.parts ≡ 1 }
        requires comparisons_name { blanks.comparisons.name ≡ C.name }
        requires comparisons_parts { blanks.comparisons.parts ≡ C.parts }
        requires comparisons_whole { blanks.comparisons.parts ≡ 1 }
        ensures { IfOk result (λ t. t ≡ put self.now slot) }
    {
        let mut copies = copies_in::<E, R, C>(blanks);
        self.with(alloc, slot, &mut copies)
    }

    /// A new table without the slot of a zone, equal to this one where the zone has none. It copies and
    /// compares no more than [`Table::with`].
    pub fn without<E: Ledger, R: Ledger, C: Ledger>(
        &self,
        alloc: Global,
        zone: &Name,
        copies: &mut Copies<E, R, C>,
    ) -> Result<Table, AllocError>
        ensures value { IfOk result (λ t. t ≡ without self.now zone.now) }
        ensures own { IfOk result (λ t. slot_of zone.now t ≡ None) }
        ensures others { IfOk result
            (λ t. (other : Name) → other ≢ zone.now → slot_of other t ≡ slot_of other self.now) }
        ensures entries { copies.new.entries ≤ copies.old.entries + 256 }
        ensures references { copies.new.references
            ≤ copies.old.references + (length self.now / 64 + 1) }
        ensures comparisons { TakesAtMost (length self.now) 9
            (copies.new.comparisons - copies.old.comparisons) }
    {
        let slots = self.slots.without(alloc, &ZoneKey::of(zone), copies)?;
        Ok(Table { slots })
    }

    /// The same as [`Table::without`], for a caller that counts nothing.
    pub fn without_slot(&self, alloc: Global, zone: &Name) -> Result<Table, AllocError>
        ensures { IfOk result (λ t. t ≡ without self.now zone.now) }
    {
        let blanks = Blanks {
            entries: Blank::new(1),
            references: Blank::new(1),
            comparisons: Blank::new(1),
        };
        self.counted_without::<Brand, Brand, Brand>(blanks, alloc, zone)
    }

    /// The same, counted in ledgers that are still blank.
    fn counted_without<E: Ledger, R: Ledger, C: Ledger>(
        &self,
        blanks: Blanks,
        alloc: Global,
        zone: &Name,
    ) -> Result<Table, AllocError>
        requires entries_name { blanks.entries.name ≡ E.name }
        requires entries_parts { blanks.entries.parts ≡ E.parts }
        requires entries_whole { blanks.entries.parts ≡ 1 }
        requires references_name { blanks.references.name ≡ R.name }
        requires references_parts { blanks.references.parts ≡ R.parts }
        requires references_whole { blanks.references.parts ≡ 1 }
        requires comparisons_name { blanks.comparisons.name ≡ C.name }
        requires comparisons_parts { blanks.comparisons.parts ≡ C.parts }
        requires comparisons_whole { blanks.comparisons.parts ≡ 1 }
        ensures { IfOk result (λ t. t ≡ without self.now zone.now) }
    {
        let mut copies = copies_in::<E, R, C>(blanks);
        self.without(alloc, zone, &mut copies)
    }

    /// The slot of exactly this zone; none where it has none. For a caller that counts nothing.
    pub fn get(&self, zone: &Name) -> Option<&Slot>
        ensures slot { option_map (λ r. r.now) result ≡ slot_of zone.now self.now }
        ensures order { IsTable self.now }
    {
        self.counted_get::<Brand>(Blank::new(1), zone)
    }

    /// The same, counted in a ledger that is still blank.
    fn counted_get<L: Ledger>(&self, blank: Blank, zone: &Name) -> Option<&Slot>
        requires name { blank.name ≡ L.name }
        requires parts { blank.parts ≡ L.parts }
        requires whole { blank.parts ≡ 1 }
        ensures slot { option_map (λ r. r.now) result ≡ slot_of zone.now self.now }
        ensures order { IsTable self.now }
    {
        let mut steps = Steps::<L>::new(blank);
        self.find(zone, &mut steps)
    }

    /// The slot of exactly this zone; none where it has none. It is one search.
    pub fn find<L: Ledger>(&self, zone: &Name, steps: &mut Steps<L>) -> Option<&Slot>
        ensures slot { option_map (λ r. r.now) result ≡ slot_of zone.now self.now }
        ensures order { IsTable self.now }
        ensures cost { TakesAtMost (length self.now) 9 (steps.new - steps.old) }
    {
        self.slots.get(&ZoneKey::of(zone), steps)
    }

    /// The slot that answers for a name and a type: that of the closest enclosing zone, but for a DS that of the
    /// closest zone above the name, if there is one (RFC 4035 section 3.1.4.1). It takes no more searches than the name
    /// has labels and one, but for a DS as many as there are names above it before these.
    pub fn closest<L: Ledger>(&self, name: &Name, kind: u16, steps: &mut Steps<L>) -> Option<&Slot>
        ensures value { option_map (λ r. r.now) result ≡ closest_for self.now name.now kind }
        ensures encloses { IfSome result (λ slot. IsWithin name.now slot.now.zone) }
        ensures cost { kind ≢ TYPE_DS
            → SearchesTake (length self.now) (length name.now + 1) (steps.new - steps.old) }
        ensures ds_cost { SearchesTake (length self.now) (length name.now + (length name.now + 1))
            (steps.new - steps.old) }
    {
        if kind != TYPE_DS {
            return self.enclosing(name, steps);
        }
        match self.above(name, steps) {
            Some(slot) => Some(slot),
            None => self.enclosing(name, steps),
        }
    }

    /// The slot whose zone encloses the name one label up and has most labels; none for the root. It takes no more searches
    /// than the name has labels.
    fn above<L: Ledger>(&self, name: &Name, steps: &mut Steps<L>) -> Option<&Slot>
        ensures value { option_map (λ r. r.now) result ≡ closest_above self.now name.now }
        ensures encloses { IfSome result (λ slot. IsWithin name.now slot.now.zone) }
        ensures cost { SearchesTake (length self.now) (length name.now) (steps.new - steps.old) }
    {
        if name.label_count() == 0 {
            return None;
        }
        match self.enclosing(&name.ancestor(1), steps) {
            Some(slot) => Some(slot),
            None => None,
        }
    }

    /// The slot whose zone encloses the name and has most labels (RFC 1034 section 4.3.2, step 2); none where no zone
    /// encloses it. It takes no more searches than the name has labels and one.
    pub fn enclosing<L: Ledger>(&self, name: &Name, steps: &mut Steps<L>) -> Option<&Slot>
        ensures value { option_map (λ r. r.now) result ≡ closest self.now name.now }
        ensures nearest { IsClosest self.now name.now (option_map (λ r. r.now) result) }
        ensures cost { SearchesTake (length self.now) (length name.now + 1)
            (steps.new - steps.old) }
    {
        // a zone that encloses a name encloses all names between the two in canonical order
        let mut asked = *name;
        'ancestors: loop {
            let slot = self.slots.last_upto(&ZoneKey::of(&asked), steps)?;
            let zone = slot.zone();
            let below = asked.as_ref();
            if below.is_within(&zone) {
                return Some(slot);
            }
            asked = asked.ancestor(labels_apart(&below, &zone));
        }
    }
}
