//! The records that are kept of a whole form.

ghost use Rattle.std.specs.Prelude.{◌≡◌, ◌∷◌, ◌++◌, [], not, if◌then◌else◌, IfOk, OnOk};
ghost use Rattle.std.specs.BTreeSet.{insert_key};
ghost use Rattle.std.specs.Bool.{OnFalse};
ghost use Rattle.dz_record.specs.Record.{Record, record_order};
ghost use Rattle.dz_record.specs.Records.{distinct};
ghost use Rattle.dz_axfr.specs.inner.Sifted.{IsKnown, has_same};

use dz_record::Rr;
use dz_xfr::{KEPT_RECORDS, Room};
use std::alloc::{AllocError, Global};
use std::collections::BTreeSet;
use std::marker::Model;

/// Records in the order in which they came. As long as they are few, all are kept; once they are many, those that are
/// the same are kept once.
#[derive(Drop)]
pub(crate) struct Kept {
    alloc: Global,
    records: Vec<Rr>,
    room: Room,
    /// The records in canonical order, once they are many.
    seen: Option<BTreeSet<Rr>>,
}

impl Model for Kept {
    ghost use Rattle.std.specs.Prelude.{List, option_map};
    ghost use Rattle.dz_record.specs.Record.{Record};
    ghost use Rattle.dz_axfr.specs.inner.Sifted.{AreKnown};

    ghost Value = { List Record };

    ghost view = { λ k. k.records.items };

    ghost invariant = { λ k. AreKnown (option_map (λ s. s.keys) k.seen) k.records.items };
}

impl Kept {
    /// One record. `AllocError` where memory runs out.
    pub(crate) fn one(alloc: Global, first: Rr) -> Result<Kept, AllocError>
        ensures { IfOk result (λ k. k ≡ first ∷ []) }
    {
        let mut room = Room::whole();
        room.take(&first)?;
        let mut records = Vec::with_capacity(alloc, 1)?;
        records.push(first)?;
        Ok(Kept {
            alloc,
            records,
            room,
            seen: None,
        })
    }

    /// The records.
    pub(crate) fn records(&self) -> &[Rr]
        ensures { result.now ≡ self.now }
    {
        self.records.as_slice()
    }

    /// The records, by value.
    pub(crate) fn into_records(self) -> Vec<Rr>
        ensures { result.items ≡ self }
    {
        self.records
    }

    /// The same with further records. `AllocError` where memory runs out, or where the records would be more than are
    /// kept, those that are the same being counted once.
    pub(crate) fn and(self, more: Vec<Rr>) -> Result<Kept, AllocError>
        ensures { IfOk result (λ k. distinct k ≡ distinct (self ++ more.items)) }
    {
        let Kept {
            alloc,
            records,
            room,
            seen,
        } = self;
        match seen {
            None => joined(alloc, records, room, more),
            Some(seen) => sifted(alloc, records, room, seen, more),
        }
    }
}

/// Few records with further ones. `AllocError` as in [`Kept::and`].
fn joined(
    alloc: Global,
    mut records: Vec<Rr>,
    mut room: Room,
    mut more: Vec<Rr>,
) -> Result<Kept, AllocError>
    ensures { IfOk result (λ k. distinct k ≡ distinct (records.items ++ more.items)) }
{
    if KEPT_RECORDS < records.len().saturating_add(more.len()) || room.take_all(&more).is_err() {
        let nothing = BTreeSet::new(alloc);
        records.append(&mut more)?;
        return sifted(alloc, Vec::new(alloc), Room::whole(), nothing, records);
    }
    records.append(&mut more)?;
    Ok(Kept {
        alloc,
        records,
        room,
        seen: None,
    })
}

/// Records of which those that were seen are not kept again. `AllocError` as in [`Kept::and`].
fn sifted(
    alloc: Global,
    mut records: Vec<Rr>,
    mut room: Room,
    mut seen: BTreeSet<Rr>,
    more: Vec<Rr>,
) -> Result<Kept, AllocError>
    requires { IsKnown seen.keys records.items }
    ensures { IfOk result (λ k. distinct k ≡ distinct (records.items ++ more.items)) }
{
    let mut rest = more.into_iter();
    'rest: while let Some(found) = rest.next() {
        sift(&mut records, &mut room, &mut seen, found)?;
    }
    Ok(Kept {
        alloc,
        records,
        room,
        seen: Some(seen),
    })
}

/// Keeps a record that wasn't seen. `AllocError` as in [`Kept::and`].
fn sift(
    records: &mut Vec<Rr>,
    room: &mut Room,
    seen: &mut BTreeSet<Rr>,
    found: Rr,
) -> Result<(), AllocError>
    requires { IsKnown seen.old.keys records.old.items }
    ensures known { OnOk result (IsKnown seen.new.keys records.new.items) }
    ensures sifted { OnOk result (records.new.items ≡ (if has_same found records.old.items
        then records.old.items else records.old.items ++ found ∷ [])) }
{
    if !see(seen, &found)? {
        return Ok(());
    }
    if KEPT_RECORDS <= records.len() {
        return Err(AllocError);
    }
    room.take(&found)?;
    records.push(found)?;
    Ok(())
}

/// Puts a record among those that were seen, and says whether it is new. `AllocError` where memory runs out.
fn see(seen: &mut BTreeSet<Rr>, found: &Rr) -> Result<bool, AllocError>
    ensures new { IfOk result (λ new. new ≡ not (has_same found.now seen.old.keys)) }
    ensures joined { OnOk result (seen.new.keys ≡ insert_key record_order seen.old.keys found.now) }
    ensures unchanged { IfOk result (λ new. OnFalse new (seen.new.keys ≡ seen.old.keys)) }
{
    let new = seen.insert(found.share()?)?;
    Ok(new)
}
