//! A version under changes as one list of records, with the index of their owners.

ghost use Rattle.std.specs.Prelude.{◌≡◌, ◌-◌, ◌+◌, ◌<◌, ◌≤◌, ◌∷◌, ◌++◌, [], Bool, List, true, false, length, take};
ghost use Rattle.std.specs.Prelude.{drop, slice_index_or, slice_range, IfOk, OnOk};
ghost use Rattle.std.specs.List.{AllByRecursion};
ghost use Rattle.std.specs.Ordering.{is_gt};
ghost use Rattle.dz_name.specs.Words.{Name};
ghost use Rattle.dz_record.specs.Record.{Record, record_order};
ghost use Rattle.dz_index.specs.Index.{order_behind};
ghost use Rattle.dz_index.specs.Rows.{IsIndex, total};
ghost use Rattle.dz_zone.specs.Version.{owners_of};
ghost use Rattle.dz_zone.specs.inner.Kept.{IsRisen};
ghost use Rattle.dz_zone.specs.inner.Overlay.{Rises, first_before};
ghost use Rattle.dz_zone.specs.inner.Revising.{IsRevising, IsMerged, IsStretch, follows, revised_of};

use crate::version::Version;
use dz_index::{Index, OWNERS, OwnerKey};
use dz_name::NameRef;
use dz_record::Rr;
use dz_steps::Steps;
use std::alloc::{AllocError, Global};
use std::cmp::Ordering;
use std::collections::BTreeSet;
use std::marker::{Brand, Model};
use std::mem::replace;
use std::sync::ledger::{Blank, Ledger};

/// Records in canonical order, as one comes after another, with the index of their owners.
#[derive(Drop)]
struct Merging {
    alloc: Global,
    records: Vec<Rr>,
    index: Index,
    key: OwnerKey,
}

impl Model for Merging {
    ghost use Rattle.dz_zone.specs.inner.Revising.{Merged};

    ghost Value = { Merged };

    ghost view = { λ m. record { records = m.records.items; rows = m.index } };
}

/// The records of a version that are left by their flags, and those that were added, in canonical order, with the index
/// of their owners. The error is out of memory.
pub(crate) fn merged(
    alloc: Global,
    base: &Version,
    flags: &[bool],
    mut added: BTreeSet<Rr>,
) -> Result<(Vec<Rr>, Index), AllocError>
    requires { IsRevising base.now flags.now added.keys }
    ensures records { IfOk result (λ r. r.0.items
        ≡ revised_of base.now.records flags.now added.keys) }
    ensures risen { IfOk result (λ r. IsRisen r.0.items r.1) }
{
    let mut merging = Merging::beside(alloc, base, added.len())?;
    let records = base.records();
    let mut place = 0;
    'base: while place < flags.len() {
        if comes_first(&added, &records[place]) {
            merging.put_first(&mut added)?;
        } else if flags[place] {
            let end = stretch_end(records, flags, place, &added);
            merging.take_over(base, place, end)?;
            place = end;
        } else {
            place += 1;
        }
    }
    let (records, index) = merging.finish(added)?;
    Ok((records, index))
}

impl Merging {
    /// No record yet, with room for those of a version and so many more. The error is out of memory.
    fn beside(alloc: Global, base: &Version, more: usize) -> Result<Merging, AllocError>
        ensures none { IfOk result (λ m. m.records ≡ []) }
        ensures made { IfOk result IsMerged }
    {
        Ok(Merging {
            alloc,
            records: Vec::with_capacity(alloc, base.records().len().saturating_add(more))?,
            index: Index::beside(alloc, base.index())?,
            key: OwnerKey::empty(),
        })
    }

    /// One more record, which comes after the others. The error is out of memory: nothing is said of what is left.
    fn put(&mut self, found: Rr) -> Result<(), AllocError>
        requires made { IsMerged self.old }
        requires few { total self.old.rows < OWNERS }
        requires after { follows self.old.records found }
        ensures records { OnOk result (self.new.records ≡ self.old.records ++ found ∷ []) }
        ensures made { OnOk result (IsMerged self.new) }
    {
        put_owner::<Brand>(
            Blank::new(1),
            &mut self.index,
            &found.owner_ref(),
            &mut self.key,
        )?;
        self.records.push(found)?;
        Ok(())
    }

    /// The first of the added records, if there is one. The error is that of [`Merging::put`].
    fn put_first(&mut self, added: &mut BTreeSet<Rr>) -> Result<(), AllocError>
        requires made { IsMerged self.old }
        requires few { total self.old.rows < OWNERS }
        requires after { (first : Record) (rest : List Record) → added.old.keys ≡ first ∷ rest
            → follows self.old.records first }
        ensures first { (first : Record) (rest : List Record) → added.old.keys ≡ first ∷ rest
            → OnOk result (self.new.records ≡ self.old.records ++ first ∷ []) }
        ensures rest { (first : Record) (rest : List Record) → added.old.keys ≡ first ∷ rest
            → OnOk result (added.new.keys ≡ rest) }
        ensures made { OnOk result (IsMerged self.new) }
    {
        match added.pop_first() {
            Some(first) => self.put(first)?,
            None => {}
        }
        Ok(())
    }

    /// The records of a version from one place up to another, which come after the others. They are shared, and their
    /// owners are taken over from its index. The error is that of [`Merging::put`].
    fn take_over(&mut self, base: &Version, begin: usize, end: usize) -> Result<(), AllocError>
        requires made { IsMerged self.old }
        requires some { begin < end }
        requires within { end ≤ length base.now.records }
        requires few { total self.old.rows + (end - begin) ≤ OWNERS }
        requires after { (d : Record) → follows self.old.records
            (slice_index_or base.now.records begin d) }
        ensures records { OnOk result (self.new.records
            ≡ self.old.records ++ slice_range base.now.records begin end) }
        ensures made { OnOk result (IsMerged self.new) }
    {
        share_all(&mut self.records, &base.records()[begin..end])?;
        let index = replace(&mut self.index, Index::empty(self.alloc)?);
        self.index = with_run::<Brand>(Blank::new(1), index, base.index(), begin, end)?;
        Ok(())
    }

    /// All records, the rest of the added ones being the last. The error is out of memory.
    fn finish(mut self, mut added: BTreeSet<Rr>) -> Result<(Vec<Rr>, Index), AllocError>
        requires made { IsMerged self }
        requires few { total self.rows + length added.keys ≤ OWNERS }
        requires rises { Rises record_order (self.records ++ added.keys) }
        ensures records { IfOk result (λ r. r.0.items ≡ self.records ++ added.keys) }
        ensures index { IfOk result (λ r. IsIndex (owners_of r.0.items) r.1) }
    {
        'added: while !added.is_empty() {
            self.put_first(&mut added)?;
        }
        Ok((self.records, self.index))
    }
}

/// One more owner in the index, and how the last one compares with it.
fn put_owner<L: Ledger>(
    blank: Blank,
    index: &mut Index,
    owner: &NameRef<'_>,
    key: &mut OwnerKey,
) -> Result<(), AllocError>
    requires name { blank.name ≡ L.name }
    requires parts { blank.parts ≡ L.parts }
    requires whole { blank.parts ≡ 1 }
    requires few { total index.old < OWNERS }
    ensures { (owners : List Name) → IsIndex owners index.old
        → is_gt (order_behind owners owner.now) ≡ false
        → OnOk result (IsIndex (owners ++ owner.now ∷ []) index.new) }
{
    index.put(owner, key, &mut Steps::<L>::new(blank))?;
    Ok(())
}

/// The index with the owners of another one's records from one place up to another, which come after its own.
fn with_run<L: Ledger>(
    blank: Blank,
    index: Index,
    other: &Index,
    begin: usize,
    end: usize,
) -> Result<Index, AllocError>
    requires name { blank.name ≡ L.name }
    requires parts { blank.parts ≡ L.parts }
    requires whole { blank.parts ≡ 1 }
    requires some { begin < end }
    requires within { end ≤ total other.now }
    requires few { total index + (end - begin) ≤ OWNERS }
    ensures { (owners others : List Name) (d : Name)
        → IsIndex owners index → IsIndex others other.now
        → is_gt (order_behind owners (slice_index_or others begin d)) ≡ false
        → IfOk result (IsIndex (owners ++ slice_range others begin end)) }
{
    let (index, _) = index.with_run(other, begin, end, &mut Steps::<L>::new(blank))?;
    Ok(index)
}

/// Adds these records; their octets are shared. The error is out of memory.
fn share_all(records: &mut Vec<Rr>, more: &[Rr]) -> Result<(), AllocError>
    ensures { OnOk result (records.new.items ≡ records.old.items ++ more.now) }
{
    'more: for found in more {
        records.push(found.share()?)?;
    }
    Ok(())
}

/// Whether the first added record comes before this one.
fn comes_first(added: &BTreeSet<Rr>, bound: &Rr) -> bool
    ensures { result ≡ first_before record_order added.now.keys bound.now }
{
    match added.first() {
        Some(first) => first.record_cmp(bound) == Ordering::Less,
        None => false,
    }
}

/// Where a stretch of records ends that are still there and before none of which an added one comes, the record at
/// this place being the first.
fn stretch_end(records: &[Rr], flags: &[bool], place: usize, added: &BTreeSet<Rr>) -> usize
    requires rises { Rises record_order records.now }
    requires long { length flags.now ≡ length records.now }
    requires within { place < length records.now }
    requires stands { (d : Bool) → slice_index_or flags.now place d ≡ true }
    requires ahead { (d : Record) → first_before record_order added.now.keys
        (slice_index_or records.now place d) ≡ false }
    ensures stretch { IsStretch (drop place records.now) (drop place flags.now) added.now.keys
        (result - place) }
    ensures some { place < result }
    ensures within { result ≤ length records.now }
{
    let end = ahead_end(records, place, added);
    place + standing(&flags[place..end])
}

/// Where the records end before none of which an added one comes, the record at this place being the first.
fn ahead_end(records: &[Rr], place: usize, added: &BTreeSet<Rr>) -> usize
    requires rises { Rises record_order records.now }
    requires within { place < length records.now }
    requires ahead { (d : Record) → first_before record_order added.now.keys
        (slice_index_or records.now place d) ≡ false }
    ensures some { place < result }
    ensures within { result ≤ length records.now }
    ensures ahead { AllByRecursion
        (λ r. first_before record_order added.now.keys r ≡ false)
        (slice_range records.now place result) }
{
    match added.first() {
        Some(first) => { place + records[place..].partition_point(|r| first.record_cmp(r).is_ge()) }
        None => records.len(),
    }
}

/// How many flags come before the first that isn't set.
fn standing(flags: &[bool]) -> usize
    ensures within { result ≤ length flags.now }
    ensures set { AllByRecursion (λ flag. flag ≡ true) (take result flags.now) }
    ensures some { (d : Bool) → 0 < length flags.now → slice_index_or flags.now 0 d ≡ true
        → 0 < result }
{
    match flags.iter().position(|flag| !*flag) {
        Some(place) => place,
        None => flags.len(),
    }
}
