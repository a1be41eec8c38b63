//! The index of a version.

ghost use Rattle.std.specs.Prelude.{◌≡◌, ◌<◌, ◌≤◌, [], length, take, false, slice_index_or, All, IfOk, IfSome, IsTrue};
ghost use Rattle.std.specs.Ordering.{is_gt};
ghost use Rattle.std.specs.List.{count_by};
ghost use Rattle.std.specs.List.Sorted.{IsStrictlySortedBy};
ghost use Rattle.dz_record.specs.Record.{IsRecord, record_order};
ghost use Rattle.dz_index.specs.Index.{order_behind};
ghost use Rattle.dz_index.specs.Rows.{IsIndex};
ghost use Rattle.dz_zone.specs.Version.{owners_of, is_of_dnssec};
ghost use Rattle.dz_zone.specs.inner.Kept.{IsRisen, RisesAt, AreNsecs};

use crate::order::comes_before;
use dz_index::{Index, OwnerKey};
use dz_name::dns::{TYPE_NSEC, ZONE_RECORDS};
use dz_record::Rr;
use dz_steps::Steps;
use std::alloc::{AllocError, Global};
use std::cmp::Ordering;
use std::marker::Brand;
use std::sync::ledger::{Blank, Ledger};

/// The index of the owners of these records, in one pass. The error is out of memory.
pub(crate) fn index_of(alloc: Global, records: &[Rr]) -> Result<Index, AllocError>
    requires rises { IsStrictlySortedBy record_order records.now }
    requires few { length records.now ≤ ZONE_RECORDS }
    ensures { IfOk result (IsIndex (owners_of records.now)) }
{
    counted_index::<Brand>(Blank::new(1), alloc, records)
}

/// The same, counted in a ledger that is still blank.
fn counted_index<L: Ledger>(
    blank: Blank,
    alloc: Global,
    records: &[Rr],
) -> Result<Index, AllocError>
    requires name { blank.name ≡ L.name }
    requires parts { blank.parts ≡ L.parts }
    requires whole { blank.parts ≡ 1 }
    requires rises { IsStrictlySortedBy record_order records.now }
    requires few { length records.now ≤ ZONE_RECORDS }
    ensures { IfOk result (IsIndex (owners_of records.now)) }
{
    let mut steps = Steps::<L>::new(blank);
    let mut index = Index::empty(alloc)?;
    let mut key = OwnerKey::empty();
    'records: for record in records {
        index.put(&record.owner_ref(), &mut key, &mut steps)?;
    }
    Ok(index)
}

/// The index of the owners of records that rise, each before the next; none of other records. The keys tell the order
/// of the owners, so one pass is enough for both. The error is out of memory.
pub(crate) fn index_rising(alloc: Global, records: &[Rr]) -> Result<Option<Index>, AllocError>
    ensures { IfOk result (λ o. IfSome o (IsRisen records.now)) }
{
    counted_rising::<Brand>(Blank::new(1), alloc, records)
}

/// The same, counted in a ledger that is still blank.
fn counted_rising<L: Ledger>(
    blank: Blank,
    alloc: Global,
    records: &[Rr],
) -> Result<Option<Index>, AllocError>
    requires name { blank.name ≡ L.name }
    requires parts { blank.parts ≡ L.parts }
    requires whole { blank.parts ≡ 1 }
    ensures { IfOk result (λ o. IfSome o (IsRisen records.now)) }
{
    if ZONE_RECORDS < records.len() {
        return Ok(None);
    }
    let mut steps = Steps::<L>::new(blank);
    let mut index = Index::empty(alloc)?;
    let mut key = OwnerKey::empty();
    'records: for place in 0..records.len() {
        let order = index.put(&records[place].owner_ref(), &mut key, &mut steps)?;
        if !rises_at(order, records, place) {
            return Ok(None);
        }
    }
    Ok(Some(index))
}

/// Whether the record at a place comes after the one before it, as the first does, by the order of their owners.
fn rises_at(owners: Ordering, records: &[Rr], place: usize) -> bool
    requires within { place < length records.now }
    requires owners { owners ≡ order_behind (take place (owners_of records.now))
        (slice_index_or (owners_of records.now) place []) }
    ensures order { IsTrue result → is_gt owners ≡ false }
    ensures rises { IsTrue result → RisesAt records.now place }
{
    if place == 0 {
        return true;
    }
    comes_before(owners, &records[place - 1], &records[place])
}

/// The places of the NSEC records, in order, without a pass where no record is of DNSSEC. The error is out of memory.
pub(crate) fn nsecs_if_secure(
    alloc: Global,
    secure: usize,
    records: &[Rr],
) -> Result<Vec<u32>, AllocError>
    requires few { length records.now ≤ ZONE_RECORDS }
    requires secure { secure ≡ count_by (λ r. is_of_dnssec r.kind) records.now }
    ensures { IfOk result (λ nsecs. AreNsecs records.now nsecs.items) }
{
    if secure == 0 {
        Ok(Vec::new(alloc))
    } else {
        nsecs_of(alloc, records)
    }
}

/// The places of the NSEC records, in order. The error is out of memory.
pub(crate) fn nsecs_of(alloc: Global, records: &[Rr]) -> Result<Vec<u32>, AllocError>
    requires { length records.now ≤ ZONE_RECORDS }
    ensures nsecs { IfOk result (λ nsecs. AreNsecs records.now nsecs.items) }
    ensures held { IfOk result (λ _. All IsRecord records.now) }
{
    let mut nsecs = Vec::new(alloc);
    'records: for place in 0..records.len() {
        if records[place].kind() == TYPE_NSEC {
            nsecs.push(place as u32)?;
        }
    }
    Ok(nsecs)
}
