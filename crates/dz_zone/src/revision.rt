//! A version under changes.

ghost use Rattle.std.specs.Prelude.{◌≡◌, ◌<◌, is_some, length, not, map, slice_set, false, IfOk, OnErr, OnOk};
ghost use Rattle.std.specs.BTreeMap.{is_at};
ghost use Rattle.std.specs.BTreeSet.{insert_key};
ghost use Rattle.std.specs.Bool.{OnTrue, OnFalse};
ghost use Rattle.std.specs.List.Sorted.{IsStrictlySortedBy};
ghost use Rattle.std.specs.Set.{remove_key};
ghost use Rattle.dz_record.specs.Record.{record_order};
ghost use Rattle.dz_record.specs.Records.{insertion};
ghost use Rattle.dz_zone.specs.Answers.{IsChecked};
ghost use Rattle.dz_zone.specs.Revision.{is_there, without, unchanged, with_records};
ghost use Rattle.dz_zone.specs.Valid.{at_apex};
ghost use Rattle.dz_zone.specs.inner.Overlay.{has_tie, left_of, Rises};
ghost use Rattle.dz_zone.specs.inner.Revising.{flags_of, FindsAt};

use crate::fault::ZoneError;
use crate::merging::merged;
use crate::valid::at_apex;
use crate::version::{Version, check_risen};
use dz_index::OWNERS;
use dz_name::Name;
use dz_name::dns::{TYPE_SOA, ZONE_RECORDS};
use dz_record::Rr;
use std::alloc::{AllocError, Global};
use std::collections::BTreeSet;
use std::marker::Model;
use std::sync::Arc;

/// The most records that may be added: so many that the index has room for them and for those of the version.
const ADDED: usize = OWNERS - ZONE_RECORDS;

/// Where a record was that was removed.
#[derive(Clone, Copy, Debug, PartialEq, Eq)]
pub enum Removed {
    /// Among the records of the version.
    Held,
    /// Among the records that were added.
    Added,
}

/// A version and the changes that were made to its records, of which none is copied: a flag for each record, whether it
/// is still there, and the records that were added. Contracts see the version, and the records as they are now.
#[derive(Debug, Drop)]
pub struct Revision {
    base: Arc<Version>,
    flags: Vec<bool>,
    added: BTreeSet<Rr>,
}

impl Model for Revision {
    ghost use Rattle.dz_zone.specs.Revision.{Revised};
    ghost use Rattle.dz_zone.specs.inner.Revising.{IsRevising, revised_of};

    ghost Value = { Revised };

    ghost view = { λ r. record {
      base = r.base.value;
      records
          = revised_of r.base.value.records r.flags.items r.added.keys;
    } };

    ghost invariant = { λ r. IsRevising r.base.value r.flags.items r.added.keys };
}

impl Revision {
    /// A version before the first change, without the SOA of its apex. The error is out of memory.
    pub fn of(alloc: Global, base: Arc<Version>) -> Result<Revision, AllocError>
        ensures { IfOk result (λ r. r ≡ unchanged base.value) }
    {
        let flags = flags_but_soa(alloc, &base.apex().to_name(), base.records())?;
        let added = BTreeSet::new(alloc);
        Ok(Revision { base, flags, added })
    }

    /// Removes a record, whatever its TTL, and says where it was; none where it wasn't there.
    pub fn remove(&mut self, found: &Rr) -> Option<Removed>
        ensures there { is_some result ≡ is_there found.now self.old.records }
        ensures left { self.new ≡ with_records self.old (without found.now self.old.records) }
    {
        if leave(&mut self.added, found) {
            return Some(Removed::Added);
        }
        match search(self.base.records(), found) {
            Err(_) => None,
            Ok(at) => {
                let stood = self.flags[at];
                self.flags[at] = false;
                if stood { Some(Removed::Held) } else { None }
            }
        }
    }

    /// Puts a record at its place unless the same is there, and says whether it was not. The error is out of memory, or
    /// that 500,000 records have been added: the records are then as they were.
    pub fn insert(&mut self, found: Rr) -> Result<bool, AllocError>
        ensures added { IfOk result (λ added. added ≡ not (is_there found self.old.records)) }
        ensures joined { IfOk result (λ added. OnTrue added
            (self.new ≡ with_records self.old (insertion found self.old.records))) }
        ensures kept { IfOk result (λ added. OnFalse added (self.new ≡ self.old)) }
        ensures wanting { OnErr result (self.new ≡ self.old) }
    {
        if stands_in(self.base.records(), self.flags.as_slice(), &found) {
            return Ok(false);
        }
        if ADDED <= self.added.len() {
            return Err(AllocError);
        }
        join(&mut self.added, found)
    }

    /// The version that the records make as they are now. Its index is taken over from the version before, except for
    /// the owners at whose records something has changed. Errors are those of [`crate::check`].
    pub fn check(self, alloc: Global) -> Result<Version, ZoneError>
        ensures { IsChecked self.base.apex self.records result }
    {
        let Revision { base, flags, added } = self;
        let (records, index) = merged(alloc, &base, flags.as_slice(), added)?;
        check_risen(alloc, &base.apex().to_name(), records, index)
    }
}

/// Which of the records isn't the SOA of the apex. The error is out of memory.
fn flags_but_soa(alloc: Global, apex: &Name, records: &[Rr]) -> Result<Vec<bool>, AllocError>
    ensures { IfOk result (λ flags. flags.items
        ≡ map (λ r. not (at_apex TYPE_SOA apex.now r)) records.now) }
{
    let mut flags = Vec::with_capacity(alloc, records.len())?;
    'records: for found in records {
        flags.push(!at_apex(TYPE_SOA, apex, found))?;
    }
    Ok(flags)
}

/// Removes a record from the added ones, and says whether it was among them.
fn leave(added: &mut BTreeSet<Rr>, found: &Rr) -> bool
    ensures there { result ≡ has_tie record_order found.now added.old.keys }
    ensures left { added.new.keys ≡ remove_key (is_at (record_order found.now)) added.old.keys }
{
    added.remove(found)
}

/// Puts a record among the added ones unless one of them compares equal, and says whether none does. The error is out of
/// memory.
fn join(added: &mut BTreeSet<Rr>, found: Rr) -> Result<bool, AllocError>
    ensures new { IfOk result (λ new. new ≡ not (has_tie record_order found added.old.keys)) }
    ensures joined { OnOk result (added.new.keys ≡ insert_key record_order added.old.keys found) }
    ensures rises { OnOk result (IsStrictlySortedBy record_order added.new.keys) }
    ensures kept { IfOk result (λ new. OnFalse new (added.new.keys ≡ added.old.keys)) }
    ensures unchanged { OnErr result (added.new.keys ≡ added.old.keys) }
{
    let new = added.insert(found)?;
    Ok(new)
}

/// Where the record is in records that rise (`Ok`), or where it would be (`Err`).
fn search(records: &[Rr], found: &Rr) -> Result<usize, usize>
    requires { Rises record_order records.now }
    ensures { FindsAt record_order records.now found.now result }
{
    records.binary_search_by(|record| record.record_cmp(found))
}

/// Whether a record is among those that are still there.
fn stands_in(records: &[Rr], flags: &[bool], found: &Rr) -> bool
    requires rises { Rises record_order records.now }
    requires long { length flags.now ≡ length records.now }
    ensures { result ≡ is_there found.now (left_of (flags_of records.now flags.now)) }
{
    match search(records, found) {
        Err(_) => false,
        Ok(at) => flags[at],
    }
}
