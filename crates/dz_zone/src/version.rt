//! Versions of zones.

ghost use Rattle.std.specs.Prelude.{◌≡◌, Some, None, All, true, option_map};
ghost use Rattle.dz_name.specs.Name.{is_within};
ghost use Rattle.std.specs.List.{find};
ghost use Rattle.std.specs.List.Sorted.{IsStrictlySortedBy};
ghost use Rattle.std.specs.Option.{option_and_then, ForSome};
ghost use Rattle.std.specs.Arc.{arc_value};
ghost use Rattle.dz_record.specs.Record.{soa_of, IsRecord, record_order};
ghost use Rattle.dz_index.specs.Rows.{IsIndex};
ghost use Rattle.dz_zone.specs.Version.{IsValid, apex_soa, owners_of, has_cuts, has_dnames, is_secure, IsLastNsec};
ghost use Rattle.dz_zone.specs.Answers.{IsChecked};
ghost use Rattle.dz_zone.specs.Valid.{at_apex, fault_of};
ghost use Rattle.dz_zone.specs.inner.Kept.{apex_in, zone_in, IsRisen, AreNsecs};
ghost use Rattle.dz_zone.specs.inner.Kinds.{kinds_of};

use crate::fault::ZoneError;
use crate::index::{index_of, index_rising, nsecs_if_secure};
use crate::kinds::{Kinds, kinds_of};
use crate::order::tidy;
use crate::valid::fault_of;
use dz_index::Index;
use dz_name::dns::TYPE_SOA;
use dz_name::{Name, NameRef};
use dz_record::{Rr, Soa};
use std::alloc::Global;
use std::marker::Model;
use std::sync::Arc;

/// A version of a zone: its distinct records in canonical order, which have no fault, so that the apex owns the first.
/// With them it has an index of the owners, the places of NSEC records, and how many records are of types that it
/// treats apart.
#[derive(Debug, Drop)]
pub struct Version {
    records: Vec<Rr>,
    index: Index,
    kinds: Kinds,
    nsecs: Vec<u32>,
}

impl Model for Version {
    ghost use Rattle.dz_zone.specs.Version.{Zone};
    ghost use Rattle.dz_zone.specs.inner.Kept.{zone_in, IsKept};

    ghost Value = { Zone };

    ghost view = { λ v. zone_in v.records.items };

    ghost invariant = { λ v. IsKept (zone_in v.records.items) v.index v.kinds v.nsecs.items };
}

impl Version {
    /// The version that a handle leads to, if there is one.
    pub fn shared(handle: &Option<Arc<Version>>) -> Option<&Version>
        ensures version { option_map (λ r. r.now) result ≡ option_map arc_value handle.now }
        ensures held { ForSome (option_map arc_value handle.now) (λ v. All IsRecord v.records) }
    {
        match handle {
            None => None,
            Some(version) => {
                let _ = &version.records;
                Some(&**version)
            }
        }
    }

    /// The name of the apex, as the first record has it.
    pub fn apex(&self) -> NameRef<'_>
        ensures { result ≡ self.now.apex }
    {
        match self.records.as_slice() {
            [first, ..] => first.owner_ref(),
            [] => unreachable!(),
        }
    }

    /// All records, in the order of owner, type and RDATA.
    pub fn records(&self) -> &[Rr]
        ensures records { result.now ≡ self.now.records }
        ensures valid { IsValid self.now }
        ensures within { All (λ r. is_within r.owner self.now.apex ≡ true) self.now.records }
        ensures held { All IsRecord self.now.records }
    {
        self.records.as_slice()
    }

    /// The index of the owners of the records.
    pub fn index(&self) -> &Index
        ensures { IsIndex (owners_of self.now.records) result.now }
    {
        &self.index
    }

    /// Whether there is a zone cut: a name below the apex that owns an NS record (RFC 1034 section 4.2.1).
    pub fn has_cuts(&self) -> bool
        ensures cuts { result ≡ has_cuts self.now }
        ensures valid { IsValid self.now }
    {
        0 < self.kinds.cuts
    }

    /// Whether a name owns a DNAME (RFC 6672).
    pub fn has_dnames(&self) -> bool
        ensures dnames { result ≡ has_dnames self.now }
        ensures valid { IsValid self.now }
    {
        0 < self.kinds.dnames
    }

    /// Whether there is a record of DNSSEC: a DS, an RRSIG or an NSEC (RFC 4034).
    pub fn is_secure(&self) -> bool
        ensures secure { result ≡ is_secure self.now }
        ensures valid { IsValid self.now }
    {
        0 < self.kinds.secure
    }

    /// The last place before this one that holds an NSEC.
    pub fn nsec_before(&self, place: usize) -> Option<usize>
        ensures { IsLastNsec self.now.records place result }
    {
        let before = self
            .nsecs
            .as_slice()
            .partition_point(|nsec| (*nsec as usize) < place);
        if before == 0 {
            return None;
        }
        Some(self.nsecs[before - 1] as usize)
    }

    /// The SOA record of the apex. It is among the first of the records, since the apex comes first.
    pub fn apex_soa(&self) -> &Rr
        ensures soa { Some result.now ≡ apex_soa self.now }
        ensures held { IsRecord result.now }
    {
        match find_at_apex(TYPE_SOA, &self.apex(), self.records.as_slice()) {
            Some(record) => record,
            None => unreachable!(),
        }
    }

    /// The fields of the SOA.
    pub fn soa(&self) -> Soa
        ensures { Some result ≡ option_and_then soa_of (apex_soa self.now) }
    {
        match self.apex_soa().soa() {
            Some(soa) => soa,
            None => unreachable!(),
        }
    }
}

/// The version of a zone that these records make, in any order: of those that are the same the first is kept. An error
/// is the first fault that holds, or out of memory.
pub fn check(alloc: Global, apex: &Name, records: Vec<Rr>) -> Result<Version, ZoneError>
    ensures { IsChecked apex.now records.items result }
{
    match index_rising(alloc, records.as_slice())? {
        None => check_tidied(alloc, apex, records),
        Some(index) => check_risen(alloc, apex, records, index),
    }
}

/// The version that records in canonical order make, with the index of their owners. Errors are those of [`check`].
pub(crate) fn check_risen(
    alloc: Global,
    apex: &Name,
    records: Vec<Rr>,
    index: Index,
) -> Result<Version, ZoneError>
    requires { IsRisen records.items index }
    ensures { IsChecked apex.now records.items result }
{
    let kinds = kinds_of(apex, records.as_slice());
    match fault_of(apex, &kinds, records.as_slice()) {
        Some(fault) => Err(ZoneError::Fault(fault)),
        None => {
            let nsecs = nsecs_if_secure(alloc, kinds.secure, records.as_slice())?;
            Ok(version_of(records, index, kinds, nsecs))
        }
    }
}

/// The version of records that are put in order first. Errors are those of [`check`].
fn check_tidied(alloc: Global, apex: &Name, mut records: Vec<Rr>) -> Result<Version, ZoneError>
    ensures { IsChecked apex.now records.items result }
{
    tidy(&mut records)?;
    let kinds = kinds_of(apex, records.as_slice());
    match fault_of(apex, &kinds, records.as_slice()) {
        Some(fault) => Err(ZoneError::Fault(fault)),
        None => {
            let index = index_of(alloc, records.as_slice())?;
            let nsecs = nsecs_if_secure(alloc, kinds.secure, records.as_slice())?;
            Ok(version_of(records, index, kinds, nsecs))
        }
    }
}

/// The version of records in canonical order that have no fault. It gives back the memory that was taken beyond it.
pub(crate) fn version_of(records: Vec<Rr>, index: Index, kinds: Kinds, nsecs: Vec<u32>) -> Version
    requires rises { IsStrictlySortedBy record_order records.items }
    requires faultless { fault_of (apex_in records.items) records.items ≡ None }
    requires indexed { IsIndex (owners_of records.items) index }
    requires kinds { kinds ≡ kinds_of (apex_in records.items) records.items }
    requires nsecs { AreNsecs records.items nsecs.items }
    requires held { All IsRecord records.items }
    ensures { result ≡ zone_in records.items }
{
    fitted(made_of(records, index, kinds, nsecs))
}

/// The same version, which has given back the memory that was taken beyond it.
fn fitted(version: Version) -> Version
    ensures { result ≡ version }
{
    let Version {
        mut records,
        mut index,
        kinds,
        mut nsecs,
    } = version;
    records.shrink_to_fit();
    index.fit();
    nsecs.shrink_to_fit();
    Version {
        records,
        index,
        kinds,
        nsecs,
    }
}

/// The version of such records, made of them.
fn made_of(records: Vec<Rr>, index: Index, kinds: Kinds, nsecs: Vec<u32>) -> Version
    requires rises { IsStrictlySortedBy record_order records.items }
    requires faultless { fault_of (apex_in records.items) records.items ≡ None }
    requires indexed { IsIndex (owners_of records.items) index }
    requires kinds { kinds ≡ kinds_of (apex_in records.items) records.items }
    requires nsecs { AreNsecs records.items nsecs.items }
    requires held { All IsRecord records.items }
    ensures { result ≡ zone_in records.items }
{
    Version {
        records,
        index,
        kinds,
        nsecs,
    }
}

/// The first record of the apex and of the type, if there is one.
fn find_at_apex<'a>(kind: u16, apex: &NameRef, records: &'a [Rr]) -> Option<&'a Rr>
    ensures { option_map (λ r. r.now) result ≡ find (at_apex kind apex.now) records.now }
{
    records
        .iter()
        .find(|r| r.kind() == kind && r.owner_ref().same(apex))
}
