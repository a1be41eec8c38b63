//! The faults of records in canonical order, each in one pass at most.

ghost use Rattle.std.specs.Prelude.{◌≡◌, ◌≢◌, ◌∷◌, ◌&&◌, ◌||◌, ◌==◌, not, filter, true, false};
ghost use Rattle.std.specs.List.{list_any};
ghost use Rattle.std.specs.List.Sorted.{IsStrictlySortedBy};
ghost use Rattle.dz_record.specs.Record.{record_order};
ghost use Rattle.dz_zone.specs.inner.Kinds.{kinds_of};
ghost use Rattle.dz_zone.specs.inner.Neighbours.{neighbours_from};
ghost use Rattle.dz_zone.specs.inner.Singletons.{is_singleton, has_singletons, has_soa};
ghost use Rattle.dz_zone.specs.Valid.{at_apex, no_soa, soa_twice, soa_below, no_ns, out_of_zone, is_beside_any};
ghost use Rattle.dz_zone.specs.Valid.{is_cname_and_other, clash, cname_beside, both_are, owned_twice, too_many};
ghost use Rattle.dz_zone.specs.Valid.{fault_of};

use crate::fault::ZoneFault;
use crate::kinds::Kinds;
use dz_name::Name;
use dz_name::dns::{
    TYPE_CNAME, TYPE_DNAME, TYPE_NS, TYPE_NSEC, TYPE_RRSIG, TYPE_SOA, ZONE_RECORDS,
};
use dz_record::Rr;

/// The first fault that holds. Where the SOA of the apex is the only record of a type of which an owner has at most one,
/// as in most zones, five of the faults can't hold and need no pass.
pub(crate) fn fault_of(apex: &Name, kinds: &Kinds, records: &[Rr]) -> Option<ZoneFault>
    requires rises { IsStrictlySortedBy record_order records.now }
    requires kinds { kinds.now ≡ kinds_of apex.now records.now }
    ensures { result ≡ fault_of apex.now records.now }
{
    let many = 1 < kinds.singletons;
    if no_soa(apex, records) {
        Some(ZoneFault::NoSoa)
    } else if is_soa_twice(many, apex, records) {
        Some(ZoneFault::SoaTwice)
    } else if is_soa_below(many, apex, records) {
        Some(ZoneFault::SoaBelow)
    } else if no_ns(apex, records) {
        Some(ZoneFault::NoNs)
    } else if out_of_zone(apex, records) {
        Some(ZoneFault::OutOfZone)
    } else if is_cname_beside(many, records) {
        Some(ZoneFault::CnameBeside)
    } else if is_owned_twice(many, TYPE_CNAME, records) {
        Some(ZoneFault::CnameTwice)
    } else if is_owned_twice(many, TYPE_DNAME, records) {
        Some(ZoneFault::DnameTwice)
    } else if too_many(records) {
        Some(ZoneFault::TooMany)
    } else {
        None
    }
}

/// Whether it is a record of the apex and of the type.
pub(crate) fn at_apex(kind: u16, apex: &Name, found: &Rr) -> bool
    ensures { result ≡ at_apex kind apex.now found.now }
{
    found.kind() == kind && found.is_owned_by(apex)
}

/// Whether the apex owns a record of the type.
fn apex_has(kind: u16, apex: &Name, records: &[Rr]) -> bool
    ensures { result ≡ list_any (at_apex kind apex.now) records.now }
{
    records.iter().any(|r| at_apex(kind, apex, r))
}

/// Whether the apex owns no SOA.
fn no_soa(apex: &Name, records: &[Rr]) -> bool
    ensures { result ≡ no_soa apex.now records.now }
{
    !apex_has(TYPE_SOA, apex, records)
}

/// Whether the apex owns more than one SOA.
fn soa_twice(apex: &Name, records: &[Rr]) -> bool
    ensures { result ≡ soa_twice apex.now records.now }
{
    1 < records
        .iter()
        .filter(|r| at_apex(TYPE_SOA, apex, r))
        .count()
}

/// Whether an owner other than the apex has an SOA.
fn soa_below(apex: &Name, records: &[Rr]) -> bool
    ensures { result ≡ soa_below apex.now records.now }
{
    records
        .iter()
        .any(|r| r.kind() == TYPE_SOA && !r.is_owned_by(apex))
}

/// Whether the apex owns no NS.
fn no_ns(apex: &Name, records: &[Rr]) -> bool
    ensures { result ≡ no_ns apex.now records.now }
{
    !apex_has(TYPE_NS, apex, records)
}

/// Whether an owner is neither the apex nor below it. Where the records ascend, what comes between two within the apex
/// is within it, so that the first and the last record tell.
fn out_of_zone(apex: &Name, records: &[Rr]) -> bool
    requires { IsStrictlySortedBy record_order records.now }
    ensures { result ≡ out_of_zone apex.now records.now }
{
    if records.is_empty() {
        return false;
    }
    !(records[0].is_within(apex) && records[records.len() - 1].is_within(apex))
}

/// Whether records of the type may be beside a CNAME: RRSIG and NSEC.
fn is_beside_any(kind: u16) -> bool
    ensures { result ≡ is_beside_any kind }
{
    matches!(kind, TYPE_RRSIG | TYPE_NSEC)
}

/// Whether the first is a CNAME, and the other of a type that may not be beside one.
fn is_cname_and_other(first: &Rr, other: &Rr) -> bool
    ensures { result ≡ is_cname_and_other first.now other.now }
{
    first.kind() == TYPE_CNAME && !(other.kind() == TYPE_CNAME || is_beside_any(other.kind()))
}

/// Whether two records have one owner, and one is a CNAME and the other of a type that may not be beside it. Types are
/// quicker to tell apart than owners, so they are compared first.
fn clash(a: &Rr, b: &Rr) -> bool
    ensures { result ≡ clash a.now b.now }
{
    (is_cname_and_other(a, b) || is_cname_and_other(b, a)) && a.owner_ref().same(&b.owner_ref())
}

/// Whether two records have one owner and are of this type; the types are compared first.
fn both_are(kind: u16, a: &Rr, b: &Rr) -> bool
    ensures { result ≡ both_are kind a.now b.now }
{
    a.kind() == kind && b.kind() == kind && a.owner_ref().same(&b.owner_ref())
}

/// Whether the apex owns more than one SOA.
fn is_soa_twice(many: bool, apex: &Name, records: &[Rr]) -> bool
    requires many { many ≡ has_singletons records.now }
    ensures { result ≡ soa_twice apex.now records.now }
{
    if many {
        soa_twice(apex, records)
    } else {
        false
    }
}

/// Whether an owner other than the apex has an SOA, where the apex has one.
fn is_soa_below(many: bool, apex: &Name, records: &[Rr]) -> bool
    requires many { many ≡ has_singletons records.now }
    requires soa { no_soa apex.now records.now ≡ false }
    ensures { result ≡ soa_below apex.now records.now }
{
    if many {
        soa_below(apex, records)
    } else {
        false
    }
}

/// Whether an owner of a CNAME has a type that may not be beside it, where there is an SOA.
fn is_cname_beside(many: bool, records: &[Rr]) -> bool
    requires rises { IsStrictlySortedBy record_order records.now }
    requires many { many ≡ has_singletons records.now }
    requires soa { has_soa records.now ≡ true }
    ensures { result ≡ cname_beside records.now }
{
    if many { cname_beside(records) } else { false }
}

/// Whether an owner has two records of a type other than SOA of which it may have one, where there is an SOA.
fn is_owned_twice(many: bool, kind: u16, records: &[Rr]) -> bool
    requires rises { IsStrictlySortedBy record_order records.now }
    requires many { many ≡ has_singletons records.now }
    requires soa { has_soa records.now ≡ true }
    requires single { is_singleton kind ≡ true }
    requires other { kind ≢ TYPE_SOA }
    ensures { result ≡ owned_twice kind records.now }
{
    if many {
        owned_twice(kind, records)
    } else {
        false
    }
}

/// Whether an owner of a CNAME has a type that may not be beside it. Where the records ascend, the records of an owner
/// that aren't RRSIG or NSEC are neighbours once those are left out.
fn cname_beside(records: &[Rr]) -> bool
    requires { IsStrictlySortedBy record_order records.now }
    ensures { result ≡ cname_beside records.now }
{
    match records {
        [] => false,
        [first, rest @ ..] => clash_from(first, rest),
    }
}

/// Whether two neighbours clash, where RRSIG and NSEC after the first are left out.
fn clash_from(first: &Rr, rest: &[Rr]) -> bool
    ensures { result ≡ neighbours_from clash first.now
        (filter (λ r. not (is_beside_any r.kind)) rest.now) }
{
    let mut last = first;
    'records: for record in rest {
        if is_beside_any(record.kind()) {
            continue;
        }
        if clash(last, record) {
            return true;
        }
        last = record;
    }
    false
}

/// Whether an owner has two records of the type. Where the records ascend, these are neighbours.
fn owned_twice(kind: u16, records: &[Rr]) -> bool
    requires { IsStrictlySortedBy record_order records.now }
    ensures { result ≡ owned_twice kind records.now }
{
    !records.is_sorted_by(|a, b| !both_are(kind, a, b))
}

/// Whether there are more records than a zone may have.
fn too_many(records: &[Rr]) -> bool
    ensures { result ≡ too_many records.now }
{
    ZONE_RECORDS < records.len()
}
