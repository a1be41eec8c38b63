//! Why a catalog's records make no listing. In a version they are in canonical order, so each reason takes one pass.

ghost use Rattle.std.specs.Prelude.{◌≡◌, ◌≤◌, ◌+◌, ◌==◌, ◌||◌, length, filter, count_by, not, false, Some, MatchOption};
ghost use Rattle.std.specs.Bool.{OnFalse};
ghost use Rattle.std.specs.List.{list_any};
ghost use Rattle.std.specs.List.Sorted.{IsStrictlySortedBy};
ghost use Rattle.dz_name.specs.Name.{wire_of, same_label};
ghost use Rattle.dz_record.specs.Record.{record_order};
ghost use Rattle.dz_zone.specs.Valid.{both_are};
ghost use Rattle.dz_catalog.specs.Member.{is_node, is_coo, is_member};
ghost use Rattle.dz_catalog.specs.Broken.{is_version, no_version, version_twice, other_version, version_name};
ghost use Rattle.dz_catalog.specs.Broken.{version_2, twins, member_twice, coo_twice, broken_records, by_count};

use crate::names::{is_coo, is_node};
use dz_member::Broken;
use dz_name::dns::{TYPE_PTR, TYPE_TXT};
use dz_name::{Label, Name};
use dz_record::Rr;
use dz_runs::rrset_of;
use dz_zone::Version;

/// The first reason that holds of the records, whatever the number of members is.
pub(crate) fn broken_records(version: &Version) -> Option<Broken>
    ensures { MatchOption result
        (broken_records version.now.apex version.now.records
        ≡ by_count version.now.apex version.now.records)
        (λ broken. broken_records version.now.apex version.now.records ≡ Some broken) }
{
    let apex = version.apex().to_name();
    let records = version.records();
    if no_version(version) {
        Some(Broken::NoVersion)
    } else if version_twice(version) {
        Some(Broken::VersionTwice)
    } else if other_version(version) {
        Some(Broken::OtherVersion)
    } else if !pointers_twice(&apex, records) {
        None
    } else if member_twice(&apex, records) {
        Some(Broken::MemberTwice)
    } else if coo_twice(&apex, records) {
        Some(Broken::CooTwice)
    } else {
        None
    }
}

/// The name of the schema's version; none where it would be too long.
fn version_name(apex: &Name) -> Option<Name>
    ensures { MatchOption result (255 ≤ length (wire_of apex.now) + 7)
        (λ name. name ≡ version_name apex.now) }
{
    match Label::new(b"version") {
        None => None,
        Some(label) => match apex.child(&label) {
            Ok(name) => Some(name),
            Err(_) => None,
        },
    }
}

/// The records of the schema's version, found by binary search.
fn versions(version: &Version) -> &[Rr]
    ensures { result.now ≡ filter (is_version version.now.apex) version.now.records }
{
    let records = version.records();
    match version_name(&version.apex().to_name()) {
        None => &records[..0],
        Some(name) => rrset_of(version, &name, TYPE_TXT),
    }
}

/// Whether there is no version.
fn no_version(version: &Version) -> bool
    ensures { result ≡ no_version version.now.apex version.now.records }
{
    versions(version).is_empty()
}

/// Whether there is more than one.
fn version_twice(version: &Version) -> bool
    ensures { result ≡ version_twice version.now.apex version.now.records }
{
    1 < versions(version).len()
}

/// Whether a version isn't the character string 2.
fn other_version(version: &Version) -> bool
    ensures { result ≡ other_version version.now.apex version.now.records }
{
    has_other(versions(version))
}

/// Whether there is no version, or more than one, or another one than 2.
pub(crate) fn is_version_bad(version: &Version) -> bool
    ensures { result ≡ ((no_version version.now.apex version.now.records
        || version_twice version.now.apex version.now.records)
        || other_version version.now.apex version.now.records) }
{
    no_version(version) || version_twice(version) || other_version(version)
}

/// Whether the RDATA of a record isn't the character string 2.
fn has_other(versions: &[Rr]) -> bool
    ensures { result ≡ list_any (λ r. not (same_label r.rdata version_2)) versions.now }
{
    versions.iter().any(|r| r.rdata() != b"\x012".as_slice())
}

/// Whether the record is the PTR of a member node.
pub(crate) fn is_member(apex: &Name, found: &Rr) -> bool
    ensures { result ≡ is_member apex.now found.now }
{
    found.kind() == TYPE_PTR && is_node(apex, &found.owner_ref())
}

/// Whether two records are PTR records of one owner. Types are quicker to tell apart than owners.
fn both_point(a: &Rr, b: &Rr) -> bool
    ensures { result ≡ both_are TYPE_PTR a.now b.now }
{
    a.kind() == TYPE_PTR && b.kind() == TYPE_PTR && a.owner_ref().same(&b.owner_ref())
}

/// Whether two records are PTR records of one member node.
fn members_twin(apex: &Name, a: &Rr, b: &Rr) -> bool
    ensures { result ≡ twins (is_node apex.now) a.now b.now }
{
    both_point(a, b) && is_node(apex, &a.owner_ref())
}

/// Whether two records are PTR records of one change of ownership.
fn coos_twin(apex: &Name, a: &Rr, b: &Rr) -> bool
    ensures { result ≡ twins (is_coo apex.now) a.now b.now }
{
    both_point(a, b) && is_coo(apex, &a.owner_ref())
}

/// Whether some owner has two PTR records, by one pass: in most zones none has. Where the records ascend, these are
/// neighbours.
fn pointers_twice(apex: &Name, records: &[Rr]) -> bool
    requires { IsStrictlySortedBy record_order records.now }
    ensures member { OnFalse result (member_twice apex.now records.now ≡ false) }
    ensures coo { OnFalse result (coo_twice apex.now records.now ≡ false) }
{
    !records.is_sorted_by(|a, b| !both_point(a, b))
}

/// Whether a member node has two PTR records. Where the records ascend, these are neighbours.
fn member_twice(apex: &Name, records: &[Rr]) -> bool
    requires { IsStrictlySortedBy record_order records.now }
    ensures { result ≡ member_twice apex.now records.now }
{
    !records.is_sorted_by(|a, b| !members_twin(apex, a, b))
}

/// Whether a change of ownership has two PTR records. Where the records ascend, these are neighbours.
fn coo_twice(apex: &Name, records: &[Rr]) -> bool
    requires { IsStrictlySortedBy record_order records.now }
    ensures { result ≡ coo_twice apex.now records.now }
{
    !records.is_sorted_by(|a, b| !coos_twin(apex, a, b))
}

/// How many PTR records there are.
pub(crate) fn pointer_count(records: &[Rr]) -> usize
    ensures { result ≡ count_by (λ r. r.kind == TYPE_PTR) records.now }
{
    records.iter().filter(|r| r.kind() == TYPE_PTR).count()
}
