//! What the ZONEMD records of a zone say of it.

ghost use Rattle.std.specs.Prelude.{◌≡◌, ◌==◌, ◌&&◌, ◌≤◌, ◌+◌, ◌-◌, count_by, drop, length, option_map, take};
ghost use Rattle.std.specs.List.{find, list_any};
ghost use Rattle.std.specs.List.Sorted.{IsStrictlySortedBy};
ghost use Rattle.std.specs.Option.{option_map_or};
ghost use Rattle.std.specs.Str.{bytes_eq};
ghost use Rattle.dz_name.specs.Name.{same_name};
ghost use Rattle.dz_record.specs.Record.{record_order, soa_of};
ghost use Rattle.dz_zonemd.specs.Digested.{digested};
ghost use Rattle.dz_zonemd.specs.Standing.{standing, zonemds, is_serial, serial_is, verifies, hashes, hashes_by};
ghost use Rattle.dz_zonemd.specs.Zonemd.{serial_in, digest_in, is_by, is_supported, hash_by};
ghost use Rattle.dz_zonemd.specs.inner.Claims.{agrees, verified_by};
ghost use Rattle.dz_zonemd.specs.inner.Places.{IsBegin, IsEnd};

use crate::acceptance::Standing;
use crate::algorithm::{Algorithm, HEAD_OCTETS};
use crate::digest::counted_digest;
use dz_name::Name;
use dz_name::dns::TYPE_ZONEMD;
use dz_name::numbers::number_of_four;
use dz_record::Rr;
use dz_steps::Steps;
use sha2::{Sha384, Sha512};
use std::marker::Brand;
use std::sync::ledger::{Blank, Ledger};

/// What the ZONEMD records of a zone say of it. The records are in canonical order, and no two are the same. Without a
/// ZONEMD record at the apex nothing is hashed. Otherwise each algorithm is used at most once, and only where one
/// record alone is of it, and that one has the algorithm's length and the zone's serial: see [`counted_standing`].
pub fn standing(apex: &Name, records: &[Rr]) -> Standing
    requires { IsStrictlySortedBy record_order records.now }
    ensures { result ≡ standing apex.now records.now }
{
    standing_from::<Brand>(Blank::new(1), apex, records)
}

/// The same as [`standing`], counted in a ledger that is still blank.
fn standing_from<L: Ledger>(blank: Blank, apex: &Name, records: &[Rr]) -> Standing
    requires name { blank.name ≡ L.name }
    requires parts { blank.parts ≡ L.parts }
    requires whole { blank.parts ≡ 1 }
    requires sorted { IsStrictlySortedBy record_order records.now }
    ensures { result ≡ standing apex.now records.now }
{
    let mut steps = Steps::<L>::new(blank);
    counted_standing(apex, records, &mut steps)
}

/// The same as [`standing`]. A step is one hash of the zone: there are two at most, one for each algorithm of which one
/// record alone is.
pub fn counted_standing<L: Ledger>(apex: &Name, records: &[Rr], steps: &mut Steps<L>) -> Standing
    requires { IsStrictlySortedBy record_order records.now }
    ensures value { result ≡ standing apex.now records.now }
    ensures cost { steps.new ≤ steps.old + hashes (zonemds apex.now records.now) }
    ensures twice { steps.new ≤ steps.old + 2 }
{
    let found = zonemds_of(apex, records);
    if found.is_empty() {
        Standing::Absent
    } else if is_verified(apex, records, found, steps) {
        Standing::Good
    } else if some_supported(found) {
        Standing::Bad
    } else {
        Standing::Unsupported
    }
}

/// Whether some ZONEMD record of the apex verifies the zone.
fn is_verified<L: Ledger>(apex: &Name, records: &[Rr], found: &[Rr], steps: &mut Steps<L>) -> bool
    requires sorted { IsStrictlySortedBy record_order records.now }
    requires all { found.now ≡ zonemds apex.now records.now }
    ensures value { result ≡ list_any (verifies apex.now records.now) found.now }
    ensures cost { steps.new ≤ steps.old + hashes found.now }
    ensures twice { steps.new ≤ steps.old + 2 }
{
    is_verified_by(Algorithm::Sha384, apex, records, found, steps)
        || is_verified_by(Algorithm::Sha512, apex, records, found, steps)
}

/// Whether one ZONEMD record alone is of an algorithm, and verifies the zone.
fn is_verified_by<L: Ledger>(
    algorithm: Algorithm,
    apex: &Name,
    records: &[Rr],
    found: &[Rr],
    steps: &mut Steps<L>,
) -> bool
    requires { IsStrictlySortedBy record_order records.now }
    ensures value { result ≡ verified_by algorithm apex.now records.now found.now }
    ensures cost { steps.new ≤ steps.old + hashes_by algorithm found.now }
    ensures once { steps.new ≤ steps.old + 1 }
{
    if count_of(algorithm, found) != 1 {
        return false;
    }
    match first_of(algorithm, found) {
        Some(rr) => agrees(algorithm, apex, records, rr, steps),
        None => false,
    }
}

/// How many records are of an algorithm.
fn count_of(algorithm: Algorithm, found: &[Rr]) -> usize
    ensures { result ≡ count_by (is_by algorithm) found.now }
{
    found.iter().filter(|rr| algorithm.is_of(rr)).count()
}

/// The first record of an algorithm.
fn first_of(algorithm: Algorithm, found: &[Rr]) -> Option<&Rr>
    ensures { option_map (λ r. r.now) result ≡ find (is_by algorithm) found.now }
{
    found.iter().find(|rr| algorithm.is_of(rr))
}

/// Whether a record is of an algorithm and of its length, and has the zone's serial and the zone's digest.
fn agrees<L: Ledger>(
    algorithm: Algorithm,
    apex: &Name,
    records: &[Rr],
    rr: &Rr,
    steps: &mut Steps<L>,
) -> bool
    requires { IsStrictlySortedBy record_order records.now }
    ensures value { result ≡ agrees algorithm apex.now records.now rr.now }
    ensures cost { steps.new ≤ steps.old + 1 }
{
    algorithm.is_of(rr)
        && digest_in(rr).len() == algorithm.size()
        && has_serial(apex, records, serial_in(rr))
        && has_digest(algorithm, apex, records, digest_in(rr), steps)
}

/// Whether this is the digest of the zone, by one hash.
fn has_digest<L: Ledger>(
    algorithm: Algorithm,
    apex: &Name,
    records: &[Rr],
    digest: &[u8],
    steps: &mut Steps<L>,
) -> bool
    requires { IsStrictlySortedBy record_order records.now }
    ensures value { result
        ≡ bytes_eq digest.now (hash_by algorithm (digested apex.now records.now)) }
    ensures cost { steps.new ≡ steps.old + 1 }
{
    match algorithm {
        Algorithm::Sha384 => {
            digest == counted_digest::<Sha384, L>(apex, records, steps).as_slice()
        }
        Algorithm::Sha512 => {
            digest == counted_digest::<Sha512, L>(apex, records, steps).as_slice()
        }
    }
}

/// Whether this is the serial of the zone: that of the SOA of the apex, which is among the first records.
fn has_serial(apex: &Name, records: &[Rr], serial: u32) -> bool
    ensures { result ≡ is_serial apex.now records.now serial }
{
    records.iter().any(|rr| serial_is(apex, serial, rr))
}

/// Whether a record is an SOA of the apex with this serial.
fn serial_is(apex: &Name, serial: u32, rr: &Rr) -> bool
    ensures { result ≡ serial_is apex.now serial rr.now }
{
    match rr.soa() {
        Some(soa) => soa.serial == serial && rr.is_owned_by(apex),
        None => false,
    }
}

/// Whether some record can be verified.
fn some_supported(found: &[Rr]) -> bool
    ensures { result ≡ list_any is_supported found.now }
{
    found.iter().any(|rr| is_supported(rr))
}

/// Whether a ZONEMD record can be verified: its scheme and algorithm are known, and the digest has the algorithm's
/// length.
fn is_supported(rr: &Rr) -> bool
    ensures { result ≡ is_supported rr.now }
{
    match Algorithm::of(rr) {
        Some(algorithm) => digest_in(rr).len() == algorithm.size(),
        None => false,
    }
}

/// The serial in a ZONEMD record.
fn serial_in(rr: &Rr) -> u32
    requires { 4 ≤ length rr.now.rdata }
    ensures { result ≡ serial_in rr.now }
{
    number_of_four(rr.rdata())
}

/// The digest in a ZONEMD record; none where RDATA is too short for one.
fn digest_in(rr: &Rr) -> &[u8]
    ensures { result.now ≡ digest_in rr.now }
{
    let rdata = rr.rdata();
    if rdata.len() < HEAD_OCTETS {
        &[]
    } else {
        &rdata[HEAD_OCTETS..]
    }
}

/// The ZONEMD records of the apex, which follow one another.
fn zonemds_of<'a>(apex: &Name, records: &'a [Rr]) -> &'a [Rr]
    requires { IsStrictlySortedBy record_order records.now }
    ensures { result.now ≡ zonemds apex.now records.now }
{
    between(
        records,
        zonemds_begin(apex, records),
        zonemds_end(apex, records),
    )
}

/// The records from one place to another.
fn between(records: &[Rr], start: usize, end: usize) -> &[Rr]
    requires order { start ≤ end }
    requires within { end ≤ length records.now }
    ensures { result.now ≡ take (end - start) (drop start records.now) }
{
    &records[start..end]
}

/// The place of the first record that doesn't come before the ZONEMD records of the apex.
fn zonemds_begin(apex: &Name, records: &[Rr]) -> usize
    requires { IsStrictlySortedBy record_order records.now }
    ensures within { result ≤ length records.now }
    ensures point { IsBegin apex.now records.now result }
{
    records.partition_point(|rr| rr.owner_cmp(apex).then(rr.kind().cmp(&TYPE_ZONEMD)).is_lt())
}

/// The place of the first record that comes after the ZONEMD records of the apex.
fn zonemds_end(apex: &Name, records: &[Rr]) -> usize
    requires { IsStrictlySortedBy record_order records.now }
    ensures within { result ≤ length records.now }
    ensures point { IsEnd apex.now records.now result }
{
    records.partition_point(|rr| rr.owner_cmp(apex).then(rr.kind().cmp(&TYPE_ZONEMD)).is_le())
}
