//! The digest of a zone.

ghost use Rattle.std.specs.Prelude.{◌≡◌, ◌==◌, ◌≤◌, ◌<◌, ◌+◌, ◌++◌, ℕ, List, Some, slice_get, take, length};
ghost use Rattle.std.specs.List.Sorted.{IsStrictlySortedBy};
ghost use Rattle.dz_record.specs.Record.{Record, record_octets, record_order};
ghost use Rattle.dz_zonemd.specs.Digested.{digested, is_left_out, type_covered};

use dz_name::Name;
use dz_name::dns::{TYPE_RRSIG, TYPE_ZONEMD};
use dz_name::numbers::number_of_two;
use dz_record::Rr;
use dz_steps::Steps;
use sha2::Digest;
use std::sync::ledger::Ledger;

/// This many octets of records are put together before they go into the hasher.
const BATCH_OCTETS: usize = 4096;

/// Whether a record isn't digested: a ZONEMD record of the apex, or an RRSIG record of the apex that covers it (RFC
/// 8976 section 3.3.1.1). Types are compared before owner names, since that is cheaper.
fn is_left_out(apex: &Name, rr: &Rr) -> bool
    ensures { result ≡ is_left_out apex.now rr.now }
{
    let is_about_digests = match rr.kind() {
        TYPE_ZONEMD => true,
        TYPE_RRSIG => covers_zonemd(rr),
        _ => false,
    };
    is_about_digests && rr.is_owned_by(apex)
}

/// Whether an RRSIG covers ZONEMD records (RFC 4034 section 3.1.1).
fn covers_zonemd(rr: &Rr) -> bool
    requires { rr.now.kind ≡ TYPE_RRSIG }
    ensures { result ≡ (type_covered rr.now == TYPE_ZONEMD) }
{
    number_of_two(rr.rdata()) == TYPE_ZONEMD
}

/// Appends octets to the first `count` of a batch; where there is no room, the batch goes into the hasher, and these
/// octets after it. Gives how many octets the batch then has.
fn join<D: Digest>(
    hasher: &mut D,
    batch: &mut [u8; BATCH_OCTETS],
    count: usize,
    octets: &[u8],
) -> usize
    requires { count ≤ BATCH_OCTETS }
    ensures within { result ≤ BATCH_OCTETS }
    ensures holds { (m : List ℕ) → D.holds hasher.old m
        → (n : List ℕ) × D.holds hasher.new n
        × (n ++ take result batch.new ≡ m ++ take count batch.old ++ octets.now) }
{
    if octets.len() <= BATCH_OCTETS - count {
        batch[count..count + octets.len()].copy_from_slice(octets);
        return count + octets.len();
    }
    hasher.update(&batch[..count]);
    hasher.update(octets);
    0
}

/// The record that is digested at a place: RRsets and the RDATA of each come in canonical order, as the records already
/// do (RFC 8976 section 3.3.1.2; RFC 4034 section 6.3).
fn record_at(records: &[Rr], place: usize) -> &Rr
    requires { place < length records.now }
    ensures { slice_get records.now place ≡ Some result.now }
{
    &records[place]
}

/// Appends the record at a place to the first `count` octets of a batch, as its canonical octets with its own TTL (RFC
/// 4034 section 6.2). Gives how many octets the batch then has.
fn join_record<D: Digest>(
    hasher: &mut D,
    batch: &mut [u8; BATCH_OCTETS],
    count: usize,
    records: &[Rr],
    place: usize,
) -> usize
    requires count { count ≤ BATCH_OCTETS }
    requires place { place < length records.now }
    ensures within { result ≤ BATCH_OCTETS }
    ensures holds { (r : Record) → slice_get records.now place ≡ Some r → (m : List ℕ)
        → D.holds hasher.old m → (n : List ℕ) × D.holds hasher.new n
        × (n ++ take result batch.new ≡ m ++ take count batch.old ++ record_octets r) }
{
    join(hasher, batch, count, record_at(records, place).octets())
}

/// The hash of the records of a zone that are digested. They are in canonical order, and no two are the same. Their
/// octets go into the hasher in batches, so the memory that holds them is read ahead of the hash.
fn hash<D: Digest>(apex: &Name, records: &[Rr]) -> D::Output
    requires { IsStrictlySortedBy record_order records.now }
    ensures { D.digest_of (digested apex.now records.now) result }
{
    let mut hasher = D::new();
    let mut batch = [0u8; BATCH_OCTETS];
    let mut count = 0;
    'records: for place in 0..records.len() {
        if !is_left_out(apex, record_at(records, place)) {
            count = join_record(&mut hasher, &mut batch, count, records, place);
        }
    }
    hasher.update(&batch[..count]);
    hasher.finalize()
}

/// The digest of a zone by scheme SIMPLE (RFC 8976 section 3.3.1): of all records but the ZONEMD records of the apex
/// and the RRSIG records of the apex that cover them. The records are in canonical order, and no two are the same.
pub fn zone_digest<D: Digest>(apex: &Name, records: &[Rr]) -> D::Output
    requires { IsStrictlySortedBy record_order records.now }
    ensures { D.digest_of (digested apex.now records.now) result }
{
    hash::<D>(apex, records)
}

/// The same, which is one step: a digest that is compared is made by this call alone.
pub(crate) fn counted_digest<D: Digest, L: Ledger>(
    apex: &Name,
    records: &[Rr],
    steps: &mut Steps<L>,
) -> D::Output
    requires { IsStrictlySortedBy record_order records.now }
    ensures value { D.digest_of (digested apex.now records.now) result }
    ensures counted { steps.new ≡ steps.old + 1 }
{
    steps.tick();
    hash::<D>(apex, records)
}
