//! RRSIG records.

ghost use Rattle.std.specs.Prelude.{◌≡◌, ◌-◌, ◌≤◌, length, take, drop, filter};
ghost use Rattle.dz_name.specs.Name.{label_order};
ghost use Rattle.dz_name.specs.Numbers.{two};
ghost use Rattle.dz_runs.specs.Counted.{TakesSearches};
ghost use Rattle.dz_secure.specs.Secure.{covers, signatures};
ghost use Rattle.dz_secure.specs.inner.Searchable.{AreSearchable};

use dz_name::NameRef;
use dz_name::dns::TYPE_RRSIG;
use dz_name::numbers::two;
use dz_record::Rr;
use dz_runs::rrset_near;
use dz_steps::Steps;
use dz_zone::Version;
use std::cmp::Ordering;
use std::sync::ledger::Ledger;

/// The RRSIG records of an owner that cover a type, in the order of RDATA (RFC 4034 section 3.1). Their RDATA begins
/// with the type, so that they are neighbours. The owner is first looked for near a number in the index, and searched
/// once where it isn't there; any number gives the same records. A zone without records of DNSSEC isn't searched.
pub fn signatures<'a, L: Ledger>(
    version: &'a Version,
    owner: &NameRef,
    kind: u16,
    near: usize,
    steps: &mut Steps<L>,
) -> &'a [Rr]
    ensures signatures { result.now ≡ signatures version.now.records owner.now kind }
    ensures cost { TakesSearches 1 (length version.now.records) (steps.new - steps.old) }
    ensures counted { steps.old ≤ steps.new }
{
    if !version.is_secure() {
        return &[];
    }
    let signed = rrset_near(version, owner, TYPE_RRSIG, near, steps);
    covering_type(signed, kind)
}

/// Of RRSIG records in order, those that cover a type.
fn covering_type(records: &[Rr], kind: u16) -> &[Rr]
    requires { AreSearchable records.now }
    ensures { result.now ≡ filter (covers kind) records.now }
{
    let begin = records.partition_point(|r| covered_cmp(r, kind).is_lt());
    let end = records.partition_point(|r| covered_cmp(r, kind).is_le());
    between(records, begin, end)
}

/// How the type that an RRSIG covers compares with a type (RFC 4034 section 3.1.1), by their octets.
fn covered_cmp(rr: &Rr, kind: u16) -> Ordering
    ensures { result ≡ label_order (take 2 rr.now.rdata) (two kind) }
{
    let rdata = rr.rdata();
    let octets = two(kind);
    if rdata.len() < 2 {
        return rdata.cmp(octets.as_slice());
    }
    rdata[0].cmp(&octets[0]).then(rdata[1].cmp(&octets[1]))
}

/// The records from one place to another.
fn between(records: &[Rr], start: usize, end: usize) -> &[Rr]
    requires order { start ≤ end }
    requires within { end ≤ length records.now }
    ensures { result.now ≡ take (end - start) (drop start records.now) }
{
    &records[start..end]
}
