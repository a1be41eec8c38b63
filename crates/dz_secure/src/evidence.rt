//! Proofs that a name or a type isn't there.

ghost use Rattle.std.specs.Prelude.{◌≡◌, ◌-◌, ◌≤◌, [], length, option_map, false, Some};
ghost use Rattle.dz_name.specs.Words.{Name};
ghost use Rattle.dz_name.specs.Name.{wildcard_of};
ghost use Rattle.dz_runs.specs.Counted.{TakesSearches};
ghost use Rattle.dz_runs.specs.Runs.{of_type, records_of, exists, IsPlaceOf};
ghost use Rattle.dz_lookup.specs.Found.{meaning, found, source, encloser};
ghost use Rattle.dz_secure.specs.Secure.{covering, nsec_of, own_or, no_data_proof, no_name_proof, referral_proof};
ghost use Rattle.dz_secure.specs.Secure.{proof};

use dz_lookup::{Found, source, wildcard_of};
use dz_name::dns::{TYPE_DS, TYPE_NSEC};
use dz_name::{Name, NameRef};
use dz_record::Rr;
use dz_runs::{place_near, rrset_near};
use dz_steps::Steps;
use dz_zone::Version;
use std::sync::ledger::Ledger;

/// The number in the index of the owner that follows the apex, near which a wildcard directly below the apex is.
const AFTER_APEX: usize = 1;

/// The octets of the label `*` in a name's wire form.
const ASTERISK: usize = 2;

/// The NSEC RRset of the last owner of one that comes before a name in canonical order (RFC 4034 section 4.1.1);
/// nothing where there is none. Name and owner are looked at near a number in the index, and each is searched once
/// where it isn't there, whatever is between them; any number gives the same records.
pub fn covering<'a, L: Ledger>(
    version: &'a Version,
    name: &Name,
    near: usize,
    steps: &mut Steps<L>,
) -> &'a [Rr]
    ensures covering { result.now ≡ covering version.now.records name.now }
    ensures cost { TakesSearches 2 (length version.now.records) (steps.new - steps.old) }
    ensures counted { steps.old ≤ steps.new }
{
    if !version.is_secure() {
        return &[];
    }
    let place = place_near(version, &name.as_ref(), near, steps);
    covering_at(version, place, near, steps)
}

/// The same for a name whose records are preceded by this many others.
fn covering_at<'a, L: Ledger>(
    version: &'a Version,
    place: usize,
    near: usize,
    steps: &mut Steps<L>,
) -> &'a [Rr]
    ensures covering { (name : Name) → IsPlaceOf name version.now.records place
        → result.now ≡ covering version.now.records name }
    ensures cost { TakesSearches 1 (length version.now.records) (steps.new - steps.old) }
    ensures counted { steps.old ≤ steps.new }
{
    let records = version.records();
    match version.nsec_before(place) {
        None => &[],
        Some(last) => rrset_near(version, &records[last].owner_ref(), TYPE_NSEC, near, steps),
    }
}

/// What proves the last case of a lookup: two RRsets at most, of which one without records counts as none.
#[derive(Clone, Copy, Debug)]
pub struct Evidence<'a> {
    pub first: &'a [Rr],
    pub second: &'a [Rr],
}

impl<'a> Evidence<'a> {
    /// A proof of one RRset, which may be without records.
    fn of_one(first: &'a [Rr]) -> Evidence<'a>
        ensures first { result.first.now ≡ first.now }
        ensures second { result.second.now ≡ [] }
    {
        Evidence { first, second: &[] }
    }
}

/// NSEC RRsets for a type or a name that isn't there, and at a cut its DS or the NSEC that proves that it has none (RFC
/// 4035 sections 3.1.3 and 3.1.4). Each owner is first looked for near a number in the index, and searched where it
/// isn't there, five times at most; any number gives the same RRsets. A zone without records of DNSSEC isn't searched.
pub fn proof<'a, L: Ledger>(
    version: &'a Version,
    name: &Name,
    kind: u16,
    last: &Found<'a>,
    near: usize,
    steps: &mut Steps<L>,
) -> Evidence<'a>
    requires { meaning last.now
        ≡ found version.now.apex version.now.records name.now kind }
    ensures first { result.first.now
        ≡ (proof version.now.records name.now (meaning last.now)).0 }
    ensures second { result.second.now
        ≡ (proof version.now.records name.now (meaning last.now)).1 }
    ensures cost { TakesSearches 5 (length version.now.records) (steps.new - steps.old) }
    ensures counted { steps.old ≤ steps.new }
{
    if !version.is_secure() {
        return Evidence::of_one(&[]);
    }
    match last {
        Found::NoData => no_data(version, name, near, steps),
        Found::NoName => no_name(version, name, near, steps),
        Found::Referral(servers) => referral(version, servers, near, steps),
        _ => Evidence::of_one(&[]),
    }
}

/// The proof that a type isn't there, at the name itself or at a wildcard.
fn no_data<'a, L: Ledger>(
    version: &'a Version,
    name: &Name,
    near: usize,
    steps: &mut Steps<L>,
) -> Evidence<'a>
    ensures first { result.first.now ≡ (no_data_proof version.now.records name.now
        (source version.now.records name.now)).0 }
    ensures second { result.second.now ≡ (no_data_proof version.now.records name.now
        (source version.now.records name.now)).1 }
    ensures cost { TakesSearches 5 (length version.now.records) (steps.new - steps.old) }
    ensures counted { steps.old ≤ steps.new }
{
    match source(version, name, near, steps) {
        None => Evidence::of_one(&[]),
        Some(node) => no_data_at(version, name, &node, near, steps),
    }
}

/// The same where it is known at which node the type isn't there: the name itself or a wildcard.
fn no_data_at<'a, L: Ledger>(
    version: &'a Version,
    name: &Name,
    node: &Name,
    near: usize,
    steps: &mut Steps<L>,
) -> Evidence<'a>
    ensures first { result.first.now
        ≡ (no_data_proof version.now.records name.now (Some node.now)).0 }
    ensures second { result.second.now
        ≡ (no_data_proof version.now.records name.now (Some node.now)).1 }
    ensures cost { TakesSearches 3 (length version.now.records) (steps.new - steps.old) }
    ensures counted { steps.old ≤ steps.new }
{
    let own = rrset_near(version, &node.as_ref(), TYPE_NSEC, near, steps);
    if !node.same(name) {
        return Evidence {
            first: own,
            second: covering(version, name, near, steps),
        };
    }
    if own.is_empty() {
        Evidence::of_one(covering(version, name, near, steps))
    } else {
        Evidence::of_one(own)
    }
}

/// The proof that a name isn't there, nor a wildcard for it.
fn no_name<'a, L: Ledger>(
    version: &'a Version,
    name: &Name,
    near: usize,
    steps: &mut Steps<L>,
) -> Evidence<'a>
    requires { exists version.now.records name.now ≡ false }
    ensures first { result.first.now ≡ (no_name_proof version.now.records name.now
        (option_map wildcard_of (encloser version.now.records name.now))).0 }
    ensures second { result.second.now ≡ (no_name_proof version.now.records name.now
        (option_map wildcard_of (encloser version.now.records name.now))).1 }
    ensures cost { TakesSearches 4 (length version.now.records) (steps.new - steps.old) }
    ensures counted { steps.old ≤ steps.new }
{
    let place = place_near(version, &name.as_ref(), near, steps);
    let first = covering_at(version, place, near, steps);
    match wildcard_of(version, name, place) {
        None => Evidence::of_one(first),
        Some(wildcard) => {
            let second = near_wildcard(version, &wildcard, near);
            Evidence {
                first,
                second: covering(version, &wildcard, second, steps),
            }
        }
    }
}

/// The number near which a wildcard may be, for a name that would be near another.
fn near_wildcard(version: &Version, wildcard: &Name, near: usize) -> usize {
    let above = wildcard.wire().len().saturating_sub(ASTERISK);
    if above == version.apex().wire().len() {
        AFTER_APEX
    } else {
        near
    }
}

/// The proof for a zone cut with these servers.
fn referral<'a, L: Ledger>(
    version: &'a Version,
    servers: &[Rr],
    near: usize,
    steps: &mut Steps<L>,
) -> Evidence<'a>
    ensures first { result.first.now ≡ (referral_proof version.now.records servers.now).0 }
    ensures second { result.second.now ≡ (referral_proof version.now.records servers.now).1 }
    ensures cost { TakesSearches 2 (length version.now.records) (steps.new - steps.old) }
    ensures counted { steps.old ≤ steps.new }
{
    match servers {
        [] => Evidence::of_one(&[]),
        [server, ..] => Evidence::of_one(at_cut(version, &server.owner_ref(), near, steps)),
    }
}

/// The DS RRset of a zone cut, or else its NSEC RRset.
fn at_cut<'a, L: Ledger>(
    version: &'a Version,
    cut: &NameRef,
    near: usize,
    steps: &mut Steps<L>,
) -> &'a [Rr]
    ensures rrset { result.now ≡ own_or (of_type TYPE_DS (records_of version.now.records cut.now))
        (nsec_of version.now.records cut.now) }
    ensures cost { TakesSearches 2 (length version.now.records) (steps.new - steps.old) }
    ensures counted { steps.old ≤ steps.new }
{
    let own = rrset_near(version, cut, TYPE_DS, near, steps);
    if own.is_empty() {
        rrset_near(version, cut, TYPE_NSEC, near, steps)
    } else {
        own
    }
}
