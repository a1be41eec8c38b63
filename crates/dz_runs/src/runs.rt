//! The records of an owner, and those of an owner and a type, found by one search in the index of a version.

ghost use Rattle.std.specs.Prelude.{◌≡◌, ◌≤◌, ◌+◌, ◌-◌, [], length, take, drop, slice_index_or, IfSome};
ghost use Rattle.std.specs.List.{AllByRecursion};
ghost use Rattle.std.specs.Ordering.{is_lt};
ghost use Rattle.dz_name.specs.Name.{canonical_order};
ghost use Rattle.std.specs.List.Sorted.{IsStrictlySortedBy, IsNonDecreasingBy};
ghost use Rattle.dz_record.specs.Record.{Record, record_order};
ghost use Rattle.dz_runs.specs.Counted.{TakesSearches};
ghost use Rattle.dz_runs.specs.Runs.{of_type, records_of, IsPlaceOf};
ghost use Rattle.dz_index.specs.Index.{IsRun};
ghost use Rattle.dz_zone.specs.Version.{owners_of};
ghost use Rattle.dz_runs.specs.Node.{from_owner, IsBegin, IsNodeOf};

use dz_index::Run;
use dz_name::dns::{TYPE_A, TYPE_AAAA};
use dz_name::{Name, NameRef};
use dz_record::Rr;
use dz_steps::Steps;
use dz_zone::Version;
use std::cmp::Ordering;
use std::marker::Brand;
use std::sync::ledger::{Blank, Ledger};

/// How many owners are looked at before a name near another is searched: as many as a zone cut and the addresses below
/// it often have.
pub const NEAR: usize = 5;

/// The number of the apex among the owners in the index.
pub const APEX: usize = 0;

/// The number of the owner that follows the apex.
const AFTER_APEX: usize = 1;

/// The octets of the label `*` in a name's wire form.
const ASTERISK: usize = 2;

/// The records of an owner, in the order of type and RDATA.
pub fn records_of<'a>(version: &'a Version, name: &Name) -> &'a [Rr]
    ensures { result.now ≡ records_of version.now.records name.now }
{
    counted_records::<Brand>(Blank::new(1), version, name)
}

/// The records of an owner and a type, in the order of RDATA.
pub fn rrset_of<'a>(version: &'a Version, name: &Name, kind: u16) -> &'a [Rr]
    ensures { result.now ≡ of_type kind (records_of version.now.records name.now) }
{
    counted_rrset::<Brand>(Blank::new(1), version, name, kind)
}

/// The records of an owner and a type, in the order of RDATA (an RRset, RFC 2181 section 5). A few owners are looked at
/// first: of an owner with as many octets as the apex the apex alone, else those from the one of a number in the index
/// back to earlier ones. Any number gives the same records; where the owner isn't among those looked at, it is searched
/// once.
pub fn rrset_near<'a, L: Ledger>(
    version: &'a Version,
    owner: &NameRef,
    kind: u16,
    number: usize,
    steps: &mut Steps<L>,
) -> &'a [Rr]
    ensures rrset { result.now ≡ of_type kind (records_of version.now.records owner.now) }
    ensures cost { TakesSearches 1 (length version.now.records) (steps.new - steps.old) }
    ensures counted { steps.old ≤ steps.new }
{
    let first = if owner.wire().len() == version.apex().wire().len() {
        APEX
    } else {
        number
    };
    of_type(node_near(version, owner, first, NEAR, steps).records, kind)
}

/// How many records precede those of a name, whether it owns any or not. Where the name would be right before the owner
/// of a number in the index, or is that owner, no search is made, else one. Any number gives the same place.
pub fn place_near<L: Ledger>(
    version: &Version,
    name: &NameRef,
    number: usize,
    steps: &mut Steps<L>,
) -> usize
    ensures room { result ≤ length version.now.records }
    ensures place { IsPlaceOf name.now version.now.records result }
    ensures cost { TakesSearches 1 (length version.now.records) (steps.new - steps.old) }
    ensures counted { steps.old ≤ steps.new }
{
    node_at_or_of(version, name, number, steps).place
}

/// The addresses of a name: its A records and its AAAA records, each in the order of RDATA.
#[derive(Clone, Copy, Debug)]
pub struct Addresses<'a> {
    pub four: &'a [Rr],
    pub six: &'a [Rr],
}

impl<'a> Addresses<'a> {
    /// No addresses.
    pub fn none() -> Addresses<'a>
        ensures four { result.four.now ≡ [] }
        ensures six { result.six.now ≡ [] }
    {
        Addresses {
            four: &[],
            six: &[],
        }
    }
}

impl<'a> Default for Addresses<'a> {
    /// No addresses.
    fn default() -> Addresses<'a> {
        Addresses::none()
    }
}

/// The addresses of a name, by one search where it isn't the apex.
pub fn addresses_of<'a>(version: &'a Version, name: &NameRef) -> Addresses<'a>
    ensures four { result.four.now ≡ of_type TYPE_A (records_of version.now.records name.now) }
    ensures six { result.six.now ≡ of_type TYPE_AAAA (records_of version.now.records name.now) }
    ensures owner_of_four { AllByRecursion (λ r. r.owner ≡ name.now) result.four.now }
    ensures owner_of_six { AllByRecursion (λ r. r.owner ≡ name.now) result.six.now }
{
    addresses_near(version, name, APEX)
}

/// The same. The owner of a number in the index is looked at first; where it isn't the name, the name is searched once.
pub fn addresses_near<'a>(version: &'a Version, name: &NameRef, number: usize) -> Addresses<'a>
    ensures four { result.four.now ≡ of_type TYPE_A (records_of version.now.records name.now) }
    ensures six { result.six.now ≡ of_type TYPE_AAAA (records_of version.now.records name.now) }
    ensures owner_of_four { AllByRecursion (λ r. r.owner ≡ name.now) result.four.now }
    ensures owner_of_six { AllByRecursion (λ r. r.owner ≡ name.now) result.six.now }
{
    counted_addresses::<Brand>(Blank::new(1), version, name, number)
}

/// The same as [`records_of`], counted in a ledger that is still blank.
fn counted_records<'a, L: Ledger>(blank: Blank, version: &'a Version, name: &Name) -> &'a [Rr]
    requires name { blank.name ≡ L.name }
    requires parts { blank.parts ≡ L.parts }
    requires whole { blank.parts ≡ 1 }
    ensures { result.now ≡ records_of version.now.records name.now }
{
    let mut steps = Steps::<L>::new(blank);
    node_of(version, &name.as_ref(), &mut steps).records
}

/// The same as [`rrset_of`], counted in a ledger that is still blank.
fn counted_rrset<'a, L: Ledger>(
    blank: Blank,
    version: &'a Version,
    name: &Name,
    kind: u16,
) -> &'a [Rr]
    requires name { blank.name ≡ L.name }
    requires parts { blank.parts ≡ L.parts }
    requires whole { blank.parts ≡ 1 }
    ensures { result.now ≡ of_type kind (records_of version.now.records name.now) }
{
    let mut steps = Steps::<L>::new(blank);
    of_type(node_of(version, &name.as_ref(), &mut steps).records, kind)
}

/// The same as [`addresses_near`], counted in a ledger that is still blank.
fn counted_addresses<'a, L: Ledger>(
    blank: Blank,
    version: &'a Version,
    name: &NameRef,
    number: usize,
) -> Addresses<'a>
    requires name { blank.name ≡ L.name }
    requires parts { blank.parts ≡ L.parts }
    requires whole { blank.parts ≡ 1 }
    ensures four { result.four.now ≡ of_type TYPE_A (records_of version.now.records name.now) }
    ensures six { result.six.now ≡ of_type TYPE_AAAA (records_of version.now.records name.now) }
    ensures owner_of_four { AllByRecursion (λ r. r.owner ≡ name.now) result.four.now }
    ensures owner_of_six { AllByRecursion (λ r. r.owner ≡ name.now) result.six.now }
{
    let mut steps = Steps::<L>::new(blank);
    let records = node_near(version, name, number, 1, &mut steps).records;
    Addresses {
        four: of_type(records, TYPE_A),
        six: of_type(records, TYPE_AAAA),
    }
}

/// The records of an owner, in order, the place in the zone where they begin or would begin, and the number of the
/// owner in the index, or that of the owner that is there instead.
#[derive(Clone, Copy)]
pub struct Node<'a> {
    pub number: usize,
    pub place: usize,
    pub records: &'a [Rr],
}

/// The node of a name, by one search.
pub fn node_of<'a, L: Ledger>(
    version: &'a Version,
    name: &NameRef,
    steps: &mut Steps<L>,
) -> Node<'a>
    ensures within { result.place ≤ length version.now.records }
    ensures point { IsBegin (from_owner name.now) version.now.records result.place }
    ensures records { result.records.now ≡ records_of version.now.records name.now }
    ensures kinds { IsNonDecreasingBy (λ r. r.kind) result.records.now }
    ensures rises { IsStrictlySortedBy record_order version.now.records }
    ensures cost { TakesSearches 1 (length version.now.records) (steps.new - steps.old) }
    ensures counted { steps.old ≤ steps.new }
{
    let records = version.records();
    let run = version.index().run_of(name, steps);
    Node {
        number: run.number,
        place: run.begin,
        records: between(records, run.begin, run.end),
    }
}

/// The node of the owner whose records are a run of the index.
fn node_of_run<'a>(version: &'a Version, run: &Run) -> Node<'a>
    requires { IsRun (owners_of version.now.records) run.now.begin run.now.end }
    ensures { (d : Record) → IsNodeOf version.now.records
        (slice_index_or version.now.records run.now.begin d).owner result.place result.records.now }
{
    Node {
        number: run.number,
        place: run.begin,
        records: between(version.records(), run.begin, run.end),
    }
}

/// The node of a name, where it is the owner of this number; none where it isn't. It takes no search, and one look at an
/// owner.
fn node_at<'a, L: Ledger>(
    version: &'a Version,
    name: &NameRef,
    number: usize,
    looks: &mut Steps<L>,
) -> Option<Node<'a>>
    ensures node { IfSome result
        (λ node. IsNodeOf version.now.records name.now node.place node.records.now) }
    ensures rises { IfSome result
        (λ _. IsStrictlySortedBy record_order version.now.records) }
    ensures cost { looks.new ≤ looks.old + 1 }
{
    looks.tick();
    let run = version.index().run_at(number)?;
    let records = version.records();
    if records[run.begin].owner_ref().same(name) {
        Some(node_of_run(version, &run))
    } else {
        None
    }
}

/// The node of a name, where it is one of a given number of owners (`most`), from the one of a place in the index to the
/// front; none where it isn't. It takes no search, and at most as many looks.
fn look_near<'a, L: Ledger>(
    version: &'a Version,
    name: &NameRef,
    number: usize,
    most: usize,
    looks: &mut Steps<L>,
) -> Option<Node<'a>>
    ensures node { IfSome result
        (λ node. IsNodeOf version.now.records name.now node.place node.records.now) }
    ensures rises { IfSome result
        (λ _. IsStrictlySortedBy record_order version.now.records) }
    ensures cost { looks.new ≤ looks.old + most }
{
    let mut behind = number.saturating_add(1);
    let first = behind.saturating_sub(most);
    'owners: while first < behind {
        behind -= 1;
        if let Some(node) = node_at(version, name, behind, looks) {
            return Some(node);
        }
    }
    None
}

/// The same for five looks at most, counted in a ledger that is still blank.
fn counted_near<'a, L: Ledger>(
    blank: Blank,
    version: &'a Version,
    name: &NameRef,
    number: usize,
    most: usize,
) -> Option<Node<'a>>
    requires name { blank.name ≡ L.name }
    requires parts { blank.parts ≡ L.parts }
    requires whole { blank.parts ≡ 1 }
    requires few { most ≤ 5 }
    ensures node { IfSome result
        (λ node. IsNodeOf version.now.records name.now node.place node.records.now) }
    ensures rises { IfSome result
        (λ _. IsStrictlySortedBy record_order version.now.records) }
{
    let mut looks = Steps::<L>::new(blank);
    look_near(version, name, number, most, &mut looks)
}

/// The node of a name. A few owners (`most`) are looked at first, from the one of a place in the index to the front.
pub fn node_near<'a, L: Ledger>(
    version: &'a Version,
    name: &NameRef,
    number: usize,
    most: usize,
    steps: &mut Steps<L>,
) -> Node<'a>
    requires few { most ≤ 5 }
    ensures node { IsNodeOf version.now.records name.now result.place result.records.now }
    ensures rises { IsStrictlySortedBy record_order version.now.records }
    ensures cost { TakesSearches 1 (length version.now.records) (steps.new - steps.old) }
    ensures counted { steps.old ≤ steps.new }
{
    match counted_near::<Brand>(Blank::new(1), version, name, number, most) {
        Some(node) => node,
        None => node_of(version, name, steps),
    }
}

/// The node of a name, where it is or would be right before the records of the owner of a number, or is that owner;
/// none where it isn't, and none for the first owner. It takes no search, and at most two looks.
fn node_beside<'a, L: Ledger>(
    version: &'a Version,
    name: &NameRef,
    number: usize,
    looks: &mut Steps<L>,
) -> Option<Node<'a>>
    ensures node { IfSome result
        (λ node. IsNodeOf version.now.records name.now node.place node.records.now) }
    ensures rises { IfSome result
        (λ _. IsStrictlySortedBy record_order version.now.records) }
    ensures cost { looks.new ≤ looks.old + 2 }
{
    let run = version.index().run_at(number)?;
    let records = version.records();
    if run.begin == 0 {
        return None;
    }
    looks.tick();
    if !precedes(&records[run.begin - 1].owner_ref(), name) {
        return None;
    }
    looks.tick();
    match records[run.begin].owner_ref().canonical_cmp(name) {
        Ordering::Less => None,
        Ordering::Equal => Some(node_of_run(version, &run)),
        Ordering::Greater => Some(Node {
            number: run.number,
            place: run.begin,
            records: &[],
        }),
    }
}

/// Whether a name comes before another in canonical order, as each comes before those one label below it.
fn precedes(first: &NameRef, second: &NameRef) -> bool
    ensures { result ≡ is_lt (canonical_order first.now second.now) }
{
    first.is_parent_of(second) || first.canonical_cmp(second).is_lt()
}

/// The same, counted in a ledger that is still blank.
fn counted_beside<'a, L: Ledger>(
    blank: Blank,
    version: &'a Version,
    name: &NameRef,
    number: usize,
) -> Option<Node<'a>>
    requires name { blank.name ≡ L.name }
    requires parts { blank.parts ≡ L.parts }
    requires whole { blank.parts ≡ 1 }
    ensures node { IfSome result
        (λ node. IsNodeOf version.now.records name.now node.place node.records.now) }
    ensures rises { IfSome result
        (λ _. IsStrictlySortedBy record_order version.now.records) }
{
    let mut looks = Steps::<L>::new(blank);
    node_beside(version, name, number, &mut looks)
}

/// The node of a name, by what is beside the owner of a number, or else by one search.
pub fn node_at_or_of<'a, L: Ledger>(
    version: &'a Version,
    name: &NameRef,
    number: usize,
    steps: &mut Steps<L>,
) -> Node<'a>
    ensures node { IsNodeOf version.now.records name.now result.place result.records.now }
    ensures rises { IsStrictlySortedBy record_order version.now.records }
    ensures cost { TakesSearches 1 (length version.now.records) (steps.new - steps.old) }
    ensures counted { steps.old ≤ steps.new }
{
    match counted_beside::<Brand>(Blank::new(1), version, name, number) {
        Some(node) => node,
        None => node_of(version, name, steps),
    }
}

/// The node of a name above another one, which would be before the owner of a number in the index. A few owners up to
/// that one are looked at first, and then whether the name would be right before the last of those that come before it.
pub fn node_above<'a, L: Ledger>(
    version: &'a Version,
    above: &NameRef,
    number: usize,
    steps: &mut Steps<L>,
) -> Node<'a>
    ensures node { IsNodeOf version.now.records above.now result.place result.records.now }
    ensures rises { IsStrictlySortedBy record_order version.now.records }
    ensures cost { TakesSearches 1 (length version.now.records) (steps.new - steps.old) }
    ensures counted { steps.old ≤ steps.new }
{
    match counted_near::<Brand>(Blank::new(1), version, above, number, NEAR) {
        Some(node) => node,
        None => node_at_or_of(version, above, number.saturating_sub(1), steps),
    }
}

/// The node of a wildcard. Where the wildcard is directly below the apex, what follows the apex's records is looked at
/// first; then a few owners up to the one of a number.
pub fn node_of_wildcard<'a, L: Ledger>(
    version: &'a Version,
    wildcard: &NameRef,
    number: usize,
    steps: &mut Steps<L>,
) -> Node<'a>
    ensures node { IsNodeOf version.now.records wildcard.now result.place result.records.now }
    ensures rises { IsStrictlySortedBy record_order version.now.records }
    ensures cost { TakesSearches 1 (length version.now.records) (steps.new - steps.old) }
    ensures counted { steps.old ≤ steps.new }
{
    let above = wildcard.wire().len().saturating_sub(ASTERISK);
    if above == version.apex().wire().len() {
        if let Some(node) = counted_beside::<Brand>(Blank::new(1), version, wildcard, AFTER_APEX) {
            return node;
        }
    }
    node_near(version, wildcard, number, NEAR, steps)
}

/// The records of a type among those of an owner.
pub fn of_type<'a>(node: &'a [Rr], kind: u16) -> &'a [Rr]
    requires { IsNonDecreasingBy (λ r. r.kind) node.now }
    ensures { result.now ≡ of_type kind node.now }
{
    let begin = node.partition_point(|r| r.kind().cmp(&kind).is_lt());
    let end = node.partition_point(|r| r.kind().cmp(&kind).is_le());
    between(node, begin, end)
}

/// The records from one place to another.
fn between(records: &[Rr], start: usize, end: usize) -> &[Rr]
    requires order { start ≤ end }
    requires within { end ≤ length records.now }
    ensures { result.now ≡ take (end - start) (drop start records.now) }
{
    &records[start..end]
}
