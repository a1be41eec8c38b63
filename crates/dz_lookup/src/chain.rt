//! Chains of aliases and of renamed names.

ghost use Rattle.std.specs.Prelude.{◌≡◌, ◌==◌, ◌&&◌, ◌+◌, ◌<◌, ◌≤◌, [], ◌∷◌, ◌++◌, length, take, true, slice_index_or};
ghost use Rattle.std.specs.Prelude.{Some, None, if◌then◌else◌};
ghost use Rattle.dz_name.specs.Name.{same_name, is_within};
ghost use Rattle.dz_name.specs.Words.{Name};
ghost use Rattle.std.specs.List.{AllByRecursion, list_any};
ghost use Rattle.dz_record.specs.Record.{Record, same_record};
ghost use Rattle.dz_runs.specs.Runs.{of_type, records_of};
ghost use Rattle.dz_lookup.specs.Chain.{was_looked_up, led_to, renamed, next_name, is_answered, chain_of, ending_of};
ghost use Rattle.dz_lookup.specs.inner.Links.{behind, IsNext};

use crate::found::{Found, find_near};
use arrayvec::ArrayVec;
use dz_name::dns::{ALIASES, TYPE_A, TYPE_AAAA, TYPE_ANY, TYPE_CNAME, TYPE_DNAME};
use dz_name::{Name, NameRef};
use dz_record::Rr;
use dz_runs::{Addresses, addresses_near};
use dz_steps::Steps;
use dz_zone::Version;
use std::marker::{Brand, Model};
use std::sync::ledger::{Blank, Ledger};

/// How a chain ends.
#[derive(Clone, Copy, Debug)]
pub enum Last<'a> {
    /// With what is found for its last name.
    Found(Found<'a>, Name),
    /// A further name isn't looked up: it is outside the zone, it was looked up before, 16 records were followed, or
    /// the CNAME that a DNAME makes answers.
    Stopped,
    /// The name that this DNAME gives to the last name has more than 255 octets.
    NameTooLong(&'a Rr),
}

/// The CNAME and DNAME records that lead on from a name, at most 16, each with the name that it was found for.
/// Contracts see it as the list of these pairs. Only the first name is kept: each other one is where the record before
/// leads. It also has a number in the index near which its end was found.
#[derive(Drop)]
pub struct Chain<'a> {
    first: Name,
    records: ArrayVec<Option<&'a Rr>, ALIASES>,
    near: usize,
}

impl<'a> Model for Chain<'a> {
    ghost use Rattle.std.specs.Prelude.{◌≤◌, length};
    ghost use Rattle.dz_name.specs.declared.dns.TheConstants.{ALIASES};
    ghost use Rattle.dz_lookup.specs.Chain.{Trail};
    ghost use Rattle.dz_lookup.specs.inner.Links.{pairs_of, AreThere};

    ghost Value = { Trail };

    ghost view = { λ c. pairs_of c.first c.records.items };

    ghost invariant = { λ c. (length c.records.items ≤ ALIASES) × AreThere c.records.items };
}

impl<'a> Chain<'a> {
    /// A chain without records.
    pub fn empty() -> Chain<'a>
        ensures { result ≡ [] }
    {
        Chain {
            first: Name::root(),
            records: ArrayVec::new(),
            near: 0,
        }
    }

    /// The addresses of a name, which may be the owner `number` places after the one that follows the zone cut at which
    /// the chain ends, as its name servers often are. That owner is looked at first; where it isn't the name, the name
    /// is searched once.
    pub fn addresses_of<'v>(
        &self,
        version: &'v Version,
        name: &NameRef,
        number: usize,
    ) -> Addresses<'v>
        ensures four { result.four.now
            ≡ of_type TYPE_A (records_of version.now.records name.now) }
        ensures six { result.six.now
            ≡ of_type TYPE_AAAA (records_of version.now.records name.now) }
        ensures owner_of_four { AllByRecursion (λ r. r.owner ≡ name.now) result.four.now }
        ensures owner_of_six { AllByRecursion (λ r. r.owner ≡ name.now) result.six.now }
    {
        addresses_near(version, name, self.near.saturating_add(number))
    }

    /// A number in the index of the version, a hint where to look first (`rrset_near`, `place_near`, `source`). Where
    /// the chain ends at a zone cut, it is that of the owner that follows the cut; else that of the last name, or of
    /// the owner that follows it. Any number gives the same answers, so that contracts say nothing of it.
    pub fn near(&self) -> usize {
        self.near
    }

    /// Keeps the number near which its end was found.
    fn end_at(&mut self, near: usize)
        ensures { self.new ≡ self.old }
    {
        self.near = near;
    }

    /// How many records it has, at most 16.
    pub fn len(&self) -> usize
        ensures value { result ≡ length self.now }
        ensures few { result ≤ ALIASES }
    {
        self.records.len()
    }

    /// The name that the first record was found for; where the record is a wildcard's or a DNAME, it isn't the record's
    /// owner.
    pub fn first(&self) -> Name
        ensures { (d : Name × Record) → 0 < length self.now
            → result ≡ (slice_index_or self.now 0 d).0 }
    {
        self.first
    }

    /// Where a record leads from the name that it was found for: the name of the next record, if there is one.
    pub fn target(&self, number: usize, name: &Name) -> Name
        requires within { number < length self.now }
        requires name { (d : Name × Record) → name.now ≡ (slice_index_or self.now number d).0 }
        ensures target { (d : Name × Record)
            → result ≡ behind name.now (slice_index_or self.now number d).1 }
        ensures next { (d : Name × Record) → number + 1 < length self.now
            → result ≡ (slice_index_or self.now (number + 1) d).0 }
    {
        let _ = &self.records;
        behind(name, self.record(number))
    }

    /// Whether the record is among the first ones.
    pub fn has_among(&self, upto: usize, rr: &Rr) -> bool
        requires { upto ≤ length self.now }
        ensures { result ≡ list_any (λ a. same_record a.1 rr.now) (take upto self.now) }
    {
        'records: for number in 0..upto {
            if self.record(number).same(rr) {
                return true;
            }
        }
        false
    }

    /// A record, 0 being the first.
    pub fn record(&self, number: usize) -> &'a Rr
        requires { number < length self.now }
        ensures { (d : Name × Record) → result.now ≡ (slice_index_or self.now number d).1 }
    {
        let records = self.records.as_slice();
        match records[number] {
            Some(record) => record,
            None => unreachable!(),
        }
    }

    /// Removes all records.
    fn clear(&mut self)
        ensures { self.new ≡ [] }
    {
        self.records.clear();
    }

    /// Puts a record after the others, found for a name that is the first, or to which the last record leads.
    fn push(&mut self, name: &Name, rr: &'a Rr)
        requires room { length self.old < ALIASES }
        requires next { IsNext name.now self.old }
        ensures { self.new ≡ self.old ++ (name.now, rr.now) ∷ [] }
    {
        if self.records.is_empty() {
            self.first = *name;
        }
        self.records.push(Some(rr));
    }

    /// Whether a name was looked up.
    fn contains(&self, name: &Name) -> bool
        ensures { result ≡ was_looked_up self.now name.now }
    {
        let mut found = self.first();
        'names: for number in 0..self.len() {
            if found.same(name) {
                return true;
            }
            if number + 1 < self.len() {
                found = self.target(number, &found);
            }
        }
        false
    }
}

/// Where a record leads from a name, the root where it leads nowhere.
fn behind(name: &Name, rr: &Rr) -> Name
    ensures { result ≡ behind name.now rr.now }
{
    match led_to(name, rr) {
        Some(target) => target,
        None => Name::root(),
    }
}

/// Where a CNAME or a DNAME leads from a name.
fn led_to(name: &Name, rr: &Rr) -> Option<Name>
    ensures { result ≡ led_to name.now rr.now }
{
    if rr.kind() == TYPE_DNAME {
        renamed(name, rr)
    } else {
        rr.target()
    }
}

/// The name that a DNAME gives to a name below its owner; none where that would have more than 255 octets.
fn renamed(name: &Name, renamer: &Rr) -> Option<Name>
    ensures { result ≡ renamed name.now renamer.now }
{
    let target = match renamer.target() {
        None => return None,
        Some(target) => target,
    };
    let below = name
        .label_count()
        .saturating_sub(renamer.owner_ref().label_count());
    name.in_front(below, &target.as_ref())
}

/// Follows CNAME and DNAME records from a name within the apex on, from name to name (RFC 1034 section 4.3.2, RFC 6672
/// section 3.2). The chain becomes these records, and the answer is how it ends.
pub fn chase<'a>(version: &'a Version, name: &Name, kind: u16, chain: &mut Chain<'a>) -> Last<'a>
    requires within { is_within name.now version.now.apex ≡ true }
    ensures trail { chain.new
        ≡ (chain_of version.now.apex version.now.records name.now kind).trail }
    ensures ending { ending_of result
        ≡ (chain_of version.now.apex version.now.records name.now kind).ending }
{
    chain.clear();
    follow::<Brand>(Blank::new(1), version, name, kind, chain)
}

/// Follows CNAME and DNAME records from name to name, and puts them into a chain without any; counted in a ledger that
/// is still blank.
fn follow<'a, L: Ledger>(
    blank: Blank,
    version: &'a Version,
    name: &Name,
    kind: u16,
    chain: &mut Chain<'a>,
) -> Last<'a>
    requires name { blank.name ≡ L.name }
    requires parts { blank.parts ≡ L.parts }
    requires whole { blank.parts ≡ 1 }
    requires within { is_within name.now version.now.apex ≡ true }
    requires empty { chain.old ≡ [] }
    ensures trail { chain.new
        ≡ (chain_of version.now.apex version.now.records name.now kind).trail }
    ensures ending { ending_of result
        ≡ (chain_of version.now.apex version.now.records name.now kind).ending }
{
    let mut steps = Steps::<L>::new(blank);
    let mut asked = *name;
    'trail: while chain.len() < ALIASES {
        let finding = find_near(version, &asked, kind, &mut steps);
        let record = match finding.found.leading() {
            None => {
                chain.end_at(finding.near);
                return Last::Found(finding.found, asked);
            }
            Some(record) => record,
        };
        let target = match led_to(&asked, record) {
            None => return Last::NameTooLong(record),
            Some(target) => target,
        };
        chain.push(&asked, record);
        if is_answered_by(kind, record) || !is_next(&version.apex(), chain, &target) {
            return Last::Stopped;
        }
        asked = target;
    }
    Last::Stopped
}

/// Whether the record is a DNAME whose CNAME answers a question for this type.
fn is_answered_by(kind: u16, rr: &Rr) -> bool
    ensures { result ≡ (rr.now.kind == TYPE_DNAME && is_answered kind) }
{
    rr.kind() == TYPE_DNAME && (kind == TYPE_CNAME || kind == TYPE_ANY)
}

/// Whether a further name is looked up: it is within the apex and wasn't looked up before.
fn is_next(apex: &NameRef, chain: &Chain, target: &Name) -> bool
    ensures { (if result then Some target.now else None)
        ≡ next_name apex.now chain.now (Some target.now) }
{
    target.as_ref().is_within(apex) && !chain.contains(target)
}
