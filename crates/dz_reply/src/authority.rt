//! The RRsets of an authority section with records of DNSSEC (RFC 4035 section 3.1).

ghost use Rattle.std.specs.Prelude.{◌≡◌, ◌+◌, ◌%◌, ◌<◌, ◌≤◌, [], length};
ghost use Rattle.std.specs.List.{flat_map, list_any};
ghost use Rattle.dz_header.specs.Writing.{also};
ghost use Rattle.dz_reply.specs.Layout.{entries_octets};
ghost use Rattle.dz_reply.specs.Secure.{begins_with, stands, gain, own_signed};
ghost use Rattle.dz_reply.specs.inner.Signed.{set_shown};

use crate::counted::signatures;
use crate::layout::put_both;
use arrayvec::ArrayVec;
use dz_header::Writer;
use dz_name::Name;
use dz_name::dns::ALIASES;
use dz_record::Rr;
use dz_zone::Version;
use std::marker::Model;

/// A header counts records in two octets (RFC 1035 section 4.1.1).
const COUNTS: usize = 65_536;

/// A proof for each name of a chain and for the last one, two of the last case, and what comes before them.
pub const RRSETS: usize = ALIASES + 4;

/// RRsets, none of them twice. Contracts see the list of them. With them goes a number in the index near which their
/// owners are looked for.
#[derive(Drop)]
pub struct Authority<'a> {
    rrsets: ArrayVec<&'a [Rr], RRSETS>,
    near: usize,
}

impl<'a> Model for Authority<'a> {
    ghost use Rattle.std.specs.Prelude.{List, map, length, ◌≤◌};
    ghost use Rattle.dz_record.specs.Record.{Record};
    ghost use Rattle.dz_reply.specs.declared.authority.TheConstants.{RRSETS};

    ghost Value = { List (List Record) };

    ghost view = { λ a. map (λ rs. rs.now) a.rrsets.items };

    ghost invariant = { λ a. length a.rrsets.items ≤ RRSETS };
}

impl<'a> Authority<'a> {
    /// No RRset yet, and where to look for owners first.
    pub fn empty(near: usize) -> Authority<'a>
        ensures { result ≡ [] }
    {
        Authority {
            rrsets: ArrayVec::new(),
            near,
        }
    }

    /// Puts an RRset after the others, unless it is there already or has no records.
    pub fn put(&mut self, records: &'a [Rr])
        requires { length self.old < RRSETS }
        ensures gain { self.new ≡ gain self.old records.now }
        ensures more { length self.new ≤ length self.old + 1 }
    {
        let first = match records.first() {
            None => return,
            Some(first) => first,
        };
        if self.has(first) {
            return;
        }
        self.rrsets.push(records);
    }

    /// Whether an RRset begins with this record.
    fn has(&self, first: &Rr) -> bool
        ensures { result ≡ stands self.now first.now }
    {
        has_first(self.rrsets.as_slice(), first)
    }

    /// The same RRsets, each with its RRSIG records.
    pub fn signed(&self, version: &'a Version) -> Signed<'a>
        ensures { result ≡ flat_map (own_signed version.now.records) self.now }
    {
        Signed {
            sets: signed_all(version, self.rrsets.as_slice(), self.near),
        }
    }
}

/// An RRset and its RRSIG records.
#[derive(Clone, Copy, Default)]
pub struct SignedSet<'a> {
    pub records: &'a [Rr],
    pub signed: &'a [Rr],
}

/// RRsets, each with its RRSIG records. Contracts see the records as the reply has them.
#[derive(Drop)]
pub struct Signed<'a> {
    sets: ArrayVec<SignedSet<'a>, RRSETS>,
}

impl<'a> Model for Signed<'a> {
    ghost use Rattle.std.specs.Prelude.{List};
    ghost use Rattle.std.specs.List.{flat_map};
    ghost use Rattle.dz_record.specs.Record.{Record};
    ghost use Rattle.dz_reply.specs.inner.Signed.{set_shown};

    ghost Value = { List Record };

    ghost view = { λ s. flat_map set_shown s.sets.items };
}

impl<'a> Signed<'a> {
    /// How many records these are, modulo 65,536.
    pub fn count(&self) -> usize
        ensures value { result ≡ length self.now % COUNTS }
        ensures small { result < COUNTS }
    {
        count_all(self.sets.as_slice())
    }

    /// Writes them.
    pub fn write(&self, writer: &mut Writer, question: &Name)
        ensures { writer.new.writing
            ≡ also writer.old.writing (entries_octets question.now self.now) }
    {
        put_all(writer, question, self.sets.as_slice());
    }
}

/// Whether one of some RRsets begins with this record.
fn has_first(rrsets: &[&[Rr]], first: &Rr) -> bool
    ensures { result ≡ list_any (λ rs. begins_with first.now rs.now) rrsets.now }
{
    'rrsets: for rrset in rrsets {
        if begins_with(first, rrset) {
            return true;
        }
    }
    false
}

/// Whether the first of some records is this one.
fn begins_with(first: &Rr, records: &[Rr]) -> bool
    ensures { result ≡ begins_with first.now records.now }
{
    match records {
        [] => false,
        [other, ..] => other.same(first),
    }
}

/// RRsets, each with its RRSIG records.
fn signed_all<'a>(
    version: &'a Version,
    rrsets: &[&'a [Rr]],
    near: usize,
) -> ArrayVec<SignedSet<'a>, RRSETS>
    requires { length rrsets.now ≤ RRSETS }
    ensures { flat_map set_shown result.items
        ≡ flat_map (λ rs. own_signed version.now.records rs.now) rrsets.now }
{
    let mut sets = ArrayVec::new();
    'rrsets: for rrset in rrsets {
        sets.push(signed_set(version, rrset, near));
    }
    sets
}

/// An RRset and its RRSIG records.
fn signed_set<'a>(version: &'a Version, records: &'a [Rr], near: usize) -> SignedSet<'a>
    ensures { set_shown result ≡ own_signed version.now.records records.now }
{
    match records {
        [] => SignedSet {
            records: &[],
            signed: &[],
        },
        [first, ..] => SignedSet {
            records,
            signed: signatures(version, &first.owner_ref(), first.kind(), near),
        },
    }
}

/// How many records RRsets are together with their RRSIG records, modulo 65,536.
fn count_all(sets: &[SignedSet<'_>]) -> usize
    ensures value { result ≡ length (flat_map set_shown sets.now) % COUNTS }
    ensures small { result < COUNTS }
{
    let mut count = 0;
    'sets: for set in sets {
        count = (count + count_signed(set)) % COUNTS;
    }
    count
}

/// Writes RRsets, each with its RRSIG records.
fn put_all(writer: &mut Writer, question: &Name, sets: &[SignedSet<'_>])
    ensures { writer.new.writing
        ≡ also writer.old.writing (entries_octets question.now (flat_map set_shown sets.now)) }
{
    'sets: for set in sets {
        put_signed(writer, question, set);
    }
}

/// How many records an RRset is together with its RRSIG records, modulo 65,536.
fn count_signed(set: &SignedSet<'_>) -> usize
    ensures value { result ≡ length (set_shown set.now) % COUNTS }
    ensures small { result < COUNTS }
{
    match set.records {
        [] => 0,
        [_, ..] => (set.records.len() % COUNTS + set.signed.len() % COUNTS) % COUNTS,
    }
}

/// Writes an RRset and its RRSIG records, under the name of its owner.
fn put_signed(writer: &mut Writer, question: &Name, set: &SignedSet<'_>)
    ensures { writer.new.writing
        ≡ also writer.old.writing (entries_octets question.now (set_shown set.now)) }
{
    match set.records {
        [] => {}
        [first, ..] => {
            put_both(
                writer,
                question,
                &first.owner_ref(),
                set.records,
                set.signed,
            );
        }
    }
}
