//! The records of a chain, each with its RRSIG records (RFC 4035 section 3.1.1).

ghost use Rattle.std.specs.Prelude.{◌≡◌, ◌+◌, ◌%◌, ◌<◌, ◌≤◌, [], length, take, slice_index_or};
ghost use Rattle.dz_name.specs.Words.{Name};
ghost use Rattle.dz_record.specs.Record.{Record};
ghost use Rattle.dz_header.specs.Writing.{also};
ghost use Rattle.dz_reply.specs.Layout.{entries, entries_octets};
ghost use Rattle.dz_reply.specs.Secure.{beside, renamer_set, secure_step, secure_trail};

use crate::counted::signatures;
use crate::layout::{put_cname, put_entries, put_entry};
use dz_header::Writer;
use dz_lookup::Chain;
use dz_name::dns::TYPE_DNAME;
use dz_name::{Name, NameRef};
use dz_record::Rr;
use dz_zone::Version;

/// A header counts records in two octets (RFC 1035 section 4.1.1).
const COUNTS: usize = 65_536;

/// What an answer section with records of DNSSEC is written from: the name of the question, the version that is asked,
/// whether the section gains no signatures, and the number in the version's index near which owners are looked for.
#[derive(Clone, Copy)]
pub struct Signing<'a> {
    pub question: &'a Name,
    pub version: &'a Version,
    pub bare: bool,
    pub near: usize,
}

/// The RRSIG records of an RRset of the answer section, by one of its records; none where the section gains none.
fn beside<'a>(signing: &Signing<'a>, rr: &Rr) -> &'a [Rr]
    ensures { (owner : Name) → entries owner result.now
        ≡ beside signing.now.version.now.records signing.now.bare owner rr.now }
{
    if signing.bare {
        &[]
    } else {
        signatures(signing.version, &rr.owner_ref(), rr.kind(), signing.near)
    }
}

/// Writes the RRSIG records of an RRset, under the owner shown.
fn put_beside(writer: &mut Writer, signing: &Signing<'_>, owner: &NameRef, rr: &Rr)
    ensures { writer.new.writing
        ≡ also writer.old.writing (entries_octets signing.now.question.now
        (beside signing.now.version.now.records signing.now.bare owner.now rr.now)) }
{
    put_entries(writer, signing.question, owner, beside(signing, rr));
}

/// How many RRSIG records an RRset gains, modulo 65,536.
fn count_beside(signing: &Signing<'_>, rr: &Rr) -> usize
    ensures value { (owner : Name) → result
        ≡ length (beside signing.now.version.now.records signing.now.bare owner rr.now) % COUNTS }
    ensures small { result < COUNTS }
{
    beside(signing, rr).len() % COUNTS
}

/// Writes a DNAME with its RRSIG records after the first records of a chain, unless it is among them.
pub fn put_secure_renamer(
    writer: &mut Writer,
    signing: &Signing<'_>,
    chain: &Chain<'_>,
    upto: usize,
    rr: &Rr,
)
    requires { upto ≤ length chain.now }
    ensures { writer.new.writing
        ≡ also writer.old.writing (entries_octets signing.now.question.now
        (renamer_set signing.now.version.now.records signing.now.bare
        (take upto chain.now) rr.now)) }
{
    if !chain.has_among(upto, rr) {
        let owner = rr.owner_ref();
        put_entry(writer, signing.question, &owner, rr.ttl(), rr);
        let signed = Signing {
            bare: false,
            ..*signing
        };
        put_beside(writer, &signed, &owner, rr);
    }
}

/// How many records such a DNAME and its RRSIG records are, modulo 65,536.
pub fn count_secure_renamer(signing: &Signing<'_>, chain: &Chain<'_>, upto: usize, rr: &Rr) -> usize
    requires { upto ≤ length chain.now }
    ensures value { result
        ≡ length (renamer_set signing.now.version.now.records signing.now.bare
        (take upto chain.now) rr.now) % COUNTS }
    ensures small { result < COUNTS }
{
    if chain.has_among(upto, rr) {
        0
    } else {
        let signed = Signing {
            bare: false,
            ..*signing
        };
        (1 + count_beside(&signed, rr)) % COUNTS
    }
}

/// Writes what a step of a chain shows, which was found for a name.
fn put_secure_step(
    writer: &mut Writer,
    signing: &Signing<'_>,
    chain: &Chain<'_>,
    number: usize,
    name: &Name,
)
    requires within { number < length chain.now }
    requires name { (d : Name × Record) → name.now ≡ (slice_index_or chain.now number d).0 }
    ensures { (d : Name × Record) → writer.new.writing
        ≡ also writer.old.writing (entries_octets signing.now.question.now
        (secure_step signing.now.version.now.records signing.now.bare (take number chain.now)
        (slice_index_or chain.now number d))) }
{
    let record = chain.record(number);
    let owner = name.as_ref();
    if record.kind() == TYPE_DNAME {
        put_secure_renamer(writer, signing, chain, number, record);
        let target = chain.target(number, name);
        put_cname(
            writer,
            signing.question,
            &owner,
            record.ttl(),
            &target.as_ref(),
        );
    } else {
        put_entry(writer, signing.question, &owner, record.ttl(), record);
        put_beside(writer, signing, &owner, record);
    }
}

/// How many records a step shows, modulo 65,536.
fn count_secure_step(signing: &Signing<'_>, chain: &Chain<'_>, number: usize) -> usize
    requires { number < length chain.now }
    ensures value { (d : Name × Record) → result
        ≡ length (secure_step signing.now.version.now.records signing.now.bare
        (take number chain.now) (slice_index_or chain.now number d)) % COUNTS }
    ensures small { result < COUNTS }
{
    let record = chain.record(number);
    if record.kind() == TYPE_DNAME {
        (count_secure_renamer(signing, chain, number, record) + 1) % COUNTS
    } else {
        (1 + count_beside(signing, record)) % COUNTS
    }
}

/// Writes the records of a chain, each with its RRSIG records.
pub fn put_secure_trail(writer: &mut Writer, signing: &Signing<'_>, chain: &Chain<'_>)
    ensures { writer.new.writing
        ≡ also writer.old.writing (entries_octets signing.now.question.now
        (secure_trail signing.now.version.now.records signing.now.bare [] chain.now)) }
{
    if chain.len() == 0 {
        return;
    }
    let mut name = chain.first();
    'trail: for number in 0..chain.len() {
        put_secure_step(writer, signing, chain, number, &name);
        if number + 1 < chain.len() {
            name = chain.target(number, &name);
        }
    }
}

/// How many records a chain and its RRSIG records are, modulo 65,536.
pub fn count_secure_trail(signing: &Signing<'_>, chain: &Chain<'_>) -> usize
    ensures value { result
        ≡ length (secure_trail signing.now.version.now.records signing.now.bare [] chain.now)
        % COUNTS }
    ensures small { result < COUNTS }
{
    let mut count = 0;
    'trail: for number in 0..chain.len() {
        count = (count + count_secure_step(signing, chain, number)) % COUNTS;
    }
    count
}
