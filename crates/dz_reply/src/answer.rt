//! The answer of a zone: the records of a chain, and what its end adds.

ghost use Rattle.std.specs.Prelude.{◌≡◌, ◌+◌, ◌<◌, ◌∷◌, ◌++◌, [], length, take, true, false, slice_index_or, Some};
ghost use Rattle.dz_name.specs.Name.{is_within};
ghost use Rattle.dz_header.specs.Code.{number_of};
ghost use Rattle.dz_header.specs.Writing.{also};
ghost use Rattle.dz_request.specs.Frame.{is_tcp, query_of, opening, with_additional};
ghost use Rattle.dz_request.specs.Request.{IsWhole};
ghost use Rattle.dz_request.specs.declared.frame.Heading.{Heading};
ghost use Rattle.dz_lookup.specs.Found.{meaning, found};
ghost use Rattle.dz_lookup.specs.inner.Links.{behind};
ghost use Rattle.dz_record.specs.Record.{Record, record_order};
ghost use Rattle.dz_name.specs.Words.{Name, Kind, Octets};
ghost use Rattle.std.specs.Prelude.{◌≤◌};
ghost use Rattle.dz_reply.specs.Layout.{entries_octets};
ghost use Rattle.dz_reply.specs.Answer.{Replies, dname_entries, step_entries, trail_entries, own_entries, soa_entries};
ghost use Rattle.dz_reply.specs.Answer.{negative_ttl, only_trail, with_renamer, with_records, with_soa, with_servers};
ghost use Rattle.dz_reply.specs.Answer.{at_end, glue, sections_of};
ghost use Rattle.std.specs.List.Sorted.{IsNonDecreasingBy, IsStrictlySortedBy};
ghost use Rattle.dz_reply.specs.Secure.{asks_dnssec, sections_for};

use crate::glue::put_glue;
use crate::layout::{put_answer, put_cname, put_entry, put_own};
use crate::secure::{secure_end, secure_stopped, secure_too_long};
use dz_header::{ResponseCode, Writer};
use dz_lookup::{Chain, Found, Last, chase};
use dz_name::Name;
use dz_name::dns::TYPE_DNAME;
use dz_record::Rr;
use dz_request::{Frame, Heading};
use dz_zone::Version;

/// What an answer is made of: the request that it goes to, and the version that is asked.
#[derive(Drop)]
pub struct Answer<'a> {
    pub frame: &'a Frame<'a>,
    pub version: &'a Version,
}

/// Writes the reply of a zone to a question for a name within its apex and a type: the records that lead on, and what
/// their end adds.
pub fn reply_zone(frame: &Frame<'_>, version: &Version, writer: &mut Writer)
    requires whole { IsWhole frame.now.request.now frame.now.asked.now.size }
    requires within { is_within frame.now.asked.now.question.name version.now.apex ≡ true }
    ensures { Replies frame.now
        (sections_for (asks_dnssec frame.now.asked.now.edns) version.now
        frame.now.asked.now.question.name frame.now.asked.now.question.kind) writer.new.writing }
{
    let mut chain = Chain::empty();
    let question = &frame.asked.question;
    let answer = Answer { frame, version };
    let last = chase(version, &question.name, question.kind, &mut chain);
    if shows_dnssec(frame, version) {
        match last {
            Last::Stopped => secure_stopped(&answer, &chain, writer),
            Last::NameTooLong(renamer) => secure_too_long(&answer, &chain, renamer, writer),
            Last::Found(found, name) => secure_end(&answer, &chain, &found, &name, writer),
        }
        return;
    }
    match last {
        Last::Stopped => reply_trail(&answer, &chain, writer),
        Last::NameTooLong(renamer) => reply_too_long(&answer, &chain, renamer, writer),
        Last::Found(found, name) => reply_end(&answer, &chain, &found, &name, writer),
    }
}

/// Whether the reply may have records of DNSSEC: the request has the DO bit (RFC 3225), and the zone has such records.
/// Without them the sections are the same with DO and without it.
fn shows_dnssec(frame: &Frame<'_>, version: &Version) -> bool
    ensures asked { result ≡ true → asks_dnssec frame.now.asked.now.edns ≡ true }
    ensures plain { result ≡ false → (name : Name) (kind : Kind) → sections_of version.now name kind
        ≡ sections_for (asks_dnssec frame.now.asked.now.edns) version.now name kind }
    ensures rises { IsStrictlySortedBy record_order version.now.records }
{
    if !version.is_secure() {
        return false;
    }
    asks_for_dnssec(frame)
}

/// Whether the request has the DO bit (RFC 3225).
fn asks_for_dnssec(frame: &Frame<'_>) -> bool
    ensures { result ≡ asks_dnssec frame.now.asked.now.edns }
{
    match frame.asked.edns {
        None => false,
        Some(edns) => edns.dnssec_ok,
    }
}

/// The reply of a chain by what is found for its last name.
fn reply_end(
    answer: &Answer<'_>,
    chain: &Chain<'_>,
    last: &Found<'_>,
    name: &Name,
    writer: &mut Writer,
)
    requires whole { IsWhole answer.now.frame.now.request.now
        answer.now.frame.now.asked.now.size }
    requires found { meaning last.now
        ≡ found answer.now.version.now.apex answer.now.version.now.records name.now
        answer.now.frame.now.asked.now.question.kind }
    requires rises { IsStrictlySortedBy record_order answer.now.version.now.records }
    ensures { Replies answer.now.frame.now
        (at_end answer.now.version.now chain.now (meaning last.now) name.now) writer.new.writing }
{
    match last {
        Found::Here(records) => reply_records(answer, chain, name, records, writer),
        Found::Alias(_) | Found::Rename(_) => reply_trail(answer, chain, writer),
        Found::NoData => reply_soa(answer, chain, ResponseCode::NoError, writer),
        Found::NoName => reply_soa(answer, chain, ResponseCode::NxDomain, writer),
        Found::Referral(servers) => reply_referral(answer, chain, servers, writer),
    }
}

/// The chain's records alone: no further name is looked up.
fn reply_trail(answer: &Answer<'_>, chain: &Chain<'_>, writer: &mut Writer)
    requires { IsWhole answer.now.frame.now.request.now answer.now.frame.now.asked.now.size }
    ensures { Replies answer.now.frame.now (only_trail chain.now) writer.new.writing }
{
    let heading = Heading {
        answer: count_trail(chain),
        ..Heading::bare(ResponseCode::NoError, true, false)
    };
    answer.frame.begin(writer, &heading);
    put_trail(writer, &answer.frame.asked.question.name, chain);
    answer.frame.finish(writer, ResponseCode::NoError, true);
}

/// The chain's records and a DNAME that gives the last name one that is too long (RFC 6672 section 3.2).
fn reply_too_long(answer: &Answer<'_>, chain: &Chain<'_>, renamer: &Rr, writer: &mut Writer)
    requires { IsWhole answer.now.frame.now.request.now answer.now.frame.now.asked.now.size }
    ensures { Replies answer.now.frame.now
        (with_renamer chain.now renamer.now) writer.new.writing }
{
    let question = &answer.frame.asked.question.name;
    let heading = Heading {
        answer: count_trail(chain) + count_renamer(chain, chain.len(), renamer),
        ..Heading::bare(ResponseCode::YxDomain, true, false)
    };
    answer.frame.begin(writer, &heading);
    put_trail(writer, question, chain);
    put_renamer(writer, question, chain, chain.len(), renamer);
    answer.frame.finish(writer, ResponseCode::YxDomain, true);
}

/// The chain's records, and the records of the last name.
fn reply_records(
    answer: &Answer<'_>,
    chain: &Chain<'_>,
    name: &Name,
    records: &[Rr],
    writer: &mut Writer,
)
    requires whole { IsWhole answer.now.frame.now.request.now
        answer.now.frame.now.asked.now.size }
    requires kinds { IsNonDecreasingBy (λ r. r.kind) records.now }
    ensures { Replies answer.now.frame.now
        (with_records chain.now name.now records.now) writer.new.writing }
{
    let question = &answer.frame.asked.question.name;
    let heading = Heading {
        answer: count_trail(chain) + records.len(),
        ..Heading::bare(ResponseCode::NoError, true, false)
    };
    answer.frame.begin(writer, &heading);
    put_trail(writer, question, chain);
    put_answer(writer, question, &name.as_ref(), records, &[]);
    answer.frame.finish(writer, ResponseCode::NoError, true);
}

/// The chain's records, and the SOA: the last name has no records of the type, or doesn't exist (RFC 2308 section 2).
fn reply_soa(answer: &Answer<'_>, chain: &Chain<'_>, code: ResponseCode, writer: &mut Writer)
    requires { IsWhole answer.now.frame.now.request.now answer.now.frame.now.asked.now.size }
    ensures { Replies answer.now.frame.now
        (with_soa answer.now.version.now chain.now (number_of code)) writer.new.writing }
{
    let question = &answer.frame.asked.question.name;
    let heading = Heading {
        answer: count_trail(chain),
        authority: 1,
        ..Heading::bare(code, true, false)
    };
    answer.frame.begin(writer, &heading);
    put_trail(writer, question, chain);
    put_soa(writer, question, answer.version);
    answer.frame.finish(writer, code, true);
}

/// The chain's records, and the name servers of the zone cut with their addresses (RFC 1034 section 4.3.2).
fn reply_referral(answer: &Answer<'_>, chain: &Chain<'_>, servers: &[Rr], writer: &mut Writer)
    requires { IsWhole answer.now.frame.now.request.now answer.now.frame.now.asked.now.size }
    ensures { Replies answer.now.frame.now
        (with_servers answer.now.version.now chain.now servers.now) writer.new.writing }
{
    let question = &answer.frame.asked.question.name;
    let authoritative = chain.len() != 0;
    let heading = Heading {
        answer: count_trail(chain),
        authority: servers.len(),
        ..Heading::bare(ResponseCode::NoError, authoritative, false)
    };
    answer.frame.begin(writer, &heading);
    put_trail(writer, question, chain);
    put_own(writer, question, servers);
    put_additional(writer, answer, chain, servers);
    answer
        .frame
        .finish(writer, ResponseCode::NoError, authoritative);
}

/// Writes the glue of a referral as the additional section, and its count into the header. Once the reply exceeds its
/// limit, nothing more is looked up.
pub fn put_additional(writer: &mut Writer, answer: &Answer<'_>, chain: &Chain<'_>, servers: &[Rr])
    ensures { let frame = answer.now.frame.now in
        let query = query_of frame.request.now frame.asked.now in
        let glue = glue answer.now.version.now servers.now in
        (heading : Heading) (front : Octets)
        → writer.old.writing ≡ also (opening (is_tcp frame.transport) query heading) front
        → writer.new.writing ≡ also (opening (is_tcp frame.transport) query
        (with_additional (length glue) heading)) (front ++ entries_octets query.name glue) }
{
    let question = &answer.frame.asked.question.name;
    let count = put_glue(writer, question, answer.version, servers, chain);
    answer.frame.count_additional(writer, count);
}

/// How many records a chain shows: at most two for each of its own.
pub fn count_trail(chain: &Chain<'_>) -> usize
    ensures value { result ≡ length (trail_entries chain.now) }
    ensures few { result < 64 }
{
    let mut count = 0;
    'trail: for number in 0..chain.len() {
        count += count_step(chain, number);
    }
    count
}

/// How many records a step of a chain shows.
fn count_step(chain: &Chain<'_>, number: usize) -> usize
    requires { number < length chain.now }
    ensures value { (d : Name × Record) → result
        ≡ length (step_entries (take number chain.now) (slice_index_or chain.now number d)) }
    ensures few { result < 3 }
{
    let record = chain.record(number);
    if record.kind() == TYPE_DNAME {
        count_renamer(chain, number, record) + 1
    } else {
        1
    }
}

/// How many records show a DNAME after the first ones of a chain: none where it is among them.
pub fn count_renamer(chain: &Chain<'_>, upto: usize, renamer: &Rr) -> usize
    requires { upto ≤ length chain.now }
    ensures value { result ≡ length (dname_entries (take upto chain.now) renamer.now) }
    ensures few { result < 2 }
{
    if chain.has_among(upto, renamer) { 0 } else { 1 }
}

/// Writes the records of a chain: CNAME records under the names that were looked up, and DNAME records with the CNAME
/// records that are made of them.
fn put_trail(writer: &mut Writer, question: &Name, chain: &Chain<'_>)
    ensures { writer.new.writing
        ≡ also writer.old.writing (entries_octets question.now (trail_entries chain.now)) }
{
    if chain.len() == 0 {
        return;
    }
    let mut name = chain.first();
    'trail: for number in 0..chain.len() {
        put_step(writer, question, chain, number, &name);
        if number + 1 < chain.len() {
            name = chain.target(number, &name);
        }
    }
}

/// Writes what a step of a chain shows, which was found for a name.
fn put_step(writer: &mut Writer, question: &Name, chain: &Chain<'_>, number: usize, name: &Name)
    requires within { number < length chain.now }
    requires name { (d : Name × Record) → name.now ≡ (slice_index_or chain.now number d).0 }
    ensures { (d : Name × Record) → writer.new.writing
        ≡ also writer.old.writing (entries_octets question.now
        (step_entries (take number chain.now) (slice_index_or chain.now number d))) }
{
    let record = chain.record(number);
    if record.kind() == TYPE_DNAME {
        put_renamer(writer, question, chain, number, record);
        let target = chain.target(number, name);
        put_cname(
            writer,
            question,
            &name.as_ref(),
            record.ttl(),
            &target.as_ref(),
        );
    } else {
        put_entry(writer, question, &name.as_ref(), record.ttl(), record);
    }
}

/// Writes a DNAME after the first records of a chain, unless it is among them.
fn put_renamer(writer: &mut Writer, question: &Name, chain: &Chain<'_>, upto: usize, renamer: &Rr)
    requires { upto ≤ length chain.now }
    ensures { writer.new.writing
        ≡ also writer.old.writing
        (entries_octets question.now (dname_entries (take upto chain.now) renamer.now)) }
{
    if !chain.has_among(upto, renamer) {
        put_entry(
            writer,
            question,
            &renamer.owner_ref(),
            renamer.ttl(),
            renamer,
        );
    }
}

/// Writes the SOA of a negative answer.
pub fn put_soa(writer: &mut Writer, question: &Name, version: &Version)
    ensures written { writer.new.writing
        ≡ also writer.old.writing (entries_octets question.now (soa_entries version.now)) }
    ensures one { length (soa_entries version.now) ≡ 1 }
{
    let soa = version.apex_soa();
    put_entry(writer, question, &version.apex(), negative_ttl(soa), soa);
}

/// The TTL of the SOA of a negative answer in seconds: the lesser of its own and MINIMUM (RFC 2308 section 3).
pub fn negative_ttl(soa: &Rr) -> u32
    ensures { result ≡ negative_ttl soa.now }
{
    match soa.soa() {
        None => soa.ttl(),
        Some(numbers) => soa.ttl().min(numbers.minimum),
    }
}
