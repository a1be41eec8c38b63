//! The answer of a zone with its records of DNSSEC (RFC 4035 section 3.1).

ghost use Rattle.std.specs.Prelude.{◌≡◌, ◌++◌, ◌+◌, ◌%◌, ◌<◌, [], length};
ghost use Rattle.std.specs.List.Sorted.{IsNonDecreasingBy, IsStrictlySortedBy};
ghost use Rattle.dz_record.specs.Record.{record_order};
ghost use Rattle.dz_name.specs.Words.{Name};
ghost use Rattle.dz_header.specs.Code.{number_of};
ghost use Rattle.dz_header.specs.Writing.{also};
ghost use Rattle.dz_request.specs.Request.{IsWhole};
ghost use Rattle.dz_lookup.specs.Found.{meaning, found};
ghost use Rattle.dz_lookup.specs.Chain.{ended, stopped, too_long};
ghost use Rattle.dz_reply.specs.Layout.{entries, entries_octets};
ghost use Rattle.dz_reply.specs.Answer.{Replies, soa_entries, only_trail, with_renamer, at_end};
ghost use Rattle.dz_secure.specs.Secure.{signatures};
ghost use Rattle.dz_reply.specs.inner.Signed.{answer_signatures};
ghost use Rattle.dz_reply.specs.Secure.{is_bare, signed_soa, secure_of_ending, here_with, soa_with, servers_with};

use crate::answer::{Answer, put_additional, put_soa};
use crate::authority::Authority;
use crate::counted::signatures;
use crate::evidence::{alone, authority_of, authority_stopped};
use crate::layout::{put_answer, put_own};
use crate::signed::{
    Signing, count_secure_renamer, count_secure_trail, put_secure_renamer, put_secure_trail,
};
use dz_header::{ResponseCode, Writer};
use dz_lookup::{Chain, Found};
use dz_name::Name;
use dz_name::dns::{TYPE_ANY, TYPE_RRSIG, TYPE_SOA};
use dz_record::Rr;
use dz_request::Heading;
use dz_zone::Version;

/// A header counts records in two octets (RFC 1035 section 4.1.1).
const COUNTS: usize = 65_536;

/// The number of the apex in the index of a zone.
const APEX: usize = 0;

/// The reply of a chain that stopped.
pub fn secure_stopped(answer: &Answer<'_>, chain: &Chain<'_>, writer: &mut Writer)
    requires { IsWhole answer.now.frame.now.request.now answer.now.frame.now.asked.now.size }
    ensures { Replies answer.now.frame.now
        (secure_of_ending answer.now.version.now answer.now.frame.now.asked.now.question.kind
        chain.now stopped (only_trail chain.now)) writer.new.writing }
{
    let version = answer.version;
    let question = &answer.frame.asked.question;
    let signing = Signing {
        question: &question.name,
        version,
        bare: is_bare(question.kind),
        near: chain.near(),
    };
    let authority = authority_stopped(version, chain).signed(version);
    let heading = Heading {
        answer: count_secure_trail(&signing, chain),
        authority: authority.count(),
        ..Heading::bare(ResponseCode::NoError, true, false)
    };
    answer.frame.begin(writer, &heading);
    put_secure_trail(writer, &signing, chain);
    authority.write(writer, &question.name);
    answer.frame.finish(writer, ResponseCode::NoError, true);
}

/// The reply of a chain that ends at a DNAME that gives the last name one that is too long (RFC 6672 section 3.2).
pub fn secure_too_long(answer: &Answer<'_>, chain: &Chain<'_>, renamer: &Rr, writer: &mut Writer)
    requires { IsWhole answer.now.frame.now.request.now answer.now.frame.now.asked.now.size }
    ensures { Replies answer.now.frame.now
        (secure_of_ending answer.now.version.now answer.now.frame.now.asked.now.question.kind
        chain.now (too_long renamer.now) (with_renamer chain.now renamer.now)) writer.new.writing }
{
    let version = answer.version;
    let question = &answer.frame.asked.question;
    let signing = Signing {
        question: &question.name,
        version,
        bare: is_bare(question.kind),
        near: chain.near(),
    };
    let authority = authority_stopped(version, chain).signed(version);
    let upto = chain.len();
    let heading = Heading {
        answer: (count_secure_trail(&signing, chain)
            + count_secure_renamer(&signing, chain, upto, renamer))
            % COUNTS,
        authority: authority.count(),
        ..Heading::bare(ResponseCode::YxDomain, true, false)
    };
    answer.frame.begin(writer, &heading);
    put_secure_trail(writer, &signing, chain);
    put_secure_renamer(writer, &signing, chain, upto, renamer);
    authority.write(writer, &question.name);
    answer.frame.finish(writer, ResponseCode::YxDomain, true);
}

/// The reply of a chain by what is found for its last name.
pub fn secure_end<'a>(
    answer: &Answer<'a>,
    chain: &Chain<'_>,
    last: &Found<'a>,
    name: &Name,
    writer: &mut Writer,
)
    requires whole { IsWhole answer.now.frame.now.request.now
        answer.now.frame.now.asked.now.size }
    requires found { meaning last.now
        ≡ found answer.now.version.now.apex answer.now.version.now.records name.now
        answer.now.frame.now.asked.now.question.kind }
    requires rises { IsStrictlySortedBy record_order answer.now.version.now.records }
    ensures { Replies answer.now.frame.now
        (secure_of_ending answer.now.version.now answer.now.frame.now.asked.now.question.kind
        chain.now (ended (meaning last.now) name.now)
        (at_end answer.now.version.now chain.now (meaning last.now) name.now)) writer.new.writing }
{
    let version = answer.version;
    if let Some(records) = alone(chain, last, name) {
        return secure_alone(answer, chain, name, records, writer);
    }
    let kind = answer.frame.asked.question.kind;
    let authority = authority_of(version, chain, kind, last, name);
    match last {
        Found::Here(records) => { secure_records(answer, chain, name, records, &authority, writer) }
        Found::Alias(_) | Found::Rename(_) => {
            secure_records(answer, chain, name, &[], &authority, writer)
        }
        Found::NoData => secure_soa(answer, chain, ResponseCode::NoError, &authority, writer),
        Found::NoName => secure_soa(answer, chain, ResponseCode::NxDomain, &authority, writer),
        Found::Referral(servers) => secure_servers(answer, chain, servers, &authority, writer),
    }
}

/// The chain's records, and the records of the last name.
fn secure_records(
    answer: &Answer<'_>,
    chain: &Chain<'_>,
    name: &Name,
    records: &[Rr],
    authority: &Authority<'_>,
    writer: &mut Writer,
)
    requires whole { IsWhole answer.now.frame.now.request.now
        answer.now.frame.now.asked.now.size }
    requires kinds { IsNonDecreasingBy (λ r. r.kind) records.now }
    ensures { Replies answer.now.frame.now
        (here_with answer.now.version.now answer.now.frame.now.asked.now.question.kind
        chain.now name.now records.now authority.now) writer.new.writing }
{
    let version = answer.version;
    let authority = authority.signed(version);
    let question = &answer.frame.asked.question;
    let signing = Signing {
        question: &question.name,
        version,
        bare: is_bare(question.kind),
        near: chain.near(),
    };
    let signed = answer_signatures(&signing, records);
    let heading = Heading {
        answer: (count_secure_trail(&signing, chain)
            + (records.len() % COUNTS + signed.len() % COUNTS) % COUNTS)
            % COUNTS,
        authority: authority.count(),
        ..Heading::bare(ResponseCode::NoError, true, false)
    };
    answer.frame.begin(writer, &heading);
    put_secure_trail(writer, &signing, chain);
    put_answer(writer, &question.name, &name.as_ref(), records, signed);
    authority.write(writer, &question.name);
    answer.frame.finish(writer, ResponseCode::NoError, true);
}

/// The records of the last name, with nothing in the authority section.
fn secure_alone(
    answer: &Answer<'_>,
    chain: &Chain<'_>,
    name: &Name,
    records: &[Rr],
    writer: &mut Writer,
)
    requires whole { IsWhole answer.now.frame.now.request.now
        answer.now.frame.now.asked.now.size }
    requires kinds { IsNonDecreasingBy (λ r. r.kind) records.now }
    ensures { Replies answer.now.frame.now
        (here_with answer.now.version.now answer.now.frame.now.asked.now.question.kind
        chain.now name.now records.now []) writer.new.writing }
{
    let question = &answer.frame.asked.question;
    let signing = Signing {
        question: &question.name,
        version: answer.version,
        bare: is_bare(question.kind),
        near: chain.near(),
    };
    let signed = answer_signatures(&signing, records);
    let heading = Heading {
        answer: (count_secure_trail(&signing, chain)
            + (records.len() % COUNTS + signed.len() % COUNTS) % COUNTS)
            % COUNTS,
        ..Heading::bare(ResponseCode::NoError, true, false)
    };
    answer.frame.begin(writer, &heading);
    put_secure_trail(writer, &signing, chain);
    put_answer(writer, &question.name, &name.as_ref(), records, signed);
    answer.frame.finish(writer, ResponseCode::NoError, true);
}

/// The chain's records, and the SOA with its RRSIG records.
fn secure_soa(
    answer: &Answer<'_>,
    chain: &Chain<'_>,
    code: ResponseCode,
    authority: &Authority<'_>,
    writer: &mut Writer,
)
    requires { IsWhole answer.now.frame.now.request.now answer.now.frame.now.asked.now.size }
    ensures { Replies answer.now.frame.now
        (soa_with answer.now.version.now answer.now.frame.now.asked.now.question.kind
        chain.now (number_of code) authority.now) writer.new.writing }
{
    let version = answer.version;
    let authority = authority.signed(version);
    let question = &answer.frame.asked.question;
    let signing = Signing {
        question: &question.name,
        version,
        bare: is_bare(question.kind),
        near: chain.near(),
    };
    let signed = signatures(version, &version.apex(), TYPE_SOA, APEX);
    let heading = Heading {
        answer: count_secure_trail(&signing, chain),
        authority: (count_signed_soa(signed) + authority.count()) % COUNTS,
        ..Heading::bare(code, true, false)
    };
    answer.frame.begin(writer, &heading);
    put_secure_trail(writer, &signing, chain);
    put_signed_soa(writer, &question.name, version, signed);
    authority.write(writer, &question.name);
    answer.frame.finish(writer, code, true);
}

/// The chain's records, and the name servers of the zone cut with their addresses.
fn secure_servers(
    answer: &Answer<'_>,
    chain: &Chain<'_>,
    servers: &[Rr],
    authority: &Authority<'_>,
    writer: &mut Writer,
)
    requires { IsWhole answer.now.frame.now.request.now answer.now.frame.now.asked.now.size }
    ensures { Replies answer.now.frame.now
        (servers_with answer.now.version.now answer.now.frame.now.asked.now.question.kind
        chain.now servers.now authority.now) writer.new.writing }
{
    let version = answer.version;
    let authority = authority.signed(version);
    let question = &answer.frame.asked.question;
    let signing = Signing {
        question: &question.name,
        version,
        bare: is_bare(question.kind),
        near: chain.near(),
    };
    let authoritative = chain.len() != 0;
    let heading = Heading {
        answer: count_secure_trail(&signing, chain),
        authority: authority.count(),
        ..Heading::bare(ResponseCode::NoError, authoritative, false)
    };
    answer.frame.begin(writer, &heading);
    put_secure_trail(writer, &signing, chain);
    authority.write(writer, &question.name);
    put_additional(writer, answer, chain, servers);
    answer
        .frame
        .finish(writer, ResponseCode::NoError, authoritative);
}

/// Whether the answer section of a question for this type gains no signatures.
fn is_bare(kind: u16) -> bool
    ensures { result ≡ is_bare kind }
{
    kind == TYPE_RRSIG || kind == TYPE_ANY
}

/// The RRSIG records of the records of the last name, which are of one type; none where the answer section gains none.
fn answer_signatures<'a>(signing: &Signing<'a>, records: &[Rr]) -> &'a [Rr]
    ensures { result.now
        ≡ answer_signatures signing.now.version.now.records signing.now.bare records.now }
{
    match records {
        [] => &[],
        [first, ..] => {
            if signing.bare {
                &[]
            } else {
                signatures(
                    signing.version,
                    &first.owner_ref(),
                    first.kind(),
                    signing.near,
                )
            }
        }
    }
}

/// Writes the SOA of a negative answer and its RRSIG records.
fn put_signed_soa(writer: &mut Writer, question: &Name, version: &Version, signed: &[Rr])
    requires { signed.now ≡ signatures version.now.records version.now.apex TYPE_SOA }
    ensures written { writer.new.writing
        ≡ also writer.old.writing (entries_octets question.now (signed_soa version.now)) }
    ensures one { length (soa_entries version.now) ≡ 1 }
{
    put_soa(writer, question, version);
    put_own(writer, question, signed);
}

/// How many records one SOA and its RRSIG records are, modulo 65,536.
fn count_signed_soa(signed: &[Rr]) -> usize
    ensures value { result ≡ (1 + length signed.now % COUNTS) % COUNTS }
    ensures small { result < COUNTS }
{
    (1 + signed.len() % COUNTS) % COUNTS
}
