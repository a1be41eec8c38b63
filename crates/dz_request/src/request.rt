//! Requests, read from left to right.

ghost use Rattle.std.specs.Prelude.{◌≡◌, ℕ, ◌+◌, ◌-◌, ◌<◌, ◌≤◌, length, drop, Some, None, IfSome};
ghost use Rattle.dz_header.specs.Flags.{opcode_of};
ghost use Rattle.dz_request.specs.Request.{question_in, add_shape, opt_in, asked_in, asked_of, is_newer, is_unasked};
ghost use Rattle.dz_request.specs.Request.{asked_for, with_header, request, FitsIn, IsWhole};
ghost use Rattle.dz_name.specs.Words.{Octets};

use dz_header::{
    Edns, Header, QUESTION_OCTETS, Question, ResponseCode, Shape, edns_of, read_header,
    read_question, read_shape, skip_records,
};
use dz_name::dns::{
    CLASS_IN, HEADER_OCTETS, NAME_OCTETS, OPCODE_NOTIFY, OPCODE_QUERY, TYPE_MAILA, TYPE_OPT,
    TYPE_SOA, TYPE_TKEY,
};

/// A request that can be read: its header, its question, how many octets the question has, and what its OPT record
/// says.
#[derive(Clone, Copy, Debug)]
pub struct Asked {
    pub header: Header,
    pub question: Question,
    /// How many octets name, type and class of the question have, which follow the header: at most 259.
    pub size: usize,
    pub edns: Option<Edns>,
}

/// What a request asks for.
#[derive(Clone, Copy, Debug)]
pub enum Request {
    /// Fewer than twelve octets, or a response: there is no reply.
    Silent,
    /// A request with this header gets a reply of twelve octets with this code: NOTIMP for another opcode, FORMERR for
    /// what can't be read.
    Curt(Header, ResponseCode),
    /// A version of EDNS other than 0 (RFC 6891 section 6.1.3).
    NewerEdns(Asked),
    /// A class other than IN, or a type that isn't answered.
    NotImp(Asked),
    /// A NOTIFY (RFC 1996).
    Notify(Asked),
    /// A query.
    Asks(Asked),
}

/// Reads a request: what kind of reply it gets, judged in the order that the definition gives.
pub fn read_request(octets: &[u8]) -> Request
    ensures reads { result ≡ request octets.now }
    ensures fits { FitsIn octets.now result }
{
    match read_header(octets) {
        None => Request::Silent,
        Some(header) => read_body(octets, header),
    }
}

/// Reads what follows the header of at least twelve octets.
fn read_body(octets: &[u8], header: Header) -> Request
    requires { HEADER_OCTETS ≤ length octets.now }
    ensures reads { result ≡ with_header octets.now header (question_in octets.now) }
    ensures fits { FitsIn octets.now result }
{
    if header.is_response() {
        return Request::Silent;
    }
    let opcode = header.opcode();
    if opcode != OPCODE_QUERY && opcode != OPCODE_NOTIFY {
        return Request::Curt(header, ResponseCode::NotImp);
    }
    match read_asked(octets, header) {
        None => Request::Curt(header, ResponseCode::FormErr),
        Some(asked) => asked_for(opcode, asked),
    }
}

/// What a request that can be read asks for.
fn asked_for(opcode: u16, asked: Asked) -> Request
    ensures is { result ≡ asked_for opcode asked }
    ensures fits { (octets : Octets) → IsWhole octets asked.size → FitsIn octets result }
{
    if is_newer(asked.edns) {
        return Request::NewerEdns(asked);
    }
    let Question { kind, class, .. } = asked.question;
    if class != CLASS_IN {
        return Request::NotImp(asked);
    }
    if opcode == OPCODE_QUERY {
        return if is_unasked(kind) {
            Request::NotImp(asked)
        } else {
            Request::Asks(asked)
        };
    }
    if kind == TYPE_SOA {
        Request::Notify(asked)
    } else {
        Request::NotImp(asked)
    }
}

/// Whether a version of EDNS other than 0 is used.
fn is_newer(edns: Option<Edns>) -> bool
    ensures { result ≡ is_newer edns }
{
    match edns {
        None => false,
        Some(edns) => edns.version != 0,
    }
}

/// Whether queries for the type aren't answered (RFC 6895 section 3.1).
fn is_unasked(kind: u16) -> bool
    ensures { result ≡ is_unasked kind }
{
    matches!(kind, TYPE_OPT | TYPE_TKEY..=TYPE_MAILA)
}

/// The question and the OPT record after the header; none where there isn't exactly one question or they can't be read.
fn read_asked(octets: &[u8], header: Header) -> Option<Asked>
    requires { HEADER_OCTETS ≤ length octets.now }
    ensures reads { result ≡ asked_of octets.now header (question_in octets.now) }
    ensures few { IfSome result (λ asked. IsWhole octets.now asked.size) }
{
    if header.counts[0] == 1 {
        read_sections(octets, header)
    } else {
        None
    }
}

/// The question and the OPT record, where the header counts one question; none where they can't be read.
fn read_sections(octets: &[u8], header: Header) -> Option<Asked>
    requires { HEADER_OCTETS ≤ length octets.now }
    ensures reads { result ≡ asked_in octets.now header (question_in octets.now) }
    ensures few { IfSome result (λ asked. IsWhole octets.now asked.size) }
{
    let (question, end) = match read_question_in(octets) {
        None => return None,
        Some(found) => found,
    };
    let records = header.counts[1] as u32 + header.counts[2] as u32;
    let rest = skip_records(behind(octets, end), records)?;
    let edns = read_opt(rest, header.counts[3])?;
    Some(Asked {
        header,
        question,
        size: end - HEADER_OCTETS,
        edns,
    })
}

/// The question after the header, whose name has no pointer, and the offset after it; none where there is no such
/// question.
fn read_question_in(octets: &[u8]) -> Option<(Question, usize)>
    ensures reads { result ≡ question_in octets.now }
    ensures begin { IfSome result (λ found. HEADER_OCTETS ≤ found.1) }
    ensures end { IfSome result (λ found. found.1 ≤ length octets.now) }
    ensures few { IfSome result
        (λ found. found.1 ≤ HEADER_OCTETS + (NAME_OCTETS + QUESTION_OCTETS)) }
{
    match read_question(octets, HEADER_OCTETS) {
        Err(_) => None,
        Ok((question, end)) => {
            if end == HEADER_OCTETS + (question.name.wire().len() + QUESTION_OCTETS) {
                Some((question, end))
            } else {
                None
            }
        }
    }
}

/// The OPT record among the given number of additional records; none where they can't be read or it isn't allowed.
#[tactic(auto, using(crate::proofs::RequestLemmas::opt_step, crate::proofs::RequestLemmas::opt_done))]
fn read_opt(octets: &[u8], count: u16) -> Option<Option<Edns>>
    ensures { result ≡ opt_in count octets.now None }
{
    let mut found = None;
    let mut rest = octets;
    'records: for _ in 0..count {
        let (shape, _, behind) = read_shape(rest)?;
        found = add_shape(shape, found)?;
        rest = behind;
    }
    Some(found)
}

/// Adds what one more record says. None for a second OPT record, or one whose owner name isn't the root (RFC 6891
/// sections 6.1.1 and 6.1.2).
fn add_shape(shape: Shape, found: Option<Edns>) -> Option<Option<Edns>>
    ensures { result ≡ add_shape shape found }
{
    if shape.head.kind != TYPE_OPT {
        return Some(found);
    }
    match found {
        None if shape.root => Some(Some(edns_of(shape.head))),
        _ => None,
    }
}

/// What follows the given number of octets.
fn behind(octets: &[u8], count: usize) -> &[u8]
    requires { count ≤ length octets.now }
    ensures { result.now ≡ drop count octets.now }
{
    octets.split_at(count).1
}
