//! What surrounds the records of a reply: header, question and OPT record, and the limit of the whole.

ghost use Rattle.std.specs.Prelude.{◌≡◌, ◌+◌, ◌≤◌, ◌++◌, ◌∷◌, [], true, false, length, take, drop};
ghost use Rattle.dz_header.specs.Code.{number_of};
ghost use Rattle.dz_header.specs.Edns.{opt_octets};
ghost use Rattle.dz_header.specs.Header.{header_octets};
ghost use Rattle.dz_header.specs.Writing.{also, empty, writing_of};
ghost use Rattle.dz_name.specs.Numbers.{two};
ghost use Rattle.dz_name.specs.Words.{Octets};
ghost use Rattle.dz_request.specs.Frame.{is_tcp, query_of, reply_flags, opening, limit_of, reply_writing, bare_octets};
ghost use Rattle.dz_request.specs.Frame.{curt_octets, with_additional, IsEnd};
ghost use Rattle.dz_request.specs.Request.{IsWhole};
ghost use Rattle.dz_request.specs.declared.frame.Heading.{Heading};

use crate::request::Asked;
use dz_header::{
    Edns, Flags, Header, ResponseCode, Transport, Writer, opt_count, put_opt, write_header,
};
use dz_name::dns::{EDNS_OCTETS, HEADER_OCTETS, MESSAGE_OCTETS, UDP_OCTETS};
use dz_name::numbers::two;

/// The offset of ARCOUNT, the count of the additional section, in octets (RFC 1035 section 4.1.1).
const ARCOUNT: usize = 10;

/// What the header of a reply says: response code, AA, TC, and how many records each section has, not counting the OPT
/// record (RFC 1035 section 4.1.1).
#[derive(Clone, Copy, Debug, PartialEq, Eq)]
pub struct Heading {
    pub code: ResponseCode,
    pub authoritative: bool,
    pub truncated: bool,
    pub answer: usize,
    pub authority: usize,
    pub additional: usize,
}

impl Heading {
    /// The heading of a reply without records.
    pub fn bare(code: ResponseCode, authoritative: bool, truncated: bool) -> Heading
        ensures { result ≡ record {
          code = code;
          authoritative = authoritative;
          truncated = truncated;
          answer = 0;
          authority = 0;
          additional = 0;
        } }
    {
        Heading {
            code,
            authoritative,
            truncated,
            answer: 0,
            authority: 0,
            additional: 0,
        }
    }
}

/// What a reply is made from: the octets of a request, what they ask for, and the transport. The octets of the question
/// are within those of the request.
#[derive(Clone, Copy)]
pub struct Frame<'a> {
    pub request: &'a [u8],
    pub asked: &'a Asked,
    pub transport: Transport,
}

impl Frame<'_> {
    /// Begins a reply: empties the writer, sets the limit of the transport, and writes the header, and the question
    /// exactly as in the request.
    pub fn begin(&self, writer: &mut Writer, heading: &Heading)
        requires { IsWhole self.now.request.now self.now.asked.now.size }
        ensures { writer.new.writing ≡ opening (is_tcp self.now.transport)
            (query_of self.now.request.now self.now.asked.now) heading.now }
    {
        writer.begin(limit_of(self.transport, self.asked.edns));
        let header = reply_header(&self.asked.header, heading, opt_count(self.asked.edns));
        put_header(writer, &header);
        writer.put(question_in(self.request, self.asked.size));
    }

    /// Sets how many records the additional section has, not counting the OPT record, in a reply whose header and
    /// question are written. What follows them stays.
    pub fn count_additional(&self, writer: &mut Writer, count: usize)
        ensures { (heading : Heading) (rest : Octets)
            → writer.old.writing ≡ also (opening (is_tcp self.now.transport)
            (query_of self.now.request.now self.now.asked.now) heading) rest
            → writer.new.writing ≡ also (opening (is_tcp self.now.transport)
            (query_of self.now.request.now self.now.asked.now)
            (with_additional count heading)) rest }
    {
        writer.replace(ARCOUNT, &two(low(count, opt_count(self.asked.edns))));
    }

    /// Ends a reply: writes the OPT record, where the request has one. A reply that exceeds its limit is cut to header,
    /// question and OPT record with TC set, keeping the response code and AA (RFC 2181 section 9).
    pub fn finish(&self, writer: &mut Writer, code: ResponseCode, authoritative: bool)
        requires { IsWhole self.now.request.now self.now.asked.now.size }
        ensures { IsEnd (is_tcp self.now.transport)
            (query_of self.now.request.now self.now.asked.now) (number_of code)
            authoritative writer.old.writing writer.new.writing }
    {
        put_opt(writer, code, self.asked.edns);
        if writer.is_over() {
            self.begin(writer, &Heading::bare(code, authoritative, true));
            put_opt(writer, code, self.asked.edns);
        }
    }

    /// Writes a reply without records that isn't authoritative.
    pub fn reply_bare(&self, writer: &mut Writer, code: ResponseCode)
        requires { IsWhole self.now.request.now self.now.asked.now.size }
        ensures { let query = query_of self.now.request.now self.now.asked.now in
            writer.new.writing ≡ reply_writing (is_tcp self.now.transport) query
            (number_of code) false
            (bare_octets query (number_of code)) }
    {
        self.begin(writer, &Heading::bare(code, false, false));
        self.finish(writer, code, false);
    }
}

/// Writes a reply of twelve octets, where nothing after the header can be read: ID, opcode and RD of the request, and a
/// code.
pub fn reply_curt(writer: &mut Writer, request: &Header, code: ResponseCode)
    ensures { writer.new.writing
        ≡ writing_of UDP_OCTETS (curt_octets request.now (number_of code)) }
{
    writer.begin(UDP_OCTETS);
    let header = Header {
        id: request.id,
        flags: reply_flags(request, code, false, false),
        counts: [0; 4],
    };
    put_header(writer, &header);
}

/// How many octets a reply may have (RFC 1035 section 4.2, RFC 6891 section 6.2.5).
fn limit_of(transport: Transport, edns: Option<Edns>) -> usize
    ensures value { result ≡ limit_of (is_tcp transport) edns }
    ensures room { UDP_OCTETS ≤ result }
    ensures most { result ≤ MESSAGE_OCTETS }
{
    match (transport, edns) {
        (Transport::Tcp, _) => MESSAGE_OCTETS,
        (Transport::Udp, None) => UDP_OCTETS,
        (Transport::Udp, Some(edns)) => (edns.size as usize).max(UDP_OCTETS).min(EDNS_OCTETS),
    }
}

/// The header of a reply to a request with this header; `opts` counts the OPT record.
fn reply_header(request: &Header, heading: &Heading, opts: usize) -> Header
    requires { opts ≤ 1 }
    ensures { let said = heading.now in
        let flags = reply_flags request.now.flags
        (number_of said.code) said.authoritative said.truncated in
        let counts = 1 ∷ said.answer ∷ said.authority ∷ (said.additional + opts) ∷ [] in
        header_octets result ≡ header_octets
        (record { id = request.now.id; flags = flags; counts = counts }) }
{
    Header {
        id: request.id,
        flags: reply_flags(
            request,
            heading.code,
            heading.authoritative,
            heading.truncated,
        ),
        counts: [
            1,
            low(heading.answer, 0),
            low(heading.authority, 0),
            low(heading.additional, opts),
        ],
    }
}

/// The flags of a reply: QR, opcode and RD of the request, AA, TC, and the lower four bits of the code (RFC 1035
/// section 4.1.1).
fn reply_flags(request: &Header, code: ResponseCode, authoritative: bool, truncated: bool) -> u16
    ensures { result ≡ reply_flags request.now.flags (number_of code) authoritative truncated }
{
    let flags = Flags {
        response: true,
        opcode: request.opcode(),
        authoritative,
        truncated,
        recursion_desired: request.recursion_desired(),
        code: code.number(),
    };
    flags.number()
}

/// A count of records as it is written to a header: past 65,535 its lower 16 bits.
#[tactic(auto, using(crate::proofs::FrameLemmas::two_low))]
fn low(count: usize, more: usize) -> u16
    requires { more ≤ 1 }
    ensures { two result ≡ two (count + more) }
{
    ((count % 65_536 + more) % 65_536) as u16
}

/// Writes the twelve octets of a header.
fn put_header(writer: &mut Writer, header: &Header)
    ensures { writer.new.writing ≡ also writer.old.writing (header_octets header.now) }
{
    let mut octets = [0; HEADER_OCTETS];
    write_header(header, &mut octets);
    writer.put(&octets);
}

/// The octets of the question in a request.
fn question_in(request: &[u8], size: usize) -> &[u8]
    requires { IsWhole request.now size }
    ensures { result.now ≡ take size (drop HEADER_OCTETS request.now) }
{
    request.split_at(HEADER_OCTETS).1.split_at(size).0
}
