//! The header of a message.

ghost use Rattle.std.specs.Prelude.{◌≡◌, ◌≤◌, length};
ghost use Rattle.dz_header.specs.Flags.{is_response, opcode_of, is_authoritative, is_truncated, is_recursion_desired};
ghost use Rattle.dz_header.specs.Flags.{code_of};
ghost use Rattle.dz_header.specs.Header.{header_of, header_in, header_octets};

use crate::flags::{AUTHORITATIVE, CODES, OPCODE, RECURSION_DESIRED, RESPONSE, TRUNCATED};
use dz_name::dns::HEADER_OCTETS;
use dz_name::numbers::{number_of_two, two};

/// The header of a message (RFC 1035 section 4.1.1): ID, flags with opcode and response code, and the counts of
/// questions and of answer, authority and additional records.
#[derive(Clone, Copy, Debug, PartialEq, Eq)]
pub struct Header {
    pub id: u16,
    pub flags: u16,
    pub counts: [u16; 4],
}

impl Header {
    /// Whether the message is a response, QR.
    pub fn is_response(&self) -> bool
        ensures { result ≡ is_response self.now.flags }
    {
        self.flags / RESPONSE % 2 == 1
    }

    /// The opcode, below 16.
    pub fn opcode(&self) -> u16
        ensures { result ≡ opcode_of self.now.flags }
    {
        self.flags / OPCODE % CODES
    }

    /// Whether the responder is an authority for the name in the question, AA.
    pub fn is_authoritative(&self) -> bool
        ensures { result ≡ is_authoritative self.now.flags }
    {
        self.flags / AUTHORITATIVE % 2 == 1
    }

    /// Whether the message was truncated because it was longer than the transport allows, TC.
    pub fn is_truncated(&self) -> bool
        ensures { result ≡ is_truncated self.now.flags }
    {
        self.flags / TRUNCATED % 2 == 1
    }

    /// Whether the query is to be pursued recursively, RD.
    pub fn recursion_desired(&self) -> bool
        ensures { result ≡ is_recursion_desired self.now.flags }
    {
        self.flags / RECURSION_DESIRED % 2 == 1
    }

    /// The response code, below 16: its lower four bits. The upper ones are in an OPT record (RFC 6891 section 6.1.3).
    pub fn code(&self) -> u16
        ensures { result ≡ code_of self.now.flags }
    {
        self.flags % CODES
    }
}

/// The header in the first twelve octets; none where there are fewer.
pub fn read_header(message: &[u8]) -> Option<Header>
    ensures { result ≡ header_of message.now }
{
    if message.len() < HEADER_OCTETS {
        None
    } else {
        Some(header_in(message))
    }
}

/// The header in the first twelve octets, which are there.
fn header_in(message: &[u8]) -> Header
    requires { HEADER_OCTETS ≤ length message.now }
    ensures { result ≡ header_in message.now }
{
    Header {
        id: number_of_two(message),
        flags: number_of_two(&message[2..]),
        counts: [
            number_of_two(&message[4..]),
            number_of_two(&message[6..]),
            number_of_two(&message[8..]),
            number_of_two(&message[10..]),
        ],
    }
}

/// Writes a header as twelve octets.
pub fn write_header(header: &Header, out: &mut [u8; 12])
    ensures { out.new ≡ header_octets header.now }
{
    let [first, second, third, fourth] = header.counts;
    let [id, flags, first, second, third, fourth] = [
        two(header.id),
        two(header.flags),
        two(first),
        two(second),
        two(third),
        two(fourth),
    ];
    *out = [
        id[0], id[1], flags[0], flags[1], first[0], first[1], second[0], second[1], third[0],
        third[1], fourth[0], fourth[1],
    ];
}
