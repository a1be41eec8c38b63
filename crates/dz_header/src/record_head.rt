//! The fields between the owner name of a record and its RDATA.

ghost use Rattle.std.specs.Prelude.{◌≡◌, ◌≤◌, length};
ghost use Rattle.dz_header.specs.RecordHead.{head_in, head_of};

use dz_name::numbers::{number_of_four, number_of_two};

/// How many octets there are between the owner name of a record and its RDATA (RFC 1035 section 4.1.3).
pub const HEAD_OCTETS: usize = 10;

/// The fields after the owner name of a record (RFC 1035 section 4.1.3): type, class, TTL in seconds, and the number of
/// octets of the RDATA that follows.
#[derive(Clone, Copy, Debug, PartialEq, Eq)]
pub struct RecordHead {
    pub kind: u16,
    pub class: u16,
    pub ttl: u32,
    pub size: u16,
}

/// Reads the fields after an owner name from the first ten octets; none where there are fewer.
pub fn read_head(octets: &[u8]) -> Option<RecordHead>
    ensures { result ≡ head_of octets.now }
{
    if octets.len() < HEAD_OCTETS {
        None
    } else {
        Some(head_in(octets))
    }
}

/// The fields in the first ten octets, which are there.
fn head_in(octets: &[u8]) -> RecordHead
    requires { HEAD_OCTETS ≤ length octets.now }
    ensures { result ≡ head_in octets.now }
{
    RecordHead {
        kind: number_of_two(octets),
        class: number_of_two(&octets[2..]),
        ttl: number_of_four(&octets[4..]),
        size: number_of_two(&octets[8..]),
    }
}
