//! Messages of transfers in their octets (RFC 1035 section 4.1), without pointers.

use crate::names::name;
use crate::records::{Row, octets_of};
use dz_name::dns::CLASS_IN;
use dz_name::numbers::{four, two};
use std::alloc::{AllocError, Global};
use std::process::Abort;

/// ID and flags of a message.
pub type Head = (u16, u16);

/// Name, type and class of a question.
pub type Asked = (&'static str, u16, u16);

/// Owner in wire form, type and TTL of a record.
pub type Front<'a> = (&'a [u8], u16, u32);

/// The flags of a response with authority and no error.
pub const GOOD: u16 = 0x8400;

/// A message with these questions and answer records.
pub fn message(
    rt: &impl Abort,
    alloc: Global,
    head: Head,
    questions: &[Asked],
    rows: &[Row],
) -> Result<Vec<u8>, AllocError> {
    let mut octets = Vec::new(alloc);
    let (id, flags) = head;
    let counts = [small(rt, questions.len()), small(rt, rows.len()), 0, 0];
    octets.extend_from_slice(&two(id))?;
    octets.extend_from_slice(&two(flags))?;
    'counts: for count in counts {
        octets.extend_from_slice(&two(count))?;
    }
    'questions: for (asked, kind, class) in questions {
        octets.extend_from_slice(name(rt, asked).wire())?;
        octets.extend_from_slice(&two(*kind))?;
        octets.extend_from_slice(&two(*class))?;
    }
    'rows: for row in rows {
        push_row(rt, alloc, &mut octets, row)?;
    }
    Ok(octets)
}

/// Appends the record of a row to octets.
fn push_row(
    rt: &impl Abort,
    alloc: Global,
    octets: &mut Vec<u8>,
    row: &Row,
) -> Result<(), AllocError> {
    let (text, kind, ttl, data) = row;
    let owner = name(rt, text);
    let rdata = octets_of(rt, alloc, data)?;
    push_record(rt, octets, (owner.wire(), *kind, *ttl), rdata.as_slice())
}

/// Appends a record to octets.
pub fn push_record(
    rt: &impl Abort,
    octets: &mut Vec<u8>,
    front: Front,
    rdata: &[u8],
) -> Result<(), AllocError> {
    let (owner, kind, ttl) = front;
    octets.extend_from_slice(owner)?;
    octets.extend_from_slice(&two(kind))?;
    octets.extend_from_slice(&two(CLASS_IN))?;
    octets.extend_from_slice(&four(ttl))?;
    octets.extend_from_slice(&two(small(rt, rdata.len())))?;
    octets.extend_from_slice(rdata)
}

/// A count or a length as a number of two octets.
fn small(rt: &impl Abort, count: usize) -> u16 {
    match u16::try_from(count) {
        Ok(count) => count,
        Err(_) => panic!(rt; "{count} is past two octets"),
    }
}

/// Appends a message, preceded by its length, to octets (RFC 1035 section 4.2.2).
pub fn push_framed(
    rt: &impl Abort,
    octets: &mut Vec<u8>,
    message: &[u8],
) -> Result<(), AllocError> {
    octets.extend_from_slice(&two(small(rt, message.len())))?;
    octets.extend_from_slice(message)
}
