//! EDNS: what an OPT record says, and the OPT record of a reply.

ghost use Rattle.std.specs.Prelude.{◌≡◌, ◌≤◌, Some, if◌then◌else◌};
ghost use Rattle.dz_header.specs.Code.{number_of};
ghost use Rattle.dz_header.specs.Edns.{edns_of, opt_count, opt_octets};
ghost use Rattle.dz_header.specs.Writing.{also};

use crate::code::ResponseCode;
use crate::flags::CODES;
use crate::record_head::RecordHead;
use crate::writer::Writer;
use dz_name::dns::{EDNS_OCTETS, TYPE_OPT};
use dz_name::numbers::two;

/// The lowest bit of the version within the TTL of an OPT record; the version has eight bits, and flags are below it.
pub(crate) const VERSION: u32 = 65_536;
/// How many EDNS versions there are.
pub(crate) const VERSIONS: u32 = 256;
/// The bit DO within the TTL of an OPT record (RFC 3225 section 3).
pub(crate) const DNSSEC_OK: u32 = 32_768;

/// What the OPT record of a request says (RFC 6891 section 6.1): the payload size in octets, the version, and whether
/// DNSSEC records are asked for (RFC 3225).
#[derive(Clone, Copy, Debug, PartialEq, Eq)]
pub struct Edns {
    pub size: u16,
    pub version: u8,
    pub dnssec_ok: bool,
}

/// What an OPT record says, from the fields after its owner name (RFC 6891 section 6.1.3).
pub fn edns_of(head: RecordHead) -> Edns
    ensures { result ≡ edns_of head }
{
    Edns {
        size: head.class,
        version: (head.ttl / VERSION % VERSIONS) as u8,
        dnssec_ok: head.ttl / DNSSEC_OK % 2 == 1,
    }
}

/// How many OPT records a reply has: one where its request has one.
pub fn opt_count(edns: Option<Edns>) -> usize
    ensures value { result ≡ opt_count edns }
    ensures one { result ≤ 1 }
{
    match edns {
        None => 0,
        Some(_) => 1,
    }
}

/// Writes the OPT record of a reply, where the request has one (RFC 6891 sections 6.1 and 7): payload size 1232, the
/// upper eight bits of the code, version 0, DO as in the request, and no options.
pub fn put_opt(writer: &mut Writer, code: ResponseCode, edns: Option<Edns>)
    ensures { writer.new.writing ≡ also writer.old.writing (opt_octets (number_of code) edns) }
{
    match edns {
        None => {}
        Some(edns) => put_edns(writer, code, edns),
    }
}

/// Writes the OPT record of a reply to a request with EDNS.
fn put_edns(writer: &mut Writer, code: ResponseCode, edns: Edns)
    ensures { writer.new.writing
        ≡ also writer.old.writing (opt_octets (number_of code) (Some edns)) }
{
    let root = [0];
    writer.put(&root);
    writer.put(&two(TYPE_OPT));
    writer.put(&two(EDNS_OCTETS as u16));
    writer.put(&[(code.number() / CODES) as u8, 0]);
    writer.put(&two(dnssec_mark(edns.dnssec_ok)));
    writer.put(&two(0));
}

/// The flags in the lower half of the TTL of an OPT record: DO alone.
fn dnssec_mark(dnssec_ok: bool) -> u16
    ensures { result ≡ (if dnssec_ok then DNSSEC_OK else 0) }
{
    if dnssec_ok { DNSSEC_OK as u16 } else { 0 }
}
