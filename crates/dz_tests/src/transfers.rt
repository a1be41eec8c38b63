//! Messages that give the catalog `cat1.example.` and its member `example.` whole, each in one message.

use crate::messages::{GOOD, message};
use crate::records::Rdata::{Octets, Target};
use crate::records::{Row, soa};
use dz_name::dns::{CLASS_IN, TYPE_A, TYPE_AXFR, TYPE_NS, TYPE_PTR, TYPE_TXT};
use std::alloc::{AllocError, Global};
use std::process::Abort;

/// The name of the catalog.
pub const CATALOG: &str = "cat1.example.";

/// The name of its member.
pub const MEMBER: &str = "example.";

const CATALOG_NS: Row = (CATALOG, TYPE_NS, 3600, Target("invalid."));

const WWW: Row = ("www.example.", TYPE_A, 3600, Octets(b"\xc0\0\x02\x50"));

/// The version record of the catalog (RFC 9432 section 4.2.1).
const VERSION_2: Row = ("version.cat1.example.", TYPE_TXT, 0, Octets(b"\x012"));

/// The member record of its member at the label `m1`.
const NODE_M1: Row = ("m1.zones.cat1.example.", TYPE_PTR, 3600, Target(MEMBER));

/// The message with this ID that gives this serial of the catalog, which lists its member by this record.
pub fn catalog_message(
    rt: &impl Abort,
    alloc: Global,
    id: u16,
    serial: u32,
    node: Row,
) -> Result<Vec<u8>, AllocError> {
    let ends = soa(CATALOG, serial);
    let rows = [ends, CATALOG_NS, VERSION_2, node, ends];
    let asked = [(CATALOG, TYPE_AXFR, CLASS_IN)];
    message(rt, alloc, (id, GOOD), &asked, &rows)
}

/// The message with this ID that gives serial 1 of the catalog, which lists its member at `m1`.
pub fn listing_message(rt: &impl Abort, alloc: Global, id: u16) -> Result<Vec<u8>, AllocError> {
    catalog_message(rt, alloc, id, 1, NODE_M1)
}
