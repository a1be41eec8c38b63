//! The limit of a reply over TCP. What a reply over UDP is cut to is in the stored run of `catzd`.

ghost use Rattle.std.specs.Prelude.{◌≡◌};

use crate::names::name;
use crate::records::Rdata::Target;
use crate::records::{Row, make, push_records, soa};
use crate::versions::version_of;
use dz_header::{ReplyBuffer, Transport};
use dz_name::dns::{TYPE_NS, TYPE_TXT};
use dz_reply::{Turn, reply_into};
use dz_table::{Slot, Table};
use std::alloc::{AllocError, Global};
use std::process::Abort;
use std::sync::Arc;

/// ID 16, with RD: the TXT records of `t.example.`.
const QUERY: &[u8] = b"\0\x10\x01\0\0\x01\0\0\0\0\0\0\x01t\x07example\0\0\x10\0\x01";

/// The headers of a reply with the record, and of one that is cut.
const WHOLE: &[u8] = b"\0\x10\x85\0\0\x01\0\x01\0\0\0\0";

const CUT: &[u8] = b"\0\x10\x87\0\0\x01\0\0\0\0\0\0";

/// The table of one slot.
fn table_of(alloc: Global, slot: Slot) -> Result<Table, AllocError> {
    Table::empty(alloc).with_slot(alloc, slot)
}

/// The zone of one TXT record, whose RDATA has this many octets of value 7.
fn text_table(rt: &impl Abort, alloc: Global, size: usize) -> Result<Table, AllocError> {
    let apex = name(rt, "example.");
    let rows: [Row; 2] = [
        soa("example.", 5),
        ("example.", TYPE_NS, 3600, Target("ns.invalid.")),
    ];
    let mut records = Vec::new(alloc);
    push_records(rt, alloc, &mut records, &rows)?;
    let rdata = Vec::from_elem(alloc, 7u8, size)?;
    records.push(make(rt, alloc, name(rt, "t.example."), TYPE_TXT, 60, rdata))?;
    let version = Arc::new(alloc, version_of(rt, alloc, &apex, records))?;
    table_of(alloc, Slot::new(alloc, &apex, 1000, Some(version))?)
}

/// That a reply has this many octets, and this header.
fn expect_reply(rt: &impl Abort, turn: Turn, buffer: &ReplyBuffer, wanted: (usize, &[u8])) {
    match turn {
        Turn::Written(count) => assert_eq!(rt; (count, buffer.reply(12)), wanted),
        other => panic!(rt; "{other:?}"),
    }
}

/// That the reply over TCP with a record of this many octets of RDATA has the wanted number of octets, and this header.
fn expect_limit(
    rt: &impl Abort,
    alloc: Global,
    size: usize,
    wanted: (usize, &[u8]),
) -> Result<(), AllocError> {
    let table = text_table(rt, alloc, size)?;
    let mut buffer = ReplyBuffer::make(alloc)?;
    let turn = reply_into(&table, QUERY, 1000, Transport::Tcp, &mut buffer);
    expect_reply(rt, turn, &buffer, wanted);
    Ok(())
}

#[test]
fn a_reply_over_tcp_has_at_most_65535_octets(rt: HostRuntime) -> Result<(), AllocError> {
    // header, question and the record without its RDATA have 39 octets, header and question 27
    expect_limit(&rt, rt.alloc(), 65_495, (65_534, WHOLE))?;
    expect_limit(&rt, rt.alloc(), 65_496, (65_535, WHOLE))?;
    expect_limit(&rt, rt.alloc(), 65_497, (27, CUT))
}
