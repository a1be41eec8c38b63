//! Tests of `dz_ixfr`.

ghost use Rattle.dz_xfr.specs.Feeding.{IsOpen};
ghost use Rattle.dz_ixfr.specs.Incremental.{IsIncremental, Blames};

use crate::parts::{Row, wire_name};
use dz_ixfr::{Differences, FeedError, Progress, ShapeFault};
use dz_name::Octets;
use dz_record::Rr;
use dz_xfr::is_apex_soa;
use dz_zone::{Revision, Version, check};
use std::alloc::{AllocError, Global};
use std::process::Abort;
use std::sync::Arc;
use std::test::*;

/// A record of `example.`.
#[derive(Clone, Copy, Debug)]
enum Item {
    /// The SOA of this serial: `ns.invalid. host.invalid. serial 100 60 600 30`.
    Soa(u32),
    /// The same with MINIMUM 31.
    OtherSoa(u32),
    /// The first SOA with TTL 60.
    SoonSoa(u32),
    Other(Row),
}

use Item::{Other, OtherSoa, Soa, SoonSoa};

const APEX: &[u8] = b"\x07example\x00";

const WWW: &[u8] = b"\x03www\x07example\x00";

const NS: Item = Other((APEX, 2, 3600, b"\x02ns\x07invalid\x00"));

const A_OF_WWW: Item = Other((WWW, 1, 3600, b"\xc0\x00\x02\x50"));

const SOA_BELOW: Item = Other((
    WWW,
    6,
    3600,
    b"\x00\x00\x00\x00\x00\x07\x00\x00\x00\x02\x00\x00\x00\x03\x00\x00\x00\x04\x00\x00\x00\x05",
));

/// A record of these parts.
fn make_row(
    rt: &impl Abort,
    alloc: Global,
    owner: &[u8],
    kind: u16,
    ttl: u32,
    rdata: Vec<u8>,
) -> Rr {
    match Rr::make(
        alloc,
        wire_name(rt, owner),
        kind,
        ttl,
        Octets::from_vec(rdata),
    ) {
        Ok(made) => made,
        Err(error) => panic!(rt; "{error:?} of type {kind} at {owner:?}"),
    }
}

/// The SOA record of `example.` with this serial, TTL and MINIMUM.
fn make_soa(
    rt: &impl Abort,
    alloc: Global,
    serial: u32,
    ttl: u32,
    minimum: u32,
) -> Result<Rr, AllocError> {
    let mut rdata = Vec::from_slice(alloc, b"\x02ns\x07invalid\x00\x04host\x07invalid\x00")?;
    for number in [serial, 100, 60, 600, minimum] {
        rdata.extend_from_slice(&number.to_be_bytes())?;
    }
    Ok(make_row(rt, alloc, APEX, 6, ttl, rdata))
}

/// The record of an item.
fn make_record(rt: &impl Abort, alloc: Global, item: Item) -> Result<Rr, AllocError> {
    match item {
        Soa(serial) => make_soa(rt, alloc, serial, 3600, 30),
        OtherSoa(serial) => make_soa(rt, alloc, serial, 3600, 31),
        SoonSoa(serial) => make_soa(rt, alloc, serial, 60, 30),
        Other((owner, kind, ttl, octets)) => {
            let rdata = Vec::from_slice(alloc, octets)?;
            Ok(make_row(rt, alloc, owner, kind, ttl, rdata))
        }
    }
}

/// The records of items.
fn make_records(rt: &impl Abort, alloc: Global, items: &[Item]) -> Result<Vec<Rr>, AllocError> {
    let mut records = Vec::new(alloc);
    for item in items {
        records.push(make_record(rt, alloc, *item)?)?;
    }
    Ok(records)
}

/// The version of `example.` that the items make.
fn make_version(
    rt: &impl Abort,
    alloc: Global,
    items: &[Item],
) -> Result<Arc<Version>, AllocError> {
    let records = make_records(rt, alloc, items)?;
    match check(alloc, &wire_name(rt, APEX), records) {
        Ok(version) => Ok(Arc::new(alloc, version)?),
        Err(error) => panic!(rt; "{error:?} of {items:?}"),
    }
}

/// The records are these, TTLs included.
fn expect_records(
    rt: &impl Abort,
    alloc: Global,
    found: &[Rr],
    want: &[Item],
) -> Result<(), AllocError> {
    assert_eq!(rt; found.len(), want.len(), "for {want:?}");
    for (record, item) in found.iter().zip(want) {
        let made = make_record(rt, alloc, *item)?;
        assert_eq!(rt; record.octets(), made.octets(), "for {item:?}");
    }
    Ok(())
}

/// The version that the changes make has these records, TTLs included.
fn expect_revised(
    rt: &impl Abort,
    alloc: Global,
    revision: Revision,
    want: &[Item],
) -> Result<(), AllocError> {
    match revision.check(alloc) {
        Ok(version) => expect_records(rt, alloc, version.records(), want),
        Err(error) => panic!(rt; "{error:?} of {want:?}"),
    }
}

/// Feeds message after message until there is an answer other than `More`: the held version with its changes at the
/// end, none where more is to come.
fn feed_messages(
    mut differences: Differences,
    messages: Vec<Vec<Rr>>,
) -> Result<Option<Revision>, FeedError>
    requires { IsOpen (IsIncremental differences.held)
        (Blames differences.held.apex) differences.fed }
{
    let mut rest = messages.into_iter();
    'messages: while let Some(records) = rest.next() {
        match differences.feed(records) {
            Ok((fed, progress)) => match progress {
                Progress::More => differences = fed,
                Progress::Ended => return Ok(Some(fed.finish())),
            },
            Err(error) => return Err(error),
        }
    }
    Ok(None)
}

/// What comes of the items, in messages of this many after the first.
fn assemble(
    rt: &impl Abort,
    alloc: Global,
    held: &Arc<Version>,
    items: &[Item],
    at_a_time: usize,
) -> Result<Result<Option<Revision>, FeedError>, AllocError> {
    let [first, rest @ ..] = items else {
        panic!(rt; "no item");
    };
    assert!(rt; 0 < at_a_time);
    let mut messages = Vec::new(alloc);
    for piece in rest.chunks(at_a_time) {
        messages.push(make_records(rt, alloc, piece)?)?;
    }
    let first = make_record(rt, alloc, *first)?;
    assert!(rt; is_apex_soa(&held.apex().to_name(), &first), "{first:?}");
    let differences = Differences::start(alloc, held.clone()?, first)?;
    Ok(feed_messages(differences, messages))
}

/// However the items are cut, they make these records.
fn expect_zone(
    rt: &impl Abort,
    alloc: Global,
    held: &Arc<Version>,
    items: &[Item],
    want: &[Item],
) -> Result<(), AllocError> {
    for at_a_time in [1, 2, 3, 1000] {
        match assemble(rt, alloc, held, items, at_a_time)? {
            Ok(Some(revision)) => expect_revised(rt, alloc, revision, want)?,
            answer => panic!(rt; "{answer:?} of {want:?} {at_a_time} at a time"),
        }
    }
    Ok(())
}

/// In one message the items have this fault.
fn expect_fault(
    rt: &impl Abort,
    alloc: Global,
    items: &[Item],
    want: ShapeFault,
) -> Result<(), AllocError> {
    let held = make_held(rt, alloc)?;
    match assemble(rt, alloc, &held, items, 100)? {
        Err(found) => assert_eq!(rt; found, FeedError::Shape(want), "{items:?}"),
        Ok(_) => panic!(rt; "no fault of {items:?}"),
    }
    Ok(())
}

/// The zone that differences are read against: NS, SOA 5, and the A record of `www.example.`.
fn make_held(rt: &impl Abort, alloc: Global) -> Result<Arc<Version>, AllocError> {
    make_version(rt, alloc, &[Soa(5), NS, A_OF_WWW])
}

/// Each of 10,000 differences deletes the A record of `www.example.` and adds it with another TTL.
#[test]
fn ten_thousand_differences_are_applied(rt: HostRuntime) -> Result<(), AllocError> {
    let alloc = rt.alloc();
    let held = make_held(&rt, alloc)?;
    let mut items = vec![in alloc; Soa(10_005)]?;
    for serial in 5..10_005 {
        let added = Other((WWW, 1, serial + 1, b"\xc0\x00\x02\x50"));
        items.extend_from_slice(&[Soa(serial), A_OF_WWW, Soa(serial + 1), added])?;
    }
    items.push(Soa(10_005))?;
    let added = Other((WWW, 1, 10_005, b"\xc0\x00\x02\x50"));
    let want = [NS, Soa(10_005), added];
    match assemble(&rt, alloc, &held, items.as_slice(), 1000)? {
        Ok(Some(revision)) => expect_revised(&rt, alloc, revision, &want),
        answer => panic!(&rt; "{answer:?}"),
    }
}
