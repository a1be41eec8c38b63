//! Tests of `dz_zone`.

use crate::parts::{Row, make_records, wire_name};
use dz_name::Octets;
use dz_record::Rr;
use dz_zone::{ZoneError, ZoneFault, check};
use std::alloc::{AllocError, Global};
use std::process::Abort;
use std::test::*;

const APEX: &[u8] = b"\x04zone\x00";

const SOA: Row = (
    APEX,
    6,
    3600,
    b"\x02ns\x04zone\x00\x00\x00\x00\x00\x07\x00\x00\x00\x02\x00\x00\x00\x03\x00\x00\x00\x04\x00\x00\x00\x05",
);

const NS: Row = (APEX, 2, 3600, b"\x02ns\x04zone\x00");

/// An SOA, an NS and so many addresses of the apex.
fn many(rt: &impl Abort, alloc: Global, addresses: u32) -> Result<Vec<Rr>, AllocError> {
    let apex = wire_name(rt, APEX);
    let mut records = make_records(rt, alloc, &[SOA, NS])?;
    for number in 0..addresses {
        let [_, a, b, c] = u32::to_be_bytes(number);
        let rdata = Octets::from_vec(Vec::from_slice(alloc, &[10, a, b, c])?);
        match Rr::make(alloc, apex, 1, 60, rdata) {
            Ok(made) => records.push(made)?,
            Err(error) => panic!(rt; "{error:?}"),
        }
    }
    Ok(records)
}

/// This many addresses beside the SOA and the NS make a zone, or have this fault.
fn expect_many(
    rt: &impl Abort,
    alloc: Global,
    addresses: u32,
    want: Option<ZoneError>,
) -> Result<(), AllocError> {
    let found = check(alloc, &wire_name(rt, APEX), many(rt, alloc, addresses)?).err();
    assert_eq!(rt; found, want, "with {addresses} addresses");
    Ok(())
}

#[test]
fn a_zone_has_at_most_250_000_records(rt: HostRuntime) -> Result<(), Fail> {
    expect_many(&rt, rt.alloc(), 249_998, None)?;
    let fault = Some(ZoneError::Fault(ZoneFault::TooMany));
    expect_many(&rt, rt.alloc(), 249_999, fault)?;
    Ok(())
}
