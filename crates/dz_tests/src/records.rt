//! Records as rows, and the records that they make.

use crate::names::name;
use dz_name::dns::TYPE_SOA;
use dz_name::numbers::four;
use dz_name::{Name, Octets};
use dz_record::Rr;
use std::alloc::{AllocError, Global};
use std::process::Abort;

/// Owner, type, TTL and RDATA of a record.
pub type Row = (&'static str, u16, u32, Rdata);

/// The RDATA of a row.
#[derive(Clone, Copy, Debug)]
pub enum Rdata {
    /// That of an SOA with this serial, and REFRESH 100, RETRY 60, EXPIRE 600, MINIMUM 30.
    Soa(u32),
    /// A name.
    Target(&'static str),
    /// These octets.
    Octets(&'static [u8]),
    /// That of a ZONEMD: serial, scheme, algorithm and digest (RFC 8976 section 2.2).
    Zonemd(u32, u8, u8, &'static [u8]),
}

/// The SOA record of a zone with this serial.
pub fn soa(zone: &'static str, serial: u32) -> Row {
    (zone, TYPE_SOA, 3600, Rdata::Soa(serial))
}

/// RDATA in its octets.
pub fn octets_of(rt: &impl Abort, alloc: Global, rdata: &Rdata) -> Result<Vec<u8>, AllocError> {
    match rdata {
        Rdata::Soa(serial) => soa_rdata(alloc, *serial),
        Rdata::Target(text) => Vec::from_slice(alloc, name(rt, text).wire()),
        Rdata::Octets(octets) => Vec::from_slice(alloc, octets),
        Rdata::Zonemd(serial, scheme, algorithm, digest) => {
            let mut octets = Vec::from_slice(alloc, &four(*serial))?;
            octets.push(*scheme)?;
            octets.push(*algorithm)?;
            octets.extend_from_slice(digest)?;
            Ok(octets)
        }
    }
}

/// RDATA of an SOA (RFC 1035 section 3.3.13).
fn soa_rdata(alloc: Global, serial: u32) -> Result<Vec<u8>, AllocError> {
    let mut octets = Vec::from_slice(alloc, b"\x02ns\x07invalid\0\x04host\x07invalid\0")?;
    octets.extend_from_slice(&four(serial))?;
    octets.extend_from_slice(b"\0\0\0\x64\0\0\0\x3c\0\0\x02\x58\0\0\0\x1e")?;
    Ok(octets)
}

/// A record with these octets as RDATA.
pub fn make(
    rt: &impl Abort,
    alloc: Global,
    owner: Name,
    kind: u16,
    ttl: u32,
    rdata: Vec<u8>,
) -> Rr {
    match Rr::make(alloc, owner, kind, ttl, Octets::from_vec(rdata)) {
        Ok(record) => record,
        Err(fault) => panic!(rt; "{owner:?} of type {kind}: {fault:?}"),
    }
}

/// The record of a row.
pub fn record(rt: &impl Abort, alloc: Global, row: &Row) -> Result<Rr, AllocError> {
    let (owner, kind, ttl, data) = row;
    let octets = octets_of(rt, alloc, data)?;
    Ok(make(rt, alloc, name(rt, owner), *kind, *ttl, octets))
}

/// Appends the records of rows to others.
pub fn push_records(
    rt: &impl Abort,
    alloc: Global,
    records: &mut Vec<Rr>,
    rows: &[Row],
) -> Result<(), AllocError> {
    'rows: for row in rows {
        records.push(record(rt, alloc, row)?)?;
    }
    Ok(())
}
