//! What many tests make: names, records and pieces put together.

use dz_name::{Name, Octets};
use dz_record::Rr;
use std::alloc::{AllocError, Global};
use std::process::Abort;
use std::test::*;

/// A record: its owner in wire form, its type, its TTL in seconds, and its RDATA.
pub(crate) type Row = (&'static [u8], u16, u32, &'static [u8]);

/// The name of a text.
pub(crate) fn name(rt: &impl Abort, text: &[u8]) -> Name {
    match Name::parse(text) {
        Ok(name) => name,
        Err(fault) => panic!(rt; "{fault:?} of {text:?}"),
    }
}

/// The name of a wire form.
pub(crate) fn wire_name(rt: &impl Abort, wire: &[u8]) -> Name {
    match Name::read_at(wire, 0) {
        Ok((name, _)) => name,
        Err(fault) => panic!(rt; "{fault:?} of {wire:?}"),
    }
}

/// The record of a row.
pub(crate) fn make_record(rt: &impl Abort, alloc: Global, row: Row) -> Result<Rr, AllocError> {
    let (owner, kind, ttl, octets) = row;
    let rdata = Octets::from_vec(Vec::from_slice(alloc, octets)?);
    match Rr::make(alloc, wire_name(rt, owner), kind, ttl, rdata) {
        Ok(made) => Ok(made),
        Err(error) => panic!(rt; "{error:?} of type {kind} with {octets:?}"),
    }
}

/// The records of rows.
pub(crate) fn make_records(
    rt: &impl Abort,
    alloc: Global,
    rows: &[Row],
) -> Result<Vec<Rr>, AllocError> {
    let mut records = Vec::new(alloc);
    for row in rows {
        records.push(make_record(rt, alloc, *row)?)?;
    }
    Ok(records)
}

/// The pieces one after the other.
pub(crate) fn joined(alloc: Global, pieces: &[&[u8]]) -> Result<Vec<u8>, AllocError> {
    let mut octets = Vec::new(alloc);
    for piece in pieces {
        octets.extend_from_slice(piece)?;
    }
    Ok(octets)
}
