//! The limit of a catalog. What else one lists is computed by the checker (`specs/Examples.antt` of `dz_catalog`), and is in
//! the stored run of `dz_stories`.

use crate::names::{name, name_of};
use crate::records::Rdata::{Octets, Soa, Target};
use crate::records::{Row, make, push_records};
use crate::versions::version_of;
use dz_catalog::{CatalogError, read_listing};
use dz_member::{Broken, Listing};
use dz_name::dns::{TYPE_NS, TYPE_PTR, TYPE_SOA, TYPE_TXT};
use dz_record::Rr;
use std::alloc::{AllocError, Global};
use std::process::Abort;
use std::test::*;

const TWO: Row = ("version.c", TYPE_TXT, 0, Octets(b"\x012"));

/// The records of the catalog `c.` with an SOA, an NS and these.
fn records_of(rt: &impl Abort, alloc: Global, rows: &[Row]) -> Result<Vec<Rr>, AllocError> {
    let ends: [Row; 2] = [
        ("c", TYPE_SOA, 0, Soa(1)),
        ("c", TYPE_NS, 0, Target("invalid")),
    ];
    let mut records = Vec::new(alloc);
    push_records(rt, alloc, &mut records, &ends)?;
    push_records(rt, alloc, &mut records, rows)?;
    Ok(records)
}

/// A label of five letters for a number.
fn label_of(number: usize) -> [u8; 5] {
    let mut label = [b'a'; 5];
    let mut rest = number;
    'places: for place in 0..5 {
        label[place] = b'a' + (rest % 16) as u8;
        rest /= 16;
    }
    label
}

/// How many nodes a catalog with this many members has, or why it is broken.
fn many(
    rt: &impl Abort,
    alloc: Global,
    count: usize,
) -> Result<Result<usize, CatalogError>, AllocError> {
    let mut records = records_of(rt, alloc, &[TWO])?;
    'members: for number in 0..count {
        let mut owner = Vec::from_slice(alloc, &label_of(number))?;
        owner.extend_from_slice(b".zones.c")?;
        let zone = name_of(rt, &label_of(number));
        let rdata = Vec::from_slice(alloc, zone.wire())?;
        records.push(make(rt, alloc, name_of(rt, owner.as_slice()), TYPE_PTR, 0, rdata))?;
    }
    let version = version_of(rt, alloc, &name(rt, "c"), records);
    Ok(match read_listing(alloc, &version) {
        Ok(listing) => Ok(listing.nodes().len()),
        Err(error) => Err(error),
    })
}

/// That a catalog with this many members has as many nodes, or is broken for this reason.
fn expect_many(
    rt: &impl Abort,
    alloc: Global,
    count: usize,
    wanted: Result<usize, CatalogError>,
) -> Result<(), AllocError> {
    assert_eq!(rt; many(rt, alloc, count)?, wanted);
    Ok(())
}

#[test]
fn a_catalog_has_65536_members_at_most(rt: HostRuntime) -> Result<(), AllocError> {
    expect_many(&rt, rt.alloc(), 65_536, Ok(65_536))?;
    let broken = Err(CatalogError::Broken(Broken::TooManyMembers));
    expect_many(&rt, rt.alloc(), 65_537, broken)
}
