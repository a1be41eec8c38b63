//! Versions of zones.

ghost use Rattle.std.specs.Prelude.{◌≡◌, IfOk};

use crate::records::{Row, push_records};
use dz_name::Name;
use dz_record::Rr;
use dz_zone::{Version, check};
use std::alloc::{AllocError, Global};
use std::process::Abort;

/// The version of a zone with these records.
pub fn version_of(rt: &impl Abort, alloc: Global, zone: &Name, records: Vec<Rr>) -> Version
    ensures { result.apex ≡ zone.now }
{
    match check(alloc, zone, records) {
        Ok(version) => version,
        Err(fault) => panic!(rt; "{zone:?}: {fault:?}"),
    }
}

/// The version of a zone with the records of these rows.
pub fn version(
    rt: &impl Abort,
    alloc: Global,
    zone: &Name,
    rows: &[Row],
) -> Result<Version, AllocError>
    ensures { IfOk result (λ version. version.apex ≡ zone.now) }
{
    let mut records = Vec::new(alloc);
    push_records(rt, alloc, &mut records, rows)?;
    Ok(version_of(rt, alloc, zone, records))
}
