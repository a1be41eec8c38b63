//! The records of the zones and of their catalog.
ghost use Rattle.std.specs.Prelude.{◌≡◌, ◌≤◌, ◌++◌, false, true, IfOk, OnOk, None, codes};
ghost use Rattle.sha2.specs.Sha512.{sha384};
ghost use Rattle.dz_record.specs.Fields.{is_rdata};
ghost use Rattle.dz_record.specs.Record.{is_bad_type};
ghost use Rattle.dz_record.specs.Records.{distinct};
ghost use Rattle.dz_zone.specs.Valid.{fault_of};
ghost use Rattle.dz_zone.specs.Version.{zone_of};
ghost use Rattle.dz_zonemd.specs.Digested.{digested};
ghost use Rattle.dz_gen.specs.Texts.{IsSpelled, numbered as spelled};
ghost use Rattle.dz_gen.specs.Records.{hourly, times, soa, catalog, version_property, zone, node, group, is_strict};
ghost use Rattle.dz_gen.specs.Records.{name_server, address, www, mail, first_records, second_records, digest};

use crate::script::ZONES;
use crate::texts::{named, numbered};
use dz_name::Name;
use dz_name::dns::{TYPE_A, TYPE_NS, TYPE_PTR, TYPE_SOA, TYPE_TXT, TYPE_ZONEMD};
use dz_name::numbers::{four, two};
use dz_record::Rr;
use dz_zone::{ZoneError, check};
use dz_zonemd::zone_digest;
use sha2::Sha384;
use std::alloc::{AllocError, Global};

/// The TTL of most records, in seconds.
const HOUR: u32 = 3600;

/// A record with a TTL of an hour.
pub(crate) fn hourly(
    alloc: Global,
    owner: Name,
    kind: u16,
    rdata: Vec<u8>,
) -> Result<Rr, AllocError>
    requires kind { is_bad_type kind ≡ false }
    requires rdata { is_rdata kind rdata.items ≡ true }
    ensures { IfOk result (λ r. r ≡ hourly owner kind rdata.items) }
{
    Rr::from_parts(alloc, &owner, kind, HOUR, rdata.as_slice())
}

/// The SOA record of an apex.
pub(crate) fn soa(alloc: Global, apex: &Name, serial: u32) -> Result<Rr, AllocError>
    ensures { IfOk result (λ r. r ≡ soa apex.now serial) }
{
    let mut rdata = Vec::new(alloc);
    rdata.extend_from_slice(named(b"ns.invalid.").wire())?;
    rdata.extend_from_slice(named(b"host.invalid.").wire())?;
    rdata.extend_from_slice(&four(serial))?;
    put_times(&mut rdata)?;
    hourly(alloc, *apex, TYPE_SOA, rdata)
}

/// REFRESH, RETRY, EXPIRE and MINIMUM, in seconds.
fn put_times(rdata: &mut Vec<u8>) -> Result<(), AllocError>
    ensures { OnOk result (rdata.new.items ≡ rdata.old.items ++ times) }
{
    rdata.extend_from_slice(&four(100))?;
    rdata.extend_from_slice(&four(60))?;
    rdata.extend_from_slice(&four(600))?;
    rdata.extend_from_slice(&four(30))
}

/// The name of the catalog.
pub(crate) fn catalog() -> Name
    ensures { result ≡ catalog }
{
    named(b"cat.test.")
}

/// The version property of the catalog.
pub(crate) fn version_property(alloc: Global) -> Result<Rr, AllocError>
    ensures { IfOk result (λ r. r ≡ version_property) }
{
    Rr::from_parts(alloc, &named(b"version.cat.test."), TYPE_TXT, 0, b"\x012")
}

/// The name of a zone.
pub(crate) fn zone(alloc: Global, k: u16) -> Result<Name, AllocError>
    requires some { 1 ≤ k }
    requires few { k ≤ ZONES }
    ensures { IfOk result (λ name. name ≡ zone k) }
{
    Ok(named(numbered(alloc, b"z", k, b".test.")?.as_slice()))
}

/// The name that each zone has an address for.
pub(crate) fn www(alloc: Global, k: u16) -> Result<Name, AllocError>
    requires some { 1 ≤ k }
    requires few { k ≤ ZONES }
    ensures { IfOk result (λ name. name ≡ www k) }
{
    Ok(named(numbered(alloc, b"www.z", k, b".test.")?.as_slice()))
}

/// A zone's member node, whose label is this letter and the number.
pub(crate) fn node(alloc: Global, letter: &[u8], k: u16) -> Result<Rr, AllocError>
    requires some { 1 ≤ k }
    requires few { k ≤ ZONES }
    requires owner { IsSpelled (spelled letter.now k (codes ".zones.cat.test.")) }
    ensures { IfOk result (λ r. r ≡ node letter.now k) }
{
    let owner = named(numbered(alloc, letter, k, b".zones.cat.test.")?.as_slice());
    let rdata = zone(alloc, k)?.wire().to_vec(alloc)?;
    hourly(alloc, owner, TYPE_PTR, rdata)
}

/// The group of a zone's member node.
pub(crate) fn group(alloc: Global, k: u16) -> Result<Rr, AllocError>
    requires some { 1 ≤ k }
    requires few { k ≤ ZONES }
    ensures { IfOk result (λ r. r ≡ group k) }
{
    let owner = named(numbered(alloc, b"group.m", k, b".zones.cat.test.")?.as_slice());
    hourly(alloc, owner, TYPE_TXT, b"\x06strict".to_vec(alloc)?)
}

/// Whether the zone is of the group, and has digests.
pub(crate) fn is_strict(k: u16) -> bool
    ensures { result ≡ is_strict k }
{
    k % 2 == 1
}

/// The NS record of a zone.
fn name_server(alloc: Global, k: u16) -> Result<Rr, AllocError>
    requires some { 1 ≤ k }
    requires few { k ≤ ZONES }
    ensures { IfOk result (λ r. r ≡ name_server k) }
{
    let rdata = named(b"ns.invalid.").wire().to_vec(alloc)?;
    hourly(alloc, zone(alloc, k)?, TYPE_NS, rdata)
}

/// The address 10.second.a.b, where the number is a times 256 and b.
fn address(alloc: Global, owner: Name, second: u8, k: u16) -> Result<Rr, AllocError>
    ensures { IfOk result (λ r. r ≡ address owner second k) }
{
    let mut rdata = [10, second].to_vec(alloc)?;
    rdata.extend_from_slice(&two(k))?;
    hourly(alloc, owner, TYPE_A, rdata)
}

/// The address that comes with serial 2.
pub(crate) fn mail(alloc: Global, k: u16) -> Result<Rr, AllocError>
    requires some { 1 ≤ k }
    requires few { k ≤ ZONES }
    ensures { IfOk result (λ r. r ≡ mail k) }
{
    let owner = named(numbered(alloc, b"mail.z", k, b".test.")?.as_slice());
    address(alloc, owner, 1, k)
}

/// The records of serial 1, without a digest.
pub(crate) fn first_records(alloc: Global, k: u16) -> Result<Vec<Rr>, AllocError>
    requires some { 1 ≤ k }
    requires few { k ≤ ZONES }
    ensures { IfOk result (λ records. records.items ≡ first_records k) }
{
    let apex = zone(alloc, k)?;
    let mut records = Vec::new(alloc);
    records.push(soa(alloc, &apex, 1)?)?;
    records.push(name_server(alloc, k)?)?;
    records.push(address(alloc, www(alloc, k)?, 0, k)?)?;
    Ok(records)
}

/// The records of serial 2, without a digest.
fn second_records(alloc: Global, k: u16) -> Result<Vec<Rr>, AllocError>
    requires some { 1 ≤ k }
    requires few { k ≤ ZONES }
    ensures { IfOk result (λ records. records.items ≡ second_records k) }
{
    let apex = zone(alloc, k)?;
    let mut records = Vec::new(alloc);
    records.push(soa(alloc, &apex, 2)?)?;
    records.push(name_server(alloc, k)?)?;
    records.push(address(alloc, www(alloc, k)?, 0, k)?)?;
    records.push(mail(alloc, k)?)?;
    Ok(records)
}

/// The ZONEMD record of the version that records make, with a serial.
fn digest(alloc: Global, apex: &Name, serial: u32, records: Vec<Rr>) -> Result<Rr, AllocError>
    requires { fault_of apex.now (distinct records.items) ≡ None }
    ensures { IfOk result (λ r. r ≡ digest apex.now serial records.items) }
{
    let mut rdata = four(serial).to_vec(alloc)?;
    rdata.extend_from_slice(&[1, 1])?;
    put_digest(alloc, apex, records, &mut rdata)?;
    hourly(alloc, *apex, TYPE_ZONEMD, rdata)
}

/// Puts the SHA-384 of the version that records make.
fn put_digest(
    alloc: Global,
    apex: &Name,
    records: Vec<Rr>,
    rdata: &mut Vec<u8>,
) -> Result<(), AllocError>
    requires { fault_of apex.now (distinct records.items) ≡ None }
    ensures { OnOk result (rdata.new.items ≡ rdata.old.items
        ++ sha384 (digested apex.now (zone_of apex.now records.items).records)) }
{
    match check(alloc, apex, records) {
        Ok(version) => {
            rdata.extend_from_slice(zone_digest::<Sha384>(apex, version.records()).as_slice())
        }
        Err(ZoneError::OutOfMemory) => Err(AllocError),
        Err(ZoneError::Fault(_)) => unreachable!(),
    }
}

/// The digest of a zone with serial 1.
pub(crate) fn first_digest(alloc: Global, k: u16) -> Result<Rr, AllocError>
    requires some { 1 ≤ k }
    requires few { k ≤ ZONES }
    ensures { IfOk result (λ r. r ≡ digest (zone k) 1 (first_records k)) }
{
    digest(alloc, &zone(alloc, k)?, 1, first_records(alloc, k)?)
}

/// The digest of a zone with serial 2.
pub(crate) fn second_digest(alloc: Global, k: u16) -> Result<Rr, AllocError>
    requires some { 1 ≤ k }
    requires few { k ≤ ZONES }
    ensures { IfOk result (λ r. r ≡ digest (zone k) 2 (second_records k)) }
{
    digest(alloc, &zone(alloc, k)?, 2, second_records(alloc, k)?)
}
