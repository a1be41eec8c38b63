//! The records of a catalog.

ghost use Rattle.std.specs.Prelude.{◌≡◌, ◌∷◌, ◌++◌, true, false, map, None, IfOk, OnOk};
ghost use Rattle.std.specs.List.{list_all, list_any};
ghost use Rattle.std.specs.Option.{ForSome, option_copied};
ghost use Rattle.dz_name.specs.Name.{IsLabel, IsName, wire_of};
ghost use Rattle.sha2.specs.Sha512.{sha384};
ghost use Rattle.dz_record.specs.Record.{is_bad_type};
ghost use Rattle.dz_name.specs.Numbers.{four};
ghost use Rattle.dz_record.specs.Records.{distinct};
ghost use Rattle.dz_zone.specs.Valid.{fault_of};
ghost use Rattle.dz_zone.specs.Version.{zone_of};
ghost use Rattle.dz_zonemd.specs.Digested.{digested};
ghost use Rattle.dz_record.specs.Fields.{is_rdata};
ghost use Rattle.dz_catalog.specs.Broken.{version_name};
ghost use Rattle.dz_producer.specs.Records.{hourly, uncached, invalid, times, soa_rdata, soa, name_server};
ghost use Rattle.dz_producer.specs.Records.{version_property};
ghost use Rattle.dz_producer.specs.Records.{coo_records, group_records, node_records, digest};
ghost use Rattle.dz_producer.specs.Faults.{is_long, is_string};
ghost use Rattle.dz_producer.specs.inner.Nodes.{IsLed};

use dz_member::Node;
use dz_name::dns::{TYPE_NS, TYPE_PTR, TYPE_SOA, TYPE_TXT, TYPE_ZONEMD};
use dz_name::numbers::four;
use dz_name::{KeptName, Label, Name, Octets};
use dz_record::Rr;
use dz_zone::{ZoneError, check};
use dz_zonemd::{ALGORITHM_SHA384, SCHEME_SIMPLE, zone_digest};
use sha2::Sha384;
use std::alloc::{AllocError, Global};

/// The TTL of the records of the apex, in seconds.
const HOUR: u32 = 3600;

/// A record with a TTL of an hour.
fn hourly(alloc: Global, owner: &Name, kind: u16, rdata: &[u8]) -> Result<Rr, AllocError>
    requires kind { is_bad_type kind ≡ false }
    requires rdata { is_rdata kind rdata.now ≡ true }
    ensures { IfOk result (λ r. r ≡ hourly owner.now kind rdata.now) }
{
    Rr::from_parts(alloc, owner, kind, HOUR, rdata)
}

/// A record with a TTL of 0.
fn uncached(alloc: Global, owner: &Name, kind: u16, rdata: &[u8]) -> Result<Rr, AllocError>
    requires kind { is_bad_type kind ≡ false }
    requires rdata { is_rdata kind rdata.now ≡ true }
    ensures { IfOk result (λ r. r ≡ uncached owner.now kind rdata.now) }
{
    Rr::from_parts(alloc, owner, kind, 0, rdata)
}

/// The wire form of `invalid.`
fn invalid() -> &'static [u8]
    ensures { result.now ≡ wire_of invalid }
{
    b"\x07invalid\x00"
}

/// A name with one more label before it, for which there is room.
fn child(name: &Name, label: &Label) -> Name
    requires { is_long (label.now ∷ name.now) ≡ false }
    ensures { result ≡ label.now ∷ name.now }
{
    match name.child(label) {
        Ok(child) => child,
        Err(_) => unreachable!(),
    }
}

/// A name with a word before it as a label, for which there is room.
fn below(name: &Name, word: &[u8]) -> Name
    requires label { IsLabel word.now }
    requires room { is_long (word.now ∷ name.now) ≡ false }
    ensures { result ≡ word.now ∷ name.now }
{
    match Label::new(word) {
        Some(label) => child(name, &label),
        None => unreachable!(),
    }
}

/// REFRESH, RETRY, EXPIRE and MINIMUM, in seconds.
fn put_times(rdata: &mut Vec<u8>) -> Result<(), AllocError>
    ensures { OnOk result (rdata.new.items ≡ rdata.old.items ++ times) }
{
    rdata.extend_from_slice(&four(3600))?;
    rdata.extend_from_slice(&four(600))?;
    rdata.extend_from_slice(&four(2_147_483_646))?;
    rdata.extend_from_slice(&four(0))
}

/// The RDATA of the SOA record of a catalog with this serial.
fn soa_rdata(alloc: Global, serial: u32) -> Result<Vec<u8>, AllocError>
    ensures { IfOk result (λ v. v.items ≡ soa_rdata serial) }
{
    let mut rdata = Vec::new(alloc);
    rdata.extend_from_slice(invalid())?;
    rdata.extend_from_slice(invalid())?;
    rdata.extend_from_slice(&four(serial))?;
    put_times(&mut rdata)?;
    Ok(rdata)
}

/// The SOA record of a catalog with this serial.
pub(crate) fn soa(alloc: Global, apex: &Name, serial: u32) -> Result<Rr, AllocError>
    ensures { IfOk result (λ r. r ≡ soa apex.now serial) }
{
    let rdata = soa_rdata(alloc, serial)?;
    hourly(alloc, apex, TYPE_SOA, rdata.as_slice())
}

/// The NS record of a catalog.
pub(crate) fn name_server(alloc: Global, apex: &Name) -> Result<Rr, AllocError>
    ensures { IfOk result (λ r. r ≡ name_server apex.now) }
{
    hourly(alloc, apex, TYPE_NS, invalid())
}

/// The version property of a catalog.
pub(crate) fn version_property(alloc: Global, apex: &Name) -> Result<Rr, AllocError>
    requires { is_long (version_name apex.now) ≡ false }
    ensures { IfOk result (λ r. r ≡ version_property apex.now) }
{
    uncached(alloc, &below(apex, b"version"), TYPE_TXT, b"\x012")
}

/// A PTR record that leads to a name.
fn pointer(alloc: Global, owner: &Name, target: &KeptName) -> Result<Rr, AllocError>
    ensures record { IfOk result (λ r. r ≡ uncached owner.now TYPE_PTR (wire_of target.now)) }
    ensures target { IsName target.now }
{
    uncached(alloc, owner, TYPE_PTR, target.as_ref().wire())
}

/// Puts the records of a node after others.
pub(crate) fn put_node(
    alloc: Global,
    apex: &Name,
    node: &Node,
    out: &mut Vec<Rr>,
) -> Result<(), AllocError>
    requires groups { list_all is_string node.now.groups ≡ true }
    requires short { list_any (λ r. is_long r.owner) (node_records apex.now node.now) ≡ false }
    ensures records { OnOk result
        (out.new.items ≡ out.old.items ++ node_records apex.now node.now) }
    ensures led { OnOk result (IsLed node.now) }
{
    let owner = child(&below(apex, b"zones"), &node.label);
    out.push(pointer(alloc, &owner, &node.zone)?)?;
    put_coo(alloc, &owner, node.coo.as_ref(), out)?;
    put_groups(alloc, &owner, node.groups.as_slice(), out)
}

/// Puts a change of ownership after others, if there is one.
fn put_coo(
    alloc: Global,
    owner: &Name,
    coo: Option<&KeptName>,
    out: &mut Vec<Rr>,
) -> Result<(), AllocError>
    requires { list_any (λ r. is_long r.owner)
        (coo_records owner.now (option_copied coo)) ≡ false }
    ensures records { OnOk result (out.new.items
        ≡ out.old.items ++ coo_records owner.now (option_copied coo.entry)) }
    ensures name { OnOk result (ForSome (option_copied coo.entry) IsName) }
{
    match coo {
        None => Ok(()),
        Some(catalog) => {
            out.push(pointer(alloc, &below(owner, b"coo"), catalog)?)?;
            Ok(())
        }
    }
}

/// Puts groups after other records.
fn put_groups(
    alloc: Global,
    owner: &Name,
    groups: &[Octets],
    out: &mut Vec<Rr>,
) -> Result<(), AllocError>
    requires groups { list_all is_string groups.now ≡ true }
    requires short { list_any (λ r. is_long r.owner)
        (group_records owner.now groups.now) ≡ false }
    ensures { OnOk result (out.new.items ≡ out.old.items ++ group_records owner.now groups.now) }
{
    if groups.is_empty() {
        return Ok(());
    }
    put_texts(alloc, &below(owner, b"group"), groups, out)
}

/// Puts TXT records of one owner after other records.
fn put_texts(
    alloc: Global,
    owner: &Name,
    texts: &[Octets],
    out: &mut Vec<Rr>,
) -> Result<(), AllocError>
    requires { list_all is_string texts.now ≡ true }
    ensures { OnOk result (out.new.items
        ≡ out.old.items ++ map (uncached owner.now TYPE_TXT) texts.now) }
{
    'texts: for text in texts {
        out.push(uncached(alloc, owner, TYPE_TXT, text.as_slice())?)?;
    }
    Ok(())
}

/// The ZONEMD record of a catalog's other records, which make a zone (RFC 8976 section 2.2).
pub(crate) fn digest(
    alloc: Global,
    apex: &Name,
    serial: u32,
    records: Vec<Rr>,
) -> Result<Rr, AllocError>
    requires { fault_of apex.now (distinct records.items) ≡ None }
    ensures { IfOk result (λ r. r ≡ digest apex.now serial records.items) }
{
    let rdata = digest_rdata(alloc, apex, serial, records)?;
    hourly(alloc, apex, TYPE_ZONEMD, rdata.as_slice())
}

/// Its RDATA: serial, scheme, hash algorithm and digest.
fn digest_rdata(
    alloc: Global,
    apex: &Name,
    serial: u32,
    records: Vec<Rr>,
) -> Result<Vec<u8>, AllocError>
    requires { fault_of apex.now (distinct records.items) ≡ None }
    ensures { IfOk result (λ v. v.items ≡ four serial ++ (SCHEME_SIMPLE ∷ ALGORITHM_SHA384
        ∷ sha384 (digested apex.now (zone_of apex.now records.items).records))) }
{
    let mut rdata = four(serial).to_vec(alloc)?;
    rdata.extend_from_slice(&[SCHEME_SIMPLE, ALGORITHM_SHA384])?;
    put_digest(alloc, apex, records, &mut rdata)?;
    Ok(rdata)
}

/// Puts the SHA-384 of the zone that records make after other octets.
fn put_digest(
    alloc: Global,
    apex: &Name,
    records: Vec<Rr>,
    rdata: &mut Vec<u8>,
) -> Result<(), AllocError>
    requires { fault_of apex.now (distinct records.items) ≡ None }
    ensures { OnOk result (rdata.new.items ≡ rdata.old.items
        ++ sha384 (digested apex.now (zone_of apex.now records.items).records)) }
{
    match check(alloc, apex, records) {
        Ok(version) => {
            rdata.extend_from_slice(zone_digest::<Sha384>(apex, version.records()).as_slice())
        }
        Err(ZoneError::OutOfMemory) => Err(AllocError),
        Err(ZoneError::Fault(_)) => unreachable!(),
    }
}
