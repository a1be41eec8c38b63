//! Catalogs that are made.

ghost use Rattle.std.specs.Prelude.{◌≡◌, ◌++◌, false, nat_lt, IfOk, OnOk};
ghost use Rattle.std.specs.List.{All, flat_map, list_any};
ghost use Rattle.dz_name.specs.declared.dns.TheConstants.{ZONE_RECORDS};
ghost use Rattle.dz_catalog.specs.Broken.{version_name};
ghost use Rattle.dz_producer.specs.Amended.{IsCatalogOf};
ghost use Rattle.dz_producer.specs.Faults.{has_bad_group, is_long};
ghost use Rattle.dz_producer.specs.Produced.{produced};
ghost use Rattle.dz_producer.specs.Answers.{IsProduced};
ghost use Rattle.dz_producer.specs.Records.{node_records, plain_records};
ghost use Rattle.dz_producer.specs.inner.Nodes.{IsLed, values, whole_count};

use crate::fault::{ProduceError, ProduceFault};
use crate::records::{digest, name_server, put_node, soa, version_property};
use crate::refused::{
    has_label_twice, has_too_many_records, has_zone_twice, is_version_long, some_bad_group,
    some_node_long,
};
use dz_member::{Listing, Node};
use dz_name::Name;
use dz_outward::is_fit;
use dz_record::Rr;
use dz_zone::{Version, ZoneError, check};
use std::alloc::{AllocError, Global};

/// The catalog of these nodes with this serial (RFC 9432), with a digest of scheme SIMPLE and SHA-384 (RFC 8976).
///
/// # Errors
///
/// The first fault that holds, or out of memory.
pub fn produce(
    alloc: Global,
    apex: &Name,
    serial: u32,
    nodes: &[Node],
) -> Result<Version, ProduceError>
    ensures made { IsProduced apex.now serial nodes.now result }
    ensures catalog { IfOk result (λ v. IsCatalogOf serial v) }
{
    let all = references(alloc, nodes)?;
    produce_of(alloc, apex, serial, all.as_slice())
}

/// References to nodes.
pub(crate) fn references<'a>(alloc: Global, nodes: &'a [Node]) -> Result<Vec<&'a Node>, AllocError>
    ensures { IfOk result (λ v. values v.items ≡ nodes.now) }
{
    let mut all = Vec::with_capacity(alloc, nodes.len())?;
    'nodes: for node in nodes {
        all.push(node)?;
    }
    Ok(all)
}

/// The same of nodes that are kept elsewhere.
pub(crate) fn produce_of(
    alloc: Global,
    apex: &Name,
    serial: u32,
    nodes: &[&Node],
) -> Result<Version, ProduceError>
    ensures made { IsProduced apex.now serial (values nodes.now) result }
    ensures catalog { IfOk result (λ v. IsCatalogOf serial v) }
{
    if has_label_twice(alloc, nodes)? {
        return Err(ProduceError::Fault(ProduceFault::LabelTwice));
    }
    if some_bad_group(alloc, nodes)? {
        return Err(ProduceError::Fault(ProduceFault::BadGroup));
    }
    if is_version_long(apex) || some_node_long(apex, nodes) {
        return Err(ProduceError::Fault(ProduceFault::NameTooLong));
    }
    if Listing::NODES < nodes.len() || has_too_many_records(nodes) {
        return Err(ProduceError::Fault(ProduceFault::TooMany));
    }
    let version = version_of(alloc, apex, serial, nodes)?;
    if !is_fit(&version) {
        return Err(ProduceError::Fault(ProduceFault::TooMany));
    }
    if has_zone_twice(alloc, nodes)? {
        return Err(ProduceError::Fault(ProduceFault::ZoneTwice));
    }
    Ok(version)
}

/// The version of nodes whose records can be made.
fn version_of(
    alloc: Global,
    apex: &Name,
    serial: u32,
    nodes: &[&Node],
) -> Result<Version, AllocError>
    requires groups { list_any (λ b. has_bad_group b.now) nodes.now ≡ false }
    requires version { is_long (version_name apex.now) ≡ false }
    requires short { list_any (λ b. list_any (λ r. is_long r.owner)
        (node_records apex.now b.now)) nodes.now ≡ false }
    requires few { nat_lt ZONE_RECORDS (whole_count nodes.now) ≡ false }
    ensures version { IfOk result (λ v. v ≡ produced apex.now serial (values nodes.now)) }
    ensures led { IfOk result (λ v. All (λ b. IsLed b.now) nodes.now) }
{
    let mut records = plain_records(alloc, apex, serial, nodes)?;
    let digest = digest(alloc, apex, serial, shared(alloc, records.as_slice())?)?;
    records.push(digest)?;
    match check(alloc, apex, records) {
        Ok(version) => Ok(version),
        Err(ZoneError::OutOfMemory) => Err(AllocError),
        Err(ZoneError::Fault(_)) => unreachable!(),
    }
}

/// The records of a catalog without its digest.
fn plain_records(
    alloc: Global,
    apex: &Name,
    serial: u32,
    nodes: &[&Node],
) -> Result<Vec<Rr>, AllocError>
    requires groups { list_any (λ b. has_bad_group b.now) nodes.now ≡ false }
    requires version { is_long (version_name apex.now) ≡ false }
    requires short { list_any (λ b. list_any (λ r. is_long r.owner)
        (node_records apex.now b.now)) nodes.now ≡ false }
    ensures records { IfOk result
        (λ v. v.items ≡ plain_records apex.now serial (values nodes.now)) }
    ensures led { IfOk result (λ v. All (λ b. IsLed b.now) nodes.now) }
{
    let mut records = Vec::new(alloc);
    records.push(soa(alloc, apex, serial)?)?;
    records.push(name_server(alloc, apex)?)?;
    records.push(version_property(alloc, apex)?)?;
    put_nodes(alloc, apex, nodes, &mut records)?;
    Ok(records)
}

/// Puts the records of nodes after others.
pub(crate) fn put_nodes(
    alloc: Global,
    apex: &Name,
    nodes: &[&Node],
    out: &mut Vec<Rr>,
) -> Result<(), AllocError>
    requires groups { list_any (λ b. has_bad_group b.now) nodes.now ≡ false }
    requires short { list_any (λ b. list_any (λ r. is_long r.owner)
        (node_records apex.now b.now)) nodes.now ≡ false }
    ensures records { OnOk result (out.new.items
        ≡ out.old.items ++ flat_map (λ b. node_records apex.now b.now) nodes.now) }
    ensures led { OnOk result (All (λ b. IsLed b.now) nodes.now) }
{
    'nodes: for node in nodes {
        put_node(alloc, apex, node, out)?;
    }
    Ok(())
}

/// The records, shared in a list of their own, with room for one after them.
fn shared(alloc: Global, records: &[Rr]) -> Result<Vec<Rr>, AllocError>
    ensures { IfOk result (λ v. v.items ≡ records.now) }
{
    let mut all = Vec::with_capacity(alloc, records.len() + 1)?;
    'records: for record in records {
        all.push(record.share()?)?;
    }
    Ok(all)
}
