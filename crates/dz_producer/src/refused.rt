//! The faults of nodes.

ghost use Rattle.std.specs.Prelude.{◌≡◌, false, ◌<◌, ◌^◌, nat_lt, IfOk};
ghost use Rattle.std.specs.List.{All, list_all, list_any};
ghost use Rattle.std.specs.Str.{bytes_eq};
ghost use Rattle.dz_name.specs.Name.{IsLabel};
ghost use Rattle.dz_member.specs.Listing.{same_zone};
ghost use Rattle.dz_settings.specs.Twice.{has_twice};
ghost use Rattle.dz_catalog.specs.Broken.{version_name};
ghost use Rattle.dz_producer.specs.Faults.{same_node, is_string, has_bad_group, is_long};
ghost use Rattle.dz_producer.specs.Records.{node_records};
ghost use Rattle.dz_producer.specs.inner.Nodes.{values, record_count, whole_count, property_size};

use dz_member::Node;
use dz_name::dns::{NAME_OCTETS, ZONE_RECORDS};
use dz_name::{Name, Octets};
use std::alloc::{AllocError, Global};
use std::collections::BTreeSet;

/// `zones` and its length octet.
pub(crate) const ZONES: usize = 6;

/// `version` and its length octet.
const VERSION: usize = 8;

/// `coo` and its length octet.
pub(crate) const COO: usize = 4;

/// `group` and its length octet.
pub(crate) const GROUP: usize = 6;

/// The records that no node has: SOA, NS, version and digest.
pub(crate) const FIXED_RECORDS: usize = 4;

/// Whether two nodes have one label.
pub(crate) fn has_label_twice(alloc: Global, nodes: &[&Node]) -> Result<bool, AllocError>
    ensures { IfOk result (λ twice. twice ≡ has_twice same_node (values nodes.now)) }
{
    let mut labels = BTreeSet::new(alloc);
    'nodes: for node in nodes {
        if !labels.insert(node.label)? {
            return Ok(true);
        }
    }
    Ok(false)
}

/// Whether two nodes have one zone.
pub(crate) fn has_zone_twice(alloc: Global, nodes: &[&Node]) -> Result<bool, AllocError>
    ensures { IfOk result (λ twice. twice ≡ has_twice same_zone (values nodes.now)) }
{
    let mut zones = BTreeSet::new(alloc);
    'nodes: for node in nodes {
        if !zones.insert(node.zone.as_ref().to_name())? {
            return Ok(true);
        }
    }
    Ok(false)
}

/// Whether a text comes twice there.
fn has_text_twice(alloc: Global, texts: &[Octets]) -> Result<bool, AllocError>
    ensures { IfOk result (λ twice. twice ≡ has_twice bytes_eq texts.now) }
{
    let mut seen = BTreeSet::new(alloc);
    'texts: for text in texts {
        if !seen.insert(text.as_slice())? {
            return Ok(true);
        }
    }
    Ok(false)
}

/// Whether octets are one character string of 1 to 255 octets (RFC 1035 section 3.3).
fn is_string(octets: &Octets) -> bool
    ensures { result ≡ is_string octets.now }
{
    match octets.as_slice() {
        [length, text @ ..] => !text.is_empty() && *length as usize == text.len(),
        [] => false,
    }
}

/// Whether all are such strings.
fn are_strings(groups: &[Octets]) -> bool
    ensures { result ≡ list_all is_string groups.now }
{
    groups.iter().all(|group| is_string(group))
}

/// Whether a group of a node isn't such a string, or comes twice there.
pub(crate) fn has_bad_group(alloc: Global, node: &Node) -> Result<bool, AllocError>
    ensures { IfOk result (λ bad. bad ≡ has_bad_group node.now) }
{
    let groups = node.groups.as_slice();
    if !are_strings(groups) {
        return Ok(true);
    }
    has_text_twice(alloc, groups)
}

/// Whether some node has a bad group.
pub(crate) fn some_bad_group(alloc: Global, nodes: &[&Node]) -> Result<bool, AllocError>
    ensures { IfOk result (λ bad. bad ≡ list_any (λ b. has_bad_group b.now) nodes.now) }
{
    'nodes: for node in nodes {
        if has_bad_group(alloc, node)? {
            return Ok(true);
        }
    }
    Ok(false)
}

/// Whether the name of the version is too long.
pub(crate) fn is_version_long(apex: &Name) -> bool
    ensures { result ≡ is_long (version_name apex.now) }
{
    NAME_OCTETS < apex.wire().len() + VERSION
}

/// Whether a record of the node has too long an owner.
pub(crate) fn is_node_long(apex: &Name, node: &Node) -> bool
    ensures long { result ≡ list_any (λ r. is_long r.owner) (node_records apex.now node.now) }
    ensures label { IsLabel node.now.label }
{
    let owner = apex.wire().len() + ZONES + 1 + node.label.octets().len();
    NAME_OCTETS < owner + property_size(node)
}

/// How many octets more than its PTR the longest owner of a node's records has.
fn property_size(node: &Node) -> usize
    ensures { result ≡ property_size node.now }
{
    if !node.groups.as_slice().is_empty() {
        GROUP
    } else if node.coo.is_some() {
        COO
    } else {
        0
    }
}

/// Whether a record of some node has too long an owner.
pub(crate) fn some_node_long(apex: &Name, nodes: &[&Node]) -> bool
    ensures long { result ≡ list_any (λ b. list_any (λ r. is_long r.owner)
        (node_records apex.now b.now)) nodes.now }
    ensures labels { result ≡ false → All (λ b. IsLabel b.now.label) nodes.now }
{
    'nodes: for node in nodes {
        if is_node_long(apex, node) {
            return true;
        }
    }
    false
}

/// How many records a node has.
pub(crate) fn record_count(node: &Node) -> usize
    ensures count { result ≡ record_count node.now }
    ensures small { result < 2 ^ 63 }
{
    let coo = if node.coo.is_some() { 1 } else { 0 };
    1 + coo + node.groups.as_slice().len()
}

/// Whether the catalog has more records than a zone may have.
pub(crate) fn has_too_many_records(nodes: &[&Node]) -> bool
    ensures { result ≡ nat_lt ZONE_RECORDS (whole_count nodes.now) }
{
    let mut count = FIXED_RECORDS;
    'nodes: for node in nodes {
        count += record_count(node);
        if ZONE_RECORDS < count {
            return true;
        }
    }
    false
}
