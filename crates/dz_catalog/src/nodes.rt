//! The member nodes, from records in canonical order.

ghost use Rattle.std.specs.Prelude.{◌≡◌, ◌==◌, ◌∷◌, ◌+◌, ◌<◌, ◌++◌, length, drop, not, count_by, IfOk, OnOk, find};
ghost use Rattle.std.specs.Prelude.{position};
ghost use Rattle.std.specs.List.{filter_map};
ghost use Rattle.std.specs.List.Sorted.{IsStrictlySortedBy};
ghost use Rattle.std.specs.Option.{option_map, option_to_list};
ghost use Rattle.dz_name.specs.Name.{is_within};
ghost use Rattle.dz_record.specs.Record.{record_order};
ghost use Rattle.dz_catalog.specs.Member.{node_of, coo_name};
ghost use Rattle.dz_catalog.specs.inner.Below.{below, is_at, coo_among, groups_among, node_among, node_behind};

use crate::broken::{is_member, pointer_count};
use crate::names::{first_of, is_below, is_child, target_of};
use dz_member::{Node, Texts};
use dz_name::dns::{TYPE_PTR, TYPE_TXT};
use dz_name::{KeptName, Label, Name, NameRef, Octets};
use dz_record::Rr;
use std::alloc::{AllocError, Global};

/// The member nodes, in the order of their labels. Where none has two PTR records each record is looked at a few times
/// at most: what belongs to a node follows it directly. The error is out of memory.
pub(crate) fn nodes(alloc: Global, apex: &Name, records: &[Rr]) -> Result<Vec<Node>, AllocError>
    requires { IsStrictlySortedBy record_order records.now }
    ensures { IfOk result (λ v. v.items ≡ filter_map (node_of apex.now records.now) records.now) }
{
    let mut nodes = Vec::with_capacity(alloc, pointer_count(records))?;
    'records: for (place, found) in records.iter().enumerate() {
        add(&mut nodes, alloc, apex, found, behind(records, place))?;
    }
    Ok(nodes)
}

/// The records after a place.
fn behind(records: &[Rr], place: usize) -> &[Rr]
    requires { place < length records.now }
    ensures { result.now ≡ drop (place + 1) records.now }
{
    &records[place + 1..]
}

/// Puts the member node of a record after the others, if it is a member record, by the records that follow it. The
/// error is out of memory.
fn add(
    nodes: &mut Vec<Node>,
    alloc: Global,
    apex: &Name,
    found: &Rr,
    behind: &[Rr],
) -> Result<(), AllocError>
    ensures { OnOk result (nodes.new.items
        ≡ nodes.old.items ++ option_to_list (node_behind apex.now found.now behind.now)) }
{
    if !is_member(apex, found) {
        return Ok(());
    }
    let owner = found.owner_ref();
    match (first_of(&owner), target_of(found)) {
        (Some(label), Some(target)) => {
            let records = below(&owner, behind);
            let zone = KeptName::of(alloc, &target)?;
            let coo = coo_among(alloc, &owner, records)?;
            let groups = groups_among(alloc, &owner, records)?;
            nodes.push(Node {
                label,
                zone,
                coo,
                groups,
            })?;
            Ok(())
        }
        _ => Ok(()),
    }
}

/// Of records after one of a node, those of the node and of the names below it.
fn below<'a>(node: &NameRef, records: &'a [Rr]) -> &'a [Rr]
    ensures { result.now ≡ below node.now records.now }
{
    match place_outside(node, records) {
        None => records,
        Some(end) => &records[..end],
    }
}

/// The place of the first record whose owner is neither the node nor below it.
fn place_outside(node: &NameRef, records: &[Rr]) -> Option<usize>
    ensures { result ≡ position (λ r. not (is_within r.owner node.now)) records.now }
{
    records.iter().position(|r| !is_below(&r.owner_ref(), node))
}

/// Whether a record is of this type, and its owner is the node's name preceded by this label.
fn is_at(kind: u16, label: &[u8], node: &NameRef, found: &Rr) -> bool
    ensures { result ≡ is_at kind (label.now ∷ node.now) found.now }
{
    found.kind() == kind && is_child(&found.owner_ref(), label, node)
}

/// The first record of a node's change of ownership.
fn first_coo<'a>(node: &NameRef, records: &'a [Rr]) -> Option<&'a Rr>
    ensures { option_map (λ r. r.now) result
        ≡ find (is_at TYPE_PTR (coo_name node.now)) records.now }
{
    records.iter().find(|r| is_at(TYPE_PTR, b"coo", node, r))
}

/// The catalog that a node's change of ownership names, in octets of its own. The error is out of memory.
fn coo_among(alloc: Global, node: &NameRef, records: &[Rr]) -> Result<Option<KeptName>, AllocError>
    ensures { IfOk result (λ coo. coo ≡ coo_among node.now records.now) }
{
    match first_target(node, records) {
        None => Ok(None),
        Some(catalog) => Ok(Some(KeptName::of(alloc, &catalog)?)),
    }
}

/// The same without a copy.
fn first_target<'a>(node: &NameRef, records: &'a [Rr]) -> Option<NameRef<'a>>
    ensures { result ≡ coo_among node.now records.now }
{
    match first_coo(node, records) {
        None => None,
        Some(coo) => target_of(coo),
    }
}

/// How many TXT records there are.
fn text_count(records: &[Rr]) -> usize
    ensures { result ≡ count_by (λ r. r.kind == TYPE_TXT) records.now }
{
    records.iter().filter(|r| r.kind() == TYPE_TXT).count()
}

/// A node's groups. The error is out of memory.
fn groups_among(alloc: Global, node: &NameRef, records: &[Rr]) -> Result<Texts, AllocError>
    ensures { IfOk result (λ groups. groups ≡ groups_among node.now records.now) }
{
    let mut groups = Vec::with_capacity(alloc, text_count(records))?;
    'records: for found in records {
        if is_at(TYPE_TXT, b"group", node, found) {
            groups.push(Octets::from_vec(Vec::from_slice(alloc, found.rdata())?))?;
        }
    }
    Ok(Texts::from_vec(groups))
}
