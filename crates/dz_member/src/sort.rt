//! Nodes in the order of their zones, and which nodes make a listing.

ghost use Rattle.std.specs.Prelude.{◌≡◌, ◌↔◌, ◌≤◌, ◌<◌, true, false, length, map, slice_get, Some, All, IsTrue, OnOk};
ghost use Rattle.std.specs.Prelude.{IfOk, MatchOption};
ghost use Rattle.std.specs.List.Sorted.{IsStrictlySortedBy, IsPermutation};
ghost use Rattle.dz_name.specs.Name.{canonical_order, label_order};
ghost use Rattle.dz_member.specs.Listing.{same_zone, IsListing};
ghost use Rattle.dz_settings.specs.Twice.{has_twice};
ghost use Rattle.dz_member.specs.Process.{in_zone_order};
ghost use Rattle.dz_member.specs.inner.Places.{ArePlaces, IsAt, nodes_in, zones_in};

use crate::keyed::Keyed;
use crate::listing::{Listing, Node};
use std::alloc::{AllocError, Global};
use std::cmp::Ordering;

/// A node and its place among others.
#[derive(Drop)]
pub(crate) struct Placed<'a> {
    pub(crate) node: Keyed<'a>,
    pub(crate) place: usize,
}

/// Whether the zone of each node comes before the next one's.
fn zones_rise(nodes: &[Placed]) -> bool
    ensures { IsTrue result ↔ IsStrictlySortedBy canonical_order (zones_in nodes.now) }
{
    nodes.is_sorted_by(|a, b| a.node.zone_cmp(&b.node) == Ordering::Less)
}

/// Whether the label of each node comes before the next one's.
fn labels_rise(nodes: &[Node]) -> bool
    ensures { IsTrue result ↔ IsStrictlySortedBy label_order (map (λ n. n.label) nodes.now) }
{
    nodes.is_sorted_by(|a, b| a.label.cmp(&b.label) == Ordering::Less)
}

impl Listing {
    /// The listing of these nodes; none where they make none: where there are more than 65,536, their labels don't
    /// rise, or two of them have the same zone.
    ///
    /// # Errors
    ///
    /// `AllocError` where there is no memory to put the zones in order.
    pub fn try_from_vec(alloc: Global, nodes: Vec<Node>) -> Result<Option<Listing>, AllocError>
        ensures { IfOk result (λ o. MatchOption o (¬ IsListing nodes.items)
            (λ l. (l ≡ nodes.items) × IsListing nodes.items)) }
    {
        match places_of_listing(alloc, nodes.as_slice())? {
            None => Ok(None),
            Some(places) => Ok(Some(Listing::placed(nodes, places))),
        }
    }
}

/// The places of the nodes of a listing in the order of their zones; none where the nodes make no listing. The error is
/// out of memory.
fn places_of_listing(alloc: Global, nodes: &[Node]) -> Result<Option<Vec<u32>>, AllocError>
    ensures { IfOk result (λ o. MatchOption o (¬ IsListing nodes.now)
        (λ places. IsListing nodes.now × ArePlaces nodes.now places.items)) }
{
    if nodes.len() > Listing::NODES || !labels_rise(nodes) {
        return Ok(None);
    }
    sorted_places(alloc, nodes)
}

/// The same of nodes that aren't too many and whose labels rise. The error is out of memory.
fn sorted_places(alloc: Global, nodes: &[Node]) -> Result<Option<Vec<u32>>, AllocError>
    requires few { length nodes.now ≤ 65536 }
    requires labels { IsStrictlySortedBy label_order (map (λ n. n.label) nodes.now) }
    ensures { IfOk result (λ o. MatchOption o (¬ IsListing nodes.now)
        (λ places. IsListing nodes.now × ArePlaces nodes.now places.items)) }
{
    let sorted = by_zone(alloc, nodes)?;
    if !zones_rise(&sorted) {
        return Ok(None);
    }
    Ok(Some(places_of(alloc, &sorted)?))
}

/// The places of nodes. The error is out of memory.
fn places_of(alloc: Global, sorted: &[Placed]) -> Result<Vec<u32>, AllocError>
    requires { All (λ p. p.place < 65536) sorted.now }
    ensures { IfOk result (λ v. v.items ≡ map (λ p. p.place) sorted.now) }
{
    let mut places = Vec::with_capacity(alloc, sorted.len())?;
    'sorted: for placed in sorted {
        places.push(placed.place as u32)?;
    }
    Ok(places)
}

/// Nodes with their places, in the order of their zones. The error is out of memory.
fn by_zone<'a>(alloc: Global, nodes: &'a [Node]) -> Result<Vec<Placed<'a>>, AllocError>
    ensures is { IfOk result (λ v. nodes_in v.items ≡ in_zone_order nodes.now) }
    ensures places { IfOk result (λ v. All (IsAt nodes.now) v.items) }
    ensures rises { IfOk result (λ v. has_twice same_zone nodes.now ≡ false
        → IsStrictlySortedBy canonical_order (zones_in v.items)) }
    ensures once { IfOk result (λ v. IsStrictlySortedBy canonical_order (zones_in v.items)
        → has_twice same_zone nodes.now ≡ false) }
{
    let mut listed = all(alloc, nodes)?;
    order(&mut listed)?;
    Ok(listed)
}

/// Nodes with their places, in the order in which they are. The error is out of memory.
fn all<'a>(alloc: Global, nodes: &'a [Node]) -> Result<Vec<Placed<'a>>, AllocError>
    ensures is { IfOk result (λ v. nodes_in v.items ≡ nodes.now) }
    ensures places { IfOk result (λ v. All (IsAt nodes.now) v.items) }
{
    let mut all = Vec::with_capacity(alloc, nodes.len())?;
    'nodes: for (place, node) in nodes.iter().enumerate() {
        all.push(Placed {
            node: Keyed::of(node),
            place,
        })?;
    }
    Ok(all)
}

/// Sorts nodes by the canonical order of their zones. The error is out of memory.
fn order(nodes: &mut Vec<Placed>) -> Result<(), AllocError>
    ensures is { OnOk result (nodes_in nodes.new.items ≡ in_zone_order (nodes_in nodes.old.items)) }
    ensures same { OnOk result (IsPermutation nodes.old.items nodes.new.items) }
{
    match nodes.sort_by(|a, b| a.node.zone_cmp(&b.node)) {
        Ok(()) => Ok(()),
        Err(_) => Err(AllocError),
    }
}
