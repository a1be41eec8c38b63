//! What a catalog lists (RFC 9432 section 4).

ghost use Rattle.std.specs.Prelude.{◌≡◌, ◌+◌, [], length, slice_get, IfOk};
ghost use Rattle.std.specs.Option.{option_map};
ghost use Rattle.dz_member.specs.Listing.{IsListing};
ghost use Rattle.dz_member.specs.Process.{in_zone_order};
ghost use Rattle.dz_member.specs.inner.Places.{ArePlaces};

use dz_chunks::Keyed;
use dz_keys::LabelKey;
use dz_name::{KeptName, Label, Octets};
use dz_steps::Steps;
use std::alloc::{AllocError, Global};
use std::cmp::Ordering;
use std::marker::Model;
use std::sync::ledger::Ledger;

/// The RDATA of TXT records, in the order of their octets.
#[derive(Debug, Drop)]
pub struct Texts {
    items: Vec<Octets>,
}

impl Model for Texts {
    ghost use Rattle.std.specs.Prelude.{List};
    ghost use Rattle.dz_name.specs.Words.{Octets};

    ghost Value = { List Octets };

    ghost view = { λ t. t.items.items };
}

impl Texts {
    /// Takes over a vector, without memory of its own.
    pub fn from_vec(items: Vec<Octets>) -> Texts
        ensures { result ≡ items.items }
    {
        Texts { items }
    }

    /// The same once more. The error is out of memory.
    pub(crate) fn try_clone(&self, alloc: Global) -> Result<Texts, AllocError>
        ensures { IfOk result (λ copy. copy ≡ self.now) }
    {
        let mut items = Vec::with_capacity(alloc, self.items.len())?;
        'items: for text in &self.items {
            items.push(text.try_clone(alloc)?)?;
        }
        Ok(Texts { items })
    }

    /// Gives the vector back.
    pub fn into_vec(self) -> Vec<Octets>
        ensures { result.items ≡ self }
    {
        self.items
    }

    /// The RDATA of the records, in the order of their octets.
    pub fn as_slice(&self) -> &[Octets]
        ensures { result.now ≡ self.now }
    {
        self.items.as_slice()
    }
}

/// A member node: one label below `zones` and the catalog's name that owns a PTR (RFC 9432 section 4.1).
#[derive(Debug, Drop)]
pub struct Node {
    pub label: Label,
    /// The member zone, the target of the PTR.
    pub zone: KeptName,
    /// The catalog that may take the zone over (RFC 9432 section 4.3.1).
    pub coo: Option<KeptName>,
    /// The RDATA of the group's TXT records, in the order of their octets (RFC 9432 section 4.3.2).
    pub groups: Texts,
}

const _: () = prove!(size_of::<Node>() == 192);

impl Node {
    /// The same node once more. The error is out of memory.
    pub(crate) fn try_clone(&self, alloc: Global) -> Result<Node, AllocError>
        ensures { IfOk result (λ copy. copy ≡ self.now) }
    {
        let coo = match &self.coo {
            None => None,
            Some(name) => Some(name.try_clone()?),
        };
        Ok(Node {
            label: self.label,
            zone: self.zone.try_clone()?,
            coo,
            groups: self.groups.try_clone(alloc)?,
        })
    }
}

impl Keyed<LabelKey> for Node {
    ghost key = { λ n. n.label };

    /// The key of the label.
    fn key(&self) -> LabelKey {
        LabelKey::of(&self.label)
    }

    /// How the label compares with the one that is asked for. It is one step.
    fn compare<L: Ledger>(&self, asked: &LabelKey, steps: &mut Steps<L>) -> Ordering {
        steps.tick();
        self.label.cmp(asked.label())
    }
}

/// The member nodes of a catalog: at most 65,536, in the order of their labels, no label and no zone twice. For each it
/// keeps four more octets, which give the order of the zones.
#[derive(Debug, Drop)]
pub struct Listing {
    nodes: Vec<Node>,
    /// The places of the nodes, in the order of their zones.
    places: Vec<u32>,
}

impl Model for Listing {
    ghost use Rattle.std.specs.Prelude.{List};
    ghost use Rattle.dz_member.specs.declared.listing.Node.{Node};
    ghost use Rattle.dz_member.specs.inner.Places.{IsPlaced};

    ghost Value = { List Node };

    ghost view = { λ l. l.nodes.items };

    ghost invariant = { λ l. IsPlaced l.nodes.items l.places.items };
}

impl Listing {
    /// The most nodes of a listing.
    pub const NODES: usize = 65_536;

    /// The listing without nodes. It takes no memory.
    pub fn empty(alloc: Global) -> Listing
        ensures { result ≡ [] }
    {
        Listing {
            nodes: Vec::new(alloc),
            places: Vec::new(alloc),
        }
    }

    /// The listing of these nodes, whose places are given in the order of their zones.
    pub(crate) fn placed(nodes: Vec<Node>, places: Vec<u32>) -> Listing
        requires listing { IsListing nodes.items }
        requires places { ArePlaces nodes.items places.items }
        ensures { result ≡ nodes.items }
    {
        Listing { nodes, places }
    }

    /// The nodes, in the order of their labels.
    pub fn nodes(&self) -> &[Node]
        ensures nodes { result.now ≡ self.now }
        ensures listing { IsListing self.now }
    {
        self.nodes.as_slice()
    }

    /// The nodes themselves, in the order of their labels.
    pub(crate) fn into_nodes(self) -> Vec<Node>
        ensures nodes { result.items ≡ self }
        ensures listing { IsListing self }
    {
        self.nodes
    }

    /// The node of the zone that is the one of this number in canonical order, from 0; none after the last.
    pub(crate) fn node_by_zone(&self, number: usize) -> Option<&Node>
        ensures { option_map (λ r. r.now) result ≡ slice_get (in_zone_order self.now) number }
    {
        node_at(&self.nodes, &self.places, number)
    }
}

/// The node at the place of a number; none after the last place.
fn node_at<'a>(nodes: &'a [Node], places: &[u32], number: usize) -> Option<&'a Node>
    requires { ArePlaces nodes.now places.now }
    ensures { option_map (λ r. r.now) result ≡ slice_get (in_zone_order nodes.now) number }
{
    if number < places.len() {
        Some(&nodes[places[number] as usize])
    } else {
        None
    }
}

/// Why a catalog's version has no listing. Where more than one holds, the first in this order counts (RFC 9432 sections
/// 4 and 5).
#[derive(Clone, Copy, Debug, PartialEq, Eq)]
pub enum Broken {
    /// There is no TXT record at `version` below the catalog's name.
    NoVersion,
    /// There is more than one.
    VersionTwice,
    /// It isn't the one character string "2".
    OtherVersion,
    /// A member node has more than one PTR.
    MemberTwice,
    /// A `coo` below a member node has more than one PTR.
    CooTwice,
    /// There are more than 65,536 member nodes.
    TooManyMembers,
    /// Two member nodes have the same zone.
    ZoneTwice,
}
