//! Nodes of a catalog that come one after another, and are judged without the catalog being made.

ghost use Rattle.std.specs.Prelude.{◌≡◌, ℕ, ◌+◌, ◌++◌, ◌<◌, ◌^◌, [], ◌∷◌, ◌||◌, not, nat_lt, List, IfOk, OnOk};
ghost use Rattle.std.specs.List.{All, AllByRecursion, list_any};
ghost use Rattle.std.specs.Option.{ForSome, option_copied};
ghost use Rattle.dz_name.specs.Name.{IsName, same_label, same_name};
ghost use Rattle.dz_member.specs.declared.listing.Node.{Node};
ghost use Rattle.dz_producer.specs.Draft.{IsDraft, IsHeld, Judges, saturated, node_size};
ghost use Rattle.dz_producer.specs.inner.Sizes.{pointer_octets, text_octets};

use crate::refused::{COO, FIXED_RECORDS, GROUP, ZONES, has_bad_group, is_node_long, record_count};
use dz_member::{Listing, Node};
use dz_name::dns::ZONE_RECORDS;
use dz_name::{KeptName, Label, Name, Octets};
use std::alloc::{AllocError, Global};
use std::collections::BTreeSet;

/// Type, class, TTL and length of RDATA of a record, in octets.
const FIXED_OCTETS: usize = 10;

/// What is told of nodes and one more.
#[derive(Clone, Copy, Debug, PartialEq, Eq)]
pub enum Verdict {
    /// They have no fault, whatever the serial.
    Fine,
    /// They have a fault, whatever the serial.
    Faulty,
    /// They have so many octets that only making the catalog can tell.
    Unsure,
}

/// What is kept of nodes: their labels and zones, and how many nodes, records and octets there are.
#[derive(Drop)]
pub struct Draft {
    labels: BTreeSet<Label>,
    zones: BTreeSet<Name>,
    nodes: usize,
    records: usize,
    octets: usize,
}

impl Draft {
    /// The octets that the nodes' records may have without a stream passing its limit. There are at most 4,096 octets
    /// of other records, and less than a thousandth more of headers, since each message but the last has at least
    /// 15,000 octets of records.
    pub const SURE: usize = 66_990_000;

    /// No nodes, and this many octets of other records.
    pub fn new(alloc: Global, octets: usize) -> Draft
        ensures draft { IsDraft [] result }
        ensures octets { result.octets ≡ octets }
    {
        Draft {
            labels: BTreeSet::new(alloc),
            zones: BTreeSet::new(alloc),
            nodes: 0,
            records: FIXED_RECORDS,
            octets,
        }
    }

    /// Puts a node beside the others, without a judgement and without its octets: whether none of them has its label
    /// and none its zone.
    pub fn put(&mut self, node: &Node) -> Result<bool, AllocError>
        ensures draft { OnOk result ((nodes : List Node) → IsDraft nodes self.old
            → IsDraft (nodes ++ node.now ∷ []) self.new) }
        ensures alone { IfOk result (λ alone. (nodes : List Node) → IsDraft nodes self.old
            → alone ≡ not (list_any (λ n. same_label n.label node.now.label) nodes
            || list_any (λ n. same_name n.zone node.now.zone) nodes)) }
        ensures octets { OnOk result (self.new.octets ≡ self.old.octets) }
    {
        let label = self.labels.insert(node.label)?;
        let zone = self.zones.insert(node.zone.as_ref().to_name())?;
        self.nodes = self.nodes.saturating_add(1);
        self.records = self.records.saturating_add(record_count(node));
        Ok(label && zone)
    }

    /// Counts the octets of a node.
    pub fn spend(&mut self, apex: &Name, node: &Node)
        ensures held { IsHeld node.now }
        ensures draft { (nodes : List Node) → IsDraft nodes self.old → IsDraft nodes self.new }
        ensures octets { self.new.octets
            ≡ saturated (self.old.octets + node_size apex.now node.now) }
    {
        self.octets = self.octets.saturating_add(node_octets(apex, node));
    }

    /// Adds a node, and judges it with the others, which have no fault. Where it is faulty, the draft is of no more
    /// use.
    pub fn add(&mut self, alloc: Global, apex: &Name, node: &Node) -> Result<Verdict, AllocError>
        ensures { IfOk result (λ verdict. Judges verdict apex.now node.now self.old self.new) }
    {
        if has_bad_group(alloc, node)? || is_node_long(apex, node) {
            return Ok(Verdict::Faulty);
        }
        if !self.put(node)? || self.is_full() {
            return Ok(Verdict::Faulty);
        }
        self.spend(apex, node);
        if self.octets <= Draft::SURE {
            Ok(Verdict::Fine)
        } else {
            Ok(Verdict::Unsure)
        }
    }

    /// Whether there are too many nodes or records.
    fn is_full(&self) -> bool
        ensures { result ≡ (nat_lt 65536 self.now.nodes || nat_lt 250000 self.now.records) }
    {
        Listing::NODES < self.nodes || ZONE_RECORDS < self.records
    }
}

/// How many octets the records of a node have.
pub fn node_octets(apex: &Name, node: &Node) -> usize
    ensures octets { result ≡ saturated (node_size apex.now node.now) }
    ensures held { IsHeld node.now }
{
    let owner = apex.wire().len() + ZONES + 1 + node.label.octets().len();
    let pointers = pointer_octets(owner, &node.zone, node.coo.as_ref());
    text_octets(pointers, owner, node.groups.as_slice())
}

/// How many octets the PTR records of a node have.
fn pointer_octets(owner: usize, zone: &KeptName, coo: Option<&KeptName>) -> usize
    requires { owner < 2 ^ 32 }
    ensures octets { result ≡ pointer_octets owner zone.now (option_copied coo.entry) }
    ensures small { result < 2 ^ 62 }
    ensures zone { IsName zone.now }
    ensures coo { ForSome (option_copied coo.entry) IsName }
{
    let member = owner + FIXED_OCTETS + zone.as_ref().wire().len();
    match coo {
        None => member,
        Some(catalog) => member + (owner + COO + FIXED_OCTETS + catalog.as_ref().wire().len()),
    }
}

/// How many octets there are with those of a node's TXT records.
fn text_octets(pointers: usize, owner: usize, texts: &[Octets]) -> usize
    requires { owner < 2 ^ 32 }
    ensures octets { result ≡ saturated (pointers + text_octets owner texts.now) }
    ensures below { AllByRecursion (All (λ octet. octet < 2 ^ 8)) texts.now }
{
    let mut octets = pointers;
    'texts: for text in texts {
        octets = octets.saturating_add(owner + GROUP + FIXED_OCTETS + text.as_slice().len());
    }
    octets
}
