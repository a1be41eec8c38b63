//! A change of a catalog.

ghost use Rattle.std.specs.Prelude.{◌≡◌, ◌++◌, [], ◌∷◌, true, false, not, is_some, filter, IfOk, OnOk, OnErr};
ghost use Rattle.std.specs.Prelude.{if◌then◌else◌};
ghost use Rattle.std.specs.BTreeSet.{contains};
ghost use Rattle.std.specs.List.{AllByRecursion, list_any};
ghost use Rattle.dz_name.specs.Name.{label_order, same_label};
ghost use Rattle.dz_name.specs.Words.{Octets};
ghost use Rattle.dz_xfr.specs.Apex.{held_serial};
ghost use Rattle.dz_producer.specs.Amended.{IsCatalog, listed, kept, no_label, amend_fault};
ghost use Rattle.dz_serial.specs.Serial.{is_newer};
ghost use Rattle.dz_producer.specs.Draft.{IsDraft, IsHeld, saturated, spent};
ghost use Rattle.dz_produce.specs.inner.Changes.{IsKnown, LeadsTo};

use dz_catalog::{CatalogError, read_listing};
use dz_member::{Listing, Node};
use dz_name::{Label, Name};
use dz_producer::{AmendError, Amended, Draft, amend, node_octets};
use dz_zone::Version;
use std::alloc::{AllocError, Global};
use std::collections::BTreeSet;
use std::marker::Model;

/// A catalog before a change, and the labels of its nodes that are dropped.
#[derive(Drop)]
pub(crate) struct Change {
    version: Version,
    /// The nodes of the catalog before, and the labels of those that stay.
    listing: Listing,
    left: BTreeSet<Label>,
    /// How many octets the records of these nodes have.
    octets: usize,
    dropped: Vec<Label>,
}

impl Model for Change {
    ghost use Rattle.std.specs.BTreeSet.{contains};
    ghost use Rattle.dz_name.specs.Name.{label_order};
    ghost use Rattle.dz_produce.specs.inner.Changes.{Changing, IsChange};

    ghost Value = { Changing };

    ghost view = { λ c. record { zone = c.version; dropped = c.dropped.items } };

    ghost invariant = { λ c. IsChange c.version c.listing (contains label_order c.left) c.octets
        c.dropped.items };
}

impl Change {
    /// A change that drops nothing yet.
    pub(crate) fn new(alloc: Global, version: Version) -> Result<Change, AllocError>
        requires { IsCatalog version }
        ensures { IfOk result (λ c. c ≡ record { zone = version; dropped = [] }) }
    {
        let listing = listing_of(alloc, &version)?;
        let left = labels_of(alloc, listing.nodes())?;
        let octets = octets_of(&version.apex().to_name(), listing.nodes());
        Ok(Change {
            version,
            listing,
            left,
            octets,
            dropped: Vec::new(alloc),
        })
    }

    /// Whether the change has no fault with this serial, which is newer, and nothing added.
    pub(crate) fn is_faultless(&self, alloc: Global, serial: u32) -> Result<bool, AllocError>
        requires newer { is_newer (held_serial self.now.zone) serial ≡ true }
        requires labels { no_label self.now.zone self.now.dropped ≡ false }
        ensures good { IfOk result (λ good. good
            ≡ not (is_some (amend_fault self.now.zone serial self.now.dropped []))) }
        ensures known { IsKnown self.now.zone }
    {
        if self.octets <= Draft::SURE {
            return Ok(true);
        }
        let amended = self.amended(alloc, serial, &[])?;
        Ok(amended.is_some())
    }

    /// Whether the change has no fault with one label more.
    fn is_faultless_without(
        &self,
        alloc: Global,
        serial: u32,
        label: Label,
    ) -> Result<bool, AllocError>
        requires newer { is_newer (held_serial self.now.zone) serial ≡ true }
        requires labels { no_label self.now.zone self.now.dropped ≡ false }
        ensures { IfOk result (λ good. good ≡ not (is_some
            (amend_fault self.now.zone serial (self.now.dropped ++ label ∷ []) []))) }
    {
        if !self.left.contains(&label) {
            return Ok(false);
        }
        if self.octets <= Draft::SURE {
            return Ok(true);
        }
        let mut dropped = Vec::from_slice(alloc, self.dropped.as_slice())?;
        dropped.push(label)?;
        let amended = amended(alloc, &self.version, serial, dropped.as_slice(), &[])?;
        Ok(amended.is_some())
    }

    /// Drops the node of a label where that is no fault: whether it was dropped.
    pub(crate) fn drop_label(
        &mut self,
        alloc: Global,
        serial: u32,
        label: Label,
    ) -> Result<bool, AllocError>
        requires newer { is_newer (held_serial self.old.zone) serial ≡ true }
        requires labels { no_label self.old.zone self.old.dropped ≡ false }
        ensures good { IfOk result (λ good. good ≡ not (is_some
            (amend_fault self.old.zone serial (self.old.dropped ++ label ∷ []) []))) }
        ensures new { IfOk result (λ good. self.new ≡ (if good
            then record self.old { dropped = self.old.dropped ++ label ∷ [] } else self.old)) }
        ensures kept { OnErr result (self.new ≡ self.old) }
    {
        if !self.is_faultless_without(alloc, serial, label)? {
            return Ok(false);
        }
        self.take_out(label)?;
        Ok(true)
    }

    /// Drops the node of a label.
    fn take_out(&mut self, label: Label) -> Result<(), AllocError>
        ensures done { OnOk result (self.new
            ≡ record { zone = self.old.zone; dropped = self.old.dropped ++ label ∷ [] }) }
        ensures kept { OnErr result (self.new ≡ self.old) }
    {
        self.dropped.push(label)?;
        self.left.remove(&label);
        Ok(())
    }

    /// What comes of the change with these nodes added; none where it has a fault.
    pub(crate) fn amended(
        &self,
        alloc: Global,
        serial: u32,
        added: &[Node],
    ) -> Result<Option<Amended>, AllocError>
        ensures { IfOk result (LeadsTo self.now.zone serial self.now.dropped added.now) }
    {
        amended(alloc, &self.version, serial, self.dropped.as_slice(), added)
    }

    /// A draft of the nodes that stay, which counts the octets of all.
    pub(crate) fn draft(&self, alloc: Global) -> Result<Draft, AllocError>
        ensures draft { IfOk result (IsDraft (kept self.now.zone self.now.dropped)) }
        ensures octets { IfOk result (λ d. d.octets
            ≡ saturated (spent self.now.zone.apex (listed self.now.zone))) }
    {
        let mut draft = Draft::new(alloc, self.octets);
        put_left(self.listing.nodes(), &self.left, &mut draft)?;
        Ok(draft)
    }
}

/// Puts the nodes whose labels are left into a draft.
fn put_left(nodes: &[Node], left: &BTreeSet<Label>, draft: &mut Draft) -> Result<(), AllocError>
    requires { IsDraft [] draft.old }
    ensures draft { OnOk result (IsDraft
        (filter (λ n. contains label_order left.now n.label) nodes.now) draft.new) }
    ensures octets { OnOk result (draft.new.octets ≡ draft.old.octets) }
{
    'nodes: for node in nodes {
        if left.contains(&node.label) {
            draft.put(node)?;
        }
    }
    Ok(())
}

/// What comes of a change; none where it has a fault.
fn amended(
    alloc: Global,
    old: &Version,
    serial: u32,
    dropped: &[Label],
    added: &[Node],
) -> Result<Option<Amended>, AllocError>
    requires { IsCatalog old.now }
    ensures { IfOk result (LeadsTo old.now serial dropped.now added.now) }
{
    match amend(alloc, old, serial, dropped, added) {
        Ok(amended) => Ok(Some(amended)),
        Err(AmendError::Fault(_)) => Ok(None),
        Err(AmendError::OutOfMemory) => Err(AllocError),
    }
}

/// The listing of a catalog.
fn listing_of(alloc: Global, version: &Version) -> Result<Listing, AllocError>
    requires { IsCatalog version.now }
    ensures { IfOk result (λ nodes. nodes ≡ listed version.now) }
{
    match read_listing(alloc, version) {
        Ok(listing) => Ok(listing),
        Err(CatalogError::Broken(_)) => unreachable!(),
        Err(CatalogError::OutOfMemory) => Err(AllocError),
    }
}

/// The labels of nodes.
fn labels_of(alloc: Global, nodes: &[Node]) -> Result<BTreeSet<Label>, AllocError>
    ensures { IfOk result (λ s. (label : Octets) → contains label_order s label
        ≡ list_any (λ n. same_label n.label label) nodes.now) }
{
    let mut labels = BTreeSet::new(alloc);
    'nodes: for node in nodes {
        labels.insert(node.label)?;
    }
    Ok(labels)
}

/// How many octets the records of nodes have.
fn octets_of(apex: &Name, nodes: &[Node]) -> usize
    ensures octets { result ≡ saturated (spent apex.now nodes.now) }
    ensures held { AllByRecursion IsHeld nodes.now }
{
    let mut octets: usize = 0;
    'nodes: for node in nodes {
        octets = octets.saturating_add(node_octets(apex, node));
    }
    octets
}
