//! Catalogs that are changed.

ghost use Rattle.std.specs.Prelude.{◌≡◌, ◌==◌, ◌++◌, ◌∷◌, ℕ, [], List, false, true, filter, not, IfOk, OnOk};
ghost use Rattle.std.specs.Prelude.{MatchOption, option_map};
ghost use Rattle.std.specs.List.{All, find, list_any, list_all};
ghost use Rattle.std.specs.BTreeSet.{contains};
ghost use Rattle.dz_name.specs.Name.{label_order, same_label};
ghost use Rattle.dz_name.specs.Words.{Name, Octets};
ghost use Rattle.dz_serial.specs.Serial.{is_newer};
ghost use Rattle.dz_message.specs.Frame.{stream};
ghost use Rattle.dz_message.specs.Piece.{FitsAlone, packed, written};
ghost use Rattle.dz_xfr.specs.Apex.{held_serial};
ghost use Rattle.dz_settings.specs.Twice.{has_twice};
ghost use Rattle.dz_member.specs.declared.listing.Node.{Node};
ghost use Rattle.dz_producer.specs.Amended.{IsCatalog, IsCatalogOf, listed, is_listed, no_label, gone, kept};
ghost use Rattle.dz_producer.specs.Amended.{digest_of, question_of};
ghost use Rattle.dz_producer.specs.Answers.{IsAmended};
ghost use Rattle.dz_producer.specs.Faults.{has_bad_group, is_long};
ghost use Rattle.dz_producer.specs.Produced.{produced};
ghost use Rattle.dz_producer.specs.Records.{soa, node_records};
ghost use Rattle.dz_producer.specs.inner.Changes.{half_of, spelled};
ghost use Rattle.dz_producer.specs.inner.Nodes.{values};

use crate::fault::{AmendError, AmendFault, ProduceError};
use crate::produced::{produce_of, put_nodes, references};
use dz_catalog::{CatalogError, read_listing};
use dz_header::Question;
use dz_member::{Listing, Node};
use dz_message::pack;
use dz_name::dns::{CLASS_IN, TRANSFER_OCTETS, TYPE_IXFR, TYPE_ZONEMD};
use dz_name::{Label, Octets};
use dz_record::Rr;
use dz_serial::newer;
use dz_xfr::held_serial;
use dz_zone::Version;
use std::alloc::{AllocError, Global};
use std::collections::BTreeSet;

/// A catalog that was changed, and the stream of the difference that leads to it, with ID 0.
#[derive(Debug, Drop)]
pub struct Amended {
    pub version: Version,
    /// The messages of an IXFR, each after its length in two octets (RFC 1995 section 4).
    pub octets: Octets,
}

/// A change: the labels that are dropped, and the nodes that go, those that stay, and those that come.
#[derive(Drop)]
struct Change<'a> {
    dropped: &'a [Label],
    gone: Vec<&'a Node>,
    kept: Vec<&'a Node>,
    added: Vec<&'a Node>,
}

/// A catalog without some nodes and with others, under another serial, and the difference that leads to it (RFC 1995
/// section 4). The records of the dropped nodes and the old digest go, those of the added nodes and the new digest
/// come.
///
/// # Errors
///
/// The first fault that holds, or out of memory.
pub fn amend(
    alloc: Global,
    old: &Version,
    serial: u32,
    dropped: &[Label],
    added: &[Node],
) -> Result<Amended, AmendError>
    requires { IsCatalog old.now }
    ensures made { IsAmended old.now serial dropped.now added.now result }
    ensures catalog { IfOk result (λ amended. IsCatalogOf serial amended.version) }
{
    if !newer(held_serial(old), serial) {
        return Err(AmendError::Fault(AmendFault::OldSerial));
    }
    let listing = listing_of(alloc, old)?;
    let Some(labels) = labels_of(alloc, dropped)? else {
        return Err(AmendError::Fault(AmendFault::NoLabel));
    };
    if !are_listed(alloc, listing.nodes(), dropped)? {
        return Err(AmendError::Fault(AmendFault::NoLabel));
    }
    let (gone, kept) = parted(alloc, listing.nodes(), &labels)?;
    let added = references(alloc, added)?;
    make(
        alloc,
        old,
        serial,
        &Change {
            dropped,
            gone,
            kept,
            added,
        },
    )
}

/// The listing of a catalog, which isn't broken.
fn listing_of(alloc: Global, old: &Version) -> Result<Listing, AllocError>
    requires { IsCatalog old.now }
    ensures { IfOk result (λ l. l ≡ listed old.now) }
{
    match read_listing(alloc, old) {
        Ok(listing) => Ok(listing),
        Err(CatalogError::Broken(_)) => unreachable!(),
        Err(CatalogError::OutOfMemory) => Err(AllocError),
    }
}

/// The set of labels; none where one is there twice.
fn labels_of(alloc: Global, dropped: &[Label]) -> Result<Option<BTreeSet<Label>>, AllocError>
    ensures { IfOk result (λ found. MatchOption found
        (has_twice same_label dropped.now ≡ true)
        (λ labels. (has_twice same_label dropped.now ≡ false) × ((label : Octets)
        → contains label_order labels label ≡ list_any (same_label label) dropped.now))) }
{
    let mut labels = BTreeSet::new(alloc);
    'labels: for label in dropped {
        if !labels.insert(*label)? {
            return Ok(None);
        }
    }
    Ok(Some(labels))
}

/// The set of the labels of nodes.
fn labels_in(alloc: Global, nodes: &[Node]) -> Result<BTreeSet<Label>, AllocError>
    ensures { IfOk result (λ labels. (label : Octets) → contains label_order labels label
        ≡ list_any (λ node. same_label node.label label) nodes.now) }
{
    let mut labels = BTreeSet::new(alloc);
    'nodes: for node in nodes {
        labels.insert(node.label)?;
    }
    Ok(labels)
}

/// Whether each of the labels is that of a node.
fn are_listed(alloc: Global, nodes: &[Node], dropped: &[Label]) -> Result<bool, AllocError>
    ensures { IfOk result (λ all. all
        ≡ list_all (λ label. list_any (λ node. same_label node.label label) nodes.now)
        dropped.now) }
{
    let labels = labels_in(alloc, nodes)?;
    Ok(dropped.iter().all(|label| labels.contains(label)))
}

/// The nodes whose labels are in a set, and the others.
fn parted<'a>(
    alloc: Global,
    nodes: &'a [Node],
    labels: &BTreeSet<Label>,
) -> Result<(Vec<&'a Node>, Vec<&'a Node>), AllocError>
    ensures { IfOk result (λ parts. (values parts.0.items
        ≡ filter (λ node. contains label_order labels.now node.label) nodes.now)
        × (values parts.1.items
        ≡ filter (λ node. not (contains label_order labels.now node.label)) nodes.now)) }
{
    let mut gone = Vec::new(alloc);
    let mut kept = Vec::with_capacity(alloc, nodes.len())?;
    'nodes: for node in nodes {
        if labels.contains(&node.label) {
            gone.push(node)?;
        } else {
            kept.push(node)?;
        }
    }
    Ok((gone, kept))
}

/// Nodes, and others after them.
fn joined<'a>(
    alloc: Global,
    nodes: &[&'a Node],
    more: &[&'a Node],
) -> Result<Vec<&'a Node>, AllocError>
    ensures { IfOk result (λ all. values all.items ≡ values nodes.now ++ values more.now) }
{
    let mut all = Vec::with_capacity(alloc, nodes.len())?;
    all.extend_from_slice(nodes)?;
    all.extend_from_slice(more)?;
    Ok(all)
}

/// The catalog after a change, and the difference.
fn make(alloc: Global, old: &Version, serial: u32, change: &Change) -> Result<Amended, AmendError>
    requires catalog { IsCatalog old.now }
    requires newer { is_newer (held_serial old.now) serial ≡ true }
    requires labels { no_label old.now change.now.dropped.now ≡ false }
    requires gone { values change.now.gone.items ≡ gone old.now change.now.dropped.now }
    requires kept { values change.now.kept.items ≡ kept old.now change.now.dropped.now }
    ensures made { IsAmended old.now serial change.now.dropped.now
        (values change.now.added.items) result }
    ensures catalog { IfOk result (λ amended. IsCatalogOf serial amended.version) }
{
    let Change {
        gone,
        kept,
        added,
        ..
    } = change;
    let nodes = joined(alloc, kept.as_slice(), added.as_slice())?;
    let version = match produce_of(alloc, &old.apex().to_name(), serial, nodes.as_slice()) {
        Ok(version) => version,
        Err(ProduceError::OutOfMemory) => return Err(AmendError::OutOfMemory),
        Err(ProduceError::Fault(fault)) => {
            return Err(AmendError::Fault(AmendFault::Produce(fault)));
        }
    };
    let records = difference(alloc, old, &version, gone.as_slice(), added.as_slice())?;
    let octets = stream_of(alloc, old, records.as_slice())?;
    if TRANSFER_OCTETS < octets.as_slice().len() {
        return Err(AmendError::Fault(AmendFault::TooLong));
    }
    Ok(Amended { version, octets })
}

/// The records of a difference: new SOA, old SOA, what goes, new SOA, what comes, new SOA (RFC 1995 section 4).
fn difference(
    alloc: Global,
    old: &Version,
    new: &Version,
    gone: &[&Node],
    added: &[&Node],
) -> Result<Vec<Rr>, AllocError>
    requires old { IsCatalog old.now }
    requires gone_groups { list_any (λ b. has_bad_group b.now) gone.now ≡ false }
    requires gone_short { list_any (λ b. list_any (λ r. is_long r.owner)
        (node_records old.now.apex b.now)) gone.now ≡ false }
    requires added_groups { list_any (λ b. has_bad_group b.now) added.now ≡ false }
    requires added_short { list_any (λ b. list_any (λ r. is_long r.owner)
        (node_records old.now.apex b.now)) added.now ≡ false }
    requires new { (serial : ℕ) × (nodes : List Node)
        × (new.now ≡ produced old.now.apex serial nodes) }
    ensures { (serial : ℕ) (nodes : List Node) → new.now ≡ produced old.now.apex serial nodes
        → IfOk result (λ v. v.items
        ≡ spelled old.now serial nodes (values gone.now) (values added.now)) }
{
    let mut records = Vec::new(alloc);
    put_soa(new, &mut records)?;
    put_soa(old, &mut records)?;
    put_half(alloc, old, gone, &mut records)?;
    put_soa(new, &mut records)?;
    put_half(alloc, new, added, &mut records)?;
    put_soa(new, &mut records)?;
    Ok(records)
}

/// Puts the SOA of a catalog after other records.
fn put_soa(catalog: &Version, out: &mut Vec<Rr>) -> Result<(), AllocError>
    ensures { (apex : Name) (serial : ℕ) (nodes : List Node)
        → catalog.now ≡ produced apex serial nodes
        → OnOk result (out.new.items ≡ out.old.items ++ soa apex serial ∷ []) }
{
    out.push(catalog.apex_soa().share()?)?;
    Ok(())
}

/// Puts the records of some nodes of a catalog, and its digest, after other records.
fn put_half(
    alloc: Global,
    catalog: &Version,
    nodes: &[&Node],
    out: &mut Vec<Rr>,
) -> Result<(), AllocError>
    requires made { (apex : Name) × (serial : ℕ) × (all : List Node)
        × (catalog.now ≡ produced apex serial all) }
    requires groups { list_any (λ b. has_bad_group b.now) nodes.now ≡ false }
    requires short { list_any (λ b. list_any (λ r. is_long r.owner)
        (node_records catalog.now.apex b.now)) nodes.now ≡ false }
    ensures { (apex : Name) (serial : ℕ) (all : List Node)
        → catalog.now ≡ produced apex serial all
        → OnOk result (out.new.items ≡ out.old.items
        ++ half_of apex serial all (values nodes.now)) }
{
    put_nodes(alloc, &catalog.apex().to_name(), nodes, out)?;
    out.push(digest_in(catalog).share()?)?;
    Ok(())
}

/// The digest of a catalog.
fn digest_in(catalog: &Version) -> &Rr
    requires { (apex : Name) × (serial : ℕ) × (nodes : List Node)
        × (catalog.now ≡ produced apex serial nodes) }
    ensures { (apex : Name) (serial : ℕ) (nodes : List Node)
        → catalog.now ≡ produced apex serial nodes
        → result.now ≡ digest_of apex serial nodes }
{
    match first_digest(catalog.records()) {
        Some(digest) => digest,
        None => unreachable!(),
    }
}

/// The first ZONEMD record.
fn first_digest(records: &[Rr]) -> Option<&Rr>
    ensures { option_map (λ r. r.now) result ≡ find (λ r. r.kind == TYPE_ZONEMD) records.now }
{
    records.iter().find(|rr| rr.kind() == TYPE_ZONEMD)
}

/// The stream of a difference, with ID 0.
fn stream_of(alloc: Global, old: &Version, records: &[Rr]) -> Result<Octets, AllocError>
    requires { All FitsAlone records.now }
    ensures { IfOk result (λ octets. octets
        ≡ stream (written (packed 0 (question_of old.now ∷ []) [] records.now))) }
{
    let question = Question {
        name: old.apex().to_name(),
        kind: TYPE_IXFR,
        class: CLASS_IN,
    };
    pack(alloc, 0, &question, records)
}
