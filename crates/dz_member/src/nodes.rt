//! The nodes of a listing as folds share them.

ghost use Rattle.std.specs.Prelude.{◌≡◌, [], length, map, IfOk, option_map, Some, None, if◌then◌else◌};
ghost use Rattle.std.specs.List.{find};
ghost use Rattle.std.specs.List.Sorted.{IsStrictlySortedBy};
ghost use Rattle.dz_name.specs.Words.{Octets};
ghost use Rattle.dz_name.specs.Name.{label_order, same_label};
ghost use Rattle.dz_member.specs.inner.Nodes.{entries_of};

use crate::listing::{Listing, Node};
use dz_chunks::{Entry, Ranked};
use dz_keys::LabelKey;
use dz_name::Label;
use std::alloc::{AllocError, Global};
use std::marker::Model;

/// Nodes in the order of their labels, one at most for each label. Others that are made from them share all that is the
/// same.
#[derive(Drop)]
pub(crate) struct Nodes {
    entries: Ranked<LabelKey, Node>,
}

impl Model for Nodes {
    ghost use Rattle.std.specs.Prelude.{List};
    ghost use Rattle.dz_member.specs.declared.listing.Node.{Node};
    ghost use Rattle.dz_member.specs.inner.Nodes.{nodes_of, AreNodes};

    ghost Value = { List Node };

    ghost view = { λ n. nodes_of n.entries };

    ghost invariant = { λ n. AreNodes n.entries };
}

impl Nodes {
    /// The nodes of a listing. The error is out of memory.
    pub(crate) fn from_listing(alloc: Global, listing: Listing) -> Result<Nodes, AllocError>
        ensures { IfOk result (λ nodes. nodes ≡ listing) }
    {
        let entries = entries_of(alloc, listing.into_nodes())?;
        let entries = Ranked::from_entries(alloc, entries)?;
        Ok(Nodes { entries })
    }

    /// How many there are.
    pub(crate) fn len(&self) -> usize
        ensures count { result ≡ length self.now }
        ensures order { IsStrictlySortedBy label_order (map (λ n. n.label) self.now) }
    {
        self.entries.len()
    }

    /// The node of a label.
    pub(crate) fn find(&self, label: &Label) -> Option<&Node>
        ensures { option_map (λ r. r.now) result
            ≡ find (λ n. same_label n.label label.now) self.now }
    {
        self.entries.find(&LabelKey::of(label))
    }

    /// The nodes with one at its label, in place of the one that is there. The error is out of memory.
    pub(crate) fn with(&self, alloc: Global, node: Node) -> Result<Nodes, AllocError>
        ensures order { IfOk result
            (λ changed. IsStrictlySortedBy label_order (map (λ n. n.label) changed)) }
        ensures each { IfOk result (λ changed. (label : Octets)
            → find (λ n. same_label n.label label) changed ≡ (if same_label node.label label
            then Some node else find (λ n. same_label n.label label) self.now)) }
    {
        let entries = self.entries.put(alloc, node)?;
        Ok(Nodes { entries })
    }

    /// The nodes without that of a label. The error is out of memory.
    pub(crate) fn without(&self, alloc: Global, label: &Label) -> Result<Nodes, AllocError>
        ensures order { IfOk result
            (λ changed. IsStrictlySortedBy label_order (map (λ n. n.label) changed)) }
        ensures each { IfOk result (λ changed. (other : Octets)
            → find (λ n. same_label n.label other) changed ≡ (if same_label label.now other
            then None else find (λ n. same_label n.label other) self.now)) }
    {
        let entries = self.entries.remove(alloc, &LabelKey::of(label))?;
        Ok(Nodes { entries })
    }
}

/// Nodes as the entries of a map. The error is out of memory.
fn entries_of(alloc: Global, nodes: Vec<Node>) -> Result<Vec<Entry<LabelKey, Node>>, AllocError>
    ensures { IfOk result (λ entries. entries.items ≡ entries_of nodes.items) }
{
    let mut entries = Vec::with_capacity(alloc, nodes.len())?;
    'nodes: for node in nodes {
        entries.push(Entry::new(alloc, node)?)?;
    }
    Ok(entries)
}
