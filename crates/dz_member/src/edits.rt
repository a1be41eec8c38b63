//! Edits of a catalog's last listing: only the zones of nodes that are put in or replaced are judged.

ghost use Rattle.std.specs.Prelude.{◌≡◌, ◌<◌, ◌^◌, ◌++◌, ◌∷◌, [], false, length, map, List, Some, None, All};
ghost use Rattle.std.specs.Prelude.{IfOk, OnOk, IfSome, IsSome};
ghost use Rattle.std.specs.Option.{option_map, option_to_list, ForSome};
ghost use Rattle.std.specs.List.{list_any, list_all};
ghost use Rattle.std.specs.List.Sorted.{IsStrictlySortedBy};
ghost use Rattle.dz_name.specs.Words.{Name as NameOf};
ghost use Rattle.dz_name.specs.Name.{canonical_order, same_label};
ghost use Rattle.dz_member.specs.Edit.{edited_at, edited, AreEdits, AreFree, nodes_put, nodes_replaced};
ghost use Rattle.dz_member.specs.Fold.{number_of, listing_of, IsFold};
ghost use Rattle.dz_member.specs.Listing.{IsListing};
ghost use Rattle.dz_member.specs.Membership.{IsNumbered};
ghost use Rattle.dz_member.specs.Process.{process, changes, node_of, EachZone};
ghost use Rattle.dz_member.specs.Settled.{IsSettled};
ghost use Rattle.dz_member.specs.declared.listing.Node.{Node as NodeOf};
ghost use Rattle.dz_member.specs.declared.membership.Membership.{Membership};
ghost use Rattle.dz_member.specs.inner.Edits.{is_free, is_one, IsTouched, IsReplaced, AreAfter, IsProcessed, IsLast};
ghost use Rattle.dz_member.specs.inner.Happened.{change_of, IsConfigured};
ghost use Rattle.dz_member.specs.inner.Kept.{catalog_at};

use crate::change::{Changes, Happening};
use crate::edit::Edit;
use crate::fold::{Fold, MOST};
use crate::judge::holds;
use crate::listing::{Listing, Node};
use crate::members::Members;
use crate::nodes::Nodes;
use crate::process::{After, process_nodes};
use crate::walk::Turn;
use dz_name::{Label, Name};
use std::alloc::{AllocError, Global};
use std::sync::Arc;

/// The most edits that aren't processed as a whole listing: each is compared with each node that is put in.
const EDITS: usize = 1_024;

/// Whether the node of a label is edited.
fn is_edited(edits: &[Edit], label: &Label) -> bool
    ensures { result ≡ list_any (λ e. same_label e.label label.now) edits.now }
{
    edits.iter().any(|edit| edit.label == *label)
}

/// Whether no other node of the catalog may have the zone of a node that is put in: the zone is no member of the catalog
/// at a label that isn't edited.
fn is_free(fold: &Fold, number: u8, edits: &[Edit], node: &Node) -> bool
    requires fold { IsFold fold.now }
    requires number { number < length fold.now.config }
    ensures { result ≡ is_free fold.now (catalog_at fold.now number) edits.now node.now.zone }
{
    match fold.membership_of(&node.zone.as_ref().to_name()) {
        None => true,
        Some(member) => !holds(fold, number, member) || is_edited(edits, &member.label),
    }
}

/// The same of all nodes that are put in.
fn are_free(fold: &Fold, number: u8, edits: &[Edit], put: &[Node]) -> bool
    requires fold { IsFold fold.now }
    requires number { number < length fold.now.config }
    ensures { result ≡ list_all
        (λ n. is_free fold.now (catalog_at fold.now number) edits.now n.zone) put.now }
{
    put.iter().all(|node| is_free(fold, number, edits, node))
}

/// Adds a node, if there is one. The error is out of memory.
fn push_node(alloc: Global, nodes: &mut Vec<Node>, node: &Option<Node>) -> Result<(), AllocError>
    ensures { OnOk result (nodes.new.items ≡ nodes.old.items ++ option_to_list node.now) }
{
    if let Some(node) = node {
        nodes.push(node.try_clone(alloc)?)?;
    }
    Ok(())
}

/// Adds the zone of a node, if there is one. The error is out of memory.
fn push_zone(zones: &mut Vec<Name>, node: Option<&Node>) -> Result<(), AllocError>
    ensures { OnOk result (zones.new.items ≡ zones.old.items
        ++ option_to_list (option_map (λ n. n.zone) (option_map (λ r. r.now) node.entry))) }
{
    if let Some(node) = node {
        zones.push(node.zone.as_ref().to_name())?;
    }
    Ok(())
}

/// The nodes that edits put in. The error is out of memory.
fn nodes_put(alloc: Global, edits: &[Edit]) -> Result<Vec<Node>, AllocError>
    ensures { IfOk result (λ nodes. nodes.items ≡ nodes_put edits.now) }
{
    let mut nodes = Vec::with_capacity(alloc, edits.len())?;
    'edits: for edit in edits {
        push_node(alloc, &mut nodes, &edit.node)?;
    }
    Ok(nodes)
}

/// The listing of the nodes that edits put in; none where they make none, another node may have
/// the zone of one, or there are too many edits. The
/// error is out of memory.
fn listing_put(
    alloc: Global,
    fold: &Fold,
    number: u8,
    edits: &[Edit],
) -> Result<Option<Listing>, AllocError>
    requires fold { IsFold fold.now }
    requires number { number < length fold.now.config }
    ensures is { IfOk result (λ o. IfSome o (λ put. put ≡ nodes_put edits.now)) }
    ensures listing { IfOk result (λ o. IfSome o IsListing) }
    ensures free { IfOk result
        (λ o. IfSome o (λ _. AreFree fold.now (catalog_at fold.now number) edits.now)) }
{
    if edits.len() > EDITS {
        return Ok(None);
    }
    let nodes = nodes_put(alloc, edits)?;
    match Listing::try_from_vec(alloc, nodes)? {
        None => Ok(None),
        Some(put) => {
            if are_free(fold, number, edits, put.nodes()) {
                Ok(Some(put))
            } else {
                Ok(None)
            }
        }
    }
}

/// The zones of nodes that are put in. The error is out of memory.
fn zones_put(alloc: Global, put: &[Node]) -> Result<Vec<Name>, AllocError>
    ensures { IfOk result (λ zones. zones.items ≡ map (λ n. n.zone) put.now) }
{
    let mut zones = Vec::with_capacity(alloc, put.len())?;
    'nodes: for node in put {
        zones.push(node.zone.as_ref().to_name())?;
    }
    Ok(zones)
}

/// The zones of nodes that are put in, and of those at the labels of edits. The error is out of memory.
fn zones_touched(
    alloc: Global,
    nodes: &Nodes,
    edits: &[Edit],
    put: &Listing,
) -> Result<Vec<Name>, AllocError>
    ensures { IfOk result (λ zones. zones.items ≡ map (λ n. n.zone) put.now
        ++ map (λ n. n.zone) (nodes_replaced nodes.now edits.now)) }
{
    let mut zones = zones_put(alloc, put.nodes())?;
    'edits: for edit in edits {
        push_zone(&mut zones, nodes.find(&edit.label))?;
    }
    Ok(zones)
}

/// These memberships with that of a zone, if it is a member. The error is out of memory.
fn with_zone(
    alloc: Global,
    fold: &Fold,
    touched: Members,
    zone: &Name,
) -> Result<Members, AllocError>
    requires fold { IsFold fold.now }
    ensures { (zones : List NameOf) → IsTouched fold.now zones touched
        → IfOk result (IsTouched fold.now (zones ++ zone.now ∷ [])) }
{
    match fold.membership_of(zone) {
        None => Ok(touched),
        Some(member) => touched.with(alloc, member.try_clone()?),
    }
}

/// The memberships of these zones. The error is out of memory.
fn members_touched(alloc: Global, fold: &Fold, zones: &[Name]) -> Result<Members, AllocError>
    requires fold { IsFold fold.now }
    ensures { IfOk result (IsTouched fold.now zones.now) }
{
    let mut touched = Members::empty(alloc);
    'zones: for zone in zones {
        touched = with_zone(alloc, fold, touched, zone)?;
    }
    Ok(touched)
}

/// The members with that of a zone as it is among others. The error is out of memory.
fn replaced_at(
    alloc: Global,
    members: &Members,
    zone: &Name,
    others: &Members,
) -> Result<Members, AllocError>
    ensures { (before : List Membership) (zones : List NameOf)
        → IsReplaced before others.now zones members.now
        → IfOk result (IsReplaced before others.now (zones ++ zone.now ∷ [])) }
{
    match others.find(zone) {
        None => members.without(alloc, zone),
        Some(member) => members.with(alloc, member.try_clone()?),
    }
}

/// The members with those of these zones as they are among others. The error is out of memory.
fn replaced(
    alloc: Global,
    members: &Arc<Members>,
    zones: &[Name],
    others: &Members,
) -> Result<Arc<Members>, AllocError>
    requires order { IsStrictlySortedBy canonical_order (map (λ m. m.zone) members.now.value) }
    ensures { IfOk result (λ r. IsReplaced members.now.value others.now zones.now r.value) }
{
    let mut replaced = Arc::try_clone(members)?;
    'zones: for zone in zones {
        let next = replaced_at(alloc, &*replaced, zone, others)?;
        replaced = Arc::new(alloc, next)?;
    }
    Ok(replaced)
}

/// The nodes after one edit. The error is out of memory.
fn edited_at(alloc: Global, nodes: &Nodes, edit: Edit) -> Result<Nodes, AllocError>
    requires { ForSome edit.node (λ n. n.label ≡ edit.label) }
    ensures { IfOk result (λ r. r ≡ edited_at nodes.now edit) }
{
    let _ = nodes.len();
    match edit.node {
        None => nodes.without(alloc, &edit.label),
        Some(node) => nodes.with(alloc, node),
    }
}

/// The nodes after edits. The error is out of memory.
fn edited(alloc: Global, nodes: &Arc<Nodes>, edits: Vec<Edit>) -> Result<Arc<Nodes>, AllocError>
    requires { All (λ e. ForSome e.node (λ n. n.label ≡ e.label)) edits.items }
    ensures { IfOk result (λ r. r.value ≡ edited nodes.now.value edits.items) }
{
    let mut edited = Arc::try_clone(nodes)?;
    'edits: for edit in edits {
        let next = edited_at(alloc, &*edited, edit)?;
        edited = Arc::new(alloc, next)?;
    }
    Ok(edited)
}

impl Fold {
    /// The members and the changes where these zones alone are judged, of which these nodes are put in. The error is out
    /// of memory.
    fn members_after(
        &self,
        alloc: Global,
        turn: Turn,
        zones: &[Name],
        put: &Listing,
    ) -> Result<(Arc<Members>, Vec<Happening>), AllocError>
        requires fold { IsFold self.now }
        requires number { turn.number < length self.now.config }
        requires zones { (zone : NameOf) → is_one zones.now zone ≡ false → node_of zone put.now ≡ None }
        ensures are { IfOk result (λ r. AreAfter self.now (catalog_at self.now turn.number)
            turn.position zones.now put.now r.0.value
            (map (change_of self.now.config) r.1.items)) }
        ensures numbered { IfOk result (λ r. All (IsNumbered self.now.config) r.0.value) }
        ensures few { IfOk result (λ r. length r.0.value < 2 ^ 63) }
        ensures configured { IfOk result
            (λ r. All (λ h. IsConfigured self.now.config h.what) r.1.items) }
    {
        let touched = members_touched(alloc, self, zones)?;
        let narrowed = self.narrowed(alloc, touched)?;
        let processed = process_nodes(alloc, &narrowed, turn, put)?;
        let others = Members::from_shared(alloc, processed.members)?;
        let members = replaced(alloc, self.shared_members(), zones, &others)?;
        if members.len() > MOST {
            return Err(AllocError);
        }
        Ok((members, processed.changes))
    }

    /// The same as [`Fold::process_edits`], of the nodes of a settled catalog.
    fn process_few(
        &self,
        alloc: Global,
        turn: Turn,
        nodes: &Arc<Nodes>,
        edits: Vec<Edit>,
    ) -> Result<Option<(Fold, Changes)>, AllocError>
        requires fold { IsFold self.now }
        requires number { turn.number < length self.now.config }
        requires listing { IsListing nodes.now.value }
        requires settled { IsSettled self.now (catalog_at self.now turn.number) nodes.now.value }
        requires edits { AreEdits edits.items }
        ensures { IfOk result (λ o. IfSome o (λ r. IsProcessed self.now
            (catalog_at self.now turn.number) (edited nodes.now.value edits.items) turn.position
            r.0 r.1)) }
    {
        let put = match listing_put(alloc, self, turn.number, &edits)? {
            None => return Ok(None),
            Some(put) => put,
        };
        let zones = zones_touched(alloc, &**nodes, &edits, &put)?;
        let nodes = edited(alloc, nodes, edits)?;
        if nodes.len() > Listing::NODES {
            return Ok(None);
        }
        let (members, changes) = self.members_after(alloc, turn, &zones, &put)?;
        let after = After {
            members,
            changes,
            nodes,
        };
        let processed = self.with(alloc, turn, after)?;
        Ok(Some(processed))
    }

    /// The nodes of the last listing of a catalog that is marked as settled.
    fn settled_nodes(&self, number: u8) -> Option<&Arc<Nodes>>
        requires { number < length self.now.config }
        ensures { IfSome result (λ r. IsLast self.now (catalog_at self.now number) r.now.value) }
    {
        let settled = self.settled.as_slice();
        if settled[number as usize] {
            self.shared_nodes(number as usize)
        } else {
            None
        }
    }

    /// The fold after some edits of the last listing of a configured catalog, and what happened: as after
    /// [`Fold::process`] of the edited listing, but only the zones of nodes that are put in or replaced are judged. None
    /// where the whole listing has to be processed: this catalog isn't marked as settled (it had a clash, or a member has
    /// moved away since), the edited nodes make no listing, a zone may be at another label too, or there are more than
    /// 1,024 edits. The contract doesn't say when it is None.
    ///
    /// # Errors
    ///
    /// `AllocError` where there is no memory for the new fold.
    pub fn process_edits(
        &self,
        alloc: Global,
        catalog: &Name,
        edits: Vec<Edit>,
        position: u64,
    ) -> Result<Option<(Fold, Changes)>, AllocError>
        requires catalog { IsSome (number_of self.now.config catalog.now) }
        requires edits { AreEdits edits.items }
        ensures listing { (nodes : List NodeOf) → listing_of self.now catalog.now ≡ Some nodes
            → IfOk result (λ o. IfSome o (λ _. IsListing (edited nodes edits.items))) }
        ensures fold { (nodes : List NodeOf) → listing_of self.now catalog.now ≡ Some nodes
            → IfOk result (λ o. IfSome o (λ r. r.0
            ≡ process self.now catalog.now (edited nodes edits.items) position)) }
        ensures changes { (nodes : List NodeOf) → listing_of self.now catalog.now ≡ Some nodes
            → IfOk result (λ o. IfSome o (λ r. r.1
            ≡ changes self.now catalog.now (edited nodes edits.items) position)) }
        ensures each { (nodes : List NodeOf) → listing_of self.now catalog.now ≡ Some nodes
            → IfOk result (λ o. IfSome o (λ r. EachZone self.now catalog.now
            (edited nodes edits.items) position r.0 r.1)) }
    {
        let number = self.configured_number(catalog);
        let turn = Turn { number, position };
        match self.settled_nodes(number) {
            None => Ok(None),
            Some(nodes) => self.process_few(alloc, turn, nodes, edits),
        }
    }
}
