//! What a listing changes at one zone (RFC 9432 sections 4.3.1, 5.2 and 5.4).

ghost use Rattle.std.specs.Prelude.{◌≡◌, ℕ, ◌<◌, length, true, false, Some, None, IfOk, option_map};
ghost use Rattle.std.specs.Option.{option_map_or, option_eq, ForSome};
ghost use Rattle.std.specs.Bool.{OnTrue};
ghost use Rattle.std.specs.Str.{bytes_eq};
ghost use Rattle.std.specs.List.{list_any};
ghost use Rattle.dz_name.specs.Name.{same_name};
ghost use Rattle.dz_member.specs.Membership.{settings_at, group_at, shown, IsNumbered};
ghost use Rattle.dz_member.specs.Process.{choice_in, entered, coo_names, consents, is_catalog};
ghost use Rattle.dz_member.specs.Process.{held_here, held_elsewhere, unlisted, listed, judged};
ghost use Rattle.dz_member.specs.Fold.{IsFold, listing_of};
ghost use Rattle.dz_member.specs.declared.judge.Stands.TheVariants.{Same, Now};
ghost use Rattle.dz_member.specs.inner.Kept.{catalog_at, shown_in, held_in, judgement_of, IsJudged};

use crate::change::Happened;
use crate::fold::Fold;
use crate::groups::group_of;
use crate::listing::Node;
use crate::membership::Membership;
use crate::nodes::Nodes;
use dz_name::{KeptName, Label, Name, NameRef};
use std::alloc::{AllocError, Global};

/// The member at a zone afterwards: the same as before or none as before, no member any more, or this one.
#[derive(Drop)]
pub(crate) enum Stands {
    Same,
    Gone,
    Now(Membership),
}

/// The member at a zone afterwards, and what happened to it.
#[derive(Drop)]
pub(crate) struct Judged {
    pub(crate) stands: Stands,
    pub(crate) change: Option<Happened>,
}

/// The zone stays as it is, and this happened.
fn same(change: Option<Happened>) -> Judged
    ensures { result ≡ record { stands = Same; change = change } }
{
    Judged {
        stands: Stands::Same,
        change,
    }
}

/// The zone has this member now, and this happened.
fn now(membership: Membership, change: Happened) -> Judged
    ensures { result ≡ record { stands = Now membership; change = Some change } }
{
    Judged {
        stands: Stands::Now(membership),
        change: Some(change),
    }
}

/// The group that a node of this catalog belongs to.
fn choice(fold: &Fold, number: u8, node: &Node) -> Option<u8>
    requires fold { IsFold fold.now }
    requires number { number < length fold.now.config }
    ensures word { option_map
        (λ g. (group_at (settings_at fold.now.config number).groups g).word) result
        ≡ choice_in fold.now.config (catalog_at fold.now number) node.now }
    ensures there { ForSome result (λ g. g < length (settings_at fold.now.config number).groups) }
{
    let settings = fold.settings(number as usize);
    group_of(settings.groups.as_slice(), node.groups.as_slice())
}

/// The membership of a node whose zone begins as a member. The error is out of memory.
fn enter(fold: &Fold, number: u8, position: u64, node: &Node) -> Result<Membership, AllocError>
    requires fold { IsFold fold.now }
    requires number { number < length fold.now.config }
    ensures shown { IfOk result (λ m. shown_in fold.now m
        ≡ entered fold.now (catalog_at fold.now number) position node.now) }
    ensures numbered { IfOk result (IsNumbered fold.now.config) }
{
    Ok(Membership {
        zone: node.zone.try_clone()?,
        label: node.label,
        incarnation: position,
        catalog: number,
        group: choice(fold, number, node),
    })
}

/// The name of the catalog of a number.
fn name_of(fold: &Fold, number: u8) -> Name
    requires fold { IsFold fold.now }
    requires number { number < length fold.now.config }
    ensures { result ≡ catalog_at fold.now number }
{
    fold.settings(number as usize).name
}

/// Whether a node has a `coo`, and it names this catalog.
fn names(node: &Node, catalog: &Name) -> bool
    ensures { result ≡ option_map_or (λ coo. same_name coo catalog.now) node.now.coo false }
{
    match &node.coo {
        None => false,
        Some(coo) => coo.as_ref().same(&catalog.as_ref()),
    }
}

/// Whether the node of a label has a `coo`, and it names this catalog.
fn coo_names(nodes: &Nodes, label: &Label, catalog: &Name) -> bool
    ensures { result ≡ coo_names nodes.now label.now catalog.now }
{
    match nodes.find(label) {
        None => false,
        Some(node) => names(node, catalog),
    }
}

/// The last unbroken listing of the catalog that holds a member.
fn listing_of<'a>(fold: &'a Fold, member: &Membership) -> Option<&'a Nodes>
    requires fold { IsFold fold.now }
    requires held { IsNumbered fold.now.config member.now }
    ensures { option_map (λ r. r.now) result
        ≡ listing_of fold.now (shown_in fold.now member.now).catalog }
{
    fold.listing(member.catalog as usize)
}

/// Whether the catalog that holds a member lets this one take it over.
fn consents(fold: &Fold, catalog: &Name, member: &Membership) -> bool
    requires fold { IsFold fold.now }
    requires held { IsNumbered fold.now.config member.now }
    ensures { result ≡ consents fold.now catalog.now (shown_in fold.now member.now) }
{
    match listing_of(fold, member) {
        None => false,
        Some(nodes) => coo_names(nodes, &member.label, catalog),
    }
}

/// The member as this catalog holds it, with the group of its node there. The error is out of memory.
fn taken(
    fold: &Fold,
    number: u8,
    member: &Membership,
    node: &Node,
) -> Result<Membership, AllocError>
    requires fold { IsFold fold.now }
    requires number { number < length fold.now.config }
    ensures shown { IfOk result (λ m. shown_in fold.now m ≡ record (shown_in fold.now member.now) {
      catalog = catalog_at fold.now number;
      choice = choice_in fold.now.config (catalog_at fold.now number) node.now;
    }) }
    ensures numbered { IfOk result (IsNumbered fold.now.config) }
{
    Ok(Membership {
        zone: member.zone.try_clone()?,
        label: member.label,
        incarnation: member.incarnation,
        catalog: number,
        group: choice(fold, number, node),
    })
}

/// Whether a member of this catalog belongs to the group of its node.
fn chooses_alike(fold: &Fold, number: u8, member: &Membership, node: &Node) -> bool
    requires fold { IsFold fold.now }
    requires number { number < length fold.now.config }
    requires held { IsNumbered fold.now.config member.now }
    requires here { member.now.catalog ≡ number }
    ensures { result ≡ option_eq bytes_eq (shown_in fold.now member.now).choice
        (choice_in fold.now.config (catalog_at fold.now number) node.now) }
{
    member.group == choice(fold, number, node)
}

/// Whether a catalog holds a member.
pub(crate) fn holds(fold: &Fold, number: u8, member: &Membership) -> bool
    requires fold { IsFold fold.now }
    requires number { number < length fold.now.config }
    requires held { IsNumbered fold.now.config member.now }
    ensures is { result
        ≡ same_name (shown_in fold.now member.now).catalog (catalog_at fold.now number) }
    ensures number { OnTrue result (member.now.catalog ≡ number) }
{
    member.catalog == number
}

/// A zone that its own catalog lists. The error is out of memory.
fn held_here(
    fold: &Fold,
    number: u8,
    position: u64,
    member: &Membership,
    node: &Node,
) -> Result<Judged, AllocError>
    requires fold { IsFold fold.now }
    requires number { number < length fold.now.config }
    requires held { IsNumbered fold.now.config member.now }
    requires here { member.now.catalog ≡ number }
    ensures is { IfOk result (λ j. judgement_of fold.now.config (Some (shown_in fold.now member.now)) j
        ≡ held_here fold.now (catalog_at fold.now number) position
        (shown_in fold.now member.now) node.now) }
    ensures numbered { IfOk result (IsJudged fold.now.config) }
{
    if member.label != node.label {
        let reset = enter(fold, number, position, node)?;
        return Ok(now(reset, Happened::Reset(number)));
    }
    if chooses_alike(fold, number, member, node) {
        return Ok(same(None));
    }
    let regrouped = taken(fold, number, member, node)?;
    Ok(now(regrouped, Happened::Regrouped(number)))
}

/// A zone that another catalog holds, and lets this one take over. The error is out of memory.
fn taken_over(
    fold: &Fold,
    number: u8,
    position: u64,
    member: &Membership,
    node: &Node,
) -> Result<Judged, AllocError>
    requires fold { IsFold fold.now }
    requires number { number < length fold.now.config }
    requires held { IsNumbered fold.now.config member.now }
    requires consent { consents fold.now (catalog_at fold.now number) (shown_in fold.now member.now)
        ≡ true }
    ensures is { IfOk result (λ j. judgement_of fold.now.config (Some (shown_in fold.now member.now)) j
        ≡ held_elsewhere fold.now (catalog_at fold.now number) position
        (shown_in fold.now member.now) node.now) }
    ensures numbered { IfOk result (IsJudged fold.now.config) }
{
    let from = member.catalog;
    if member.label == node.label {
        let moved = taken(fold, number, member, node)?;
        Ok(now(moved, Happened::Moved(from, number)))
    } else {
        let reset = enter(fold, number, position, node)?;
        Ok(now(reset, Happened::MovedReset(from, number)))
    }
}

/// A zone that another catalog holds. The error is out of memory.
fn held_elsewhere(
    fold: &Fold,
    number: u8,
    position: u64,
    member: &Membership,
    node: &Node,
) -> Result<Judged, AllocError>
    requires fold { IsFold fold.now }
    requires number { number < length fold.now.config }
    requires held { IsNumbered fold.now.config member.now }
    ensures is { IfOk result (λ j. judgement_of fold.now.config (Some (shown_in fold.now member.now)) j
        ≡ held_elsewhere fold.now (catalog_at fold.now number) position
        (shown_in fold.now member.now) node.now) }
    ensures numbered { IfOk result (IsJudged fold.now.config) }
{
    if consents(fold, &name_of(fold, number), member) {
        taken_over(fold, number, position, member, node)
    } else {
        Ok(same(Some(Happened::Clash(Some(member.catalog)))))
    }
}

/// A zone that isn't listed.
fn unlisted(fold: &Fold, number: u8, member: &Membership) -> Judged
    requires fold { IsFold fold.now }
    requires number { number < length fold.now.config }
    requires held { IsNumbered fold.now.config member.now }
    ensures is { judgement_of fold.now.config (Some (shown_in fold.now member.now)) result
        ≡ unlisted (catalog_at fold.now number) (shown_in fold.now member.now) }
    ensures numbered { IsJudged fold.now.config result }
{
    if holds(fold, number, member) {
        Judged {
            stands: Stands::Gone,
            change: Some(Happened::Removed(number)),
        }
    } else {
        same(None)
    }
}

/// A zone that is listed, and is no configured catalog. The error is out of memory.
fn listed(
    fold: &Fold,
    number: u8,
    position: u64,
    held: Option<&Membership>,
    node: &Node,
) -> Result<Judged, AllocError>
    requires fold { IsFold fold.now }
    requires number { number < length fold.now.config }
    requires held { ForSome held (λ r. IsNumbered fold.now.config r.now) }
    ensures is { IfOk result (λ j. judgement_of fold.now.config (held_in fold.now held.entry) j
        ≡ listed fold.now (catalog_at fold.now number) position
        (held_in fold.now held.entry) node.now) }
    ensures numbered { IfOk result (IsJudged fold.now.config) }
{
    match held {
        None => {
            let added = enter(fold, number, position, node)?;
            Ok(now(added, Happened::Added(number)))
        }
        Some(member) => {
            if holds(fold, number, member) {
                held_here(fold, number, position, member, node)
            } else {
                held_elsewhere(fold, number, position, member, node)
            }
        }
    }
}

/// Whether a zone is a configured catalog.
fn is_catalog(fold: &Fold, zone: &NameRef) -> bool
    ensures { result ≡ is_catalog fold.now zone.now }
{
    fold.catalogs()
        .iter()
        .any(|catalog| catalog.name.as_ref().same(zone))
}

/// Whether a node lists a member of this catalog as it is: under its label, and of its group.
fn lists_alike(fold: &Fold, number: u8, member: &Membership, node: &Node) -> bool
    requires fold { IsFold fold.now }
    requires number { number < length fold.now.config }
    requires held { IsNumbered fold.now.config member.now }
    ensures { OnTrue result ((position : ℕ)
        → listed fold.now (catalog_at fold.now number) position
        (Some (shown_in fold.now member.now)) node.now
        ≡ record { stands = Some (shown_in fold.now member.now); change = None }) }
{
    holds(fold, number, member)
        && member.label == node.label
        && choice(fold, number, node) == member.group
}

/// Whether a zone stays as it is, without a change, since its catalog lists it as it is. What is judged of other zones
/// may be the same.
pub(crate) fn stays(fold: &Fold, number: u8, held: Option<&Membership>, node: Option<&Node>) -> bool
    requires fold { IsFold fold.now }
    requires number { number < length fold.now.config }
    requires held { ForSome held (λ r. IsNumbered fold.now.config r.now) }
    ensures { OnTrue result ((position : ℕ)
        → judged fold.now (catalog_at fold.now number) position (held_in fold.now held.entry)
        (option_map (λ r. r.now) node.entry)
        ≡ record { stands = held_in fold.now held.entry; change = None }) }
{
    match (held, node) {
        (Some(member), Some(node)) => {
            !is_catalog(fold, &node.zone.as_ref()) && lists_alike(fold, number, member, node)
        }
        _ => false,
    }
}

/// What a listing changes at one zone: the first case that fits. The error is out of memory.
pub(crate) fn judge(
    fold: &Fold,
    number: u8,
    position: u64,
    held: Option<&Membership>,
    node: Option<&Node>,
) -> Result<Judged, AllocError>
    requires fold { IsFold fold.now }
    requires number { number < length fold.now.config }
    requires held { ForSome held (λ r. IsNumbered fold.now.config r.now) }
    ensures is { IfOk result (λ j. judgement_of fold.now.config (held_in fold.now held.entry) j
        ≡ judged fold.now (catalog_at fold.now number) position (held_in fold.now held.entry)
        (option_map (λ r. r.now) node.entry)) }
    ensures numbered { IfOk result (IsJudged fold.now.config) }
{
    match node {
        None => match held {
            None => Ok(same(None)),
            Some(member) => Ok(unlisted(fold, number, member)),
        },
        Some(node) => {
            if is_catalog(fold, &node.zone.as_ref()) {
                Ok(same(Some(Happened::Clash(None))))
            } else {
                listed(fold, number, position, held, node)
            }
        }
    }
}
