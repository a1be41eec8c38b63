//! What a new version of a catalog changes at the labels of its nodes.

ghost use Rattle.std.specs.Prelude.{◌≡◌, ◌<◌, ◌||◌, ◌∷◌, nat_lt, length, map, filter, count_by, slice_get, true, None};
ghost use Rattle.std.specs.Prelude.{Some};
ghost use Rattle.std.specs.Prelude.{IfOk, IfSome, IfNone, MatchOption};
ghost use Rattle.std.specs.Option.{option_map, option_and_then};
ghost use Rattle.dz_name.specs.Label.{label_of};
ghost use Rattle.std.specs.List.Sorted.{IsStrictlySortedBy};
ghost use Rattle.dz_name.specs.Name.{wire_of, label_order};
ghost use Rattle.dz_record.specs.Record.{record_order, target_of};
ghost use Rattle.dz_member.specs.Edit.{AreEdits, edited};
ghost use Rattle.dz_catalog.specs.Answers.{IsNotRead};
ghost use Rattle.dz_catalog.specs.Broken.{broken_records, by_count};
ghost use Rattle.dz_catalog.specs.Member.{is_member, nodes_of};
ghost use Rattle.dz_catalog.specs.inner.Below.{is_at};
ghost use Rattle.dz_catalog.specs.inner.Labels.{node_name, node_with, has_twins, IsReadAt, AreReadAt};

use crate::broken::is_version_bad;
use crate::labels::labels_of;
use crate::names::target_of;
use dz_member::{Edit, Node, Texts};
use dz_name::dns::{TYPE_PTR, TYPE_TXT};
use dz_name::{KeptName, Label, Name, Octets};
use dz_record::Rr;
use dz_runs::rrset_of;
use dz_zone::{Version, records_apart};
use std::alloc::{AllocError, Global};
use std::collections::BTreeSet;

/// The labels of a catalog at which its nodes may differ from those of an earlier version that isn't broken, in order,
/// with their nodes now. Only the records of these nodes and of the names below them are read. None where the versions
/// differ in more than 1,024 records, or the catalog is broken for a reason other than its members' number or zones.
/// The error is out of memory.
pub fn read_edits(
    alloc: Global,
    before: &Version,
    version: &Version,
) -> Result<Option<Vec<Edit>>, AllocError>
    requires apex { before.now.apex ≡ version.now.apex }
    ensures edits { IfOk result (λ o. IfSome o (λ es. AreEdits es.items)) }
    ensures nodes { broken_records before.now.apex before.now.records ≡ None
        → IfOk result (λ o. IfSome o (λ es. nodes_of version.now.apex version.now.records
        ≡ edited (nodes_of before.now.apex before.now.records) es.items)) }
    ensures unbroken { broken_records before.now.apex before.now.records ≡ None
        → IfOk result (λ o. IfSome o (λ es. broken_records version.now.apex version.now.records
        ≡ by_count version.now.apex version.now.records)) }
    ensures count { IfOk result (λ o. IfSome o (λ es.
        count_by (is_member version.now.apex) version.now.records
        ≡ length (nodes_of version.now.apex version.now.records))) }
    ensures none { IfOk result (λ o. IfNone o (IsNotRead before.now version.now)) }
{
    // Both are in order.
    let _olds = before.records();
    let _news = version.records();
    if is_version_bad(version) {
        return Ok(None);
    }
    match records_apart(alloc, before, version)? {
        None => Ok(None),
        Some(apart) => {
            let labels = labels_of(alloc, &version.apex().to_name(), &apart)?;
            edits_at(alloc, version, labels)
        }
    }
}

/// The edits at some labels; none where a node or a change of ownership has two PTR records. The error is out of memory.
fn edits_at(
    alloc: Global,
    version: &Version,
    mut labels: BTreeSet<Label>,
) -> Result<Option<Vec<Edit>>, AllocError>
    ensures { IfOk result (λ o. MatchOption o
        (has_twins version.now.apex version.now.records ≡ true)
        (λ es. AreReadAt version.now.apex version.now.records labels.keys es.items)) }
{
    let count = labels.len();
    let mut edits = Vec::with_capacity(alloc, count)?;
    'labels: while let Some(label) = labels.pop_first() {
        match edit_at(alloc, version, label)? {
            None => return Ok(None),
            Some(edit) => edits.push(edit)?,
        }
    }
    Ok(Some(edits))
}

/// The edit at a label; none where the node or its change of ownership has two PTR records. The error is out of memory.
fn edit_at(alloc: Global, version: &Version, label: Label) -> Result<Option<Edit>, AllocError>
    ensures label { IfOk result (λ o. IfSome o (λ e. e.label ≡ label)) }
    ensures read { IfOk result (λ o. IfSome o (IsReadAt version.now.apex version.now.records)) }
    ensures none { IfOk result (λ o. IfNone o
        (has_twins version.now.apex version.now.records ≡ true)) }
{
    let _records = version.records();
    match node_name(&version.apex().to_name(), &label) {
        None => Ok(Some(Edit { label, node: None })),
        Some(name) => edit_of(alloc, version, label, &name),
    }
}

/// The same by the name of the node.
fn edit_of(
    alloc: Global,
    version: &Version,
    label: Label,
    name: &Name,
) -> Result<Option<Edit>, AllocError>
    requires { name.now ≡ node_name version.now.apex label }
    ensures label { IfOk result (λ o. IfSome o (λ e. e.label ≡ label)) }
    ensures read { IfOk result (λ o. IfSome o (IsReadAt version.now.apex version.now.records)) }
    ensures none { IfOk result (λ o. IfNone o
        (has_twins version.now.apex version.now.records ≡ true)) }
{
    let members = rrset_at(version, name, TYPE_PTR);
    let coos = rrset_below(version, b"coo", name, TYPE_PTR);
    if has_two(members, coos) {
        return Ok(None);
    }
    let groups = rrset_below(version, b"group", name, TYPE_TXT);
    let node = first_node(alloc, label, members, coos, groups)?;
    Ok(Some(Edit { label, node }))
}

/// Whether there are two PTR records of a node, or two of its change of ownership.
fn has_two(members: &[Rr], coos: &[Rr]) -> bool
    ensures { result ≡ (nat_lt 1 (length members.now) || nat_lt 1 (length coos.now)) }
{
    1 < members.len() || 1 < coos.len()
}

/// The name of the node at a label; none where it would be too long.
fn node_name(apex: &Name, label: &Label) -> Option<Name>
    ensures { MatchOption result (255 < length (wire_of (node_name apex.now label.now)))
        (λ name. name ≡ node_name apex.now label.now) }
{
    match child(b"zones", apex) {
        None => None,
        Some(zones) => match zones.child(label) {
            Ok(name) => Some(name),
            Err(_) => None,
        },
    }
}

/// The name one label below another; none where it would be too long.
fn child(label: &[u8], above: &Name) -> Option<Name>
    requires { label_of label.now ≡ Some label.now }
    ensures { MatchOption result (255 < length (wire_of (label.now ∷ above.now)))
        (λ name. name ≡ label.now ∷ above.now) }
{
    match Label::new(label) {
        None => None,
        Some(label) => match above.child(&label) {
            Ok(name) => Some(name),
            Err(_) => None,
        },
    }
}

/// The records of a type of the name one label below another, found by halves. There are none where the name would be
/// too long.
fn rrset_below<'a>(version: &'a Version, label: &[u8], above: &Name, kind: u16) -> &'a [Rr]
    requires { label_of label.now ≡ Some label.now }
    ensures { result.now ≡ filter (is_at kind (label.now ∷ above.now)) version.now.records }
{
    match child(label, above) {
        None => &version.records()[..0],
        Some(name) => rrset_at(version, &name, kind),
    }
}

/// The records of a name and this type, found by halves.
fn rrset_at<'a>(version: &'a Version, name: &Name, kind: u16) -> &'a [Rr]
    ensures rrset { result.now ≡ filter (is_at kind name.now) version.now.records }
    ensures rises { IsStrictlySortedBy record_order version.now.records }
{
    let _records = version.records();
    rrset_of(version, name, kind)
}

/// The node of the first of its PTR records, if there is one. The error is out of memory.
fn first_node(
    alloc: Global,
    label: Label,
    members: &[Rr],
    coos: &[Rr],
    groups: &[Rr],
) -> Result<Option<Node>, AllocError>
    ensures { IfOk result (λ node. node
        ≡ option_and_then (node_with label coos.now groups.now) (slice_get members.now 0)) }
{
    match first_target(alloc, members)? {
        None => Ok(None),
        Some(zone) => Ok(Some(Node {
            label,
            zone,
            coo: first_target(alloc, coos)?,
            groups: texts_of(alloc, groups)?,
        })),
    }
}

/// The name that the first record leads to, in octets of its own. The error is out of memory.
fn first_target(alloc: Global, records: &[Rr]) -> Result<Option<KeptName>, AllocError>
    ensures { IfOk result (λ name. name
        ≡ option_and_then target_of (slice_get records.now 0)) }
{
    match records.first() {
        None => Ok(None),
        Some(first) => target_kept(alloc, first),
    }
}

/// The name that a record leads to, in octets of its own. The error is out of memory.
fn target_kept(alloc: Global, found: &Rr) -> Result<Option<KeptName>, AllocError>
    ensures { IfOk result (λ name. name ≡ target_of found.now) }
{
    match target_of(found) {
        None => Ok(None),
        Some(target) => Ok(Some(KeptName::of(alloc, &target)?)),
    }
}

/// The RDATA of records. The error is out of memory.
fn texts_of(alloc: Global, records: &[Rr]) -> Result<Texts, AllocError>
    ensures { IfOk result (λ texts. texts ≡ map (λ r. r.rdata) records.now) }
{
    let mut texts = Vec::with_capacity(alloc, records.len())?;
    'records: for found in records {
        texts.push(Octets::from_vec(Vec::from_slice(alloc, found.rdata())?))?;
    }
    Ok(Texts::from_vec(texts))
}
