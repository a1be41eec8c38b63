//! The labels of a catalog's nodes at which two versions may differ.

ghost use Rattle.std.specs.Prelude.{◌≡◌, ◌||◌, IfOk, OnOk};
ghost use Rattle.std.specs.List.{list_any};
ghost use Rattle.std.specs.BTreeSet.{contains};
ghost use Rattle.dz_name.specs.Name.{label_order, is_within};
ghost use Rattle.dz_name.specs.Words.{Octets};
ghost use Rattle.dz_catalog.specs.inner.Labels.{label_of, node_name};

use crate::names::{first_of, is_child, parent};
use dz_name::{Label, Name, NameRef};
use dz_record::Rr;
use dz_zone::Apart;
use std::alloc::{AllocError, Global};
use std::collections::BTreeSet;

/// The labels of the nodes that the owners of records apart are or are below. The error is out of memory.
pub(crate) fn labels_of(
    alloc: Global,
    apex: &Name,
    apart: &Apart,
) -> Result<BTreeSet<Label>, AllocError>
    ensures { IfOk result (λ labels. (label : Octets) → contains label_order labels label
        ≡ (list_any (λ r. is_within r.now.owner (node_name apex.now label)) apart.now.gone.items
        || list_any (λ r. is_within r.now.owner (node_name apex.now label)) apart.now.come.items)) }
{
    let mut labels = BTreeSet::new(alloc);
    put_labels(&mut labels, apex, apart.gone.as_slice())?;
    put_labels(&mut labels, apex, apart.come.as_slice())?;
    Ok(labels)
}

/// Puts in the labels of the nodes that the owners of records are or are below. The error is out of memory.
fn put_labels(labels: &mut BTreeSet<Label>, apex: &Name, records: &[&Rr]) -> Result<(), AllocError>
    ensures { (label : Octets) → OnOk result (contains label_order labels.new label
        ≡ (contains label_order labels.old label
        || list_any (λ r. is_within r.now.owner (node_name apex.now label)) records.now)) }
{
    'records: for found in records {
        put_label(labels, apex, &found.owner_ref())?;
    }
    Ok(())
}

/// Puts in the label of the node that a name is or is below, if it is. The error is out of memory.
fn put_label(labels: &mut BTreeSet<Label>, apex: &Name, name: &NameRef) -> Result<(), AllocError>
    ensures { (label : Octets) → OnOk result (contains label_order labels.new label
        ≡ (contains label_order labels.old label
        || is_within name.now (node_name apex.now label))) }
{
    match label_of(apex, name) {
        None => Ok(()),
        Some(label) => {
            labels.insert(label)?;
            Ok(())
        }
    }
}

/// The label of the node that a name is or is below.
fn label_of(apex: &Name, name: &NameRef) -> Option<Label>
    ensures { result ≡ label_of apex.now name.now }
{
    let mut rest = NameRef::of_wire(name.wire());
    'labels: while let Some(above) = parent(&rest) {
        if is_child(&above, b"zones", &apex.as_ref()) {
            return first_of(&rest);
        }
        rest = above;
    }
    None
}
