//! Names of a catalog zone, read where they are in the records.

ghost use Rattle.std.specs.Prelude.{◌≡◌, ◌∷◌, ◌&&◌, ◌<◌, codes, length, MatchBool};
ghost use Rattle.std.specs.Option.{option_map};
ghost use Rattle.dz_name.specs.Name.{same_name, is_within, first_label, parent_of};
ghost use Rattle.dz_record.specs.Record.{has_target, target_of};
ghost use Rattle.dz_catalog.specs.Member.{begins_with, is_node, is_coo};

use dz_name::dns::{TYPE_CNAME, TYPE_DNAME, TYPE_NS, TYPE_PTR};
use dz_name::{Label, Name, NameRef};
use dz_record::Rr;

/// Whether the name is the root: no other name has a wire form of one octet.
fn is_root(name: &NameRef) -> bool
    ensures { MatchBool result (length name.now ≡ 0) (0 < length name.now) }
{
    name.wire().len() == 1
}

/// The name one label up, on the same octets; none for the root.
pub(crate) fn parent<'a>(name: &NameRef<'a>) -> Option<NameRef<'a>>
    ensures { result ≡ parent_of name.now }
{
    if is_root(name) {
        None
    } else {
        Some(NameRef::of_wire(name.behind(1)))
    }
}

/// The octets of the first label, without a copy; none of the root.
fn first_label<'a>(name: &NameRef<'a>) -> Option<&'a [u8]>
    ensures { option_map (λ label. label.now) result ≡ first_label name.now }
{
    if is_root(name) {
        None
    } else {
        Some(name.piece(0).split_at(1).1)
    }
}

/// The first label; none of the root.
pub(crate) fn first_of(name: &NameRef) -> Option<Label>
    ensures { result ≡ first_label name.now }
{
    if is_root(name) {
        None
    } else {
        Label::new(name.piece(0).split_at(1).1)
    }
}

/// Whether the first label is this one.
fn begins_with(label: &[u8], name: &NameRef) -> bool
    ensures { result ≡ begins_with label.now name.now }
{
    match first_label(name) {
        None => false,
        Some(first) => first == label,
    }
}

/// Whether a name is this label followed by the other name.
pub(crate) fn is_child(name: &NameRef, label: &[u8], above: &NameRef) -> bool
    ensures { result ≡ same_name name.now (label.now ∷ above.now) }
{
    match parent(name) {
        None => false,
        Some(behind) => begins_with(label, name) && behind.same(above),
    }
}

/// Whether a name is another one or is below it. A name that is not longer, and a child, are quick to tell.
pub(crate) fn is_below(name: &NameRef, above: &NameRef) -> bool
    ensures { result ≡ is_within name.now above.now }
{
    let mut rest = NameRef::of_wire(name.wire());
    'labels: while above.wire().len() < rest.wire().len() {
        rest = NameRef::of_wire(rest.behind(1));
    }
    rest.same(above)
}

/// Whether a name is that of a member node.
pub(crate) fn is_node(apex: &Name, name: &NameRef) -> bool
    ensures { result ≡ is_node apex.now name.now }
{
    match parent(name) {
        None => false,
        Some(above) => is_child(&above, b"zones", &apex.as_ref()),
    }
}

/// Whether a name is that of a change of ownership.
pub(crate) fn is_coo(apex: &Name, name: &NameRef) -> bool
    ensures { result ≡ is_coo apex.now name.now }
{
    match parent(name) {
        None => false,
        Some(node) => begins_with(b"coo", name) && is_node(apex, &node),
    }
}

/// The name that an NS, CNAME, PTR or DNAME leads to, without a copy; none for every other type.
pub(crate) fn target_of(found: &Rr) -> Option<NameRef<'_>>
    ensures { result ≡ target_of found.now }
{
    if has_target(found.kind()) {
        Some(NameRef::of_wire(found.rdata()))
    } else {
        None
    }
}

/// Whether records of the type have a name as their whole RDATA.
fn has_target(kind: u16) -> bool
    ensures { result ≡ has_target kind }
{
    matches!(kind, TYPE_NS | TYPE_CNAME | TYPE_PTR | TYPE_DNAME)
}
