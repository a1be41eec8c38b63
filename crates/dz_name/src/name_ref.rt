//! Names whose wire form is held elsewhere.

ghost use Rattle.std.specs.Prelude.{◌≡◌, ℕ, ◌+◌, ◌-◌, ◌<◌, ◌≤◌, ◌↔◌, List, [], ◌∷◌, ◌++◌, length, take, drop, IsTrue};
ghost use Rattle.std.specs.Prelude.{IfSome, IsNone, Some, slice_index, slice_index_or};
ghost use Rattle.dz_name.specs.Name.{wire_of, IsLabel, IsName, IsWithin, same_name, is_within, parent_of, wildcard_of};
ghost use Rattle.dz_name.specs.Name.{canonical_order, labels_of, IsWire};
ghost use Rattle.dz_name.specs.inner.Starts.{AreStarts};
ghost use Rattle.dz_name.specs.Words.{Name, Octets};

use crate::name::Name;
use std::cmp::Ordering;
use std::marker::Model;

/// The room for the label offsets of a name; a wire form has at most 127 labels.
const LABELS: usize = 128;

/// A name whose wire form is held elsewhere, such as at the beginning of a record. Contracts see it as the list of its
/// labels.
#[derive(Debug, Drop)]
pub struct NameRef<'a> {
    octets: &'a [u8],
}

impl<'a> Model for NameRef<'a> {
    ghost use Rattle.dz_name.specs.Words.{Name};
    ghost use Rattle.dz_name.specs.Name.{labels_of, IsWire};

    ghost Value = { Name };

    ghost view = { λ n. labels_of n.octets.now };

    ghost invariant = { λ n. IsWire n.octets.now };
}

impl<'a> NameRef<'a> {
    /// The name that has this wire form.
    pub fn of_wire(wire: &'a [u8]) -> NameRef<'a>
        requires { IsWire wire.now }
        ensures { result ≡ labels_of wire.now }
    {
        NameRef { octets: wire }
    }

    /// The wire form, without pointers: 1 to 255 octets (RFC 1035 section 3.1).
    pub fn wire(&self) -> &'a [u8]
        ensures wire { result.now ≡ wire_of self.now }
        ensures name { IsName self.now }
    {
        self.octets
    }

    /// A copy of the name with octets of its own.
    pub fn to_name(&self) -> Name
        ensures { result ≡ self.now }
    {
        Name::of_wire(self.wire())
    }

    /// The wildcard below the name (RFC 4592 section 2.1.1).
    pub fn wildcard(&self) -> Name
        requires { length (wire_of self.now) < 254 }
        ensures { result ≡ wildcard_of self.now }
    {
        Name::below(self, b"*")
    }

    /// Whether the name is the parent of the other one, which is one label below it.
    pub fn is_parent_of(&self, other: &NameRef) -> bool
        ensures { IsTrue result ↔ (parent_of other.now ≡ Some self.now) }
    {
        match other.parent() {
            None => false,
            Some(parent) => self.same(&parent),
        }
    }

    /// The parent name, one label up; none for the root.
    pub fn parent(&self) -> Option<NameRef<'a>>
        ensures { result ≡ parent_of self.now }
    {
        let wire = self.wire();
        if wire[0] == 0 {
            return None;
        }
        Some(NameRef::of_wire(behind_label(wire)))
    }

    /// How many labels there are, at most 127.
    pub fn label_count(&self) -> usize
        ensures { result ≡ length self.now }
    {
        let mut rest = self.wire();
        let mut count = 0;
        'labels: while rest[0] != 0 {
            rest = behind_label(rest);
            count += 1;
        }
        count
    }

    /// The wire form of the name that follows the first `skip` labels.
    pub fn behind(&self, skip: usize) -> &'a [u8]
        requires { skip ≤ length self.now }
        ensures wire { result.now ≡ wire_of (drop skip self.now) }
        ensures name { IsName (drop skip self.now) }
    {
        let mut rest = self.wire();
        'labels: for _ in 0..skip {
            rest = behind_label(rest);
        }
        rest
    }

    /// The name that follows the first `skip` labels; none where there are fewer labels.
    pub fn above(&self, skip: usize) -> Option<NameRef<'a>>
        ensures some { IfSome result
            (λ name. (skip ≤ length self.now) × (name ≡ drop skip self.now)) }
        ensures none { IsNone result ↔ (length self.now < skip) }
    {
        let mut name = NameRef::of_wire(self.wire());
        'labels: for _ in 0..skip {
            name = match name.parent() {
                Some(parent) => parent,
                None => return None,
            };
        }
        Some(name)
    }

    /// A label preceded by its length octet, as in the wire form; 0 is the first.
    pub fn piece(&self, number: usize) -> &'a [u8]
        requires { number < length self.now }
        ensures piece { (d : Octets)
            → result.now ≡ length (slice_index_or self.now number d)
            ∷ slice_index_or self.now number d }
        ensures label { (d : Octets) → IsLabel (slice_index_or self.now number d) }
    {
        first_piece(self.behind(number))
    }

    /// Whether the two names are the same.
    pub fn same(&self, other: &NameRef) -> bool
        ensures value { result ≡ same_name self.now other.now }
        ensures equal { IsTrue result ↔ (self.now ≡ other.now) }
    {
        self.wire() == other.wire()
    }

    /// Whether the name is the other one or below it.
    pub fn is_within(&self, above: &NameRef) -> bool
        ensures value { result ≡ is_within self.now above.now }
        ensures suffix { IsTrue result ↔ IsWithin self.now above.now }
    {
        self.is_within_part(above, 0)
    }

    /// Whether the name is at or below the other name without its first `skip` labels.
    pub fn is_within_part(&self, above: &NameRef, skip: usize) -> bool
        requires { skip ≤ length above.now }
        ensures value { result ≡ is_within self.now (drop skip above.now) }
        ensures suffix { IsTrue result ↔ IsWithin self.now (drop skip above.now) }
    {
        let suffix = above.behind(skip);
        let mut rest = self.wire();
        'labels: while suffix.len() < rest.len() {
            rest = behind_label(rest);
        }
        rest == suffix
    }

    /// Canonical order: labels from the right, each as octets; a missing label or octet sorts first.
    pub fn canonical_cmp(&self, other: &NameRef) -> Ordering
        ensures { result ≡ canonical_order self.now other.now }
    {
        match self.sibling_cmp(other) {
            Some(order) => order,
            None => self.cmp_from_the_right(other),
        }
    }

    /// The order of two names that differ in their first label alone; none for all others.
    fn sibling_cmp(&self, other: &NameRef) -> Option<Ordering>
        ensures { IfSome result (λ order. order ≡ canonical_order self.now other.now) }
    {
        let mine = self.wire();
        let theirs = other.wire();
        if mine[0] == 0 || theirs[0] == 0 {
            return None;
        }
        if behind_label(mine) == behind_label(theirs) {
            Some(label_at(mine, 0).cmp(label_at(theirs, 0)))
        } else {
            None
        }
    }

    /// Canonical order, by comparing all labels from the right.
    fn cmp_from_the_right(&self, other: &NameRef) -> Ordering
        ensures { result ≡ canonical_order self.now other.now }
    {
        let mut mine = [0; LABELS];
        let mut theirs = [0; LABELS];
        let mut left = self.starts(&mut mine);
        let mut right = other.starts(&mut theirs);
        'labels: while 0 < left && 0 < right {
            left -= 1;
            right -= 1;
            let order = self.label(&mine, left).cmp(other.label(&theirs, right));
            if order != Ordering::Equal {
                return order;
            }
        }
        left.cmp(&right)
    }

    /// Writes down the offset of each label in the wire form, and returns the number of labels.
    fn starts(&self, starts: &mut [u8; LABELS]) -> usize
        ensures count { result ≡ length self.now }
        ensures starts { AreStarts self.now (length self.now) starts.new }
    {
        let wire = self.wire();
        let mut at = 0;
        let mut count = 0;
        'labels: while wire[at] != 0 {
            starts[count] = at as u8;
            at += wire[at] as usize + 1;
            count += 1;
        }
        count
    }

    /// The label with this number, counted from 0 on the left.
    fn label(&self, starts: &[u8; LABELS], number: usize) -> &[u8]
        requires within { number < length self.now }
        requires starts { AreStarts self.now (length self.now) starts.now }
        ensures { result.now ≡ slice_index_or self.now number [] }
    {
        label_at(self.wire(), starts[number] as usize)
    }
}

/// What follows the first label of a wire form.
fn behind_label(wire: &[u8]) -> &[u8]
    requires some { 0 < length wire.now }
    requires whole { slice_index wire.now 0 < length wire.now }
    ensures { result.now ≡ drop (slice_index wire.now 0 + 1) wire.now }
{
    &wire[wire[0] as usize + 1..]
}

/// The first label of a wire form, preceded by its length octet.
fn first_piece(wire: &[u8]) -> &[u8]
    requires some { 0 < length wire.now }
    requires whole { slice_index wire.now 0 < length wire.now }
    ensures { result.now ≡ take (slice_index wire.now 0 + 1) wire.now }
{
    &wire[..wire[0] as usize + 1]
}

/// The label whose length octet is at an offset.
fn label_at(wire: &[u8], at: usize) -> &[u8]
    requires at { at < length wire.now }
    requires whole { at + slice_index wire.now at < length wire.now }
    ensures { result.now ≡ take (slice_index wire.now at) (drop (at + 1) wire.now) }
{
    &wire[at + 1..at + 1 + wire[at] as usize]
}
