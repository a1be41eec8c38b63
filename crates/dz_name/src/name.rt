ghost use Rattle.std.specs.Prelude.{◌≡◌, ℕ, ◌+◌, ◌-◌, ◌<◌, ◌≤◌, ◌↔◌, List, [], ◌∷◌, ◌++◌, length, take, drop, IsTrue};
ghost use Rattle.dz_name.specs.Name.{lower, wire_of, wildcard_of, IsLabel, IsName, labels_of, IsWire};
ghost use Rattle.dz_name.specs.Name.{child_of, fitting};

use crate::dns::NAME_OCTETS;
use crate::label::Label;
use crate::name_ref::NameRef;
use crate::text::NameError;
use std::marker::Model;

/// A domain name: labels of 1 to 63 octets, kept with ASCII letters in lower case, whose wire form has at most 255
/// octets (RFC 1035 section 3.1, RFC 4343 section 2). Contracts see it as the list of its labels, the leftmost first
/// and without the root's.
#[derive(Clone, Copy, Debug)]
pub struct Name {
    octets: [u8; 255],
    len: u8,
}

impl Model for Name {
    ghost use Rattle.std.specs.Prelude.{length};
    ghost use Rattle.dz_name.specs.Words.{Name};
    ghost use Rattle.dz_name.specs.Name.{wire_of, labels_in};
    ghost use Rattle.dz_name.specs.inner.Kept.{padded, IsKept};

    ghost Value = { Name };

    ghost view = { λ n. labels_in n.len n.octets };

    ghost invariant = { λ n. IsKept n.octets n.len };

    ghost inverse = { λ labels. record { octets = padded labels; len = length (wire_of labels) } };
}

impl Name {
    /// The root: the name without labels.
    pub fn root() -> Name
        ensures { result ≡ [] }
    {
        Name {
            octets: [0; 255],
            len: 1,
        }
    }

    /// The wire form, without pointers: 1 to 255 octets (RFC 1035 section 3.1).
    pub fn wire(&self) -> &[u8]
        ensures wire { result.now ≡ wire_of self.now }
        ensures name { IsName self.now }
    {
        &self.octets[..self.len as usize]
    }

    /// The name as a reference to its own octets.
    pub fn as_ref(&self) -> NameRef<'_>
        ensures { result ≡ self.now }
    {
        NameRef::of_wire(self.wire())
    }

    /// The name that has this wire form.
    pub(crate) fn of_wire(wire: &[u8]) -> Name
        requires { IsWire wire.now }
        ensures { result ≡ labels_of wire.now }
    {
        let mut octets = [0; 255];
        write_at(&mut octets, 0, wire);
        Name {
            octets,
            len: wire.len() as u8,
        }
    }

    /// Appends a label after the last one, with its ASCII letters in lower case.
    pub fn push_label(&mut self, label: &[u8])
        requires some { 0 < length label.now }
        requires short { length label.now < 64 }
        requires room { length (wire_of self.old) + length label.now < 255 }
        ensures labels { self.new ≡ self.old ++ lower label.now ∷ [] }
        ensures wire { length (wire_of self.new)
            ≡ length (wire_of self.old) + (length label.now + 1) }
    {
        let end = self.len as usize - 1;
        write_label(&mut self.octets, end, label);
        self.len += label.len() as u8 + 1;
    }

    /// The ancestor that is left when the first `skip` labels are removed.
    pub fn ancestor(&self, skip: usize) -> Name
        requires { skip ≤ length self.now }
        ensures { result ≡ drop skip self.now }
    {
        let wire = self.behind(skip);
        let mut octets = [0; 255];
        write_at(&mut octets, 0, wire);
        Name {
            octets,
            len: wire.len() as u8,
        }
    }

    /// The same ancestor, as a reference to the octets of this name.
    pub fn ancestor_ref(&self, skip: usize) -> NameRef<'_>
        requires { skip ≤ length self.now }
        ensures { result ≡ drop skip self.now }
    {
        NameRef::of_wire(self.as_ref().behind(skip))
    }

    /// The name with one more label before the first, where there is room for it.
    pub(crate) fn below(above: &NameRef, label: &[u8]) -> Name
        requires is { IsLabel label.now }
        requires room { length (wire_of above.now) + length label.now < 255 }
        ensures { result ≡ label.now ∷ above.now }
    {
        let wire = above.wire();
        let size = label.len();
        let mut octets = [0; 255];
        write_at(&mut octets, 0, &[size as u8]);
        write_at(&mut octets, 1, label);
        write_at(&mut octets, size + 1, wire);
        Name {
            octets,
            len: (size + 1 + wire.len()) as u8,
        }
    }

    /// The child of the name with this label before the first.
    ///
    /// # Errors
    ///
    /// `NameTooLong` where the wire form would have more than 255 octets.
    pub fn child(&self, label: &Label) -> Result<Name, NameError>
        ensures { result ≡ child_of self.now label.now }
    {
        if self.wire().len() + label.octets().len() < 255 {
            Ok(Name::below(&self.as_ref(), label.octets()))
        } else {
            Err(NameError::NameTooLong)
        }
    }

    /// The first `count` labels of the name followed by the labels of `above`, as a DNAME substitution does (RFC 6672
    /// section 2.2); none where its wire form would have more than 255 octets.
    pub fn in_front(&self, count: usize, above: &NameRef) -> Option<Name>
        requires { count ≤ length self.now }
        ensures { result ≡ fitting (take count self.now ++ above.now) }
    {
        let wire = self.wire();
        let size = wire.len() - self.behind(count).len();
        let rest = above.wire();
        if NAME_OCTETS < size + rest.len() {
            return None;
        }
        let mut octets = [0; 255];
        write_at(&mut octets, 0, wire.split_at(size).0);
        write_at(&mut octets, size, rest);
        Some(Name {
            octets,
            len: (size + rest.len()) as u8,
        })
    }

    /// The wildcard below the name (RFC 4592 section 2.1.1).
    pub fn wildcard(&self) -> Name
        requires { length (wire_of self.now) < 254 }
        ensures { result ≡ wildcard_of self.now }
    {
        self.as_ref().wildcard()
    }
}

/// Writes a label in lower case, preceded by its length octet.
fn write_label(octets: &mut [u8; 255], at: usize, label: &[u8])
    requires short { length label.now < 64 }
    requires room { at + length label.now + 1 < 255 }
    ensures { octets.new ≡ take at octets.old
        ++ length label.now ∷ (lower label.now ++ drop (at + length label.now + 1) octets.old) }
{
    octets[at] = label.len() as u8;
    let part = &mut octets[at + 1..at + 1 + label.len()];
    part.copy_from_slice(label);
    part.make_ascii_lowercase();
}

/// Writes octets at an offset.
fn write_at(octets: &mut [u8; 255], at: usize, part: &[u8])
    requires { at + length part.now ≤ 255 }
    ensures { octets.new ≡ take at octets.old
        ++ (part.now ++ drop (at + length part.now) octets.old) }
{
    octets[at..at + part.len()].copy_from_slice(part);
}
