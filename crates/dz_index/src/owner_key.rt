//! Sort keys of owners, one after another.

ghost use Rattle.std.specs.Prelude.{◌≡◌, ◌+◌, ◌<◌, ◌≤◌, ◌++◌, [], ◌∷◌, length, take};
ghost use Rattle.dz_index.specs.SortKey.{key_of, label_before, octet_before};

use crate::sort_key::{ROOM, SortKey};
use dz_name::{Name, NameRef};
use std::marker::Model;

/// The sort key of an owner, for owners one after another: the key of the name above is kept, so that an owner below
/// the same name costs its first label alone. Contracts see the octets.
#[derive(Drop)]
pub struct OwnerKey {
    above: Name,
    above_key: SortKey,
    octets: [u8; ROOM],
    front: usize,
    end: usize,
}

impl Model for OwnerKey {
    ghost use Rattle.std.specs.Prelude.{take};
    ghost use Rattle.dz_name.specs.Words.{Octets};
    ghost use Rattle.dz_index.specs.inner.Above.{IsBelow};

    ghost Value = { Octets };

    ghost view = { λ k. take k.end k.octets };

    ghost invariant = { λ k. IsBelow k.above k.octets k.front k.end };
}

impl OwnerKey {
    /// No octet yet.
    pub fn empty() -> OwnerKey
        ensures { result ≡ [] }
    {
        OwnerKey {
            above: Name::root(),
            above_key: SortKey::empty(),
            octets: [0; ROOM],
            front: 0,
            end: 0,
        }
    }

    /// Becomes the key of an owner.
    pub fn set(&mut self, owner: &NameRef<'_>)
        ensures { self.new ≡ key_of owner.now }
    {
        let wire = owner.wire();
        if wire[0] == 0 {
            self.write_above(owner);
            return;
        }
        let end = wire[0] as usize + 1;
        self.set_above(&NameRef::of_wire(owner.behind(1)));
        self.append(&wire[1..end]);
    }

    /// At most 512 octets.
    pub fn octets(&self) -> &[u8]
        ensures value { result.now ≡ self.now }
        ensures room { length result.now ≤ 512 }
    {
        &self.octets[..self.end]
    }

    /// Becomes the key of a name above, which is there already where it is the last one.
    fn set_above(&mut self, above: &NameRef<'_>)
        ensures { self.new ≡ key_of above.now }
    {
        if self.above.as_ref().same(above) {
            self.end = self.front;
        } else {
            self.write_above(above);
        }
    }

    /// The same for another name than the last one.
    fn write_above(&mut self, above: &NameRef<'_>)
        ensures { self.new ≡ key_of above.now }
    {
        self.above_key.set(above);
        let key = self.above_key.octets();
        let end = key.len();
        write_front(&mut self.octets, key);
        self.above = above.to_name();
        self.front = end;
        self.end = end;
    }

    /// A label after the others, with the octet that ends it.
    fn append(&mut self, label: &[u8])
        requires { length self.old + (length label.now + length label.now + 1) ≤ 512 }
        ensures { self.new ≡ self.old ++ label_before label.now [] }
    {
        self.end = append_label(&mut self.octets, self.end, label);
    }
}

/// A key in front.
fn write_front(octets: &mut [u8; ROOM], key: &[u8])
    requires { length key.now ≤ 512 }
    ensures { take (length key.now) octets.new ≡ key.now }
{
    octets[..key.len()].copy_from_slice(key);
}

/// A label with the octet that ends it, after what is there up to a place. Gives where it ends.
fn append_label(octets: &mut [u8; ROOM], begin: usize, label: &[u8]) -> usize
    requires { begin + (length label.now + length label.now + 1) ≤ 512 }
    ensures octets { take result octets.new ≡ take begin octets.old ++ label_before label.now [] }
    ensures behind { begin ≤ result }
    ensures within { result ≤ 512 }
{
    let mut end = begin;
    'octets: for octet in label {
        end = append_octet(octets, end, *octet);
    }
    append_at(octets, end, 0)
}

/// An octet of a label, after what is there up to a place. Gives where it ends.
fn append_octet(octets: &mut [u8; ROOM], begin: usize, octet: u8) -> usize
    requires { begin + 2 ≤ 512 }
    ensures octets { take result octets.new ≡ take begin octets.old ++ octet_before octet [] }
    ensures behind { begin ≤ result }
    ensures room { result ≤ begin + 2 }
{
    if octet < 2 {
        let end = append_at(octets, begin, 1);
        append_at(octets, end, octet + 1)
    } else {
        append_at(octets, begin, octet)
    }
}

/// An octet after what is there up to a place. Gives where it ends.
fn append_at(octets: &mut [u8; ROOM], at: usize, octet: u8) -> usize
    requires { at < 512 }
    ensures octets { take result octets.new ≡ take at octets.old ++ octet ∷ [] }
    ensures one { result ≡ at + 1 }
{
    octets[at] = octet;
    at + 1
}
