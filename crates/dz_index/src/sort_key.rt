//! Sort keys of names.

ghost use Rattle.std.specs.Prelude.{◌≡◌, ◌+◌, ◌<◌, ◌≤◌, [], ◌∷◌, length, drop};
ghost use Rattle.dz_index.specs.SortKey.{key_of, label_before, octet_before};

use dz_name::NameRef;
use std::marker::Model;

/// The most octets of a key: two for each octet of a name in wire form.
pub(crate) const ROOM: usize = 512;

/// The sort key of a name: octets whose order is the canonical order of names (RFC 4034 section 6.1). Contracts see the
/// octets.
#[derive(Drop)]
pub struct SortKey {
    octets: [u8; ROOM],
    start: usize,
}

impl Model for SortKey {
    ghost use Rattle.std.specs.Prelude.{◌≤◌, drop};
    ghost use Rattle.dz_name.specs.Words.{Octets};

    ghost Value = { Octets };

    ghost view = { λ k. drop k.start k.octets };

    ghost invariant = { λ k. k.start ≤ 512 };
}

impl SortKey {
    /// The key of a name.
    pub fn of(name: &NameRef<'_>) -> SortKey
        ensures { result ≡ key_of name.now }
    {
        let mut key = SortKey::empty();
        key.set(name);
        key
    }

    /// No octet yet.
    pub fn empty() -> SortKey
        ensures { result ≡ [] }
    {
        SortKey {
            octets: [0; ROOM],
            start: ROOM,
        }
    }

    /// Becomes the key of a name. It costs the name's octets alone, where a new key has all of its room blanked.
    pub fn set(&mut self, name: &NameRef<'_>)
        ensures { self.new ≡ key_of name.now }
    {
        self.clear();
        let wire = name.wire();
        let mut place = 0;
        let mut count: usize = 0;
        'labels: while wire[place] != 0 {
            let end = place + 1 + wire[place] as usize;
            self.prepend_label(&wire[place + 1..end]);
            place = end;
            count += 1;
        }
    }

    /// At most 512 octets.
    pub fn octets(&self) -> &[u8]
        ensures value { result.now ≡ self.now }
        ensures room { length result.now ≤ 512 }
    {
        &self.octets[self.start..]
    }

    fn clear(&mut self)
        ensures { self.new ≡ [] }
    {
        self.start = ROOM;
    }

    /// A label in front, with the octet that ends it.
    fn prepend_label(&mut self, label: &[u8])
        requires { length self.old + (length label.now + length label.now + 1) ≤ 512 }
        ensures { self.new ≡ label_before label.now self.old }
    {
        self.start = put_label(&mut self.octets, self.start, label);
    }
}

/// A label with the octet that ends it, before what is there from a place on. Gives where it begins.
fn put_label(octets: &mut [u8; ROOM], end: usize, label: &[u8]) -> usize
    requires within { end ≤ 512 }
    requires room { length label.now + length label.now + 1 ≤ end }
    ensures octets { drop result octets.new ≡ label_before label.now (drop end octets.old) }
    ensures within { result ≤ 512 }
{
    let mut begin = end - 1;
    put(octets, begin, 0);
    let mut left = label.len();
    'octets: while 0 < left {
        left -= 1;
        begin = put_octet(octets, begin, label[left]);
    }
    begin
}

/// An octet of a label, before what is there from a place on. Gives where it begins.
fn put_octet(octets: &mut [u8; ROOM], end: usize, octet: u8) -> usize
    requires within { end ≤ 512 }
    requires room { 2 ≤ end }
    ensures octets { drop result octets.new ≡ octet_before octet (drop end octets.old) }
    ensures front { result < end }
    ensures room { end ≤ result + 2 }
{
    if octet < 2 {
        put(octets, end - 1, octet + 1);
        put(octets, end - 2, 1);
        end - 2
    } else {
        put(octets, end - 1, octet);
        end - 1
    }
}

/// An octet before what comes after it.
fn put(octets: &mut [u8; ROOM], at: usize, octet: u8)
    requires { at < 512 }
    ensures { drop at octets.new ≡ octet ∷ drop (at + 1) octets.old }
{
    octets[at] = octet;
}
