//! Parts of names, and names made of parts.

ghost use Rattle.std.specs.Prelude.{◌≡◌, ℕ, ◌+◌, ◌-◌, ◌<◌, ◌≤◌, ◌↔◌, List, [], ◌∷◌, ◌++◌, length, take, drop, IsTrue};
ghost use Rattle.std.specs.Prelude.{slice_index, slice_index_or, slice_range};
ghost use Rattle.dz_name.specs.Name.{wire_of, IsLabel, IsName, IsWithin, same_name, is_within, parent_of, first_label};
ghost use Rattle.dz_name.specs.Words.{Octets};

use crate::label::Label;
use crate::name::Name;

impl Name {
    /// How many labels there are, at most 127.
    pub fn label_count(&self) -> usize
        ensures { result ≡ length self.now }
    {
        self.as_ref().label_count()
    }

    /// The wire form of the name that follows the first `skip` labels.
    pub fn behind(&self, skip: usize) -> &[u8]
        requires { skip ≤ length self.now }
        ensures wire { result.now ≡ wire_of (drop skip self.now) }
        ensures name { IsName (drop skip self.now) }
    {
        self.as_ref().behind(skip)
    }

    /// A label preceded by its length octet, as in the wire form; 0 is the first.
    pub fn piece(&self, number: usize) -> &[u8]
        requires { number < length self.now }
        ensures piece { (d : Octets)
            → result.now ≡ length (slice_index_or self.now number d)
            ∷ slice_index_or self.now number d }
        ensures label { (d : Octets) → IsLabel (slice_index_or self.now number d) }
    {
        self.as_ref().piece(number)
    }

    /// Whether the two names are the same.
    pub fn same(&self, other: &Name) -> bool
        ensures value { result ≡ same_name self.now other.now }
        ensures equal { IsTrue result ↔ (self.now ≡ other.now) }
    {
        self.as_ref().same(&other.as_ref())
    }

    /// Whether the name is the other one or below it.
    pub fn is_within(&self, above: &Name) -> bool
        ensures value { result ≡ is_within self.now above.now }
        ensures suffix { IsTrue result ↔ IsWithin self.now above.now }
    {
        self.as_ref().is_within(&above.as_ref())
    }

    /// Whether the name is at or below the other name without its first `skip` labels.
    pub fn is_within_part(&self, above: &Name, skip: usize) -> bool
        requires { skip ≤ length above.now }
        ensures value { result ≡ is_within self.now (drop skip above.now) }
        ensures suffix { IsTrue result ↔ IsWithin self.now (drop skip above.now) }
    {
        self.as_ref().is_within_part(&above.as_ref(), skip)
    }

    /// The leftmost label; none for the root.
    pub fn first(&self) -> Option<Label>
        ensures { result ≡ first_label self.now }
    {
        if self.label_count() == 0 {
            None
        } else {
            Label::new(self.piece(0).split_at(1).1)
        }
    }

    /// The parent name, one label up; none for the root.
    pub fn parent(&self) -> Option<Name>
        ensures { result ≡ parent_of self.now }
    {
        if self.label_count() == 0 {
            None
        } else {
            Some(self.ancestor(1))
        }
    }
}
