//! Names that take little memory.

ghost use Rattle.std.specs.Prelude.{◌≡◌, IfOk};
ghost use Rattle.dz_name.specs.Name.{canonical_order};

use crate::name_ref::NameRef;
use smallvec::SmallVec;
use std::alloc::{AllocError, Global};
use std::cmp::Ordering;
use std::marker::Model;

/// Wire forms of at most this many octets are kept in the name itself.
const INLINE: usize = 32;

/// A name that takes little memory: a wire form of at most 32 octets is kept in the name itself, and a longer one in an
/// allocation of its size. Contracts see it as the list of its labels.
#[derive(Debug, Drop)]
pub struct KeptName {
    octets: SmallVec<u8, INLINE>,
}

impl Model for KeptName {
    ghost use Rattle.dz_name.specs.Words.{Name};
    ghost use Rattle.dz_name.specs.Name.{labels_of, IsWire};

    ghost Value = { Name };

    ghost view = { λ n. labels_of n.octets.items };

    ghost invariant = { λ n. IsWire n.octets.items };
}

impl KeptName {
    /// A copy of the name with octets of its own.
    ///
    /// # Errors
    ///
    /// `AllocError` where its wire form has more than 32 octets and there is no memory for them.
    pub fn of(alloc: Global, name: &NameRef) -> Result<KeptName, AllocError>
        ensures { IfOk result (λ kept. kept ≡ name.now) }
    {
        Ok(KeptName {
            octets: SmallVec::from_slice(alloc, name.wire())?,
        })
    }

    /// A copy of the name, in memory of its own.
    ///
    /// # Errors
    ///
    /// As for [`KeptName::of`].
    pub fn try_clone(&self) -> Result<KeptName, AllocError>
        ensures { IfOk result (λ copy. copy ≡ self.now) }
    {
        KeptName::of(*self.octets.allocator(), &self.as_ref())
    }

    /// The name as a reference to its own octets.
    pub fn as_ref(&self) -> NameRef<'_>
        ensures { result ≡ self.now }
    {
        NameRef::of_wire(self.octets.as_slice())
    }

    /// Canonical order of names (RFC 4034 section 6.1).
    pub fn canonical_cmp(&self, other: &KeptName) -> Ordering
        ensures { result ≡ canonical_order self.now other.now }
    {
        self.as_ref().canonical_cmp(&other.as_ref())
    }
}
