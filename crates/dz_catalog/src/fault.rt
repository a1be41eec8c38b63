//! Why a catalog has no listing.

ghost use Rattle.std.specs.Prelude.{◌≡◌};
ghost use Rattle.dz_catalog.specs.declared.fault.CatalogError.TheVariants.{OutOfMemory};

use dz_member::Broken;
use std::alloc::AllocError;

/// Why there is no listing.
#[derive(Clone, Copy, Debug, PartialEq, Eq)]
pub enum CatalogError {
    /// The catalog is broken.
    Broken(Broken),
    /// Out of memory.
    OutOfMemory,
}

impl From<AllocError> for CatalogError {
    ghost from_gives = { λ _ e. e ≡ OutOfMemory };

    /// Out of memory becomes [`CatalogError::OutOfMemory`].
    fn from(_error: AllocError) -> CatalogError {
        CatalogError::OutOfMemory
    }
}
