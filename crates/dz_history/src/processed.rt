//! What a catalog's new version makes of the members.

ghost use Rattle.std.specs.Prelude.{◌≡◌, Some, IfOk, IfSome, IsSome};
ghost use Rattle.dz_catalog.specs.Listing.{listing_of};
ghost use Rattle.dz_history.specs.State.{catalog_at};
ghost use Rattle.dz_history.specs.inner.Processed.{AreProcessed, IsProcessed};

use crate::holdings::Holdings;
use dz_catalog::{CatalogError, read_edits, read_listing};
use dz_member::{Broken, Changes, Fold};
use dz_zone::Version;
use std::alloc::{AllocError, Global};

/// The members after a listing, and what it changed.
#[derive(Drop)]
pub(crate) struct Relisting {
    pub(crate) fold: Fold,
    pub(crate) changes: Changes,
}

/// What a catalog's new version makes of the members: nothing, for this reason, or these.
#[derive(Drop)]
pub(crate) enum Processed {
    Broken(Broken),
    Listed(Relisting),
}

impl Holdings {
    /// What a new version of the catalog of a number makes of the members. `AllocError` where memory runs out.
    pub(crate) fn processed(
        &self,
        alloc: Global,
        number: usize,
        version: &Version,
    ) -> Result<Processed, AllocError>
        requires { catalog_at self.now version.now.apex ≡ Some number }
        ensures { IfOk result (IsProcessed self.now version.now) }
    {
        match self.processed_edits(alloc, number, version)? {
            Some(relisting) => Ok(Processed::Listed(relisting)),
            None => self.processed_whole(alloc, version),
        }
    }

    /// The same by the whole listing. `AllocError` where memory runs out.
    fn processed_whole(&self, alloc: Global, version: &Version) -> Result<Processed, AllocError>
        requires { IsSome (catalog_at self.now version.now.apex) }
        ensures { IfOk result (IsProcessed self.now version.now) }
    {
        match read_listing(alloc, version) {
            Ok(listing) => {
                let catalog = version.apex().to_name();
                let (fold, changes) = self.fold.process(alloc, &catalog, listing, self.count)?;
                Ok(Processed::Listed(Relisting { fold, changes }))
            }
            Err(CatalogError::Broken(reason)) => Ok(Processed::Broken(reason)),
            Err(CatalogError::OutOfMemory) => Err(AllocError),
        }
    }

    /// The members and the changes, where the version differs by a few nodes from the one that the last listing was read
    /// from; none where the whole listing has to be processed. `AllocError` where memory runs out.
    fn processed_edits(
        &self,
        alloc: Global,
        number: usize,
        version: &Version,
    ) -> Result<Option<Relisting>, AllocError>
        requires { catalog_at self.now version.now.apex ≡ Some number }
        ensures { IfOk result (λ o. IfSome o (AreProcessed self.now version.now)) }
    {
        let Some(source) = self.sources[number].version() else {
            return Ok(None);
        };
        if !source.apex().same(&version.apex()) {
            return Ok(None);
        }
        let Some(edits) = read_edits(alloc, source, version)? else {
            return Ok(None);
        };
        let catalog = version.apex().to_name();
        match self.fold.process_edits(alloc, &catalog, edits, self.count)? {
            None => Ok(None),
            Some((fold, changes)) => Ok(Some(Relisting { fold, changes })),
        }
    }
}
