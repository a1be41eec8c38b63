//! Listings of catalogs.

ghost use Rattle.std.specs.Prelude.{◌≡◌};
ghost use Rattle.std.specs.List.Sorted.{IsStrictlySortedBy};
ghost use Rattle.dz_record.specs.Record.{record_order};
ghost use Rattle.dz_catalog.specs.Broken.{broken_records, by_count};
ghost use Rattle.dz_catalog.specs.Listing.{listing_of};
ghost use Rattle.dz_catalog.specs.Answers.{Reads};

use crate::broken::broken_records;
use crate::fault::CatalogError;
use crate::nodes::nodes;
use dz_member::{Broken, Listing};
use dz_name::Name;
use dz_record::Rr;
use dz_zone::Version;
use std::alloc::Global;

/// What a catalog's version lists: its member nodes with their zones, changes of ownership and groups (RFC 9432 section
/// 4), in the order of their labels. An error is the first reason why the catalog is broken, or out of memory.
pub fn read_listing(alloc: Global, version: &Version) -> Result<Listing, CatalogError>
    ensures { Reads result (listing_of version.now.apex version.now.records) }
{
    match broken_records(version) {
        Some(broken) => Err(CatalogError::Broken(broken)),
        None => read_nodes(alloc, &version.apex().to_name(), version.records()),
    }
}

/// The listing of records that are broken by no reason other than the number of members and their zones. Nodes that
/// aren't too many make no listing only where two name one zone. Errors are those of [`read_listing`].
fn read_nodes(alloc: Global, apex: &Name, records: &[Rr]) -> Result<Listing, CatalogError>
    requires sorted { IsStrictlySortedBy record_order records.now }
    requires unbroken { broken_records apex.now records.now ≡ by_count apex.now records.now }
    ensures { Reads result (listing_of apex.now records.now) }
{
    let nodes = nodes(alloc, apex, records)?;
    if Listing::NODES < nodes.len() {
        return Err(CatalogError::Broken(Broken::TooManyMembers));
    }
    match Listing::try_from_vec(alloc, nodes)? {
        None => Err(CatalogError::Broken(Broken::ZoneTwice)),
        Some(listing) => Ok(listing),
    }
}
