//! What a new version changes beyond its own zone.

use dz_member::{Broken, Changes};

/// What a new version changes beyond its own zone.
#[derive(Debug, Drop)]
pub enum Aftermath {
    /// Nothing: the version is a member's.
    Member,
    /// The version is a catalog's and has no listing, so all memberships stay.
    Broken(Broken),
    /// The version is a catalog's, and this is what its listing changes.
    Changes(Changes),
}
