//! A kept zone.

use dz_name::{Label, Name};
use dz_zone::Version;
use std::sync::Arc;

/// A zone with its version, as it is kept. A member has its catalog and its label there; a catalog zone has its own
/// name as its catalog, and no label.
#[derive(Debug, Drop)]
pub struct Kept {
    pub zone: Name,
    pub catalog: Name,
    pub label: Option<Label>,
    /// When it was refreshed, in seconds.
    pub refreshed: u64,
    pub version: Arc<Version>,
}
