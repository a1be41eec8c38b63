//! Jobs in flight.

use dz_job::Flight;
use dz_settings::Key;
use dz_zone::Version;
use std::snapshot::Snapshot;
use std::sync::Arc;

/// A job in flight, and the position of the entry that ended its incarnation. The version that was held and the key are
/// seen by contracts alone.
#[derive(Drop)]
pub(crate) struct Flying {
    pub(crate) flight: Flight,
    pub(crate) held: Snapshot<Option<Arc<Version>>>,
    pub(crate) key: Snapshot<Option<Key>>,
    pub(crate) ended: Option<u64>,
}
