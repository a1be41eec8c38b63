//! What comes of a job.

use dz_history::Aftermath;
use dz_take::TakeFault;
use dz_zonemd::Standing;

/// What comes of a job that ended.
#[derive(Debug, Drop)]
pub enum Verdict {
    /// A new version is held and answers, by the entry at this position; its serial, and what else it changes.
    Published {
        position: u64,
        serial: u32,
        aftermath: Aftermath,
    },
    /// The version that is held is the primary's: it is refreshed, by the entry at this position.
    Confirmed {
        position: u64,
        serial: u32,
    },
    /// What came is no version of the zone.
    Refused(TakeFault),
    /// The zone's policy doesn't accept what the ZONEMD records of the new version say (RFC 8976).
    PolicyRefused(Standing),
    /// The entry at this position ended the zone's incarnation.
    Stale(u64),
    OutOfMemory,
}

/// What comes of a job that failed.
#[derive(Clone, Copy, Debug, PartialEq, Eq)]
pub enum Failure {
    /// The zone waits, and then asks its next primary.
    Failed,
    /// The entry at this position ended the zone's incarnation.
    Stale(u64),
}
