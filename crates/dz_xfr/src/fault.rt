//! How far a form was read, and which record doesn't fit it.

ghost use Rattle.std.specs.Prelude.{◌≡◌};
ghost use Rattle.dz_xfr.specs.declared.fault.FeedError.TheVariants.{OutOfMemory};

use std::alloc::{AllocError, AllocFailed};

/// How far a transfer was read.
#[derive(Clone, Copy, Debug, PartialEq, Eq)]
pub enum Progress {
    /// More is to come.
    More,
    /// It has ended.
    Ended,
}

/// What is wrong with the first record with which no whole form goes on.
#[derive(Clone, Copy, Debug, PartialEq, Eq)]
pub enum ShapeFault {
    /// The first record isn't an SOA of the apex.
    NotSoaFirst,
    /// A record follows the end of the form.
    AfterEnd,
    /// An SOA of the apex doesn't have the serial or the RDATA that it must have there, or another record is in its
    /// place.
    SerialGap,
    /// A deleted record isn't in the zone.
    DeleteMissing,
    /// An added record is in the zone already.
    AddPresent,
}

/// Why records were not taken.
#[derive(Clone, Copy, Debug, PartialEq, Eq)]
pub enum FeedError {
    /// A record doesn't fit the form.
    Shape(ShapeFault),
    /// No memory was left.
    OutOfMemory,
}

impl From<AllocError> for FeedError {
    ghost from_gives = { λ _ e. e ≡ OutOfMemory };

    /// Out of memory.
    fn from(_error: AllocError) -> FeedError {
        FeedError::OutOfMemory
    }
}

impl<T: Drop> From<AllocFailed<T>> for FeedError {
    ghost from_gives = { λ _ e. e ≡ OutOfMemory };

    /// Out of memory: what could not be allocated is dropped.
    fn from(_error: AllocFailed<T>) -> FeedError {
        FeedError::OutOfMemory
    }
}
