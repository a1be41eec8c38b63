//! Why a call on a list of records failed.

ghost use Rattle.std.specs.Prelude.{◌≡◌};
ghost use Rattle.dz_disk.specs.declared.record_error.RecordError.TheVariants.{Disk, OutOfMemory};

use dz_io::Failed;
use std::alloc::{AllocError, AllocFailed};

/// Why a call on a list of records failed.
#[derive(Clone, Copy, Debug, PartialEq, Eq)]
pub enum RecordError {
    /// The disk failed, in this call or an earlier one.
    Disk,
    /// The record would end past 2^40 octets.
    Full,
    /// Memory ran out.
    OutOfMemory,
}

impl From<AllocError> for RecordError {
    ghost from_gives = { λ _ e. e ≡ OutOfMemory };

    /// An allocation failed.
    fn from(_: AllocError) -> Self {
        RecordError::OutOfMemory
    }
}

impl<T: Drop> From<AllocFailed<T>> for RecordError {
    ghost from_gives = { λ _ e. e ≡ OutOfMemory };

    /// An allocation failed; the value is dropped.
    fn from(_: AllocFailed<T>) -> Self {
        RecordError::OutOfMemory
    }
}

impl From<Failed> for RecordError {
    ghost from_gives = { λ _ e. e ≡ Disk };

    /// A call of the disk failed.
    fn from(_: Failed) -> Self {
        RecordError::Disk
    }
}
