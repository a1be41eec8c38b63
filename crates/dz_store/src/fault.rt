//! Why a call on a store failed.

ghost use Rattle.std.specs.Prelude.{◌≡◌};
ghost use Rattle.dz_store.specs.declared.fault.StoreFault.TheVariants.{OutOfMemory};
ghost use Rattle.dz_store.specs.Fault.{fault_of};

use dz_disk::RecordError;
use std::alloc::{AllocError, AllocFailed};

/// Why a call on a store failed.
#[derive(Clone, Copy, Debug, PartialEq, Eq)]
pub enum StoreFault {
    /// The disk failed, in this call or an earlier one. From then on no call touches it.
    DiskFault,
    /// The record would end past 2^40 octets.
    Full,
    /// The version can't be sent, so it can't be kept.
    Unfit,
    /// Out of memory.
    OutOfMemory,
}

impl From<RecordError> for StoreFault {
    ghost from_gives = { λ error e. e ≡ fault_of error };

    /// The fault that an error of the records is.
    fn from(error: RecordError) -> Self {
        match error {
            RecordError::Disk => StoreFault::DiskFault,
            RecordError::Full => StoreFault::Full,
            RecordError::OutOfMemory => StoreFault::OutOfMemory,
        }
    }
}

impl From<AllocError> for StoreFault {
    ghost from_gives = { λ _ e. e ≡ OutOfMemory };

    /// Out of memory.
    fn from(_: AllocError) -> Self {
        StoreFault::OutOfMemory
    }
}
