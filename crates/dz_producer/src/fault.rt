//! Why no catalog is made.

use std::alloc::{AllocError, AllocFailed};

/// What is wrong with the nodes of a catalog. Where more than one holds, the first in this order counts.
#[derive(Clone, Copy, Debug, PartialEq, Eq)]
pub enum ProduceFault {
    /// Two nodes have one label.
    LabelTwice,
    /// A group isn't one character string of 1 to 255 octets, or comes twice at a node.
    BadGroup,
    /// An owner that is needed passes 255 octets.
    NameTooLong,
    /// There are more than 65,536 nodes or 250,000 records, or the stream passes 67,108,864 octets.
    TooMany,
    /// Two nodes have one zone.
    ZoneTwice,
}

/// Why no catalog was made.
#[derive(Clone, Copy, Debug, PartialEq, Eq)]
pub enum ProduceError {
    Fault(ProduceFault),
    OutOfMemory,
}

impl From<AllocError> for ProduceError {
    ghost use Rattle.std.specs.Prelude.{◌≡◌};
    ghost use Rattle.dz_producer.specs.declared.fault.ProduceError.TheVariants.{OutOfMemory};

    ghost from_gives = { λ _ e. e ≡ OutOfMemory };

    /// Out of memory.
    fn from(_error: AllocError) -> ProduceError {
        ProduceError::OutOfMemory
    }
}

impl<T: Drop> From<AllocFailed<T>> for ProduceError {
    ghost use Rattle.std.specs.Prelude.{◌≡◌};
    ghost use Rattle.dz_producer.specs.declared.fault.ProduceError.TheVariants.{OutOfMemory};

    ghost from_gives = { λ _ e. e ≡ OutOfMemory };

    /// Out of memory; what was to be kept goes.
    fn from(_failed: AllocFailed<T>) -> ProduceError {
        ProduceError::OutOfMemory
    }
}

/// What is wrong with a change of a catalog. Where more than one holds, the first in this order counts.
#[derive(Clone, Copy, Debug, PartialEq, Eq)]
pub enum AmendFault {
    /// The serial isn't newer (RFC 1982 section 3.2).
    OldSerial,
    /// A label that is dropped is that of no node, or is dropped twice.
    NoLabel,
    /// What is wrong with the nodes after the change.
    Produce(ProduceFault),
    /// The stream of the difference passes 67,108,864 octets.
    TooLong,
}

/// Why no catalog was changed.
#[derive(Clone, Copy, Debug, PartialEq, Eq)]
pub enum AmendError {
    Fault(AmendFault),
    OutOfMemory,
}

impl From<AllocError> for AmendError {
    ghost use Rattle.std.specs.Prelude.{◌≡◌};
    ghost use Rattle.dz_producer.specs.declared.fault.AmendError.TheVariants.{OutOfMemory};

    ghost from_gives = { λ _ e. e ≡ OutOfMemory };

    /// Out of memory.
    fn from(_error: AllocError) -> AmendError {
        AmendError::OutOfMemory
    }
}

impl<T: Drop> From<AllocFailed<T>> for AmendError {
    ghost use Rattle.std.specs.Prelude.{◌≡◌};
    ghost use Rattle.dz_producer.specs.declared.fault.AmendError.TheVariants.{OutOfMemory};

    ghost from_gives = { λ _ e. e ≡ OutOfMemory };

    /// Out of memory; what was to be kept goes.
    fn from(_failed: AllocFailed<T>) -> AmendError {
        AmendError::OutOfMemory
    }
}
