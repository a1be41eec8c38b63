//! Why octets are not a message, and why a message has no octets.

ghost use Rattle.std.specs.Prelude.{◌≡◌};
ghost use Rattle.dz_message.specs.declared.fault.MessageFault.TheVariants.{Wire};
ghost use Rattle.dz_message.specs.declared.fault.MessageError.TheVariants as errors;
ghost use Rattle.dz_message.specs.declared.fault.WriteError.TheVariants as write_errors;
ghost use Rattle.dz_message.specs.Fault.{fault_number};

use dz_name::WireFault;
use std::alloc::{AllocError, AllocFailed};

/// The first fault of a message, from left to right.
#[derive(Clone, Copy, Debug, PartialEq, Eq)]
pub enum MessageFault {
    /// A name can't be read, or octets are missing.
    Wire,
    /// There are fewer than twelve octets.
    ShortHeader,
    /// RDATA doesn't fit its type, or has more than 65,535 octets in canonical form.
    BadRdata,
    /// An answer record has a class other than IN, or a type that no zone holds.
    BadType,
    /// There are trailing octets after the last record.
    Trailing,
}

impl MessageFault {
    /// The number of the fault, 1 to 5 in the order Wire, ShortHeader, BadRdata, BadType, Trailing.
    pub fn number(self) -> u8
        ensures { result ≡ fault_number self }
    {
        match self {
            MessageFault::Wire => 1,
            MessageFault::ShortHeader => 2,
            MessageFault::BadRdata => 3,
            MessageFault::BadType => 4,
            MessageFault::Trailing => 5,
        }
    }
}

/// Why a message was not read.
#[derive(Clone, Copy, Debug, PartialEq, Eq)]
pub enum MessageError {
    Fault(MessageFault),
    OutOfMemory,
}

/// Why a message was not written.
#[derive(Clone, Copy, Debug, PartialEq, Eq)]
pub enum WriteError {
    /// The message has more than 65,535 octets.
    TooLong,
    OutOfMemory,
}

impl From<WireFault> for MessageFault {
    ghost from_gives = { λ _ e. e ≡ Wire };

    /// Every fault of a name is `Wire`.
    fn from(_fault: WireFault) -> MessageFault {
        MessageFault::Wire
    }
}

impl From<WireFault> for MessageError {
    ghost from_gives = { λ _ e. e ≡ errors.Fault Wire };

    /// Every fault of a name is the fault `Wire`.
    fn from(_fault: WireFault) -> MessageError {
        MessageError::Fault(MessageFault::Wire)
    }
}

impl From<MessageFault> for MessageError {
    ghost from_gives = { λ f e. e ≡ errors.Fault f };

    /// The fault of the octets.
    fn from(fault: MessageFault) -> MessageError {
        MessageError::Fault(fault)
    }
}

impl From<AllocError> for MessageError {
    ghost from_gives = { λ _ e. e ≡ errors.OutOfMemory };

    /// Out of memory.
    fn from(_error: AllocError) -> MessageError {
        MessageError::OutOfMemory
    }
}

impl<T: Drop> From<AllocFailed<T>> for MessageError {
    ghost from_gives = { λ _ e. e ≡ errors.OutOfMemory };

    /// Out of memory.
    fn from(_error: AllocFailed<T>) -> MessageError {
        MessageError::OutOfMemory
    }
}

impl From<AllocError> for WriteError {
    ghost from_gives = { λ _ e. e ≡ write_errors.OutOfMemory };

    /// Out of memory.
    fn from(_error: AllocError) -> WriteError {
        WriteError::OutOfMemory
    }
}
