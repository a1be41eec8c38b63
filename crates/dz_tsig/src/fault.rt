//! What can be wrong with a signed stream.

ghost use Rattle.std.specs.Prelude.{◌≡◌};
ghost use Rattle.dz_tsig.specs.Fault.{number_of};

/// Why a message of a stream isn't signed with a key.
#[derive(Clone, Copy, Debug, PartialEq, Eq)]
pub enum TsigFault {
    /// It has no TSIG, and is the first message, the last one or the hundredth in a row without one.
    Missing,
    /// It has a TSIG that isn't its last record, or whose class, TTL, owner name or RDATA can't be read as a TSIG's; or
    /// the octets aren't a message.
    Form,
    /// Its TSIG has another key name, or another algorithm name than `hmac-sha256.`.
    Name,
    /// Its MAC isn't that of the message, of what was digested before it and of its variables or timers.
    Mac,
    /// In the first message the time differs from the moment by more than the fudge; in a later one it is less than
    /// that of the previous TSIG.
    Time,
    /// Its error isn't 0.
    Error,
}

impl TsigFault {
    /// The fault's number, 1 to 6 in the order Missing, Form, Name, Mac, Time, Error.
    pub fn number(self) -> u8
        ensures { result ≡ number_of self }
    {
        match self {
            TsigFault::Missing => 1,
            TsigFault::Form => 2,
            TsigFault::Name => 3,
            TsigFault::Mac => 4,
            TsigFault::Time => 5,
            TsigFault::Error => 6,
        }
    }
}
