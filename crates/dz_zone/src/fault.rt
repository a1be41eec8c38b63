//! Why records are no zone.

ghost use Rattle.std.specs.Prelude.{◌≡◌};
ghost use Rattle.dz_zone.specs.declared.fault.ZoneError.TheVariants.{OutOfMemory};

use std::alloc::AllocError;

/// What is wrong with a zone. Where more than one holds, the first in this order counts.
#[derive(Clone, Copy, Debug, PartialEq, Eq)]
pub enum ZoneFault {
    /// The apex owns no SOA (RFC 1035 section 5.2).
    NoSoa,
    /// The apex owns two SOA records (RFC 2181 section 6.1).
    SoaTwice,
    /// An owner other than the apex has an SOA.
    SoaBelow,
    /// The apex owns no NS (RFC 2181 section 6.1).
    NoNs,
    /// An owner is neither the apex nor below it.
    OutOfZone,
    /// An owner of a CNAME also owns a type other than RRSIG and NSEC (RFC 1034 section 3.6.2, RFC 4035 section 2.5).
    CnameBeside,
    /// An owner has two CNAME records (RFC 2181 section 10.1).
    CnameTwice,
    /// An owner has two DNAME records (RFC 6672 section 2.4).
    DnameTwice,
    /// There are more than 250,000 records ([`dz_name::dns::ZONE_RECORDS`]).
    TooMany,
}

/// Why there is no version of the zone.
#[derive(Clone, Copy, Debug, PartialEq, Eq)]
pub enum ZoneError {
    /// The records are no zone, for this reason.
    Fault(ZoneFault),
    /// Out of memory.
    OutOfMemory,
}

impl From<AllocError> for ZoneError {
    ghost from_gives = { λ _ e. e ≡ OutOfMemory };

    /// Out of memory becomes [`ZoneError::OutOfMemory`].
    fn from(_error: AllocError) -> ZoneError {
        ZoneError::OutOfMemory
    }
}
