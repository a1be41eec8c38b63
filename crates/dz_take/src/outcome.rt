//! What comes of a transfer.

use dz_message::MessageFault;
use dz_tsig::TsigFault;
use dz_xfr::ShapeFault;
use dz_zone::{Version, ZoneFault};
use std::sync::Arc;

/// Why a transfer is refused.
#[derive(Clone, Copy, Debug, PartialEq, Eq)]
pub enum TakeFault {
    /// The stream ended before the form was complete.
    Incomplete,
    /// The octets of a message can't be read as one.
    Message(MessageFault),
    /// A message isn't a response with opcode QUERY to the query's ID.
    WrongId,
    /// The first message has no question, or a message has another question than the query's.
    WrongQuestion,
    /// The response code of a message, which isn't 0.
    Rcode(u8),
    /// The records don't fit the form of a transfer.
    Shape(ShapeFault),
    /// The records don't make a zone.
    Zone(ZoneFault),
    /// The serial of the first SOA, which is neither the held one nor newer.
    OldSerial(u32),
    /// The stream is longer than 67,108,864 octets ([`dz_name::dns::TRANSFER_OCTETS`]).
    TooLong,
    /// The messages aren't signed with the key of the zone's catalog (RFC 8945). No [`crate::Taking`] gives it: it
    /// doesn't look at signatures.
    Tsig(TsigFault),
}

/// What comes of a transfer.
#[derive(Debug, Drop)]
pub enum Outcome {
    /// The primary has the version that is held.
    UpToDate,
    /// A newer version, or the first.
    New(Arc<Version>),
    /// No version, and why.
    Refused(TakeFault),
}
