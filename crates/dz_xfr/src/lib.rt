//! What the forms of a transfer's answer records share (RFC 5936 section 2.2, RFC 1995 section 4). That is how far a
//! form was read, the first record that doesn't fit it, and how a list of records compares with the lists that are
//! whole forms.
#![tactic(auto)]

mod apex;
mod fault;
mod fed;
mod room;

pub use apex::{apex_serial, held_serial, is_apex_soa, same_rdata};
pub use fault::{FeedError, Progress, ShapeFault};
pub use fed::Fed;
pub use room::{KEPT_OCTETS, KEPT_RECORDS, Room};
