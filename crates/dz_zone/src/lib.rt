//! Versions of zones: distinct records in canonical order that are valid (RFC 1034 section 3.6.2, RFC 1035 section 5.2,
//! RFC 2181, RFC 4034 section 6).
#![tactic(auto)]

mod apart;
mod fault;
mod index;
mod kinds;
mod merging;
mod order;
mod revision;
mod valid;
mod version;

pub use apart::{Apart, MOST_APART, records_apart};
pub use fault::{ZoneError, ZoneFault};
pub use revision::{Removed, Revision};
pub use version::{Version, check};
