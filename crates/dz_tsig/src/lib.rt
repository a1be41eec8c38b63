//! Signed messages: TSIG with HMAC-SHA-256 (RFC 8945, RFC 2104).
#![tactic(auto)]

mod check;
mod fault;
mod laws;
mod mac;
mod sign;
mod signature;
mod streams;
mod tsig;

pub use check::check_stream;
pub use fault::TsigFault;
pub use laws::{changed_mac_is_found, signed_has_no_fault};
pub use mac::{MAC_OCTETS, hmac};
pub use sign::{FUDGE, request_mac, sign_query};
pub use streams::{SignError, sign_stream};
