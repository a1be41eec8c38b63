//! Serial numbers of zones (RFC 1982): which of two is newer, and sums. Nothing here allocates.
#![tactic(auto)]

mod laws;
mod serial;

pub use laws::{neither_half_way, never_both, never_itself, sums_are_newer};
pub use serial::{add, newer};
