//! What a zone answers for a name and a type (RFC 1034 section 4.3.2, RFC 4592).
//!
//! The lookups take a version of a zone, allocate nothing, and find its records by searches in them, since they are in
//! canonical order.
#![tactic(auto)]

mod beside;
mod chain;
mod found;
mod laws;

pub use chain::{Chain, Last, chase};
pub use found::{Found, find, source, wildcard_of};
pub use laws::few_comparisons;
