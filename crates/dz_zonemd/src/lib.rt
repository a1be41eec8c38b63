//! Digests of zones, what they say of a version, and which versions a policy accepts (RFC 8976).
#![tactic(auto)]

mod acceptance;
mod algorithm;
mod digest;
mod verification;

pub use acceptance::{Standing, accepts};
pub use algorithm::{ALGORITHM_SHA384, ALGORITHM_SHA512, Algorithm, HEAD_OCTETS, SCHEME_SIMPLE};
pub use digest::zone_digest;
pub use verification::{counted_standing, standing};
