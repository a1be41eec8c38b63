//! Records of DNSSEC beside an answer: signatures, and proofs that something isn't there (RFC 4035 section 3.1).
#![tactic(auto)]

mod evidence;
mod signature;

pub use evidence::{Evidence, covering, proof};
pub use signature::signatures;
