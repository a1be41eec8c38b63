//! The command `produce`: a catalog is made of the members that lines name, and changed as further lines say
//! (RFC 9432).
#![tactic(auto)]

mod change;
mod line;
mod making;
mod producing;
mod saying;
mod script;
mod stream;

pub use saying::ProduceEnd;
pub use script::run_producing;
