//! Catalog zones that are made (RFC 9432), with a digest (RFC 8976), and the differences between them (RFC 1995).
#![tactic(auto)]

mod amended;
mod draft;
mod fault;
mod laws;
mod produced;
mod records;
mod refused;

pub use amended::{Amended, amend};
pub use draft::{Draft, Verdict, node_octets};
pub use fault::{AmendError, AmendFault, ProduceError, ProduceFault};
pub use laws::{leads_on, lists_its_nodes, stands_good};
pub use produced::produce;
