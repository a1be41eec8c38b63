//! Domain names (RFC 1034 section 3.1, RFC 1035 section 3.1, RFC 4034 section 6.1).
#![tactic(auto)]

mod decimal;
pub mod dns;
mod kept_name;
mod label;
mod name;
mod name_ref;
pub mod numbers;
mod octets;
mod order;
mod parts;
mod text;
mod wire;
mod wire_fault;

pub use decimal::read_number;
pub use kept_name::KeptName;
pub use label::Label;
pub use name::Name;
pub use name_ref::NameRef;
pub use octets::Octets;
pub use text::NameError;
pub use wire::{POINTER_REACH, Wire, landings_of};
pub use wire_fault::{NAME_LOOKS, WireFault, canonical_name_end};
