//! The configuration of catalogs, as a TOML text has it; and what to correct in one that can't be read.
#![tactic(auto)]

mod advice;
mod config;
mod document;
mod downstream;
mod entry;
mod fault;
mod kept;
mod key;
mod keys;
mod laws;
mod least_fault;
mod lines;
mod tree;

pub use advice::{Advice, Expected, advise};
pub use config::{TEXT_OCTETS, read_config, read_downstream};
pub use downstream::{DOWNSTREAM, Downstream};
pub use entry::Found;
pub use fault::{ConfigError, ConfigFault};
pub use kept::Kept;
pub use key::Key;
pub use keys::Place;
pub use laws::not_toml_is_exact;
