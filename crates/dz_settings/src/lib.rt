//! The configuration of a secondary: its catalogs with their primaries, policies, groups and keys, and the limits of
//! all.
#![tactic(auto)]

mod config;
mod key;
mod limits;
mod peer;
mod secret;

pub use config::{CatalogSettings, Config, GroupSettings, Groups, Peers, Policy};
pub use key::Key;
pub use limits::{CATALOG_GROUPS, CATALOGS, PRIMARIES, SECRET_OCTETS, WORD_OCTETS, is_word};
pub use peer::{DNS_PORT, cut, read_host, read_peer, read_policy, read_word};
pub use secret::Secret;
