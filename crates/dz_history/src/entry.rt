//! Entries of the list of taken transfers.

use dz_name::{Name, Octets};
use dz_settings::Config;
use dz_table::Table;
use dz_take::Ask;
use std::sync::Arc;

/// A transfer that was taken.
#[derive(Debug, Drop)]
pub struct Taken {
    pub zone: Name,
    /// The position of the entry that the zone began by; 0 for a catalog.
    pub incarnation: u64,
    pub ask: Ask,
    /// The ID of the query.
    pub id: u16,
    /// The messages, each preceded by its length in two octets.
    pub octets: Octets,
    /// The moment of the transfer's job in seconds, below 2^40.
    pub moment: u64,
}

/// An entry of the list: the configuration, which comes first, or a transfer.
#[derive(Debug, Drop)]
pub enum Entry {
    Setup(Config),
    Transfer(Taken),
}

/// One more entry of the list, and the table that answers after it.
#[derive(Drop)]
pub struct Step {
    pub entry: Entry,
    pub table: Arc<Table>,
}
