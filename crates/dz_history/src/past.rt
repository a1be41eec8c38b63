//! A list that no memory holds.

use crate::entry::Entry;
use std::snapshot::Snapshot;

/// A list of entries, of which nothing is kept at run time but how it ends.
#[cycle(past)]
#[derive(Drop)]
pub enum Past {
    /// No entry.
    Start,
    /// One more entry.
    After(Snapshot<Last>),
    /// The same as another.
    Same(Snapshot<Past>),
}

/// An entry, and those before it.
#[cycle(past)]
#[derive(Drop)]
pub struct Last {
    pub(crate) before: Past,
    pub(crate) entry: Snapshot<Entry>,
}
