//! The list of taken transfers, and what the catalogs assign after it (RFC 9432 section 5): memberships, versions, and
//! the table that answers.
#![tactic(auto)]

mod aftermath;
mod entry;
mod held;
mod history;
mod holdings;
mod laws;
mod past;
mod processed;
mod table_after;
mod table_changed;
mod take;

pub use aftermath::Aftermath;
pub use entry::{Entry, Step, Taken};
pub use history::History;
pub use holdings::Holdings;
pub use laws::{begins_empty, broken_keeps, records_are_own, refused_keeps};
