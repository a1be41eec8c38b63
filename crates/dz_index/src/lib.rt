//! The owners of a zone by their sort keys, for searches within a stated number of comparisons.
#![tactic(auto)]

mod index;
mod keys;
mod lead;
mod octets;
mod owner_key;
mod places;
mod shared;
mod sort_key;

pub use index::{Index, OWNERS, Run};
pub use lead::{LEAD, lead_of};
pub use owner_key::OwnerKey;
pub use shared::labels_apart;
pub use sort_key::SortKey;
