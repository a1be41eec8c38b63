//! What a catalog zone lists (RFC 9432 section 4): its member nodes with their properties, or why it is broken.
#![tactic(auto)]

mod broken;
mod edits;
mod fault;
mod labels;
mod laws;
mod listing;
mod names;
mod nodes;

pub use edits::read_edits;
pub use fault::CatalogError;
pub use laws::order_is_free;
pub use listing::read_listing;
