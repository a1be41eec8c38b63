//! Listings of catalogs, and which zones are members of which catalog (RFC 9432).
#![tactic(auto)]

mod change;
mod edit;
mod edits;
mod fold;
mod groups;
mod judge;
mod keyed;
mod known;
mod laws;
mod listing;
mod members;
mod membership;
mod nodes;
mod process;
mod settled;
mod sort;
mod walk;

pub use change::{Change, Changes, Told, What};
pub use edit::Edit;
pub use fold::Fold;
pub use laws::{changes_once, held_once, in_any_order, keeps_state, moves_with_consent, stays};
pub use listing::{Broken, Listing, Node, Texts};
pub use members::Memberships;
pub use membership::{Member, Membership};
