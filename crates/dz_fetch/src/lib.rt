//! The transfer of a job from a source, and over a link to its primary.
#![tactic(auto)]

mod fetched;
mod fetching;
mod frames;
mod query;
mod take;

pub use fetched::Fetched;
pub use fetching::fetch;
pub use take::take_all;
