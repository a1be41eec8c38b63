//! Differences between versions of a zone (RFC 1995 section 4), assembled from the records of message after message.
#![tactic(auto)]

mod differences;
mod laws;

pub use differences::Differences;
pub use dz_xfr::{FeedError, Progress, ShapeFault};
pub use laws::{changes_tell, incremental_form};
