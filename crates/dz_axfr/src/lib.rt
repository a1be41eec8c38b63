//! The whole form of a transfer (RFC 5936 section 2.2), assembled from the records of message after message.
#![tactic(auto)]

mod kept;
mod laws;
mod whole;

pub use dz_xfr::{FeedError, Progress, ShapeFault};
pub use laws::whole_form;
pub use whole::Whole;
