//! Streams of a zone's version as they are sent (RFC 5936 section 2.2).
#![tactic(auto)]

mod fit;
mod laws;
mod outgoing;

pub use fit::is_fit;
pub use laws::comes_back;
pub use outgoing::{Outgoing, Unfit};
