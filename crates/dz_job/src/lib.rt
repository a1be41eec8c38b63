//! Jobs of a secondary: the transfer of a zone from one of its primaries, and what comes of it.
#![tactic(auto)]

mod flight;
mod job;
mod query;
mod stream;
mod verdict;

pub use flight::Flight;
pub use job::Job;
pub use query::QUERY_OCTETS;
pub use stream::{finish_taking, start_taking, take_stream};
pub use verdict::{Failure, Verdict};
