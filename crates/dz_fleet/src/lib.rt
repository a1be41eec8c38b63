//! The core of the server: which transfers are asked for and when, what is taken, what is published, and who is
//! believed (RFC 9432 section 5, RFC 1995 section 4, RFC 1996 section 3).
#![tactic(auto)]

mod absent;
mod ahead;
mod carried;
mod due;
mod fleet;
mod flight;
mod hand_out;
mod laws;
mod places;
mod relisted;
mod relisting;
mod settle;
mod waiting;
mod weigh;
mod weighed;

pub use absent::Absent;
pub use due::{Due, Quiet};
pub use dz_history::{Aftermath, Entry, Step, Taken};
pub use dz_job::{Failure, Flight, Job, Verdict};
pub use dz_notify::Heard;
pub use fleet::{Fleet, Last};
pub use laws::{calls_are_events, core_stays_sound, list_only_grows, list_stays_legal};
pub use weighed::Weighed;
