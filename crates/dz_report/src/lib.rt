//! The lines of the log: jobs, what comes of them, and NOTIFY.
#![tactic(auto)]

mod line;
mod lines;
mod reason;
mod verdict;

pub use line::LogLine;
pub use lines::{failure_line, job_line, notify_line};
pub use reason::{joined, numbered, reason_of};
pub use verdict::verdict_lines;
