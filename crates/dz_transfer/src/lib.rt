//! Transfer workers: each asks for a job, fetches its transfer, and ends the job by what came of it, again and again (RFC
//! 5936 section 6, RFC 1995 section 4).
#![tactic(auto)]

mod keep;
mod report;
mod serve;
mod work;

pub use keep::work_and_keep;
pub use report::Report;
pub use serve::{TransferEnd, Transfers, serve_transfers};
pub use work::{Worked, work_one};
