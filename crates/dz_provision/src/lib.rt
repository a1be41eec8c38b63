//! What is under the lock of a server: the core, the list's publisher and the log, which agree at each moment at which
//! the lock is free (RFC 9432 section 5).
#![tactic(auto)]

mod copied;
mod ending;
mod endings;
mod hand;
mod hear;
mod jobs;
mod keep;
mod kept_jobs;
mod log;
mod naming;
mod provisioner;
mod restored;
mod see;
mod settle;
mod shared;
mod starved;
mod unkept;
mod witness;

pub use ending::{Ended, Ending};
pub use endings::Endings;
pub use jobs::Jobs;
pub use keep::keep_last;
pub use kept_jobs::Keeping;
pub use naming::Naming;
pub use provisioner::{LogFault, Parts, Provisioner, Unmade, Unstarted};
pub use restored::{Restored, restore};
pub use shared::{Locked, Shared};
pub use witness::Witness;
