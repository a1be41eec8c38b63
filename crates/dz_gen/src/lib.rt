//! A generated life of a server, as a script, and a summary of what the server wrote.
#![tactic(auto)]

mod laws;
mod messages;
mod records;
mod script;
mod summary;
mod texts;

pub use laws::is_readable;
pub use script::{ZONES, generate};
pub use summary::sum_up;
