//! The program's commands over a source and a sink, ports, a clock and a disk: `run`, and the parts of it for each
//! command.
#![tactic(auto)]

mod answering;
mod book;
mod commands;
mod ends;
mod events;
mod laws;
mod opening;
mod rehearse;
mod replaying;
mod script;
mod stage;
mod status;
mod zone_line;

pub use commands::{Ended, Played, answer, produce, replay, run, run_kept, run_replay};
pub use ends::Ends;
pub use status::{Status, exit_code};
