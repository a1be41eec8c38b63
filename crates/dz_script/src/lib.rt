//! Scripts: what takes the lines of an input in turn, and the lines of `replay`: catalogs and groups of a
//! configuration, and events at their moments.
#![tactic(auto)]

mod event;
mod fields;
mod hex_text;
mod laws;
mod line;
mod lines;
mod run;
mod script;
mod settings;
mod window;

pub use fields::Fields;
pub use hex_text::read_octets;
pub use laws::fields_are_the_line;
pub use line::{Event, Line, LineError, MOMENTS, is_skipped, read_line};
pub use lines::{LIMIT, Next, NextError, next_line};
pub use run::{ScriptError, run_script};
pub use script::{Script, TurnError, put};
pub use window::Window;
