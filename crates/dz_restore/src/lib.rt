//! Kept versions, given back to the zones of a core when a server starts again.
#![tactic(auto)]

mod laws;
mod returned;

pub use laws::{restores_exactly, zones_have_turns};
pub use returned::{finished_of, may_return, zone_at};
