//! A counter of steps, for contracts alone: it has no octets at run time.
#![tactic(auto)]

mod steps;

pub use steps::Steps;
