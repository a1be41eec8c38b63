//! The generated script goes on to its end: no line of it is bad.
#![tactic(auto)]

mod laws;
