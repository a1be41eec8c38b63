//! Tests of sessions and of the commands over devices in memory, with what they share. All of it is for tests: a build has
//! no item of this crate.
#![tactic(auto)]

#[cfg(test)]
mod desks;
#[cfg(test)]
mod query;
#[cfg(test)]
mod replay;
#[cfg(test)]
mod run;
#[cfg(test)]
mod serve;
