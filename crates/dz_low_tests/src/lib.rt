//! Tests of single crates, up to `dz_config`, by public calls alone. All of it is for tests: a build has no item of this crate.
#![tactic(auto)]

#[cfg(test)]
mod advice;
#[cfg(test)]
mod config;
#[cfg(test)]
mod ixfr;
#[cfg(test)]
mod parts;
#[cfg(test)]
mod tsig;
#[cfg(test)]
mod zone;
