//! Tests that cross crates, from catalogs to transfer workers, and the fixtures that they share: names, records, versions,
//! messages, transfers, configurations and desks. All of it is for tests: a build has no item of this crate.
#![tactic(auto)]

#[cfg(test)]
mod catalog;
#[cfg(test)]
mod configs;
#[cfg(test)]
mod desk;
#[cfg(test)]
mod desks;
#[cfg(test)]
mod fetch;
#[cfg(test)]
mod keeping;
#[cfg(test)]
mod links;
#[cfg(test)]
mod messages;
#[cfg(test)]
mod names;
#[cfg(test)]
mod provision;
#[cfg(test)]
mod records;
#[cfg(test)]
mod reply;
#[cfg(test)]
mod signed;
#[cfg(test)]
mod store;
#[cfg(test)]
mod take;
#[cfg(test)]
mod transfers;
#[cfg(test)]
mod versions;
#[cfg(test)]
mod work;
