//! Configurations as texts.

ghost use Rattle.std.specs.Prelude.{◌≡◌};
ghost use Rattle.toml.specs.View.{table_view};
ghost use Rattle.dz_config.specs.Answers.{Reads, ReadsBy, ReadsDownstream, ReadsTable};
ghost use Rattle.dz_config.specs.Document.{said_of, judged};

use crate::document::settings;
use crate::downstream::Downstream;
use crate::fault::{ConfigError, ConfigFault};
use dz_io::Peer;
use dz_settings::{Config, Peers};
use std::alloc::Global;
use toml::Table;

/// How many octets the text of a configuration has at most: 1 MiB.
pub const TEXT_OCTETS: usize = 1_048_576;

/// What a text says: where the server listens, its catalogs, and the addresses to which zones are sent.
#[derive(Drop)]
pub struct Said {
    pub listen: Peer,
    pub config: Config,
    pub downstream: Downstream,
}

/// Where the server listens, and its catalogs, as a TOML text has them. An error is the least fault that holds, or out
/// of memory.
pub fn read_config(alloc: Global, text: &[u8]) -> Result<(Peer, Config), ConfigError>
    ensures { Reads text.now result }
{
    let Said { listen, config, .. } = read_said(alloc, text)?;
    Ok((listen, config))
}

/// The addresses to which zones are sent, as a TOML text has them; none where it doesn't have the key. An error is that
/// of [`read_config`].
pub fn read_downstream(alloc: Global, text: &[u8]) -> Result<Downstream, ConfigError>
    ensures { ReadsDownstream text.now result }
{
    let said = read_said(alloc, text)?;
    Ok(said.downstream)
}

/// What a text says. An error is that of [`read_config`].
fn read_said(alloc: Global, text: &[u8]) -> Result<Said, ConfigError>
    ensures { ReadsBy said_of text.now result }
{
    if TEXT_OCTETS < text.len() {
        return Err(ConfigError::Fault(ConfigFault::NotToml));
    }
    match toml::table_from_slice(alloc, text) {
        Ok(table) => read_table(alloc, &table),
        Err(error) => {
            if error.is_memory() {
                Err(ConfigError::OutOfMemory)
            } else {
                Err(ConfigError::Fault(ConfigFault::NotToml))
            }
        }
    }
}

/// What a document says. An error is its least fault, or out of memory.
fn read_table(alloc: Global, table: &Table) -> Result<Said, ConfigError>
    ensures { ReadsTable result (said_of (table_view table.now)) }
{
    match settings(alloc, table)? {
        Ok(settings) => match judge(settings) {
            Ok(said) => Ok(said),
            Err(fault) => Err(ConfigError::Fault(fault)),
        },
        Err(fault) => Err(ConfigError::Fault(fault)),
    }
}

/// Settings whose counts and words are within their limits, in which nothing appears twice, and whose secrets can be
/// used. The error is the first of these that doesn't hold.
fn judge(settings: (Peer, (Config, Peers))) -> Result<Said, ConfigFault>
    ensures { result ≡ judged settings }
{
    let (listen, (config, hosts)) = settings;
    if !config.is_within_limits() {
        return Err(ConfigFault::OutOfLimits);
    }
    match Downstream::of(hosts.as_slice()) {
        None => Err(ConfigFault::OutOfLimits),
        Some(downstream) => {
            if !config.has_each_once() {
                return Err(ConfigFault::Twice);
            }
            if !config.has_secrets() {
                return Err(ConfigFault::BadSecret);
            }
            Ok(Said {
                listen,
                config,
                downstream,
            })
        }
    }
}
