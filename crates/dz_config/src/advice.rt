//! What to correct in a configuration.
ghost use Rattle.std.specs.Prelude.{IfSome, Err};
ghost use Rattle.dz_config.specs.Answers.{Reads};

use crate::config::{TEXT_OCTETS, read_config};
use crate::entry::Found;
use crate::fault::{ConfigError, ConfigFault};
use crate::key::Key;
use crate::keys::Place;
use crate::lines::Lines;
use std::alloc::Global;
use std::fmt;
use toml::de::Error;

/// What was expected where a configuration can't be read.
#[derive(Clone, Copy, Debug, PartialEq, Eq)]
pub enum Expected {
    /// TOML.
    Toml(Error),
    /// A text of at most `TEXT_OCTETS` octets.
    Shorter,
    /// The table, which begins with two brackets.
    TwoBrackets(Place),
    /// A value of the kind that the key takes, in place of one of another kind.
    Kind(Key, Found),
    /// No such fault, whose line isn't known.
    Without(ConfigFault),
    /// A key or a table that the place has.
    Known(Place),
    /// A value that the key takes.
    Value(Key),
    /// The key, which is missing in the table that begins there.
    Present(Key),
    /// Counts within their limits.
    Within,
    /// Each catalog once, and each word of a catalog once.
    Once,
    /// Secrets that can be used.
    Secrets,
}

/// The line of a configuration at which something is to be corrected, and what was expected there. It contains nothing
/// of the text, and so no secret.
#[derive(Clone, Copy, Debug, PartialEq, Eq)]
pub struct Advice {
    /// The line, from 1.
    pub line: usize,
    pub expected: Expected,
}

impl fmt::Display for Advice {
    /// Writes the line and what was expected there.
    fn fmt<W: fmt::Write>(&self, f: &mut fmt::Formatter<W>) -> fmt::Result {
        let line = self.line;
        match self.expected {
            Expected::Without(fault) => write!(f, "at a line that isn't known: {fault}"),
            expected => write!(f, "line {line}: {expected}"),
        }
    }
}

impl fmt::Display for Expected {
    /// Writes what was expected.
    fn fmt<W: fmt::Write>(&self, f: &mut fmt::Formatter<W>) -> fmt::Result {
        match *self {
            Expected::Toml(error) => write!(f, "this is no TOML: {}", error.message()),
            Expected::Shorter => write!(f, "the text has more than {TEXT_OCTETS} octets"),
            Expected::TwoBrackets(place) => {
                let header = place.header();
                write!(f, "expected {header}, found one bracket on each side")
            }
            Expected::Known(place) => {
                write!(f, "unknown key or table; expected {}", place.keys())
            }
            Expected::Kind(key, found) => {
                let (name, takes, found) = (key.name(), key.takes(), found.name());
                write!(f, "{name}: expected {takes}, found {found}")
            }
            Expected::Value(key) => write!(f, "{}: expected {}", key.name(), key.takes()),
            Expected::Present(key) => {
                write!(f, "{} is missing: expected {}", key.name(), key.takes())
            }
            Expected::Without(fault) => write!(f, "{fault}"),
            Expected::Within => write!(f, "{}", ConfigFault::OutOfLimits),
            Expected::Once => write!(f, "expected each catalog once, and in each each word once"),
            Expected::Secrets => { write!(f, "expected each secret to be {}", Key::Secret.takes()) }
        }
    }
}

/// What to correct in a configuration that can't be read. None where it can, or where memory runs out.
pub fn advise(alloc: Global, text: &[u8]) -> Option<Advice>
    ensures faulty { IfSome result
        (λ _. (fault : ConfigFault) × Reads text.now (Err (ConfigError.Fault fault))) }
{
    match read_config(alloc, text) {
        Ok(_) | Err(ConfigError::OutOfMemory) => None,
        Err(ConfigError::Fault(ConfigFault::NotToml)) if text.len() > TEXT_OCTETS => Some(Advice {
            line: 1,
            expected: Expected::Shorter,
        }),
        Err(ConfigError::Fault(ConfigFault::NotToml)) => of_toml(alloc, text),
        Err(ConfigError::Fault(fault)) => of_lines(text, fault),
    }
}

/// Where a text is no TOML, and why.
fn of_toml(alloc: Global, text: &[u8]) -> Option<Advice> {
    match toml::table_from_slice(alloc, text) {
        Ok(_) => Some(Advice {
            line: 1,
            expected: Expected::Within,
        }),
        Err(error) => {
            let place = error.span()?.start;
            Some(Advice {
                line: line_of(text, place),
                expected: Expected::Toml(error),
            })
        }
    }
}

/// The line, from 1, of the octet at a place.
fn line_of(text: &[u8], place: usize) -> usize {
    let before = text.get(..place).unwrap_or(&[]);
    before.iter().fold(1, |line: usize, octet| {
        if *octet == b'\n' {
            line.saturating_add(1)
        } else {
            line
        }
    })
}

/// What to correct in the lines of a document that has this fault: the first line that isn't right, or else a missing
/// key.
fn of_lines(text: &[u8], fault: ConfigFault) -> Option<Advice> {
    let Ok(text) = str::from_utf8(text) else {
        return None;
    };
    let mut reading = Lines::new();
    let mut line = 0_usize;
    'lines: for piece in text.split('\n') {
        line = line.saturating_add(1);
        if let Some(expected) = reading.next(line, piece) {
            return Some(expected);
        }
    }
    reading.missing().or(Some(Advice {
        line: 1,
        expected: match fault {
            ConfigFault::OutOfLimits => Expected::Within,
            ConfigFault::MissingValue => Expected::Within,
            ConfigFault::Twice => Expected::Once,
            ConfigFault::BadSecret => Expected::Secrets,
            fault => Expected::Without(fault),
        },
    }))
}
