//! Why a text is no configuration.

ghost use Rattle.std.specs.Prelude.{◌≡◌};
ghost use Rattle.dz_config.specs.Reading.{number_of, least};
ghost use Rattle.dz_config.specs.declared.fault.ConfigError.TheVariants.{OutOfMemory};

use std::alloc::AllocError;
use thiserror::Error;

/// What is wrong with a configuration. Where more than one holds, the first in this order counts.
#[derive(Clone, Copy, Debug, PartialEq, Eq, Error)]
pub enum ConfigFault {
    /// The text is longer than 1,048,576 octets ([`crate::TEXT_OCTETS`]), or it is no TOML.
    #[error("this is no TOML")]
    NotToml,
    /// A table has an unknown key.
    #[error("a key or a table isn't known")]
    UnknownKey,
    /// A key is missing, or its value is of another kind.
    #[error("a key is missing, or its value is of another kind")]
    MissingValue,
    /// A catalog's name is no domain name.
    #[error("a name or a key's name is no domain name")]
    BadName,
    /// A policy is none of `off`, `present` and `require`.
    #[error("a policy is none of \"off\", \"present\" and \"require\"")]
    UnknownPolicy,
    /// A host is neither an address nor an address with a port.
    #[error("an address is none of IPv4, or its port is wrong")]
    BadPeer,
    /// There are too few or too many catalogs, groups or primaries, or a word isn't 1 to 255 octets of visible ASCII.
    #[error("expected 1 to 8 catalogs, at most 64 groups in each, 1 to 8 primaries in each, and at most 16 downstream addresses")]
    OutOfLimits,
    /// A catalog appears twice, or a word twice in one catalog.
    #[error("a catalog, or a word of a catalog, appears twice")]
    Twice,
    /// A secret isn't hex of 1 to 64 octets.
    #[error("a secret isn't 1 to 64 octets in hexadecimal")]
    BadSecret,
}

impl ConfigFault {
    /// The number of the fault, from 1 to 9.
    pub fn number(self) -> u8
        ensures { result ≡ number_of self }
    {
        match self {
            ConfigFault::NotToml => 1,
            ConfigFault::UnknownKey => 2,
            ConfigFault::MissingValue => 3,
            ConfigFault::BadName => 4,
            ConfigFault::UnknownPolicy => 5,
            ConfigFault::BadPeer => 6,
            ConfigFault::OutOfLimits => 7,
            ConfigFault::Twice => 8,
            ConfigFault::BadSecret => 9,
        }
    }
}

/// The lesser of two faults.
pub(crate) fn least(one: ConfigFault, other: ConfigFault) -> ConfigFault
    ensures { result ≡ least one other }
{
    if one.number() <= other.number() {
        one
    } else {
        other
    }
}

/// Why there is no configuration.
#[derive(Clone, Copy, Debug, PartialEq, Eq)]
pub enum ConfigError {
    /// The text has none.
    Fault(ConfigFault),
    /// Out of memory.
    OutOfMemory,
}

impl From<AllocError> for ConfigError {
    ghost from_gives = { λ _ e. e ≡ OutOfMemory };

    /// Out of memory becomes [`ConfigError::OutOfMemory`].
    fn from(_error: AllocError) -> ConfigError {
        ConfigError::OutOfMemory
    }
}
