//! The catalogs that are configured, and how the zones of each are fetched and judged.

ghost use Rattle.std.specs.Prelude.{◌≡◌, length};

use crate::key::Key;
use dz_io::Peer;
use dz_name::{Name, Octets};
use std::marker::Model;

/// Which new versions of a zone are accepted, by what its ZONEMD records show (RFC 8976 section 4).
#[derive(Clone, Copy, Debug, PartialEq, Eq)]
pub enum Policy {
    /// All.
    Off,
    /// Those without a digest that is wrong.
    Present,
    /// Those with a digest that verifies.
    Require,
}

/// The hosts that a zone is fetched from, in the order in which they are tried.
#[derive(Debug, Drop)]
pub struct Peers {
    items: Vec<Peer>,
}

impl Model for Peers {
    ghost use Rattle.std.specs.Prelude.{List};
    ghost use Rattle.dz_io.specs.declared.peer.Peer.{Peer};

    ghost Value = { List Peer };

    ghost view = { λ p. p.items.items };
}

impl Peers {
    /// Takes over a vector, without memory of its own.
    pub fn from_vec(items: Vec<Peer>) -> Peers
        ensures { result ≡ items.items }
    {
        Peers { items }
    }

    /// Gives the vector back.
    pub fn into_vec(self) -> Vec<Peer>
        ensures { result.items ≡ self }
    {
        self.items
    }

    /// The hosts, in the order in which they are tried.
    pub fn as_slice(&self) -> &[Peer]
        ensures { result.now ≡ self.now }
    {
        self.items.as_slice()
    }
}

/// How the members of a group are fetched and judged. A node belongs to the group where it has a TXT record of this
/// word.
#[derive(Debug, Drop)]
pub struct GroupSettings {
    /// 1 to 255 octets of visible ASCII.
    pub word: Octets,
    pub policy: Policy,
    /// 1 to 8 hosts.
    pub primaries: Peers,
}

/// The groups of a catalog.
#[derive(Debug, Drop)]
pub struct Groups {
    items: Vec<GroupSettings>,
}

impl Model for Groups {
    ghost use Rattle.std.specs.Prelude.{List};
    ghost use Rattle.dz_settings.specs.declared.config.GroupSettings.{GroupSettings};

    ghost Value = { List GroupSettings };

    ghost view = { λ g. g.items.items };
}

impl Groups {
    /// Takes over a vector, without memory of its own.
    pub fn from_vec(items: Vec<GroupSettings>) -> Groups
        ensures { result ≡ items.items }
    {
        Groups { items }
    }

    /// Gives the vector back.
    pub fn into_vec(self) -> Vec<GroupSettings>
        ensures { result.items ≡ self }
    {
        self.items
    }

    /// The groups, in the order of the configuration.
    pub fn as_slice(&self) -> &[GroupSettings]
        ensures { result.now ≡ self.now }
    {
        self.items.as_slice()
    }
}

/// A catalog: how it is fetched and judged itself, and so are its members, but for those of its groups.
#[derive(Debug, Drop)]
pub struct CatalogSettings {
    /// The name of the catalog zone.
    pub name: Name,
    pub policy: Policy,
    /// 1 to 8 hosts.
    pub primaries: Peers,
    /// At most 64, each with a word of its own.
    pub groups: Groups,
    /// The key with which transfers of the catalog and of its members are signed, those of its groups among them.
    pub key: Option<Key>,
}

/// The catalogs, in the order of the configuration. What takes one requires that it is within the limits
/// ([`Config::is_allowed`]).
#[derive(Debug, Drop)]
pub struct Config {
    catalogs: Vec<CatalogSettings>,
}

impl Model for Config {
    ghost use Rattle.std.specs.Prelude.{List};
    ghost use Rattle.dz_settings.specs.declared.config.CatalogSettings.{CatalogSettings};

    ghost Value = { List CatalogSettings };

    ghost view = { λ c. c.catalogs.items };
}

impl Config {
    /// Takes over a vector, without memory of its own.
    pub fn from_vec(catalogs: Vec<CatalogSettings>) -> Config
        ensures { result ≡ catalogs.items }
    {
        Config { catalogs }
    }

    /// Gives the vector back.
    pub fn into_vec(self) -> Vec<CatalogSettings>
        ensures { result.items ≡ self }
    {
        self.catalogs
    }

    /// The catalogs, in the order of the configuration.
    pub fn catalogs(&self) -> &[CatalogSettings]
        ensures { result.now ≡ self.now }
    {
        self.catalogs.as_slice()
    }
}
