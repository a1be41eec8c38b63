//! The limits of a configuration.

ghost use Rattle.std.specs.Prelude.{◌≡◌, nat_le};
ghost use Rattle.std.specs.List.{list_all, list_any};
ghost use Rattle.std.specs.Str.{bytes_eq};
ghost use Rattle.dz_name.specs.Name.{same_name};
ghost use Rattle.dz_settings.specs.Config.{same_word, same_catalog, is_count, is_visible, is_word, are_primaries};
ghost use Rattle.dz_settings.specs.Config.{is_group, is_catalog, is_within_limits, has_words_once, has_each_once};
ghost use Rattle.dz_settings.specs.Config.{has_secret, has_secrets, is_allowed};
ghost use Rattle.dz_settings.specs.Twice.{has_twice};

use crate::config::{CatalogSettings, Config, GroupSettings, Peers};
use dz_io::Peer;
use dz_name::Name;

/// The most catalogs of a configuration.
pub const CATALOGS: usize = 8;
/// The most groups of a catalog.
pub const CATALOG_GROUPS: usize = 64;
/// The most primaries of a catalog or a group.
pub const PRIMARIES: usize = 8;
/// The most octets of a group's word.
pub const WORD_OCTETS: usize = 255;
/// The most octets of a key's secret.
pub const SECRET_OCTETS: usize = 64;

impl Peers {
    /// Whether these can be the primaries of a zone: 1 to 8, none of port 0.
    pub fn are_primaries(&self) -> bool
        ensures { result ≡ are_primaries self.now }
    {
        is_count(PRIMARIES, self.as_slice().len()) && have_ports(self.as_slice())
    }
}

impl GroupSettings {
    /// Whether the word and the primaries are within their limits.
    pub fn is_allowed(&self) -> bool
        ensures { result ≡ is_group self.now }
    {
        is_word(self.word.as_slice()) && self.primaries.are_primaries()
    }
}

impl CatalogSettings {
    /// Whether the primaries, the count of groups and each group are within their limits.
    pub fn is_within_limits(&self) -> bool
        ensures { result ≡ is_catalog self.now }
    {
        self.primaries.are_primaries()
            && self.groups.as_slice().len() <= CATALOG_GROUPS
            && are_groups(self.groups.as_slice())
    }

    /// Whether its secret has 1 to 64 octets, where it has a key.
    pub fn has_secret(&self) -> bool
        ensures { result ≡ has_secret self.now }
    {
        match &self.key {
            None => true,
            Some(key) => is_count(SECRET_OCTETS, key.secret.as_slice().len()),
        }
    }

    /// Whether no word appears twice.
    pub fn has_words_once(&self) -> bool
        ensures { result ≡ has_words_once self.now }
    {
        !has_word_twice(self.groups.as_slice())
    }
}

impl Config {
    /// Whether there are 1 to 8 catalogs, each within its limits.
    pub fn is_within_limits(&self) -> bool
        ensures { result ≡ is_within_limits self.now }
    {
        is_count(CATALOGS, self.catalogs().len()) && are_catalogs(self.catalogs())
    }

    /// Whether no catalog appears twice, and no word twice in one catalog.
    pub fn has_each_once(&self) -> bool
        ensures { result ≡ has_each_once self.now }
    {
        !has_name_twice(self.catalogs()) && have_words_once(self.catalogs())
    }

    /// Whether each secret has 1 to 64 octets.
    pub fn has_secrets(&self) -> bool
        ensures { result ≡ has_secrets self.now }
    {
        have_secrets(self.catalogs())
    }

    /// Whether the configuration is within the limits, names nothing twice and has secrets that can be used.
    pub fn is_allowed(&self) -> bool
        ensures { result ≡ is_allowed self.now }
    {
        self.is_within_limits() && self.has_each_once() && self.has_secrets()
    }
}

/// Whether a number is from 1 to the given maximum.
fn is_count(most: usize, n: usize) -> bool
    ensures { result ≡ is_count most n }
{
    1 <= n && n <= most
}

/// Whether these octets can be a group's word: 1 to 255 octets of visible ASCII.
pub fn is_word(octets: &[u8]) -> bool
    ensures { result ≡ is_word octets.now }
{
    is_count(WORD_OCTETS, octets.len()) && are_visible(octets)
}

/// Whether all octets are visible ASCII.
fn are_visible(octets: &[u8]) -> bool
    ensures { result ≡ list_all is_visible octets.now }
{
    octets.iter().all(|&octet| 33 <= octet && octet <= 126)
}

/// Whether no peer has port 0.
fn have_ports(peers: &[Peer]) -> bool
    ensures { result ≡ list_all (λ peer. nat_le 1 peer.port) peers.now }
{
    peers.iter().all(|peer| 1 <= peer.port)
}

/// Whether each group is within its limits.
fn are_groups(groups: &[GroupSettings]) -> bool
    ensures { result ≡ list_all is_group groups.now }
{
    groups.iter().all(|group| group.is_allowed())
}

/// Whether each catalog is within its limits.
fn are_catalogs(catalogs: &[CatalogSettings]) -> bool
    ensures { result ≡ list_all is_catalog catalogs.now }
{
    catalogs.iter().all(|catalog| catalog.is_within_limits())
}

/// Whether in each catalog no word appears twice.
fn have_words_once(catalogs: &[CatalogSettings]) -> bool
    ensures { result ≡ list_all has_words_once catalogs.now }
{
    catalogs.iter().all(|catalog| catalog.has_words_once())
}

/// Whether the secret of each catalog that has a key has 1 to 64 octets.
fn have_secrets(catalogs: &[CatalogSettings]) -> bool
    ensures { result ≡ has_secrets catalogs.now }
{
    catalogs.iter().all(|catalog| catalog.has_secret())
}

/// Whether a group has this word.
fn has_word(word: &[u8], groups: &[GroupSettings]) -> bool
    ensures { result ≡ list_any (λ g. bytes_eq word.now g.word) groups.now }
{
    groups.iter().any(|group| word == group.word.as_slice())
}

/// Whether a catalog has this name.
fn has_name(name: &Name, catalogs: &[CatalogSettings]) -> bool
    ensures { result ≡ list_any (λ c. same_name name.now c.name) catalogs.now }
{
    catalogs.iter().any(|catalog| name.same(&catalog.name))
}

/// Whether some two groups have one word.
fn has_word_twice(groups: &[GroupSettings]) -> bool
    ensures { result ≡ has_twice same_word groups.now }
{
    match groups.split_first() {
        None => false,
        Some((first, rest)) => { has_word(first.word.as_slice(), rest) || has_word_twice(rest) }
    }
}

/// Whether some two catalogs have one name.
fn has_name_twice(catalogs: &[CatalogSettings]) -> bool
    ensures { result ≡ has_twice same_catalog catalogs.now }
{
    match catalogs.split_first() {
        None => false,
        Some((first, rest)) => { has_name(&first.name, rest) || has_name_twice(rest) }
    }
}
