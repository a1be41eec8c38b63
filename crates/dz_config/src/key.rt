//! The keys of a configuration, and what each takes.
use crate::keys::Place;
use dz_name::Name;
use dz_settings::{SECRET_OCTETS, is_word, read_host, read_peer, read_policy};

impl Place {
    /// The table whose name this is; none where it isn't known.
    pub(crate) fn of_name(name: &str) -> Option<Place> {
        match name.trim_ascii() {
            "catalog" => Some(Place::Catalog),
            "catalog.group" => Some(Place::Group),
            _ => None,
        }
    }

    /// The line that begins it.
    pub(crate) fn header(self) -> &'static str {
        match self {
            Place::Document => "a key",
            Place::Catalog => "[[catalog]]",
            Place::Group => "[[catalog.group]]",
        }
    }

    /// The keys that it has, in words.
    pub(crate) fn keys(self) -> &'static str {
        match self {
            Place::Document =>
                "listen or downstream in front of every table, or a table [[catalog]] or [[catalog.group]]",
            Place::Catalog => "name, policy, primaries, key or secret",
            Place::Group => "word, policy or primaries",
        }
    }
}

/// A key that has a value.
#[derive(Clone, Copy, Debug, PartialEq, Eq)]
pub enum Key {
    Listen,
    Downstream,
    Name,
    Policy,
    Primaries,
    /// `key`, the name of a catalog's key.
    KeyName,
    Secret,
    Word,
}

impl Key {
    /// The key of a place by its name.
    pub(crate) fn of(place: Place, name: &str) -> Option<Key> {
        match (place, name) {
            (Place::Document, "listen") => Some(Key::Listen),
            (Place::Document, "downstream") => Some(Key::Downstream),
            (Place::Catalog, "name") => Some(Key::Name),
            (Place::Catalog, "key") => Some(Key::KeyName),
            (Place::Catalog, "secret") => Some(Key::Secret),
            (Place::Group, "word") => Some(Key::Word),
            (Place::Catalog | Place::Group, "policy") => Some(Key::Policy),
            (Place::Catalog | Place::Group, "primaries") => Some(Key::Primaries),
            _ => None,
        }
    }

    /// Its name.
    pub fn name(self) -> &'static str {
        match self {
            Key::Listen => "listen",
            Key::Downstream => "downstream",
            Key::Name => "name",
            Key::Policy => "policy",
            Key::Primaries => "primaries",
            Key::KeyName => "key",
            Key::Secret => "secret",
            Key::Word => "word",
        }
    }

    /// What it takes, in words.
    pub fn takes(self) -> &'static str {
        match self {
            Key::Listen => "an address and a port in quotes, \"192.0.2.10:53\"",
            Key::Downstream => "at most 16 addresses in brackets, [\"192.0.2.3\"]",
            Key::Name => "a domain name in quotes, \"catalog.example.\"",
            Key::Policy => "\"off\", \"present\" or \"require\"",
            Key::Primaries => "1 to 8 addresses in brackets, [\"192.0.2.1\", \"192.0.2.2:5353\"]",
            Key::KeyName => "a domain name in quotes, \"key.example.\"",
            Key::Secret =>
                "1 to 64 octets in hexadecimal in quotes; base64, as other servers write it, is converted by base64 -d | xxd -p -c 256",
            Key::Word => "1 to 255 octets of visible ASCII in quotes",
        }
    }

    /// Whether it takes a list of texts, and not one text.
    pub(crate) fn is_list(self) -> bool {
        matches!(self, Key::Primaries | Key::Downstream)
    }

    /// Whether a text in quotes is one that it takes.
    pub(crate) fn is_taken(self, text: &str) -> bool {
        let octets = text.as_bytes();
        match self {
            Key::Listen | Key::Primaries => read_peer(octets).is_some(),
            Key::Downstream => read_host(octets).is_some(),
            Key::Name | Key::KeyName => Name::parse(octets).is_ok(),
            Key::Policy => read_policy(octets).is_some(),
            Key::Secret => is_secret(octets),
            Key::Word => is_word(octets),
        }
    }
}

/// Whether a text is 1 to 64 octets in hexadecimal.
fn is_secret(octets: &[u8]) -> bool {
    !octets.is_empty()
        && octets.len() <= 2 * SECRET_OCTETS
        && octets.len() % 2 == 0
        && octets.iter().all(|octet| octet.is_ascii_hexdigit())
}
