//! The lines of a configuration, one after the other.
use crate::advice::{Advice, Expected};
use crate::entry::{Entry, Found, is_well};
use crate::key::Key;
use crate::keys::Place;

/// What was read of the lines so far.
#[derive(Drop)]
pub(crate) struct Lines {
    place: Place,
    /// The line at which the table began.
    header: usize,
    /// The key whose value was read last, and all keys of the table.
    key: Option<Key>,
    has_listen: bool,
    has_name: bool,
    has_policy: bool,
    has_primaries: bool,
    has_key: bool,
    has_secret: bool,
}

impl Lines {
    /// Before the first line.
    pub(crate) fn new() -> Lines {
        Lines {
            place: Place::Document,
            header: 1,
            key: None,
            has_listen: false,
            has_name: false,
            has_policy: false,
            has_primaries: false,
            has_key: false,
            has_secret: false,
        }
    }

    /// Reads a line; the answer is what is to be corrected in it, if anything is.
    pub(crate) fn next(&mut self, line: usize, text: &str) -> Option<Advice> {
        match Entry::of(self.place, text) {
            Entry::Empty => None,
            Entry::Header(place) => {
                let missing = self.missing();
                self.begin(place, line);
                missing
            }
            Entry::OneBracket(place) => Some(Advice {
                line,
                expected: Expected::TwoBrackets(place),
            }),
            Entry::Unknown => Some(Advice {
                line,
                expected: Expected::Known(self.place),
            }),
            Entry::Value(key, text) => {
                self.key = Some(key);
                self.mark(key);
                kind_of(line, key, text).or(judged(line, key, text))
            }
            Entry::Rest(text) => judged(line, self.key?, text),
        }
    }

    /// A table begins.
    fn begin(&mut self, place: Place, line: usize) {
        self.place = place;
        self.header = line;
        self.key = None;
        self.has_name = false;
        self.has_policy = false;
        self.has_primaries = false;
        self.has_key = false;
        self.has_secret = false;
    }

    /// A key has a value.
    fn mark(&mut self, key: Key) {
        match key {
            Key::Listen => self.has_listen = true,
            Key::Downstream => {}
            Key::Name | Key::Word => self.has_name = true,
            Key::Policy => self.has_policy = true,
            Key::Primaries => self.has_primaries = true,
            Key::KeyName => self.has_key = true,
            Key::Secret => self.has_secret = true,
        }
    }

    /// The first key that the table lacks; none where it has all.
    pub(crate) fn missing(&self) -> Option<Advice> {
        let key = match self.place {
            Place::Document if !self.has_listen => Key::Listen,
            Place::Catalog if !self.has_name => Key::Name,
            Place::Group if !self.has_name => Key::Word,
            Place::Catalog | Place::Group if !self.has_policy => Key::Policy,
            Place::Catalog | Place::Group if !self.has_primaries => Key::Primaries,
            Place::Catalog if self.has_secret && !self.has_key => Key::KeyName,
            Place::Catalog if self.has_key && !self.has_secret => Key::Secret,
            _ => return None,
        };
        Some(Advice {
            line: self.header,
            expected: Expected::Present(key),
        })
    }
}

/// What is to be corrected where a value is of another kind than the key takes; none where it is of that kind.
fn kind_of(line: usize, key: Key, text: &str) -> Option<Advice> {
    let found = Found::of(text);
    let takes = if key.is_list() {
        Found::List
    } else {
        Found::Text
    };
    if found == takes {
        return None;
    }
    Some(Advice {
        line,
        expected: Expected::Kind(key, found),
    })
}

/// What is to be corrected where a text isn't one that the key takes; none where it is.
fn judged(line: usize, key: Key, text: &str) -> Option<Advice> {
    let is_empty = key == Key::Primaries && text == "[]";
    if is_well(key, text) && !is_empty {
        None
    } else {
        Some(Advice {
            line,
            expected: Expected::Value(key),
        })
    }
}
