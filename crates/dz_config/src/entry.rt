//! The lines of a configuration.
use crate::key::Key;
use crate::keys::Place;

/// What a line of a configuration says.
#[derive(Clone, Copy, Debug, PartialEq, Eq)]
pub(crate) enum Entry<'a> {
    /// Nothing, or a comment.
    Empty,
    /// A table begins.
    Header(Place),
    /// The same, with one bracket on each side in place of two.
    OneBracket(Place),
    /// A table or a key that isn't known.
    Unknown,
    /// A key, and what follows its equals sign.
    Value(Key, &'a str),
    /// The rest of a value that was begun above.
    Rest(&'a str),
}

impl<'a> Entry<'a> {
    /// What a line says within a place.
    pub(crate) fn of(place: Place, line: &'a str) -> Entry<'a> {
        let line = before_remark(line).trim_ascii();
        if line.is_empty() {
            return Entry::Empty;
        }
        if line.starts_with('[') {
            return Entry::of_header(line);
        }
        match line.split_once('=') {
            Some((name, text)) => match Key::of(place, bare_name(name)) {
                Some(key) => Entry::Value(key, text.trim_ascii()),
                None => Entry::Unknown,
            },
            None => Entry::Rest(line),
        }
    }

    /// What a line says that begins with a bracket.
    fn of_header(line: &str) -> Entry<'a> {
        let (text, is_double) = match line.strip_prefix("[[") {
            Some(rest) => (rest.strip_suffix("]]"), true),
            None => (
                line.strip_prefix('[')
                    .and_then(|rest| rest.strip_suffix(']')),
                false,
            ),
        };
        match (text.and_then(Place::of_name), is_double) {
            (Some(place), true) => Entry::Header(place),
            (Some(place), false) => Entry::OneBracket(place),
            (None, _) => Entry::Unknown,
        }
    }
}

/// A key's name without spaces and quotes around it.
fn bare_name(name: &str) -> &str {
    let name = name.trim_ascii();
    let quoted = name
        .strip_prefix('"')
        .and_then(|rest| rest.strip_suffix('"'));
    quoted.unwrap_or(name)
}

/// What a line has before a remark: before the first `#` that isn't in quotes.
fn before_remark(line: &str) -> &str {
    let mut quote = None;
    'octets: for (at, octet) in line.as_bytes().iter().enumerate() {
        match quote {
            None if *octet == b'#' => return line.get(..at).unwrap_or(line),
            None if *octet == b'"' || *octet == b'\'' => quote = Some(*octet),
            Some(open) if open == *octet => quote = None,
            _ => {}
        }
    }
    line
}

/// What a value is, by how it begins.
#[derive(Clone, Copy, Debug, PartialEq, Eq)]
pub enum Found {
    Text,
    List,
    Table,
    /// A number, a date, true or false.
    Other,
}

impl Found {
    /// What a value is that begins so.
    pub(crate) fn of(text: &str) -> Found {
        match text.as_bytes() {
            [b'"' | b'\'', ..] => Found::Text,
            [b'[', ..] => Found::List,
            [b'{', ..] => Found::Table,
            _ => Found::Other,
        }
    }

    /// Its name.
    pub fn name(self) -> &'static str {
        match self {
            Found::Text => "a text in quotes",
            Found::List => "a list in brackets",
            Found::Table => "a table in braces",
            Found::Other => "a value without quotes",
        }
    }
}

/// Whether each text in quotes is one that the key takes, and nothing but brackets and commas is outside of quotes. A
/// text with a backslash, or in three quotes, isn't judged.
pub(crate) fn is_well(key: Key, text: &str) -> bool {
    if text.contains('\\') || text.contains("\"\"\"") || text.contains("'''") {
        return true;
    }
    let quote = if text.contains('"') { '"' } else { '\'' };
    let mut is_text = false;
    'pieces: for piece in text.split(quote) {
        let is_taken = if is_text {
            key.is_taken(piece)
        } else {
            piece
                .as_bytes()
                .iter()
                .all(|octet| b"[], \t\r".contains(octet))
        };
        if !is_taken {
            return false;
        }
        is_text = !is_text;
    }
    true
}
