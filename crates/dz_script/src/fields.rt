//! Fields of a text, one octet between each two.

ghost use Rattle.std.specs.Prelude.{◌≡◌, ◌∷◌, [], IsTrue, ◌↔◌, MatchOption, option_map};
ghost use Rattle.dz_name.specs.Words.{Octets};
ghost use Rattle.dz_script.specs.Fields.{parts_of, one, two, three};

use dz_settings::cut;
use std::marker::Model;

/// The fields that are left of a text. Contracts see the list of them.
#[derive(Drop)]
pub struct Fields<'a> {
    rest: Option<&'a [u8]>,
    separator: u8,
}

impl<'a> Model for Fields<'a> {
    ghost use Rattle.std.specs.Prelude.{List, option_map};
    ghost use Rattle.dz_name.specs.Words.{Octets};
    ghost use Rattle.dz_script.specs.inner.Left.{parts_left};

    ghost Value = { List Octets };

    ghost view = { λ f. parts_left f.separator (option_map (λ text. text.now) f.rest) };
}

impl<'a> Fields<'a> {
    /// The fields of a text.
    pub fn of(text: &'a [u8], separator: u8) -> Fields<'a>
        ensures { result ≡ parts_of separator text.now }
    {
        Fields {
            rest: Some(text),
            separator,
        }
    }

    /// Whether no field is left.
    pub fn is_empty(&self) -> bool
        ensures { IsTrue result ↔ (self.now ≡ []) }
    {
        self.rest.is_none()
    }

    /// The first field, and those after it.
    pub fn split_first(self) -> Option<(&'a [u8], Fields<'a>)>
        ensures { MatchOption result (self.entry ≡ [])
            (λ parts. self.entry ≡ parts.0.now ∷ parts.1) }
    {
        let separator = self.separator;
        let text = self.rest?;
        match cut(separator, text) {
            None => Some((
                text,
                Fields {
                    rest: None,
                    separator,
                },
            )),
            Some((first, rest)) => Some((first, Fields::of(rest, separator))),
        }
    }

    /// The one field, where there is just one.
    pub fn one(self) -> Option<&'a [u8]>
        ensures { option_map (λ field. field.now) result ≡ one self.entry }
    {
        let (field, fields) = self.split_first()?;
        if fields.is_empty() { Some(field) } else { None }
    }

    /// Two fields, where there are just two.
    pub fn two(self) -> Option<(&'a [u8], &'a [u8])>
        ensures { option_map (λ f. (f.0.now, f.1.now)) result ≡ two self.entry }
    {
        let (first, fields) = self.split_first()?;
        let second = fields.one()?;
        Some((first, second))
    }

    /// Three fields, where there are just three.
    pub fn three(self) -> Option<(&'a [u8], &'a [u8], &'a [u8])>
        ensures { option_map (λ f. (f.0.now, f.1.now, f.2.now)) result ≡ three self.entry }
    {
        let (first, fields) = self.split_first()?;
        let (second, third) = fields.two()?;
        Some((first, second, third))
    }
}
