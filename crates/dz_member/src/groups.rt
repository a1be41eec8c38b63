//! The group that a node belongs to (RFC 9432 section 4.3.2).

ghost use Rattle.std.specs.Prelude.{◌≡◌, ◌<◌, ◌≤◌, length, position, option_map};
ghost use Rattle.std.specs.Option.{option_and_then, ForSome};
ghost use Rattle.std.specs.Str.{bytes_eq};
ghost use Rattle.dz_member.specs.Membership.{string_of, choice_of, group_at};

use dz_name::Octets;
use dz_settings::GroupSettings;

/// The text of RDATA that is one character string (RFC 1035 section 3.3).
fn string_of(text: &[u8]) -> Option<&[u8]>
    ensures { option_map (λ r. r.now) result ≡ string_of text.now }
{
    match text.split_first() {
        None => None,
        Some((count, octets)) => {
            if *count as usize == octets.len() {
                Some(octets)
            } else {
                None
            }
        }
    }
}

/// The number of the group that has this word.
fn group_of_word(groups: &[GroupSettings], word: &[u8]) -> Option<usize>
    ensures { result ≡ position (λ g. bytes_eq g.word word.now) groups.now }
{
    groups
        .iter()
        .position(|group| group.word.as_slice() == word)
}

/// The number of the group that has the word of this RDATA.
fn group_of_text(groups: &[GroupSettings], text: &[u8]) -> Option<usize>
    ensures { result ≡ option_and_then (λ word. position (λ g. bytes_eq g.word word) groups.now)
        (string_of text.now) }
{
    match string_of(text) {
        None => None,
        Some(word) => group_of_word(groups, word),
    }
}

/// The number of the group that a node belongs to: that of the first of its TXT records which is a word of the catalog.
pub(crate) fn group_of(groups: &[GroupSettings], texts: &[Octets]) -> Option<u8>
    requires { length groups.now ≤ 64 }
    ensures word { option_map (λ number. (group_at groups.now number).word) result
        ≡ choice_of groups.now texts.now }
    ensures there { ForSome result (λ number. number < length groups.now) }
{
    'texts: for text in texts {
        match group_of_text(groups, text.as_slice()) {
            Some(number) => return Some(number as u8),
            None => {}
        }
    }
    None
}
