//! Words, and the command that they are.
ghost use Rattle.std.specs.Prelude.{◌≡◌, ℕ, Option, option_map};
ghost use Rattle.dz_words.specs.Words.{command_of, one_word, two_words, rehearsal_of};

use dz_name::read_number;
use std::marker::Model;

/// The highest number of a rehearsal.
const REHEARSALS: u64 = 1000;

/// The words after the program's name. Contracts see them as a list of lists of octets.
#[derive(Debug, Drop)]
pub struct Words {
    pub list: Vec<String>,
}

impl Model for Words {
    ghost use Rattle.std.specs.Prelude.{List, map, string_bytes};
    ghost use Rattle.dz_name.specs.Words.{Octets};

    ghost Value = { List Octets };

    ghost view = { λ w. map string_bytes w.list.items };
}

/// What the words ask for.
#[derive(Clone, Copy, Debug, PartialEq, Eq)]
pub enum Command {
    /// Answer the requests of a script.
    Answer,
    /// Play a script of a secondary's life.
    Replay,
    /// Make the script of this number, from 1 to 1000, and play it.
    Rehearse(u16),
    /// Serve.
    Serve,
    /// Make a catalog and its changes.
    Produce,
}

/// Why words are no command.
#[derive(Clone, Copy, Debug, PartialEq, Eq)]
pub enum WordsError {
    /// They are none of the five forms.
    Usage,
}

/// The command that the words are. The five forms are `answer`; `replay`; `produce`; `rehearse` and a number from 1 to
/// 1000 without leading zeros; `serve`. No other word, option or spelling is taken.
///
/// # Errors
///
/// `Usage` where the words are none of the five forms.
pub fn read_words(words: &Words) -> Result<Command, WordsError>
    ensures { result ≡ command_of words.now }
{
    match words.list.as_slice() {
        [word] => one_word(word.as_bytes()),
        [word, number] => two_words(word.as_bytes(), number.as_bytes()),
        _ => Err(WordsError::Usage),
    }
}

/// The command of one word; `Usage` of other words.
fn one_word(word: &[u8]) -> Result<Command, WordsError>
    ensures { result ≡ one_word word.now }
{
    if word == b"answer".as_slice() {
        Ok(Command::Answer)
    } else if word == b"replay".as_slice() {
        Ok(Command::Replay)
    } else if word == b"serve".as_slice() {
        Ok(Command::Serve)
    } else if word == b"produce".as_slice() {
        Ok(Command::Produce)
    } else {
        Err(WordsError::Usage)
    }
}

/// The command of a word and a number: a rehearsal, or `Usage`.
fn two_words(word: &[u8], number: &[u8]) -> Result<Command, WordsError>
    ensures { result ≡ two_words word.now number.now }
{
    if word == b"rehearse".as_slice() {
        match read_number(REHEARSALS, number) {
            Some(number) if number > 0 => Ok(Command::Rehearse(number as u16)),
            _ => Err(WordsError::Usage),
        }
    } else {
        Err(WordsError::Usage)
    }
}
