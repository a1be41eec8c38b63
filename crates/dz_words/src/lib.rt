//! The words of the command line, and the command that they are.
#![tactic(auto)]

mod words;

pub use words::{Command, Words, WordsError, read_words};
