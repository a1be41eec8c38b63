//! The lines of an input, one at a time.
ghost use Rattle.std.specs.Prelude.{◌≡◌, ◌≤◌, [], MatchResult, IsErrOf};
ghost use Rattle.dz_io.specs.Device.{HasCauseOf};
ghost use Rattle.dz_script.specs.Lines.{ahead, Takes, StopsWithin};

use crate::window::{Piece, Window};
use dz_io::Source;

/// How many octets an input may have in all. The line that holds the octet after them is too long.
pub const LIMIT: u64 = 268_435_456;

/// What reading a line found.
#[derive(Clone, Copy, Debug, PartialEq, Eq)]
pub enum Next {
    /// A line that ends with its newline.
    Line,
    /// The last line, which isn't empty and has no newline. Nothing follows.
    Last,
    /// The end: there is no further line.
    End,
    /// The line holds an octet past the limit.
    TooLong,
}

/// Why no line could be read.
#[derive(Clone, Copy, Debug, PartialEq, Eq)]
pub enum NextError {
    /// The source failed.
    Read,
    /// Out of memory for the line.
    OutOfMemory,
}

/// Reads the next line into `line`, with its newline (octet 10) and in place of what was there. `used` is how many
/// octets the lines before it had.
pub fn next_line<S: Source>(
    source: &mut S,
    window: &mut Window,
    line: &mut Vec<u8>,
    used: u64,
) -> Result<Next, NextError>
    requires { used ≤ LIMIT }
    ensures takes { MatchResult result
        (λ next. Takes next used line.new.items
        (ahead window.old (S.left source.old)) (ahead window.new (S.left source.new)))
        (λ _. StopsWithin used line.new.items
        (ahead window.old (S.left source.old)) (ahead window.new (S.left source.new))) }
    ensures stop { IsErrOf result NextError.Read → window.new ≡ [] }
    ensures cause { HasCauseOf (S.faults source.old) (S.faults source.new) result NextError.Read }
{
    line.clear();
    'pieces: loop {
        match window.refill(source) {
            Err(_) => return Err(NextError::Read),
            Ok(()) => {}
        }
        if window.octets().is_empty() {
            return Ok(if line.is_empty() {
                Next::End
            } else {
                Next::Last
            });
        }
        match window.move_piece(line, LIMIT - used - line.len() as u64) {
            Err(_) => return Err(NextError::OutOfMemory),
            Ok(Piece::Closed) => return Ok(Next::Line),
            Ok(Piece::Full) => return Ok(Next::TooLong),
            Ok(Piece::Open) => {}
        }
    }
}
