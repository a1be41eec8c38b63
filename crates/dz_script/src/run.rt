//! Runs of a script on an input.
ghost use Rattle.std.specs.Prelude.{◌≡◌, ◌≤◌, ◌+◌, ℕ, List, Some, MatchResult, OnErr};
ghost use Rattle.dz_io.specs.Device.{GainsPrefix, HasCauseOf};
ghost use Rattle.dz_script.specs.Script.{Says, LeadsOn, last_said};
ghost use Rattle.dz_script.specs.Answers.{IsRun, run_of};
ghost use Rattle.dz_script.specs.Run.{said_of};

use crate::lines::{LIMIT, Next, NextError, next_line};
use crate::script::{Script, TurnError};
use crate::window::Window;
use dz_io::Source;
use std::alloc::Global;

/// Why a script was not run to its end.
#[derive(Clone, Copy, Debug, PartialEq, Eq)]
pub enum ScriptError {
    /// The source failed.
    Read,
    /// The script's output failed.
    Write,
    /// Out of memory.
    OutOfMemory,
}

impl From<TurnError> for ScriptError {
    ghost use Rattle.dz_script.specs.Answers.{error_of};

    ghost from_gives = { λ turn error. error ≡ error_of turn };

    /// The error of a run, of the error of a turn.
    fn from(turn: TurnError) -> ScriptError {
        match turn {
            TurnError::Write => ScriptError::Write,
            TurnError::OutOfMemory => ScriptError::OutOfMemory,
        }
    }
}

/// Runs a script on an input: takes its lines until one ends the script, or to the end.
///
/// Where it ends, the text that was written is the whole text of the script, and its state is the one that the rules
/// give after the lines taken. Where all lines go on, the input was read to its end. After `ScriptError::Read` text and
/// state are those of the lines that were read whole. After the other errors a prefix of the whole text was written.
/// Where the rules never lead back, the state after an error isn't past the one that the whole input gives.
pub fn run_script<T: Script, S: Source>(
    alloc: Global,
    script: &mut T,
    input: &mut S,
) -> Result<T::Ending, ScriptError>
    ensures ends { (octets : List ℕ) → S.left input.old ≡ Some octets →
        IsRun T.rules (T.state script.old) octets result
        (T.state script.new) (S.left input.new) (T.held script.old) (T.held script.new) }
    ensures leads { (octets : List ℕ) → S.left input.old ≡ Some octets → LeadsOn T.Before T.rules →
        OnErr result (T.Before (T.state script.new)
        (said_of T.rules (T.state script.old) octets).state) }
    ensures beside { T.beside script.new ≡ T.beside script.old }
    ensures read_cause { HasCauseOf (S.faults input.old)
        (S.faults input.new) result ScriptError.Read }
    ensures write_cause { HasCauseOf (T.faults script.old)
        (T.faults script.new) result ScriptError.Write }
{
    let mut window = Window::new();
    let mut line = Vec::new(alloc);
    let mut number = 1;
    let mut used = 0;
    'lines: loop {
        match next_line(input, &mut window, &mut line, used) {
            Err(NextError::Read) => return Err(ScriptError::Read),
            Err(NextError::OutOfMemory) => return Err(ScriptError::OutOfMemory),
            Ok(Next::TooLong) => return run_answer(script.too_long(alloc, number)),
            Ok(Next::End) => return run_answer(script.finish(alloc, number)),
            Ok(Next::Last) => return run_answer(last_turn(alloc, script, number, &line)),
            Ok(Next::Line) => {}
        }
        let text = line.as_slice();
        match script.turn(alloc, number, &text[..text.len() - 1]) {
            Err(error) => return Err(ScriptError::from(error)),
            Ok(Some(ending)) => return Ok(ending),
            Ok(None) => {}
        }
        used += text.len() as u64;
        number += 1;
    }
}

/// Takes the last line, which has no newline, and then the end of the input.
fn last_turn<T: Script>(
    alloc: Global,
    script: &mut T,
    number: u64,
    line: &[u8],
) -> Result<T::Ending, TurnError>
    requires { number ≤ LIMIT + 1 }
    ensures done { MatchResult result
        (λ ending. Says (last_said T.rules (T.state script.old) number line.now) ending
        (T.state script.new) (T.held script.old) (T.held script.new))
        (λ _. GainsPrefix (last_said T.rules (T.state script.old) number line.now).text
        (T.held script.old) (T.held script.new)) }
    ensures leads { LeadsOn T.Before T.rules → OnErr result (T.Before (T.state script.new)
        (last_said T.rules (T.state script.old) number line.now).state) }
    ensures beside { T.beside script.new ≡ T.beside script.old }
    ensures cause { HasCauseOf (T.faults script.old) (T.faults script.new) result TurnError.Write }
{
    match script.turn(alloc, number, line)? {
        Some(ending) => Ok(ending),
        None => script.finish(alloc, number + 1),
    }
}

/// The answer of a step that ends the script, as the run's.
fn run_answer<E>(step: Result<E, TurnError>) -> Result<E, ScriptError>
    ensures { result ≡ run_of step }
{
    match step {
        Ok(ending) => Ok(ending),
        Err(error) => Err(ScriptError::from(error)),
    }
}
