//! The command `answer` as a script.

ghost use Rattle.std.specs.Prelude.{◌≡◌, Some, MatchResult};
ghost use Rattle.dz_io.specs.Device.{Gains, GainsPrefix, HasCauseOf};
ghost use Rattle.dz_script.specs.Answers.{IsRun};
ghost use Rattle.dz_name.specs.Words.{Octets};
ghost use Rattle.dz_run.specs.Answering.{State, answer_rules, bad};

use crate::answering::{Answering, End, numbered_line};
use dz_io::{Sink, Source};
use dz_script::{Script, ScriptError, TurnError, put, run_script};
use std::alloc::Global;

/// What `answer` goes on with, and the output to which it writes.
#[derive(Drop)]
struct AnswerScript<'a, K> {
    answering: &'a mut Answering,
    output: &'a mut K,
}

impl<'a, K: Sink> AnswerScript<'a, K> {
    /// Runs it on an input.
    fn run<S: Source>(&mut self, alloc: Global, input: &mut S) -> Result<End, ScriptError>
        ensures same_references { (self.new.answering.ghost_name ≡ self.old.answering.ghost_name)
            × (self.new.output.ghost_name ≡ self.old.output.ghost_name) }
        ensures ends { (octets : Octets) → S.left input.old ≡ Some octets →
            IsRun answer_rules self.old.answering.now octets result self.new.answering.now
            (S.left input.new) (K.held self.old.output.now) (K.held self.new.output.now) }
        ensures read_cause { HasCauseOf (S.faults input.old)
            (S.faults input.new) result ScriptError.Read }
        ensures write_cause { HasCauseOf (K.faults self.old.output.now)
            (K.faults self.new.output.now)
            result ScriptError.Write }
    {
        run_script(alloc, self, input)
    }
}

/// Runs `answer` on an input, from a state on.
pub fn run_answering<S: Source, K: Sink>(
    alloc: Global,
    answering: &mut Answering,
    input: &mut S,
    output: &mut K,
) -> Result<End, ScriptError>
    ensures ends { (octets : Octets) → S.left input.old ≡ Some octets →
        IsRun answer_rules answering.old octets result answering.new
        (S.left input.new) (K.held output.old) (K.held output.new) }
    ensures read_cause { HasCauseOf (S.faults input.old)
        (S.faults input.new) result ScriptError.Read }
    ensures write_cause { HasCauseOf (K.faults output.old)
        (K.faults output.new) result ScriptError.Write }
{
    let mut script = AnswerScript { answering, output };
    script.run(alloc, input)
}

impl<'a, K: Sink> Script for AnswerScript<'a, K> {
    ghost use base.Fml.{GName};

    type Ending = End;

    ghost States = { State };

    ghost state = { λ s. s.answering.now };

    ghost held = { λ s. K.held s.output.now };

    ghost faults = { λ s. K.faults s.output.now };

    ghost Others = { GName × GName };

    ghost beside = { λ s. (s.answering.ghost_name, s.output.ghost_name) };

    ghost Before = { λ _ _. Unit {0} };

    ghost rules = { answer_rules };

    /// Takes a line and writes what it says; the error is a failed write or that memory ran out.
    fn turn(&mut self, alloc: Global, number: u64, line: &[u8]) -> Result<Option<End>, TurnError> {
        match self.answering.take_line(alloc, number, line) {
            Err(_) => Err(TurnError::OutOfMemory),
            Ok(saying) => {
                put(self.output, saying.text.as_slice())?;
                Ok(saying.ending)
            }
        }
    }

    /// A line past the limit is bad.
    fn too_long(&mut self, alloc: Global, number: u64) -> Result<End, TurnError> {
        put_bad(alloc, number, self.output)
    }

    /// Ends the input; the zone's line must have come.
    fn finish(&mut self, alloc: Global, number: u64) -> Result<End, TurnError> {
        if self.answering.has_table() {
            Ok(End::Done)
        } else {
            put_bad(alloc, number, self.output)
        }
    }
}

/// Writes `bad` and the number of the line.
pub fn put_bad<K: Sink>(alloc: Global, number: u64, output: &mut K) -> Result<End, TurnError>
    ensures done { MatchResult result
        (λ ending. (ending ≡ End.BadInput)
        × Gains (bad number) (K.held output.old) (K.held output.new))
        (λ _. GainsPrefix (bad number) (K.held output.old) (K.held output.new)) }
    ensures cause { HasCauseOf (K.faults output.old) (K.faults output.new) result TurnError.Write }
{
    match numbered_line(alloc, b"bad ", number) {
        Err(_) => Err(TurnError::OutOfMemory),
        Ok(text) => {
            put(output, text.as_slice())?;
            Ok(End::BadInput)
        }
    }
}
