//! The command `produce` as a script.

ghost use Rattle.std.specs.Prelude.{◌≡◌, [], Ok, Some, None};
ghost use Rattle.dz_io.specs.Device.{HasCauseOf};
ghost use Rattle.dz_script.specs.Answers.{IsRun};
ghost use Rattle.dz_name.specs.Words.{Octets};
ghost use Rattle.dz_produce.specs.Producing.{State, Runs, produce_rules};

use crate::producing::Producing;
use crate::saying::{ProduceEnd, bad_line};
use dz_io::{Sink, Source};
use dz_script::{Script, ScriptError, TurnError, put, run_script};
use std::alloc::Global;

/// What `produce` goes on with, and the output to which it writes.
#[derive(Drop)]
struct ProduceScript<'a, K> {
    producing: &'a mut Producing,
    output: &'a mut K,
}

impl<'a, K: Sink> ProduceScript<'a, K> {
    /// Runs it on an input.
    fn run<S: Source>(&mut self, alloc: Global, input: &mut S) -> Result<ProduceEnd, ScriptError>
        ensures same_references { (self.new.producing.ghost_name ≡ self.old.producing.ghost_name)
            × (self.new.output.ghost_name ≡ self.old.output.ghost_name) }
        ensures ends { (octets : Octets) → S.left input.old ≡ Some octets →
            IsRun produce_rules self.old.producing.now octets result self.new.producing.now
            (S.left input.new) (K.held self.old.output.now) (K.held self.new.output.now) }
        ensures read_cause { HasCauseOf (S.faults input.old)
            (S.faults input.new) result ScriptError.Read }
        ensures write_cause { HasCauseOf (K.faults self.old.output.now)
            (K.faults self.new.output.now) result ScriptError.Write }
    {
        run_script(alloc, self, input)
    }
}

/// Runs `produce` on an input, whose text it writes to the output.
pub fn run_producing<S: Source, K: Sink>(
    alloc: Global,
    input: &mut S,
    output: &mut K,
) -> Result<ProduceEnd, ScriptError>
    ensures ends { (octets : Octets) → S.left input.old ≡ Some octets →
        Runs octets result (S.left input.new) (K.held output.old) (K.held output.new) }
    ensures done { (octets : Octets) → S.left input.old ≡ Some octets →
        result ≡ Ok ProduceEnd.Done → S.left input.new ≡ Some [] }
    ensures read_cause { HasCauseOf (S.faults input.old)
        (S.faults input.new) result ScriptError.Read }
    ensures write_cause { HasCauseOf (K.faults output.old)
        (K.faults output.new) result ScriptError.Write }
{
    let mut producing = Producing::new();
    run_from(alloc, &mut producing, input, output)
}

/// Runs it from a state on.
fn run_from<S: Source, K: Sink>(
    alloc: Global,
    producing: &mut Producing,
    input: &mut S,
    output: &mut K,
) -> Result<ProduceEnd, ScriptError>
    ensures ends { (octets : Octets) → S.left input.old ≡ Some octets →
        IsRun produce_rules producing.old octets result producing.new
        (S.left input.new) (K.held output.old) (K.held output.new) }
    ensures read_cause { HasCauseOf (S.faults input.old)
        (S.faults input.new) result ScriptError.Read }
    ensures write_cause { HasCauseOf (K.faults output.old)
        (K.faults output.new) result ScriptError.Write }
{
    let mut script = ProduceScript { producing, output };
    script.run(alloc, input)
}

impl<'a, K: Sink> Script for ProduceScript<'a, K> {
    ghost use base.Fml.{GName};

    type Ending = ProduceEnd;

    ghost States = { State };

    ghost state = { λ s. s.producing.now };

    ghost held = { λ s. K.held s.output.now };

    ghost faults = { λ s. K.faults s.output.now };

    ghost Others = { GName × GName };

    ghost beside = { λ s. (s.producing.ghost_name, s.output.ghost_name) };

    ghost Before = { λ _ _. Unit {0} };

    ghost rules = { produce_rules };

    /// Takes a line and writes what it says; the error is a failed write or that memory ran out.
    fn turn(
        &mut self,
        alloc: Global,
        number: u64,
        line: &[u8],
    ) -> Result<Option<ProduceEnd>, TurnError> {
        match self.producing.take_line(alloc, number, line) {
            Err(_) => Err(TurnError::OutOfMemory),
            Ok(saying) => match put(self.output, saying.text.as_slice()) {
                Err(error) => Err(error),
                Ok(()) => Ok(saying.ending),
            },
        }
    }

    /// A line past the limit is bad.
    fn too_long(&mut self, alloc: Global, number: u64) -> Result<ProduceEnd, TurnError> {
        match bad_line(alloc, number) {
            Err(_) => Err(TurnError::OutOfMemory),
            Ok(text) => {
                put(self.output, text.as_slice())?;
                Ok(ProduceEnd::BadInput)
            }
        }
    }

    /// Writes the line of the last catalog, or that there is none.
    fn finish(&mut self, alloc: Global, number: u64) -> Result<ProduceEnd, TurnError> {
        match self.producing.finish(alloc, number) {
            Err(_) => Err(TurnError::OutOfMemory),
            Ok((text, ending)) => {
                put(self.output, text.as_slice())?;
                Ok(ending)
            }
        }
    }
}
