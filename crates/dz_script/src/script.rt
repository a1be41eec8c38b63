//! Scripts: what takes the lines of an input in turn, writes a text for each and changes its state, until one ends it.
ghost use Rattle.std.specs.Prelude.{◌≡◌, ℕ, List, Option, MatchResult, IfErr, OnOk, OnErr};
ghost use Rattle.dz_io.specs.Device.{Gains, GainsPrefix, HasCauseOf};
ghost use Rattle.dz_script.specs.Script.{Rules, turn_text, turn_state, DoesTurn, Says};

use dz_io::Sink;
use std::alloc::{AllocError, Global};

/// Why a step of a script stopped.
#[derive(Clone, Copy, Debug, PartialEq, Eq)]
pub enum TurnError {
    /// The script's output failed.
    Write,
    /// Out of memory.
    OutOfMemory,
}

impl From<AllocError> for TurnError {
    ghost use Rattle.dz_script.specs.declared.script.TurnError.TheVariants.{OutOfMemory};

    ghost from_gives = { λ _ error. error ≡ OutOfMemory };

    /// Out of memory.
    fn from(_: AllocError) -> TurnError {
        TurnError::OutOfMemory
    }
}

/// A state with rules, and an output to which the lines' texts are written.
pub trait Script {
    /// How the script can end.
    type Ending;

    /// What the rules are over: the states that the script shows, without its output.
    ghost States: { Type 0 };

    /// The state that it shows.
    ghost state: { Self → States };

    /// What was written to its output, where the output tells it.
    ghost held: { Self → Option (List ℕ) };

    /// How often its output has failed.
    ghost faults: { Self → ℕ };

    /// What else the script shows, which no call changes.
    ghost Others: { Type 0 };

    ghost beside: { Self → Others };

    /// The order of its states: the first is the second, or comes before it.
    ghost Before: { States → States → Type 0 };

    /// What a line does, what a line past the limit gives, and what the end of the input gives.
    ghost rules: { Rules States Self.Ending };

    /// Takes the line with this number, counted from 1, without its newline: writes its text and goes on in a new
    /// state, or ends the script. Where it stops, a prefix of the line's text was written, and its state isn't past the
    /// one that the rules give.
    fn turn(
        &mut self,
        alloc: Global,
        number: u64,
        line: &[u8],
    ) -> Result<Option<Self::Ending>, TurnError>
        ensures done { MatchResult result
            (λ ended. DoesTurn (rules.turn (state self.old) number line.now) ended
            (state self.new) (held self.old) (held self.new))
            (λ _. GainsPrefix (turn_text (rules.turn (state self.old) number line.now))
            (held self.old) (held self.new)) }
        ensures leads { OnErr result (Before (state self.new)
            (turn_state (rules.turn (state self.old) number line.now))) }
        ensures beside { beside self.new ≡ beside self.old }
        ensures cause { HasCauseOf (faults self.old) (faults self.new) result TurnError.Write };

    /// Ends the script at the line with this number, which holds an octet past the limit.
    fn too_long(&mut self, alloc: Global, number: u64) -> Result<Self::Ending, TurnError>
        ensures done { MatchResult result
            (λ ending. Says (rules.too_long (state self.old) number) ending
            (state self.new) (held self.old) (held self.new))
            (λ _. GainsPrefix (rules.too_long (state self.old) number).text
            (held self.old) (held self.new)) }
        ensures leads { OnErr result (Before (state self.new)
            (rules.too_long (state self.old) number).state) }
        ensures beside { beside self.new ≡ beside self.old }
        ensures cause { HasCauseOf (faults self.old) (faults self.new) result TurnError.Write };

    /// Ends the script at the end of the input, of which `number` is the number of lines plus 1.
    fn finish(&mut self, alloc: Global, number: u64) -> Result<Self::Ending, TurnError>
        ensures done { MatchResult result
            (λ ending. Says (rules.finish (state self.old) number) ending
            (state self.new) (held self.old) (held self.new))
            (λ _. GainsPrefix (rules.finish (state self.old) number).text
            (held self.old) (held self.new)) }
        ensures leads { OnErr result (Before (state self.new)
            (rules.finish (state self.old) number).state) }
        ensures beside { beside self.new ≡ beside self.old }
        ensures cause { HasCauseOf (faults self.old) (faults self.new) result TurnError.Write };
}

/// Writes a piece of a step's text. Where the sink fails, a prefix of the piece was written, and the step stops so.
pub fn put<K: Sink>(output: &mut K, piece: &[u8]) -> Result<(), TurnError>
    ensures all { OnOk result (Gains piece.now (K.held output.old) (K.held output.new)) }
    ensures err { OnErr result (GainsPrefix piece.now (K.held output.old) (K.held output.new)) }
    ensures beside { K.beside output.new ≡ K.beside output.old }
    ensures stop { IfErr result (λ error. error ≡ TurnError.Write) }
    ensures cause { HasCauseOf (K.faults output.old) (K.faults output.new) result TurnError.Write }
{
    match output.write(piece) {
        Ok(()) => Ok(()),
        Err(_) => Err(TurnError::Write),
    }
}
