//! The log of a stage.
ghost use Rattle.std.specs.Prelude.{◌≡◌, [], Some, None};

use crate::Stage;
use dz_io::{Failed, MemorySink, Sink};
use std::alloc::Global;

/// A sink in memory whose lines the other devices wait for. It reports what it holds.
#[derive(Drop)]
pub struct StageLog<'a> {
    stage: &'a Stage,
    text: MemorySink,
}

impl<'a> StageLog<'a> {
    /// A log to which nothing was written.
    pub fn new(alloc: Global, stage: &'a Stage) -> StageLog<'a>
        ensures written { result.text.written ≡ [] }
        ensures faults { result.text.calls.faults ≡ 0 }
    {
        StageLog {
            stage,
            text: MemorySink::new(alloc, Vec::new(alloc)),
        }
    }

    /// The octets that were written.
    pub fn written(&self) -> &[u8]
        ensures { result.now ≡ self.now.text.written }
    {
        self.text.written()
    }
}

impl<'a> Sink for StageLog<'a> {
    ghost held = { λ log. Some log.text.written };

    ghost beside = { λ _. record { given = None; left = None } };

    ghost faults = { λ log. log.text.calls.faults };

    /// Writes a piece, and shows it to the stage before and after. `Failed` where memory runs out.
    fn write(&mut self, piece: &[u8]) -> Result<(), Failed> {
        self.stage.see_line(piece);
        let result = self.text.write(piece);
        self.stage.see_log(self.text.written());
        result
    }
}
