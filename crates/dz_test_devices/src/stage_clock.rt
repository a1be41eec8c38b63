//! The clock of a stage.
ghost use Rattle.std.specs.Prelude.{None};

use crate::Stage;
use dz_io::{Clock, Rest};
use std::alloc::{AllocError, Global};
use std::thread::yield_now;

/// The moment until the first version of the zone is in the log, in seconds.
const FIRST: u64 = 1000;

/// The moment after that, in seconds.
const SECOND: u64 = 1100;

/// The moment at which a failed job is repeated, in seconds.
const AGAIN: u64 = 1060;

/// A clock whose twins share one moment. It stops its worker once all has happened, and reports no moments.
#[derive(Drop)]
pub struct StageClock<'a> {
    stage: &'a Stage,
}

impl<'a> StageClock<'a> {
    /// The clock of this stage.
    pub fn new(stage: &'a Stage) -> StageClock<'a> {
        StageClock { stage }
    }
}

impl<'a> Clock for StageClock<'a> {
    ghost use Rattle.std.specs.Prelude.{◌==◌, ◌||◌, true};

    ghost may_give = { λ _ moment. moment == 1000 || (moment == 1060 || moment == 1100) };

    ghost may_stop = { λ _. true };

    ghost given = { λ _. None };

    /// The clock of the same stage for another worker. It never fails.
    fn twin(&self, _alloc: Global) -> Result<StageClock<'a>, AllocError> {
        Ok(StageClock::new(self.stage))
    }

    /// The moment, in seconds, by what is in the log.
    fn now(&mut self) -> u64 {
        if self.stage.has_first() {
            SECOND
        } else if self.stage.has_failure() {
            AGAIN
        } else {
            FIRST
        }
    }

    /// Stops the worker once all has happened, and otherwise yields where it is idle.
    fn rest(&mut self, idle: bool) -> Rest {
        if self.stage.is_over() {
            return Rest::Stop;
        }
        if idle {
            yield_now();
        }
        Rest::Go
    }
}
