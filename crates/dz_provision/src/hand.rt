//! Jobs that are handed out, and lines that tell of no event.

ghost use Rattle.std.specs.Prelude.{◌≡◌, ◌<◌, ◌^◌, IfOk};
ghost use Rattle.dz_fleet.specs.Answers.{IsHanded};
ghost use Rattle.dz_provision.specs.Held.{IsHandedOut, IsSaid};
ghost use Rattle.dz_provision.specs.Log.{CanBeSaid};

use crate::log::{hand, log};
use crate::naming::Naming;
use crate::provisioner::{LogFault, Provisioner};
use dz_fleet::Due;
use dz_io::Sink;
use dz_report::job_line;

impl<K: Sink, J: Naming> Provisioner<K, J> {
    /// Asks for a job at a moment, in seconds below 2^40, and writes its line. Where there is none it writes nothing.
    ///
    /// # Errors
    ///
    /// `LogFault` where a write to the log has failed, now or before. A job that was made now is closed; after an earlier
    /// fault none is made.
    pub fn hand_out(&mut self, now: u64) -> Result<Due, LogFault>
        requires { now < 2 ^ 40 }
        ensures made { IsHandedOut self.old now result self.new }
        ensures flying { IfOk result (λ due. IsHanded due self.new.core) }
    {
        if self.log_failed {
            return Err(LogFault);
        }
        match self.fleet.due(now) {
            Due::Job(job) => {
                let line = job_line(&job);
                let logged = log(&mut self.output, &mut self.log_failed, line.as_slice());
                hand(logged, job)
            }
            Due::Idle(quiet) => Ok(Due::Idle(quiet)),
            Due::Full(quiet) => Ok(Due::Full(quiet)),
            Due::OutOfMemory => Ok(Due::OutOfMemory),
        }
    }

    /// Writes a line that tells of no event.
    ///
    /// # Errors
    ///
    /// `LogFault` where a write to the log has failed, now or before.
    pub fn say(&mut self, line: &[u8]) -> Result<(), LogFault>
        requires { CanBeSaid line.now }
        ensures { IsSaid self.old line.now result self.new }
    {
        if self.log_failed {
            return Err(LogFault);
        }
        log(&mut self.output, &mut self.log_failed, line)
    }
}
