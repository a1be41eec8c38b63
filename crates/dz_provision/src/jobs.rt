//! Where jobs are handed out and ended.

ghost use Rattle.std.specs.Prelude.{◌≡◌, ◌<◌, ◌+◌, ◌^◌, false, length, Err, IsErr};
ghost use mathlib.Core.List.{IsPrefix};
ghost use Rattle.dz_history.specs.Legal.{IsLegal};
ghost use Rattle.dz_job.specs.Job.{transfer_for};
ghost use Rattle.dz_fleet.specs.Sound.{IsGiven};
ghost use Rattle.dz_provision.specs.Endings.{settled_ending, failed_ending, starved_ending, starved_in};
ghost use Rattle.dz_provision.specs.Receipts.{IsHandedAt, IsSettledAt, IsFailedAt};

use crate::ending::Ended;
use crate::provisioner::{LogFault, Unmade};
use dz_desk::{Ear, Reading};
use dz_fleet::{Due, Failure, Job, Verdict};
use dz_take::Finished;
use std::alloc::Global;
use std::sync::Wait;
use std::sync::ledger::{Ledger, Share};

/// Where jobs are handed out and ended, for the readings of one publisher. What a call answers is by the list that its
/// reading has then seen. Moments are in seconds below 2^40. Each call may wait.
pub trait Jobs: Ear {
    /// The ledger in which the lines of want of memory are counted.
    type Counted: Ledger;

    /// Asks for a job, whose line is written. Where there is none, nothing is.
    ///
    /// # Errors
    ///
    /// `LogFault` where a write to the log has failed, now or before.
    fn hand_out<R: Wait>(&self, rt: &R, reading: &mut Reading, now: u64) -> Result<Due, LogFault>
        requires out { reading.old.is_out ≡ false }
        requires own { reading.old.book ≡ Self.publisher }
        requires moment { now < 2 ^ 40 }
        ensures same { reading.new ≡ record reading.old { list = reading.new.list } }
        ensures seen { IsPrefix reading.old.list reading.new.list }
        ensures handed { IsHandedAt result reading.new.list now }
        ensures cause { IsErr result → Self.may_fail };

    /// Ends a job that a list which the reading has seen handed out, by what came of its transfer. One that is taken is published, and the reading has then seen it. The lines
    /// of the verdict are written, and for want of memory `nomemory` with the zone, which the share counts. Beside the verdict it
    /// answers how the job ended: its event, at this moment, and these lines.
    ///
    /// # Errors
    ///
    /// `LogFault` where a write to the log has failed, now or before; `NotInFlight` where the job is none that was handed
    /// out here, or has ended. The job is closed then.
    fn settle<R: Wait>(
        &self,
        rt: &R,
        alloc: Global,
        reading: &mut Reading,
        share: &mut Share<Self::Counted>,
        job: Job,
        finished: Finished,
        now: u64,
    ) -> Ended<Verdict>
        requires out { reading.old.is_out ≡ false }
        requires own { reading.old.book ≡ Self.publisher }
        requires part { 0 < share.old.parts }
        requires given { IsGiven reading.old.list job }
        requires transfer { finished.transfer ≡ transfer_for job }
        requires moment { now < 2 ^ 40 }
        ensures same { reading.new ≡ record reading.old { list = reading.new.list } }
        ensures seen { IsPrefix reading.old.list reading.new.list }
        ensures legal { IsLegal reading.new.list }
        ensures settled { IsSettledAt result.answer job finished.octets
            (length reading.old.list) reading.new.list }
        ensures ending { result.ending
            ≡ settled_ending job finished.octets now result.answer }
        ensures parts { share.new.parts ≡ share.old.parts }
        ensures counted { share.new.amount ≡ share.old.amount + starved_in result.ending }
        ensures cause { result.answer ≡ Err Unmade.LogFault → Self.may_fail };

    /// Ends a job that failed, and its line is written. It answers how the job ended, as [`Jobs::settle`] does.
    ///
    /// # Errors
    ///
    /// As those of [`Jobs::settle`].
    fn fail<R: Wait>(&self, rt: &R, reading: &mut Reading, job: Job, now: u64) -> Ended<Failure>
        requires out { reading.old.is_out ≡ false }
        requires own { reading.old.book ≡ Self.publisher }
        requires given { IsGiven reading.old.list job }
        requires moment { now < 2 ^ 40 }
        ensures same { reading.new ≡ record reading.old { list = reading.new.list } }
        ensures seen { IsPrefix reading.old.list reading.new.list }
        ensures legal { IsLegal reading.new.list }
        ensures failed { IsFailedAt result.answer job (length reading.old.list) reading.new.list }
        ensures ending { result.ending ≡ failed_ending job now result.answer }
        ensures cause { result.answer ≡ Err Unmade.LogFault → Self.may_fail };

    /// Ends a job that failed for want of memory. Its line is written, and after `failed` the line `nomemory` with the zone,
    /// which the share counts; a job that is stale has no line but its own. It answers how the job ended, as [`Jobs::settle`]
    /// does.
    ///
    /// # Errors
    ///
    /// As those of [`Jobs::settle`]. Where the second line can't be written, the first one was, and the job has failed.
    fn starve<R: Wait>(
        &self,
        rt: &R,
        reading: &mut Reading,
        share: &mut Share<Self::Counted>,
        job: Job,
        now: u64,
    ) -> Ended<Failure>
        requires out { reading.old.is_out ≡ false }
        requires own { reading.old.book ≡ Self.publisher }
        requires part { 0 < share.old.parts }
        requires given { IsGiven reading.old.list job }
        requires moment { now < 2 ^ 40 }
        ensures same { reading.new ≡ record reading.old { list = reading.new.list } }
        ensures seen { IsPrefix reading.old.list reading.new.list }
        ensures legal { IsLegal reading.new.list }
        ensures failed { IsFailedAt result.answer job (length reading.old.list) reading.new.list }
        ensures ending { result.ending ≡ starved_ending job now result.answer }
        ensures parts { share.new.parts ≡ share.old.parts }
        ensures counted { share.new.amount ≡ share.old.amount + starved_in result.ending }
        ensures cause { result.answer ≡ Err Unmade.LogFault → Self.may_fail };
}
