//! Jobs that end.

ghost use Rattle.std.specs.Prelude.{◌≡◌, ◌≢◌, ◌<◌, ◌^◌, Some, true, false, length, option_map, IfOk};
ghost use Rattle.std.specs.Arc.{arc_value};
ghost use Rattle.dz_take.specs.Outcome.{octets_used};
ghost use Rattle.dz_job.specs.Job.{IsJob, transfer_for};
ghost use Rattle.dz_fleet.specs.Core.{entry_for};
ghost use Rattle.dz_fleet.specs.Sound.{IsFlying, IsGiven, IsSound};
ghost use Rattle.dz_fleet.specs.Weighing.{Fits, octets_in, is_taken};
ghost use Rattle.dz_report.specs.Lines.{verdict_lines};
ghost use Rattle.dz_provision.specs.Held.{IsSettled, IsFailed, Notes};
ghost use Rattle.dz_provision.specs.inner.Ready.{IsReady, IsStarved};

use crate::log::{end, log};
use crate::naming::Naming;
use crate::provisioner::{Provisioner, Unmade};
use dz_desk::Told;
use dz_fleet::{Failure, Fleet, Job, Verdict, Weighed};
use dz_history::Step;
use dz_io::Sink;
use dz_report::{failure_line, verdict_lines};
use dz_take::Finished;
use std::alloc::{AllocError, Global};
use std::sync::Wait;

/// What was weighed of a transfer that ended at a moment, and the lines of its verdict.
#[derive(Drop)]
struct Ready {
    weighed: Weighed,
    lines: Vec<u8>,
    moment: u64,
}

impl<K: Sink, J: Naming> Provisioner<K, J> {
    /// Ends a job that the list handed out by what came of its transfer, at a moment in seconds below 2^40: a transfer that is taken joins the list,
    /// which is published, and the lines are written. It answers the verdict, with a note of the list. Want of memory has
    /// no line: the job ends as one that failed.
    ///
    /// # Errors
    ///
    /// `LogFault` where a write to the log has failed, now or before; after an earlier fault the job is closed and nothing
    /// is taken. `NotInFlight` where the job isn't the core's; it is closed then.
    pub fn settle<R: Wait>(
        &mut self,
        rt: &R,
        alloc: Global,
        job: Job,
        finished: Finished,
        now: u64,
    ) -> Result<(Verdict, Told), Unmade>
        requires given { IsSound self.old.core → IsGiven self.old.core.list job }
        requires transfer { finished.transfer ≡ transfer_for job }
        requires moment { now < 2 ^ 40 }
        ensures settled { IsSettled self.old job finished.octets now result self.new }
        ensures note { Notes J.publisher self.new.core.list result }
        ensures sound { self.old.failed ≡ false → IsSound self.old.core }
        ensures used { IfOk result (λ r. r.0 ≢ Verdict.OutOfMemory
            → octets_used (transfer_for job) finished.octets ≡ length finished.octets) }
    {
        if self.log_failed {
            job.close();
            return Err(Unmade::LogFault);
        }
        match self.fleet.absence(&job) {
            Some(absent) => {
                job.close();
                Err(Unmade::NotInFlight(absent))
            }
            None => match weigh(alloc, &self.fleet, &job, finished, now) {
                Err(_) => Ok(self.starve(job, now)),
                Ok(ready) => self.end_weighed(rt, job, ready),
            },
        }
    }

    /// Ends a job that the list handed out and that failed at a moment, in seconds below 2^40, and writes its line. It answers how it ended, with a note
    /// of the list.
    ///
    /// # Errors
    ///
    /// As those of [`Provisioner::settle`].
    pub fn fail(&mut self, job: Job, now: u64) -> Result<(Failure, Told), Unmade>
        requires given { IsSound self.old.core → IsGiven self.old.core.list job }
        requires moment { now < 2 ^ 40 }
        ensures failed { IsFailed self.old job now result self.new }
        ensures note { Notes J.publisher self.new.core.list result }
        ensures sound { self.old.failed ≡ false → IsSound self.old.core }
    {
        if self.log_failed {
            job.close();
            return Err(Unmade::LogFault);
        }
        match self.fleet.absence(&job) {
            Some(absent) => {
                job.close();
                Err(Unmade::NotInFlight(absent))
            }
            None => {
                let zone = *job.zone();
                let failure = self.fleet.fail(job, now);
                let line = failure_line(&zone, &failure);
                let logged = log(&mut self.output, &mut self.log_failed, line.as_slice());
                end(logged, failure, self.publisher.tell())
            }
        }
    }

    /// Ends the core's job by what was weighed.
    fn end_weighed<R: Wait>(
        &mut self,
        rt: &R,
        job: Job,
        ready: Ready,
    ) -> Result<(Verdict, Told), Unmade>
        requires before { self.old.failed ≡ false }
        requires sound { IsSound self.old.core }
        requires valid { IsJob job }
        requires flying { IsFlying self.old.core job }
        requires ready { IsReady self.old.core job ready }
        requires step { ready.weighed.is_there ≡ is_taken ready.weighed.verdict }
        ensures settled { IsSettled self.old job
            (octets_in ready.weighed.entry) ready.moment result self.new }
        ensures note { Notes J.publisher self.new.core.list result }
    {
        let mut ready = ready;
        match ready.weighed.take_step() {
            None => self.end_untaken(job, ready),
            Some(step) => self.end_taken(rt, job, ready, step),
        }
    }

    /// The same where nothing is taken.
    fn end_untaken(&mut self, job: Job, ready: Ready) -> Result<(Verdict, Told), Unmade>
        requires before { self.old.failed ≡ false }
        requires flying { IsFlying self.old.core job }
        requires ready { IsReady self.old.core job ready }
        requires untaken { is_taken ready.weighed.verdict ≡ false }
        ensures settled { IsSettled self.old job
            (octets_in ready.weighed.entry) ready.moment result self.new }
        ensures note { Notes J.publisher self.new.core.list result }
    {
        let Ready {
            weighed,
            lines,
            moment: _,
        } = ready;
        let verdict = self.fleet.settle(job, weighed);
        let logged = log(&mut self.output, &mut self.log_failed, lines.as_slice());
        end(logged, verdict, self.publisher.tell())
    }

    /// The same where a transfer is taken: its step is published.
    fn end_taken<R: Wait>(
        &mut self,
        rt: &R,
        job: Job,
        ready: Ready,
        step: Step,
    ) -> Result<(Verdict, Told), Unmade>
        requires before { self.old.failed ≡ false }
        requires sound { IsSound self.old.core }
        requires valid { IsJob job }
        requires flying { IsFlying self.old.core job }
        requires ready { IsReady self.old.core job ready }
        requires taken { is_taken ready.weighed.verdict ≡ true }
        requires entry { step.entry ≡ ready.weighed.entry }
        requires table { option_map (λ r. r.state.table) ready.weighed.renewed
            ≡ Some (arc_value step.table) }
        ensures settled { IsSettled self.old job
            (octets_in ready.weighed.entry) ready.moment result self.new }
        ensures note { Notes J.publisher self.new.core.list result }
    {
        let Ready {
            weighed,
            lines,
            moment,
        } = ready;
        self.publisher.stage(step);
        let verdict = self.fleet.settle(job, weighed);
        let told = self.publisher.publish(rt);
        let logged = log(&mut self.output, &mut self.log_failed, lines.as_slice());
        end(logged, verdict, told)
    }

    /// Ends the core's job for want of memory.
    fn starve(&mut self, job: Job, now: u64) -> (Verdict, Told)
        requires before { self.old.failed ≡ false }
        requires flying { IsFlying self.old.core job }
        requires moment { now < 2 ^ 40 }
        ensures settled { IsStarved self.old job now result.0 self.new }
        ensures note { (result.1.list ≡ self.new.core.list) × (result.1.book ≡ J.publisher) }
    {
        self.fleet.fail(job, now);
        (Verdict::OutOfMemory, self.publisher.tell())
    }
}

/// Weighs what came of a transfer, and makes its lines.
fn weigh(
    alloc: Global,
    fleet: &Fleet,
    job: &Job,
    finished: Finished,
    now: u64,
) -> Result<Ready, AllocError>
    requires flying { IsFlying fleet.now job.now }
    requires transfer { finished.transfer ≡ transfer_for job.now }
    requires moment { now < 2 ^ 40 }
    ensures ready { IfOk result (λ r. IsReady fleet.now job.now r) }
    ensures entry { IfOk result (λ r. r.weighed.entry ≡ entry_for job.now finished.octets) }
    ensures moment { IfOk result (λ r. r.moment ≡ now) }
    ensures step { IfOk result (λ r. r.weighed.is_there ≡ is_taken r.weighed.verdict) }
    ensures valid { IfOk result (λ _. IsJob job.now) }
{
    let weighed = fleet.weigh(alloc, job, finished, now)?;
    let mut lines = Vec::new(alloc);
    verdict_lines(alloc, &job.flight().zone, weighed.verdict(), &mut lines)?;
    Ok(Ready {
        weighed,
        lines,
        moment: now,
    })
}
