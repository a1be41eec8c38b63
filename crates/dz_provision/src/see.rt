//! Calls under the lock, beside a reading that is shown the list.

ghost use Rattle.std.specs.Prelude.{◌≡◌, ◌<◌, ◌+◌, ◌^◌, false, true, length, Ok, Err, IsErr, IfOk, IfSome, OnOk};
ghost use mathlib.Core.List.{IsPrefix};
ghost use Rattle.dz_io.specs.Counts.{HasRisen};
ghost use Rattle.dz_history.specs.Legal.{IsLegal};
ghost use Rattle.dz_desk.specs.Hearing.{IsHeard, IsWitnessed};
ghost use Rattle.dz_job.specs.Job.{transfer_for};
ghost use Rattle.dz_fleet.specs.Sound.{IsGiven, IsSound};
ghost use Rattle.dz_fleet.specs.Weighing.{is_taken};
ghost use Rattle.dz_provision.specs.Endings.{settled_ending, failed_ending, starved_ending, starved_in};
ghost use Rattle.dz_provision.specs.Held.{IsHandedOut, IsSettledAloud, IsFailedAloud, IsStarvedAloud, IsHeardAloud};
ghost use Rattle.dz_provision.specs.Witness.{IsWitnessOf};
ghost use Rattle.dz_provision.specs.inner.Ready.{is_want};
ghost use Rattle.dz_provision.specs.Keeping.{IsLastVerdict};
ghost use Rattle.dz_provision.specs.Receipts.{IsHandedAt, IsSettledAt, IsFailedAt};

use crate::ending::{Ended, failed, settled, starved};
use crate::naming::Naming;
use crate::provisioner::{LogFault, Provisioner, Unmade};
use crate::witness::Witness;
use dz_desk::{Hearing, Reading, Told};
use dz_fleet::{Due, Failure, Job, Verdict};
use dz_io::{Peer, Sink};
use dz_name::Name;
use dz_take::Finished;
use std::alloc::Global;
use std::snapshot::Snapshot;
use std::sync::Wait;
use std::sync::ledger::Share;

impl<K: Sink, J: Naming> Provisioner<K, J> {
    /// Shows the list to a reading: whether it has seen this list and no longer one.
    pub(crate) fn is_seen<R: Wait>(&self, rt: &R, reading: &mut Reading) -> bool
        requires out { reading.old.is_out ≡ false }
        requires own { reading.old.book ≡ J.publisher }
        ensures same { reading.new ≡ record reading.old { list = reading.new.list } }
        ensures seen { IsPrefix reading.old.list reading.new.list }
        ensures whole { result ≡ true → reading.new.list ≡ self.now.core.list }
        ensures sound { IsSound self.now.core }
        ensures legal { IsLegal reading.new.list }
    {
        reading.learn(rt, self.tell());
        reading.count() == self.count()
    }

    /// Hears a NOTIFY, once the reading has seen the list; none where it has seen a longer one.
    pub(crate) fn hear_seen<R: Wait>(
        &mut self,
        rt: &R,
        peer: &Peer,
        zone: &Name,
        reading: &mut Reading,
    ) -> Option<Hearing<Witness>>
        requires out { reading.old.is_out ≡ false }
        requires own { reading.old.book ≡ J.publisher }
        ensures same { reading.new ≡ record reading.old { list = reading.new.list } }
        ensures seen { IsPrefix reading.old.list reading.new.list }
        ensures heard { IfSome result (λ hearing.
            IsHeard ((k : K) × HasRisen 0 (K.faults k)) reading.new.list peer.now zone.now
            hearing) }
        ensures witnessed { IfSome result
            (IsWitnessed IsWitnessOf reading.new.list peer.now zone.now) }
        ensures made { IfSome result (λ hearing.
            IsHeardAloud self.old peer.now zone.now hearing self.new) }
    {
        if !self.is_seen(rt, reading) {
            return None;
        }
        let before = Snapshot::of(&self.fleet);
        match self.hear(peer, zone) {
            Ok((heard, told)) => {
                drop(told);
                Some(Hearing::Heard(heard, Witness::of(before, &self.fleet)))
            }
            Err(_) => {
                drop(before);
                Some(Hearing::LogFault)
            }
        }
    }

    /// Asks for a job, and answers by the list.
    pub(crate) fn hand_out_now(&mut self, now: u64) -> Result<Due, LogFault>
        requires sound { IsSound self.old.core }
        requires moment { now < 2 ^ 40 }
        ensures handed { IsHandedAt result self.old.core.list now }
        ensures made { IsHandedOut self.old now result self.new }
        ensures cause { IsErr result → (k : K) × HasRisen 0 (K.faults k) }
    {
        let handed = self.hand_out(now);
        let _ = &self.log_failed;
        handed
    }

    /// Ends a job by what came of its transfer, beside a reading that has seen the list and is shown a longer one. It says
    /// want of memory.
    pub(crate) fn settle_seen<R: Wait>(
        &mut self,
        rt: &R,
        alloc: Global,
        reading: &mut Reading,
        share: &mut Share<J>,
        job: Job,
        finished: Finished,
        now: u64,
    ) -> Ended<Verdict>
        requires out { reading.old.is_out ≡ false }
        requires own { reading.old.book ≡ J.publisher }
        requires list { reading.old.list ≡ self.old.core.list }
        requires legal { IsLegal reading.old.list }
        requires part { 0 < share.old.parts }
        requires given { IsGiven self.old.core.list job }
        requires transfer { finished.transfer ≡ transfer_for job }
        requires moment { now < 2 ^ 40 }
        ensures same { reading.new ≡ record reading.old { list = reading.new.list } }
        ensures seen { IsPrefix reading.old.list reading.new.list }
        ensures legal { IsLegal reading.new.list }
        ensures settled { IsSettledAt result.answer job finished.octets
            (length reading.old.list) reading.new.list }
        ensures made { IfOk result.answer
            (λ v. IsSettledAloud self.old job finished.octets now v self.new) }
        ensures ending { result.ending
            ≡ settled_ending job finished.octets now result.answer }
        ensures parts { share.new.parts ≡ share.old.parts }
        ensures counted { share.new.amount ≡ share.old.amount + starved_in result.ending }
        ensures last { IfOk result.answer (λ v. is_taken v ≡ true
            → IsLastVerdict self.new.core.list v) }
        ensures cause { result.answer ≡ Err Unmade.LogFault → (k : K) × HasRisen 0 (K.faults k) }
    {
        let of = Snapshot::of(&job);
        let read = Snapshot::of(&finished);
        let answer = self.settle_aloud(rt, alloc, reading, share, job, finished, now);
        settled(of, read, now, answer)
    }

    /// The verdict of it.
    fn settle_aloud<R: Wait>(
        &mut self,
        rt: &R,
        alloc: Global,
        reading: &mut Reading,
        share: &mut Share<J>,
        job: Job,
        finished: Finished,
        now: u64,
    ) -> Result<Verdict, Unmade>
        requires out { reading.old.is_out ≡ false }
        requires own { reading.old.book ≡ J.publisher }
        requires list { reading.old.list ≡ self.old.core.list }
        requires legal { IsLegal reading.old.list }
        requires part { 0 < share.old.parts }
        requires given { IsGiven self.old.core.list job }
        requires transfer { finished.transfer ≡ transfer_for job }
        requires moment { now < 2 ^ 40 }
        ensures same { reading.new ≡ record reading.old { list = reading.new.list } }
        ensures seen { IsPrefix reading.old.list reading.new.list }
        ensures legal { IsLegal reading.new.list }
        ensures settled { IsSettledAt result job finished.octets
            (length reading.old.list) reading.new.list }
        ensures made { IfOk result
            (λ v. IsSettledAloud self.old job finished.octets now v self.new) }
        ensures last { IfOk result (λ v. is_taken v ≡ true
            → IsLastVerdict self.new.core.list v) }
        ensures parts { share.new.parts ≡ share.old.parts }
        ensures counted { share.new.amount ≡ share.old.amount
            + starved_in (settled_ending job finished.octets now result) }
        ensures cause { result ≡ Err Unmade.LogFault → (k : K) × HasRisen 0 (K.faults k) }
    {
        let zone = *job.zone();
        match self.settle(rt, alloc, job, finished, now) {
            Err(unmade) => {
                let _ = &self.log_failed;
                Err(unmade)
            }
            Ok((verdict, told)) => {
                if is_want(&verdict) {
                    drop(told);
                    return self.say_starved(share, &zone, Verdict::OutOfMemory);
                }
                show_taken(rt, reading, &verdict, told);
                Ok(verdict)
            }
        }
    }

    /// Ends a job that failed, and answers by the list.
    pub(crate) fn fail_now(&mut self, job: Job, now: u64) -> Ended<Failure>
        requires given { IsGiven self.old.core.list job }
        requires moment { now < 2 ^ 40 }
        ensures failed { IsFailedAt result.answer job
            (length self.old.core.list) self.old.core.list }
        ensures made { IfOk result.answer (λ f. IsFailedAloud self.old job now f self.new) }
        ensures ending { result.ending ≡ failed_ending job now result.answer }
        ensures cause { result.answer ≡ Err Unmade.LogFault → (k : K) × HasRisen 0 (K.faults k) }
    {
        let of = Snapshot::of(&job);
        let answer = self.fail_aloud(job, now);
        failed(of, now, answer)
    }

    /// The failure of it.
    fn fail_aloud(&mut self, job: Job, now: u64) -> Result<Failure, Unmade>
        requires given { IsGiven self.old.core.list job }
        requires moment { now < 2 ^ 40 }
        ensures failed { IsFailedAt result job (length self.old.core.list) self.old.core.list }
        ensures made { IfOk result (λ f. IsFailedAloud self.old job now f self.new) }
        ensures cause { result ≡ Err Unmade.LogFault → (k : K) × HasRisen 0 (K.faults k) }
    {
        let failed = self.fail(job, now);
        let _ = &self.log_failed;
        match failed {
            Err(unmade) => Err(unmade),
            Ok((failure, told)) => {
                drop(told);
                Ok(failure)
            }
        }
    }

    /// Ends a job that failed for want of memory, says so, and answers by the list.
    pub(crate) fn starve_now(&mut self, share: &mut Share<J>, job: Job, now: u64) -> Ended<Failure>
        requires part { 0 < share.old.parts }
        requires given { IsGiven self.old.core.list job }
        requires moment { now < 2 ^ 40 }
        ensures failed { IsFailedAt result.answer job
            (length self.old.core.list) self.old.core.list }
        ensures made { IfOk result.answer (λ f. IsStarvedAloud self.old job now f self.new) }
        ensures ending { result.ending ≡ starved_ending job now result.answer }
        ensures parts { share.new.parts ≡ share.old.parts }
        ensures counted { share.new.amount ≡ share.old.amount + starved_in result.ending }
        ensures cause { result.answer ≡ Err Unmade.LogFault → (k : K) × HasRisen 0 (K.faults k) }
    {
        let of = Snapshot::of(&job);
        let answer = self.starve_aloud(share, job, now);
        starved(of, now, answer)
    }

    /// The failure of it. Of one that is stale nothing more is said.
    fn starve_aloud(&mut self, share: &mut Share<J>, job: Job, now: u64) -> Result<Failure, Unmade>
        requires part { 0 < share.old.parts }
        requires given { IsGiven self.old.core.list job }
        requires moment { now < 2 ^ 40 }
        ensures failed { IsFailedAt result job (length self.old.core.list) self.old.core.list }
        ensures made { IfOk result (λ f. IsStarvedAloud self.old job now f self.new) }
        ensures parts { share.new.parts ≡ share.old.parts }
        ensures counted { share.new.amount ≡ share.old.amount
            + starved_in (starved_ending job now result) }
        ensures cause { result ≡ Err Unmade.LogFault → (k : K) × HasRisen 0 (K.faults k) }
    {
        let zone = *job.zone();
        match self.fail_aloud(job, now) {
            Ok(Failure::Failed) => self.say_starved(share, &zone, Failure::Failed),
            Ok(Failure::Stale(position)) => Ok(Failure::Stale(position)),
            Err(unmade) => Err(unmade),
        }
    }
}

/// Whether memory ran out.
fn is_want(verdict: &Verdict) -> bool
    ensures { result ≡ is_want verdict.now }
{
    matches!(verdict, Verdict::OutOfMemory)
}

/// Shows a reading the list that a transfer has joined; where none is taken, nothing.
fn show_taken<R: Wait>(rt: &R, reading: &mut Reading, verdict: &Verdict, told: Told)
    requires out { reading.old.is_out ≡ false }
    requires own { told.book ≡ reading.old.book }
    requires legal { IsLegal reading.old.list }
    ensures same { reading.new ≡ record reading.old { list = reading.new.list } }
    ensures seen { IsPrefix reading.old.list reading.new.list }
    ensures taken { is_taken verdict.now ≡ true → IsPrefix told.list reading.new.list }
    ensures legal { IsLegal reading.new.list }
    ensures untaken { is_taken verdict.now ≡ false → reading.new ≡ reading.old }
{
    match verdict {
        Verdict::Published { .. } | Verdict::Confirmed { .. } => reading.learn(rt, told),
        _ => drop(told),
    }
}
