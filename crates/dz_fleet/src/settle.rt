//! Jobs that end.

ghost use Rattle.std.specs.Prelude.{◌≡◌, ◌<◌, ◌≤◌, ◌^◌, ◌==◌, ◌++◌, ◌∷◌, [], Some, None, true, false, not, length};
ghost use Rattle.std.specs.Prelude.{map, filter, option_map, IsSome, if◌then◌else◌};
ghost use Rattle.std.specs.List.{find};
ghost use Rattle.dz_history.specs.Legal.{CanFollow};
ghost use Rattle.dz_timer.specs.Values.{failed, refused};
ghost use Rattle.dz_job.specs.Job.{IsJob, JobOf, transfer_for};
ghost use Rattle.dz_job.specs.Job.{refresh_in, retry_in};
ghost use Rattle.dz_fleet.specs.Core.{Core, state_of, ended_of, entry_for, primaries_of, landed, is_old_serial};
ghost use Rattle.dz_fleet.specs.Core.{after_failure, after_refusal, after_success, after_end, settled, failed_core};
ghost use Rattle.dz_fleet.specs.Core.{failure_of};
ghost use Rattle.dz_fleet.specs.Answers.{IsOffered};
ghost use Rattle.dz_fleet.specs.Weighing.{Fits, octets_in, aftermath_in, written, written_at};
ghost use Rattle.dz_fleet.specs.Sound.{IsFlying};
ghost use Rattle.dz_fleet.specs.inner.Flying.{marked};
ghost use Rattle.dz_fleet.specs.inner.Renewing.{renewed_by, written_by, written_in, IsMade};

use crate::fleet::{Fleet, Last};
use crate::flight::Flying;
use crate::places::{own_place, place_of};
use crate::waiting::Waiting;
use crate::weighed::{Renewal, Weighed};
use dz_history::{Entry, Holdings};
use dz_job::{Failure, Job, Verdict};
use dz_name::Name;
use dz_take::{Finished, TakeFault};
use dz_timer::{Schedule, Values};
use dz_zone::Version;
use std::alloc::Global;
use std::mem;
use std::snapshot::Snapshot;
use std::sync::Arc;

impl Fleet {
    /// Ends a job according to what was weighed. It takes no memory.
    pub fn settle(&mut self, job: Job, weighed: Weighed) -> Verdict
        requires flying { IsFlying self.old job }
        requires fits { Fits self.old job weighed }
        ensures verdict { result ≡ weighed.verdict }
        ensures core { self.new ≡ settled self.old job (octets_in weighed.entry) weighed.moment }
    {
        let _ = &self.holdings;
        let (entry, moment, verdict, renewal) = weighed.into_parts();
        match &verdict {
            Verdict::Published { .. } => self.end_taken(&job, entry, renewal),
            Verdict::Confirmed { .. } => self.end_taken(&job, entry, renewal),
            Verdict::Refused(fault) => self.end_unchanged(&job, moment, !is_old_serial(*fault)),
            Verdict::PolicyRefused(_) => self.end_unchanged(&job, moment, true),
            Verdict::Stale(_) => self.end_stale(&job),
            Verdict::OutOfMemory => unreachable!(),
        }
        job.close();
        verdict
    }

    /// Weighs what came of a job that ended at a moment, in seconds below 2^40, and ends it accordingly. Where memory
    /// runs out it ends as one that failed, and nothing is taken.
    pub fn offer(&mut self, alloc: Global, job: Job, finished: Finished, now: u64) -> Verdict
        requires flying { IsFlying self.old job }
        requires transfer { finished.transfer ≡ transfer_for job }
        requires moment { now < 2 ^ 40 }
        ensures { IsOffered self.old job finished.octets now result self.new }
    {
        match self.weigh(alloc, &job, finished, now) {
            Ok(weighed) => self.settle(job, weighed),
            Err(_) => {
                self.fail(job, now);
                Verdict::OutOfMemory
            }
        }
    }

    /// Ends a job that failed at a moment, in seconds below 2^40.
    pub fn fail(&mut self, job: Job, now: u64) -> Failure
        requires flying { IsFlying self.old job }
        requires moment { now < 2 ^ 40 }
        ensures failure { result ≡ failure_of (ended_of self.old job) }
        ensures core { self.new ≡ failed_core self.old job now }
    {
        let failure = match self.ended_of(&job) {
            Some(position) => {
                self.end_stale(&job);
                Failure::Stale(position)
            }
            None => {
                self.end_unchanged(&job, now, false);
                Failure::Failed
            }
        };
        job.close();
        failure
    }

    /// The position of the entry that ended the incarnation of a job in flight, if one did.
    pub(crate) fn ended_of(&self, job: &Job) -> Option<u64>
        requires { IsFlying self.now job.now }
        ensures { result ≡ ended_of self.now job.now }
    {
        match flying_of(&self.flying, job.ticket()) {
            Some(flying) => flying.ended,
            None => unreachable!(),
        }
    }

    /// Removes a job whose incarnation has ended from those in flight.
    fn end_stale(&mut self, job: &Job)
        requires flying { IsFlying self.old job.now }
        requires ended { IsSome (ended_of self.old job.now) }
        ensures { self.new ≡ landed self.old job.now }
    {
        land(&mut self.flying, job.ticket());
    }

    /// Removes a job by which nothing was taken from those in flight. With `whole` the whole zone is asked for next;
    /// otherwise what is asked for next stays.
    fn end_unchanged(&mut self, job: &Job, now: u64, whole: bool)
        requires flying { IsFlying self.old job.now }
        requires standing { ended_of self.old job.now ≡ None }
        requires moment { now < 2 ^ 40 }
        ensures { self.new ≡ (if whole then after_refusal self.old job.now now
            else after_failure self.old job.now now) }
    {
        let retry = retry_of(self.holdings.held(job.zone()));
        let primaries = primaries_of(&self.holdings, job.zone());
        land(&mut self.flying, job.ticket());
        if let Some(place) = place_of(&self.holdings, job.zone()) {
            let values = waits(self.schedule.at(place), now, retry, primaries, whole);
            self.schedule.change(place, values);
        }
    }

    /// Removes a job whose transfer is taken from those in flight.
    fn end_taken(&mut self, job: &Job, entry: Snapshot<Entry>, renewal: Renewal)
        requires flying { IsFlying self.old job.now }
        requires standing { ended_of self.old job.now ≡ None }
        requires entry { entry.value ≡ entry_for job.now (octets_in entry.value) }
        requires follows { IsJob job.now → CanFollow (state_of self.old) entry.value }
        requires made { let octets = octets_in entry.value in
            IsMade self.old job.now octets (aftermath_in self.old job.now octets) renewal }
        ensures { let octets = octets_in entry.value in
            self.new ≡ after_success self.old job.now octets
            (aftermath_in self.old job.now octets) }
    {
        let position = self.holdings.count();
        land(&mut self.flying, job.ticket());
        renew(&mut self.holdings, &mut self.schedule, renewal);
        mark(&mut self.flying, &self.holdings, position);
        let refresh = refresh_of(self.holdings.held(job.zone()));
        let place = own_place(&self.holdings, job.zone());
        let values = self.schedule.at(place).succeeded(job.moment(), refresh);
        self.schedule.change(place, values);
        self.last = Some(Last {
            zone: *job.zone(),
            moment: job.moment(),
        });
        self.history = self.history.and(entry);
    }
}

/// The job in flight with this ticket.
fn flying_of(flying: &[Flying], ticket: u64) -> Option<&Flying>
    ensures { option_map (λ r. r.now) result ≡ find (λ f. f.flight.ticket == ticket) flying.now }
{
    flying.iter().find(|f| f.flight.ticket == ticket)
}

/// Removes the job with this ticket; the others stay in flight.
fn land(flying: &mut Vec<Flying>, ticket: u64)
    ensures { flying.new.items ≡ filter (λ f. not (f.flight.ticket == ticket)) flying.old.items }
{
    flying.retain(|f| f.flight.ticket != ticket);
}

/// RETRY of the version that is held, in seconds; none where no version is held.
fn retry_of(held: Option<&Arc<Version>>) -> Option<u32>
    ensures { result ≡ retry_in (option_map (λ r. r.now.value) held.entry) }
{
    match held {
        None => None,
        Some(version) => Some(version.soa().retry),
    }
}

/// REFRESH of the version that is held, in seconds.
fn refresh_of(held: Option<&Arc<Version>>) -> u32
    ensures { result ≡ refresh_in (option_map (λ r. r.now.value) held.entry) }
{
    match held {
        None => 0,
        Some(version) => version.soa().refresh,
    }
}

/// How many primaries a zone has.
fn primaries_of(holdings: &Holdings, zone: &Name) -> usize
    ensures { result ≡ primaries_of holdings.now zone.now }
{
    match holdings.primaries(zone) {
        None => 1,
        Some(peers) => peers.as_slice().len(),
    }
}

/// What a zone waits for after a job by which nothing was taken.
fn waits(before: Values, now: u64, retry: Option<u32>, primaries: usize, whole: bool) -> Values
    requires busy { before.timing.busy ≡ true }
    requires moment { now < 2 ^ 40 }
    requires some { 1 ≤ primaries }
    requires few { primaries ≤ 8 }
    ensures { result ≡ (if whole then refused before now retry primaries
        else failed before now retry primaries) }
{
    if whole {
        before.refused(now, retry, primaries as u8)
    } else {
        before.failed(now, retry, primaries as u8)
    }
}

/// Replaces what was there by what was made when the transfer was weighed. It takes no memory.
fn renew(holdings: &mut Holdings, schedule: &mut Schedule, renewal: Renewal)
    requires { IsSome (renewed_by renewal) }
    ensures state { Some holdings.new ≡ option_map (λ r. r.state) (renewed_by renewal) }
    ensures values { schedule.new ≡ written schedule.old (written_by renewal) }
{
    match renewal {
        Renewal::Same => unreachable!(),
        Renewal::Taken(others) => replace(holdings, others),
        Renewal::Relisted(others, waiting) => {
            replace(holdings, others);
            write(schedule, waiting);
        }
    }
}

/// Replaces holdings by others.
fn replace(holdings: &mut Holdings, others: Holdings)
    ensures { holdings.new ≡ others }
{
    let old = mem::replace(holdings, others);
    drop(old);
}

/// Writes what zones wait for.
fn write(schedule: &mut Schedule, waiting: Waiting)
    ensures { schedule.new ≡ written schedule.old (written_in waiting) }
{
    match waiting {
        Waiting::Places(pairs) => write_at(schedule, &pairs),
        Waiting::All(others) => {
            let old = mem::replace(schedule, others);
            drop(old);
        }
    }
}

/// Writes what the zones at these places wait for.
fn write_at(schedule: &mut Schedule, pairs: &[(usize, Values)])
    ensures { schedule.new ≡ written_at schedule.old pairs.now }
{
    'pairs: for pair in pairs {
        let (place, values) = *pair;
        if place < schedule.len() {
            schedule.change(place, values);
        }
    }
}

/// Notes the position at each job in flight whose incarnation isn't current any more.
fn mark(flying: &mut Vec<Flying>, holdings: &Holdings, position: u64)
    ensures { flying.new.items ≡ map (marked holdings.now position) flying.old.items }
{
    'jobs: for f in flying.iter_mut() {
        f.ended = ended_at(f, holdings, position);
    }
}

/// The position of the entry that ended the incarnation of a job: the one that is known, or this one where the
/// incarnation isn't current.
fn ended_at(f: &Flying, holdings: &Holdings, position: u64) -> Option<u64>
    ensures { record f.now { ended = result } ≡ marked holdings.now position f.now }
{
    if f.ended.is_none() && !holdings.stands(&f.flight.zone, f.flight.incarnation) {
        Some(position)
    } else {
        f.ended
    }
}

/// Whether a transfer was refused for an old serial, so that differences may still be asked for.
fn is_old_serial(fault: TakeFault) -> bool
    ensures { result ≡ is_old_serial fault }
{
    matches!(fault, TakeFault::OldSerial(_))
}
