//! Transfers that are weighed.

ghost use Rattle.std.specs.Prelude.{◌≡◌, ◌<◌, ◌+◌, ◌^◌, Some, None, length, option_map, IfOk, false};
ghost use Rattle.std.specs.Option.{option_map_or};
ghost use Rattle.dz_zonemd.specs.Acceptance.{accepts};
ghost use Rattle.std.specs.Arc.{arc_value};
ghost use Rattle.dz_take.specs.Outcome.{outcome};
ghost use Rattle.dz_take.specs.Taken.{meaning_of};
ghost use Rattle.dz_take.specs.Transfer.{up_to_date, new};
ghost use Rattle.dz_zonemd.specs.Standing.{standing};
ghost use Rattle.dz_history.specs.State.{policy_at, held_at};
ghost use Rattle.dz_history.specs.After.{step, aftermath_of};
ghost use Rattle.dz_job.specs.Job.{JobOf, transfer_for};
ghost use Rattle.dz_job.specs.Job.{serial_in};
ghost use Rattle.dz_fleet.specs.Core.{Core, state_of, ended_of, entry_for, is_accepted, tsig_of, verdict_of};
ghost use Rattle.dz_fleet.specs.Values.{values_after};
ghost use Rattle.dz_fleet.specs.Weighing.{Fits, is_taken, written};
ghost use Rattle.dz_fleet.specs.Sound.{IsFlying};
ghost use Rattle.dz_fleet.specs.inner.Judging.{Stands};
ghost use Rattle.dz_fleet.specs.inner.Relisting.{IsListed};
ghost use Rattle.dz_fleet.specs.inner.Renewing.{renewed_by, written_by, IsMade, IsMadeBy};

use crate::fleet::Fleet;
use crate::waiting::waiting_after;
use crate::weighed::{Renewal, Weighed};
use dz_history::{Aftermath, Entry, Holdings, Taken};
use dz_job::{Job, Verdict};
use dz_name::{Name, Octets};
use dz_settings::Policy;
use dz_take::{Finished, Outcome, TakeFault};
use dz_tsig::{TsigFault, check_stream, request_mac};
use dz_zone::Version;
use dz_zonemd::{Standing, accepts};
use std::alloc::{AllocError, Global};
use std::sync::Arc;

impl Fleet {
    /// Weighs what came of a job that ended at a moment, in seconds below 2^40: its verdict, and all the memory that
    /// its taking needs.
    ///
    /// # Errors
    ///
    /// `AllocError` where memory runs out.
    pub fn weigh(
        &self,
        alloc: Global,
        job: &Job,
        finished: Finished,
        now: u64,
    ) -> Result<Weighed, AllocError>
        requires flying { IsFlying self.now job.now }
        requires transfer { finished.transfer ≡ transfer_for job.now }
        requires moment { now < 2 ^ 40 }
        ensures fits { IfOk result (λ w. Fits self.now job.now w) }
        ensures entry { IfOk result (λ w. w.entry ≡ entry_for job.now finished.octets) }
        ensures moment { IfOk result (λ w. w.moment ≡ now) }
        ensures step { IfOk result (λ w. w.is_there ≡ is_taken w.verdict) }
    {
        let (verdict, renewal) = self.judge(alloc, job, &finished)?;
        let entry = entry_for(job, finished.into_octets());
        Weighed::new(entry, now, verdict, renewal)
    }

    /// The verdict, and what holds afterwards. `AllocError` where memory runs out.
    fn judge(
        &self,
        alloc: Global,
        job: &Job,
        finished: &Finished,
    ) -> Result<(Verdict, Renewal), AllocError>
        requires flying { IsFlying self.now job.now }
        requires transfer { finished.now.transfer ≡ transfer_for job.now }
        ensures verdict { IfOk result (λ r. r.0 ≡ verdict_of self.now job.now finished.now.octets) }
        ensures made { IfOk result
            (λ r. IsMadeBy self.now job.now finished.now.octets r.0 r.1) }
    {
        match self.ended_of(job) {
            Some(position) => Ok((Verdict::Stale(position), Renewal::Same)),
            None => self.judge_standing(alloc, job, finished),
        }
    }

    /// The verdict, and what holds afterwards, for a job whose incarnation is current. `AllocError` where memory runs
    /// out.
    fn judge_standing(
        &self,
        alloc: Global,
        job: &Job,
        finished: &Finished,
    ) -> Result<(Verdict, Renewal), AllocError>
        requires flying { IsFlying self.now job.now }
        requires standing { ended_of self.now job.now ≡ None }
        requires transfer { finished.now.transfer ≡ transfer_for job.now }
        ensures verdict { IfOk result (λ r. r.0 ≡ verdict_of self.now job.now finished.now.octets) }
        ensures made { IfOk result
            (λ r. IsMadeBy self.now job.now finished.now.octets r.0 r.1) }
    {
        match finished.outcome() {
            Outcome::Refused(fault) => Ok((Verdict::Refused(*fault), Renewal::Same)),
            Outcome::UpToDate => self.judge_otherwise(alloc, job, finished),
            Outcome::New(_) => self.judge_otherwise(alloc, job, finished),
        }
    }

    /// The same for a transfer that isn't refused for its own sake. `AllocError` where memory runs out.
    fn judge_otherwise(
        &self,
        alloc: Global,
        job: &Job,
        finished: &Finished,
    ) -> Result<(Verdict, Renewal), AllocError>
        requires flying { IsFlying self.now job.now }
        requires standing { ended_of self.now job.now ≡ None }
        requires transfer { finished.now.transfer ≡ transfer_for job.now }
        requires comes { Stands (outcome finished.now.transfer finished.now.octets) }
        ensures verdict { IfOk result (λ r. r.0 ≡ verdict_of self.now job.now finished.now.octets) }
        ensures made { IfOk result
            (λ r. IsMadeBy self.now job.now finished.now.octets r.0 r.1) }
    {
        match self.tsig_fault(alloc, job, finished)? {
            Some(fault) => Ok((Verdict::Refused(TakeFault::Tsig(fault)), Renewal::Same)),
            None => self.judge_signed(alloc, job, finished),
        }
    }

    /// The same for a transfer that is signed where it has to be. `AllocError` where memory runs out.
    fn judge_signed(
        &self,
        alloc: Global,
        job: &Job,
        finished: &Finished,
    ) -> Result<(Verdict, Renewal), AllocError>
        requires flying { IsFlying self.now job.now }
        requires standing { ended_of self.now job.now ≡ None }
        requires transfer { finished.now.transfer ≡ transfer_for job.now }
        requires comes { Stands (outcome finished.now.transfer finished.now.octets) }
        requires signed { tsig_of self.now job.now finished.now.octets ≡ None }
        ensures verdict { IfOk result (λ r. r.0 ≡ verdict_of self.now job.now finished.now.octets) }
        ensures made { IfOk result
            (λ r. IsMadeBy self.now job.now finished.now.octets r.0 r.1) }
    {
        match finished.outcome() {
            Outcome::Refused(_) => unreachable!(),
            Outcome::UpToDate => self.judge_same(alloc, job, finished),
            Outcome::New(version) => self.judge_new(alloc, job, finished, version),
        }
    }

    /// What is wrong with the signatures of a transfer, where the zone's catalog has a key. `AllocError` where memory
    /// runs out.
    fn tsig_fault(
        &self,
        alloc: Global,
        job: &Job,
        finished: &Finished,
    ) -> Result<Option<TsigFault>, AllocError>
        requires transfer { finished.now.transfer ≡ transfer_for job.now }
        ensures { IfOk result (λ f. f ≡ tsig_of self.now job.now finished.now.octets) }
    {
        match self.holdings.key(job.zone()) {
            None => Ok(None),
            Some(key) => {
                let query = job.query(alloc)?;
                let mac = request_mac(key, query.as_slice(), job.moment());
                let octets = finished.octets().as_slice();
                match check_stream(key, &mac, octets, job.moment()) {
                    Ok(()) => Ok(None),
                    Err(fault) => Ok(Some(fault)),
                }
            }
        }
    }

    /// The same where the version that is held is the primary's. `AllocError` where memory runs out.
    fn judge_same(
        &self,
        alloc: Global,
        job: &Job,
        finished: &Finished,
    ) -> Result<(Verdict, Renewal), AllocError>
        requires flying { IsFlying self.now job.now }
        requires standing { ended_of self.now job.now ≡ None }
        requires transfer { finished.now.transfer ≡ transfer_for job.now }
        requires same { outcome finished.now.transfer finished.now.octets ≡ up_to_date }
        requires signed { tsig_of self.now job.now finished.now.octets ≡ None }
        ensures verdict { IfOk result (λ r. r.0 ≡ verdict_of self.now job.now finished.now.octets) }
        ensures made { IfOk result
            (λ r. IsMadeBy self.now job.now finished.now.octets r.0 r.1) }
    {
        let (_, renewal) = self.take(alloc, job, finished)?;
        let verdict = Verdict::Confirmed {
            position: self.holdings.count(),
            serial: serial_of(job.held()),
        };
        Ok((verdict, renewal))
    }

    /// The same for a new version. `AllocError` where memory runs out.
    fn judge_new(
        &self,
        alloc: Global,
        job: &Job,
        finished: &Finished,
        version: &Version,
    ) -> Result<(Verdict, Renewal), AllocError>
        requires flying { IsFlying self.now job.now }
        requires standing { ended_of self.now job.now ≡ None }
        requires transfer { finished.now.transfer ≡ transfer_for job.now }
        requires new { outcome finished.now.transfer finished.now.octets ≡ new version.now }
        requires signed { tsig_of self.now job.now finished.now.octets ≡ None }
        ensures verdict { IfOk result (λ r. r.0 ≡ verdict_of self.now job.now finished.now.octets) }
        ensures made { IfOk result
            (λ r. IsMadeBy self.now job.now finished.now.octets r.0 r.1) }
    {
        if !self.approves(job.zone(), finished, version) {
            let standing = standing_of(finished, version);
            return Ok((Verdict::PolicyRefused(standing), Renewal::Same));
        }
        let (aftermath, renewal) = self.take(alloc, job, finished)?;
        let verdict = Verdict::Published {
            position: self.holdings.count(),
            serial: version.soa().serial,
            aftermath,
        };
        Ok((verdict, renewal))
    }

    /// Whether the policy of a zone accepts a new version. One that accepts whatever the ZONEMD records say doesn't ask
    /// what they say.
    fn approves(&self, zone: &Name, finished: &Finished, version: &Version) -> bool
        requires { outcome finished.now.transfer finished.now.octets ≡ new version.now }
        ensures { result ≡ is_accepted (policy_at (state_of self.now) zone.now) version.now }
    {
        match self.holdings.policy(zone) {
            None => false,
            Some(Policy::Off) => true,
            Some(policy) => accepts(policy, standing_of(finished, version)),
        }
    }

    /// What holds after a transfer that is taken, and what it changes beyond its own zone. `AllocError` where memory
    /// runs out.
    fn take(
        &self,
        alloc: Global,
        job: &Job,
        finished: &Finished,
    ) -> Result<(Aftermath, Renewal), AllocError>
        requires flying { IsFlying self.now job.now }
        requires standing { ended_of self.now job.now ≡ None }
        requires transfer { finished.now.transfer ≡ transfer_for job.now }
        ensures aftermath { IfOk result
            (λ r. r.0 ≡ aftermath_of (state_of self.now) job.now.flight.zone
            (outcome finished.now.transfer finished.now.octets)) }
        ensures made { IfOk result (λ r. IsMade self.now job.now finished.now.octets r.0 r.1) }
    {
        let (holdings, aftermath) = self.holdings.take(alloc, finished, job.moment())?;
        let renewal = self.renewal(alloc, holdings, &aftermath)?;
        Ok((aftermath, renewal))
    }

    /// Other holdings, and what their zones wait for where a listing was processed. `AllocError` where memory runs out.
    fn renewal(
        &self,
        alloc: Global,
        holdings: Holdings,
        aftermath: &Aftermath,
    ) -> Result<Renewal, AllocError>
        requires { IsListed (state_of self.now) holdings aftermath.now }
        ensures renewed { IfOk result (λ r. renewed_by r ≡ Some record { state = holdings }) }
        ensures values { IfOk result (λ r. written self.now.values (written_by r)
            ≡ values_after (state_of self.now) self.now.values aftermath.now
            holdings.fold.members) }
    {
        match aftermath {
            Aftermath::Member => Ok(Renewal::Taken(holdings)),
            Aftermath::Broken(_) => Ok(Renewal::Taken(holdings)),
            Aftermath::Changes(changes) => {
                let (before, schedule) = (&self.holdings, &self.schedule);
                let waiting = waiting_after(alloc, before, schedule, &holdings, changes)?;
                Ok(Renewal::Relisted(holdings, waiting))
            }
        }
    }
}

/// The entry of a job with these octets.
fn entry_for(job: &Job, octets: Octets) -> Entry
    ensures { result ≡ entry_for job.now octets }
{
    Entry::Transfer(Taken {
        zone: *job.zone(),
        incarnation: job.incarnation(),
        ask: job.ask(),
        id: job.id(),
        octets,
        moment: job.moment(),
    })
}

/// The serial of a version that is held.
fn serial_of(held: Option<&Arc<Version>>) -> u32
    ensures { result ≡ serial_in (option_map (λ r. r.now.value) held.entry) }
{
    match held {
        None => 0,
        Some(version) => version.soa().serial,
    }
}

/// What the ZONEMD records of a new version say of it.
fn standing_of(finished: &Finished, version: &Version) -> Standing
    requires { outcome finished.now.transfer finished.now.octets ≡ new version.now }
    ensures { result ≡ standing version.now.apex version.now.records }
{
    match finished.standing() {
        Some(standing) => standing,
        None => unreachable!(),
    }
}
