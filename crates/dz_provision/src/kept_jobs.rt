//! Jobs whose transfers are kept in a store.

ghost use Rattle.std.specs.Prelude.{◌≡◌, ◌<◌, ◌+◌, ◌^◌, false, true, length, Err};
ghost use mathlib.Core.List.{IsPrefix};
ghost use Rattle.dz_io.specs.Counts.{HasRisen};
ghost use Rattle.dz_provision.specs.Witness.{IsWitnessOf};
ghost use Rattle.dz_history.specs.Legal.{IsLegal};
ghost use Rattle.dz_job.specs.Job.{transfer_for};
ghost use Rattle.dz_fleet.specs.Sound.{IsGiven};
ghost use Rattle.dz_fleet.specs.Weighing.{is_taken};
ghost use Rattle.dz_provision.specs.Endings.{settled_ending, starved_in};
ghost use Rattle.dz_provision.specs.Keeping.{IsLastVerdict};
ghost use Rattle.dz_provision.specs.Receipts.{IsSettledAt};

use crate::ending::Ended;
use crate::jobs::Jobs;
use crate::keep::keep_last;
use crate::naming::Naming;
use crate::provisioner::{LogFault, Provisioner, Unmade};
use crate::shared::Locked;
use crate::witness::Witness;
use dz_desk::{Ear, Hearing, Reading};
use dz_disk::Disk;
use dz_fleet::{Due, Failure, Job, Verdict};
use dz_io::{Peer, Sink};
use dz_name::Name;
use dz_store::Store;
use dz_take::Finished;
use std::alloc::Global;
use std::sync::ledger::Share;
use std::sync::{Mutex, Wait};

/// A provisioner behind its lock, and a store behind its own, where there is one. It hears NOTIFY, hands jobs out and ends them
/// as [`crate::Shared`] does; what is taken is kept in the store while the provisioner is locked.
#[derive(Drop)]
pub struct Keeping<'a, B, S> {
    shared: &'a B,
    store: Option<&'a Mutex<S>>,
}

impl<'a, B, S> Keeping<'a, B, S> {
    pub fn over(shared: &'a B, store: Option<&'a Mutex<S>>) -> Keeping<'a, B, S> {
        Keeping { shared, store }
    }
}

impl<K: Sink, J: Naming> Provisioner<K, J> {
    /// Ends a job beside a reading, as [`Provisioner::settle_seen`] does, and keeps what is taken.
    fn settle_and_keep<D: Disk + Drop, R: Wait>(
        &mut self,
        rt: &R,
        alloc: Global,
        store: Option<&Mutex<Store<D>>>,
        reading: &mut Reading,
        share: &mut Share<J>,
        job: Job,
        finished: Finished,
        now: u64,
    ) -> Ended<Verdict>
        requires out { reading.old.is_out ≡ false }
        requires own { reading.old.book ≡ J.publisher }
        requires list { reading.old.list ≡ self.old.core.list }
        requires legal { IsLegal reading.old.list }
        requires part { 0 < share.old.parts }
        requires given { IsGiven self.old.core.list job }
        requires transfer { finished.transfer ≡ transfer_for job }
        requires moment { now < 2 ^ 40 }
        ensures same { reading.new ≡ record reading.old { list = reading.new.list } }
        ensures seen { IsPrefix reading.old.list reading.new.list }
        ensures legal { IsLegal reading.new.list }
        ensures settled { IsSettledAt result.answer job finished.octets
            (length reading.old.list) reading.new.list }
        ensures ending { result.ending
            ≡ settled_ending job finished.octets now result.answer }
        ensures parts { share.new.parts ≡ share.old.parts }
        ensures counted { share.new.amount ≡ share.old.amount + starved_in result.ending }
        ensures cause { result.answer ≡ Err Unmade.LogFault → (k : K) × HasRisen 0 (K.faults k) }
    {
        let ended = self.settle_seen(rt, alloc, reading, share, job, finished, now);
        if let Ok(verdict) = &ended.answer {
            self.keep_taken(rt, alloc, store, verdict);
        }
        ended
    }

    /// Keeps what is taken, where there is a store. A fault of the log shows at the next call.
    fn keep_taken<D: Disk + Drop, R: Wait>(
        &mut self,
        rt: &R,
        alloc: Global,
        store: Option<&Mutex<Store<D>>>,
        verdict: &Verdict,
    )
        requires last { is_taken verdict.now ≡ true
            → IsLastVerdict self.old.core.list verdict.now }
        ensures core { self.new.core ≡ self.old.core }
    {
        let Some(store) = store else {
            return;
        };
        match verdict {
            Verdict::Published { .. } | Verdict::Confirmed { .. } => {
                let mut kept = store.lock(rt);
                let _ = keep_last(alloc, self, &mut kept, verdict);
            }
            _ => {}
        }
    }
}

impl<'a, K: Sink, J: Naming, D: Disk + Drop> Ear
    for Keeping<'a, Locked<Provisioner<K, J>>, Store<D>> {
    ghost publisher = { J.publisher };

    // an output of this type can fail
    ghost may_fail = { (k : K) × HasRisen 0 (K.faults k) };

    type Witness = Witness;

    ghost witnesses = { IsWitnessOf };

    fn hear<R: Wait>(
        &self,
        rt: &R,
        peer: &Peer,
        zone: &Name,
        reading: &mut Reading,
    ) -> Hearing<Witness> {
        self.shared.hear(rt, peer, zone, reading)
    }
}

impl<'a, K: Sink, J: Naming, D: Disk + Drop> Jobs
    for Keeping<'a, Locked<Provisioner<K, J>>, Store<D>> {
    type Counted = J;

    fn hand_out<R: Wait>(&self, rt: &R, reading: &mut Reading, now: u64) -> Result<Due, LogFault> {
        self.shared.hand_out(rt, reading, now)
    }

    /// Settles it under the lock, once the reading has seen the list that is there and no longer one, and keeps what is taken.
    fn settle<R: Wait>(
        &self,
        rt: &R,
        alloc: Global,
        reading: &mut Reading,
        share: &mut Share<J>,
        job: Job,
        finished: Finished,
        now: u64,
    ) -> Ended<Verdict> {
        'locks: for _ in rt.forever() {
            let mut inside = self.shared.lock.lock(rt);
            if inside.is_seen(rt, reading) {
                return inside.settle_and_keep(
                    rt, alloc, self.store, reading, share, job, finished, now,
                );
            }
        }
        unreachable!()
    }

    fn fail<R: Wait>(&self, rt: &R, reading: &mut Reading, job: Job, now: u64) -> Ended<Failure> {
        self.shared.fail(rt, reading, job, now)
    }

    fn starve<R: Wait>(
        &self,
        rt: &R,
        reading: &mut Reading,
        share: &mut Share<J>,
        job: Job,
        now: u64,
    ) -> Ended<Failure> {
        self.shared.starve(rt, reading, share, job, now)
    }
}
