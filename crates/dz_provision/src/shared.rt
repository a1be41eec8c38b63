//! The lock.

ghost use Rattle.dz_io.specs.Counts.{HasRisen};
ghost use Rattle.dz_provision.specs.Witness.{IsWitnessOf};

use crate::ending::Ended;
use crate::jobs::Jobs;
use crate::naming::Naming;
use crate::provisioner::{LogFault, Provisioner};
use crate::witness::Witness;
use dz_desk::{Ear, Hearing, Reading};
use dz_fleet::{Due, Failure, Job, Verdict};
use dz_io::{Peer, Sink};
use dz_name::Name;
use dz_take::Finished;
use std::alloc::Global;
use std::mem::ManuallyDrop;
use std::sync::ledger::Share;
use std::sync::{Mutex, Wait};

/// Something behind a lock, for threads to share. [`Locked::close`] takes it out.
pub struct Locked<P> {
    pub(crate) lock: Mutex<ManuallyDrop<P>>,
}

/// A provisioner behind a lock. It hears NOTIFY, hands jobs out and ends them for the readings of its publisher.
pub type Shared<K, J> = Locked<Provisioner<K, J>>;

impl<P> Locked<P> {
    /// Puts it behind a lock.
    pub fn over(inside: P) -> Locked<P> {
        Locked {
            lock: Mutex::new(unsafe { ManuallyDrop::new_unchecked(inside) }),
        }
    }

    /// Takes it out.
    pub fn close(self) -> P {
        let Locked { lock } = self;
        ManuallyDrop::into_inner(lock.into_inner())
    }
}

impl<K: Sink, J: Naming> Ear for Locked<Provisioner<K, J>> {
    ghost publisher = { J.publisher };

    // an output of this type can fail
    ghost may_fail = { (k : K) × HasRisen 0 (K.faults k) };

    type Witness = Witness;

    ghost witnesses = { IsWitnessOf };

    /// Hears it under the lock, once the reading has seen the list that is there and no longer one.
    fn hear<R: Wait>(
        &self,
        rt: &R,
        peer: &Peer,
        zone: &Name,
        reading: &mut Reading,
    ) -> Hearing<Witness> {
        'locks: for _ in rt.forever() {
            if let Some(hearing) = self.lock.lock(rt).hear_seen(rt, peer, zone, reading) {
                return hearing;
            }
        }
        unreachable!()
    }
}

impl<K: Sink, J: Naming> Jobs for Locked<Provisioner<K, J>> {
    type Counted = J;

    /// Hands it out under the lock, once the reading has seen the list that is there and no longer one.
    fn hand_out<R: Wait>(&self, rt: &R, reading: &mut Reading, now: u64) -> Result<Due, LogFault> {
        'locks: for _ in rt.forever() {
            let mut inside = self.lock.lock(rt);
            if inside.is_seen(rt, reading) {
                return inside.hand_out_now(now);
            }
        }
        unreachable!()
    }

    fn settle<R: Wait>(
        &self,
        rt: &R,
        alloc: Global,
        reading: &mut Reading,
        share: &mut Share<J>,
        job: Job,
        finished: Finished,
        now: u64,
    ) -> Ended<Verdict> {
        'locks: for _ in rt.forever() {
            let mut inside = self.lock.lock(rt);
            if inside.is_seen(rt, reading) {
                return inside.settle_seen(rt, alloc, reading, share, job, finished, now);
            }
        }
        unreachable!()
    }

    fn fail<R: Wait>(&self, rt: &R, reading: &mut Reading, job: Job, now: u64) -> Ended<Failure> {
        'locks: for _ in rt.forever() {
            let mut inside = self.lock.lock(rt);
            if inside.is_seen(rt, reading) {
                return inside.fail_now(job, now);
            }
        }
        unreachable!()
    }

    fn starve<R: Wait>(
        &self,
        rt: &R,
        reading: &mut Reading,
        share: &mut Share<J>,
        job: Job,
        now: u64,
    ) -> Ended<Failure> {
        'locks: for _ in rt.forever() {
            let mut inside = self.lock.lock(rt);
            if inside.is_seen(rt, reading) {
                return inside.starve_now(share, job, now);
            }
        }
        unreachable!()
    }
}
