//! The clock of the host.
ghost use Rattle.std.specs.Prelude.{true, None};

use crate::Bell;
use crate::watch::Watch;
use dz_io::{Clock, Rest};
use std::alloc::{AllocError, Global};
use std::fs::{File, Files};
use std::sync::Wait;
use std::thread::sleep;
use std::time;
use std::time::Duration;

/// The first moment that is too late.
const MOMENTS: u64 = 1 << 40;

/// How many seconds a worker rests where the bell doesn't ring.
const REST_SECONDS: u64 = 1;

/// How many milliseconds lie at least between two rests that the bell ended, and between two rings for help.
const BRAKE_MILLIS: u64 = 10;

/// The host's clock, in seconds of Unix time. It may give every moment, and tells none. It stops its worker once the
/// server is to stop.
#[derive(Drop)]
pub struct HostClock<'a, R> {
    watch: Watch<'a, R>,
    /// The last moment that it gave.
    moment: u64,
    /// How often the bell had rung when its worker last went on.
    heard: u64,
    /// When the bell last ended a rest of its worker.
    woken: Duration,
    /// When it last rang the bell.
    rang: Duration,
}

impl<'a, R> HostClock<'a, R> {
    /// A clock that has given no moment.
    pub fn new(rt: &'a R, bell: &'a Bell) -> HostClock<'a, R> {
        HostClock {
            watch: Watch::new(rt, bell),
            moment: 0,
            heard: 0,
            woken: Duration::ZERO,
            rang: Duration::ZERO,
        }
    }
}

impl<'a, R: time::Clock + Files<File = File> + Wait> HostClock<'a, R> {
    /// Waits for the bell, a second at most. The bell ends two such rests at least `BRAKE_MILLIS` milliseconds apart.
    fn wait(&mut self) {
        let (rt, bell) = (self.watch.rt, self.watch.bell);
        let limit = Duration::from_secs(REST_SECONDS);
        if bell.wait(rt, self.heard, limit) != self.heard {
            let gone = self.watch.time().saturating_sub(self.woken);
            let brake = Duration::from_millis(BRAKE_MILLIS).saturating_sub(gone);
            if !brake.is_zero() {
                sleep(rt, brake);
            }
            self.woken = self.watch.time();
        }
        self.heard = bell.count(rt);
    }

    /// Rings for the other workers that rest, where it hasn't done so just now.
    fn call(&mut self) {
        let time = self.watch.time();
        if time.saturating_sub(self.rang) >= Duration::from_millis(BRAKE_MILLIS) {
            self.rang = time;
            self.heard = self.watch.bell.ring(self.watch.rt);
        }
    }
}

impl<'a, R: time::Clock + Files<File = File> + Wait> Clock for HostClock<'a, R> {
    ghost may_give = { λ _ _. true };

    ghost may_stop = { λ _. true };

    ghost given = { λ _. None };

    /// A clock of the same host and bell, which has told no moment yet. It never fails.
    fn twin(&self, _alloc: Global) -> Result<HostClock<'a, R>, AllocError> {
        Ok(HostClock::new(self.watch.rt, self.watch.bell))
    }

    /// The host's time in seconds, below 2^40; the last moment again where the host doesn't tell it.
    fn now(&mut self) -> u64 {
        if let Ok(time) = self.watch.rt.since_1970() {
            self.moment = time.as_secs();
        }
        self.moment.min(MOMENTS - 1)
    }

    /// Where the worker is idle, rests until the bell rings, a second at most. Where it isn't, rings for the others.
    fn rest(&mut self, idle: bool) -> Rest {
        if self.watch.bell.is_to_stop() {
            return Rest::Stop;
        }
        if idle {
            self.wait();
        } else {
            self.call();
        }
        if self.watch.is_to_stop() {
            Rest::Stop
        } else {
            Rest::Go
        }
    }
}
