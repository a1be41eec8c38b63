//! The bell that wakes the workers that rest.
use crate::expiries::Expiries;
use crate::figures::Figures;
use crate::kind::Kind;
use crate::notifies::Notifies;
use crate::stop::Stop;
use crate::tell::tell_lost;
use std::alloc::Global;
use std::fs::{File, Files};
use std::io::Eprint;
use std::sync::{Condvar, CondvarTimeouts, Mutex, Wait};
use std::time::{Clock, Duration};

/// What the devices and clocks of a server share: a bell, whether the server is to stop, which devices work, the
/// NOTIFYs, what is counted, and when versions expire.
///
/// The bell rings where a NOTIFY was taken, where a worker has found work, and where the server is to stop. A worker
/// that rests remembers how often it had rung when the worker last went on, so it misses no ring.
#[derive(Drop)]
pub struct Bell {
    /// How often it has rung, modulo 2^64.
    rung: Mutex<u64>,
    turned: Condvar,
    stop: Stop,
    pub(crate) notifies: Notifies,
    /// The sockets for UDP.
    pub(crate) datagrams: Kind,
    /// The acceptors.
    pub(crate) acceptors: Kind,
    pub(crate) figures: Figures,
    pub(crate) expiries: Expiries,
}

impl Bell {
    /// A bell that has never rung, of a server that isn't to stop.
    pub fn new(alloc: Global) -> Bell {
        Bell {
            rung: Mutex::new(0),
            turned: Condvar::new(),
            stop: Stop::new(),
            notifies: Notifies::new(alloc),
            datagrams: Kind::new("UDP"),
            acceptors: Kind::new("TCP"),
            figures: Figures::new(),
            expiries: Expiries::new(alloc),
        }
    }

    /// Rings once more, and answers how often it has rung.
    pub fn ring<R: Wait>(&self, rt: &R) -> u64 {
        let mut rung = self.rung.lock(rt);
        *rung = rung.wrapping_add(1);
        let count = *rung;
        self.turned.notify_all();
        count
    }

    /// How often it has rung.
    pub(crate) fn count<R: Wait>(&self, rt: &R) -> u64 {
        *self.rung.lock(rt)
    }

    /// Waits while it has rung exactly `heard` times, until the limit at most, and answers how often it has rung.
    pub(crate) fn wait<R: Wait + Clock>(&self, rt: &R, heard: u64, limit: Duration) -> u64 {
        let rung = self.rung.lock(rt);
        let (rung, _) = self
            .turned
            .wait_timeout_while(rt, rung, limit, |rung| *rung == heard);
        *rung
    }

    /// Whether the server is to stop.
    pub fn is_to_stop(&self) -> bool {
        self.stop.is_set()
    }

    /// Tells that the server is to stop, and rings for it.
    pub fn stop<R: Wait>(&self, rt: &R) {
        self.stop.set();
        self.ring(rt);
    }

    /// A device of a kind has failed for good, which is told. After the last one the server is to stop: it would answer
    /// no more.
    pub(crate) fn lose<R: Wait + Eprint>(&self, rt: &R, kind: &Kind) {
        let is_last = kind.lose();
        tell_lost(rt, kind, is_last);
        if is_last {
            self.stop(rt);
        }
    }

    /// Whether the server is to stop, as it is from now on where SIGHUP, SIGINT or SIGTERM is pending.
    pub(crate) fn look<R: Wait + Files<File = File>>(&self, rt: &R) -> bool {
        if self.stop.is_set() {
            return true;
        }
        let stops = self.stop.look(rt);
        if stops {
            self.ring(rt);
        }
        stops
    }
}
