//! The timing of one zone.

ghost use Rattle.std.specs.Prelude.{◌≡◌, ◌<◌, ◌^◌, true, false};
ghost use Rattle.dz_timer.specs.Timing.{fresh, is_due, departed, wait, ended_at, succeeded, failed, ended, notified};
ghost use Rattle.dz_timer.specs.Timing.{is_live};

use std::marker::Model;
use std::mem::size_of;

/// How many seconds a zone without a held version waits after a failure, since it has no RETRY.
pub const UNHELD_RETRY: u64 = 60;

/// When the next job of a zone is due, whether one is in flight, and whether a NOTIFY came meanwhile. Moments are in
/// seconds: those given are below 2^40, and that of the next job is below 2^41.
#[derive(Clone, Copy, Debug)]
pub struct Timer {
    next: u64,
    again: bool,
    busy: bool,
}

const _: () = prove!(size_of::<Timer>() <= 16);

impl Model for Timer {
    ghost use Rattle.std.specs.Prelude.{◌<◌, ◌^◌};
    ghost use Rattle.dz_timer.specs.Timing.{Timing};

    ghost Value = { Timing };

    ghost view = { λ t. record { next = t.next; again = t.again; busy = t.busy } };

    ghost invariant = { λ t. t.next < 2 ^ 41 };

    ghost inverse = { λ timing.
        record { next = timing.next; again = timing.again; busy = timing.busy } };
}

impl Timer {
    /// The timer of a new zone, which is due at once.
    pub fn fresh() -> Timer
        ensures { result ≡ fresh }
    {
        Timer {
            next: 0,
            again: false,
            busy: false,
        }
    }

    /// The moment, in seconds, from which the next job is due.
    pub fn next(&self) -> u64
        ensures value { result ≡ self.now.next }
        ensures below { result < 2 ^ 41 }
    {
        self.next
    }

    /// Whether a job is in flight.
    pub fn is_busy(&self) -> bool
        ensures { result ≡ self.now.busy }
    {
        self.busy
    }

    /// Whether a job is to be started now.
    pub fn is_due(&self, now: u64) -> bool
        ensures { result ≡ is_due self.now now }
    {
        !self.busy && self.next <= now
    }

    /// A job starts.
    pub fn depart(&mut self)
        requires { self.old.busy ≡ false }
        ensures { self.new ≡ departed self.old }
    {
        self.busy = true;
    }

    /// The job of this moment obtained or confirmed a version, whose SOA has this REFRESH in seconds (RFC 1035 section
    /// 3.3.13).
    pub fn succeeded(&mut self, moment: u64, refresh: u32)
        requires busy { self.old.busy ≡ true }
        requires moment { moment < 2 ^ 40 }
        ensures { self.new ≡ succeeded self.old moment refresh }
    {
        self.end(moment + wait(refresh));
    }

    /// The job failed at this moment. The SOA of the held version has this RETRY in seconds (RFC 1035 section 3.3.13);
    /// it is none where no version is held.
    pub fn failed(&mut self, now: u64, retry: Option<u32>)
        requires busy { self.old.busy ≡ true }
        requires moment { now < 2 ^ 40 }
        ensures { self.new ≡ failed self.old now retry }
    {
        match retry {
            Some(retry) => self.end(now + wait(retry)),
            None => self.end(now + UNHELD_RETRY),
        }
    }

    /// The job ended, with neither success nor failure.
    pub fn ended(&mut self)
        requires { self.old.busy ≡ true }
        ensures { self.new ≡ ended self.old }
    {
        self.end(self.next);
    }

    /// A NOTIFY came (RFC 1996 section 3.11): the zone is due at once, and again as soon as a job in flight ends.
    pub fn notified(&mut self)
        ensures { self.new ≡ notified self.old }
    {
        self.next = 0;
        self.again = self.busy || self.again;
    }

    /// The job in flight ends; the next is due at this moment, or at once where a NOTIFY came meanwhile.
    fn end(&mut self, moment: u64)
        requires { moment < 2 ^ 41 }
        ensures { self.new ≡ ended_at self.old moment }
    {
        self.next = if self.again { 0 } else { moment };
        self.again = false;
        self.busy = false;
    }
}

/// How many seconds to wait: 0 counts as 1.
fn wait(seconds: u32) -> u64
    ensures is { result ≡ wait seconds }
    ensures below { result < 2 ^ 32 }
{
    seconds.max(1) as u64
}

/// Whether a version that was refreshed at this moment still answers: until EXPIRE seconds have passed (RFC 1035
/// section 3.3.13).
pub fn is_live(refreshed: u64, expire: u32, moment: u64) -> bool
    requires { refreshed < 2 ^ 40 }
    ensures { result ≡ is_live refreshed expire moment }
{
    moment < refreshed + expire as u64
}
