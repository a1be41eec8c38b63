//! What one zone waits for.

ghost use Rattle.std.specs.Prelude.{◌≡◌, ◌<◌, ◌≤◌, ◌^◌, true, false};
ghost use Rattle.dz_timer.specs.Values.{fresh, departed, succeeded, failed, refused, notified, turned_back, next_turn};

use crate::timer::Timer;
use std::marker::Model;
use std::mem::size_of;

/// When the next job of a zone is due, whether it asks for the whole zone, and which of the zone's primaries it asks.
/// Moments are in seconds: those given are below 2^40, and that of the next job is below 2^41.
#[derive(Clone, Copy, Debug)]
pub struct Values {
    timer: Timer,
    whole: bool,
    turn: u8,
}

const _: () = prove!(size_of::<Values>() <= 24);

impl Model for Values {
    ghost use Rattle.dz_timer.specs.Values.{ValuesOf};

    ghost Value = { ValuesOf };

    ghost view = { λ v. record { timing = v.timer; whole = v.whole; turn = v.turn } };

    ghost inverse = { λ v. record { timer = v.timing; whole = v.whole; turn = v.turn } };
}

impl Values {
    /// The values of a new zone: it is due at once, and its first primary is asked.
    pub fn fresh() -> Values
        ensures { result ≡ fresh }
    {
        Values {
            timer: Timer::fresh(),
            whole: false,
            turn: 0,
        }
    }

    /// The timer of the zone: when the next job is due.
    pub fn timer(&self) -> Timer
        ensures { result ≡ self.now.timing }
    {
        self.timer
    }

    /// Whether the next job asks for the whole zone rather than for differences (RFC 1995 section 4).
    pub fn is_whole(&self) -> bool
        ensures { result ≡ self.now.whole }
    {
        self.whole
    }

    /// The number, from 0, of the primary that is asked next.
    pub fn turn(&self) -> u8
        ensures { result ≡ self.now.turn }
    {
        self.turn
    }

    /// Whether a job is in flight.
    pub fn is_busy(&self) -> bool
        ensures { result ≡ self.now.timing.busy }
    {
        self.timer.is_busy()
    }

    /// The moment, in seconds, from which the next job is due.
    pub fn next(&self) -> u64
        ensures value { result ≡ self.now.timing.next }
        ensures below { result < 2 ^ 41 }
    {
        self.timer.next()
    }

    /// A job starts.
    pub fn departed(&self) -> Values
        requires { self.now.timing.busy ≡ false }
        ensures { result ≡ departed self.now }
    {
        let mut values = *self;
        values.timer.depart();
        values
    }

    /// The job of this moment obtained or confirmed a version, whose SOA has this REFRESH in seconds (RFC 1035 section
    /// 3.3.13).
    pub fn succeeded(&self, moment: u64, refresh: u32) -> Values
        requires busy { self.now.timing.busy ≡ true }
        requires moment { moment < 2 ^ 40 }
        ensures { result ≡ succeeded self.now moment refresh }
    {
        let mut values = *self;
        values.timer.succeeded(moment, refresh);
        values.whole = false;
        values
    }

    /// The job failed at this moment, and the next one asks the primary after this one, of the given number. The SOA of
    /// the held version has this RETRY in seconds (RFC 1035 section 3.3.13); it is none where no version is held.
    pub fn failed(&self, now: u64, retry: Option<u32>, primaries: u8) -> Values
        requires busy { self.now.timing.busy ≡ true }
        requires moment { now < 2 ^ 40 }
        requires primaries { 1 ≤ primaries }
        ensures { result ≡ failed self.now now retry primaries }
    {
        let mut values = *self;
        values.timer.failed(now, retry);
        values.turn = next_turn(self.turn, primaries);
        values
    }

    /// The job brought something that isn't accepted: it failed, and the next one asks for the whole zone (RFC 1995
    /// section 4).
    pub fn refused(&self, now: u64, retry: Option<u32>, primaries: u8) -> Values
        requires busy { self.now.timing.busy ≡ true }
        requires moment { now < 2 ^ 40 }
        requires primaries { 1 ≤ primaries }
        ensures { result ≡ refused self.now now retry primaries }
    {
        let mut values = self.failed(now, retry, primaries);
        values.whole = true;
        values
    }

    /// A NOTIFY came (RFC 1996 section 3.11).
    pub fn notified(&self) -> Values
        ensures { result ≡ notified self.now }
    {
        let mut values = *self;
        values.timer.notified();
        values
    }

    /// The zone has other primaries, of which the first is asked next.
    pub fn turned_back(&self) -> Values
        ensures { result ≡ turned_back self.now }
    {
        let mut values = *self;
        values.turn = 0;
        values
    }
}

/// The number of the primary after this one, in rotation.
fn next_turn(turn: u8, primaries: u8) -> u8
    requires { 1 ≤ primaries }
    ensures { result ≡ next_turn turn primaries }
{
    ((turn as u16 + 1) % primaries as u16) as u8
}
