//! A clock in memory.
ghost use Rattle.std.specs.Prelude.{◌≡◌, ◌==◌, ◌<◌, ◌-◌, ◌^◌, [], Some, true, IfOk, if◌then◌else◌};
ghost use Rattle.std.specs.List.{AllByRecursion};
ghost use Rattle.dz_io.specs.Clocks.{GivesMoment};
ghost use Rattle.dz_io.specs.Memory.{one_more};
ghost use Rattle.dz_io.specs.MemoryDevices.{moment_at, moments_given, has_moment};

use crate::{Clock, Rest};
use std::alloc::{AllocError, Global};
use std::marker::Model;

/// A clock that gives the moments of a list, and then a last one again and again, and that stops the worker after the
/// given number of rests. It reports the moments until its counter of calls is at its maximum.
#[derive(Drop)]
pub struct MemoryClock {
    moments: Vec<u64>,
    last: u64,
    count: u64,
    rests: u64,
}

impl Model for MemoryClock {
    ghost use Rattle.std.specs.Prelude.{◌<◌, ◌^◌};
    ghost use Rattle.std.specs.List.{AllByRecursion};
    ghost use Rattle.dz_io.specs.MemoryDevices.{ClockOf};

    ghost Value = { ClockOf };

    ghost view = { λ c. record {
      moments = c.moments.items;
      last = c.last;
      count = c.count;
      rests = c.rests;
    } };

    ghost invariant = { λ c. AllByRecursion (λ moment. moment < 2 ^ 40) c.moments.items
        × (c.last < 2 ^ 40) };
}

impl MemoryClock {
    /// A clock with these moments, in seconds below 2^40, of which `last` repeats; it allows this number of rests.
    pub fn new(moments: Vec<u64>, last: u64, rests: u64) -> MemoryClock
        requires moments { AllByRecursion (λ moment. moment < 2 ^ 40) moments.items }
        requires last { last < 2 ^ 40 }
        ensures { result ≡ record {
          moments = moments.items;
          last = last;
          count = 0;
          rests = rests;
        } }
    {
        MemoryClock {
            moments,
            last,
            count: 0,
            rests,
        }
    }

    /// The next moment, in seconds.
    fn next(&mut self) -> u64
        ensures moment { result ≡ moment_at self.old self.old.count }
        ensures count { self.new ≡ record self.old { count = one_more self.old.count } }
        ensures below { result < 2 ^ 40 }
        ensures may { has_moment self.old result ≡ true }
    {
        let moment = match self.moments.get(self.count as usize) {
            Some(moment) => *moment,
            None => self.last,
        };
        self.count = self.count.saturating_add(1);
        moment
    }
}

impl Clock for MemoryClock {
    ghost use Rattle.std.specs.Prelude.{true};
    ghost use Rattle.dz_io.specs.MemoryDevices.{moments_given, has_moment};

    ghost may_give = { has_moment };

    ghost may_stop = { λ _. true };

    ghost given = { moments_given };

    /// A clock with the same moments that has given none, with the remaining rests. `AllocError` where memory runs out.
    fn twin(&self, alloc: Global) -> Result<MemoryClock, AllocError>
        ensures { IfOk result (λ c. c ≡ record self.now { count = 0 }) }
    {
        Ok(MemoryClock {
            moments: self.moments.to_vec(alloc)?,
            last: self.last,
            count: 0,
            rests: self.rests,
        })
    }

    /// The next moment, in seconds.
    fn now(&mut self) -> u64
        ensures moment { result ≡ moment_at self.old self.old.count }
        ensures count { self.new ≡ record self.old { count = one_more self.old.count } }
        ensures below { result < 2 ^ 40 }
        ensures may { has_moment self.old result ≡ true }
        ensures given { GivesMoment result (moments_given self.old) (moments_given self.new) }
    {
        self.next()
    }

    /// Returns `Stop` exactly where no rest is left.
    fn rest(&mut self, _idle: bool) -> Rest
        ensures rest { result ≡ (if self.old.rests == 0 then Rest.Stop else Rest.Go) }
        ensures rests { self.new ≡ record self.old { rests = self.old.rests - 1 } }
    {
        if self.rests == 0 {
            return Rest::Stop;
        }
        self.rests -= 1;
        Rest::Go
    }
}
