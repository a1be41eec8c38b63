//! What tells the time.
ghost use Rattle.std.specs.Prelude.{◌≡◌, ◌<◌, ◌^◌, Bool, true, List, [], Option, IfOk};
ghost use Rattle.dz_io.specs.Device.{Tells};
ghost use Rattle.dz_io.specs.Clocks.{GivesMoment};

use std::alloc::{AllocError, Global};

/// Whether a worker goes on.
#[derive(Clone, Copy, Debug, PartialEq, Eq)]
pub enum Rest {
    Go,
    Stop,
}

/// What gives moments, in seconds, and rests between two of them.
pub trait Clock: Sized {
    ghost use Rattle.std.specs.Prelude.{ℕ};

    /// Which moments it may give. No call changes that.
    ghost may_give: { Self → ℕ → Bool };

    /// Whether it may return `Stop`. No call changes that.
    ghost may_stop: { Self → Bool };

    /// The moments that it has given, in order, where the clock reports them. It may stop reporting them.
    ghost given: { Self → Option (List ℕ) };

    /// A clock for another worker, which may give the same moments and has given none.
    ///
    /// # Errors
    ///
    /// `AllocError` where memory runs out.
    fn twin(&self, alloc: Global) -> Result<Self, AllocError>
        ensures give { IfOk result (λ c. may_give c ≡ may_give self.now) }
        ensures stop { IfOk result (λ c. may_stop c ≡ may_stop self.now) }
        ensures none { IfOk result (λ c. Tells [] (given c)) };

    /// The moment in seconds, below 2^40. Moments may repeat or go back.
    fn now(&mut self) -> u64
        ensures below { result < 2 ^ 40 }
        ensures may { may_give self.old result ≡ true }
        ensures given { GivesMoment result (given self.old) (given self.new) }
        ensures give { may_give self.new ≡ may_give self.old }
        ensures stop { may_stop self.new ≡ may_stop self.old };

    /// Rests, longer where the worker is idle, and returns whether it goes on.
    fn rest(&mut self, idle: bool) -> Rest
        ensures may { result ≡ Rest.Stop → may_stop self.old ≡ true }
        ensures given { given self.new ≡ given self.old }
        ensures give { may_give self.new ≡ may_give self.old }
        ensures stop { may_stop self.new ≡ may_stop self.old };
}
