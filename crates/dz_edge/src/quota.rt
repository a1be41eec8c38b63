//! How many NOTIFYs are delivered in a second.
ghost use Rattle.std.specs.Prelude.{◌≡◌, ◌<◌, ◌≤◌, ◌+◌, ◌-◌, ◌^◌, min};

/// How many milliseconds a second has.
pub(crate) const SECOND_MILLIS: u64 = 1000;

/// How many NOTIFYs of a source were delivered in a second, which begins with the first of them.
#[derive(Clone, Copy)]
pub(crate) struct Quota {
    /// The first millisecond after that second.
    end: u64,
    count: u64,
}

impl Quota {
    /// None was delivered.
    pub fn new() -> Quota
        ensures { result.end ≡ 0 }
    {
        Quota { end: 0, count: 0 }
    }

    /// The first moment at which one more may be delivered, where `most` may be in a second: any while fewer were
    /// delivered, and the end of the second otherwise.
    pub fn opens(self, most: u64) -> u64
        ensures few { self.count < most → result ≡ 0 }
        ensures full { most ≤ self.count → result ≡ self.end }
    {
        if self.count < most { 0 } else { self.end }
    }

    /// Counts one that is delivered at this moment. It begins a second, unless it is in the one before.
    pub fn count(&mut self, now: u64)
        ensures begins { self.old.end ≤ now
            → self.new ≡ record { end = min (now + 1000) (2 ^ 64 - 1); count = 1 } }
        ensures runs { now < self.old.end → self.new
            ≡ record { end = self.old.end; count = min (self.old.count + 1) (2 ^ 64 - 1) } }
    {
        if now < self.end {
            self.count = self.count.saturating_add(1);
        } else {
            self.end = now.saturating_add(SECOND_MILLIS);
            self.count = 1;
        }
    }
}
