//! Which calls of a device in memory fail.
ghost use Rattle.std.specs.Prelude.{◌≡◌, ◌≤◌, is_err};
ghost use Rattle.dz_io.specs.Counts.{Covers, HasRisen};
ghost use Rattle.dz_io.specs.Device.{HasCause};
ghost use Rattle.dz_io.specs.Memory.{is_to_fail, one_more, after_call, no_calls};
ghost use Rattle.dz_io.specs.MemoryDevices.{covering};

use crate::Failed;
use std::marker::Model;

/// The calls of a device: how many there were, which are to fail, and how many failed.
#[derive(Drop)]
pub(crate) struct Plan {
    count: u64,
    failing: Vec<u64>,
    faults: u64,
}

impl Model for Plan {
    ghost use Rattle.dz_io.specs.Memory.{CallsOf};

    ghost Value = { CallsOf };

    ghost view = { λ p. record { count = p.count; failing = p.failing.items; faults = p.faults } };
}

impl Plan {
    /// A plan before the first call, with the numbers of the calls that are to fail.
    pub(crate) fn new(failing: Vec<u64>) -> Plan
        ensures { result ≡ no_calls failing.items }
    {
        Plan {
            count: 0,
            failing,
            faults: 0,
        }
    }

    /// Counts one call, and fails where that call is to fail.
    pub(crate) fn next(&mut self) -> Result<(), Failed>
        ensures planned { is_err result ≡ is_to_fail self.old.count self.old.failing }
        ensures calls { self.new ≡ after_call self.old (is_err result) }
        ensures cause { HasCause self.old.faults self.new.faults result }
    {
        let call = self.count;
        self.count = call.saturating_add(1);
        if call == u64::MAX || self.failing.contains(&call) {
            return Err(self.fail());
        }
        Ok(())
    }

    /// Counts a fault.
    pub(crate) fn fail(&mut self) -> Failed
        ensures calls { self.new ≡ record self.old { faults = one_more self.old.faults } }
        ensures later { self.old.faults ≤ self.new.faults }
        ensures rises { HasRisen self.old.faults self.new.faults }
    {
        self.faults = self.faults.saturating_add(1);
        Failed
    }

    /// How many calls failed.
    pub(crate) fn faults(&self) -> u64
        ensures { result ≡ self.now.faults }
    {
        self.faults
    }

    /// Adds the faults of a device that came back.
    pub(crate) fn cover(&mut self, brought: u64)
        ensures calls { self.new ≡ covering brought self.old }
        ensures covers { Covers brought self.old.faults self.new.faults }
    {
        self.faults = self.faults.saturating_add(brought);
    }
}
