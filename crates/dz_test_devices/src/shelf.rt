//! Devices of one kind that ports made.
ghost use Rattle.std.specs.Prelude.{◌≡◌, ◌+◌, ◌<◌, [], Some, None, true, false};
ghost use Rattle.dz_io.specs.Ports.{closing};

use std::alloc::Global;
use std::marker::Model;

/// How many devices are out, and those that came back.
#[derive(Drop)]
pub(crate) struct Shelf<D> {
    out: usize,
    back: Vec<D>,
}

impl<D> Model for Shelf<D> {
    ghost use Rattle.std.specs.Prelude.{◌+◌, ◌≤◌, ℕ, Some, None, vec_len, vec_capacity};
    ghost use Rattle.dz_io.specs.Ports.{Row};

    ghost Value = { Row ℕ D };

    ghost view = { λ s. record { opened = None; out = s.out; back = Some s.back.items } };

    ghost invariant = { λ s. vec_len s.back + s.out ≤ vec_capacity s.back };
}

impl<D: Drop> Shelf<D> {
    /// A shelf of which no device is out.
    pub(crate) fn new(alloc: Global) -> Shelf<D>
        ensures { result ≡ record { opened = None; out = 0; back = Some [] } }
    {
        Shelf {
            out: 0,
            back: Vec::new(alloc),
        }
    }

    /// Counts a further device as out, and reserves the room for its return; false where there is none.
    pub(crate) fn open(&mut self) -> bool
        ensures some { result ≡ true → self.new ≡ record self.old { out = self.old.out + 1 } }
        ensures none { result ≡ false → self.new ≡ self.old }
    {
        let Some(out) = self.out.checked_add(1) else {
            return false;
        };
        if self.back.reserve(out).is_err() {
            return false;
        }
        self.out = out;
        true
    }

    /// Takes back a device.
    pub(crate) fn close(&mut self, device: D)
        requires { 0 < self.old.out }
        ensures { self.new ≡ closing device self.old }
    {
        self.out -= 1;
        self.back.push_reserved(device);
    }

    /// Whether no device is out.
    pub(crate) fn is_whole(&self) -> bool {
        self.out == 0
    }

    /// The devices that came back.
    pub(crate) fn back(&self) -> &[D] {
        &self.back
    }
}
