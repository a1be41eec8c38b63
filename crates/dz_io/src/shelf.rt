//! The devices of one kind that ports in memory open.
ghost use Rattle.std.specs.Prelude.{◌≡◌, ◌<◌, IfSome, IfNone};
ghost use Rattle.dz_io.specs.MemoryDevices.{Opens, fresh_shelf, put_back};

use crate::Setup;
use std::alloc::Global;
use std::collections::VecDeque;
use std::marker::Model;

/// The inputs of the next devices, where devices were opened, how many are out, and those that came back.
#[derive(Drop)]
pub(crate) struct Shelf<P, S, D> {
    ready: VecDeque<Setup<S>>,
    opened: Vec<P>,
    out: usize,
    back: Vec<D>,
}

impl<P, S, D> Model for Shelf<P, S, D> {
    ghost use Rattle.std.specs.Prelude.{◌+◌, ◌≤◌, vec_len, vec_capacity};
    ghost use Rattle.dz_io.specs.MemoryDevices.{ShelfOf};

    ghost Value = { ShelfOf P S D };

    ghost view = { λ s. record {
      ready = s.ready.items;
      opened = s.opened.items;
      out = s.out;
      back = s.back.items;
    } };

    ghost invariant = { λ s. vec_len s.back + s.out ≤ vec_capacity s.back };
}

impl<P: Drop, S: Drop, D: Drop> Shelf<P, S, D> {
    /// A shelf of which nothing was opened yet.
    pub(crate) fn new(alloc: Global, ready: Vec<Setup<S>>) -> Shelf<P, S, D>
        ensures { result ≡ fresh_shelf ready.items }
    {
        Shelf {
            ready: VecDeque::from_vec(ready),
            opened: Vec::new(alloc),
            out: 0,
            back: Vec::new(alloc),
        }
    }

    /// The input of the next device, for whose return it reserves the room. None where no input is left, or where
    /// memory runs out.
    pub(crate) fn open(&mut self, place: P) -> Option<Setup<S>>
        ensures some { IfSome result (λ setup. Opens place setup self.old self.new) }
        ensures none { IfNone result (self.new ≡ self.old) }
    {
        let out = self.out.checked_add(1)?;
        if self.back.reserve(out).is_err() || self.opened.reserve(1).is_err() {
            return None;
        }
        let setup = self.ready.pop_front()?;
        self.opened.push_reserved(place);
        self.out = out;
        Some(setup)
    }

    /// Takes back a device.
    pub(crate) fn close(&mut self, device: D)
        requires { 0 < self.old.out }
        ensures { self.new ≡ put_back device self.old }
    {
        self.out -= 1;
        self.back.push_reserved(device);
    }

    /// The devices that came back.
    pub(crate) fn back(&self) -> &[D]
        ensures { result.now ≡ self.now.back }
    {
        &self.back
    }
}
