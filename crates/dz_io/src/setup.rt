//! The input of devices in memory.

use crate::{MemoryLink, Peer};
use std::alloc::Global;
use std::marker::Model;

/// The input of a device in memory, and the numbers of its calls that are to fail, counted from 0.
#[derive(Drop)]
pub struct Setup<T> {
    pub(crate) coming: Vec<T>,
    pub(crate) failing: Vec<u64>,
}

impl<T> Model for Setup<T> {
    ghost use Rattle.dz_io.specs.MemoryDevices.{SetupOf};

    ghost Value = { SetupOf T };

    ghost view = { λ s. record { coming = s.coming.items; failing = s.failing.items } };
}

impl<T> Setup<T> {
    /// The input, in order, and the numbers of the calls that are to fail.
    pub fn new(coming: Vec<T>, failing: Vec<u64>) -> Setup<T>
        ensures { result ≡ record { coming = coming.items; failing = failing.items } }
    {
        Setup { coming, failing }
    }
}

/// The octets that a link in memory gives, and the numbers of its calls that are to fail, reads and writes counted
/// together from 0.
#[derive(Drop)]
pub struct Stream {
    octets: Vec<u8>,
    failing: Vec<u64>,
}

impl Model for Stream {
    ghost use Rattle.dz_io.specs.MemoryDevices.{StreamOf};

    ghost Value = { StreamOf };

    ghost view = { λ s. record { octets = s.octets.items; failing = s.failing.items } };
}

ghost use Rattle.std.specs.Prelude.{◌≡◌};
ghost use Rattle.dz_io.specs.MemoryDevices.{fresh_link};

impl Stream {
    /// The octets, and the numbers of the calls that are to fail.
    pub fn new(octets: Vec<u8>, failing: Vec<u64>) -> Stream
        ensures { result ≡ record { octets = octets.items; failing = failing.items } }
    {
        Stream { octets, failing }
    }

    /// The link that gives these octets.
    pub(crate) fn open(self, alloc: Global) -> MemoryLink
        ensures { result ≡ fresh_link self }
    {
        let Stream { octets, failing } = self;
        MemoryLink::new(alloc, octets, failing)
    }
}

/// A peer that connects, and what its link gives.
#[derive(Drop)]
pub struct Caller {
    peer: Peer,
    stream: Stream,
}

impl Model for Caller {
    ghost use Rattle.dz_io.specs.MemoryDevices.{CallerOf};

    ghost Value = { CallerOf };

    ghost view = { λ c. record { peer = c.peer; stream = c.stream } };
}

impl Caller {
    /// The peer, and what its link gives.
    pub fn new(peer: Peer, stream: Stream) -> Caller
        ensures { result ≡ record { peer = peer; stream = stream } }
    {
        Caller { peer, stream }
    }

    /// The peer and its link.
    pub(crate) fn open(self, alloc: Global) -> (MemoryLink, Peer)
        ensures link { result.0 ≡ fresh_link self.stream }
        ensures peer { result.1 ≡ self.peer }
    {
        let Caller { peer, stream } = self;
        (stream.open(alloc), peer)
    }
}
