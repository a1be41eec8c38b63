//! Ports in memory, with a list of the calls that fail.
ghost use Rattle.std.specs.Prelude.{◌≡◌, ◌<◌, is_err, IsErr, IsTrue, IfOk, OnErr};
ghost use Rattle.dz_io.specs.Counts.{Covers};
ghost use Rattle.dz_io.specs.Device.{HasCause};
ghost use Rattle.dz_io.specs.Memory.{is_to_fail, after_call, no_calls};
ghost use Rattle.dz_io.specs.MemoryDevices.{SetupOf, StreamOf, CallerOf, Opens, put_back, covering, fresh_shelf};
ghost use Rattle.dz_io.specs.MemoryDevices.{fresh_datagrams, fresh_acceptor, fresh_dialer};
ghost use Rattle.dz_io.specs.Packets.{Packet};
ghost use Rattle.dz_io.specs.Ports.{place};

use crate::plan::Plan;
use crate::shelf::Shelf;
use crate::{
    Caller, Datagram, Failed, MemoryAcceptor, MemoryDatagrams, MemoryDialer, Peer, Place, Ports,
    Setup, Stream,
};
use std::alloc::Global;
use std::marker::Model;

/// Ports that open the devices that they were made with, whatever the address, and keep those that come back.
#[derive(Drop)]
pub struct MemoryPorts {
    datagrams: Shelf<Place, Datagram, MemoryDatagrams>,
    acceptors: Shelf<Place, Caller, MemoryAcceptor>,
    dialers: Shelf<u8, Stream, MemoryDialer>,
    plan: Plan,
    alloc: Global,
}

impl Model for MemoryPorts {
    ghost use Rattle.dz_io.specs.MemoryDevices.{PortsOf};

    ghost Value = { PortsOf };

    ghost view = { λ p. record {
      datagrams = p.datagrams;
      acceptors = p.acceptors;
      dialers = p.dialers;
      calls = p.plan;
    } };
}

impl MemoryPorts {
    /// Ports that open these devices, in order. The openings with the numbers in `failing`, counted from 0 over all
    /// kinds, fail.
    pub fn new(
        alloc: Global,
        datagrams: Vec<Setup<Datagram>>,
        acceptors: Vec<Setup<Caller>>,
        dialers: Vec<Setup<Stream>>,
        failing: Vec<u64>,
    ) -> MemoryPorts
        ensures datagrams { result.datagrams ≡ fresh_shelf datagrams.items }
        ensures acceptors { result.acceptors ≡ fresh_shelf acceptors.items }
        ensures dialers { result.dialers ≡ fresh_shelf dialers.items }
        ensures calls { result.calls ≡ no_calls failing.items }
    {
        MemoryPorts {
            datagrams: Shelf::new(alloc, datagrams),
            acceptors: Shelf::new(alloc, acceptors),
            dialers: Shelf::new(alloc, dialers),
            plan: Plan::new(failing),
            alloc,
        }
    }

    /// The datagram devices that came back.
    pub fn datagrams(&self) -> &[MemoryDatagrams]
        ensures { result.now ≡ self.now.datagrams.back }
    {
        self.datagrams.back()
    }

    /// The acceptors that came back.
    pub fn acceptors(&self) -> &[MemoryAcceptor]
        ensures { result.now ≡ self.now.acceptors.back }
    {
        self.acceptors.back()
    }

    /// The dialers that came back.
    pub fn dialers(&self) -> &[MemoryDialer]
        ensures { result.now ≡ self.now.dialers.back }
    {
        self.dialers.back()
    }

    /// How many openings failed, together with the faults of the datagram devices and acceptors that came back.
    pub fn faults(&self) -> u64
        ensures { result ≡ self.now.calls.faults }
    {
        self.plan.faults()
    }
}

impl Ports for MemoryPorts {
    ghost use Rattle.dz_io.specs.MemoryDevices.{row_of, exchange_of, accepts_of, dials_of};

    type D = MemoryDatagrams;

    type A = MemoryAcceptor;

    type L = MemoryDialer;

    ghost datagrams = { λ p. row_of exchange_of p.datagrams };

    ghost acceptors = { λ p. row_of accepts_of p.acceptors };

    ghost dialers = { λ p. row_of dials_of p.dialers };

    ghost faults = { λ p. p.calls.faults };

    /// Fails where the call is to fail, where no device is left, or where memory runs out.
    fn open_datagrams(&mut self, listen: &Peer, worker: u8) -> Result<MemoryDatagrams, Failed>
        requires { worker < 2 }
        ensures planned { IsTrue (is_to_fail self.old.calls.count self.old.calls.failing)
            → IsErr result }
        ensures opened { IfOk result (λ device. (setup : SetupOf Packet)
            × Opens (place listen.now worker) setup self.old.datagrams self.new.datagrams
            × (device ≡ fresh_datagrams setup)) }
        ensures err { OnErr result (self.new.datagrams ≡ self.old.datagrams) }
        ensures acceptors { self.new.acceptors ≡ self.old.acceptors }
        ensures dialers { self.new.dialers ≡ self.old.dialers }
        ensures calls { self.new.calls ≡ after_call self.old.calls (is_err result) }
        ensures cause { HasCause self.old.calls.faults self.new.calls.faults result }
    {
        self.plan.next()?;
        let listen = *listen;
        match self.datagrams.open(Place { listen, worker }) {
            Some(setup) => Ok(MemoryDatagrams::new(self.alloc, setup)),
            None => Err(self.plan.fail()),
        }
    }

    /// Fails where the call is to fail, where no acceptor is left, or where memory runs out.
    fn open_acceptor(&mut self, listen: &Peer, worker: u8) -> Result<MemoryAcceptor, Failed>
        requires { worker < 2 }
        ensures planned { IsTrue (is_to_fail self.old.calls.count self.old.calls.failing)
            → IsErr result }
        ensures opened { IfOk result (λ device. (setup : SetupOf CallerOf)
            × Opens (place listen.now worker) setup self.old.acceptors self.new.acceptors
            × (device ≡ fresh_acceptor setup)) }
        ensures err { OnErr result (self.new.acceptors ≡ self.old.acceptors) }
        ensures datagrams { self.new.datagrams ≡ self.old.datagrams }
        ensures dialers { self.new.dialers ≡ self.old.dialers }
        ensures calls { self.new.calls ≡ after_call self.old.calls (is_err result) }
        ensures cause { HasCause self.old.calls.faults self.new.calls.faults result }
    {
        self.plan.next()?;
        let listen = *listen;
        match self.acceptors.open(Place { listen, worker }) {
            Some(setup) => Ok(MemoryAcceptor::new(self.alloc, setup)),
            None => Err(self.plan.fail()),
        }
    }

    /// Fails where the call is to fail, where no dialer is left, or where memory runs out.
    fn dialer(&mut self, worker: u8) -> Result<MemoryDialer, Failed>
        requires { worker < 2 }
        ensures planned { IsTrue (is_to_fail self.old.calls.count self.old.calls.failing)
            → IsErr result }
        ensures opened { IfOk result (λ device. (setup : SetupOf StreamOf)
            × Opens worker setup self.old.dialers self.new.dialers
            × (device ≡ fresh_dialer setup)) }
        ensures err { OnErr result (self.new.dialers ≡ self.old.dialers) }
        ensures datagrams { self.new.datagrams ≡ self.old.datagrams }
        ensures acceptors { self.new.acceptors ≡ self.old.acceptors }
        ensures calls { self.new.calls ≡ after_call self.old.calls (is_err result) }
        ensures cause { HasCause self.old.calls.faults self.new.calls.faults result }
    {
        self.plan.next()?;
        match self.dialers.open(worker) {
            Some(setup) => Ok(MemoryDialer::new(self.alloc, setup)),
            None => Err(self.plan.fail()),
        }
    }

    /// Keeps the datagram device that comes back, and adds its faults.
    fn close_datagrams(&mut self, device: MemoryDatagrams)
        requires { 0 < self.old.datagrams.out }
        ensures back { self.new.datagrams ≡ put_back device self.old.datagrams }
        ensures acceptors { self.new.acceptors ≡ self.old.acceptors }
        ensures dialers { self.new.dialers ≡ self.old.dialers }
        ensures calls { self.new.calls ≡ covering device.calls.faults self.old.calls }
        ensures covers { Covers device.calls.faults self.old.calls.faults self.new.calls.faults }
    {
        self.plan.cover(device.faults());
        self.datagrams.close(device);
    }

    /// Keeps the acceptor that comes back, and adds its faults.
    fn close_acceptor(&mut self, device: MemoryAcceptor)
        requires { 0 < self.old.acceptors.out }
        ensures back { self.new.acceptors ≡ put_back device self.old.acceptors }
        ensures datagrams { self.new.datagrams ≡ self.old.datagrams }
        ensures dialers { self.new.dialers ≡ self.old.dialers }
        ensures calls { self.new.calls ≡ covering device.calls.faults self.old.calls }
        ensures covers { Covers device.calls.faults self.old.calls.faults self.new.calls.faults }
    {
        self.plan.cover(device.faults());
        self.acceptors.close(device);
    }

    /// Keeps the dialer that comes back.
    fn close_dialer(&mut self, device: MemoryDialer)
        requires { 0 < self.old.dialers.out }
        ensures same { self.new ≡ record self.old { dialers = put_back device self.old.dialers } }
    {
        self.dialers.close(device);
    }
}
