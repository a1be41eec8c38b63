//! What opens devices at addresses.
ghost use Rattle.std.specs.Prelude.{◌≡◌, ◌<◌, IfOk, OnOk, OnErr};
ghost use Rattle.dz_io.specs.Counts.{Covers};
ghost use Rattle.dz_io.specs.Device.{HasCause};
ghost use Rattle.dz_io.specs.Ports.{opening, closing, place, exchange, accepts, dials, IsFreshExchange};
ghost use Rattle.dz_io.specs.Ports.{IsFreshAccepts, IsFreshDials};

use crate::{Acceptor, Datagrams, Dialer, Failed, Peer};

/// Where a device was opened, and for which worker.
#[derive(Clone, Copy, Debug, PartialEq, Eq)]
pub struct Place {
    /// The address and port that it listens on.
    pub listen: Peer,
    /// The number of the worker that it is for, 0 or 1.
    pub worker: u8,
}

/// What opens datagram devices, acceptors and dialers, and takes them back.
pub trait Ports {
    ghost use Rattle.std.specs.Prelude.{ℕ};
    ghost use Rattle.dz_io.specs.Ports.{Row, Exchange, Accepts, Dials};
    ghost use Rattle.dz_io.specs.declared.ports.Place.{Place};

    /// The datagram devices that it opens.
    type D: Datagrams + Send;

    /// The acceptors that it opens.
    type A: Acceptor + Send;

    /// The dialers that it makes.
    type L: Dialer + Send;

    /// What is reported of the datagram devices.
    ghost datagrams: { Self → Row Place Exchange };

    /// What is reported of the acceptors.
    ghost acceptors: { Self → Row Place Accepts };

    /// What is reported of the dialers, each of which was made for a worker.
    ghost dialers: { Self → Row ℕ Dials };

    /// How often an opening, or a datagram device or an acceptor that was given back, has failed. The count never
    /// falls, and at 2^64 - 1 it says nothing more.
    ghost faults: { Self → ℕ };

    /// Opens a datagram device, which has received and sent nothing. `Failed` where it can't.
    fn open_datagrams(&mut self, listen: &Peer, worker: u8) -> Result<Self::D, Failed>
        requires { worker < 2 }
        ensures ok { OnOk result (datagrams self.new
            ≡ opening (place listen.now worker) (datagrams self.old)) }
        ensures fresh { IfOk result (λ d. IsFreshExchange
            (exchange (Self.D.received d) (Self.D.sent d) (Self.D.is_closed d) (Self.D.faults d))) }
        ensures err { OnErr result (datagrams self.new ≡ datagrams self.old) }
        ensures acceptors { acceptors self.new ≡ acceptors self.old }
        ensures dialers { dialers self.new ≡ dialers self.old }
        ensures cause { HasCause (faults self.old) (faults self.new) result };

    /// Opens an acceptor, which has given no link. `Failed` where it can't.
    fn open_acceptor(&mut self, listen: &Peer, worker: u8) -> Result<Self::A, Failed>
        requires { worker < 2 }
        ensures ok { OnOk result (acceptors self.new
            ≡ opening (place listen.now worker) (acceptors self.old)) }
        ensures fresh { IfOk result (λ a. IsFreshAccepts
            (accepts (Self.A.links a) (Self.A.out a) (Self.A.is_closed a) (Self.A.faults a))) }
        ensures err { OnErr result (acceptors self.new ≡ acceptors self.old) }
        ensures datagrams { datagrams self.new ≡ datagrams self.old }
        ensures dialers { dialers self.new ≡ dialers self.old }
        ensures cause { HasCause (faults self.old) (faults self.new) result };

    /// Makes a dialer, which has made no link. `Failed` where it can't.
    fn dialer(&mut self, worker: u8) -> Result<Self::L, Failed>
        requires { worker < 2 }
        ensures ok { OnOk result (dialers self.new ≡ opening worker (dialers self.old)) }
        ensures fresh { IfOk result
            (λ l. IsFreshDials (dials (Self.L.links l) (Self.L.out l) (Self.L.faults l))) }
        ensures err { OnErr result (dialers self.new ≡ dialers self.old) }
        ensures datagrams { datagrams self.new ≡ datagrams self.old }
        ensures acceptors { acceptors self.new ≡ acceptors self.old }
        ensures cause { HasCause (faults self.old) (faults self.new) result };

    /// Takes back a datagram device. The count of faults covers that of the device: it rises where the device has
    /// failed.
    fn close_datagrams(&mut self, device: Self::D)
        requires { 0 < (datagrams self.old).out }
        ensures back { datagrams self.new
            ≡ closing (exchange (Self.D.received device) (Self.D.sent device)
            (Self.D.is_closed device) (Self.D.faults device)) (datagrams self.old) }
        ensures acceptors { acceptors self.new ≡ acceptors self.old }
        ensures dialers { dialers self.new ≡ dialers self.old }
        ensures covers { Covers (Self.D.faults device) (faults self.old) (faults self.new) };

    /// Takes back an acceptor. The count of faults covers that of the acceptor: it rises where the acceptor has failed.
    fn close_acceptor(&mut self, device: Self::A)
        requires { 0 < (acceptors self.old).out }
        ensures back { acceptors self.new
            ≡ closing (accepts (Self.A.links device) (Self.A.out device)
            (Self.A.is_closed device) (Self.A.faults device)) (acceptors self.old) }
        ensures datagrams { datagrams self.new ≡ datagrams self.old }
        ensures dialers { dialers self.new ≡ dialers self.old }
        ensures covers { Covers (Self.A.faults device) (faults self.old) (faults self.new) };

    /// Takes back a dialer. The count of faults doesn't cover that of the dialer.
    fn close_dialer(&mut self, device: Self::L)
        requires { 0 < (dialers self.old).out }
        ensures back { dialers self.new ≡ closing
            (dials (Self.L.links device) (Self.L.out device) (Self.L.faults device))
            (dialers self.old) }
        ensures datagrams { datagrams self.new ≡ datagrams self.old }
        ensures acceptors { acceptors self.new ≡ acceptors self.old }
        ensures faults { faults self.new ≡ faults self.old };
}
