//! What datagrams are received from and sent to.
ghost use Rattle.std.specs.Prelude.{◌≡◌, ◌≤◌, Bool, List, [], ◌∷◌, Option, length, IfOk, OnOk, OnErr};
ghost use Rattle.dz_io.specs.Device.{Gains, HasCause};
ghost use Rattle.dz_io.specs.Packets.{packet, Receives, Closes};

use crate::{Failed, Peer};

/// What a datagram device received.
#[derive(Clone, Copy, Debug, PartialEq, Eq)]
pub enum Received {
    /// A packet of this many octets, at the beginning of the buffer, and the peer that it came from.
    Packet { length: usize, peer: Peer },
    /// Nothing more will come.
    Closed,
}

/// What packets are received from and sent to.
pub trait Datagrams {
    ghost use Rattle.std.specs.Prelude.{ℕ};
    ghost use Rattle.dz_io.specs.Packets.{Packet};

    /// The packets that it received, in order, where the device reports them.
    ghost received: { Self → Option (List Packet) };

    /// The packets that were sent, in order, where the device reports them.
    ghost sent: { Self → Option (List Packet) };

    /// Whether it has returned `Closed`.
    ghost is_closed: { Self → Bool };

    /// How often the device has failed. The count never falls, and at 2^64 - 1 it says nothing more.
    ghost faults: { Self → ℕ };

    /// Moves the next packet to the beginning of `buffer`, which has room for 65,535 octets. `Failed` where the device
    /// failed.
    fn receive(&mut self, buffer: &mut [u8]) -> Result<Received, Failed>
        requires { 65535 ≤ length buffer.old }
        ensures came { IfOk result
            (λ r. Receives r buffer.new (received self.old) (received self.new)) }
        ensures closed { IfOk result (λ r. Closes r (is_closed self.old) (is_closed self.new)) }
        ensures err { OnErr result
            ((received self.new ≡ received self.old) × (is_closed self.new ≡ is_closed self.old)) }
        ensures sent { sent self.new ≡ sent self.old }
        ensures cause { HasCause (faults self.old) (faults self.new) result };

    /// Sends these octets to a peer as one packet. A call that returns `Failed` sends nothing.
    fn send(&mut self, peer: &Peer, piece: &[u8]) -> Result<(), Failed>
        ensures went { OnOk result
            (Gains (packet piece.now peer.now ∷ []) (sent self.old) (sent self.new)) }
        ensures err { OnErr result (sent self.new ≡ sent self.old) }
        ensures received { received self.new ≡ received self.old }
        ensures closed { is_closed self.new ≡ is_closed self.old }
        ensures cause { HasCause (faults self.old) (faults self.new) result };
}
