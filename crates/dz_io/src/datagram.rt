//! Packets in memory.
ghost use Rattle.std.specs.Prelude.{◌≡◌, ◌<◌, ◌≤◌, length, take, IfOk, IsErr};
ghost use Rattle.dz_io.specs.Packets.{packet};

use crate::{Failed, Peer};
use std::alloc::Global;
use std::marker::Model;

/// The greatest number of octets in a packet.
pub const PACKET_OCTETS: usize = 65_535;

/// The octets of a datagram, at most 65,535, and the peer that it came from or went to.
#[derive(Drop)]
pub struct Datagram {
    octets: Vec<u8>,
    peer: Peer,
}

impl Model for Datagram {
    ghost use Rattle.std.specs.Prelude.{◌≤◌, length};
    ghost use Rattle.dz_io.specs.Packets.{Packet, packet};

    ghost Value = { Packet };

    ghost view = { λ d. packet d.octets.items d.peer };

    ghost invariant = { λ d. length d.octets.items ≤ 65535 };
}

impl Datagram {
    /// A packet of these octets, without those past the 65,535th.
    pub fn new(octets: Vec<u8>, peer: Peer) -> Datagram
        ensures { result ≡ packet (take PACKET_OCTETS octets.items) peer }
    {
        let mut octets = octets;
        octets.truncate(PACKET_OCTETS);
        Datagram { octets, peer }
    }

    /// A packet with a copy of these octets. `Failed` where there are more than 65,535 or memory runs out.
    pub(crate) fn copy(alloc: Global, piece: &[u8], peer: Peer) -> Result<Datagram, Failed>
        ensures ok { IfOk result (λ d. d ≡ packet piece.now peer) }
        ensures long { PACKET_OCTETS < length piece.now → IsErr result }
    {
        if piece.len() > PACKET_OCTETS {
            return Err(Failed);
        }
        match piece.to_vec(alloc) {
            Ok(octets) => Ok(Datagram { octets, peer }),
            Err(_) => Err(Failed),
        }
    }

    /// The octets, at most 65,535.
    pub fn octets(&self) -> &[u8]
        ensures octets { result.now ≡ self.now.octets }
        ensures fits { length result.now ≤ 65535 }
    {
        &self.octets
    }

    /// The peer that it came from or went to.
    pub fn peer(&self) -> Peer
        ensures { result ≡ self.now.peer }
    {
        self.peer
    }
}
