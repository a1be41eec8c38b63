//! A datagram device in memory, with a list of the calls that fail.
ghost use Rattle.std.specs.Prelude.{◌≡◌, ◌≤◌, ◌<◌, ◌++◌, [], ◌∷◌, Some, length, take, is_err, IsErr, IsTrue, IfOk};
ghost use Rattle.std.specs.Prelude.{OnOk, OnErr};
ghost use Rattle.dz_io.specs.Device.{Gains, HasCause};
ghost use Rattle.dz_io.specs.Memory.{is_to_fail, after_call};
ghost use Rattle.dz_io.specs.MemoryDevices.{fresh_datagrams};
ghost use Rattle.dz_io.specs.Packets.{packet, Receives, Closes};

use crate::plan::Plan;
use crate::{Datagram, Datagrams, Failed, Peer, Received, Setup};
use std::alloc::Global;
use std::marker::Model;

/// A datagram device that receives the packets that it was made with, and keeps what is sent. After its last packet it
/// is closed.
#[derive(Drop)]
pub struct MemoryDatagrams {
    packets: Vec<Datagram>,
    at: usize,
    sent: Vec<Datagram>,
    is_closed: bool,
    plan: Plan,
    alloc: Global,
}

impl Model for MemoryDatagrams {
    ghost use Rattle.std.specs.Prelude.{◌≤◌, length, take, drop};
    ghost use Rattle.dz_io.specs.MemoryDevices.{DatagramsOf};

    ghost Value = { DatagramsOf };

    ghost view = { λ d. record {
      received = take d.at d.packets.items;
      coming = drop d.at d.packets.items;
      sent = d.sent.items;
      is_closed = d.is_closed;
      calls = d.plan;
    } };

    ghost invariant = { λ d. d.at ≤ length d.packets.items };
}

impl MemoryDatagrams {
    /// A device that receives these packets.
    pub fn new(alloc: Global, setup: Setup<Datagram>) -> MemoryDatagrams
        ensures { result ≡ fresh_datagrams setup }
    {
        let Setup { coming, failing } = setup;
        MemoryDatagrams {
            packets: coming,
            at: 0,
            sent: Vec::new(alloc),
            is_closed: false,
            plan: Plan::new(failing),
            alloc,
        }
    }

    /// The packets that were sent.
    pub fn sent(&self) -> &[Datagram]
        ensures { result.now ≡ self.now.sent }
    {
        &self.sent
    }

    /// How many calls failed.
    pub fn faults(&self) -> u64
        ensures { result ≡ self.now.calls.faults }
    {
        self.plan.faults()
    }
}

impl Datagrams for MemoryDatagrams {
    ghost received = { λ d. Some d.received };

    ghost sent = { λ d. Some d.sent };

    ghost is_closed = { λ d. d.is_closed };

    ghost faults = { λ d. d.calls.faults };

    /// Fails exactly where the call is to fail, and is closed exactly where there is no further packet.
    fn receive(&mut self, buffer: &mut [u8]) -> Result<Received, Failed>
        requires { 65535 ≤ length buffer.old }
        ensures planned { is_err result ≡ is_to_fail self.old.calls.count self.old.calls.failing }
        ensures came { IfOk result
            (λ r. Receives r buffer.new (Some self.old.received) (Some self.new.received)) }
        ensures closed { IfOk result (λ r. Closes r self.old.is_closed self.new.is_closed) }
        ensures last { IfOk result (λ r. r ≡ Received.Closed → self.old.coming ≡ []) }
        ensures packets { self.new.received ++ self.new.coming
            ≡ self.old.received ++ self.old.coming }
        ensures err { OnErr result
            ((self.new.received ≡ self.old.received) × (self.new.is_closed ≡ self.old.is_closed)) }
        ensures sent { self.new.sent ≡ self.old.sent }
        ensures calls { self.new.calls ≡ after_call self.old.calls (is_err result) }
        ensures cause { HasCause self.old.calls.faults self.new.calls.faults result }
    {
        self.plan.next()?;
        let Some(packet) = self.packets.get(self.at) else {
            self.is_closed = true;
            return Ok(Received::Closed);
        };
        let octets = packet.octets();
        let length = octets.len();
        buffer[..length].copy_from_slice(octets);
        let peer = packet.peer();
        self.at += 1;
        Ok(Received::Packet { length, peer })
    }

    /// Fails where the call is to fail, where the piece has over 65,535 octets, or where memory runs out.
    fn send(&mut self, peer: &Peer, piece: &[u8]) -> Result<(), Failed>
        ensures planned { IsTrue (is_to_fail self.old.calls.count self.old.calls.failing)
            → IsErr result }
        ensures long { 65535 < length piece.now → IsErr result }
        ensures went { OnOk result
            (Gains (packet piece.now peer.now ∷ []) (Some self.old.sent) (Some self.new.sent)) }
        ensures err { OnErr result (self.new.sent ≡ self.old.sent) }
        ensures received { self.new.received ≡ self.old.received }
        ensures coming { self.new.coming ≡ self.old.coming }
        ensures closed { self.new.is_closed ≡ self.old.is_closed }
        ensures calls { self.new.calls ≡ after_call self.old.calls (is_err result) }
        ensures cause { HasCause self.old.calls.faults self.new.calls.faults result }
    {
        self.plan.next()?;
        match keep(self.alloc, &mut self.sent, peer, piece) {
            Ok(()) => Ok(()),
            Err(Failed) => Err(self.plan.fail()),
        }
    }
}

/// Appends a packet with a copy of these octets. `Failed` where there are more than 65,535 or memory runs out.
fn keep(alloc: Global, sent: &mut Vec<Datagram>, peer: &Peer, piece: &[u8]) -> Result<(), Failed>
    ensures ok { OnOk result (sent.new.items ≡ sent.old.items ++ packet piece.now peer.now ∷ []) }
    ensures err { OnErr result (sent.new.items ≡ sent.old.items) }
    ensures long { 65535 < length piece.now → IsErr result }
{
    let packet = Datagram::copy(alloc, piece, *peer)?;
    match sent.push(packet) {
        Ok(()) => Ok(()),
        Err(_) => Err(Failed),
    }
}
