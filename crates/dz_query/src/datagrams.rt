//! A session over datagrams.

ghost use Rattle.std.specs.Prelude.{◌≡◌, ◌≤◌, false, true, length, Some};
ghost use mathlib.Core.List.{IsPrefix};
ghost use Rattle.dz_io.specs.Counts.{HasRisen, HasRisenBy};
ghost use Rattle.dz_io.specs.Device.{Gains};
ghost use Rattle.dz_io.specs.Packets.{packet};
ghost use Rattle.dz_request.specs.Frame.{is_tcp};
ghost use Rattle.dz_query.specs.Due.{due};
ghost use Rattle.dz_query.specs.Served.{sent_of, packets_to, IsExcused};
ghost use Rattle.dz_query.specs.Session.{told, IsSession, HasClosed};
ghost use Rattle.dz_query.specs.inner.Replying.{has_lost, has_unheard};

use crate::answered::{Answered, answer_incoming};
use crate::fate::{Fate, has_unheard};
use crate::incoming::Incoming;
use dz_desk::{Ear, Reading};
use dz_header::{ReplyBuffer, Transport, Writer};
use dz_io::{Clock, Datagrams, Failed, Peer, Received};
use std::sync::Wait;

/// How a session over datagrams ended.
#[derive(Clone, Copy, Debug, PartialEq, Eq)]
pub enum SessionEnd {
    /// The device said that nothing comes any more; `lost` tells whether a send failed, and `unheard` whether a NOTIFY
    /// got no reply since the log could not be written.
    Closed { lost: bool, unheard: bool },
    /// A receive failed.
    Failed,
}

/// Answers the packets that come to a device, one after the other, until it closes or a receive fails. Each is answered
/// at a moment of the clock, which is asked once for each, and by the list that the reading sees then. A reply that
/// can't be sent is left out. An ear hears NOTIFY (RFC 1996). It takes no memory, and may wait forever. The publisher
/// has to stay open.
#[tactic(auto, using(crate::proofs::SessionLemmas::none_yet, dz_desk::proofs::PrefixLemmas::prefix_self))]
pub fn serve_datagrams<E: Ear, D: Datagrams, C: Clock, R: Wait>(
    rt: &R,
    ear: &E,
    reading: &mut Reading,
    device: &mut D,
    clock: &mut C,
    buffer: &mut ReplyBuffer,
) -> SessionEnd
    requires out { reading.old.is_out ≡ false }
    requires own { reading.old.book ≡ E.publisher }
    ensures seen { IsPrefix reading.old.list reading.new.list }
    ensures same { (reading.new.is_out ≡ false) × (reading.new.book ≡ reading.old.book) }
    ensures session { IsSession result E.may_fail (C.may_give clock.old)
        (length reading.old.list) reading.new.list
        (told (D.received device.old) (D.sent device.old) (D.faults device.old)
        reading.old.sights (C.given clock.old))
        (told (D.received device.new) (D.sent device.new) (D.faults device.new)
        reading.new.sights (C.given clock.new)) }
    ensures later { D.faults device.old ≤ D.faults device.new }
    ensures closed { HasClosed result (D.is_closed device.new) }
    ensures give { C.may_give clock.new ≡ C.may_give clock.old }
    ensures stop { C.may_stop clock.new ≡ C.may_stop clock.old }
{
    let ReplyBuffer { request, reply } = buffer;
    let mut lost = false;
    let mut unheard = false;
    'packets: for _ in rt.forever() {
        match device.receive(request.as_mut_slice()) {
            Err(Failed) => return SessionEnd::Failed,
            Ok(Received::Closed) => return SessionEnd::Closed { lost, unheard },
            Ok(Received::Packet { length, peer }) => {
                let octets = request.as_slice();
                let incoming = Incoming {
                    octets: &octets[..length],
                    peer: &peer,
                    moment: clock.now(),
                    transport: Transport::Udp,
                };
                let fate = answer_packet(rt, ear, reading, &incoming, device, reply);
                lost = has_lost(lost, fate);
                unheard = has_unheard(unheard, fate);
            }
        }
    }
    unreachable!()
}

/// Sends the reply to a packet, if it gets one.
fn answer_packet<E: Ear, D: Datagrams, R: Wait>(
    rt: &R,
    ear: &E,
    reading: &mut Reading,
    incoming: &Incoming<'_>,
    device: &mut D,
    writer: &mut Writer,
) -> Fate
    requires out { reading.old.is_out ≡ false }
    requires own { reading.old.book ≡ E.publisher }
    ensures seen { IsPrefix reading.old.list reading.new.list }
    ensures same { (reading.new.is_out ≡ false) × (reading.new.book ≡ reading.old.book) }
    ensures sights { HasRisenBy 1 reading.old.sights reading.new.sights }
    ensures sent { let request = packet incoming.now.octets.now incoming.now.peer.now in
        let due = due reading.new.list
        (is_tcp incoming.now.transport) request incoming.now.moment in
        Gains (packets_to request (sent_of result due)) (D.sent device.old) (D.sent device.new) }
    ensures excused { IsExcused E.may_fail false result
        (packet incoming.now.octets.now incoming.now.peer.now) }
    ensures received { D.received device.new ≡ D.received device.old }
    ensures closed { D.is_closed device.new ≡ D.is_closed device.old }
    ensures later { D.faults device.old ≤ D.faults device.new }
    ensures lost { result ≡ Fate.Lost → HasRisen (D.faults device.old) (D.faults device.new) }
{
    match answer_incoming(rt, ear, reading, incoming, writer) {
        Answered::Silent => Fate::Sent,
        Answered::Unheard => Fate::Unheard,
        Answered::Written(count) => send(device, incoming.peer, writer.first(count)),
    }
}

/// Sends a reply to its peer; a send that fails loses it.
#[tactic(auto, using(crate::proofs::GainLemmas::gains_none))]
fn send<D: Datagrams>(device: &mut D, peer: &Peer, text: &[u8]) -> Fate
    ensures sent { Gains (packets_to (packet text.now peer.now) (sent_of result (Some text.now)))
        (D.sent device.old) (D.sent device.new) }
    ensures tried { result ≡ Fate.Unheard → ⊥ }
    ensures received { D.received device.new ≡ D.received device.old }
    ensures closed { D.is_closed device.new ≡ D.is_closed device.old }
    ensures later { D.faults device.old ≤ D.faults device.new }
    ensures lost { result ≡ Fate.Lost → HasRisen (D.faults device.old) (D.faults device.new) }
{
    match device.send(peer, text) {
        Ok(()) => Fate::Sent,
        Err(Failed) => Fate::Lost,
    }
}

/// Whether a reply is missing since a send failed, after one more.
fn has_lost(lost: bool, fate: Fate) -> bool
    ensures { result ≡ has_lost lost fate }
{
    match fate {
        Fate::Lost => true,
        Fate::Sent | Fate::Unheard => lost,
    }
}
