//! What goes out to a request over a link.

ghost use Rattle.std.specs.Prelude.{◌≡◌, ◌≤◌, true, false, length, IfOk, IsErr};
ghost use mathlib.Core.List.{IsPrefix};
ghost use Rattle.dz_io.specs.Counts.{HasRisenBy};
ghost use Rattle.dz_io.specs.Packets.{packet};
ghost use Rattle.dz_request.specs.Frame.{is_tcp};
ghost use Rattle.dz_query.specs.Sent.{asks_for_zone};
ghost use Rattle.dz_query.specs.inner.Sending.{IsSending, owed_by};

use crate::answered::{Answered, answer_incoming};
use crate::incoming::Incoming;
use crate::outward::{send_surely, transfer_in};
use dz_desk::{Ear, Reading};
use dz_header::Writer;
use dz_outward::Outgoing;
use std::alloc::AllocError;
use std::sync::Wait;

/// What goes out.
#[derive(Drop)]
pub(crate) enum Sending {
    /// The reply, if one is due.
    Reply(Answered),
    /// The messages of a zone.
    Zone(Outgoing),
}

/// Answers a request over a link: with a whole zone where a listed address asks for it, and else as any other.
pub(crate) fn answer_or_send<E: Ear, R: Wait>(
    rt: &R,
    ear: &E,
    reading: &mut Reading,
    incoming: &Incoming<'_>,
    downstream: &[[u8; 4]],
    writer: &mut Writer,
) -> Result<Sending, AllocError>
    requires out { reading.old.is_out ≡ false }
    requires own { reading.old.book ≡ E.publisher }
    requires tcp { is_tcp incoming.now.transport ≡ true }
    ensures seen { IsPrefix reading.old.list reading.new.list }
    ensures same { (reading.new.is_out ≡ false) × (reading.new.book ≡ reading.old.book) }
    ensures sights { HasRisenBy 1 reading.old.sights reading.new.sights }
    ensures sending { let request = packet incoming.now.octets.now incoming.now.peer.now in
        IfOk result (λ s. IsSending E.may_fail s writer.new.writing request
        (owed_by downstream.now reading.new.list request incoming.now.moment)) }
    ensures starved { IsErr result → asks_for_zone downstream.now
        (packet incoming.now.octets.now incoming.now.peer.now) ≡ true }
{
    match transfer_in(incoming, downstream) {
        None => Ok(Sending::Reply(answer_incoming(rt, ear, reading, incoming, writer))),
        Some(asked) => send_surely(rt, reading, incoming, &asked, writer),
    }
}
