//! One request, until it is answered.

ghost use Rattle.std.specs.Prelude.{◌≡◌, false};
ghost use mathlib.Core.List.{IsPrefix};
ghost use Rattle.dz_io.specs.Counts.{HasRisenBy};
ghost use Rattle.dz_io.specs.Packets.{packet};
ghost use Rattle.dz_request.specs.Frame.{is_tcp};
ghost use Rattle.dz_reply.specs.Reply.{IsReply, IsNotifyAnyhow};
ghost use Rattle.dz_query.specs.Answer.{reply_at};
ghost use Rattle.dz_query.specs.Due.{due};
ghost use Rattle.dz_query.specs.inner.Replying.{IsAnswered};

use crate::answer::answer_to;
use crate::incoming::Incoming;
use dz_desk::{Ear, Hearing, Reading};
use dz_header::Writer;
use dz_notify::notify_reply_to;
use dz_reply::Turn;
use std::sync::Wait;

/// What a request led to.
#[derive(Clone, Copy)]
pub(crate) enum Answered {
    /// No reply is due.
    Silent,
    /// The reply was written, with this many octets.
    Written(usize),
    /// It is a NOTIFY, and the log could not be written.
    Unheard,
}

/// Writes the reply to a request. An ear hears a NOTIFY, which is answered by the list that is seen then.
pub(crate) fn answer_incoming<E: Ear, R: Wait>(
    rt: &R,
    ear: &E,
    reading: &mut Reading,
    incoming: &Incoming<'_>,
    writer: &mut Writer,
) -> Answered
    requires out { reading.old.is_out ≡ false }
    requires own { reading.old.book ≡ E.publisher }
    ensures seen { IsPrefix reading.old.list reading.new.list }
    ensures same { (reading.new.is_out ≡ false) × (reading.new.book ≡ reading.old.book) }
    ensures sights { HasRisenBy 1 reading.old.sights reading.new.sights }
    ensures answered { let request = packet incoming.now.octets.now incoming.now.peer.now in
        IsAnswered E.may_fail result writer.new.writing request
        (due reading.new.list (is_tcp incoming.now.transport) request incoming.now.moment) }
{
    match answer_surely(rt, reading, incoming, writer) {
        Turn::Silent => Answered::Silent,
        Turn::Written(count) => Answered::Written(count),
        Turn::Notify(zone) => match ear.hear(rt, incoming.peer, &zone, reading) {
            Hearing::LogFault => Answered::Unheard,
            Hearing::Heard(heard, witness) => {
                drop(witness);
                match notify_reply_to(incoming.octets, heard, writer) {
                    None => Answered::Silent,
                    Some(count) => Answered::Written(count),
                }
            }
        },
    }
}

/// Looks, again and again until the reading sees, and writes the reply by the list that it sees.
#[tactic(auto, using(dz_desk::proofs::PrefixLemmas::prefix_self, dz_desk::proofs::PrefixLemmas::prefix_trans))]
fn answer_surely<R: Wait>(
    rt: &R,
    reading: &mut Reading,
    incoming: &Incoming<'_>,
    writer: &mut Writer,
) -> Turn
    requires { reading.old.is_out ≡ false }
    ensures seen { IsPrefix reading.old.list reading.new.list }
    ensures same { (reading.new.is_out ≡ false) × (reading.new.book ≡ reading.old.book) }
    ensures sights { HasRisenBy 1 reading.old.sights reading.new.sights }
    ensures reply { IsReply result writer.new.writing
        (reply_at reading.new.list incoming.now.octets.now
        incoming.now.moment (is_tcp incoming.now.transport)) }
    ensures notify { IsNotifyAnyhow result incoming.now.octets.now }
{
    'looks: for _ in rt.forever() {
        let Incoming {
            octets,
            moment,
            transport,
            ..
        } = incoming;
        if let Some(turn) = answer_to(reading, octets, *moment, *transport, writer) {
            return turn;
        }
    }
    unreachable!()
}
