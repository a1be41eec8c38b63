//! Whole zones that are asked for over a link (RFC 5936).

ghost use Rattle.std.specs.Prelude.{◌≡◌, ◌≤◌, ℕ, false, length, take, OnOk, OnErr, IfOk, IfSome, IfNone, Some, None};
ghost use Rattle.std.specs.Prelude.{if◌then◌else◌};
ghost use Rattle.std.specs.Arc.{arc_value};
ghost use mathlib.Core.List.{IsPrefix};
ghost use Rattle.dz_io.specs.Counts.{HasRisenBy};
ghost use Rattle.dz_io.specs.Device.{Gains, GainsPrefix, HasCause};
ghost use Rattle.dz_io.specs.Packets.{packet};
ghost use Rattle.dz_name.specs.declared.dns.TheConstants.{MESSAGE_OCTETS};
ghost use Rattle.dz_header.specs.declared.writer.TheConstants.{BUFFER_OCTETS};
ghost use Rattle.dz_request.specs.Request.{request, IsWhole};
ghost use Rattle.dz_message.specs.Frame.{stream};
ghost use Rattle.dz_message.specs.Piece.{written};
ghost use Rattle.dz_history.specs.After.{after};
ghost use Rattle.dz_desk.specs.Seen.{refused};
ghost use Rattle.dz_query.specs.Answer.{answered};
ghost use Rattle.dz_query.specs.Sent.{is_for_zone, zone_asked, is_listed, transfer_in, refusal, live_version};
ghost use Rattle.dz_query.specs.Sent.{sent_of_name, held_at};
ghost use Rattle.dz_query.specs.inner.Sending.{held_of, Sends, IsGoing};

use crate::answered::Answered;
use crate::incoming::Incoming;
use crate::sending::Sending;
use crate::stream::write_framed;
use dz_desk::Reading;
use dz_header::{ResponseCode, Transport, Writer};
use dz_io::{Failed, Peer, Sink};
use dz_name::Name;
use dz_name::dns::{CLASS_IN, OPCODE_QUERY, TYPE_AXFR};
use dz_outward::Outgoing;
use dz_request::{Asked, Frame, Request, read_request};
use dz_table::{Slot, Table};
use dz_zone::Version;
use std::alloc::AllocError;
use std::sync::{Arc, Wait};

/// What is held of a name that is asked for.
#[derive(Drop)]
pub(crate) enum Held {
    /// The name is no member.
    Nothing,
    /// The member isn't live.
    Dead,
    /// The version by which it answers.
    Version(Arc<Version>),
}

/// A request for a whole zone, where it is one and comes from a listed address.
pub(crate) fn transfer_in(incoming: &Incoming<'_>, downstream: &[[u8; 4]]) -> Option<Asked>
    ensures asked { result ≡ transfer_in downstream.now
        (packet incoming.now.octets.now incoming.now.peer.now) }
    ensures whole { IfSome result (λ asked. IsWhole incoming.now.octets.now asked.size) }
{
    if is_listed(incoming.peer, downstream) {
        zone_asked(incoming.octets)
    } else {
        None
    }
}

/// Whether a peer has one of the addresses to which zones are sent, whatever its port.
fn is_listed(peer: &Peer, downstream: &[[u8; 4]]) -> bool
    ensures { result ≡ is_listed downstream.now peer.now }
{
    downstream.iter().any(|address| *address == peer.address)
}

/// A question for a whole zone, where these octets hold a request that asks it.
fn zone_asked(octets: &[u8]) -> Option<Asked>
    ensures asked { result ≡ zone_asked (request octets.now) }
    ensures whole { IfSome result (λ asked. IsWhole octets.now asked.size) }
{
    match read_request(octets) {
        Request::NotImp(asked) => only_for_zone(asked),
        Request::Silent
        | Request::Curt(..)
        | Request::NewerEdns(_)
        | Request::Notify(_)
        | Request::Asks(_) => None,
    }
}

/// The question, where it is for a whole zone.
fn only_for_zone(asked: Asked) -> Option<Asked>
    ensures { result ≡ (if is_for_zone asked then Some asked else None) }
{
    if is_for_zone(&asked) {
        Some(asked)
    } else {
        None
    }
}

/// Whether a question is for a whole zone: opcode QUERY, class IN, type AXFR (RFC 5936 section 2.1).
fn is_for_zone(asked: &Asked) -> bool
    ensures { result ≡ is_for_zone asked.now }
{
    asked.header.opcode() == OPCODE_QUERY
        && asked.question.class == CLASS_IN
        && asked.question.kind == TYPE_AXFR
}

/// Looks, again and again until the reading sees, and begins the zone by the version that it sees, or writes an error.
/// The sight is left before anything is written.
#[tactic(auto, using(dz_desk::proofs::PrefixLemmas::prefix_self, dz_desk::proofs::PrefixLemmas::prefix_trans))]
pub(crate) fn send_surely<R: Wait>(
    rt: &R,
    reading: &mut Reading,
    incoming: &Incoming<'_>,
    asked: &Asked,
    writer: &mut Writer,
) -> Result<Sending, AllocError>
    requires out { reading.old.is_out ≡ false }
    requires whole { IsWhole incoming.now.octets.now asked.now.size }
    ensures seen { IsPrefix reading.old.list reading.new.list }
    ensures same { (reading.new.is_out ≡ false) × (reading.new.book ≡ reading.old.book) }
    ensures sights { HasRisenBy 1 reading.old.sights reading.new.sights }
    ensures sent { let slots = (after reading.new.list).table in
        let held = held_at slots asked.now.question.name incoming.now.moment in
        IfOk result (λ s. Sends s writer.new.writing
        (sent_of_name incoming.now.octets.now asked.now held)) }
{
    'looks: for _ in rt.forever() {
        if let Some(held) = look(reading, &asked.question.name, incoming.moment) {
            return Ok(begin(held?, incoming.octets, asked, writer));
        }
    }
    unreachable!()
}

/// What the reading sees of a name at a moment; none where it was refused its look.
fn look(reading: &mut Reading, name: &Name, moment: u64) -> Option<Result<Held, AllocError>>
    requires { reading.old.is_out ≡ false }
    ensures seen { IsPrefix reading.old.list reading.new.list }
    ensures some { IfSome result (λ _. reading.new ≡ answered reading.old reading.new.list) }
    ensures held { IfSome result (λ looked. IfOk looked
        (λ held. held_of held ≡ held_at (after reading.new.list).table name.now moment)) }
    ensures none { IfNone result (reading.new ≡ refused reading.old) }
{
    match reading.see() {
        None => None,
        Some(sight) => {
            let held = held_in(sight.table(), name, moment);
            reading.leave(sight);
            Some(held)
        }
    }
}

/// What a table holds of a name at a moment in seconds; the error is that one more owner can't be counted.
fn held_in(table: &Table, name: &Name, moment: u64) -> Result<Held, AllocError>
    ensures { IfOk result (λ held. held_of held ≡ held_at table.now name.now moment) }
{
    match table.get(name) {
        None => Ok(Held::Nothing),
        Some(slot) => live_version(slot, moment),
    }
}

/// The version by which a member answers, owned once more.
fn live_version(slot: &Slot, moment: u64) -> Result<Held, AllocError>
    ensures { IfOk result (λ held. held_of held ≡ Some (live_version moment slot.now)) }
{
    if !slot.is_live(moment) {
        return Ok(Held::Dead);
    }
    match slot.shared_version() {
        None => Ok(Held::Dead),
        Some(version) => Ok(Held::Version(Arc::try_clone(version)?)),
    }
}

/// Begins the messages of a version, or writes the error where there is none.
fn begin(held: Held, octets: &[u8], asked: &Asked, writer: &mut Writer) -> Sending
    requires { IsWhole octets.now asked.now.size }
    ensures { Sends result writer.new.writing
        (sent_of_name octets.now asked.now (held_of held)) }
{
    match held {
        Held::Nothing => refuse(octets, asked, ResponseCode::NotAuth, writer),
        Held::Dead => refuse(octets, asked, ResponseCode::ServFail, writer),
        Held::Version(version) => match Outgoing::start(version, asked.header.id) {
            Ok(outgoing) => Sending::Zone(outgoing),
            Err(_) => refuse(octets, asked, ResponseCode::ServFail, writer),
        },
    }
}

/// Writes an error.
fn refuse(octets: &[u8], asked: &Asked, code: ResponseCode, writer: &mut Writer) -> Sending
    requires { IsWhole octets.now asked.now.size }
    ensures { Sends result writer.new.writing (refusal octets.now asked.now code) }
{
    let frame = Frame {
        request: octets,
        asked,
        transport: Transport::Tcp,
    };
    frame.reply_bare(writer, code);
    Sending::Reply(Answered::Written(writer.written().len()))
}

/// Writes the messages of a zone, each after its length. They are put together in the room for requests.
pub(crate) fn send_zone<S: Sink>(
    sink: &mut S,
    outgoing: Outgoing,
    writer: &mut Writer,
    room: &mut Vec<u8>,
) -> Result<(), Failed>
    requires room { length room.old.items ≡ BUFFER_OCTETS }
    ensures all { OnOk result (Gains (stream (written outgoing)) (S.held sink.old)
        (S.held sink.new)) }
    ensures err { OnErr result (GainsPrefix (stream (written outgoing)) (S.held sink.old)
        (S.held sink.new)) }
    ensures room { length room.new.items ≡ BUFFER_OCTETS }
    ensures beside { S.beside sink.new ≡ S.beside sink.old }
    ensures cause { HasCause (S.faults sink.old) (S.faults sink.new) result }
{
    let mut outgoing = outgoing;
    'messages: while let Some(count) = outgoing.next(writer) {
        write_framed(sink, writer.first(count), room)?;
    }
    Ok(())
}
