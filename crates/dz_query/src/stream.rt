//! A session over a link.

ghost use Rattle.std.specs.Prelude.{◌≡◌, ◌≤◌, ◌+◌, ◌++◌, [], false, length, take, drop, OnOk, OnErr};
ghost use mathlib.Core.List.{IsPrefix};
ghost use Rattle.dz_io.specs.Device.{Gains, GainsPrefix, HasCause};
ghost use Rattle.dz_message.specs.Frame.{frame, stream};
ghost use Rattle.dz_name.specs.declared.dns.TheConstants.{MESSAGE_OCTETS};
ghost use Rattle.dz_header.specs.declared.writer.TheConstants.{BUFFER_OCTETS};
ghost use Rattle.dz_query.specs.inner.Replying.{texts_of, IsShort, has_unheard};
ghost use Rattle.dz_query.specs.inner.Sending.{texts_in, fate_in, FitsFrame};
ghost use Rattle.dz_query.specs.Served.{excused};
ghost use Rattle.dz_query.specs.Stream.{flow, IsStream, EndsBy};

use crate::answered::Answered;
use crate::came::{Came, read_message};
use crate::fate::{Fate, has_unheard};
use crate::incoming::Incoming;
use crate::outward::send_zone;
use crate::sending::{Sending, answer_or_send};
use dz_desk::{Ear, Reading};
use dz_header::{ReplyBuffer, Transport, Writer};
use dz_io::{Clock, Failed, Link, Peer, Sink};
use dz_name::dns::LENGTH_OCTETS;
use dz_name::numbers::two;
use std::sync::Wait;

/// How a session over a link ended.
#[derive(Clone, Copy, Debug, PartialEq, Eq)]
pub enum StreamEnd {
    /// The link ended, in a message or between two.
    Ended,
    /// A read or a write failed.
    Failed,
    /// One owner more of a version that was asked for can't be counted.
    OutOfMemory,
}

/// A session over a link: how it ended, and whether a NOTIFY got no reply in it since the log could not be written.
#[derive(Clone, Copy, Debug, PartialEq, Eq)]
pub struct StreamSession {
    pub end: StreamEnd,
    pub unheard: bool,
}

/// Answers the messages of a link, each after its length (RFC 1035 section 4.2.2), until it ends or fails. Each is
/// answered at a moment of the clock, which is asked once for each, and by the list that the reading sees then. A part
/// of a message at the end gets no reply. A reply is one write, preceded by its length (RFC 7766 section 8). An ear
/// hears NOTIFY (RFC 1996). It takes no memory, and may wait forever. The publisher has to stay open.
pub fn serve_stream<E: Ear, L: Link, C: Clock, R: Wait>(
    rt: &R,
    ear: &E,
    reading: &mut Reading,
    link: &mut L,
    clock: &mut C,
    peer: &Peer,
    buffer: &mut ReplyBuffer,
) -> StreamSession
    requires out { reading.old.is_out ≡ false }
    requires own { reading.old.book ≡ E.publisher }
    ensures seen { IsPrefix reading.old.list reading.new.list }
    ensures same { (reading.new.is_out ≡ false) × (reading.new.book ≡ reading.old.book) }
    ensures stream { IsStream result.end [] (excused result.unheard E.may_fail)
        (C.may_give clock.old)
        (length reading.old.list) reading.new.list
        peer.now
        (flow (L.given link.old) (L.held link.old) reading.old.sights (C.given clock.old))
        (flow (L.given link.new) (L.held link.new) reading.new.sights (C.given clock.new)) }
    ensures ends { EndsBy result.end (L.left link.new) (L.Source.faults link.old)
        (L.Source.faults link.new) }
    ensures later { L.Source.faults link.old ≤ L.Source.faults link.new }
    ensures give { C.may_give clock.new ≡ C.may_give clock.old }
    ensures stop { C.may_stop clock.new ≡ C.may_stop clock.old }
    ensures plenty { result.end ≡ StreamEnd.OutOfMemory → ⊥ }
{
    serve_stream_outward(rt, ear, reading, link, clock, peer, &[], buffer)
}

/// The same as [`serve_stream`], but for a listed address that asks for a whole zone (RFC 5936): it gets the messages
/// of the version, each in one write, or an error. The version is kept by one owner more, and the sight is left before
/// the first octet. Where that owner can't be counted, the session ends before the first octet of that reply. It takes
/// no other memory.
#[tactic(auto, using(crate::proofs::StreamLemmas::none_yet, dz_desk::proofs::PrefixLemmas::prefix_self))]
pub fn serve_stream_outward<E: Ear, L: Link, C: Clock, R: Wait>(
    rt: &R,
    ear: &E,
    reading: &mut Reading,
    link: &mut L,
    clock: &mut C,
    peer: &Peer,
    downstream: &[[u8; 4]],
    buffer: &mut ReplyBuffer,
) -> StreamSession
    requires out { reading.old.is_out ≡ false }
    requires own { reading.old.book ≡ E.publisher }
    ensures seen { IsPrefix reading.old.list reading.new.list }
    ensures same { (reading.new.is_out ≡ false) × (reading.new.book ≡ reading.old.book) }
    ensures stream { IsStream result.end downstream.now (excused result.unheard E.may_fail)
        (C.may_give clock.old)
        (length reading.old.list) reading.new.list
        peer.now
        (flow (L.given link.old) (L.held link.old) reading.old.sights (C.given clock.old))
        (flow (L.given link.new) (L.held link.new) reading.new.sights (C.given clock.new)) }
    ensures ends { EndsBy result.end (L.left link.new) (L.Source.faults link.old)
        (L.Source.faults link.new) }
    ensures later { L.Source.faults link.old ≤ L.Source.faults link.new }
    ensures give { C.may_give clock.new ≡ C.may_give clock.old }
    ensures stop { C.may_stop clock.new ≡ C.may_stop clock.old }
{
    let ReplyBuffer { request, reply } = buffer;
    let mut unheard = false;
    'messages: for _ in rt.forever() {
        let size = match read_message(link, request) {
            Came::Ended => return session(StreamEnd::Ended, unheard),
            Came::Failed => return session(StreamEnd::Failed, unheard),
            Came::Message(size) => size,
        };
        let octets = request.as_slice();
        let incoming = Incoming {
            octets: &octets[..size],
            peer,
            moment: clock.now(),
            transport: Transport::Tcp,
        };
        let sending = match answer_or_send(rt, ear, reading, &incoming, downstream, reply) {
            Err(_) => return session(StreamEnd::OutOfMemory, unheard),
            Ok(sending) => sending,
        };
        unheard = has_unheard(unheard, fate_in(&sending));
        match write_sending(link, sending, reply, request) {
            Err(Failed) => return session(StreamEnd::Failed, unheard),
            Ok(()) => {}
        }
    }
    unreachable!()
}

/// A session that ended so.
fn session(end: StreamEnd, unheard: bool) -> StreamSession
    ensures { result ≡ record { end = end; unheard = unheard } }
{
    StreamSession { end, unheard }
}

/// The fate of what goes out.
fn fate_in(sending: &Sending) -> Fate
    ensures { result ≡ fate_in sending.now }
{
    match sending {
        Sending::Reply(Answered::Unheard) => Fate::Unheard,
        Sending::Reply(_) | Sending::Zone(_) => Fate::Sent,
    }
}

/// Writes what goes out, each message after its length. They are put together in the room for requests.
fn write_sending<S: Sink>(
    sink: &mut S,
    sending: Sending,
    writer: &mut Writer,
    room: &mut Vec<u8>,
) -> Result<(), Failed>
    requires room { length room.old.items ≡ BUFFER_OCTETS }
    requires short { FitsFrame sending writer.old.writing }
    ensures all { OnOk result
        (Gains (stream (texts_in sending writer.old.writing)) (S.held sink.old)
        (S.held sink.new)) }
    ensures err { OnErr result
        (GainsPrefix (stream (texts_in sending writer.old.writing)) (S.held sink.old)
        (S.held sink.new)) }
    ensures room { length room.new.items ≡ BUFFER_OCTETS }
    ensures beside { S.beside sink.new ≡ S.beside sink.old }
    ensures cause { HasCause (S.faults sink.old) (S.faults sink.new) result }
{
    match sending {
        Sending::Reply(answered) => write_answer(sink, answered, writer, room),
        Sending::Zone(outgoing) => send_zone(sink, outgoing, writer, room),
    }
}

/// Writes the reply, if there is one, after its length. It is put together in the room for requests.
fn write_answer<S: Sink>(
    sink: &mut S,
    answered: Answered,
    writer: &Writer,
    room: &mut Vec<u8>,
) -> Result<(), Failed>
    requires room { length room.old.items ≡ BUFFER_OCTETS }
    requires short { IsShort answered writer.now.writing }
    ensures all { OnOk result
        (Gains (stream (texts_of answered writer.now.writing)) (S.held sink.old)
        (S.held sink.new)) }
    ensures err { OnErr result
        (GainsPrefix (stream (texts_of answered writer.now.writing)) (S.held sink.old)
        (S.held sink.new)) }
    ensures room { length room.new.items ≡ BUFFER_OCTETS }
    ensures beside { S.beside sink.new ≡ S.beside sink.old }
    ensures cause { HasCause (S.faults sink.old) (S.faults sink.new) result }
{
    match answered {
        Answered::Silent | Answered::Unheard => Ok(()),
        Answered::Written(count) => write_framed(sink, writer.first(count), room),
    }
}

/// Writes a message after its length, in one call (RFC 7766 section 8).
pub(crate) fn write_framed<S: Sink>(
    sink: &mut S,
    message: &[u8],
    room: &mut Vec<u8>,
) -> Result<(), Failed>
    requires room { length room.old.items ≡ BUFFER_OCTETS }
    requires short { length message.now ≤ MESSAGE_OCTETS }
    ensures all { OnOk result (Gains (frame message.now) (S.held sink.old) (S.held sink.new)) }
    ensures err { OnErr result
        (GainsPrefix (frame message.now) (S.held sink.old) (S.held sink.new)) }
    ensures room { length room.new.items ≡ BUFFER_OCTETS }
    ensures beside { S.beside sink.new ≡ S.beside sink.old }
    ensures cause { HasCause (S.faults sink.old) (S.faults sink.new) result }
{
    let end = LENGTH_OCTETS + message.len();
    put_at(room, 0, &two(message.len() as u16));
    put_at(room, LENGTH_OCTETS, message);
    sink.write(&room[..end])
}

/// Puts octets in a place of the room.
fn put_at(room: &mut Vec<u8>, at: usize, octets: &[u8])
    requires { at + length octets.now ≤ length room.old.items }
    ensures octets { room.new.items ≡
        take at room.old.items ++ (octets.now ++ drop (at + length octets.now) room.old.items) }
    ensures room { length room.new.items ≡ length room.old.items }
{
    let end = at + octets.len();
    room[at..end].copy_from_slice(octets);
}
