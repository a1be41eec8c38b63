//! The reply to a request.

ghost use Rattle.std.specs.Prelude.{◌≡◌, IsSome, Some, length};
ghost use Rattle.dz_name.specs.Name.{IsWithin};
ghost use Rattle.dz_name.specs.Words.{Octets};
ghost use Rattle.dz_header.specs.Code.{number_of};
ghost use Rattle.dz_request.specs.Frame.{is_tcp, query_of, curt_octets};
ghost use Rattle.dz_request.specs.Request.{FitsIn, IsWhole};
ghost use Rattle.dz_table.specs.Table.{closest_for};
ghost use Rattle.dz_reply.specs.Secure.{asks_dnssec};
ghost use Rattle.dz_reply.specs.Answer.{bare, octets_of};
ghost use Rattle.dz_reply.specs.Reply.{written, at_slot, reply_for, reply_of, IsReply, FitsBuffer, IsNotifyAnyhow};
ghost use Rattle.dz_reply.specs.ReadsBack.{ReadsBack};
ghost use Rattle.dz_reply.specs.inner.AnswersHeld.{AnswersHeld, AnswersHeldFor};

use crate::answer::reply_zone;
use crate::counted;
use dz_header::{Header, ReplyBuffer, ResponseCode, Transport, Writer};
use dz_name::Name;
use dz_request::{Asked, Frame, Request, read_request, reply_curt};
use dz_table::{Slot, Table};

/// What a request leads to.
#[derive(Clone, Copy, Debug)]
pub enum Turn {
    /// There is no reply.
    Silent,
    /// The reply was written: its length in octets.
    Written(usize),
    /// A NOTIFY for this name (RFC 1996): who sent it decides on its reply.
    Notify(Name),
}

/// Writes the reply to a request at a moment in seconds, from the closest enclosing zone of the table. It takes no
/// memory. The octets of a reply are `buffer.reply(count)` where the answer is `Turn::Written(count)`.
pub fn reply_into(
    table: &Table,
    octets: &[u8],
    moment: u64,
    transport: Transport,
    buffer: &mut ReplyBuffer,
) -> Turn
    ensures reply { IsReply result buffer.new.reply.writing
        (reply_of table.now octets.now moment (is_tcp transport)) }
    ensures size { FitsBuffer result }
    ensures reads_back { (text : Octets) → buffer.new.reply.writing.octets ≡ Some text
        → result ≡ Turn.Written (length text)
        → ReadsBack table.now octets.now moment (is_tcp transport) text }
    ensures notify { IsNotifyAnyhow result octets.now }
    ensures request { buffer.new.request ≡ buffer.old.request }
{
    reply_to(table, octets, moment, transport, buffer.writer())
}

/// The same over the writer of a reply alone, so that the request may be in the other half of the buffer.
pub fn reply_to(
    table: &Table,
    octets: &[u8],
    moment: u64,
    transport: Transport,
    writer: &mut Writer,
) -> Turn
    ensures reply { IsReply result writer.new.writing
        (reply_of table.now octets.now moment (is_tcp transport)) }
    ensures size { FitsBuffer result }
    ensures reads_back { (text : Octets) → writer.new.writing.octets ≡ Some text
        → result ≡ Turn.Written (length text)
        → ReadsBack table.now octets.now moment (is_tcp transport) text }
    ensures notify { IsNotifyAnyhow result octets.now }
{
    let exchange = Exchange {
        table,
        octets,
        moment,
        transport,
    };
    reply_request(&exchange, &read_request(octets), writer)
}

/// What a reply is made from: the table of zones, the octets of the request, the moment in seconds, and the transport.
#[derive(Drop)]
struct Exchange<'a> {
    table: &'a Table,
    octets: &'a [u8],
    moment: u64,
    transport: Transport,
}

/// The reply to a request as it was read.
fn reply_request(exchange: &Exchange<'_>, request: &Request, writer: &mut Writer) -> Turn
    requires { FitsIn exchange.now.octets.now request.now }
    ensures reply { IsReply result writer.new.writing
        (reply_for exchange.now.table.now exchange.now.octets.now exchange.now.moment
        (is_tcp exchange.now.transport) request.now) }
    ensures held { AnswersHeldFor exchange.now.table.now exchange.now.moment request.now }
    ensures size { FitsBuffer result }
{
    match request {
        Request::Silent => Turn::Silent,
        Request::Notify(asked) => Turn::Notify(asked.question.name),
        Request::Curt(header, code) => reply_header(header, *code, writer),
        Request::NewerEdns(asked) => reply_code(exchange, asked, ResponseCode::BadVers, writer),
        Request::NotImp(asked) => reply_code(exchange, asked, ResponseCode::NotImp, writer),
        Request::Asks(asked) => reply_question(exchange, asked, writer),
    }
}

/// The reply to a question: REFUSED without an enclosing zone.
fn reply_question(exchange: &Exchange<'_>, asked: &Asked, writer: &mut Writer) -> Turn
    requires { IsWhole exchange.now.octets.now asked.now.size }
    ensures reply { IsReply result writer.new.writing
        (written (octets_of (is_tcp exchange.now.transport)
        (query_of exchange.now.octets.now asked.now)
        (at_slot (asks_dnssec asked.now.edns)
        (closest_for exchange.now.table.now asked.now.question.name asked.now.question.kind)
        exchange.now.moment asked.now.question.name asked.now.question.kind))) }
    ensures held { AnswersHeld
        (closest_for exchange.now.table.now asked.now.question.name asked.now.question.kind)
        exchange.now.moment }
    ensures size { FitsBuffer result }
{
    let question = &asked.question;
    match counted::closest(exchange.table, &question.name, question.kind) {
        None => reply_code(exchange, asked, ResponseCode::Refused, writer),
        Some(slot) => reply_slot(exchange, slot, asked, writer),
    }
}

/// The reply from the slot of the closest enclosing zone: SERVFAIL where the zone isn't live.
fn reply_slot(exchange: &Exchange<'_>, slot: &Slot, asked: &Asked, writer: &mut Writer) -> Turn
    requires whole { IsWhole exchange.now.octets.now asked.now.size }
    requires within { IsWithin asked.now.question.name slot.now.zone }
    ensures reply { IsReply result writer.new.writing
        (written (octets_of (is_tcp exchange.now.transport)
        (query_of exchange.now.octets.now asked.now)
        (at_slot (asks_dnssec asked.now.edns) (Some slot.now) exchange.now.moment
        asked.now.question.name asked.now.question.kind))) }
    ensures held { AnswersHeld (Some slot.now) exchange.now.moment }
    ensures size { FitsBuffer result }
{
    if !slot.is_live(exchange.moment) {
        return reply_code(exchange, asked, ResponseCode::ServFail, writer);
    }
    match slot.version() {
        None => reply_code(exchange, asked, ResponseCode::ServFail, writer),
        Some(version) => {
            let frame = Frame {
                request: exchange.octets,
                asked,
                transport: exchange.transport,
            };
            reply_zone(&frame, version, writer);
            as_written(writer)
        }
    }
}

/// Writes a reply of twelve octets (RFC 1035 section 4.1.1).
fn reply_header(header: &Header, code: ResponseCode, writer: &mut Writer) -> Turn
    ensures reply { IsReply result writer.new.writing
        (written (curt_octets header.now (number_of code))) }
    ensures size { FitsBuffer result }
{
    reply_curt(writer, header, code);
    as_written(writer)
}

/// Writes a reply without records.
fn reply_code(
    exchange: &Exchange<'_>,
    asked: &Asked,
    code: ResponseCode,
    writer: &mut Writer,
) -> Turn
    requires { IsWhole exchange.now.octets.now asked.now.size }
    ensures reply { IsReply result writer.new.writing
        (written (octets_of (is_tcp exchange.now.transport)
        (query_of exchange.now.octets.now asked.now) (bare (number_of code)))) }
    ensures size { FitsBuffer result }
{
    let frame = Frame {
        request: exchange.octets,
        asked,
        transport: exchange.transport,
    };
    frame.reply_bare(writer, code);
    as_written(writer)
}

/// How many octets were written.
fn as_written(writer: &Writer) -> Turn
    requires { IsSome writer.now.writing.octets }
    ensures reply { (text : Octets) → writer.now.writing.octets ≡ Some text
        → result ≡ Turn.Written (length text) }
    ensures size { FitsBuffer result }
{
    Turn::Written(writer.written().len())
}
