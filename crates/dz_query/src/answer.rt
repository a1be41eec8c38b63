//! One request.

ghost use Rattle.std.specs.Prelude.{◌≡◌, false, length, Some, IfSome, IfNone};
ghost use mathlib.Core.List.{IsPrefix};
ghost use Rattle.dz_name.specs.Words.{Octets};
ghost use Rattle.dz_request.specs.Frame.{is_tcp};
ghost use Rattle.dz_reply.specs.Reply.{IsReply, FitsBuffer, IsNotifyAnyhow};
ghost use Rattle.dz_reply.specs.ReadsBack.{ReadsBack};
ghost use Rattle.dz_history.specs.After.{after};
ghost use Rattle.dz_desk.specs.Seen.{refused};
ghost use Rattle.dz_query.specs.Answer.{answered, reply_at};

use dz_desk::Reading;
use dz_header::{ReplyBuffer, Transport, Writer};
use dz_reply::{Turn, reply_to};

/// Answers a request at a moment in seconds, from the list that the reading sees now. It takes no memory, and waits for
/// nobody. None comes only where the reading was refused its look; it may be asked again. The octets of a reply are
/// `buffer.reply(count)` where the answer is `Turn::Written(count)`; a NOTIFY is for an ear to hear.
pub fn answer_one(
    reading: &mut Reading,
    octets: &[u8],
    moment: u64,
    transport: Transport,
    buffer: &mut ReplyBuffer,
) -> Option<Turn>
    requires { reading.old.is_out ≡ false }
    ensures seen { IsPrefix reading.old.list reading.new.list }
    ensures some { IfSome result (λ turn. reading.new ≡ answered reading.old reading.new.list) }
    ensures reply { IfSome result (λ turn. IsReply turn buffer.new.reply.writing
        (reply_at reading.new.list octets.now moment (is_tcp transport))) }
    ensures size { IfSome result FitsBuffer }
    ensures reads_back { (text : Octets) → buffer.new.reply.writing.octets ≡ Some text →
        result ≡ Some (Turn.Written (length text)) →
        ReadsBack (after reading.new.list).table octets.now moment (is_tcp transport) text }
    ensures notify { IfSome result (λ turn. IsNotifyAnyhow turn octets.now) }
    ensures none { IfNone result ((reading.new ≡ refused reading.old) × (buffer.new ≡ buffer.old)) }
    ensures request { buffer.new.request ≡ buffer.old.request }
{
    answer_to(reading, octets, moment, transport, buffer.writer())
}

/// The same over the writer of a reply alone, so that the request may be in the other half of the buffer.
pub(crate) fn answer_to(
    reading: &mut Reading,
    octets: &[u8],
    moment: u64,
    transport: Transport,
    writer: &mut Writer,
) -> Option<Turn>
    requires { reading.old.is_out ≡ false }
    ensures seen { IsPrefix reading.old.list reading.new.list }
    ensures some { IfSome result (λ turn. reading.new ≡ answered reading.old reading.new.list) }
    ensures reply { IfSome result (λ turn. IsReply turn writer.new.writing
        (reply_at reading.new.list octets.now moment (is_tcp transport))) }
    ensures size { IfSome result FitsBuffer }
    ensures reads_back { (text : Octets) → writer.new.writing.octets ≡ Some text →
        result ≡ Some (Turn.Written (length text)) →
        ReadsBack (after reading.new.list).table octets.now moment (is_tcp transport) text }
    ensures notify { IfSome result (λ turn. IsNotifyAnyhow turn octets.now) }
    ensures none { IfNone result ((reading.new ≡ refused reading.old) × (writer.new ≡ writer.old)) }
{
    match reading.see() {
        None => None,
        Some(sight) => {
            let turn = reply_to(sight.table(), octets, moment, transport, writer);
            reading.leave(sight);
            Some(turn)
        }
    }
}
