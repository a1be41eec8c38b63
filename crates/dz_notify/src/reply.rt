//! Replies to NOTIFY requests.

ghost use Rattle.std.specs.Prelude.{◌≡◌, ◌≤◌, ◌↔◌, IsSome, IsNone, IfNone, Some, length, IfSome};
ghost use Rattle.dz_header.specs.Code.{number_of};
ghost use Rattle.dz_name.specs.Words.{Octets};
ghost use Rattle.dz_request.specs.Frame.{query_of, bare_octets};
ghost use Rattle.dz_request.specs.Request.{IsWhole};
ghost use Rattle.dz_notify.specs.Notify.{notify_zone_in};
ghost use Rattle.dz_notify.specs.Reply.{code_for, notify_reply_of, IsWritten};
ghost use Rattle.dz_notify.specs.ReadsBack.{ReadsBack};

use crate::notify::Heard;
use dz_header::{ReplyBuffer, ResponseCode, Transport, Writer};
use dz_name::dns::UDP_OCTETS;
use dz_request::{Asked, Frame, Request, read_request};

/// Writes the reply to a NOTIFY and returns its number of octets, so that `buffer.reply(count)` is the reply. None
/// where the NOTIFY came from a stranger, who gets no reply. It allocates nothing, and every reply fits in 512 octets.
pub fn write_notify_reply(request: &[u8], heard: Heard, buffer: &mut ReplyBuffer) -> Option<usize>
    requires { IsSome (notify_zone_in request.now) }
    ensures reply { IsWritten result buffer.new.reply.writing (notify_reply_of request.now heard) }
    ensures none { IsNone result ↔ heard ≡ Heard.Stranger }
    ensures size { IfSome result (λ count. count ≤ UDP_OCTETS) }
    ensures reads_back { (text : Octets) → buffer.new.reply.writing.octets ≡ Some text →
        IsSome result → ReadsBack request.now heard text }
    ensures kept { IsNone result → buffer.new ≡ buffer.old }
    ensures request { buffer.new.request ≡ buffer.old.request }
{
    notify_reply_to(request, heard, buffer.writer())
}

/// The same with only the writer of a reply, so that the request may be in the other half of the buffer. None where
/// there is no reply.
pub fn notify_reply_to(request: &[u8], heard: Heard, writer: &mut Writer) -> Option<usize>
    requires { IsSome (notify_zone_in request.now) }
    ensures reply { IsWritten result writer.new.writing (notify_reply_of request.now heard) }
    ensures none { IsNone result ↔ heard ≡ Heard.Stranger }
    ensures size { IfSome result (λ count. count ≤ UDP_OCTETS) }
    ensures reads_back { (text : Octets) → writer.new.writing.octets ≡ Some text →
        IsSome result → ReadsBack request.now heard text }
    ensures kept { IsNone result → writer.new ≡ writer.old }
{
    let code = code_for(heard)?;
    match read_request(request) {
        Request::Notify(asked) => Some(reply_code(request, &asked, code, writer)),
        _ => None,
    }
}

/// The code of the reply; none where there is no reply.
fn code_for(heard: Heard) -> Option<ResponseCode>
    ensures { result ≡ code_for heard }
{
    match heard {
        Heard::Taken => Some(ResponseCode::NoError),
        Heard::Stranger => None,
        Heard::NotOurs => Some(ResponseCode::NotAuth),
    }
}

/// Writes header, question and OPT record, and returns how many octets they have.
fn reply_code(request: &[u8], asked: &Asked, code: ResponseCode, writer: &mut Writer) -> usize
    requires { IsWhole request.now asked.now.size }
    ensures octets { let text = bare_octets (query_of request.now asked.now) (number_of code) in
        (writer.new.writing.octets ≡ Some text) × (result ≡ length text) }
    ensures size { result ≤ UDP_OCTETS }
{
    let frame = Frame {
        request,
        asked,
        transport: Transport::Udp,
    };
    frame.reply_bare(writer, code);
    writer.written().len()
}
