//! Memory for a request and its reply.

ghost use Rattle.std.specs.Prelude.{◌≡◌, ◌≤◌, take, length, Some, IfOk};
ghost use Rattle.std.specs.Borrow.{Array, Lends, sem, u8};
ghost use Rattle.dz_header.specs.Buffer.{with_reply, with_reply_room, with_request};
ghost use Rattle.dz_header.specs.Writing.{empty};
ghost use Rattle.dz_header.specs.contracts.buffer.ReplyBuffer.{the_row};
ghost use Rattle.dz_header.specs.contracts.writer.Writer.{the_row as writer_row};
ghost use Rattle.dz_name.specs.Words.{Octets};

use crate::writer::{BUFFER_OCTETS, Writer};
use std::alloc::{AllocError, Global};
use std::marker::Model;

/// Memory for one request and its reply: 65,537 octets to read into, and as many to write. It is allocated once and
/// never grows, so one buffer serves any number of requests. A message over TCP has at most 65,535 octets, preceded by
/// its length in two (RFC 1035 section 4.2.2). The halves are separate: a device may read into one while the other is
/// written.
#[derive(Drop)]
pub struct ReplyBuffer {
    /// The 65,537 octets that requests are read into.
    pub request: Vec<u8>,
    /// The writer of replies.
    pub reply: Writer,
}

impl Model for ReplyBuffer {
    ghost use Rattle.std.specs.Prelude.{◌≡◌, length};
    ghost use Rattle.dz_header.specs.Buffer.{Exchange};
    ghost use Rattle.dz_header.specs.declared.writer.TheConstants.{BUFFER_OCTETS};

    ghost Value = { Exchange };

    ghost view = { λ b. record { request = b.request.items; reply = b.reply } };

    ghost invariant = { λ b. length b.request.items ≡ BUFFER_OCTETS };
}

impl ReplyBuffer {
    /// A buffer in which nothing is written.
    ///
    /// # Errors
    ///
    /// `AllocError` where there is no memory for twice 65,537 octets.
    pub fn make(alloc: Global) -> Result<ReplyBuffer, AllocError>
        ensures request { IfOk result (λ b. length b.request ≡ BUFFER_OCTETS) }
        ensures writing { IfOk result (λ b. b.reply.writing ≡ empty 0) }
        ensures room { IfOk result (λ b. length b.reply.room ≡ BUFFER_OCTETS) }
    {
        let request = Vec::from_elem(alloc, 0, BUFFER_OCTETS)?;
        let reply = Writer::new(alloc)?;
        Ok(ReplyBuffer { request, reply })
    }

    /// The 65,537 octets to read a request into.
    pub fn request_mut(&mut self) -> &mut [u8]
        ensures* lends { sem 𝓛 (Lends the_row (Array u8 0) self.entry result
            (with_request self.entry.now)) }
        ensures octets { result.now ≡ self.old.request }
        ensures size { length result.now ≡ BUFFER_OCTETS }
    {
        self.request.as_mut_slice()
    }

    /// The writer of the reply.
    pub fn writer(&mut self) -> &mut Writer
        ensures* lends { sem 𝓛 (Lends the_row writer_row self.entry result
            (with_reply self.entry.now)) }
        ensures written { result.now ≡ self.old.reply }
    {
        &mut self.reply
    }

    /// The 65,537 octets of the reply, to be filled by other means, such as a device that reads into them. What was
    /// written is discarded.
    pub fn reply_mut(&mut self) -> &mut [u8]
        ensures* lends { sem 𝓛 (Lends the_row (Array u8 0) self.entry result
            (with_reply_room self.entry.now)) }
        ensures octets { result.now ≡ self.old.reply.room }
        ensures size { length result.now ≡ BUFFER_OCTETS }
    {
        self.reply.room_mut()
    }

    /// The first `count` octets of the reply; what was written is followed by what earlier replies left.
    pub fn reply(&self, count: usize) -> &[u8]
        requires { count ≤ BUFFER_OCTETS }
        ensures size { length result.now ≡ count }
        ensures octets { result.now ≡ take count self.now.reply.room }
        ensures written { (text : Octets) → self.now.reply.writing.octets ≡ Some text
            → count ≤ length text → result.now ≡ take count text }
    {
        self.reply.first(count)
    }
}
