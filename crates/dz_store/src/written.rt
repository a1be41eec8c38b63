//! Whether a payload is just what is written of a kept zone.

ghost use Rattle.std.specs.Prelude.{◌≡◌, ◌≢◌, ◌↔◌, ◌++◌, ◌≤◌, length, IsTrue, IfOk, IfSome, MatchOption};
ghost use Rattle.dz_name.specs.Words.{Octets};
ghost use Rattle.dz_message.specs.Frame.{frame, stream};
ghost use Rattle.dz_message.specs.Piece.{written};
ghost use Rattle.dz_store.specs.Kept.{meaning_of};
ghost use Rattle.dz_store.specs.Payload.{is_written_of};

use crate::kept::Kept;
use crate::payload::{MOMENTS, head_octets};
use dz_header::Writer;
use dz_name::dns::MESSAGE_OCTETS;
use dz_name::numbers::two;
use dz_outward::Outgoing;
use std::alloc::{AllocError, Global};
use std::sync::Arc;

/// Whether a payload is just what is written of a kept zone. `AllocError` where memory runs out.
pub(crate) fn is_written_of(alloc: Global, kept: &Kept, payload: &[u8]) -> Result<bool, AllocError>
    ensures { IfOk result (λ b. b ≡ is_written_of (meaning_of kept.now) payload.now) }
{
    if MOMENTS <= kept.refreshed {
        return Ok(false);
    }
    let version = Arc::try_clone(&kept.version)?;
    let outgoing = match Outgoing::start(version, 0) {
        Ok(outgoing) => outgoing,
        Err(_) => return Ok(false),
    };
    let head = head_octets(alloc, kept)?;
    let mut writer = Writer::new(alloc)?;
    match payload.strip_prefix(head.as_slice()) {
        None => Ok(false),
        Some(rest) => Ok(is_stream(outgoing, &mut writer, rest)),
    }
}

/// Whether octets are just these messages, each preceded by its length.
fn is_stream(outgoing: Outgoing, writer: &mut Writer, octets: &[u8]) -> bool
    ensures { IsTrue result ↔ (octets.now ≡ stream (written outgoing)) }
{
    let mut outgoing = outgoing;
    let mut rest = octets;
    'messages: while let Some(count) = outgoing.next(writer) {
        match after_frame(rest, writer.first(count)) {
            None => return false,
            Some(after) => rest = after,
        }
    }
    rest.is_empty()
}

/// What follows the frame of a message at the beginning of octets; none where another one is there.
fn after_frame<'a>(octets: &'a [u8], message: &[u8]) -> Option<&'a [u8]>
    requires { length message.now ≤ MESSAGE_OCTETS }
    ensures { MatchOption result
        ((rest : Octets) → octets.now ≢ frame message.now ++ rest)
        (λ rest. octets.now ≡ frame message.now ++ rest.now) }
{
    let size = two(message.len() as u16);
    let rest = octets.strip_prefix(&size)?;
    rest.strip_prefix(message)
}
