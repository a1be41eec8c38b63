//! Frames: over TCP each message is preceded by its length in two octets (RFC 1035 section 4.2.2).

ghost use Rattle.std.specs.Prelude.{◌≡◌, ◌≤◌, ◌++◌, length, is_ok, if◌then◌else◌, IfSome};
ghost use Rattle.dz_message.specs.Frame.{frame, frame_at, IsWithin, IsFirst};

use dz_name::dns::{LENGTH_OCTETS, MESSAGE_OCTETS};
use dz_name::numbers::{number_of_two, two};
use std::alloc::AllocError;

/// Where the message of the whole frame at an offset begins, and the offset after it. `None` exactly where there is no
/// whole frame, also past the end.
#[tactic(auto, using(crate::proofs::FrameLemmas::first_there))]
pub fn next_frame(octets: &[u8], at: usize) -> Option<(usize, usize)>
    ensures place { result ≡ frame_at octets.now at }
    ensures within { IfSome result (IsWithin octets.now) }
    ensures first { IsFirst octets.now at result }
{
    frame_at(octets, at)
}

/// Where the message of the whole frame at an offset begins and ends; none where there is no whole frame.
fn frame_at(octets: &[u8], at: usize) -> Option<(usize, usize)>
    ensures place { result ≡ frame_at octets.now at }
    ensures within { IfSome result (IsWithin octets.now) }
{
    if octets.len() < at {
        return None;
    }
    let behind = octets.split_at(at).1;
    if behind.len() < LENGTH_OCTETS {
        return None;
    }
    let size = number_of_two(behind) as usize;
    if behind.len() < LENGTH_OCTETS + size {
        return None;
    }
    Some((at + LENGTH_OCTETS, at + LENGTH_OCTETS + size))
}

/// Appends the frame of a message.
///
/// # Errors
///
/// `AllocError` where memory runs out; `out` is then left as it was.
pub fn push_frame(out: &mut Vec<u8>, message: &[u8]) -> Result<(), AllocError>
    requires { length message.now ≤ MESSAGE_OCTETS }
    ensures { out.new.items ≡ (if is_ok result then out.old.items ++ frame message.now
        else out.old.items) }
{
    let before = out.len();
    out.extend_from_slice(&two(message.len() as u16))?;
    match out.extend_from_slice(message) {
        Ok(()) => Ok(()),
        Err(error) => {
            out.truncate(before);
            Err(error)
        }
    }
}
