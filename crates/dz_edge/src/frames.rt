//! The messages of a connection as it carries them: each is a frame, preceded by its length (RFC 1035 section 4.2.2).
ghost use Rattle.std.specs.Prelude.{◌≤◌, length, IfSome};

use dz_name::dns::{HEADER_OCTETS, LABEL_OCTETS, LENGTH_OCTETS, MESSAGE_OCTETS};

/// How many frames a turn has at most.
const TURN_FRAMES: usize = 256;

/// The most octets of a frame.
pub(crate) const FRAME_OCTETS: usize = LENGTH_OCTETS + MESSAGE_OCTETS;

/// The most labels of a name, with the root (RFC 1035 section 2.3.4).
const LABELS: usize = 128;

/// QTYPE AXFR (RFC 1035 section 3.2.3), of which the first octet is 0.
const AXFR: u8 = 252;

/// QR and the opcode, in the third octet of a message (RFC 1035 section 4.1.1).
const KIND: u8 = 0xf8;

/// The opcode of a NOTIFY (RFC 1996 section 3.2), and the same with QR set.
const NOTIFY: u8 = 0x20;

const NOTIFY_REPLY: u8 = 0xa0;

/// The response code, in the fourth octet of a message.
const CODE: u8 = 0x0f;

/// Where the frame that begins at `at` ends; none where it isn't whole.
pub(crate) fn frame_end(octets: &[u8], at: usize) -> Option<usize>
    ensures { IfSome result (λ end. end ≤ length octets.now) }
{
    let Some([high, low, ..]) = octets.get(at..) else {
        return None;
    };
    let size = LENGTH_OCTETS + u16::from_be_bytes([*high, *low]) as usize;
    let end = at.saturating_add(size);
    if end <= octets.len() { Some(end) } else { None }
}

/// The frames of a turn: where they end, and whether one of them isn't empty. An empty frame is no sign of life.
#[derive(Clone, Copy)]
pub(crate) struct TurnFrames {
    pub end: usize,
    pub is_alive: bool,
}

/// The whole frames at the front of these octets that a turn takes: `TURN_FRAMES` at most, and one that asks for a zone,
/// or is a NOTIFY, only as the first.
pub(crate) fn turn_frames(octets: &[u8]) -> TurnFrames {
    let mut at = 0_usize;
    let mut is_alive = false;
    'frames: for _ in 0..TURN_FRAMES {
        let Some(end) = frame_end(octets, at) else {
            break;
        };
        let frames = octets.get(at..).unwrap_or(&[]);
        if at > 0 && (asks_for_zone(frames) || begins_with_notify(frames)) {
            break;
        }
        is_alive = is_alive || end.saturating_sub(at) > LENGTH_OCTETS;
        at = end;
    }
    TurnFrames { end: at, is_alive }
}

/// Whether the first message of these frames is a NOTIFY that asks.
pub(crate) fn begins_with_notify(frames: &[u8]) -> bool {
    is_notify(frames.get(LENGTH_OCTETS..).unwrap_or(&[]))
}

/// Whether the first message of these frames has QTYPE AXFR, and so asks for a whole zone (RFC 5936 section 2.1).
pub(crate) fn asks_for_zone(frames: &[u8]) -> bool {
    match name_end(frames, LENGTH_OCTETS + HEADER_OCTETS) {
        Some(end) => matches!(frames.get(end..), Some([0, AXFR, ..])),
        None => false,
    }
}

/// Where the name ends that begins at `at`; none where it isn't whole, or has a pointer.
fn name_end(octets: &[u8], at: usize) -> Option<usize> {
    let mut at = at;
    'labels: for _ in 0..LABELS {
        match octets.get(at) {
            Some(0) => return Some(at.saturating_add(1)),
            Some(size) if *size as usize <= LABEL_OCTETS => {
                at = at.saturating_add(1 + *size as usize);
            }
            _ => break,
        }
    }
    None
}

/// Whether a message is a NOTIFY that asks, and no reply to one.
pub(crate) fn is_notify(message: &[u8]) -> bool {
    match message {
        [_, _, kind, ..] => kind & KIND == NOTIFY,
        _ => false,
    }
}

/// Whether a message is the reply to a NOTIFY that was taken: with no error (RFC 1996 section 4.7).
pub(crate) fn takes_notify(message: &[u8]) -> bool {
    match message {
        [_, _, kind, code, ..] => kind & KIND == NOTIFY_REPLY && code & CODE == 0,
        _ => false,
    }
}
