//! The turn of a connection, which is a link.
ghost use Rattle.std.specs.Prelude.{◌≡◌, ◌≤◌, refl, length, None};

use crate::buffers::Buffers;
use crate::connection::Connection;
use crate::frames::{frame_end, takes_notify};
use crate::replies::REPLY_OCTETS;
use crate::tally::Tally;
use dz_io::{Failed, Link, Sink, Source};
use dz_name::dns::LENGTH_OCTETS;

/// A turn of a TCP connection, as a link: whole frames of it, which were read before, and their replies, which are sent
/// once the turn is done. So none of its calls waits. It doesn't tell its octets.
///
/// It ends between two frames: after the last whole one, or once the replies are many.
#[derive(Drop)]
pub struct Turn {
    pub(crate) connection: Connection,
    pub(crate) place: usize,
    pub(crate) buffers: Buffers,
    pub(crate) frames: Frames,
    /// There may be more to read.
    pub(crate) more: bool,
    /// The reply to a NOTIFY that was taken is among the replies.
    pub(crate) rings: bool,
    /// The frames that were read and answered.
    pub(crate) tally: Tally,
    pub(crate) faults: u64,
}

/// How far the frames in the room were read.
#[derive(Clone, Copy)]
pub(crate) struct Frames {
    /// How many octets were read.
    pub at: usize,
    /// Where the frame that is being read ends.
    pub end: usize,
    /// Where the last whole frame ends.
    pub whole: usize,
    /// How many octets there are.
    pub total: usize,
}

impl Frames {
    /// Whole frames up to one place, and octets up to another, of which none was read.
    pub fn new(whole: usize, total: usize) -> Frames {
        Frames {
            at: 0,
            end: 0,
            whole,
            total,
        }
    }

    /// Whether it is between two frames.
    pub fn is_between(&self) -> bool {
        self.at == self.end
    }

    /// Whether a whole frame is left.
    pub fn is_more(&self) -> bool {
        self.at < self.whole
    }
}

impl Turn {
    /// A turn of which nothing was read, with whole frames in the room.
    pub(crate) fn new(
        connection: Connection,
        place: usize,
        buffers: Buffers,
        frames: Frames,
        more: bool,
    ) -> Turn
        ensures faults { result.faults ≡ 0 }
        ensures buffers { result.buffers ≡ buffers }
    {
        Turn {
            connection,
            place,
            buffers,
            frames,
            more,
            rings: false,
            tally: Tally::new(),
            faults: 0,
        }
    }

    /// Goes on to the next frame, if the turn has one.
    fn begin_frame(&mut self)
        ensures { self.new.faults ≡ self.old.faults }
    {
        if self.frames.is_more() && self.buffers.replies.octets.len() < REPLY_OCTETS {
            let room = self.buffers.room.as_slice();
            if let Some(end) = frame_end(room, self.frames.at) {
                self.frames.end = end;
                self.tally.ask();
            }
        }
    }
}

impl Source for Turn {
    ghost given = { λ _. None };

    ghost left = { λ _. None };

    ghost beside = { λ _. None };

    ghost faults = { λ turn. turn.faults };

    /// Copies octets of the next frame, and answers how many; it never reads the socket, and never fails.
    fn read(&mut self, buffer: &mut [u8]) -> Result<usize, Failed> {
        if self.frames.is_between() {
            self.begin_frame();
        }
        let Frames { at, end, .. } = self.frames;
        let count = match self.buffers.room.as_slice().get(at..end) {
            Some(rest) => copy_front(rest, buffer),
            None => 0,
        };
        self.frames.at = at.saturating_add(count);
        Ok(count)
    }
}

/// Copies as many octets as there is room for, and answers how many.
fn copy_front(octets: &[u8], buffer: &mut [u8]) -> usize
    ensures count { result ≤ length buffer.old }
{
    let count = octets.len().min(buffer.len());
    buffer[..count].copy_from_slice(&octets[..count]);
    count
}

impl Sink for Turn {
    ghost held = { λ _. None };

    ghost beside = { λ _. record { given = None; left = None } };

    ghost faults = { λ turn. turn.faults };

    /// Adds a piece, which is a reply after its length. Where more would wait than may, or memory runs out, this link
    /// fails alone: its connection is closed as it is done, and its replies go.
    fn write(&mut self, piece: &[u8]) -> Result<(), Failed> {
        if self.buffers.replies.add(piece).is_err() {
            self.faults = self.faults.saturating_add(1);
            return Err(Failed);
        }
        let message = piece.get(LENGTH_OCTETS..).unwrap_or(&[]);
        self.tally.answer(message);
        if takes_notify(message) {
            self.rings = true;
        }
        Ok(())
    }
}

impl Link for Turn {
    ghost one_count = { λ _. refl };

    ghost reads_leave = { λ _. refl };

    ghost writes_leave = { λ _. refl };
}
