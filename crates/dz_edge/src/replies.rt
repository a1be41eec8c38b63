//! The replies of a turn.
ghost use Rattle.std.specs.Prelude.{◌≡◌, ◌<◌, ◌≤◌, ◌+◌, ◌++◌, ◌↔◌, [], Err, OnOk, OnErr, IsTrue, length, vec_capacity};
ghost use Rattle.dz_edge.specs.declared.waiting.TheConstants.{WAITING_OCTETS};

use crate::frames::FRAME_OCTETS;
use crate::waiting::Waiting;
use std::alloc::{AllocError, Global};

/// A turn takes no further frame once its replies have this many octets.
pub(crate) const REPLY_OCTETS: usize = 16_384;

/// Room for the replies of a turn without a zone's stream.
pub(crate) const ROOM_OCTETS: usize = REPLY_OCTETS + FRAME_OCTETS;

/// The replies of a worker's turns, in one room for all: a turn begins and ends with none.
///
/// A room that is too small grows by a quarter, and to ROOM_OCTETS at least. So it is no larger than that, or than the
/// replies and a quarter of them.
#[derive(Drop)]
pub(crate) struct Replies {
    pub octets: Vec<u8>,
    /// What waits at the other connections of the worker.
    beside: Waiting,
}

/// Why a piece isn't added to replies.
#[derive(Clone, Copy, Debug, PartialEq, Eq)]
pub(crate) enum Refused {
    /// More octets would wait than may.
    Full,
    /// Out of memory.
    Memory,
}

impl Replies {
    /// No replies, and room for them.
    pub fn new(alloc: Global) -> Result<Replies, AllocError> {
        Ok(Replies {
            octets: Vec::with_capacity(alloc, ROOM_OCTETS)?,
            beside: Waiting::new(),
        })
    }

    /// Begins a turn, while this much waits at the other connections.
    pub fn begin(&mut self, beside: Waiting)
        ensures octets { self.new.octets.items ≡ [] }
        ensures beside { self.new.beside ≡ beside }
    {
        self.octets.clear();
        self.beside = beside;
    }

    /// Adds a piece, all of it or nothing.
    ///
    /// # Errors
    ///
    /// `Full` where what waits at the other connections, the replies and the piece are more together than may wait.
    pub fn add(&mut self, piece: &[u8]) -> Result<(), Refused>
        ensures ok { OnOk result (self.new.octets.items ≡ self.old.octets.items ++ piece.now) }
        ensures full { (result ≡ Err Refused.Full) ↔ (WAITING_OCTETS
            < self.old.beside.octets + length self.old.octets.items + length piece.now) }
        ensures err { OnErr result (self.new.octets.items ≡ self.old.octets.items) }
        ensures beside { self.new.beside ≡ self.old.beside }
    {
        if !self.has_room(piece.len()) {
            return Err(Refused::Full);
        }
        if self.grow(piece.len()).is_err() || self.octets.extend_from_slice(piece).is_err() {
            return Err(Refused::Memory);
        }
        Ok(())
    }

    /// Whether this many octets more may wait.
    fn has_room(&self, count: usize) -> bool
        ensures { IsTrue result ↔ (self.now.beside.octets + length self.now.octets.items + count
            ≤ WAITING_OCTETS) }
    {
        match self.octets.len().checked_add(count) {
            Some(sum) => self.beside.has_room(sum),
            None => false,
        }
    }

    /// Makes room for this many octets more.
    fn grow(&mut self, count: usize) -> Result<(), AllocError>
        ensures octets { self.new.octets.items ≡ self.old.octets.items }
        ensures beside { self.new.beside ≡ self.old.beside }
    {
        let held = self.octets.len();
        if count <= self.octets.capacity() - held {
            return Ok(());
        }
        let spare = ROOM_OCTETS.saturating_sub(held).max(held / 4);
        self.octets.reserve_exact(count.max(spare))
    }

    /// Ends a turn: the replies go, and with them a room that has grown for a zone's stream.
    pub fn end(&mut self, alloc: Global)
        ensures octets { self.new.octets.items ≡ [] }
        ensures room { vec_capacity self.new.octets ≤ ROOM_OCTETS }
    {
        self.octets.clear();
        if self.octets.capacity() > ROOM_OCTETS {
            self.octets = Vec::new(alloc);
        }
    }
}
