//! How many octets the messages have into which records are packed.

ghost use Rattle.std.specs.Prelude.{◌≡◌, ◌≤◌, ◌<◌, ◌+◌, ◌^◌, length};
ghost use Rattle.dz_record.specs.Record.{record_octets};
ghost use Rattle.dz_message.specs.Piece.{has_room, nothing_counted, tallied, total_of};

use crate::piece::PIECE_OCTETS;
use dz_name::dns::{HEADER_OCTETS, LENGTH_OCTETS, MESSAGE_OCTETS};
use dz_record::Rr;
use std::marker::Model;

/// Counts the octets of the messages, each preceded by its length, into which records are packed as [`crate::Piece`]
/// takes them, without writing any message.
#[derive(Debug, Drop)]
pub struct Tally {
    before: usize,
    size: usize,
    is_empty: bool,
}

impl Model for Tally {
    ghost use Rattle.dz_message.specs.Piece.{TallyState, tally_of};

    ghost Value = { TallyState };

    ghost view = { λ t. tally_of t.before t.size t.is_empty };
}

impl Tally {
    /// A first message without a record, whose question has the given number of octets.
    pub fn new(question: usize) -> Tally
        requires { question < 2 ^ 32 }
        ensures { result ≡ nothing_counted question }
    {
        Tally {
            before: 0,
            size: HEADER_OCTETS + question,
            is_empty: true,
        }
    }

    /// Counts one more record.
    pub fn add(&mut self, rr: &Rr)
        requires { total_of self.old < 2 ^ 62 }
        ensures { self.new ≡ tallied self.old (length (record_octets rr.now)) }
    {
        let more = rr.octets().len();
        if self.has_room(more) {
            self.size += more;
        } else {
            self.before = self.total();
            self.size = HEADER_OCTETS + more;
        }
        self.is_empty = false;
    }

    /// Whether the last message has room for a record of `more` octets, as in [`crate::Piece`].
    fn has_room(&self, more: usize) -> bool
        requires more { more ≤ 131_072 }
        requires few { total_of self.now < 2 ^ 62 }
        ensures { result ≡ has_room self.now.is_empty self.now.size more }
    {
        let size = self.size + more;
        size <= MESSAGE_OCTETS && (self.is_empty || size <= PIECE_OCTETS)
    }

    /// How many octets all messages so far have, including the length before each.
    pub fn total(&self) -> usize
        requires { total_of self.now < 2 ^ 63 }
        ensures { result ≡ total_of self.now }
    {
        self.before + (LENGTH_OCTETS + self.size)
    }
}
