//! Messages of a transfer that are built record by record (RFC 5936 section 2.2).

ghost use Rattle.std.specs.Prelude.{◌≡◌, ◌==◌, ℕ, List, ◌+◌, ◌≤◌, ◌++◌, ◌∷◌, [], false, length, take, drop};
ghost use Rattle.std.specs.Prelude.{option_map, if◌then◌else◌};
ghost use Rattle.std.specs.Option.{option_to_list};
ghost use Rattle.dz_header.specs.declared.question.Question.{Question};
ghost use Rattle.dz_record.specs.Record.{Record, record_octets};
ghost use Rattle.dz_message.specs.Writing.{message_octets, question_octets};
ghost use Rattle.dz_message.specs.Piece.{Holds, answer_message, begun_octets, head_octets, has_room};

use dz_header::{Header, Question, write_header};
use dz_name::dns::{HEADER_OCTETS, MESSAGE_OCTETS};
use dz_name::numbers::two;
use dz_record::Rr;
use std::marker::Model;

/// A message takes no further record that would make it longer than this many octets, unless it has none.
pub const PIECE_OCTETS: usize = 16_384;

/// QR and AA (RFC 5936 section 2.2.1).
pub const ANSWER_FLAGS: u16 = 0x8400;

/// The offset of ANCOUNT in a header (RFC 1035 section 4.1.1).
const COUNT_AT: usize = 6;

/// A message of a transfer that is built at the beginning of a buffer, which is given to each call: how many octets and
/// how many answer records it has so far.
#[derive(Debug, Drop)]
pub struct Piece {
    size: usize,
    count: u16,
}

impl Model for Piece {
    ghost use Rattle.dz_message.specs.Piece.{PieceState, IsPiece};

    ghost Value = { PieceState };

    ghost view = { λ p. record { size = p.size; count = p.count } };

    ghost invariant = { λ p. IsPiece (record { size = p.size; count = p.count }) };
}

impl Piece {
    /// Begins a message with this ID, with or without a question.
    pub fn begin(id: u16, question: Option<&Question>, out: &mut [u8]) -> Piece
        requires { length out.old ≡ MESSAGE_OCTETS }
        ensures holds { Holds result out.new id
            (option_to_list (option_map (λ q. q.now) question.entry)) [] }
        ensures short { result.size ≤ 271 }
    {
        match question {
            None => Piece::begin_bare(id, out),
            Some(question) => Piece::begin_asked(id, question, out),
        }
    }

    /// Begins a message without a question.
    fn begin_bare(id: u16, out: &mut [u8]) -> Piece
        requires { length out.old ≡ MESSAGE_OCTETS }
        ensures holds { Holds result out.new id [] [] }
        ensures short { result.size ≤ 271 }
    {
        put_head(id, 0, out);
        Piece {
            size: HEADER_OCTETS,
            count: 0,
        }
    }

    /// Begins a message with a question.
    fn begin_asked(id: u16, question: &Question, out: &mut [u8]) -> Piece
        requires { length out.old ≡ MESSAGE_OCTETS }
        ensures holds { Holds result out.new id (question.now ∷ []) [] }
        ensures short { result.size ≤ 271 }
    {
        put_head(id, 1, out);
        let size = put_question(question, out);
        Piece { size, count: 0 }
    }

    /// Whether there is room for a record of `more` octets: the message stays within 65,535 octets, and within 16,384
    /// unless it has no record.
    fn has_room(&self, more: usize) -> bool
        requires { more ≤ 131_072 }
        ensures { result ≡ has_room (self.now.count == 0) self.now.size more }
    {
        let size = self.size + more;
        size <= MESSAGE_OCTETS && (self.count == 0 || size <= PIECE_OCTETS)
    }

    /// Adds a record without pointers, if there is room for it, and returns whether there is. Without room nothing
    /// changes.
    pub fn add(&mut self, rr: &Rr, out: &mut [u8]) -> bool
        requires { length out.old ≡ MESSAGE_OCTETS }
        ensures room { result ≡ has_room (self.old.count == 0) self.old.size
            (length (record_octets rr.now)) }
        ensures holds { (id : ℕ) (questions : List Question) (answers : List Record)
            → Holds self.old out.old id questions answers
            → Holds self.new out.new id questions
            (if result then answers ++ rr.now ∷ [] else answers) }
        ensures same { result ≡ false → (self.new ≡ self.old) × (out.new ≡ out.old) }
    {
        let octets = rr.octets();
        if !self.has_room(octets.len()) {
            return false;
        }
        put_at(out, self.size, octets);
        self.size += octets.len();
        self.count += 1;
        true
    }

    /// Ends the message, and returns its number of octets, which are at the beginning of the buffer.
    pub fn end(self, out: &mut [u8]) -> usize
        requires { length out.old ≡ MESSAGE_OCTETS }
        ensures size { result ≡ self.size }
        ensures short { result ≤ MESSAGE_OCTETS }
        ensures octets { (id : ℕ) (questions : List Question) (answers : List Record)
            → Holds self out.old id questions answers
            → take result out.new ≡ message_octets (answer_message id questions answers) }
    {
        put_at(out, COUNT_AT, &two(self.count));
        self.size
    }
}

/// Writes the header to the beginning of the buffer, as that of a message without answers.
fn put_head(id: u16, asked: u16, out: &mut [u8])
    requires { length out.old ≡ MESSAGE_OCTETS }
    ensures { take HEADER_OCTETS out.new ≡ head_octets id asked }
{
    let header = Header {
        id,
        flags: ANSWER_FLAGS,
        counts: [asked, 0, 0, 0],
    };
    let mut octets = [0; HEADER_OCTETS];
    write_header(&header, &mut octets);
    put_at(out, 0, &octets);
}

/// Writes a question after the header, and returns the offset after it.
fn put_question(question: &Question, out: &mut [u8]) -> usize
    requires { length out.old ≡ MESSAGE_OCTETS }
    ensures place { result ≡ HEADER_OCTETS + length (question_octets question.now) }
    ensures octets { take result out.new
        ≡ take HEADER_OCTETS out.old ++ question_octets question.now }
    ensures within { result ≤ 271 }
{
    let wire = question.name.wire();
    let behind = HEADER_OCTETS + wire.len();
    put_at(out, HEADER_OCTETS, wire);
    put_at(out, behind, &two(question.kind));
    put_at(out, behind + 2, &two(question.class));
    behind + 4
}

/// Writes octets at an offset.
fn put_at(out: &mut [u8], at: usize, octets: &[u8])
    requires { at + length octets.now ≤ length out.old }
    ensures { out.new ≡ take at out.old
        ++ (octets.now ++ drop (at + length octets.now) out.old) }
{
    out[at..at + octets.len()].copy_from_slice(octets);
}
