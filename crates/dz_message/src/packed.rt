//! Records packed into messages, one after the other (RFC 5936 section 2.2).

ghost use Rattle.std.specs.Prelude.{◌≡◌, ◌≤◌, ◌++◌, ◌∷◌, ℕ, List, [], length, IfOk, OnOk, take};
ghost use Rattle.std.specs.List.{All};
ghost use Rattle.dz_header.specs.declared.question.Question.{Question};
ghost use Rattle.dz_record.specs.Record.{Record};
ghost use Rattle.dz_message.specs.Frame.{stream, frame};
ghost use Rattle.dz_message.specs.Piece.{packed, written, Holds, FitsAlone, GoesOn, answer_message};
ghost use Rattle.dz_message.specs.Writing.{message_octets};

use crate::frame::push_frame;
use crate::piece::Piece;
use dz_header::Question;
use dz_name::Octets;
use dz_name::dns::MESSAGE_OCTETS;
use dz_record::Rr;
use std::alloc::{AllocError, Global};

/// Packs records into messages with this ID, each preceded by its length. The first message has the question. Each
/// record fits into a message without a question.
///
/// # Errors
///
/// `AllocError` where memory runs out.
pub fn pack(
    alloc: Global,
    id: u16,
    question: &Question,
    records: &[Rr],
) -> Result<Octets, AllocError>
    requires { All FitsAlone records.now }
    ensures { IfOk result (λ octets. octets
        ≡ stream (written (packed id (question.now ∷ []) [] records.now))) }
{
    let mut out = Vec::new(alloc);
    let mut buffer = Vec::from_elem(alloc, 0, MESSAGE_OCTETS)?;
    put_all(id, question, records, buffer.as_mut_slice(), &mut out)?;
    Ok(Octets::from_vec(out))
}

/// Appends the messages to `out`. `AllocError` where memory runs out.
fn put_all(
    id: u16,
    question: &Question,
    records: &[Rr],
    buffer: &mut [u8],
    out: &mut Vec<u8>,
) -> Result<(), AllocError>
    requires room { length buffer.old ≡ MESSAGE_OCTETS }
    requires fits { All FitsAlone records.now }
    ensures { OnOk result (out.new.items
        ≡ out.old.items ++ stream (written (packed id (question.now ∷ []) [] records.now))) }
{
    let mut piece = Piece::begin(id, Some(question), buffer);
    'records: for rr in records {
        piece = put(id, piece, rr, buffer, out)?;
    }
    end(piece, buffer, out)
}

/// Adds a record, or ends the message and begins the next one with it. `AllocError` where memory runs out.
fn put(
    id: u16,
    piece: Piece,
    rr: &Rr,
    buffer: &mut [u8],
    out: &mut Vec<u8>,
) -> Result<Piece, AllocError>
    requires room { length buffer.old ≡ MESSAGE_OCTETS }
    requires fits { FitsAlone rr.now }
    ensures { IfOk result (λ next. (questions : List Question) (current : List Record)
        → Holds piece buffer.old id questions current
        → GoesOn next buffer.new out.old.items out.new.items id questions current rr.now) }
{
    let mut piece = piece;
    if piece.add(rr, buffer) {
        return Ok(piece);
    }
    end(piece, buffer, out)?;
    begin_with(id, rr, buffer)
}

/// Begins a message with a record, which fits. It never fails.
fn begin_with(id: u16, rr: &Rr, buffer: &mut [u8]) -> Result<Piece, AllocError>
    requires room { length buffer.old ≡ MESSAGE_OCTETS }
    requires fits { FitsAlone rr.now }
    ensures { IfOk result (λ next. Holds next buffer.new id [] (rr.now ∷ [])) }
{
    let mut next = Piece::begin(id, None, buffer);
    next.add(rr, buffer);
    Ok(next)
}

/// Ends a message, and appends it to the others. `AllocError` where memory runs out.
fn end(piece: Piece, buffer: &mut [u8], out: &mut Vec<u8>) -> Result<(), AllocError>
    requires room { length buffer.old ≡ MESSAGE_OCTETS }
    ensures { OnOk result ((id : ℕ) (questions : List Question) (current : List Record)
        → Holds piece buffer.old id questions current
        → out.new.items ≡ out.old.items
        ++ frame (message_octets (answer_message id questions current))) }
{
    let size = piece.end(buffer);
    push_frame(out, &buffer[..size])
}
