//! A message of a transfer after others (RFC 5936 section 2.2, RFC 1995 section 4).

ghost use Rattle.std.specs.Prelude.{◌≡◌, ◌==◌, ◌+◌, ◌++◌, ◌<◌, ◌^◌, ◌≤◌, length, IfOk};
ghost use Rattle.dz_take.specs.Outcome.{responds, is_asked, fits_question};
ghost use Rattle.dz_take.specs.inner.Following.{Judges, JudgesOctets, IsUndecided, IsUnreadable};

use crate::outcome::{Outcome, TakeFault};
use crate::state::{State, feed};
use crate::transfer::Transfer;
use dz_header::{Question, ResponseCode};
use dz_message::{Message, MessageError, read_message};
use dz_name::dns::{CLASS_IN, LENGTH_OCTETS, MESSAGE_OCTETS, OPCODE_QUERY, TRANSFER_OCTETS};
use std::alloc::{AllocError, Global};

/// Judges the octets of a message that follows the given number of octets of the stream. `AllocError` where memory runs
/// out.
pub(crate) fn judge(
    alloc: Global,
    transfer: &Transfer,
    used: usize,
    state: State,
    message: &[u8],
) -> Result<State, AllocError>
    requires undecided { IsUndecided transfer.now state }
    requires short { length message.now ≤ MESSAGE_OCTETS }
    requires used { used < 2 ^ 63 }
    ensures { IfOk result (JudgesOctets transfer.now used state message.now) }
{
    if TRANSFER_OCTETS < used + LENGTH_OCTETS + message.len() {
        return Ok(State::Ended(Outcome::Refused(TakeFault::TooLong)));
    }
    match read_message(alloc, message) {
        Ok(content) => judge_content(alloc, transfer, used == 0, state, content),
        Err(error) => Ok(State::Ended(unreadable(error)?)),
    }
}

/// Judges a message, once it is read. `AllocError` where memory runs out.
fn judge_content(
    alloc: Global,
    transfer: &Transfer,
    is_first: bool,
    state: State,
    message: Message,
) -> Result<State, AllocError>
    requires { IsUndecided transfer.now state }
    ensures { IfOk result (Judges transfer.now is_first state message) }
{
    if !responds(transfer.id(), &message) {
        return Ok(State::Ended(Outcome::Refused(TakeFault::WrongId)));
    }
    let code = message.header().code();
    if code != ResponseCode::NoError.number() {
        return Ok(State::Ended(Outcome::Refused(TakeFault::Rcode(code as u8))));
    }
    if !fits_question(transfer, is_first, message.questions()) {
        return Ok(State::Ended(Outcome::Refused(TakeFault::WrongQuestion)));
    }
    feed(alloc, transfer, state, message.into_answers())
}

/// The outcome of octets that aren't a message. `AllocError` where memory ran out.
fn unreadable(error: MessageError) -> Result<Outcome, AllocError>
    ensures { IfOk result (λ o. IsUnreadable error o) }
{
    match error {
        MessageError::Fault(fault) => Ok(Outcome::Refused(TakeFault::Message(fault))),
        MessageError::OutOfMemory => Err(AllocError),
    }
}

/// Whether the message is a response with opcode QUERY to this ID.
fn responds(id: u16, message: &Message) -> bool
    ensures { result ≡ responds id message.now }
{
    let header = message.header();
    header.id == id && header.is_response() && header.opcode() == OPCODE_QUERY
}

/// Whether the first message repeats the question of the query, and each other has it or none.
fn fits_question(transfer: &Transfer, is_first: bool, questions: &[Question]) -> bool
    ensures { result ≡ fits_question transfer.now is_first questions.now }
{
    match questions {
        [] => !is_first,
        [question] => is_asked(transfer, question),
        _ => false,
    }
}

/// Whether the question is that of the query.
fn is_asked(transfer: &Transfer, question: &Question) -> bool
    ensures { result ≡ is_asked transfer.now question.now }
{
    question.name.same(transfer.apex())
        && question.kind == transfer.ask().kind()
        && question.class == CLASS_IN
}
