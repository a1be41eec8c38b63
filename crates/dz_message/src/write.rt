ghost use Rattle.std.specs.Prelude.{◌≡◌, ◌++◌, IfOk, OnOk, Ok, Err};
ghost use Rattle.std.specs.List.{flat_map, All};
ghost use Rattle.dz_header.specs.Header.{header_octets};
ghost use Rattle.dz_record.specs.Record.{record_octets, IsRecord};
ghost use Rattle.dz_message.specs.Spelling.{Spells};
ghost use Rattle.dz_message.specs.Writing.{question_octets, message_octets, CountsAgree, IsAsking, IsHeader};
ghost use Rattle.dz_message.specs.Writing.{IsHeldMessage};
ghost use Rattle.dz_message.specs.Answers.{IsWritten};

use crate::fault::WriteError;
use crate::message::Message;
use dz_header::{Header, Question, write_header};
use dz_name::Octets;
use dz_name::dns::MESSAGE_OCTETS;
use dz_name::numbers::two;
use dz_record::Rr;
use std::alloc::{AllocError, Global};

/// The octets of a message, with names without pointers.
///
/// # Errors
///
/// `TooLong` where the message has more than 65,535 octets; or out of memory.
pub fn write_message(alloc: Global, message: &Message) -> Result<Octets, WriteError>
    requires { CountsAgree message.now }
    ensures octets { IsWritten message.now result }
    ensures spells { IfOk result (λ octets. Spells octets message.now) }
{
    let mut out = Vec::new(alloc);
    write_all(message, &mut out)?;
    if out.len() > MESSAGE_OCTETS {
        return Err(WriteError::TooLong);
    }
    Ok(Octets::from_vec(out))
}

/// Appends the octets of a message. `AllocError` where memory runs out.
fn write_all(message: &Message, out: &mut Vec<u8>) -> Result<(), AllocError>
    ensures octets { OnOk result (out.new.items ≡ out.old.items ++ message_octets message.now) }
    ensures held { OnOk result (IsHeldMessage message.now) }
{
    write_head(message.header(), out)?;
    write_questions(message.questions(), out)?;
    write_answers(message.answers(), out)?;
    Ok(())
}

/// Appends the twelve octets of a header. `AllocError` where memory runs out.
pub(crate) fn write_head(header: Header, out: &mut Vec<u8>) -> Result<(), AllocError>
    ensures octets { OnOk result (out.new.items ≡ out.old.items ++ header_octets header) }
    ensures held { OnOk result (IsHeader header) }
{
    let Header { id, flags, counts } = header;
    prove!(id <= 65_535);
    prove!(flags <= 65_535);
    prove!(counts[0] <= 65_535);
    prove!(counts[1] <= 65_535);
    prove!(counts[2] <= 65_535);
    prove!(counts[3] <= 65_535);
    let mut octets = [0; 12];
    write_header(&header, &mut octets);
    out.extend_from_slice(&octets)
}

/// Appends questions. `AllocError` where memory runs out.
fn write_questions(questions: &[Question], out: &mut Vec<u8>) -> Result<(), AllocError>
    ensures octets { OnOk result
        (out.new.items ≡ out.old.items ++ flat_map question_octets questions.now) }
    ensures held { OnOk result (All IsAsking questions.now) }
{
    'questions: for question in questions {
        write_question(question, out)?;
    }
    Ok(())
}

/// Appends records without pointers. `AllocError` where memory runs out.
fn write_answers(answers: &[Rr], out: &mut Vec<u8>) -> Result<(), AllocError>
    ensures octets { OnOk result
        (out.new.items ≡ out.old.items ++ flat_map record_octets answers.now) }
    ensures held { OnOk result (All IsRecord answers.now) }
{
    'answers: for answer in answers {
        write_answer(answer, out)?;
    }
    Ok(())
}

/// Appends a record without pointers. `AllocError` where memory runs out.
pub(crate) fn write_answer(answer: &Rr, out: &mut Vec<u8>) -> Result<(), AllocError>
    ensures octets { OnOk result (out.new.items ≡ out.old.items ++ record_octets answer.now) }
    ensures held { OnOk result (IsRecord answer.now) }
{
    answer.encode(out)
}

/// Appends a question without pointers. `AllocError` where memory runs out.
pub(crate) fn write_question(question: &Question, out: &mut Vec<u8>) -> Result<(), AllocError>
    ensures octets { OnOk result (out.new.items ≡ out.old.items ++ question_octets question.now) }
    ensures held { OnOk result (IsAsking question.now) }
{
    out.extend_from_slice(question.name.wire())?;
    out.extend_from_slice(&two(question.kind))?;
    out.extend_from_slice(&two(question.class))
}
