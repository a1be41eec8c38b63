ghost use Rattle.std.specs.Prelude.{◌≡◌, ◌<◌, ◌≤◌, ◌+◌, ◌-◌, ◌*◌, ◌++◌, length, min, drop, true, false, IfOk, IfErr};
ghost use Rattle.std.specs.Prelude.{OnOk};
ghost use Rattle.dz_record.specs.Fields.{is_rdata};
ghost use Rattle.dz_record.specs.Record.{is_bad_type};
ghost use Rattle.dz_header.specs.Shape.{behind_records};
ghost use Rattle.std.specs.List.{sum_by};
ghost use Rattle.dz_message.specs.Looks.{looks_of, looks_of_field, looks_of_kind, looks_of_questions};
ghost use Rattle.dz_message.specs.Looks.{looks_of_answers, fewest_looks};
ghost use Rattle.dz_message.specs.Message.{Content};
ghost use Rattle.dz_message.specs.Reading.{question_in, head_at, octets_at, name_within, field_at, rdata_at, rdata_of};
ghost use Rattle.dz_message.specs.Reading.{record_at, many, ended, content_of, message_of};
ghost use Rattle.dz_message.specs.Answers.{Gives, Appends, AppendsOne, EndsWell};
ghost use Rattle.dz_message.specs.Spelling.{Spells};
ghost use Rattle.dz_message.specs.Answers.{SpellsNone};

use crate::fault::{MessageError, MessageFault};
use crate::message::Message;
use dz_header::{
    HEAD_OCTETS, Header, Question, RecordHead, counted_question, counted_skip, read_head,
    read_header,
};
use dz_name::dns::{CLASS_IN, HEADER_OCTETS, MESSAGE_OCTETS};
use dz_name::{NAME_LOOKS, Name, POINTER_REACH, Wire, landings_of};
use dz_record::{Field, Rr, fields_of, is_bad_type};
use dz_steps::Steps;
use std::alloc::Global;
use std::marker::Brand;
use std::sync::ledger::{Blank, Ledger};

/// The most steps that reading a message takes for each of its octets and once more: those of the names, and two for
/// the table of where chains of pointers end.
pub const LOOKS: usize = 258;

/// Reads the message that the octets spell (RFC 1035 section 4.1). Names are given in lower case with their pointers
/// followed, and RDATA in canonical form. The records of the authority and additional sections are skipped by their
/// shape.
///
/// # Errors
///
/// The first fault from left to right, or out of memory.
pub fn read_message(alloc: Global, octets: &[u8]) -> Result<Message, MessageError>
    ensures reads { Gives (λ m. m) result (message_of octets.now) }
    ensures spells { IfOk result (λ m. Spells octets.now m) }
    ensures once { IfOk result (λ m. (other : Content) → Spells octets.now other → other ≡ m) }
    ensures none { IfErr result (λ e. SpellsNone octets.now e) }
{
    read_from::<Brand>(Blank::new(1), alloc, octets)
}

/// The same as [`read_message`], counted in a ledger that is still blank.
fn read_from<L: Ledger>(blank: Blank, alloc: Global, octets: &[u8]) -> Result<Message, MessageError>
    requires name { blank.name ≡ L.name }
    requires parts { blank.parts ≡ L.parts }
    requires whole { blank.parts ≡ 1 }
    ensures reads { Gives (λ m. m) result (message_of octets.now) }
    ensures spells { IfOk result (λ m. Spells octets.now m) }
    ensures once { IfOk result (λ m. (other : Content) → Spells octets.now other → other ≡ m) }
    ensures none { IfErr result (λ e. SpellsNone octets.now e) }
{
    let mut steps = Steps::<L>::new(blank);
    counted_read(alloc, octets, &mut steps)
}

/// The same as [`read_message`], with the same errors. A step is one look at a label, a pointer or a length octet, or
/// at one offset in making the table of where chains of pointers end: at most [`LOOKS`] for each octet and once more,
/// whatever the octets are.
#[tactic(auto, using(crate::proofs::SpellingLemmas::read_spells, crate::proofs::SpellingLemmas::read_once, crate::proofs::SpellingLemmas::read_none))]
pub fn counted_read<L: Ledger>(
    alloc: Global,
    octets: &[u8],
    steps: &mut Steps<L>,
) -> Result<Message, MessageError>
    ensures reads { Gives (λ m. m) result (message_of octets.now) }
    ensures spells { IfOk result (λ m. Spells octets.now m) }
    ensures once { IfOk result (λ m. (other : Content) → Spells octets.now other → other ≡ m) }
    ensures none { IfErr result (λ e. SpellsNone octets.now e) }
    ensures counted { steps.old ≤ steps.new }
    ensures most { steps.new ≤ steps.old + LOOKS * (length octets.now + 1) }
    ensures least { IfOk result
        (λ m. steps.old + min (length octets.now) POINTER_REACH + fewest_looks m ≤ steps.new) }
{
    read_whole(alloc, octets, steps)
}

/// Reads the header, and then what follows it. The error is the first fault, or out of memory.
fn read_whole<L: Ledger>(
    alloc: Global,
    octets: &[u8],
    steps: &mut Steps<L>,
) -> Result<Message, MessageError>
    ensures reads { Gives (λ m. m) result (message_of octets.now) }
    ensures counted { steps.old ≤ steps.new }
    ensures most { steps.new ≤ steps.old + LOOKS * (length octets.now + 1) }
    ensures least { IfOk result
        (λ m. steps.old + min (length octets.now) POINTER_REACH + fewest_looks m ≤ steps.new) }
{
    match read_header(octets) {
        None => Err(MessageError::Fault(MessageFault::ShortHeader)),
        Some(header) => read_content(alloc, octets, header, steps),
    }
}

/// Reads the sections after the header. The error is the first fault, or out of memory.
fn read_content<L: Ledger>(
    alloc: Global,
    octets: &[u8],
    header: Header,
    steps: &mut Steps<L>,
) -> Result<Message, MessageError>
    requires { HEADER_OCTETS ≤ length octets.now }
    ensures reads { Gives (λ m. m) result (content_of octets.now header) }
    ensures counted { steps.old ≤ steps.new }
    ensures most { steps.new ≤ steps.old + LOOKS * (length octets.now + 1) }
    ensures least { IfOk result
        (λ m. steps.old + min (length octets.now) POINTER_REACH + fewest_looks m ≤ steps.new) }
{
    let landings = landings_of(alloc, octets, steps)?;
    let message = Wire::with_landings(octets, &landings);
    let (questions, at) = read_questions(alloc, &message, header.counts[0], HEADER_OCTETS, steps)?;
    let (answers, at) = read_answers(alloc, &message, header.counts[1], at, steps)?;
    let others = header.counts[2] as u32 + header.counts[3] as u32;
    read_end(octets, at, others, steps)?;
    Ok(Message::new(header, questions, answers))
}

/// Skips the records that aren't answers; `Wire` where one isn't complete, `Trailing` where octets follow the last.
fn read_end<L: Ledger>(
    octets: &[u8],
    at: usize,
    count: u32,
    steps: &mut Steps<L>,
) -> Result<(), MessageFault>
    requires { at ≤ length octets.now }
    ensures ends { EndsWell result (ended (behind_records count (drop at octets.now))) }
    ensures counted { steps.old ≤ steps.new }
    ensures most { steps.new ≤ steps.old + (length octets.now - at) }
{
    match counted_skip(octets.split_at(at).1, count, steps) {
        None => Err(MessageFault::Wire),
        Some(rest) if rest.is_empty() => Ok(()),
        Some(_) => Err(MessageFault::Trailing),
    }
}

/// Reads the given number of questions, and returns them with the offset after them. The error is the first fault, or
/// out of memory.
fn read_questions<L: Ledger>(
    alloc: Global,
    message: &Wire<'_>,
    count: u16,
    at: usize,
    steps: &mut Steps<L>,
) -> Result<(Vec<Question>, usize), MessageError>
    requires { at ≤ length message.now }
    ensures reads { Gives (λ x. (x.0.items, x.1)) result (many (question_in message.now) count at) }
    ensures within { IfOk result (λ x. x.1 ≤ length message.now) }
    ensures counted { steps.old ≤ steps.new }
    ensures most { steps.new ≤ steps.old + NAME_LOOKS * (length message.now - at + 1) }
    ensures passed { IfOk result
        (λ x. steps.new + NAME_LOOKS * at ≤ steps.old + NAME_LOOKS * x.1) }
    ensures least { IfOk result (λ x. steps.old + looks_of_questions x.0.items ≤ steps.new) }
{
    let mut questions = Vec::new(alloc);
    let mut offset = at;
    'questions: for _ in 0..count {
        let (question, behind) = read_question_in(message, offset, steps)?;
        questions.push(question)?;
        offset = behind;
    }
    Ok((questions, offset))
}

/// Reads the question at an offset, and returns it with the offset after it; every fault is `Wire`.
fn read_question_in<L: Ledger>(
    message: &Wire<'_>,
    at: usize,
    steps: &mut Steps<L>,
) -> Result<(Question, usize), MessageFault>
    ensures reads { result ≡ question_in message.now at }
    ensures within { IfOk result (λ x. x.1 ≤ length message.now) }
    ensures counted { steps.old ≤ steps.new }
    ensures most { steps.new ≤ steps.old + NAME_LOOKS }
    ensures passed { IfOk result (λ x. at < x.1) }
    ensures least { IfOk result (λ x. steps.old + looks_of x.0.name ≤ steps.new) }
{
    match counted_question(message, at, steps) {
        Ok(found) => Ok(found),
        Err(_) => Err(MessageFault::Wire),
    }
}

/// Reads the given number of answer records, and returns them with the offset after them. The error is the first fault,
/// or out of memory.
fn read_answers<L: Ledger>(
    alloc: Global,
    message: &Wire<'_>,
    count: u16,
    at: usize,
    steps: &mut Steps<L>,
) -> Result<(Vec<Rr>, usize), MessageError>
    requires { at ≤ length message.now }
    ensures reads { Gives (λ x. (x.0.items, x.1)) result (many (record_at message.now) count at) }
    ensures within { IfOk result (λ x. x.1 ≤ length message.now) }
    ensures counted { steps.old ≤ steps.new }
    ensures most { steps.new ≤ steps.old + NAME_LOOKS * (length message.now - at + 1) }
    ensures passed { IfOk result
        (λ x. steps.new + NAME_LOOKS * at ≤ steps.old + NAME_LOOKS * x.1) }
    ensures least { IfOk result (λ x. steps.old + looks_of_answers x.0.items ≤ steps.new) }
{
    let mut answers = Vec::new(alloc);
    let mut rdata = Vec::new(alloc);
    let mut offset = at;
    'answers: for _ in 0..count {
        let (record, behind) = read_record(alloc, message, offset, &mut rdata, steps)?;
        answers.push(record)?;
        offset = behind;
    }
    Ok((answers, offset))
}

/// Reads the record at an offset, and returns it with the offset after it. Its RDATA is put together in `rdata`, whatever
/// that had. The error is the first fault, or out of memory.
fn read_record<L: Ledger>(
    alloc: Global,
    message: &Wire<'_>,
    at: usize,
    rdata: &mut Vec<u8>,
    steps: &mut Steps<L>,
) -> Result<(Rr, usize), MessageError>
    ensures reads { Gives (λ x. (x.0, x.1)) result (record_at message.now at) }
    ensures within { IfOk result (λ x. x.1 ≤ length message.now) }
    ensures counted { steps.old ≤ steps.new }
    ensures most { steps.new ≤ steps.old + NAME_LOOKS * (length message.now - at + 1) }
    ensures passed { IfOk result
        (λ x. steps.new + NAME_LOOKS * at ≤ steps.old + NAME_LOOKS * x.1) }
    ensures least { IfOk result
        (λ x. steps.old + (looks_of x.0.owner + looks_of_kind x.0.kind) ≤ steps.new) }
{
    let (owner, at) = Name::read_in(message, at, steps)?;
    let head = read_head_at(message.octets(), at)?;
    read_rdata(message, at + HEAD_OCTETS, head, rdata, steps)?;
    Ok((
        Rr::from_parts(alloc, &owner, head.kind, head.ttl, rdata.as_slice())?,
        at + HEAD_OCTETS + head.size as usize,
    ))
}

/// Reads type, class, TTL and length of RDATA after an owner name; `Wire` where they aren't complete.
fn read_head_at(message: &[u8], at: usize) -> Result<RecordHead, MessageFault>
    requires { at ≤ length message.now }
    ensures reads { result ≡ head_at message.now at }
    ensures within { OnOk result (at + HEAD_OCTETS ≤ length message.now) }
{
    match read_head(message.split_at(at).1) {
        None => Err(MessageFault::Wire),
        Some(head) => Ok(head),
    }
}

/// Puts the RDATA that begins at an offset into `out`, in canonical form, in place of what that had. A bad type or class
/// is `BadType`, before the RDATA is read.
fn read_rdata<L: Ledger>(
    message: &Wire<'_>,
    at: usize,
    head: RecordHead,
    out: &mut Vec<u8>,
    steps: &mut Steps<L>,
) -> Result<(), MessageError>
    requires { at ≤ length message.now }
    ensures reads { Gives (λ _. out.new.items) result (rdata_of message.now at head) }
    ensures fits { OnOk result (is_rdata head.kind out.new.items ≡ true) }
    ensures kind { OnOk result (is_bad_type head.kind ≡ false) }
    ensures within { OnOk result (at + head.size ≤ length message.now) }
    ensures counted { steps.old ≤ steps.new }
    ensures most { steps.new ≤ steps.old + NAME_LOOKS * (length message.now - at + 1) }
    ensures passed { OnOk result (steps.new ≤ steps.old + NAME_LOOKS * head.size) }
    ensures least { OnOk result (steps.old + looks_of_kind head.kind ≤ steps.new) }
{
    if head.class != CLASS_IN || is_bad_type(head.kind) {
        return Err(MessageError::Fault(MessageFault::BadType));
    }
    let size = head.size as usize;
    if message.octets().len() - at < size {
        return Err(MessageError::Fault(MessageFault::Wire));
    }
    out.clear();
    let span = Span { at, end: at + size };
    read_fields(message, span, fields_of(head.kind), out, steps)?;
    if out.len() > MESSAGE_OCTETS {
        return Err(MessageError::Fault(MessageFault::BadRdata));
    }
    Ok(())
}

/// The part of a message that is read: from an offset up to another.
#[derive(Clone, Copy, Debug)]
struct Span {
    at: usize,
    end: usize,
}

/// Appends the canonical form of the fields that fill a span; `BadRdata` where they don't fit exactly.
fn read_fields<L: Ledger>(
    message: &Wire<'_>,
    span: Span,
    fields: &[Field],
    out: &mut Vec<u8>,
    steps: &mut Steps<L>,
) -> Result<(), MessageError>
    requires start { span.at ≤ span.end }
    requires end { span.end ≤ length message.now }
    ensures reads { Appends out.old.items out.new.items result
        (rdata_at message.now span.at span.end fields.now) }
    ensures counted { steps.old ≤ steps.new }
    ensures most { steps.new ≤ steps.old + NAME_LOOKS * (span.end - span.at + 1) }
    ensures passed { OnOk result
        (steps.new + NAME_LOOKS * span.at ≤ steps.old + NAME_LOOKS * span.end) }
    ensures least { OnOk result (steps.old + sum_by looks_of_field fields.now ≤ steps.new) }
{
    let mut offset = span.at;
    'fields: for field in fields {
        let rest = Span {
            at: offset,
            end: span.end,
        };
        offset = read_field(message, rest, *field, out, steps)?;
    }
    if offset == span.end {
        Ok(())
    } else {
        Err(MessageError::Fault(MessageFault::BadRdata))
    }
}

/// Appends the canonical form of the field at the beginning of a span, and returns the offset after it. The error is
/// its fault, or out of memory.
fn read_field<L: Ledger>(
    message: &Wire<'_>,
    span: Span,
    field: Field,
    out: &mut Vec<u8>,
    steps: &mut Steps<L>,
) -> Result<usize, MessageError>
    requires start { span.at ≤ span.end }
    requires end { span.end ≤ length message.now }
    ensures reads { AppendsOne out.old.items out.new.items result
        (field_at message.now span.at span.end field) }
    ensures within { IfOk result (λ next. next ≤ span.end) }
    ensures counted { steps.old ≤ steps.new }
    ensures most { steps.new ≤ steps.old + NAME_LOOKS }
    ensures passed { IfOk result
        (λ next. steps.new + NAME_LOOKS * span.at ≤ steps.old + NAME_LOOKS * next) }
    ensures least { OnOk result (steps.old + looks_of_field field ≤ steps.new) }
{
    let octets = message.octets();
    match field {
        Field::FixedLength(count) => read_octets(octets, span, count as usize, out),
        Field::DomainName => read_name(message, span, out, steps),
        Field::CharacterString if span.at < span.end => {
            steps.tick();
            read_octets(octets, span, octets[span.at] as usize + 1, out)
        }
        Field::CharacterString => Err(MessageError::Fault(MessageFault::BadRdata)),
        Field::Remainder => read_octets(octets, span, span.end - span.at, out),
    }
}

/// Appends octets of RDATA as they are, and returns the offset after them; `BadRdata` where they pass its end.
fn read_octets(
    message: &[u8],
    span: Span,
    count: usize,
    out: &mut Vec<u8>,
) -> Result<usize, MessageError>
    requires start { span.at ≤ span.end }
    requires end { span.end ≤ length message.now }
    ensures reads { AppendsOne out.old.items out.new.items result
        (octets_at message.now span.at span.end count) }
    ensures within { IfOk result (λ next. next ≤ span.end) }
    ensures next { IfOk result (λ next. next ≡ span.at + count) }
{
    if span.end - span.at < count {
        return Err(MessageError::Fault(MessageFault::BadRdata));
    }
    out.extend_from_slice(message.split_at(span.at).1.split_at(count).0)?;
    Ok(span.at + count)
}

/// Appends the canonical form of a name in RDATA, and returns the offset after it; `BadRdata` where it passes its end.
fn read_name<L: Ledger>(
    message: &Wire<'_>,
    span: Span,
    out: &mut Vec<u8>,
    steps: &mut Steps<L>,
) -> Result<usize, MessageError>
    requires start { span.at ≤ span.end }
    requires end { span.end ≤ length message.now }
    ensures reads { AppendsOne out.old.items out.new.items result
        (name_within message.now span.at span.end) }
    ensures within { IfOk result (λ next. next ≤ span.end) }
    ensures counted { steps.old ≤ steps.new }
    ensures most { steps.new ≤ steps.old + NAME_LOOKS }
    ensures passed { IfOk result (λ next. span.at < next) }
    ensures least { OnOk result (steps.old < steps.new) }
{
    let (name, next) = Name::read_in(message, span.at, steps)?;
    if span.end < next {
        return Err(MessageError::Fault(MessageFault::BadRdata));
    }
    out.extend_from_slice(name.wire())?;
    Ok(next)
}
