//! The messages of transfers, and requests.
ghost use Rattle.std.specs.Prelude.{◌≡◌, ◌≤◌, ◌++◌, [], ◌∷◌, length, IfOk, codes};
ghost use Rattle.dz_gen.specs.Records.{member, first_records, first_digest as first_digests};
ghost use Rattle.dz_gen.specs.Messages.{question, message, response, query, catalog_begins, catalog_member};
ghost use Rattle.dz_gen.specs.Messages.{catalog_ends, catalog_changes, part_of, whole_of, changes, changes_of};
ghost use Rattle.dz_message.specs.Writing.{message_octets};
ghost use Rattle.dz_message.specs.Answers.{IsWritten};
ghost use Rattle.dz_name.specs.Name.{IsName};

use crate::records::{
    catalog, first_digest, first_records, group, hourly, is_strict, mail, node, second_digest, soa,
    version_property, zone,
};
use crate::script::ZONES;
use crate::texts::named;
use dz_header::{Header, Question};
use dz_message::{Message, WriteError, push_frame, write_message};
use dz_name::dns::{CLASS_IN, MESSAGE_OCTETS, TYPE_A, TYPE_AXFR, TYPE_IXFR, TYPE_NS};
use dz_name::{Name, Octets};
use dz_record::Rr;
use std::alloc::{AllocError, Global};

/// QR and AA.
const RESPONSE: u16 = 0x8400;

/// One question of class IN.
fn question(alloc: Global, name: &Name, kind: u16) -> Result<Vec<Question>, AllocError>
    ensures { IfOk result (λ questions. questions.items ≡ question name.now kind ∷ []) }
{
    let mut questions = Vec::new(alloc);
    questions.push(Question {
        name: *name,
        kind,
        class: CLASS_IN,
    })?;
    Ok(questions)
}

/// A message that isn't too long.
fn message(
    alloc: Global,
    id: u16,
    flags: u16,
    questions: Vec<Question>,
    answers: Vec<Rr>,
) -> Result<Octets, AllocError>
    requires { length (message_octets (message id flags questions.items answers.items))
        ≤ MESSAGE_OCTETS }
    ensures written { IfOk result
        (λ octets. IsWritten (message id flags questions.items answers.items) (Ok octets)) }
{
    let counts = [questions.len() as u16, answers.len() as u16, 0, 0];
    let header = Header { id, flags, counts };
    match write_message(alloc, &Message::new(header, questions, answers)) {
        Ok(octets) => Ok(octets),
        Err(WriteError::OutOfMemory) => Err(AllocError),
        Err(WriteError::TooLong) => unreachable!(),
    }
}

/// A response, preceded by its length.
fn response(
    alloc: Global,
    id: u16,
    questions: Vec<Question>,
    answers: Vec<Rr>,
) -> Result<Vec<u8>, AllocError>
    requires { length (message_octets (message id RESPONSE questions.items answers.items))
        ≤ MESSAGE_OCTETS }
    ensures { IfOk result (λ octets. octets.items ≡ response id questions.items answers.items) }
{
    let octets = message(alloc, id, RESPONSE, questions, answers)?;
    let mut framed = Vec::new(alloc);
    push_frame(&mut framed, octets.as_slice())?;
    Ok(framed)
}

/// A query for an address.
pub(crate) fn query(alloc: Global, id: u16, name: &Name) -> Result<Octets, AllocError>
    requires { IsName name.now }
    ensures { IfOk result (λ octets. octets ≡ query id name.now) }
{
    message(
        alloc,
        id,
        0,
        question(alloc, name, TYPE_A)?,
        Vec::new(alloc),
    )
}

/// The first message of the catalog.
pub(crate) fn catalog_begins(alloc: Global) -> Result<Vec<u8>, AllocError>
    ensures { IfOk result (λ octets. octets.items ≡ catalog_begins) }
{
    let apex = catalog();
    let server = named(b"invalid.").wire().to_vec(alloc)?;
    let mut answers = Vec::new(alloc);
    answers.push(soa(alloc, &apex, 1)?)?;
    answers.push(hourly(alloc, apex, TYPE_NS, server)?)?;
    answers.push(version_property(alloc)?)?;
    response(alloc, 1, question(alloc, &apex, TYPE_AXFR)?, answers)
}

/// The message with a zone's member node.
pub(crate) fn catalog_member(alloc: Global, k: u16) -> Result<Vec<u8>, AllocError>
    requires some { 1 ≤ k }
    requires few { k ≤ ZONES }
    ensures { IfOk result (λ octets. octets.items ≡ catalog_member k) }
{
    let answers = member(alloc, k)?;
    response(alloc, 1, Vec::new(alloc), answers)
}

/// The records of a zone's member node.
fn member(alloc: Global, k: u16) -> Result<Vec<Rr>, AllocError>
    requires some { 1 ≤ k }
    requires few { k ≤ ZONES }
    ensures { IfOk result (λ answers. answers.items ≡ member k) }
{
    let mut answers = Vec::new(alloc);
    answers.push(node(alloc, b"m", k)?)?;
    if is_strict(k) {
        answers.push(group(alloc, k)?)?;
    }
    Ok(answers)
}

/// The last message of the catalog.
pub(crate) fn catalog_ends(alloc: Global) -> Result<Vec<u8>, AllocError>
    ensures { IfOk result (λ octets. octets.items ≡ catalog_ends) }
{
    let mut answers = Vec::new(alloc);
    answers.push(soa(alloc, &catalog(), 1)?)?;
    response(alloc, 1, Vec::new(alloc), answers)
}

/// The differences that bring the first member under another label.
pub(crate) fn catalog_changes(alloc: Global, id: u16) -> Result<Vec<u8>, AllocError>
    ensures { IfOk result (λ octets. octets.items ≡ catalog_changes id) }
{
    let apex = catalog();
    let mut answers = Vec::new(alloc);
    answers.push(soa(alloc, &apex, 2)?)?;
    answers.push(soa(alloc, &apex, 1)?)?;
    answers.push(node(alloc, b"m", 1)?)?;
    answers.push(group(alloc, 1)?)?;
    answers.push(soa(alloc, &apex, 2)?)?;
    answers.push(node(alloc, b"r", 1)?)?;
    answers.push(soa(alloc, &apex, 2)?)?;
    response(alloc, id, question(alloc, &apex, TYPE_IXFR)?, answers)
}

/// The version of a zone with serial 1, without the closing SOA.
pub(crate) fn part_of(alloc: Global, id: u16, k: u16) -> Result<Vec<u8>, AllocError>
    requires some { 1 ≤ k }
    requires few { k ≤ ZONES }
    ensures { IfOk result (λ octets. octets.items ≡ part_of id k) }
{
    let apex = zone(alloc, k)?;
    let answers = first_answers(alloc, k)?;
    response(alloc, id, question(alloc, &apex, TYPE_AXFR)?, answers)
}

/// The version of a zone with serial 1.
pub(crate) fn whole_of(alloc: Global, id: u16, k: u16) -> Result<Vec<u8>, AllocError>
    requires some { 1 ≤ k }
    requires few { k ≤ ZONES }
    ensures { IfOk result (λ octets. octets.items ≡ whole_of id k) }
{
    let apex = zone(alloc, k)?;
    let mut answers = first_answers(alloc, k)?;
    answers.push(soa(alloc, &apex, 1)?)?;
    response(alloc, id, question(alloc, &apex, TYPE_AXFR)?, answers)
}

/// The records of serial 1, with their digest.
fn first_answers(alloc: Global, k: u16) -> Result<Vec<Rr>, AllocError>
    requires some { 1 ≤ k }
    requires few { k ≤ ZONES }
    ensures { IfOk result (λ answers. answers.items ≡ first_records k ++ first_digests k) }
{
    let mut answers = first_records(alloc, k)?;
    if is_strict(k) {
        answers.push(first_digest(alloc, k)?)?;
    }
    Ok(answers)
}

/// The differences of a zone from serial 1 to serial 2.
pub(crate) fn changes_of(alloc: Global, id: u16, k: u16) -> Result<Vec<u8>, AllocError>
    requires some { 1 ≤ k }
    requires few { k ≤ ZONES }
    ensures { IfOk result (λ octets. octets.items ≡ changes_of id k) }
{
    let apex = zone(alloc, k)?;
    let answers = changes(alloc, k)?;
    response(alloc, id, question(alloc, &apex, TYPE_IXFR)?, answers)
}

/// The records of those differences.
fn changes(alloc: Global, k: u16) -> Result<Vec<Rr>, AllocError>
    requires some { 1 ≤ k }
    requires few { k ≤ ZONES }
    ensures { IfOk result (λ answers. answers.items ≡ changes k) }
{
    let apex = zone(alloc, k)?;
    let mut changes = Vec::new(alloc);
    changes.push(soa(alloc, &apex, 2)?)?;
    changes.push(soa(alloc, &apex, 1)?)?;
    if is_strict(k) {
        changes.push(first_digest(alloc, k)?)?;
    }
    changes.push(soa(alloc, &apex, 2)?)?;
    changes.push(mail(alloc, k)?)?;
    if is_strict(k) {
        changes.push(second_digest(alloc, k)?)?;
    }
    changes.push(soa(alloc, &apex, 2)?)?;
    Ok(changes)
}
