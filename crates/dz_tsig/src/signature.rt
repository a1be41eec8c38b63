//! The TSIG of a message.

ghost use Rattle.std.specs.Prelude.{◌≡◌, ◌<◌, ◌≤◌, ◌+◌, ◌==◌, ◌&&◌, length, drop, option_map, IfSome};
ghost use Rattle.dz_header.specs.Shape.{behind_owner};
ghost use Rattle.dz_tsig.specs.Signature.{after_question, after_questions, count_in, found, signature_among};
ghost use Rattle.dz_tsig.specs.Signature.{signature_after, signature_of};
ghost use Rattle.dz_tsig.specs.inner.Places.{IsPlaced};

use crate::tsig::{Tsig, tsig_at};
use dz_header::{Header, QUESTION_OCTETS, Shape, read_header, read_shape};
use dz_name::dns::{HEADER_OCTETS, LABEL_OCTETS};

/// The type of TSIG records (RFC 8945 section 4.2).
pub(crate) const TYPE_TSIG: u16 = 250;
/// The class of TSIG records, ANY (RFC 8945 section 4.2).
pub(crate) const CLASS_ANY: u16 = 255;
/// The least first octet of a compression pointer (RFC 1035 section 4.1.4).
const POINTER: usize = 192;

/// The TSIG of a message.
#[derive(Debug, Drop)]
pub(crate) enum Signature<'m> {
    /// It has none.
    Absent,
    /// It has one that isn't its last record, or that can't be read; or the octets aren't a message.
    Malformed,
    /// It has one; whether its MAC is right isn't known.
    Present(Tsig<'m>),
}

/// The TSIG of a message.
pub(crate) fn signature_of(message: &[u8]) -> Signature<'_>
    ensures value { result ≡ signature_of message.now }
    ensures placed { IsPlaced message.now result }
{
    match read_header(message) {
        None => Signature::Malformed,
        Some(header) => signature_after(message, header),
    }
}

/// The TSIG of a message with this header.
fn signature_after(message: &[u8], header: Header) -> Signature<'_>
    requires { HEADER_OCTETS ≤ length message.now }
    ensures value { result ≡ signature_after message.now header
        (after_questions (count_in header 0) (drop HEADER_OCTETS message.now)) }
    ensures placed { IsPlaced message.now result }
{
    match skip_questions(message.split_at(HEADER_OCTETS).1, header.counts[0]) {
        None => Signature::Malformed,
        Some(records) => signature_among(
            message,
            header.counts[3] != 0,
            header.counts[1] as u32 + header.counts[2] as u32 + header.counts[3] as u32,
            records,
        ),
    }
}

/// The TSIG among the given number of records at the end of a message; `is_additional` says whether the last of them is
/// an additional one.
fn signature_among<'m>(
    message: &'m [u8],
    is_additional: bool,
    count: u32,
    records: &'m [u8],
) -> Signature<'m>
    requires { length records.now + HEADER_OCTETS ≤ length message.now }
    ensures value { result ≡ signature_among message.now is_additional count records.now }
    ensures placed { IsPlaced message.now result }
{
    let mut rest = records;
    'records: for number in 0..count {
        let (shape, rdata, after) = match read_shape(rest) {
            None => return Signature::Malformed,
            Some(found) => found,
        };
        if shape.head.kind == TYPE_TSIG {
            let is_last = is_last(is_additional, number, count);
            return found(message, is_last, rest, (shape, rdata, after));
        }
        rest = after;
    }
    if rest.is_empty() {
        Signature::Absent
    } else {
        Signature::Malformed
    }
}

/// Whether the record of this number is the last additional one.
fn is_last(is_additional: bool, number: u32, count: u32) -> bool
    requires { number < count }
    ensures { result ≡ (is_additional && (number + 1 == count)) }
{
    is_additional && number + 1 == count
}

/// A record of type TSIG at the beginning of octets: `parts` is its shape, its RDATA and what follows.
fn found<'m>(
    message: &'m [u8],
    is_last: bool,
    octets: &[u8],
    parts: (Shape, &[u8], &[u8]),
) -> Signature<'m>
    requires octets { length octets.now + HEADER_OCTETS ≤ length message.now }
    requires rdata { length parts.1.now ≤ length message.now }
    ensures value { result ≡ found message.now is_last octets.now
        (parts.entry.0, parts.entry.1.now, parts.entry.2.now) }
    ensures placed { IsPlaced message.now result }
{
    let (shape, rdata, after) = parts;
    if !(is_last && after.is_empty()) {
        return Signature::Malformed;
    }
    match tsig_at(message, message.len() - octets.len(), shape.head, rdata) {
        None => Signature::Malformed,
        Some(tsig) => Signature::Present(tsig),
    }
}

/// What follows the given number of questions; none where they can't be read.
#[tactic(auto, using(crate::proofs::SignatureLemmas::question_step, crate::proofs::SignatureLemmas::question_done))]
fn skip_questions(octets: &[u8], count: u16) -> Option<&[u8]>
    ensures value { option_map (λ rest. rest.now) result ≡ after_questions count octets.now }
    ensures within { IfSome result (λ rest. length rest.now ≤ length octets.now) }
{
    let mut rest = octets;
    'questions: for _ in 0..count {
        rest = after_question(rest)?;
    }
    Some(rest)
}

/// What follows a question; none where it can't be read.
fn after_question(octets: &[u8]) -> Option<&[u8]>
    ensures value { option_map (λ rest. rest.now) result
        ≡ after_question (behind_owner 0 octets.now) }
    ensures within { IfSome result (λ rest. length rest.now ≤ length octets.now) }
{
    let rest = behind_owner(octets)?;
    if rest.len() < QUESTION_OCTETS {
        None
    } else {
        Some(rest.split_at(QUESTION_OCTETS).1)
    }
}

/// What follows a name, by its shape; none where it can't be read. `dz_header` does this for the owner name of a
/// record, and keeps it to itself.
#[tactic(auto, using(dz_header::proofs::ShapeLemmas::owner_none, dz_header::proofs::ShapeLemmas::owner_ends, dz_header::proofs::ShapeLemmas::owner_label, dz_header::proofs::ShapeLemmas::owner_cut, dz_header::proofs::ShapeLemmas::owner_bad, dz_header::proofs::ShapeLemmas::owner_half, dz_header::proofs::ShapeLemmas::owner_points))]
fn behind_owner(octets: &[u8]) -> Option<&[u8]>
    ensures value { option_map (λ rest. rest.now) result ≡ behind_owner 0 octets.now }
    ensures within { IfSome result (λ rest. length rest.now ≤ length octets.now) }
{
    let mut rest = octets;
    'labels: while !rest.is_empty() {
        let size = rest[0] as usize;
        if size == 0 {
            return Some(rest.split_at(1).1);
        }
        if size <= LABEL_OCTETS {
            if rest.len() <= size {
                return None;
            }
            rest = rest.split_at(size + 1).1;
        } else if size < POINTER {
            return None;
        } else if rest.len() == 1 {
            return None;
        } else {
            return Some(rest.split_at(2).1);
        }
    }
    None
}
