//! Questions.

ghost use Rattle.std.specs.Prelude.{◌≡◌, ◌+◌, ◌<◌, ◌≤◌, length, IfOk, Ok};
ghost use Rattle.dz_header.specs.Question.{question_at, question_behind};

use dz_name::numbers::number_of_two;
use dz_name::{NAME_LOOKS, Name, Wire, WireFault};
use dz_steps::Steps;
use std::sync::ledger::Ledger;

/// How many octets the type and the class of a question have (RFC 1035 section 4.1.2).
pub const QUESTION_OCTETS: usize = 4;

/// A question: name, type and class (RFC 1035 section 4.1.2).
#[derive(Clone, Copy, Debug)]
pub struct Question {
    pub name: Name,
    pub kind: u16,
    pub class: u16,
}

/// Reads the question at an offset of some octets (RFC 1035 section 4.1.2), and returns it with the offset after it. It
/// is for octets in which few names are read: each chain of pointers is followed anew.
///
/// # Errors
///
/// The first fault of its name, or else `Short` where type and class aren't complete.
pub fn read_question(message: &[u8], at: usize) -> Result<(Question, usize), WireFault>
    ensures reads { result ≡ question_at message.now at }
    ensures place { IfOk result (λ r. (at + QUESTION_OCTETS < r.1) × (r.1 ≤ length message.now)) }
{
    match Name::read_at(message, at) {
        Ok((name, end)) => question_behind(message, &name, end),
        Err(fault) => Err(fault),
    }
}

/// The same, with the same errors, without following any chain of pointers: the table of the message gives its end. A
/// step is one look at a label of the name, a pointer or the zero octet.
pub fn counted_question<L: Ledger>(
    message: &Wire<'_>,
    at: usize,
    steps: &mut Steps<L>,
) -> Result<(Question, usize), WireFault>
    ensures reads { result ≡ question_at message.now at }
    ensures place { IfOk result (λ r. (at + QUESTION_OCTETS < r.1) × (r.1 ≤ length message.now)) }
    ensures counted { steps.old ≤ steps.new }
    ensures most { steps.new ≤ steps.old + NAME_LOOKS }
    ensures least { IfOk result (λ r. steps.old + length r.0.name < steps.new) }
{
    match Name::read_in(message, at, steps) {
        Ok((name, end)) => question_behind(message.octets(), &name, end),
        Err(fault) => Err(fault),
    }
}

/// The question of a name that ends at an offset, with the type and the class that follow, and the offset after these;
/// `Short` where they aren't complete.
fn question_behind(message: &[u8], name: &Name, end: usize) -> Result<(Question, usize), WireFault>
    requires { end ≤ length message.now }
    ensures reads { result ≡ question_behind message.now (Ok (name.now, end)) }
    ensures name { IfOk result (λ r. r.0.name ≡ name.now) }
    ensures place { IfOk result (λ r. r.1 ≡ end + QUESTION_OCTETS) }
    ensures within { IfOk result (λ r. r.1 ≤ length message.now) }
{
    if message.len() - end < QUESTION_OCTETS {
        return Err(WireFault::Short);
    }
    let behind = message.split_at(end).1;
    let question = Question {
        name: *name,
        kind: number_of_two(behind),
        class: number_of_two(behind.split_at(2).1),
    };
    Ok((question, end + QUESTION_OCTETS))
}
