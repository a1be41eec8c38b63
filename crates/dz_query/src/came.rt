//! Messages that are read from a link.

ghost use Rattle.std.specs.Prelude.{◌≡◌, ◌≤◌, length};
ghost use Rattle.dz_name.specs.Numbers.{two, number_of_two};
ghost use Rattle.dz_name.specs.declared.dns.TheConstants.{MESSAGE_OCTETS};
ghost use Rattle.dz_name.specs.declared.dns.TheConstants.{LENGTH_OCTETS};
ghost use Rattle.dz_header.specs.declared.writer.TheConstants.{BUFFER_OCTETS};
ghost use Rattle.dz_io.specs.Counts.{HasRisen};
ghost use Rattle.dz_query.specs.inner.Coming.{IsFilled, HasCome};

use dz_io::{Failed, Source};
use dz_name::dns::LENGTH_OCTETS;
use dz_name::numbers::number_of_two;

/// How far a buffer was filled.
#[derive(Clone, Copy)]
pub(crate) enum Filled {
    Whole,
    Ended,
    Failed,
}

/// What came over a link.
#[derive(Clone, Copy)]
pub(crate) enum Came {
    /// A message of this many octets, at the front of the buffer.
    Message(usize),
    /// The link ended, in a message or between two.
    Ended,
    /// A read failed.
    Failed,
}

/// Reads a message after its length into the front of the buffer.
pub(crate) fn read_message<S: Source>(source: &mut S, request: &mut Vec<u8>) -> Came
    requires { length request.old.items ≡ BUFFER_OCTETS }
    ensures came { HasCome result request.new.items (S.given source.old) (S.given source.new)
        (S.left source.new) }
    ensures beside { S.beside source.new ≡ S.beside source.old }
    ensures room { length request.new.items ≡ BUFFER_OCTETS }
    ensures later { S.faults source.old ≤ S.faults source.new }
    ensures fault { result ≡ Came.Failed → HasRisen (S.faults source.old) (S.faults source.new) }
{
    let mut front = [0; LENGTH_OCTETS];
    match fill(source, &mut front) {
        Filled::Ended => return Came::Ended,
        Filled::Failed => return Came::Failed,
        Filled::Whole => {}
    }
    let size = size_of(&front);
    let (message, _) = request.as_mut_slice().split_at_mut(size);
    match fill(source, message) {
        Filled::Ended => Came::Ended,
        Filled::Failed => Came::Failed,
        Filled::Whole => Came::Message(size),
    }
}

/// The length, in octets, that precedes a message (RFC 1035 section 4.2.2).
fn size_of(front: &[u8]) -> usize
    requires { length front.now ≡ LENGTH_OCTETS }
    ensures number { result ≡ number_of_two front.now }
    ensures back { two result ≡ front.now }
    ensures fits { result ≤ MESSAGE_OCTETS }
{
    number_of_two(front) as usize
}

/// Reads until a buffer is full, or the source ends or fails.
#[tactic(auto, using(crate::proofs::GainLemmas::gains_none, crate::proofs::ComingLemmas::fills_more))]
fn fill<S: Source>(source: &mut S, buffer: &mut [u8]) -> Filled
    ensures filled { IsFilled result buffer.new (S.given source.old) (S.given source.new)
        (S.left source.new) }
    ensures beside { S.beside source.new ≡ S.beside source.old }
    ensures later { S.faults source.old ≤ S.faults source.new }
    ensures fault { result ≡ Filled.Failed → HasRisen (S.faults source.old) (S.faults source.new) }
{
    let mut at = 0;
    'pieces: while at < buffer.len() {
        let (_, rest) = buffer.split_at_mut(at);
        match source.read(rest) {
            Err(Failed) => return Filled::Failed,
            Ok(0) => return Filled::Ended,
            Ok(count) => at += count,
        }
    }
    Filled::Whole
}
