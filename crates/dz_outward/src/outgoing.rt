//! A version on its way out.

ghost use Rattle.std.specs.Prelude.{◌≡◌, ◌≤◌, ◌<◌, ◌∷◌, ◌++◌, ◌==◌, ℕ, List, [], true, false, length, is_ok};
ghost use Rattle.std.specs.Prelude.{MatchOption, IfOk, Some};
ghost use Rattle.std.specs.List.{All};
ghost use Rattle.std.specs.Arc.{arc_value};
ghost use Rattle.dz_header.specs.declared.question.Question.{Question};
ghost use Rattle.dz_record.specs.Record.{Record, record_octets};
ghost use Rattle.dz_message.specs.Piece.{Holds, FitsAlone, has_room, packed};
ghost use Rattle.dz_zone.specs.Version.{IsVersion};
ghost use Rattle.dz_outward.specs.Stream.{messages_of, is_fit, is_other, question_of};
ghost use Rattle.dz_outward.specs.inner.Filled.{AddsUp, IsStopped, Gives, GivesNext, left_of, rest_of, IsOutgoing};

use crate::fit::is_fit;
use dz_header::{Question, Writer};
use dz_message::Piece;
use dz_name::dns::{CLASS_IN, MESSAGE_OCTETS, TYPE_AXFR, TYPE_SOA};
use dz_record::Rr;
use dz_zone::Version;
use std::marker::Model;
use std::sync::Arc;

/// A version that can't be sent: a record doesn't fit into a message without a question, or the frames together pass
/// 67,108,864 octets.
#[derive(Clone, Copy, Debug, PartialEq, Eq)]
pub struct Unfit;

/// How far a version was sent.
#[derive(Clone, Copy, Debug, PartialEq, Eq)]
pub(crate) enum Stage {
    /// Nothing was sent.
    Opening,
    /// The SOA was sent, and the other records up to a place.
    Body(usize),
    /// All was sent.
    Over,
}

/// A version on its way out, message by message (RFC 5936 section 2.2): the SOA, the other records in canonical order,
/// and the SOA again. Contracts see the messages that are left.
#[derive(Debug, Drop)]
pub struct Outgoing {
    version: Arc<Version>,
    id: u16,
    stage: Stage,
}

impl Model for Outgoing {
    ghost use Rattle.std.specs.Prelude.{List};
    ghost use Rattle.std.specs.Arc.{arc_value};
    ghost use Rattle.dz_message.specs.Message.{Content};
    ghost use Rattle.dz_outward.specs.inner.Filled.{left_of, IsOutgoing};

    ghost Value = { List Content };

    ghost view = { λ o. left_of (arc_value o.version) o.id o.stage };

    ghost invariant = { λ o. IsOutgoing (arc_value o.version) };
}

impl Outgoing {
    /// The stream of a version, under this ID. It takes no memory.
    ///
    /// # Errors
    ///
    /// `Unfit` where a record doesn't fit into a message, or the frames together pass 67,108,864 octets.
    pub fn start(version: Arc<Version>, id: u16) -> Result<Outgoing, Unfit>
        ensures fit { is_ok result ≡ is_fit (arc_value version) }
        ensures messages { IfOk result (λ o. o ≡ messages_of id (arc_value version)) }
        ensures version { IsVersion (arc_value version) }
    {
        if !is_fit(&version) {
            return Err(Unfit);
        }
        Ok(Outgoing {
            version,
            id,
            stage: Stage::Opening,
        })
    }

    /// Writes the next message to the beginning of a writer's room: how many octets it has. None exactly after the
    /// last.
    pub fn next(&mut self, writer: &mut Writer) -> Option<usize>
        ensures { MatchOption result ((self.old ≡ []) × (self.new ≡ []))
            (λ count. Gives self.old self.new count writer.new.room) }
    {
        let (out, _) = writer.room_mut().split_at_mut(MESSAGE_OCTETS);
        match write_next(&self.version, self.id, self.stage, out) {
            None => None,
            Some((count, stage)) => {
                self.stage = stage;
                Some(count)
            }
        }
    }
}

/// Writes the next message to the beginning of a buffer: how many octets it has, and how far the version was then sent.
fn write_next(version: &Version, id: u16, stage: Stage, out: &mut [u8]) -> Option<(usize, Stage)>
    requires room { length out.old ≡ MESSAGE_OCTETS }
    requires fit { IsOutgoing version.now }
    ensures { GivesNext result version.now id stage out.new }
{
    match stage {
        Stage::Over => None,
        Stage::Opening => Some(write_first(version, id, out)),
        Stage::Body(place) => {
            let piece = Piece::begin(id, None, out);
            Some(write_rest(version, id, place, piece, out))
        }
    }
}

/// Writes the first message: how many octets it has, and how far the version was then sent.
fn write_first(version: &Version, id: u16, out: &mut [u8]) -> (usize, Stage)
    requires room { length out.old ≡ MESSAGE_OCTETS }
    requires fit { IsOutgoing version.now }
    ensures { Gives (messages_of id version.now) (left_of version.now id result.1) result.0
        out.new }
{
    let question = Question {
        name: version.apex().to_name(),
        kind: TYPE_AXFR,
        class: CLASS_IN,
    };
    let soa = version.apex_soa();
    let mut piece = Piece::begin(id, Some(&question), out);
    piece.add(soa, out);
    write_rest(version, id, 0, piece, out)
}

/// Adds records from a place on, and the SOA after the last, as long as they have room, and ends the message.
fn write_rest(
    version: &Version,
    id: u16,
    place: usize,
    piece: Piece,
    out: &mut [u8],
) -> (usize, Stage)
    requires room { length out.old ≡ MESSAGE_OCTETS }
    requires fit { IsOutgoing version.now }
    ensures { (questions : List Question) (current : List Record)
        → Holds piece out.old id questions current
        → Gives (packed id questions current (rest_of version.now place))
        (left_of version.now id result.1) result.0 out.new }
{
    let mut piece = piece;
    let records = version.records();
    let place = add_others(records, place, &mut piece, out);
    if place < records.len() {
        return (piece.end(out), Stage::Body(place));
    }
    let stage = if piece.add(version.apex_soa(), out) {
        Stage::Over
    } else {
        Stage::Body(place)
    };
    (piece.end(out), stage)
}

/// Adds the records from a place on, except the SOA, as long as they have room: the place of the first that has none.
fn add_others(records: &[Rr], place: usize, piece: &mut Piece, out: &mut [u8]) -> usize
    requires { length out.old ≡ MESSAGE_OCTETS }
    ensures reaches { AddsUp piece.old out.old piece.new out.new records.now place result }
    ensures stopped { IsStopped piece.new records.now result }
{
    let mut place = place;
    'records: while place < records.len() {
        if !skip_or_add(&records[place], piece, out) {
            return place;
        }
        place += 1;
    }
    place
}

/// Adds a record where it isn't an SOA; false where it has no room.
fn skip_or_add(rr: &Rr, piece: &mut Piece, out: &mut [u8]) -> bool
    requires { length out.old ≡ MESSAGE_OCTETS }
    ensures reaches { result ≡ true
        → AddsUp piece.old out.old piece.new out.new (rr.now ∷ []) 0 1 }
    ensures same { result ≡ false → (piece.new ≡ piece.old) × (out.new ≡ out.old) }
    ensures stopped { result ≡ false → IsStopped piece.new (rr.now ∷ []) 0 }
{
    rr.kind() == TYPE_SOA || piece.add(rr, out)
}
