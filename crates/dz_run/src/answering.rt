//! What `answer` does with a line: it takes a zone from the first, and answers each further one as a request.

ghost use Rattle.std.specs.Prelude.{◌≡◌, ◌++◌, [], ◌∷◌, Some, None, is_some, false, IfOk, codes, ◌≤◌, length};
ghost use Rattle.std.specs.Prelude.{option_map};
ghost use Rattle.std.specs.Arc.{arc_value};
ghost use Rattle.std.specs.Option.{ForSome};
ghost use Rattle.hex.specs.Hex.{encode_lower};
ghost use Rattle.dz_name.specs.Text.{text_of};
ghost use Rattle.dz_reply.specs.Reply.{reply_of};
ghost use Rattle.dz_name.specs.declared.dns.TheConstants.{MESSAGE_OCTETS};
ghost use Rattle.dz_message.specs.Frame.{frame};
ghost use Rattle.dz_take.specs.Fit.{Fits};
ghost use Rattle.dz_take.specs.Outcome.{outcome};
ghost use Rattle.dz_take.specs.Taken.{meaning_of};
ghost use Rattle.dz_script.specs.Hex.{octets_in};
ghost use Rattle.dz_run.specs.Answering.{bad, numbered_line, transfer_of, refusal, slot_for, taking_turn, zone_turn};
ghost use Rattle.dz_run.specs.Answering.{reply_text, request_turn, line_turn, answer_turn, turn_from};
ghost use Rattle.dz_run.specs.ZoneLine.{zone_line};

use crate::zone_line::read_zone_line;
use dz_header::{ReplyBuffer, Transport};
use dz_name::Name;
use dz_reply::{Turn, reply_into};
use dz_report::{joined, numbered, reason_of};
use dz_script::{is_skipped, read_octets};
use dz_table::{Slot, Table};
use dz_take::{Ask, Finished, Outcome, TakeFault, Taking};
use dz_zone::Version;
use std::alloc::{AllocError, Global};
use std::marker::Model;
use std::sync::Arc;

/// How the input of `answer` ends.
#[derive(Clone, Copy, Debug, PartialEq, Eq)]
pub enum End {
    Done,
    BadInput,
}

/// The table, once the first line was read, and the room for replies.
#[derive(Drop)]
pub struct Answering {
    table: Option<Table>,
    buffer: ReplyBuffer,
}

impl Model for Answering {
    ghost use Rattle.dz_run.specs.Answering.{State};

    ghost Value = { State };

    ghost view = { λ a. a.table };
}

/// A text to be written, and how it ends the input if it does.
#[derive(Drop)]
pub struct Saying {
    pub text: Vec<u8>,
    pub ending: Option<End>,
}

impl Answering {
    /// No zone yet, and a buffer for replies.
    pub fn new(buffer: ReplyBuffer) -> Answering
        ensures { result ≡ None }
    {
        Answering {
            table: None,
            buffer,
        }
    }

    /// Whether the zone's line was read.
    pub fn has_table(&self) -> bool
        ensures { result ≡ is_some self.now }
    {
        self.table.is_some()
    }

    /// Takes a line: what it says, and how it ends the input if it does.
    pub fn take_line(
        &mut self,
        alloc: Global,
        number: u64,
        line: &[u8],
    ) -> Result<Saying, AllocError>
        ensures { IfOk result (λ s. answer_turn self.old number line.now
            ≡ turn_from s.text.items s.ending self.new) }
    {
        if is_skipped(line) {
            return Ok(Saying {
                text: Vec::new(alloc),
                ending: None,
            });
        }
        self.take_content(alloc, number, line)
    }

    /// Takes a line that isn't skipped: the zone's, or a request.
    fn take_content(
        &mut self,
        alloc: Global,
        number: u64,
        line: &[u8],
    ) -> Result<Saying, AllocError>
        ensures { IfOk result (λ s. line_turn self.old number line.now
            ≡ turn_from s.text.items s.ending self.new) }
    {
        match &self.table {
            Some(table) => take_request(alloc, number, line, table, &mut self.buffer),
            None => self.take_first(alloc, number, line),
        }
    }

    /// Takes the first line.
    fn take_first(&mut self, alloc: Global, number: u64, line: &[u8]) -> Result<Saying, AllocError>
        requires { self.old ≡ None }
        ensures { IfOk result (λ s. zone_turn number (zone_line line.now)
            ≡ turn_from s.text.items s.ending self.new) }
    {
        match read_zone_line(alloc, line)? {
            None => say_bad(alloc, number),
            Some((apex, octets)) => self.take_message(alloc, &apex, octets.as_slice()),
        }
    }

    /// Takes the zone from its message.
    fn take_message(
        &mut self,
        alloc: Global,
        apex: &Name,
        octets: &[u8],
    ) -> Result<Saying, AllocError>
        requires none { self.old ≡ None }
        requires short { length octets.now ≤ MESSAGE_OCTETS }
        ensures { IfOk result (λ s.
            taking_turn apex.now (outcome (transfer_of apex.now) (frame octets.now))
            ≡ turn_from s.text.items s.ending self.new) }
    {
        let finished = take_zone(alloc, apex, octets)?;
        self.serve(alloc, apex, finished.outcome())
    }

    /// Serves the zone with what came of its transfer.
    fn serve(&mut self, alloc: Global, apex: &Name, outcome: &Outcome) -> Result<Saying, AllocError>
        requires none { self.old ≡ None }
        requires fits { Fits (transfer_of apex.now) (meaning_of outcome.now) }
        ensures { IfOk result (λ s. taking_turn apex.now (meaning_of outcome.now)
            ≡ turn_from s.text.items s.ending self.new) }
    {
        match outcome {
            Outcome::UpToDate => unreachable!(),
            Outcome::Refused(fault) => {
                self.table = Some(make_table(alloc, apex, None)?);
                say_refusal(alloc, fault)
            }
            Outcome::New(version) => {
                let serial = version.soa().serial;
                self.table = Some(make_table(alloc, apex, Some(version.clone()?))?);
                say(alloc, b"taken ", u64::from(serial))
            }
        }
    }
}

/// What comes of the one message of a transfer of the whole zone with ID 1 (RFC 5936).
fn take_zone(alloc: Global, apex: &Name, octets: &[u8]) -> Result<Finished, AllocError>
    requires { length octets.now ≤ MESSAGE_OCTETS }
    ensures transfer { IfOk result (λ f. f.transfer ≡ transfer_of apex.now) }
    ensures octets { IfOk result (λ f. f.octets ≡ frame octets.now) }
{
    let mut taking = Taking::start(alloc, *apex, Ask::Axfr, 1, None);
    taking.feed(octets)?;
    taking.finish()
}

/// Takes a line as a request to the table.
fn take_request(
    alloc: Global,
    number: u64,
    line: &[u8],
    table: &Table,
    buffer: &mut ReplyBuffer,
) -> Result<Saying, AllocError>
    ensures { IfOk result (λ s. request_turn table.now number (octets_in line.now)
        ≡ turn_from s.text.items s.ending (Some table.now)) }
{
    match read_octets(alloc, line)? {
        None => say_bad(alloc, number),
        Some(octets) => Ok(Saying {
            text: reply_text(alloc, table, octets.as_slice(), buffer)?,
            ending: None,
        }),
    }
}

/// The hex of the reply, `none` or `notify` with a name.
fn reply_text(
    alloc: Global,
    table: &Table,
    octets: &[u8],
    buffer: &mut ReplyBuffer,
) -> Result<Vec<u8>, AllocError>
    ensures { IfOk result (λ text. text.items
        ≡ reply_text (reply_of table.now octets.now 0 false)) }
{
    match reply_into(table, octets, 0, Transport::Udp, buffer) {
        Turn::Silent => Vec::from_slice(alloc, b"none\n"),
        Turn::Notify(name) => notify_text(alloc, &name),
        Turn::Written(count) => hex_text(alloc, buffer.reply(count)),
    }
}

/// `notify`, the name of the zone, and the end of the line.
fn notify_text(alloc: Global, name: &Name) -> Result<Vec<u8>, AllocError>
    ensures { IfOk result (λ text. text.items
        ≡ codes "notify " ++ (text_of name.now ++ (10 ∷ []))) }
{
    let mut text = Vec::from_slice(alloc, b"notify ")?;
    text.extend_from_slice(name.print().as_bytes())?;
    text.push(b'\n')?;
    Ok(text)
}

/// Octets in hex, and the end of the line.
fn hex_text(alloc: Global, octets: &[u8]) -> Result<Vec<u8>, AllocError>
    ensures { IfOk result (λ text. text.items ≡ encode_lower octets.now ++ (10 ∷ [])) }
{
    let mut text = hex::encode(alloc, octets)?.into_bytes();
    text.push(b'\n')?;
    Ok(text)
}

/// The table that holds one zone, refreshed at moment 0.
fn make_table(
    alloc: Global,
    apex: &Name,
    version: Option<Arc<Version>>,
) -> Result<Table, AllocError>
    requires { ForSome version (λ v. v.value.apex ≡ apex.now) }
    ensures { IfOk result (λ table. table ≡ slot_for apex.now (option_map arc_value version)) }
{
    let slot = Slot::new(alloc, apex, 0, version)?;
    table_of(alloc, slot)
}

/// The table of one slot.
fn table_of(alloc: Global, slot: Slot) -> Result<Table, AllocError>
    ensures { IfOk result (λ table. table ≡ slot ∷ []) }
{
    Table::empty(alloc).with_slot(alloc, slot)
}

/// Says why there is no version, and goes on.
fn say_refusal(alloc: Global, fault: &TakeFault) -> Result<Saying, AllocError>
    ensures { IfOk result (λ s. (s.text.items ≡ refusal fault.now) × (s.ending ≡ None)) }
{
    let mut text = joined(alloc, b"refused ", reason_of(alloc, fault)?.as_slice())?;
    text.push(b'\n')?;
    Ok(Saying { text, ending: None })
}

/// Says a word and a number, and goes on.
fn say(alloc: Global, word: &[u8], number: u64) -> Result<Saying, AllocError>
    ensures { IfOk result (λ s. (s.text.items ≡ numbered_line word.now number)
        × (s.ending ≡ None)) }
{
    Ok(Saying {
        text: numbered_line(alloc, word, number)?,
        ending: None,
    })
}

/// Says that a line is bad, and ends so.
pub fn say_bad(alloc: Global, number: u64) -> Result<Saying, AllocError>
    ensures { IfOk result (λ s. (s.text.items ≡ bad number) × (s.ending ≡ Some End.BadInput)) }
{
    Ok(Saying {
        text: numbered_line(alloc, b"bad ", number)?,
        ending: Some(End::BadInput),
    })
}

/// A word, a number in decimal, and the end of the line.
pub fn numbered_line(alloc: Global, word: &[u8], number: u64) -> Result<Vec<u8>, AllocError>
    ensures { IfOk result (λ text. text.items ≡ numbered_line word.now number) }
{
    let mut text = numbered(alloc, word, number)?;
    text.push(b'\n')?;
    Ok(text)
}
