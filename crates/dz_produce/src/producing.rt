//! What `produce` does with a line.

ghost use Rattle.std.specs.Prelude.{◌≡◌, ◌∷◌, [], Some, None, IfOk};
ghost use Rattle.dz_produce.specs.Producing.{begun, with_member, without, changed, unless_faulty, drop_turn};
ghost use Rattle.dz_produce.specs.Producing.{first_turn, next_turn, form_turn, produce_turn, produce_finish};
ghost use Rattle.dz_produce.specs.Producing.{turn_from, text_of};

use crate::line::{Line, read_line};
use crate::making::Making;
use crate::saying::{ProduceEnd, Saying, bad_line, end_badly, go_on};
use dz_member::Node;
use dz_name::{Label, Name};
use dz_script::is_skipped;
use std::alloc::{AllocError, Global};
use std::marker::Model;

/// What `produce` goes on with: a catalog, once its line is there.
#[derive(Drop)]
pub(crate) struct Producing {
    making: Option<Making>,
}

impl Model for Producing {
    ghost use Rattle.dz_produce.specs.Producing.{State};

    ghost Value = { State };

    ghost view = { λ p. p.making };
}

impl Producing {
    /// No catalog yet.
    pub(crate) fn new() -> Producing
        ensures { result ≡ None }
    {
        Producing { making: None }
    }

    /// Takes a line: what it says, and how it ends the input if it does.
    pub(crate) fn take_line(
        &mut self,
        alloc: Global,
        number: u64,
        line: &[u8],
    ) -> Result<Saying, AllocError>
        ensures { IfOk result (λ s. produce_turn self.old number line.now
            ≡ turn_from s.text.items s.ending self.new) }
    {
        if is_skipped(line) {
            return Ok(go_on(Vec::new(alloc)));
        }
        match read_line(alloc, line)? {
            None => end_badly(Vec::new(alloc), number),
            Some(line) => self.take_form(alloc, number, line),
        }
    }

    /// Takes a line that has a form.
    fn take_form(&mut self, alloc: Global, number: u64, line: Line) -> Result<Saying, AllocError>
        ensures { IfOk result (λ s. form_turn self.old number line
            ≡ turn_from s.text.items s.ending self.new) }
    {
        match &mut self.making {
            Some(making) => take_next(alloc, number, line, making),
            None => self.take_first(alloc, number, line),
        }
    }

    /// Takes the first line.
    fn take_first(&mut self, alloc: Global, number: u64, line: Line) -> Result<Saying, AllocError>
        requires { self.old ≡ None }
        ensures { IfOk result (λ s. first_turn number line
            ≡ turn_from s.text.items s.ending self.new) }
    {
        match line {
            Line::Catalog(apex, serial) => self.begin(alloc, number, apex, serial),
            Line::Member(_) | Line::Drop(_) | Line::Change(_) => {
                end_badly(Vec::new(alloc), number)
            }
        }
    }

    /// Begins a catalog without nodes; where the apex has a fault, the line is bad.
    fn begin(
        &mut self,
        alloc: Global,
        number: u64,
        apex: Name,
        serial: u32,
    ) -> Result<Saying, AllocError>
        requires { self.old ≡ None }
        ensures { IfOk result (λ s. unless_faulty None number [] (begun apex serial)
            ≡ turn_from s.text.items s.ending self.new) }
    {
        match Making::begin(alloc, apex, serial)? {
            None => end_badly(Vec::new(alloc), number),
            Some(making) => {
                self.making = Some(making);
                Ok(go_on(Vec::new(alloc)))
            }
        }
    }

    /// Ends the input: what is said at last, and how it ends.
    pub(crate) fn finish(
        &self,
        alloc: Global,
        number: u64,
    ) -> Result<(Vec<u8>, ProduceEnd), AllocError>
        ensures { IfOk result (λ r. produce_finish self.now number
            ≡ record { text = r.0.items; state = self.now; ending = r.1 }) }
    {
        match &self.making {
            None => Ok((bad_line(alloc, number)?, ProduceEnd::BadInput)),
            Some(making) => Ok((making.line(alloc)?, ProduceEnd::Done)),
        }
    }
}

/// Takes a line after the first.
fn take_next(
    alloc: Global,
    number: u64,
    line: Line,
    making: &mut Making,
) -> Result<Saying, AllocError>
    ensures { IfOk result (λ s. next_turn making.old number line
        ≡ turn_from s.text.items s.ending (Some making.new)) }
{
    match line {
        Line::Catalog(_, _) => end_badly(Vec::new(alloc), number),
        Line::Member(node) => add(alloc, number, node, making),
        Line::Drop(label) => drop_label(alloc, number, label, making),
        Line::Change(serial) => change(alloc, number, serial, making),
    }
}

/// Adds a node.
fn add(alloc: Global, number: u64, node: Node, making: &mut Making) -> Result<Saying, AllocError>
    ensures { IfOk result (λ s. unless_faulty (Some making.old) number []
        (with_member making.old node) ≡ turn_from s.text.items s.ending (Some making.new)) }
{
    if making.add(alloc, node)? {
        Ok(go_on(Vec::new(alloc)))
    } else {
        end_badly(Vec::new(alloc), number)
    }
}

/// Drops the node of a label.
fn drop_label(
    alloc: Global,
    number: u64,
    label: Label,
    making: &mut Making,
) -> Result<Saying, AllocError>
    ensures { IfOk result (λ s. drop_turn making.old number label
        ≡ turn_from s.text.items s.ending (Some making.new)) }
{
    if making.drop_label(alloc, label)? {
        Ok(go_on(Vec::new(alloc)))
    } else {
        end_badly(Vec::new(alloc), number)
    }
}

/// Writes the catalog, and begins a change.
fn change(
    alloc: Global,
    number: u64,
    serial: u32,
    making: &mut Making,
) -> Result<Saying, AllocError>
    ensures { IfOk result (λ s. unless_faulty (Some making.old) number (text_of making.old)
        (changed making.old serial) ≡ turn_from s.text.items s.ending (Some making.new)) }
{
    let (line, good) = making.change(alloc, serial)?;
    if good {
        Ok(go_on(line))
    } else {
        end_badly(line, number)
    }
}
