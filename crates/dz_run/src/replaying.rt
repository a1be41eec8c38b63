//! The command `replay`: it reads a configuration, and then takes each event at its moment.

ghost use Rattle.std.specs.Prelude.{◌≡◌, ◌<◌, ◌^◌, ◌∷◌, ℕ, Some, None, [], false, not, OnOk, OnErr};
ghost use Rattle.dz_fleet.specs.Core.{Core};
ghost use Rattle.dz_run.specs.Answering.{bad};
ghost use Rattle.dz_run.specs.Phase.{IsTimed};
ghost use Rattle.dz_run.specs.Replaying.{State, opening, running, is_opening, list_in, IsListBefore, replay_rules};
ghost use Rattle.dz_run.specs.Replaying.{replay_turn, catalog_line, group_line, event_line, event_turn, line_turn};
ghost use Rattle.dz_run.specs.Replaying.{bad_line, left};
ghost use Rattle.dz_run.specs.Kept.{IsResting, HasTurned, HasEnded, HasBegun, HasConfig, HasRun, IsRunning};
ghost use Rattle.dz_run.specs.Taken.{CanStart};

use crate::answering::End;
use crate::book::EmptyBook;
use crate::ends::Ends;
use crate::events::{Running, Took};
use crate::opening::Opening;
use crate::script::put_bad;
use crate::stage::Stage;
use dz_header::ReplyBuffer;
use dz_io::Sink;
use dz_name::Name;
use dz_provision::Naming;
use dz_script::{Event, Line, LineError, Script, TurnError, read_line};
use dz_settings::{CatalogSettings, GroupSettings};
use std::alloc::{AllocError, Global};
use std::marker::Model;
use std::sync::Wait;

/// A configuration that is read line by line, and how far the replay has come with it; no stage is there only while it
/// changes. It is ended by [`Replaying::close`].
pub struct Replaying<'a, R, K: Sink, J: Naming> {
    rt: &'a R,
    opening: Opening,
    stage: Option<Stage<K, J>>,
    buffer: ReplyBuffer,
}

impl<'a, R, K: Sink, J: Naming> Model for Replaying<'a, R, K, J> {
    ghost use Rattle.dz_run.specs.Kept.{Shown, shown, IsKept};

    ghost Value = { Shown };

    ghost view = { λ r. shown K.held K.faults r.opening r.stage };

    ghost invariant = { λ r. IsKept J.publisher K.held K.faults r.stage };
}

impl<'a, R: Wait, K: Sink, J: Naming> Replaying<'a, R, K, J> {
    /// Nothing was read. The ledger counts nothing.
    pub fn new(
        rt: &'a R,
        alloc: Global,
        ends: Ends<K>,
        starved: EmptyBook<J>,
        buffer: ReplyBuffer,
    ) -> Replaying<'a, R, K, J>
        requires { CanStart J.publisher (K.held ends.output)
            (K.faults ends.output) ends.publisher ends.reading }
        ensures { result ≡ record {
          state = opening [];
          written = K.held ends.output;
          faults = K.faults ends.output;
          is_over = false;
        } }
    {
        Replaying {
            rt,
            opening: Opening::new(alloc),
            stage: Some(Stage::Reading(ends, starved)),
            buffer,
        }
    }

    /// Closes the jobs that are left, and gives back the ends.
    pub fn close(self) -> Ends<K>
        ensures written { K.held result.output ≡ self.entry.written }
        ensures faults { K.faults result.output ≡ self.entry.faults }
        ensures ends { IsResting J.publisher self.entry.state result.publisher result.reading }
    {
        let Replaying {
            rt: _,
            opening: _,
            stage,
            buffer: _,
        } = self;
        let Some(stage) = stage else { unreachable!() };
        let (ends, _) = stage.close();
        ends
    }

    /// Whether a provisioner takes the events.
    fn is_running(&self) -> bool
        ensures { self.now.is_over ≡ false → result ≡ not (is_opening self.now.state) }
    {
        matches!(&self.stage, Some(Stage::Running(_)))
    }

    /// Whether it has ended.
    fn is_over(&self) -> bool
        ensures { result ≡ self.now.is_over }
    {
        !matches!(&self.stage, Some(Stage::Reading(..) | Stage::Running(_)))
    }

    /// Takes a line.
    fn take_line(
        &mut self,
        alloc: Global,
        number: u64,
        line: &[u8],
    ) -> Result<Option<End>, TurnError>
        requires { self.old.is_over ≡ false }
        ensures { HasTurned (replay_turn self.old.state number line.now) self.old result self.new }
    {
        match read_line(alloc, line) {
            Err(LineError::OutOfMemory) => Err(TurnError::OutOfMemory),
            Err(LineError::BadLine) => self.end_badly(alloc, number),
            Ok(line) => self.take_read(alloc, number, line),
        }
    }

    /// Takes a line that has one of the forms.
    fn take_read(
        &mut self,
        alloc: Global,
        number: u64,
        line: Line,
    ) -> Result<Option<End>, TurnError>
        requires timed { IsTimed line }
        requires goes { self.old.is_over ≡ false }
        ensures { HasTurned (line_turn self.old.state number (Some line)) self.old result self.new }
    {
        match line {
            Line::Skip => Ok(None),
            Line::Catalog(settings) => self.take_catalog(alloc, number, settings),
            Line::Group(name, group) => self.take_group(alloc, number, name, group),
            Line::Event { moment, event } => self.take_event(alloc, number, moment, event),
        }
    }

    /// A line of a catalog.
    fn take_catalog(
        &mut self,
        alloc: Global,
        number: u64,
        settings: CatalogSettings,
    ) -> Result<Option<End>, TurnError>
        requires { self.old.is_over ≡ false }
        ensures { HasTurned (catalog_line self.old.state number settings) self.old result self.new }
    {
        if self.is_running() {
            return self.end_badly(alloc, number);
        }
        match self.opening.add_catalog(alloc, settings) {
            Err(_) => Err(TurnError::OutOfMemory),
            Ok(true) => Ok(None),
            Ok(false) => self.end_badly(alloc, number),
        }
    }

    /// A line of a group.
    fn take_group(
        &mut self,
        alloc: Global,
        number: u64,
        name: Name,
        group: GroupSettings,
    ) -> Result<Option<End>, TurnError>
        requires { self.old.is_over ≡ false }
        ensures { HasTurned (group_line self.old.state number name group) self.old result self.new }
    {
        if self.is_running() {
            return self.end_badly(alloc, number);
        }
        match self.opening.add_group(alloc, &name, group) {
            Err(_) => Err(TurnError::OutOfMemory),
            Ok(true) => Ok(None),
            Ok(false) => self.end_badly(alloc, number),
        }
    }

    /// An event at a moment.
    fn take_event(
        &mut self,
        alloc: Global,
        number: u64,
        moment: u64,
        event: Event,
    ) -> Result<Option<End>, TurnError>
        requires moment { moment < 2 ^ 40 }
        requires goes { self.old.is_over ≡ false }
        ensures { HasTurned (event_line self.old.state number moment event) self.old result
            self.new }
    {
        if self.is_running() {
            return self.go_on(alloc, number, moment, event);
        }
        if self.opening.is_empty() {
            return self.end_badly(alloc, number);
        }
        match self.begin(alloc) {
            Err(_) => Err(TurnError::OutOfMemory),
            Ok(()) => self.go_on(alloc, number, moment, event),
        }
    }

    /// A further event.
    fn go_on(
        &mut self,
        alloc: Global,
        number: u64,
        moment: u64,
        event: Event,
    ) -> Result<Option<End>, TurnError>
        requires moment { moment < 2 ^ 40 }
        requires goes { self.old.is_over ≡ false }
        requires runs { IsRunning self.old.state }
        ensures { (c : Core) → self.old.state ≡ running c →
            HasTurned (event_turn c number moment event) self.old result self.new }
    {
        match self.run_event(alloc, moment, &event)? {
            Took::Done => Ok(None),
            Took::Bad => self.end_badly(alloc, number),
        }
    }

    /// Begins with the configuration.
    fn begin(&mut self, alloc: Global) -> Result<(), AllocError>
        requires goes { self.old.is_over ≡ false }
        requires some { HasConfig self.old.state }
        ensures ok { OnOk result (HasBegun self.old self.new) }
        ensures err { OnErr result
            ((self.new.written ≡ self.old.written) × (self.new.faults ≡ self.old.faults)) }
        ensures none { OnErr result (list_in self.new.state ≡ []) }
    {
        let config = self.opening.take(alloc);
        let Some(stage) = self.stage.take() else {
            unreachable!()
        };
        let (ends, starved) = stage.into_start();
        match Running::start(self.rt, alloc, config, ends, starved) {
            Ok(running) => {
                put(&mut self.stage, Stage::Running(running));
                Ok(())
            }
            Err(ends) => {
                put(&mut self.stage, Stage::Over(ends, None));
                Err(AllocError)
            }
        }
    }

    /// Runs an event.
    fn run_event(&mut self, alloc: Global, moment: u64, event: &Event) -> Result<Took, TurnError>
        requires moment { moment < 2 ^ 40 }
        requires goes { self.old.is_over ≡ false }
        requires runs { IsRunning self.old.state }
        ensures { (c : Core) → self.old.state ≡ running c →
            (number : ℕ) → HasRun (event_turn c number moment event.now) number self.old result
            self.new }
    {
        match &mut self.stage {
            Some(Stage::Running(running)) => {
                if running.has_failed() {
                    return Err(TurnError::OutOfMemory);
                }
                running.take_event(self.rt, alloc, moment, event, &mut self.buffer)
            }
            _ => unreachable!(),
        }
    }

    /// A bad line, after which no configuration is left.
    fn end_badly(&mut self, alloc: Global, number: u64) -> Result<Option<End>, TurnError>
        requires { self.old.is_over ≡ false }
        ensures { HasTurned (bad_line self.old.state number) self.old result self.new }
    {
        self.let_go(alloc);
        let end = self.end_at(alloc, number)?;
        Ok(Some(end))
    }

    /// Clears the configuration, where no event came yet.
    fn let_go(&mut self, alloc: Global)
        requires { self.old.is_over ≡ false }
        ensures { self.new ≡ record self.old { state = left self.old.state } }
    {
        if !self.is_running() {
            self.opening = Opening::new(alloc);
        }
    }

    /// Ends at the line of a number, and says that it is bad.
    fn end_at(&mut self, alloc: Global, number: u64) -> Result<End, TurnError>
        ensures { HasEnded (bad number) self.old result self.new }
    {
        let Some(stage) = self.stage.take() else {
            unreachable!()
        };
        let (mut ends, last) = stage.close();
        let ended = put_bad(alloc, number, &mut ends.output);
        put(&mut self.stage, Stage::Over(ends, last));
        ended
    }
}

impl<'a, R: Wait, K: Sink, J: Naming> Script for Replaying<'a, R, K, J> {
    type Ending = End;

    ghost States = { State };

    ghost state = { λ r. r.state };

    ghost held = { λ r. r.written };

    ghost faults = { λ r. r.faults };

    ghost Others = { Unit {0} };

    ghost beside = { λ _. tt };

    ghost Before = { IsListBefore };

    ghost rules = { replay_rules };

    /// Takes a line. A script that has ended takes nothing.
    fn turn(&mut self, alloc: Global, number: u64, line: &[u8]) -> Result<Option<End>, TurnError> {
        if self.is_over() {
            Err(TurnError::OutOfMemory)
        } else {
            self.take_line(alloc, number, line)
        }
    }

    /// A line past the limit is bad.
    fn too_long(&mut self, alloc: Global, number: u64) -> Result<End, TurnError> {
        self.end_at(alloc, number)
    }

    /// Ends the input; there must be a catalog. A script that has ended takes nothing.
    fn finish(&mut self, alloc: Global, number: u64) -> Result<End, TurnError> {
        if self.is_over() {
            return Err(TurnError::OutOfMemory);
        }
        if self.is_running() {
            return Ok(End::Done);
        }
        if self.opening.is_empty() {
            return self.end_at(alloc, number);
        }
        Ok(End::Done)
    }
}

/// Puts something where nothing is.
fn put<T>(place: &mut Option<T>, value: T)
    requires { place.old ≡ None }
    ensures { place.new ≡ Some value }
{
    match place.replace(value) {
        None => {}
        Some(_other) => unreachable!(),
    }
}
