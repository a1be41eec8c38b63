//! A link of a stage.
ghost use Rattle.std.specs.Prelude.{◌≡◌, ◌≤◌, ◌<◌, length, [], Some, None, IfSome, refl};

use crate::streams::{Stream, octets_for, stream_for};
use crate::{Play, Stage};
use dz_io::{Failed, Link, MemorySource, Sink, Source};
use std::alloc::Global;

/// A link that gives the stream for the query that was written to it. In `Play::ReadWaits` the second read of the
/// zone's next version waits for a reply. It reports what it gave and what was written to it, and not what is left.
#[derive(Drop)]
pub struct StageLink<'a> {
    stage: &'a Stage,
    alloc: Global,
    pub(crate) query: Vec<u8>,
    answer: Option<MemorySource>,
    pub(crate) given: Vec<u8>,
    is_held: bool,
    reads: u64,
    pub(crate) faults: u64,
}

impl<'a> StageLink<'a> {
    /// A link to which nothing was written.
    pub(crate) fn new(alloc: Global, stage: &'a Stage) -> StageLink<'a>
        ensures given { result.given.items ≡ [] }
        ensures query { result.query.items ≡ [] }
        ensures faults { result.faults ≡ 0 }
    {
        StageLink {
            stage,
            alloc,
            query: Vec::new(alloc),
            answer: None,
            given: Vec::new(alloc),
            is_held: false,
            reads: 0,
            faults: 0,
        }
    }

    /// Reads from the answer, which is made before the first read; none where there is none.
    fn read_answer(&mut self, buffer: &mut [u8]) -> Option<usize>
        requires { 0 < length buffer.old }
        ensures count { IfSome result (λ n. n ≤ length buffer.old) }
        ensures faults { self.new.faults ≡ self.old.faults }
        ensures given { self.new.given ≡ self.old.given }
        ensures query { self.new.query ≡ self.old.query }
    {
        if self.answer.is_none() {
            let stream = stream_for(&self.query, self.stage.has_first())?;
            let octets = octets_for(self.alloc, stream, &self.query).ok()?;
            self.is_held = stream == Stream::NextZone && self.stage.play() == Play::ReadWaits;
            self.answer = Some(MemorySource::new(octets, Vec::new(self.alloc)));
        }
        self.reads = self.reads.saturating_add(1);
        if self.is_held && self.reads == 2 {
            self.stage.hold();
        }
        match &mut self.answer {
            Some(answer) => answer.read(buffer).ok(),
            None => None,
        }
    }
}

impl<'a> Source for StageLink<'a> {
    ghost given = { λ link. Some link.given.items };

    ghost left = { λ _. None };

    ghost beside = { λ link. Some link.query.items };

    ghost faults = { λ link. link.faults };

    /// Reads from the answer; fails where there is none, or where memory runs out.
    fn read(&mut self, buffer: &mut [u8]) -> Result<usize, Failed> {
        if let Some(count) = self.read_answer(buffer) {
            if self.given.extend_from_slice(&buffer[..count]).is_ok() {
                return Ok(count);
            }
        }
        self.faults = self.faults.saturating_add(1);
        Err(Failed)
    }
}

impl<'a> Sink for StageLink<'a> {
    ghost held = { λ link. Some link.query.items };

    ghost beside = { λ link. record { given = Some link.given.items; left = None } };

    ghost faults = { λ link. link.faults };

    /// Appends to the query; fails where memory runs out.
    fn write(&mut self, piece: &[u8]) -> Result<(), Failed> {
        match self.query.extend_from_slice(piece) {
            Ok(()) => Ok(()),
            Err(_) => {
                self.faults = self.faults.saturating_add(1);
                Err(Failed)
            }
        }
    }
}

impl<'a> Link for StageLink<'a> {
    ghost one_count = { λ _. refl };

    ghost reads_leave = { λ _. refl };

    ghost writes_leave = { λ _. refl };
}
