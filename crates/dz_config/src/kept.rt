//! A source that keeps what was read from it.
ghost use Rattle.std.specs.Prelude.{◌≡◌};

use crate::config::TEXT_OCTETS;
use dz_io::{Failed, Source};
use std::alloc::Global;

/// A source, and a copy of the octets that it gave: as many as a configuration has at most, and up to one read more.
/// Where memory runs out, the copy is emptied and nothing more is kept.
#[derive(Drop)]
pub struct Kept<S> {
    source: S,
    text: Vec<u8>,
    /// Nothing more is kept.
    is_lost: bool,
}

impl<S: Source + Drop> Kept<S> {
    /// A source from which nothing has been read yet.
    pub fn new(alloc: Global, source: S) -> Kept<S>
        ensures { result.source ≡ source }
    {
        Kept {
            source,
            text: Vec::new(alloc),
            is_lost: false,
        }
    }

    /// A source of which nothing is kept.
    pub fn passing(alloc: Global, source: S) -> Kept<S>
        ensures { result.source ≡ source }
    {
        Kept {
            source,
            text: Vec::new(alloc),
            is_lost: true,
        }
    }

    /// The octets that were kept.
    pub fn text(&self) -> &[u8] {
        &self.text
    }

    /// Keeps a copy of octets that were read.
    fn keep(&mut self, piece: &[u8])
        ensures { self.new.source ≡ self.old.source }
    {
        if self.is_lost || TEXT_OCTETS < self.text.len() {
            return;
        }
        if self.text.extend_from_slice(piece).is_err() {
            self.text.clear();
            self.is_lost = true;
        }
    }
}

impl<S: Source + Drop> Source for Kept<S> {
    ghost given = { λ kept. S.given kept.source };

    ghost left = { λ kept. S.left kept.source };

    ghost beside = { λ kept. S.beside kept.source };

    ghost faults = { λ kept. S.faults kept.source };

    /// Reads from the source, and keeps a copy of what it gave. The error is the source's.
    fn read(&mut self, buffer: &mut [u8]) -> Result<usize, Failed> {
        match self.source.read(buffer) {
            Ok(count) => {
                self.keep(buffer.get(..count).unwrap_or(&[]));
                Ok(count)
            }
            Err(Failed) => Err(Failed),
        }
    }
}
