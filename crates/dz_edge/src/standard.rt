//! Standard input and standard output as a source and a sink. They tell no octets.

ghost use Rattle.std.specs.Prelude.{◌≡◌, ◌≤◌, length, None, IfSome};

use dz_io::{Failed, Sink, Source};
use std::io::{ErrorKind, Read, Write};

/// How many times a read is tried that signals interrupt.
const TRIES: usize = 1000;

/// A reader as a source that doesn't tell its octets.
#[derive(Drop)]
pub struct ReadSource<R> {
    reader: R,
    faults: u64,
}

impl<R: Drop> ReadSource<R> {
    /// A source over a reader, without a fault yet.
    pub fn new(reader: R) -> ReadSource<R>
        ensures { result.faults ≡ 0 }
    {
        ReadSource { reader, faults: 0 }
    }
}

impl<R: Read> Source for ReadSource<R> {
    ghost given = { λ _. None };

    ghost left = { λ _. None };

    ghost beside = { λ _. None };

    ghost faults = { λ source. source.faults };

    /// Reads octets, and answers how many; it fails where the reader does.
    fn read(&mut self, buffer: &mut [u8]) -> Result<usize, Failed> {
        match read_past_signals(&mut self.reader, buffer) {
            Some(count) => Ok(count),
            None => {
                self.faults = self.faults.saturating_add(1);
                Err(Failed)
            }
        }
    }
}

/// Reads, again where a signal interrupts; none where the read fails, or is interrupted too often.
fn read_past_signals<R: Read>(reader: &mut R, buffer: &mut [u8]) -> Option<usize>
    ensures { IfSome result (λ n. n ≤ length buffer.old) }
{
    'tries: for _ in 0..TRIES {
        match reader.read(buffer) {
            Ok(count) => return Some(count),
            Err(error) if error.kind() == ErrorKind::Interrupted => {}
            Err(_) => return None,
        }
    }
    None
}

/// A writer as a sink that doesn't tell its octets.
#[derive(Drop)]
pub struct WriteSink<W> {
    writer: W,
    faults: u64,
}

impl<W: Drop> WriteSink<W> {
    /// A sink over a writer, without a fault yet.
    pub fn new(writer: W) -> WriteSink<W>
        ensures { result.faults ≡ 0 }
    {
        WriteSink { writer, faults: 0 }
    }
}

impl<W: Write> Sink for WriteSink<W> {
    ghost held = { λ _. None };

    ghost beside = { λ _. record { given = None; left = None } };

    ghost faults = { λ sink. sink.faults };

    /// Writes all octets; it fails where the writer does.
    fn write(&mut self, piece: &[u8]) -> Result<(), Failed> {
        match self.writer.write_all(piece) {
            Ok(()) => Ok(()),
            Err(_) => {
                self.faults = self.faults.saturating_add(1);
                Err(Failed)
            }
        }
    }
}
