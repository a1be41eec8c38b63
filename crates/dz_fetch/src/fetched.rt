//! What a transfer gave.

use dz_take::Finished;

/// What came of a job's transfer.
#[derive(Debug, Drop)]
pub enum Fetched {
    /// It was read, up to what decides it or to where the link ended.
    Finished(Finished),
    /// The dial failed, or a call on the link or source did.
    LinkFault,
    /// Out of memory.
    OutOfMemory,
}
