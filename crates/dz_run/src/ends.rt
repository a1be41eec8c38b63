//! The ends that the command `replay` works on.

use dz_desk::{Publisher, Reading};

/// A publisher with a reading of it, and the output.
pub struct Ends<K> {
    pub publisher: Publisher,
    pub reading: Reading,
    pub output: K,
}
