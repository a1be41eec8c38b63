//! Laws of chunks. Each is a contract without a call, so its body is empty.

ghost use Rattle.dz_chunks.specs.Laws.{FewChunks};

use crate::keyed::Keyed;
use crate::lead::Lead;

/// So many entries of a map are in at most one chunk for each 64 of them and one more.
pub fn few_chunks<K: Lead, V: Keyed<K>>()
    ensures { FewChunks (K × V) }
{}
