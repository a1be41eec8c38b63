//! Chunks of many entries at once.

ghost use Rattle.std.specs.Prelude.{◌≡◌, ◌≤◌, [], ◌++◌, length, reverse, OnOk, IfOk};
ghost use Rattle.dz_chunks.specs.Chunked.{flat, AreChunks};
ghost use Rattle.dz_chunks.specs.inner.Chunked.{AreFull};

use crate::among::push_chunk;
use crate::chunk::{CHUNK, Chunk};
use crate::entry::Entry;
use crate::keyed::Keyed;
use crate::lead::Lead;
use std::alloc::{AllocError, Global};
use std::sync::Arc;

/// Entries cut into chunks: from the end on full ones, and in front those that are left.
pub(crate) fn cut<K: Lead + Copy, V: Keyed<K> + Drop>(
    alloc: Global,
    entries: Vec<Entry<K, V>>,
) -> Result<Vec<Chunk<K, V>>, AllocError>
    ensures entries { IfOk result (λ v. flat v.items ≡ entries.items) }
    ensures sized { IfOk result (λ v. AreChunks v.items) }
{
    let mut chunks = Vec::new(alloc);
    let mut rest = entries;
    cut_full(alloc, &mut rest, &mut chunks)?;
    push_first(alloc, rest, &mut chunks)?;
    chunks.reverse();
    Ok(chunks)
}

/// Takes full chunks away from the end of entries, and puts them one after another, the last first.
fn cut_full<K: Lead + Copy, V: Keyed<K> + Drop>(
    alloc: Global,
    rest: &mut Vec<Entry<K, V>>,
    chunks: &mut Vec<Chunk<K, V>>,
) -> Result<(), AllocError>
    requires none { chunks.old.items ≡ [] }
    ensures entries { OnOk result (rest.new.items ++ flat (reverse chunks.new.items)
        ≡ rest.old.items) }
    ensures full { OnOk result (AreFull (reverse chunks.new.items)) }
    ensures few { OnOk result (length rest.new.items ≤ 128) }
{
    'chunks: while CHUNK < rest.len() {
        let last = rest.split_off(rest.len() - CHUNK)?;
        push_chunk(alloc, chunks, last)?;
    }
    Ok(())
}

/// A chunk of the first entries, if there are some, after full ones, of which the last comes first.
fn push_first<K: Lead + Copy, V: Keyed<K> + Drop>(
    alloc: Global,
    mut first: Vec<Entry<K, V>>,
    chunks: &mut Vec<Chunk<K, V>>,
) -> Result<(), AllocError>
    requires few { length first.items ≤ 128 }
    requires full { AreFull (reverse chunks.old.items) }
    ensures entries { OnOk result (flat (reverse chunks.new.items)
        ≡ first.items ++ flat (reverse chunks.old.items)) }
    ensures sized { OnOk result (AreChunks (reverse chunks.new.items)) }
{
    if first.is_empty() {
        return Ok(());
    }
    first.shrink_to_fit();
    push_chunk(alloc, chunks, first)?;
    Ok(())
}
