//! References to chunks one after another: where a key belongs among them, and copies of them.

ghost use Rattle.std.specs.Prelude.{◌≡◌, ◌+◌, ◌-◌, ◌<◌, ◌≤◌, [], ◌∷◌, ◌++◌, length, take, drop, OnOk};
ghost use Rattle.std.specs.FinMap.{find};
ghost use Rattle.std.specs.Option.{option_map};
ghost use Rattle.dz_chunks.specs.Map.{last_upto};
ghost use Rattle.dz_chunks.specs.Chunked.{flat};
ghost use Rattle.dz_chunks.specs.Search.{IsSearch, TakesAtMost};
ghost use Rattle.dz_chunks.specs.inner.Chunked.{AllBefore, AllBehind, length_at, length_before, IsChunked};

use crate::chunk::{BeginsUpto, CHUNK, Chunk, EndsBefore};
use crate::entries::value_of;
use crate::entry::Entry;
use crate::keyed::Keyed;
use crate::lead::Lead;
use crate::search::count_of;
use dz_steps::Steps;
use std::alloc::{AllocError, Global};
use std::sync::ledger::Ledger;

/// How many entries the chunk at a place has. Where there is none it is as if one were full.
pub(crate) fn length_at<K: Lead + Copy, V: Keyed<K>>(chunks: &[Chunk<K, V>], at: usize) -> usize
    ensures { result ≡ length_at chunks.now at }
{
    if at < chunks.len() {
        chunks[at].entries().len()
    } else {
        CHUNK
    }
}

/// How many entries the chunk before a place has.
pub(crate) fn length_before<K: Lead + Copy, V: Keyed<K>>(chunks: &[Chunk<K, V>], at: usize) -> usize
    ensures { result ≡ length_before chunks.now at }
{
    if at == 0 {
        CHUNK
    } else {
        length_at(chunks, at - 1)
    }
}

/// How many chunks end before a key.
pub(crate) fn count_before<K: Lead + Copy, V: Keyed<K>, L: Ledger>(
    chunks: &[Chunk<K, V>],
    key: &K,
    steps: &mut Steps<L>,
) -> usize
    requires { IsChunked K.cmp chunks.now }
    ensures within { result ≤ length chunks.now }
    ensures before { AllBefore K.cmp key.now (flat (take result chunks.now)) }
    ensures behind { AllBehind K.cmp key.now (flat (drop (result + 1) chunks.now)) }
    ensures cost { IsSearch (length chunks.now) (steps.new - steps.old) }
{
    count_of(chunks, &EndsBefore { key }, steps)
}

/// The value at a key among chunks.
pub(crate) fn value_among<'a, K: Lead + Copy, V: Keyed<K>, L: Ledger>(
    chunks: &'a [Chunk<K, V>],
    key: &K,
    steps: &mut Steps<L>,
) -> Option<&'a V>
    requires { IsChunked K.cmp chunks.now }
    ensures value { option_map (λ value. value.now) result
        ≡ find K.cmp key.now (flat chunks.now) }
    ensures cost { TakesAtMost (length (flat chunks.now)) 9 (steps.new - steps.old) }
{
    let at = count_before(chunks, key, steps);
    if at < chunks.len() {
        value_of(chunks[at].entries(), key, steps)
    } else {
        None
    }
}

/// The value of the last entry among chunks whose key doesn't come after a key.
pub(crate) fn last_among<'a, K: Lead + Copy, V: Keyed<K>, L: Ledger>(
    chunks: &'a [Chunk<K, V>],
    key: &K,
    steps: &mut Steps<L>,
) -> Option<&'a V>
    requires { IsChunked K.cmp chunks.now }
    ensures value { option_map (λ value. (V.key value.now, value.now)) result
        ≡ last_upto K.cmp key.now (flat chunks.now) }
    ensures cost { TakesAtMost (length (flat chunks.now)) 22 (steps.new - steps.old) }
{
    let count = count_of(chunks, &BeginsUpto { key }, steps);
    if count == 0 {
        None
    } else {
        Some(chunks[count - 1].last_upto(key, steps))
    }
}

/// The place of the chunk that a key belongs to: the first that doesn't end before it, or the last.
pub(crate) fn chunk_for<K: Lead + Copy, V: Keyed<K>, L: Ledger>(
    chunks: &[Chunk<K, V>],
    key: &K,
    steps: &mut Steps<L>,
) -> usize
    requires chunked { IsChunked K.cmp chunks.now }
    requires some { 0 < length chunks.now }
    ensures within { result < length chunks.now }
    ensures before { AllBefore K.cmp key.now (flat (take result chunks.now)) }
    ensures behind { AllBehind K.cmp key.now (flat (drop (result + 1) chunks.now)) }
    ensures cost { IsSearch (length chunks.now) (steps.new - steps.old) }
{
    let at = count_before(chunks, key, steps);
    if at < chunks.len() {
        at
    } else {
        chunks.len() - 1
    }
}

/// Copies references after others, as long as there is memory.
pub(crate) fn copy_chunks<K: Lead + Copy, V: Keyed<K> + Drop, L: Ledger>(
    copies: &mut Vec<Chunk<K, V>>,
    chunks: &[Chunk<K, V>],
    steps: &mut Steps<L>,
) -> Result<(), AllocError>
    ensures copied { OnOk result (copies.new.items
        ≡ copies.old.items ++ chunks.now) }
    ensures counted { OnOk result (steps.new ≡ steps.old + length chunks.now) }
    ensures cost { steps.new ≤ steps.old + length chunks.now }
{
    for chunk in chunks {
        copies.push(chunk.copied(steps)?)?;
    }
    Ok(())
}

/// One more chunk of these entries.
pub(crate) fn push_chunk<K: Lead + Copy, V: Keyed<K> + Drop>(
    alloc: Global,
    chunks: &mut Vec<Chunk<K, V>>,
    entries: Vec<Entry<K, V>>,
) -> Result<(), AllocError>
    requires { 1 ≤ length entries.items }
    ensures { OnOk result (chunks.new.items
        ≡ chunks.old.items ++ entries.items ∷ []) }
{
    chunks.push(Chunk::new(alloc, entries)?)?;
    Ok(())
}
