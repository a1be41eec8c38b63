//! Where chunks end: how many entries there are up to the end of each, by which a place leads to its chunk.

ghost use Rattle.std.specs.Prelude.{◌≡◌, ◌-◌, ◌<◌, ◌≤◌, length, slice_get, nat_le, IfOk};
ghost use Rattle.std.specs.Option.{option_map};
ghost use Rattle.std.specs.List.Sorted.{IsNonDecreasing, IsPartitionPoint};
ghost use Rattle.dz_chunks.specs.Map.{place_in};
ghost use Rattle.dz_chunks.specs.Chunked.{flat};
ghost use Rattle.dz_chunks.specs.Search.{TakesAtMost};
ghost use Rattle.dz_chunks.specs.inner.Ranked.{ends_after, IsRanked};

use crate::among::count_before;
use crate::chunk::Chunk;
use crate::entries::place_in;
use crate::keyed::Keyed;
use crate::lead::Lead;
use dz_steps::Steps;
use std::alloc::{AllocError, Global};
use std::sync::ledger::Ledger;

/// Where chunks end, counted in one pass over them. The error is want of memory; more entries than a number tells are one.
pub(crate) fn ends_of<K: Lead + Copy, V: Keyed<K>>(
    alloc: Global,
    chunks: &[Chunk<K, V>],
) -> Result<Vec<usize>, AllocError>
    ensures { IfOk result (λ ends. ends.items ≡ ends_after 0 chunks.now) }
{
    let mut ends = Vec::with_capacity(alloc, chunks.len())?;
    let mut end: usize = 0;
    for chunk in chunks {
        end = end.checked_add(chunk.entries().len()).ok_or(AllocError)?;
        ends.push(end)?;
    }
    Ok(ends)
}

/// How many entries there are up to the end of the last chunk.
pub(crate) fn last_end<K: Lead + Copy, V: Keyed<K>>(ends: &[usize], chunks: &[Chunk<K, V>]) -> usize
    requires { ends.now ≡ ends_after 0 chunks.now }
    ensures { result ≡ length (flat chunks.now) }
{
    let _ = chunks;
    match ends.last() {
        None => 0,
        Some(end) => *end,
    }
}

/// How many chunks end at a place or before it.
fn ended_upto(ends: &[usize], place: usize) -> usize
    requires { IsNonDecreasing ends.now }
    ensures { IsPartitionPoint (λ end. end ≤ place) (λ end. place < end) ends.now result }
{
    ends.partition_point(
        |end: &usize| -> bool
            ensures { result ≡ nat_le end.now place }
        { *end <= place },
    )
}

/// The value at a place among the entries of chunks.
pub(crate) fn value_at<'a, K: Lead + Copy, V: Keyed<K>>(
    chunks: &'a [Chunk<K, V>],
    ends: &[usize],
    place: usize,
) -> Option<&'a V>
    requires { ends.now ≡ ends_after 0 chunks.now }
    ensures { option_map (λ value. (V.key value.now, value.now)) result
        ≡ slice_get (flat chunks.now) place }
{
    let at = ended_upto(ends, place);
    if at < chunks.len() {
        let entries = chunks[at].entries();
        Some(entries[entries.len() - (ends[at] - place)].value())
    } else {
        None
    }
}

/// The place of a key among the entries of chunks.
pub(crate) fn place_among<K: Lead + Copy, V: Keyed<K>, L: Ledger>(
    chunks: &[Chunk<K, V>],
    ends: &[usize],
    key: &K,
    steps: &mut Steps<L>,
) -> Option<usize>
    requires { IsRanked K.cmp chunks.now ends.now }
    ensures value { result ≡ place_in K.cmp key.now (flat chunks.now) }
    ensures cost { TakesAtMost (length (flat chunks.now)) 9 (steps.new - steps.old) }
{
    let at = count_before(chunks, key, steps);
    if at == chunks.len() {
        return None;
    }
    let entries = chunks[at].entries();
    match place_in(entries, key, steps) {
        None => None,
        Some(place) => Some(ends[at] - (entries.len() - place)),
    }
}
