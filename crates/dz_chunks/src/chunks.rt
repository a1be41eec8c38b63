//! A finite map in shared chunks.

ghost use Rattle.std.specs.Prelude.{◌≡◌, ℕ, ◌+◌, ◌-◌, ◌*◌, ◌/◌, ◌^◌, ◌<◌, ◌≤◌, List, [], ◌∷◌, ◌++◌, length, map, T};
ghost use Rattle.std.specs.Prelude.{IfOk, min, IsTrue};
ghost use Rattle.std.specs.FinMap.{is_sorted, find, put};
ghost use Rattle.std.specs.Option.{option_map};
ghost use Rattle.dz_chunks.specs.Map.{last_upto, without_key};
ghost use Rattle.dz_chunks.specs.Chunked.{flat};
ghost use Rattle.dz_chunks.specs.Search.{TakesAtMost};
ghost use Rattle.dz_chunks.specs.inner.Chunked.{IsChunked};

use crate::among::{chunk_for, last_among, push_chunk, value_among};
use crate::chunk::Chunk;
use crate::copies::Copies;
use crate::cut::cut;
use crate::entries::{with_entry, without_entry};
use crate::entry::Entry;
use crate::joins::rebuilt;
use crate::keyed::Keyed;
use crate::lead::Lead;
use crate::walk::Walk;
use dz_steps::Steps;
use std::alloc::{AllocError, Global};
use std::marker::Model;
use std::sync::Arc;
use std::sync::ledger::Ledger;

/// A chunk with one entry.
fn first_chunk<K: Lead + Copy, V: Keyed<K> + Drop>(
    alloc: Global,
    value: V,
) -> Result<Vec<Chunk<K, V>>, AllocError>
    ensures { IfOk result (λ v. v.items ≡ ((V.key value, value) ∷ []) ∷ []) }
{
    let mut entries = Vec::new(alloc);
    entries.push(Entry::new(alloc, value)?)?;
    let mut chunks = Vec::new(alloc);
    push_chunk(alloc, &mut chunks, entries)?;
    Ok(chunks)
}

/// The chunks with a value at its key.
pub(crate) fn chunks_with<K: Lead + Copy, V: Keyed<K> + Drop, E: Ledger, R: Ledger, C: Ledger>(
    alloc: Global,
    chunks: &[Chunk<K, V>],
    value: V,
    copies: &mut Copies<E, R, C>,
) -> Result<Vec<Chunk<K, V>>, AllocError>
    requires { IsChunked K.cmp chunks.now }
    ensures map { IfOk result (λ v.
        flat v.items ≡ put K.cmp (V.key value) value (flat chunks.now)) }
    ensures chunked { IfOk result (λ v. IsChunked K.cmp v.items) }
    ensures entry_cost { copies.new.entries ≤ copies.old.entries + 256 }
    ensures reference_cost { copies.new.references ≤ copies.old.references + length chunks.now }
    ensures comparisons { TakesAtMost (length (flat chunks.now)) 9
        (copies.new.comparisons - copies.old.comparisons) }
{
    if chunks.is_empty() {
        return first_chunk(alloc, value);
    }
    let key = value.key();
    let at = chunk_for(chunks, &key, &mut copies.comparisons);
    let entries = with_entry(alloc, chunks[at].entries(), &key, value, copies)?;
    rebuilt(alloc, chunks, at, entries, copies)
}

/// The chunks but the entry at a key.
pub(crate) fn chunks_without<K: Lead + Copy, V: Keyed<K> + Drop, E: Ledger, R: Ledger, C: Ledger>(
    alloc: Global,
    chunks: &[Chunk<K, V>],
    key: &K,
    copies: &mut Copies<E, R, C>,
) -> Result<Vec<Chunk<K, V>>, AllocError>
    requires { IsChunked K.cmp chunks.now }
    ensures map { IfOk result (λ v.
        flat v.items
        ≡ without_key K.cmp key.now (flat chunks.now)) }
    ensures chunked { IfOk result (λ v. IsChunked K.cmp v.items) }
    ensures entry_cost { copies.new.entries ≤ copies.old.entries + 256 }
    ensures reference_cost { copies.new.references ≤ copies.old.references + length chunks.now }
    ensures comparisons { TakesAtMost (length (flat chunks.now)) 9
        (copies.new.comparisons - copies.old.comparisons) }
{
    if chunks.is_empty() {
        return Ok(Vec::new(alloc));
    }
    let at = chunk_for(chunks, key, &mut copies.comparisons);
    let entries = without_entry(alloc, chunks[at].entries(), key, copies)?;
    rebuilt(alloc, chunks, at, entries, copies)
}

/// A finite map. A changed map is a new one, which shares with the old one all chunks of entries but the few that the
/// change touches; the old one stays as it was. Contracts see its entries in ascending order of their keys.
#[derive(Drop)]
pub struct Chunks<K: Lead, V: Keyed<K>> {
    chunks: Vec<Chunk<K, V>>,
}

impl<K: Lead, V: Keyed<K>> Model for Chunks<K, V> {
    ghost use Rattle.std.specs.Prelude.{List, map};
    ghost use Rattle.dz_chunks.specs.Chunked.{flat};
    ghost use Rattle.dz_chunks.specs.inner.Chunked.{IsChunked};

    ghost Value = { List (K × V) };

    ghost view = { λ s. flat s.chunks.items };

    ghost invariant = { λ s. IsChunked K.cmp s.chunks.items };
}

impl<K: Lead + Copy, V: Keyed<K>> Chunks<K, V> {
    /// The map of no keys. It takes no memory.
    pub fn empty(alloc: Global) -> Chunks<K, V>
        ensures { result ≡ [] }
    {
        Chunks {
            chunks: Vec::new(alloc),
        }
    }

    /// The map of entries in ascending order of their keys, no two of one key, made in one pass over them.
    pub fn from_entries(
        alloc: Global,
        entries: Vec<Entry<K, V>>,
    ) -> Result<Chunks<K, V>, AllocError>
    where
        V: Drop,
        requires { IsTrue (is_sorted K.cmp entries.items) }
        ensures { IfOk result (λ map. map ≡ entries.items) }
    {
        let chunks = cut(alloc, entries)?;
        Ok(Chunks { chunks })
    }

    /// The values, in ascending order of their keys.
    pub fn walk(&self) -> Walk<'_, K, V>
        ensures entries { result ≡ self.now }
        ensures ascending { IsTrue (is_sorted K.cmp self.now) }
    {
        Walk::over(self.chunks.as_slice())
    }

    /// The value at a key, and None exactly where the key isn't there. In the chunk it compares at most nine keys.
    pub fn get<L: Ledger>(&self, key: &K, steps: &mut Steps<L>) -> Option<&V>
        ensures value { option_map (λ value. value.now) result ≡ find K.cmp key.now self.now }
        ensures cost { TakesAtMost (length self.now) 9 (steps.new - steps.old) }
    {
        value_among(self.chunks.as_slice(), key, steps)
    }

    /// The value of the last key that doesn't come after a key, and None exactly where all keys come after it. In the chunk
    /// it compares at most 22 keys: seven marks, and fifteen of sixteen entries, which are read without waiting.
    pub fn last_upto<L: Ledger>(&self, key: &K, steps: &mut Steps<L>) -> Option<&V>
        ensures value { option_map (λ value. (V.key value.now, value.now)) result
            ≡ last_upto K.cmp key.now self.now }
        ensures cost { TakesAtMost (length self.now) 22 (steps.new - steps.old) }
    {
        last_among(self.chunks.as_slice(), key, steps)
    }
}

impl<K: Lead + Copy, V: Keyed<K> + Drop> Chunks<K, V> {
    /// The map with a value at its key, in place of the one that is there. The error is want of memory. It copies at most
    /// 256 entries, and one reference at most for each chunk, and compares no more keys than [`Chunks::get`].
    pub fn with<E: Ledger, R: Ledger, C: Ledger>(
        &self,
        alloc: Global,
        value: V,
        copies: &mut Copies<E, R, C>,
    ) -> Result<Chunks<K, V>, AllocError>
        ensures map { IfOk result (λ changed. changed ≡ put K.cmp (V.key value) value self.now) }
        ensures entries { copies.new.entries ≤ copies.old.entries + 256 }
        ensures references { copies.new.references
            ≤ copies.old.references + (length self.now / 64 + 1) }
        ensures comparisons { TakesAtMost (length self.now) 9
            (copies.new.comparisons - copies.old.comparisons) }
    {
        let chunks = chunks_with(alloc, self.chunks.as_slice(), value, copies)?;
        Ok(Chunks { chunks })
    }

    /// The map without a key. Where the key isn't there it is an equal map. The error is want of memory. It copies and
    /// compares no more than [`Chunks::with`].
    pub fn without<E: Ledger, R: Ledger, C: Ledger>(
        &self,
        alloc: Global,
        key: &K,
        copies: &mut Copies<E, R, C>,
    ) -> Result<Chunks<K, V>, AllocError>
        ensures map { IfOk result (λ changed. changed ≡ without_key K.cmp key.now self.now) }
        ensures entries { copies.new.entries ≤ copies.old.entries + 256 }
        ensures references { copies.new.references
            ≤ copies.old.references + (length self.now / 64 + 1) }
        ensures comparisons { TakesAtMost (length self.now) 9
            (copies.new.comparisons - copies.old.comparisons) }
    {
        let chunks = chunks_without(alloc, self.chunks.as_slice(), key, copies)?;
        Ok(Chunks { chunks })
    }
}
