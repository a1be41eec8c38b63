//! A finite map in shared chunks that knows the places of its entries.

ghost use Rattle.std.specs.Prelude.{◌≡◌, ◌+◌, ◌-◌, ◌/◌, ◌≤◌, [], length, slice_get, IfOk, IsTrue};
ghost use Rattle.std.specs.FinMap.{is_sorted, find, put};
ghost use Rattle.std.specs.Option.{option_map};
ghost use Rattle.dz_chunks.specs.Map.{place_in, without_key};
ghost use Rattle.dz_chunks.specs.Chunked.{flat};
ghost use Rattle.dz_chunks.specs.Search.{TakesAtMost};
ghost use Rattle.dz_chunks.specs.inner.Chunked.{IsChunked};

use crate::among::value_among;
use crate::chunk::Chunk;
use crate::chunks::{chunks_with, chunks_without};
use crate::copies::Copies;
use crate::cut::cut;
use crate::ends::{ends_of, last_end, place_among, value_at};
use crate::entry::Entry;
use crate::keyed::Keyed;
use crate::lead::Lead;
use crate::walk::Walk;
use dz_steps::Steps;
use std::alloc::{AllocError, Global};
use std::marker::Model;
use std::sync::ledger::Ledger;

/// A finite map as [`Chunks`](crate::Chunks), which also tells how many entries it has, which one is at a place in
/// ascending order, and at which place a key is. Contracts see its entries in ascending order of their keys.
#[derive(Drop)]
pub struct Ranked<K: Lead, V: Keyed<K>> {
    chunks: Vec<Chunk<K, V>>,
    ends: Vec<usize>,
}

impl<K: Lead, V: Keyed<K>> Model for Ranked<K, V> {
    ghost use Rattle.std.specs.Prelude.{List};
    ghost use Rattle.dz_chunks.specs.Chunked.{flat};
    ghost use Rattle.dz_chunks.specs.inner.Ranked.{IsRanked};

    ghost Value = { List (K × V) };

    ghost view = { λ s. flat s.chunks.items };

    ghost invariant = { λ s. IsRanked K.cmp s.chunks.items s.ends.items };
}

impl<K: Lead + Copy, V: Keyed<K>> Ranked<K, V> {
    /// The map of no keys. It takes no memory.
    pub fn empty(alloc: Global) -> Ranked<K, V>
        ensures { result ≡ [] }
    {
        Ranked {
            chunks: Vec::new(alloc),
            ends: Vec::new(alloc),
        }
    }

    /// The map of entries in ascending order of their keys, no two of one key, made in one pass over them. The error is
    /// want of memory.
    pub fn from_entries(
        alloc: Global,
        entries: Vec<Entry<K, V>>,
    ) -> Result<Ranked<K, V>, AllocError>
    where
        V: Drop,
        requires { IsTrue (is_sorted K.cmp entries.items) }
        ensures { IfOk result (λ map. map ≡ entries.items) }
    {
        Ranked::of(alloc, cut(alloc, entries)?)
    }

    /// The map of chunks. The error is want of memory.
    fn of(alloc: Global, chunks: Vec<Chunk<K, V>>) -> Result<Ranked<K, V>, AllocError>
    where
        V: Drop,
        requires { IsChunked K.cmp chunks.items }
        ensures { IfOk result (λ map. map ≡ flat chunks.items) }
    {
        let ends = ends_of(alloc, chunks.as_slice())?;
        Ok(Ranked { chunks, ends })
    }

    /// How many entries there are.
    pub fn len(&self) -> usize
        ensures { result ≡ length self.now }
    {
        last_end(self.ends.as_slice(), self.chunks.as_slice())
    }

    /// The values, in ascending order of their keys.
    pub fn walk(&self) -> Walk<'_, K, V>
        ensures entries { result ≡ self.now }
        ensures ascending { IsTrue (is_sorted K.cmp self.now) }
    {
        let _ = &self.ends;
        Walk::over(self.chunks.as_slice())
    }

    /// The value at a key, and None exactly where the key isn't there. In the chunk it compares at most nine keys.
    pub fn get<L: Ledger>(&self, key: &K, steps: &mut Steps<L>) -> Option<&V>
        ensures value { option_map (λ value. value.now) result ≡ find K.cmp key.now self.now }
        ensures cost { TakesAtMost (length self.now) 9 (steps.new - steps.old) }
    {
        let _ = &self.ends;
        value_among(self.chunks.as_slice(), key, steps)
    }

    /// The value at a place in ascending order of the keys, and None exactly where there are no more entries than the
    /// place says. It is a search by halves among the chunks, and compares no keys.
    pub fn at(&self, place: usize) -> Option<&V>
        ensures { option_map (λ value. (V.key value.now, value.now)) result
            ≡ slice_get self.now place }
    {
        value_at(self.chunks.as_slice(), self.ends.as_slice(), place)
    }

    /// The place of a key, and None exactly where the key isn't there. It compares no more keys than [`Ranked::get`].
    pub fn place_of<L: Ledger>(&self, key: &K, steps: &mut Steps<L>) -> Option<usize>
        ensures value { result ≡ place_in K.cmp key.now self.now }
        ensures cost { TakesAtMost (length self.now) 9 (steps.new - steps.old) }
    {
        place_among(self.chunks.as_slice(), self.ends.as_slice(), key, steps)
    }
}

impl<K: Lead + Copy, V: Keyed<K> + Drop> Ranked<K, V> {
    /// The map with a value at its key, in place of the one that is there. The error is want of memory. It copies and
    /// compares no more than [`Chunks::with`](crate::Chunks::with), and counts the entries of each chunk anew.
    pub fn with<E: Ledger, R: Ledger, C: Ledger>(
        &self,
        alloc: Global,
        value: V,
        copies: &mut Copies<E, R, C>,
    ) -> Result<Ranked<K, V>, AllocError>
        ensures map { IfOk result (λ changed. changed ≡ put K.cmp (V.key value) value self.now) }
        ensures entries { copies.new.entries ≤ copies.old.entries + 256 }
        ensures references { copies.new.references
            ≤ copies.old.references + (length self.now / 64 + 1) }
        ensures comparisons { TakesAtMost (length self.now) 9
            (copies.new.comparisons - copies.old.comparisons) }
    {
        let _ = &self.ends;
        let chunks = chunks_with(alloc, self.chunks.as_slice(), value, copies)?;
        Ranked::of(alloc, chunks)
    }

    /// The map without a key. Where the key isn't there it is an equal map. The error is want of memory. It copies,
    /// compares and counts no more than [`Ranked::with`].
    pub fn without<E: Ledger, R: Ledger, C: Ledger>(
        &self,
        alloc: Global,
        key: &K,
        copies: &mut Copies<E, R, C>,
    ) -> Result<Ranked<K, V>, AllocError>
        ensures map { IfOk result (λ changed. changed ≡ without_key K.cmp key.now self.now) }
        ensures entries { copies.new.entries ≤ copies.old.entries + 256 }
        ensures references { copies.new.references
            ≤ copies.old.references + (length self.now / 64 + 1) }
        ensures comparisons { TakesAtMost (length self.now) 9
            (copies.new.comparisons - copies.old.comparisons) }
    {
        let _ = &self.ends;
        let chunks = chunks_without(alloc, self.chunks.as_slice(), key, copies)?;
        Ranked::of(alloc, chunks)
    }
}
