//! The entries of a map one by one.

ghost use Rattle.std.specs.Prelude.{◌≡◌, List, [], ◌∷◌, map, MatchOption};
ghost use Rattle.std.specs.Iterator.{YieldsFirstBy, item_count};
ghost use Rattle.dz_chunks.specs.Chunked.{flat, AreChunks};

use crate::chunk::Chunk;
use crate::entry::Entry;
use crate::keyed::Keyed;
use crate::lead::Lead;
use std::iter::Iterator;
use std::marker::Model;
use std::sync::Arc;

/// The values of a map, in ascending order of their keys. Contracts see the entries that are left.
#[derive(Drop)]
pub struct Walk<'a, K: Lead, V: Keyed<K>> {
    entries: &'a [Entry<K, V>],
    chunks: &'a [Chunk<K, V>],
}

impl<'a, K: Lead, V: Keyed<K>> Model for Walk<'a, K, V> {
    ghost use Rattle.std.specs.Prelude.{List, map, ◌++◌};
    ghost use Rattle.dz_chunks.specs.Chunked.{flat, AreChunks};

    ghost Value = { List (K × V) };

    ghost view = { λ w. w.entries.now ++ flat w.chunks.now };

    ghost invariant = { λ w. AreChunks w.chunks.now };
}

impl<'a, K: Lead + Copy, V: Keyed<K>> Walk<'a, K, V> {
    /// All entries of chunks.
    pub(crate) fn over(chunks: &'a [Chunk<K, V>]) -> Walk<'a, K, V>
        requires { AreChunks chunks.now }
        ensures { result ≡ flat chunks.now }
    {
        Walk {
            entries: &[],
            chunks,
        }
    }

    /// The next entry, as maps share it.
    pub fn next_entry(&mut self) -> Option<&'a Entry<K, V>>
        ensures { MatchOption result ((self.old ≡ []) × (self.new ≡ []))
            (λ entry. self.old ≡ entry.now ∷ self.new) }
    {
        if let Some((entry, rest)) = self.entries.split_first() {
            self.entries = rest;
            return Some(entry);
        }
        let (chunk, rest) = self.chunks.split_first()?;
        let (entry, others) = chunk.entries().split_first()?;
        self.entries = others;
        self.chunks = rest;
        Some(entry)
    }
}

impl<'a, K: Lead + Copy, V: Keyed<K>> Iterator for Walk<'a, K, V> {
    type Item = &'a V;

    ghost next_gives = { YieldsFirstBy (λ value. (V.key value.now, value.now)) (λ left. left) };

    ghost remaining = { item_count (λ left. left) };

    fn next(&mut self) -> Option<&'a V> {
        match self.next_entry() {
            None => None,
            Some(entry) => Some(entry.value()),
        }
    }
}
