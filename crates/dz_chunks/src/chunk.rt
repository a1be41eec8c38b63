//! References to chunks of entries.

ghost use Rattle.std.specs.Prelude.{◌≡◌, ◌+◌, ◌≤◌, length, T, true, Some, IfOk};
ghost use Rattle.std.specs.FinMap.{is_sorted};
ghost use Rattle.dz_chunks.specs.Map.{last_upto};
ghost use Rattle.dz_chunks.specs.inner.Chunked.{ends_before, begins_upto};

use crate::block::Block;
use crate::entry::Entry;
use crate::keyed::Keyed;
use crate::lead::{Lead, compare_lead};
use crate::search::Question;
use dz_steps::Steps;
use std::alloc::{AllocError, Global};
use std::cmp::Ordering;
use std::marker::Model;
use std::sync::Arc;
use std::sync::ledger::Ledger;

/// The most entries of a chunk, and the fewest of two neighbours.
pub(crate) const CHUNK: usize = 128;

/// Entries that are together, at least one, which maps share. The first octets of the first key are beside the
/// reference to them, so that a search among chunks reads few of them.
#[derive(Drop)]
pub(crate) struct Chunk<K: Lead, V: Keyed<K>> {
    lead: [u8; 16],
    block: Arc<Block<K, V>>,
}

impl<K: Lead, V: Keyed<K>> Model for Chunk<K, V> {
    ghost use Rattle.std.specs.Prelude.{List};
    ghost use Rattle.std.specs.Arc.{arc_value};
    ghost use Rattle.dz_chunks.specs.inner.Chunked.{IsLedBy};

    ghost Value = { List (K × V) };

    ghost view = { λ c. arc_value c.block };

    ghost invariant = { λ c. IsLedBy K.lead c.lead (arc_value c.block) };
}

impl<K: Lead + Copy, V: Keyed<K>> Chunk<K, V> {
    /// The chunk of these entries. The error is want of memory.
    pub(crate) fn new(alloc: Global, entries: Vec<Entry<K, V>>) -> Result<Chunk<K, V>, AllocError>
    where
        V: Drop,
        requires { 1 ≤ length entries.items }
        ensures { IfOk result (λ chunk. chunk ≡ entries.items) }
    {
        Ok(Chunk {
            lead: entries[0].lead(),
            block: Arc::new(alloc, Block::of(entries))?,
        })
    }

    /// The same chunk once more: a second owner of its entries, and the one way to it. It is one step. The error is want of
    /// memory.
    pub(crate) fn copied<L: Ledger>(&self, steps: &mut Steps<L>) -> Result<Chunk<K, V>, AllocError>
        ensures copied { IfOk result (λ chunk. chunk ≡ self.now) }
        ensures counted { steps.new ≡ steps.old + 1 }
    {
        steps.tick();
        Ok(Chunk {
            lead: self.lead,
            block: Arc::try_clone(&self.block)?,
        })
    }

    pub(crate) fn entries(&self) -> &[Entry<K, V>]
        ensures { result.now ≡ self.now }
    {
        self.block.entries()
    }

    /// The value of the last entry whose key doesn't come after a key, where the first doesn't.
    pub(crate) fn last_upto<L: Ledger>(&self, key: &K, steps: &mut Steps<L>) -> &V
        requires sorted { T (is_sorted K.cmp self.now) }
        requires short { length self.now ≤ 128 }
        requires upto { begins_upto K.cmp key.now self.now ≡ true }
        ensures value { Some (V.key result.now, result.now) ≡ last_upto K.cmp key.now self.now }
        ensures cost { steps.new ≤ steps.old + 22 }
    {
        self.block.last_upto(key, steps)
    }

    /// Whether the last key comes before a key. It is one step.
    fn ends_before<L: Ledger>(&self, key: &K, steps: &mut Steps<L>) -> bool
        ensures value { result ≡ ends_before K.cmp key.now self.now }
        ensures counted { steps.new ≡ steps.old + 1 }
    {
        let _ = &self.lead;
        let entries = self.entries();
        let len = entries.len();
        entries[len - 1].compare(key, steps).is_lt()
    }

    /// Whether the first key doesn't come after a key. The entries are read only where the first octets are alike. It is one
    /// step.
    fn begins_upto<L: Ledger>(&self, key: &K, steps: &mut Steps<L>) -> bool
        ensures value { result ≡ begins_upto K.cmp key.now self.now }
        ensures counted { steps.new ≡ steps.old + 1 }
    {
        match compare_lead(&self.lead, key, steps) {
            Ordering::Equal => self.first_is_upto(key, steps),
            order => !order.is_gt(),
        }
    }

    /// The same by the first key.
    fn first_is_upto<L: Ledger>(&self, key: &K, steps: &mut Steps<L>) -> bool
        ensures value { result ≡ begins_upto K.cmp key.now self.now }
        ensures counted { steps.new ≡ steps.old + 1 }
    {
        let _ = &self.lead;
        let entries = self.entries();
        !entries[0].compare(key, steps).is_gt()
    }
}

/// Whether a chunk ends before a key.
#[derive(Drop)]
pub(crate) struct EndsBefore<'a, K: Lead> {
    pub(crate) key: &'a K,
}

impl<'a, K: Lead + Copy, V: Keyed<K>> Question<Chunk<K, V>> for EndsBefore<'a, K> {
    ghost holds = { λ question chunk. ends_before K.cmp question.key.now chunk };

    fn ask<L: Ledger>(&self, chunk: &Chunk<K, V>, steps: &mut Steps<L>) -> bool {
        chunk.ends_before(self.key, steps)
    }
}

/// Whether a chunk begins with a key that doesn't come after a key.
#[derive(Drop)]
pub(crate) struct BeginsUpto<'a, K: Lead> {
    pub(crate) key: &'a K,
}

impl<'a, K: Lead + Copy, V: Keyed<K>> Question<Chunk<K, V>> for BeginsUpto<'a, K> {
    ghost holds = { λ question chunk. begins_upto K.cmp question.key.now chunk };

    fn ask<L: Ledger>(&self, chunk: &Chunk<K, V>, steps: &mut Steps<L>) -> bool {
        chunk.begins_upto(self.key, steps)
    }
}
