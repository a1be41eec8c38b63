//! Blocks: entries after the first octets of some of their keys.

ghost use Rattle.std.specs.Prelude.{◌≡◌, ◌+◌, ◌%◌, ◌<◌, ◌≤◌, length, slice_index_or, T, true, Some};
ghost use Rattle.std.specs.FinMap.{is_sorted};
ghost use Rattle.dz_chunks.specs.Map.{last_upto};
ghost use Rattle.dz_chunks.specs.inner.Chunked.{AreMarks, IsUptoAt, IsBehindAt, begins_upto};

use crate::entries::{RUN, last_from};
use crate::entry::Entry;
use crate::keyed::Keyed;
use crate::lead::{Lead, compare_lead};
use dz_steps::Steps;
use std::cmp::Ordering;
use std::marker::Model;
use std::sync::ledger::Ledger;

/// How many keys after the first have their first octets before the entries.
const MARKS: usize = 7;

/// Entries that are together. Before them are the first octets of each sixteenth key after the first: a search
/// reads these, which lie together, and then sixteen entries.
#[derive(Drop)]
pub(crate) struct Block<K: Lead, V: Keyed<K>> {
    marks: [[u8; 16]; MARKS],
    entries: Vec<Entry<K, V>>,
}

impl<K: Lead, V: Keyed<K>> Model for Block<K, V> {
    ghost use Rattle.std.specs.Prelude.{◌≡◌, List, length};
    ghost use Rattle.dz_chunks.specs.inner.Chunked.{AreMarks};

    ghost Value = { List (K × V) };

    ghost view = { λ b. b.entries.items };

    ghost invariant = { λ b. AreMarks K.lead b.marks 16 b.entries.items × (length b.marks ≡ 7) };
}

impl<K: Lead + Copy, V: Keyed<K>> Block<K, V> {
    /// The block of these entries.
    pub(crate) fn of(entries: Vec<Entry<K, V>>) -> Block<K, V>
        ensures { result ≡ entries.items }
    {
        Block {
            marks: marks_of(entries.as_slice()),
            entries,
        }
    }

    pub(crate) fn entries(&self) -> &[Entry<K, V>]
        ensures { result.now ≡ self.now }
    {
        self.entries.as_slice()
    }

    /// How the key at a mark compares with a key. The entries are read only where the first octets are alike. It is one step.
    fn compare_mark<L: Ledger>(&self, place: usize, key: &K, steps: &mut Steps<L>) -> Ordering
        requires behind { 0 < place }
        requires mark { place % 16 ≡ 0 }
        requires within { place < length self.now }
        requires short { length self.now ≤ 128 }
        ensures value { (d : K × V)
            → K.Ord.cmp (slice_index_or self.now place d).0 key.now ≡ result }
        ensures counted { steps.new ≡ steps.old + 1 }
    {
        match compare_lead(&self.marks[place / RUN - 1], key, steps) {
            Ordering::Equal => self.entries[place].compare(key, steps),
            order => order,
        }
    }

    /// The last of the places 0, 16, 32 and so on whose key doesn't come after a key. It takes a step for each but the first.
    fn last_run<L: Ledger>(&self, key: &K, steps: &mut Steps<L>) -> usize
        requires short { length self.now ≤ 128 }
        requires upto { begins_upto K.cmp key.now self.now ≡ true }
        ensures within { result < length self.now }
        ensures upto { IsUptoAt K.cmp key.now self.now result }
        ensures last { result + 16 < length self.now
            → IsBehindAt K.cmp key.now self.now (result + 16) }
        ensures cost { steps.new ≤ steps.old + 7 }
    {
        let end = self.entries().len();
        let mut found = 0;
        let mut place = 0;
        'marks: while RUN < end - place {
            place += RUN;
            if !self.compare_mark(place, key, steps).is_gt() {
                found = place;
            }
        }
        found
    }

    /// The value of the last entry whose key doesn't come after a key, where the first doesn't. It takes at most seven marks
    /// and fifteen entries.
    pub(crate) fn last_upto<L: Ledger>(&self, key: &K, steps: &mut Steps<L>) -> &V
        requires sorted { T (is_sorted K.cmp self.now) }
        requires short { length self.now ≤ 128 }
        requires upto { begins_upto K.cmp key.now self.now ≡ true }
        ensures value { Some (V.key result.now, result.now) ≡ last_upto K.cmp key.now self.now }
        ensures cost { steps.new ≤ steps.old + 22 }
    {
        let run = self.last_run(key, steps);
        last_from(self.entries.as_slice(), key, run, steps)
    }
}

/// The first octets of the key at a place, and zeros where there is none.
fn lead_at<K: Lead + Copy, V: Keyed<K>>(entries: &[Entry<K, V>], place: usize) -> [u8; 16]
    ensures { (d : K × V) → place < length entries.now
        → result ≡ K.lead (slice_index_or entries.now place d).0 }
{
    if place < entries.len() {
        entries[place].lead()
    } else {
        [0; 16]
    }
}

/// The first octets of each sixteenth key after the first, and zeros where there are none.
fn marks_of<K: Lead + Copy, V: Keyed<K>>(entries: &[Entry<K, V>]) -> [[u8; 16]; MARKS]
    ensures marks { AreMarks K.lead result 16 entries.now }
    ensures count { length result ≡ 7 }
{
    [
        lead_at(entries, 16),
        lead_at(entries, 32),
        lead_at(entries, 48),
        lead_at(entries, 64),
        lead_at(entries, 80),
        lead_at(entries, 96),
        lead_at(entries, 112),
    ]
}
