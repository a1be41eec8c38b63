//! A ranked map for callers that count nothing.

ghost use Rattle.std.specs.Prelude.{◌≡◌, IfOk};
ghost use Rattle.std.specs.FinMap.{find, put};
ghost use Rattle.std.specs.Option.{option_map};
ghost use Rattle.dz_chunks.specs.Map.{place_in, without_key};

use crate::copies::Copies;
use crate::keyed::Keyed;
use crate::lead::Lead;
use crate::ranked::Ranked;
use dz_steps::Steps;
use std::alloc::{AllocError, Global};
use std::marker::Brand;
use std::sync::ledger::{Blank, Ledger};

/// Ledgers that are still blank: one for each counter of a change.
struct Blanks {
    entries: Blank,
    references: Blank,
    comparisons: Blank,
}

/// Counters of a change, in ledgers that are still blank.
fn copies_in<E: Ledger, R: Ledger, C: Ledger>(blanks: Blanks) -> Copies<E, R, C>
    requires entries_name { blanks.entries.name ≡ E.name }
    requires entries_parts { blanks.entries.parts ≡ E.parts }
    requires entries_whole { blanks.entries.parts ≡ 1 }
    requires references_name { blanks.references.name ≡ R.name }
    requires references_parts { blanks.references.parts ≡ R.parts }
    requires references_whole { blanks.references.parts ≡ 1 }
    requires comparisons_name { blanks.comparisons.name ≡ C.name }
    requires comparisons_parts { blanks.comparisons.parts ≡ C.parts }
    requires comparisons_whole { blanks.comparisons.parts ≡ 1 }
{
    let Blanks {
        entries,
        references,
        comparisons,
    } = blanks;
    Copies {
        entries: Steps::<E>::new(entries),
        references: Steps::<R>::new(references),
        comparisons: Steps::<C>::new(comparisons),
    }
}

impl<K: Lead + Copy, V: Keyed<K>> Ranked<K, V> {
    /// The same as [`Ranked::get`], for a caller that counts nothing.
    pub fn find(&self, key: &K) -> Option<&V>
        ensures { option_map (λ value. value.now) result ≡ find K.cmp key.now self.now }
    {
        self.counted_find::<Brand>(Blank::new(1), key)
    }

    /// The same, counted in a ledger that is still blank.
    fn counted_find<L: Ledger>(&self, blank: Blank, key: &K) -> Option<&V>
        requires name { blank.name ≡ L.name }
        requires parts { blank.parts ≡ L.parts }
        requires whole { blank.parts ≡ 1 }
        ensures { option_map (λ value. value.now) result ≡ find K.cmp key.now self.now }
    {
        let mut steps = Steps::<L>::new(blank);
        self.get(key, &mut steps)
    }

    /// The same as [`Ranked::place_of`], for a caller that counts nothing.
    pub fn seat(&self, key: &K) -> Option<usize>
        ensures { result ≡ place_in K.cmp key.now self.now }
    {
        self.counted_seat::<Brand>(Blank::new(1), key)
    }

    /// The same, counted in a ledger that is still blank.
    fn counted_seat<L: Ledger>(&self, blank: Blank, key: &K) -> Option<usize>
        requires name { blank.name ≡ L.name }
        requires parts { blank.parts ≡ L.parts }
        requires whole { blank.parts ≡ 1 }
        ensures { result ≡ place_in K.cmp key.now self.now }
    {
        let mut steps = Steps::<L>::new(blank);
        self.place_of(key, &mut steps)
    }
}

impl<K: Lead + Copy, V: Keyed<K> + Drop> Ranked<K, V> {
    /// The same as [`Ranked::with`], for a caller that counts nothing.
    pub fn put(&self, alloc: Global, value: V) -> Result<Ranked<K, V>, AllocError>
        ensures { IfOk result (λ changed. changed ≡ put K.cmp (V.key value) value self.now) }
    {
        let blanks = Blanks {
            entries: Blank::new(1),
            references: Blank::new(1),
            comparisons: Blank::new(1),
        };
        self.counted_put::<Brand, Brand, Brand>(blanks, alloc, value)
    }

    /// The same, counted in ledgers that are still blank.
    fn counted_put<E: Ledger, R: Ledger, C: Ledger>(
        &self,
        blanks: Blanks,
        alloc: Global,
        value: V,
    ) -> Result<Ranked<K, V>, AllocError>
        requires entries_name { blanks.entries.name ≡ E.name }
        requires entries_parts { blanks.entries.parts ≡ E.parts }
        requires entries_whole { blanks.entries.parts ≡ 1 }
        requires references_name { blanks.references.name ≡ R.name }
        requires references_parts { blanks.references.parts ≡ R.parts }
        requires references_whole { blanks.references.parts ≡ 1 }
        requires comparisons_name { blanks.comparisons.name ≡ C.name }
        requires comparisons_parts { blanks.comparisons.parts ≡ C.parts }
        requires comparisons_whole { blanks.comparisons.parts ≡ 1 }
        ensures { IfOk result (λ changed. changed ≡ put K.cmp (V.key value) value self.now) }
    {
        let mut copies = copies_in::<E, R, C>(blanks);
        self.with(alloc, value, &mut copies)
    }

    /// The same as [`Ranked::without`], for a caller that counts nothing.
    pub fn remove(&self, alloc: Global, key: &K) -> Result<Ranked<K, V>, AllocError>
        ensures { IfOk result (λ changed. changed ≡ without_key K.cmp key.now self.now) }
    {
        let blanks = Blanks {
            entries: Blank::new(1),
            references: Blank::new(1),
            comparisons: Blank::new(1),
        };
        self.counted_remove::<Brand, Brand, Brand>(blanks, alloc, key)
    }

    /// The same, counted in ledgers that are still blank.
    fn counted_remove<E: Ledger, R: Ledger, C: Ledger>(
        &self,
        blanks: Blanks,
        alloc: Global,
        key: &K,
    ) -> Result<Ranked<K, V>, AllocError>
        requires entries_name { blanks.entries.name ≡ E.name }
        requires entries_parts { blanks.entries.parts ≡ E.parts }
        requires entries_whole { blanks.entries.parts ≡ 1 }
        requires references_name { blanks.references.name ≡ R.name }
        requires references_parts { blanks.references.parts ≡ R.parts }
        requires references_whole { blanks.references.parts ≡ 1 }
        requires comparisons_name { blanks.comparisons.name ≡ C.name }
        requires comparisons_parts { blanks.comparisons.parts ≡ C.parts }
        requires comparisons_whole { blanks.comparisons.parts ≡ 1 }
        ensures { IfOk result (λ changed. changed ≡ without_key K.cmp key.now self.now) }
    {
        let mut copies = copies_in::<E, R, C>(blanks);
        self.without(alloc, key, &mut copies)
    }
}
