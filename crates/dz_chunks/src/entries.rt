//! Entries in ascending order of their keys.

ghost use Rattle.std.specs.Prelude.{◌≡◌, ℕ, ◌+◌, ◌-◌, ◌<◌, ◌≤◌, List, [], ◌∷◌, ◌++◌, length, take, drop, T, true};
ghost use Rattle.std.specs.Prelude.{Some, OnOk, IfOk};
ghost use Rattle.std.specs.FinMap.{is_sorted, find, put};
ghost use Rattle.std.specs.Option.{option_map};
ghost use Rattle.std.specs.Ordering.{is_lt};
ghost use Rattle.dz_chunks.specs.Map.{last_upto, place_in, without_key};
ghost use Rattle.dz_chunks.specs.Search.{IsSearch};
ghost use Rattle.dz_chunks.specs.inner.Chunked.{AllBefore, NotBefore, begins_at, IsUptoAt, IsBehindAt};

use crate::copies::Copies;
use crate::entry::Entry;
use crate::keyed::Keyed;
use crate::lead::Lead;
use crate::search::{Question, count_of};
use dz_steps::Steps;
use std::alloc::{AllocError, Global};
use std::sync::ledger::Ledger;

/// How many entries there are from one whose first octets are beside the chunk to the next.
pub(crate) const RUN: usize = 16;

/// Copies entries after others, as long as there is memory.
pub(crate) fn copy_entries<K: Lead + Copy, V: Keyed<K> + Drop, L: Ledger>(
    copies: &mut Vec<Entry<K, V>>,
    entries: &[Entry<K, V>],
    steps: &mut Steps<L>,
) -> Result<(), AllocError>
    ensures copied { OnOk result (copies.new.items ≡ copies.old.items ++ entries.now) }
    ensures counted { OnOk result (steps.new ≡ steps.old + length entries.now) }
    ensures cost { steps.new ≤ steps.old + length entries.now }
{
    for entry in entries {
        copies.push(entry.copied(steps)?)?;
    }
    Ok(())
}

/// Whether an entry comes before a key.
#[derive(Drop)]
struct IsBefore<'a, K: Lead> {
    key: &'a K,
}

impl<'a, K: Lead + Copy, V: Keyed<K>> Question<Entry<K, V>> for IsBefore<'a, K> {
    ghost holds = { λ question entry. is_lt (K.Ord.cmp entry.0 question.key.now) };

    fn ask<L: Ledger>(&self, entry: &Entry<K, V>, steps: &mut Steps<L>) -> bool {
        entry.compare(self.key, steps).is_lt()
    }
}

/// The place of the first entry whose key doesn't come before a key.
fn place_of<K: Lead + Copy, V: Keyed<K>, L: Ledger>(
    entries: &[Entry<K, V>],
    key: &K,
    steps: &mut Steps<L>,
) -> usize
    requires { T (is_sorted K.cmp entries.now) }
    ensures within { result ≤ length entries.now }
    ensures before { AllBefore K.cmp key.now (take result entries.now) }
    ensures here { NotBefore K.cmp key.now (drop result entries.now) }
    ensures cost { IsSearch (length entries.now) (steps.new - steps.old) }
{
    count_of(entries, &IsBefore { key }, steps)
}

/// Whether a key is at a place.
fn is_at<K: Lead + Copy, V: Keyed<K>, L: Ledger>(
    entries: &[Entry<K, V>],
    place: usize,
    key: &K,
    steps: &mut Steps<L>,
) -> bool
    ensures value { result ≡ begins_at K.cmp key.now (drop place entries.now) }
    ensures cost { steps.new ≤ steps.old + 1 }
{
    place < entries.len() && entries[place].compare(key, steps).is_eq()
}

/// The value at a key.
pub(crate) fn value_of<'a, K: Lead + Copy, V: Keyed<K>, L: Ledger>(
    entries: &'a [Entry<K, V>],
    key: &K,
    steps: &mut Steps<L>,
) -> Option<&'a V>
    requires sorted { T (is_sorted K.cmp entries.now) }
    requires short { length entries.now ≤ 128 }
    ensures value { option_map (λ value. value.now) result ≡ find K.cmp key.now entries.now }
    ensures cost { steps.new ≤ steps.old + 9 }
{
    let place = place_of(entries, key, steps);
    if is_at(entries, place, key, steps) {
        Some(entries[place].value())
    } else {
        None
    }
}

/// The place of a key.
pub(crate) fn place_in<K: Lead + Copy, V: Keyed<K>, L: Ledger>(
    entries: &[Entry<K, V>],
    key: &K,
    steps: &mut Steps<L>,
) -> Option<usize>
    requires sorted { T (is_sorted K.cmp entries.now) }
    requires short { length entries.now ≤ 128 }
    ensures value { result ≡ place_in K.cmp key.now entries.now }
    ensures cost { steps.new ≤ steps.old + 9 }
{
    let place = place_of(entries, key, steps);
    if is_at(entries, place, key, steps) {
        Some(place)
    } else {
        None
    }
}

/// The last of the places from `begin` up to `end` whose key doesn't come after a key. It reads all of them,
/// without waiting for one to know which comes next: what is not in the cache comes at once. It takes a step for each but
/// the first.
fn last_between<K: Lead + Copy, V: Keyed<K>, L: Ledger>(
    entries: &[Entry<K, V>],
    key: &K,
    begin: usize,
    end: usize,
    steps: &mut Steps<L>,
) -> usize
    requires begin { begin < end }
    requires end { end ≤ length entries.now }
    requires upto { IsUptoAt K.cmp key.now entries.now begin }
    ensures within { result < end }
    ensures from { begin ≤ result }
    ensures upto { IsUptoAt K.cmp key.now entries.now result }
    ensures last { result + 1 < end → IsBehindAt K.cmp key.now entries.now (result + 1) }
    ensures counted { steps.new + (begin + 1) ≡ steps.old + end }
{
    let mut found = begin;
    let mut place = begin;
    'steps: while 1 < end - place {
        place += 1;
        if !entries[place].compare(key, steps).is_gt() {
            found = place;
        }
    }
    found
}

/// The value of the last entry whose key doesn't come after a key, where it is one of the sixteen from a place on.
pub(crate) fn last_from<'a, K: Lead + Copy, V: Keyed<K>, L: Ledger>(
    entries: &'a [Entry<K, V>],
    key: &K,
    run: usize,
    steps: &mut Steps<L>,
) -> &'a V
    requires sorted { T (is_sorted K.cmp entries.now) }
    requires within { run < length entries.now }
    requires upto { IsUptoAt K.cmp key.now entries.now run }
    requires last { run + 16 < length entries.now
        → IsBehindAt K.cmp key.now entries.now (run + 16) }
    ensures value { Some (V.key result.now, result.now) ≡ last_upto K.cmp key.now entries.now }
    ensures cost { steps.new ≤ steps.old + 15 }
{
    let end = run + RUN.min(entries.len() - run);
    let last = last_between(entries, key, run, end, steps);
    entries[last].value()
}

/// The entries with another value at a place.
fn replaced<K: Lead + Copy, V: Keyed<K> + Drop, L: Ledger>(
    alloc: Global,
    entries: &[Entry<K, V>],
    place: usize,
    value: V,
    steps: &mut Steps<L>,
) -> Result<Vec<Entry<K, V>>, AllocError>
    requires within { place < length entries.now }
    ensures items { IfOk result (λ v.
        v.items
        ≡ take place entries.now ++ (V.key value, value) ∷ drop (place + 1) entries.now) }
    ensures cost { steps.new ≤ steps.old + length entries.now }
{
    let mut copies = Vec::with_capacity(alloc, entries.len())?;
    copy_entries(&mut copies, &entries[..place], steps)?;
    copies.push(Entry::new(alloc, value)?)?;
    copy_entries(&mut copies, &entries[place + 1..], steps)?;
    Ok(copies)
}

/// The entries with one more at a place.
fn inserted<K: Lead + Copy, V: Keyed<K> + Drop, L: Ledger>(
    alloc: Global,
    entries: &[Entry<K, V>],
    place: usize,
    value: V,
    steps: &mut Steps<L>,
) -> Result<Vec<Entry<K, V>>, AllocError>
    requires within { place ≤ length entries.now }
    requires short { length entries.now ≤ 128 }
    ensures items { IfOk result (λ v.
        v.items ≡ take place entries.now ++ (V.key value, value) ∷ drop place entries.now) }
    ensures cost { steps.new ≤ steps.old + length entries.now }
{
    let mut copies = Vec::with_capacity(alloc, entries.len() + 1)?;
    copy_entries(&mut copies, &entries[..place], steps)?;
    copies.push(Entry::new(alloc, value)?)?;
    copy_entries(&mut copies, &entries[place..], steps)?;
    Ok(copies)
}

/// The entries but the one at a place.
fn removed<K: Lead + Copy, V: Keyed<K> + Drop, L: Ledger>(
    alloc: Global,
    entries: &[Entry<K, V>],
    place: usize,
    steps: &mut Steps<L>,
) -> Result<Vec<Entry<K, V>>, AllocError>
    requires within { place < length entries.now }
    ensures items { IfOk result (λ v.
        v.items ≡ take place entries.now ++ drop (place + 1) entries.now) }
    ensures cost { steps.new ≤ steps.old + length entries.now }
{
    let mut copies = Vec::with_capacity(alloc, entries.len())?;
    copy_entries(&mut copies, &entries[..place], steps)?;
    copy_entries(&mut copies, &entries[place + 1..], steps)?;
    Ok(copies)
}

/// The entries as they are.
fn unchanged<K: Lead + Copy, V: Keyed<K> + Drop, L: Ledger>(
    alloc: Global,
    entries: &[Entry<K, V>],
    steps: &mut Steps<L>,
) -> Result<Vec<Entry<K, V>>, AllocError>
    ensures items { IfOk result (λ v. v.items ≡ entries.now) }
    ensures cost { steps.new ≤ steps.old + length entries.now }
{
    let mut copies = Vec::with_capacity(alloc, entries.len())?;
    copy_entries(&mut copies, entries, steps)?;
    Ok(copies)
}

/// The entries with a value at its key.
pub(crate) fn with_entry<K: Lead + Copy, V: Keyed<K> + Drop, E: Ledger, R: Ledger, C: Ledger>(
    alloc: Global,
    entries: &[Entry<K, V>],
    key: &K,
    value: V,
    copies: &mut Copies<E, R, C>,
) -> Result<Vec<Entry<K, V>>, AllocError>
    requires sorted { T (is_sorted K.cmp entries.now) }
    requires short { length entries.now ≤ 128 }
    requires own { key.now ≡ V.key value }
    ensures put { IfOk result (λ v. v.items ≡ put K.cmp key.now value entries.now) }
    ensures cost { copies.new.entries ≤ copies.old.entries + length entries.now }
    ensures references { copies.new.references ≡ copies.old.references }
    ensures comparisons { copies.new.comparisons ≤ copies.old.comparisons + 9 }
{
    let place = place_of(entries, key, &mut copies.comparisons);
    if is_at(entries, place, key, &mut copies.comparisons) {
        replaced(alloc, entries, place, value, &mut copies.entries)
    } else {
        inserted(alloc, entries, place, value, &mut copies.entries)
    }
}

/// The entries but the one at a key.
pub(crate) fn without_entry<K: Lead + Copy, V: Keyed<K> + Drop, E: Ledger, R: Ledger, C: Ledger>(
    alloc: Global,
    entries: &[Entry<K, V>],
    key: &K,
    copies: &mut Copies<E, R, C>,
) -> Result<Vec<Entry<K, V>>, AllocError>
    requires sorted { T (is_sorted K.cmp entries.now) }
    requires short { length entries.now ≤ 128 }
    ensures left { IfOk result (λ v. v.items ≡ without_key K.cmp key.now entries.now) }
    ensures cost { copies.new.entries ≤ copies.old.entries + length entries.now }
    ensures references { copies.new.references ≡ copies.old.references }
    ensures comparisons { copies.new.comparisons ≤ copies.old.comparisons + 9 }
{
    let place = place_of(entries, key, &mut copies.comparisons);
    if is_at(entries, place, key, &mut copies.comparisons) {
        removed(alloc, entries, place, &mut copies.entries)
    } else {
        unchanged(alloc, entries, &mut copies.entries)
    }
}
