//! Chunks with other entries in place of one: split where they are too many, joined with a neighbour where they are few.

ghost use Rattle.std.specs.Prelude.{◌≡◌, ℕ, ◌+◌, ◌-◌, ◌<◌, ◌≤◌, List, [], ◌∷◌, ◌++◌, length, take, drop, map, OnOk};
ghost use Rattle.std.specs.Prelude.{IfOk};
ghost use Rattle.dz_chunks.specs.Chunked.{flat, AreChunks};
ghost use Rattle.dz_chunks.specs.inner.Chunked.{length_at, length_before};

use crate::among::{copy_chunks, length_at, length_before, push_chunk};
use crate::chunk::{CHUNK, Chunk};
use crate::copies::Copies;
use crate::entries::copy_entries;
use crate::entry::Entry;
use crate::keyed::Keyed;
use crate::lead::Lead;
use dz_steps::Steps;
use std::alloc::{AllocError, Global};
use std::sync::Arc;
use std::sync::ledger::Ledger;

/// The first part of a split.
const HALF: usize = 64;

/// Entries, and the place before which, or after which, they are.
#[derive(Drop)]
struct Part<K: Lead, V: Keyed<K>> {
    place: usize,
    entries: Vec<Entry<K, V>>,
}

/// Copies of entries before others.
fn prepended<K: Lead + Copy, V: Keyed<K> + Drop, L: Ledger>(
    alloc: Global,
    first: &[Entry<K, V>],
    mut rest: Vec<Entry<K, V>>,
    steps: &mut Steps<L>,
) -> Result<Vec<Entry<K, V>>, AllocError>
    ensures items { IfOk result (λ v. v.items ≡ first.now ++ rest.items) }
    ensures counted { IfOk result (λ v. steps.new ≡ steps.old + length first.now) }
    ensures cost { steps.new ≤ steps.old + length first.now }
{
    let mut both = Vec::with_capacity(alloc, CHUNK)?;
    copy_entries(&mut both, first, steps)?;
    both.append(&mut rest)?;
    Ok(both)
}

/// Entries together with the chunk before a place, if they are fewer than 128 together.
fn joined_before<K: Lead + Copy, V: Keyed<K> + Drop, L: Ledger>(
    alloc: Global,
    chunks: &[Chunk<K, V>],
    at: usize,
    entries: Vec<Entry<K, V>>,
    steps: &mut Steps<L>,
) -> Result<Part<K, V>, AllocError>
    requires within { at ≤ length chunks.now }
    requires short { length entries.items ≤ 128 }
    requires sized { AreChunks chunks.now }
    ensures within { IfOk result (λ part. part.place ≤ at) }
    ensures entries { IfOk result (λ part.
        flat (take part.place chunks.now) ++ part.entries.items
        ≡ flat (take at chunks.now) ++ entries.items) }
    ensures short { IfOk result (λ part. length part.entries.items ≤ 128) }
    ensures longer { IfOk result (λ part. length entries.items ≤ length part.entries.items) }
    ensures joined { IfOk result (λ part.
        128 ≤ length_before chunks.now part.place + length part.entries.items) }
    ensures counted { IfOk result (λ part.
        steps.new + length entries.items ≡ steps.old + length part.entries.items) }
    ensures cost { steps.new + length entries.items ≤ steps.old + 128 }
{
    let room = CHUNK - entries.len();
    if length_before(chunks, at) >= room {
        return Ok(Part { place: at, entries });
    }
    let entries = prepended(alloc, chunks[at - 1].entries(), entries, steps)?;
    Ok(Part {
        place: at - 1,
        entries,
    })
}

/// Entries together with the chunk at a place after them, if they are fewer than 128 together.
fn joined_behind<K: Lead + Copy, V: Keyed<K> + Drop, L: Ledger>(
    chunks: &[Chunk<K, V>],
    at: usize,
    mut entries: Vec<Entry<K, V>>,
    steps: &mut Steps<L>,
) -> Result<Part<K, V>, AllocError>
    requires within { at ≤ length chunks.now }
    requires short { length entries.items ≤ 128 }
    requires sized { AreChunks chunks.now }
    ensures within { IfOk result (λ part. part.place ≤ length chunks.now) }
    ensures later { IfOk result (λ part. at ≤ part.place) }
    ensures entries { IfOk result (λ part.
        part.entries.items ++ flat (drop part.place chunks.now)
        ≡ entries.items ++ flat (drop at chunks.now)) }
    ensures short { IfOk result (λ part. length part.entries.items ≤ 128) }
    ensures longer { IfOk result (λ part. length entries.items ≤ length part.entries.items) }
    ensures joined { IfOk result (λ part.
        128 ≤ length part.entries.items + length_at chunks.now part.place) }
    ensures counted { IfOk result (λ part.
        steps.new + length entries.items ≡ steps.old + length part.entries.items) }
    ensures cost { steps.new + length entries.items ≤ steps.old + 128 }
{
    let room = CHUNK - entries.len();
    if length_at(chunks, at) >= room {
        return Ok(Part { place: at, entries });
    }
    copy_entries(&mut entries, chunks[at].entries(), steps)?;
    Ok(Part {
        place: at + 1,
        entries,
    })
}

/// The chunks but the one at a place.
fn without_chunk<K: Lead + Copy, V: Keyed<K> + Drop, L: Ledger>(
    alloc: Global,
    chunks: &[Chunk<K, V>],
    at: usize,
    steps: &mut Steps<L>,
) -> Result<Vec<Chunk<K, V>>, AllocError>
    requires within { at < length chunks.now }
    requires sized { AreChunks chunks.now }
    requires last { length_at chunks.now at ≤ 1 }
    ensures entries { IfOk result (λ v.
        flat v.items
        ≡ flat (take at chunks.now)
        ++ flat (drop (at + 1) chunks.now)) }
    ensures sized { IfOk result (λ v. AreChunks v.items) }
    ensures cost { steps.new ≤ steps.old + length chunks.now }
{
    let mut copies = Vec::with_capacity(alloc, chunks.len())?;
    copy_chunks(&mut copies, &chunks[..at], steps)?;
    copy_chunks(&mut copies, &chunks[at + 1..], steps)?;
    Ok(copies)
}

/// The chunks with these entries in place of one, joined with its neighbours where they are few.
fn with_chunk<K: Lead + Copy, V: Keyed<K> + Drop, E: Ledger, R: Ledger, C: Ledger>(
    alloc: Global,
    chunks: &[Chunk<K, V>],
    at: usize,
    entries: Vec<Entry<K, V>>,
    copies: &mut Copies<E, R, C>,
) -> Result<Vec<Chunk<K, V>>, AllocError>
    requires within { at < length chunks.now }
    requires sized { AreChunks chunks.now }
    requires some { 1 ≤ length entries.items }
    requires short { length entries.items ≤ 128 }
    ensures entries { IfOk result (λ v.
        flat v.items
        ≡ flat (take at chunks.now) ++ (entries.items
        ++ flat (drop (at + 1) chunks.now))) }
    ensures sized { IfOk result (λ v. AreChunks v.items) }
    ensures entry_cost { copies.new.entries ≤ copies.old.entries + 128 }
    ensures reference_cost { copies.new.references ≤ copies.old.references + length chunks.now }
    ensures comparisons { copies.new.comparisons ≡ copies.old.comparisons }
{
    let before = joined_before(alloc, chunks, at, entries, &mut copies.entries)?;
    let behind = joined_behind(chunks, at + 1, before.entries, &mut copies.entries)?;
    let mut made = Vec::with_capacity(alloc, chunks.len())?;
    copy_chunks(&mut made, &chunks[..before.place], &mut copies.references)?;
    push_chunk(alloc, &mut made, behind.entries)?;
    copy_chunks(&mut made, &chunks[behind.place..], &mut copies.references)?;
    Ok(made)
}

/// The chunks with 129 entries in place of one: split into 64 and 65, each of which is joined with its neighbour where
/// they are few.
fn with_split<K: Lead + Copy, V: Keyed<K> + Drop, E: Ledger, R: Ledger, C: Ledger>(
    alloc: Global,
    chunks: &[Chunk<K, V>],
    at: usize,
    entries: Vec<Entry<K, V>>,
    copies: &mut Copies<E, R, C>,
) -> Result<Vec<Chunk<K, V>>, AllocError>
    requires within { at < length chunks.now }
    requires sized { AreChunks chunks.now }
    requires full { length entries.items ≡ 129 }
    ensures entries { IfOk result (λ v.
        flat v.items
        ≡ flat (take at chunks.now) ++ (entries.items
        ++ flat (drop (at + 1) chunks.now))) }
    ensures sized { IfOk result (λ v. AreChunks v.items) }
    ensures entry_cost { copies.new.entries ≤ copies.old.entries + 128 }
    ensures reference_cost { copies.new.references ≤ copies.old.references + length chunks.now }
    ensures comparisons { copies.new.comparisons ≡ copies.old.comparisons }
{
    let (first, second) = halves(entries)?;
    let before = joined_before(alloc, chunks, at, first, &mut copies.entries)?;
    let behind = joined_behind(chunks, at + 1, second, &mut copies.entries)?;
    let mut made = Vec::with_capacity(alloc, chunks.len().saturating_add(1))?;
    copy_chunks(&mut made, &chunks[..before.place], &mut copies.references)?;
    push_chunk(alloc, &mut made, before.entries)?;
    push_chunk(alloc, &mut made, behind.entries)?;
    copy_chunks(&mut made, &chunks[behind.place..], &mut copies.references)?;
    Ok(made)
}

/// 129 entries split into 64 and 65.
fn halves<K: Lead + Copy, V: Keyed<K> + Drop>(
    mut entries: Vec<Entry<K, V>>,
) -> Result<(Vec<Entry<K, V>>, Vec<Entry<K, V>>), AllocError>
    requires { length entries.items ≡ 129 }
    ensures first_length { IfOk result (λ halves. length halves.0.items ≡ 64) }
    ensures second_length { IfOk result (λ halves. length halves.1.items ≡ 65) }
    ensures first { IfOk result (λ halves. halves.0.items ≡ take 64 entries.items) }
    ensures second { IfOk result (λ halves. halves.1.items ≡ drop 64 entries.items) }
{
    let second = entries.split_off(HALF)?;
    entries.shrink_to_fit();
    Ok((entries, second))
}

/// The chunks with these entries in place of those of one.
pub(crate) fn rebuilt<K: Lead + Copy, V: Keyed<K> + Drop, E: Ledger, R: Ledger, C: Ledger>(
    alloc: Global,
    chunks: &[Chunk<K, V>],
    at: usize,
    entries: Vec<Entry<K, V>>,
    copies: &mut Copies<E, R, C>,
) -> Result<Vec<Chunk<K, V>>, AllocError>
    requires within { at < length chunks.now }
    requires sized { AreChunks chunks.now }
    requires short { length entries.items ≤ 129 }
    requires near { length_at chunks.now at ≤ length entries.items + 1 }
    ensures entries { IfOk result (λ v.
        flat v.items
        ≡ flat (take at chunks.now) ++ (entries.items
        ++ flat (drop (at + 1) chunks.now))) }
    ensures sized { IfOk result (λ v. AreChunks v.items) }
    ensures entry_cost { copies.new.entries ≤ copies.old.entries + 128 }
    ensures reference_cost { copies.new.references ≤ copies.old.references + length chunks.now }
    ensures comparisons { copies.new.comparisons ≡ copies.old.comparisons }
{
    if entries.is_empty() {
        without_chunk(alloc, chunks, at, &mut copies.references)
    } else if entries.len() > CHUNK {
        with_split(alloc, chunks, at, entries, copies)
    } else {
        with_chunk(alloc, chunks, at, entries, copies)
    }
}
