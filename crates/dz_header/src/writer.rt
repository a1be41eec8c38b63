//! Octets up to a limit, in memory that is allocated once.

ghost use Rattle.std.specs.Prelude.{◌≡◌, ◌+◌, ◌-◌, ◌≤◌, ◌++◌, take, drop, length, nat_le, List, ℕ, Some, None, IfOk};
ghost use Rattle.std.specs.Prelude.{IsSome, IsNone, is_some, not, option_map, if◌then◌else◌};
ghost use Rattle.std.specs.Borrow.{Array, Lends, sem, u8};
ghost use Rattle.std.specs.Option.{ForSome};
ghost use Rattle.dz_header.specs.Writing.{also, changed, empty, left, octets_with, over, room_with};
ghost use Rattle.dz_header.specs.Writing.{with_changed, with_room};
ghost use Rattle.dz_header.specs.contracts.writer.Writer.{the_row};
ghost use Rattle.dz_name.specs.Words.{Octets};

use dz_name::dns::MESSAGE_OCTETS;
use std::alloc::{AllocError, Global};
use std::marker::Model;

/// How many octets a buffer has: a message over TCP of 65,535 octets and its length in two (RFC 1035 section 4.2.2).
pub const BUFFER_OCTETS: usize = MESSAGE_OCTETS + 2;

/// Octets that are written up to a limit of at most 65,537, in memory that is allocated once and never grows. Contracts
/// see the limit, and the octets written, or none once more was to be written than fits. They also see the whole room
/// of 65,537 octets, which begins with what is written.
#[derive(Drop)]
pub struct Writer {
    octets: Vec<u8>,
    len: Option<usize>,
    limit: usize,
}

impl Model for Writer {
    ghost use Rattle.std.specs.Prelude.{take, length, option_map, ◌≡◌, ◌≤◌};
    ghost use Rattle.std.specs.Option.{ForSome};
    ghost use Rattle.dz_header.specs.Writing.{Writing, WriterState};
    ghost use Rattle.dz_header.specs.declared.writer.TheConstants.{BUFFER_OCTETS};

    ghost Value = { WriterState };

    ghost view = { λ w. record {
      writing = record {
        limit = w.limit;
        octets = option_map (λ n. take n w.octets.items) w.len;
      };
      room = w.octets.items;
    } };

    ghost invariant = { λ w. (length w.octets.items ≡ BUFFER_OCTETS) × (w.limit ≤ BUFFER_OCTETS)
        × ForSome w.len (λ n. n ≤ w.limit) };
}

impl Writer {
    /// A writer with no octets and a limit of 0.
    ///
    /// # Errors
    ///
    /// `AllocError` where there is no memory for 65,537 octets.
    pub fn new(alloc: Global) -> Result<Writer, AllocError>
        ensures writing { IfOk result (λ w. w.writing ≡ empty 0) }
        ensures room { IfOk result (λ w. length w.room ≡ BUFFER_OCTETS) }
    {
        let octets = Vec::from_elem(alloc, 0, BUFFER_OCTETS)?;
        Ok(Writer {
            octets,
            len: Some(0),
            limit: 0,
        })
    }

    /// Empties the writer, and sets the number of octets that may be written.
    pub fn begin(&mut self, limit: usize)
        requires { limit ≤ BUFFER_OCTETS }
        ensures writing { self.new.writing ≡ empty limit }
        ensures room { self.new.room ≡ self.old.room }
    {
        self.len = Some(0);
        self.limit = limit;
    }

    /// Writes octets after the others, where there is room for all of them. Where there isn't, nothing is written, then
    /// or later.
    pub fn put(&mut self, more: &[u8])
        ensures writing { self.new.writing ≡ also self.old.writing more.now }
        ensures room { self.new.room ≡ room_with self.old.room self.new.writing.octets }
    {
        self.extend(more);
    }

    /// Whether more was to be written than fits.
    pub fn is_over(&self) -> bool
        ensures { result ≡ not (is_some self.now.writing.octets) }
    {
        self.len.is_none()
    }

    /// How many more octets may be written: none once more was to be written than fits.
    pub fn left(&self) -> usize
        ensures { result ≡ left self.now.writing }
    {
        match self.len {
            None => 0,
            Some(len) => self.limit - len,
        }
    }

    /// Notes that more is to be written than fits: nothing is written, then or later.
    pub fn overflow(&mut self)
        ensures writing { self.new.writing ≡ over self.old.writing }
        ensures room { self.new.room ≡ self.old.room }
    {
        self.len = None;
    }

    /// Writes two octets in place of those at an offset.
    pub fn replace(&mut self, at: usize, pair: &[u8; 2])
        requires { at + 2 ≤ BUFFER_OCTETS }
        ensures writing { ForSome self.old.writing.octets (λ octets. at + 2 ≤ length octets)
            → self.new.writing ≡ with_changed at pair.now self.old.writing }
        ensures room { self.new.room ≡ changed at pair.now self.old.room }
    {
        self.rewrite(at, pair);
    }

    /// What was written.
    pub fn written(&self) -> &[u8]
        requires { IsSome self.now.writing.octets }
        ensures octets { self.now.writing.octets ≡ Some result.now }
        ensures front { result.now ≡ take (length result.now) self.now.room }
        ensures size { length result.now ≤ BUFFER_OCTETS }
    {
        &self.octets[..self.len.unwrap()]
    }

    /// The first `count` octets of the room; what was written is followed by what was written earlier.
    pub fn first(&self, count: usize) -> &[u8]
        requires { count ≤ BUFFER_OCTETS }
        ensures size { length result.now ≡ count }
        ensures octets { result.now ≡ take count self.now.room }
        ensures written { (text : Octets) → self.now.writing.octets ≡ Some text
            → count ≤ length text → result.now ≡ take count text }
    {
        &self.octets[..count]
    }

    /// The 65,537 octets, to be filled by other means, such as a device that reads into them. What was written is
    /// discarded.
    pub fn room_mut(&mut self) -> &mut [u8]
        ensures* lends { sem 𝓛 (Lends the_row (Array u8 0) self.entry result
            (with_room self.entry.now)) }
        ensures octets { result.now ≡ self.old.room }
        ensures size { length result.now ≡ BUFFER_OCTETS }
    {
        self.len = Some(0);
        self.limit = 0;
        self.octets.as_mut_slice()
    }

    /// Writes octets in place of those at an offset.
    fn rewrite(&mut self, at: usize, pair: &[u8])
        requires { at + length pair.now ≤ BUFFER_OCTETS }
        ensures limit { self.new.writing.limit ≡ self.old.writing.limit }
        ensures octets { ForSome self.old.writing.octets
            (λ octets. at + length pair.now ≤ length octets)
            → self.new.writing.octets
            ≡ option_map (changed at pair.now) self.old.writing.octets }
        ensures room { self.new.room ≡ changed at pair.now self.old.room }
    {
        change(&mut self.octets, self.len, at, pair);
    }

    /// Writes octets after the others, or notes that they don't fit.
    fn extend(&mut self, more: &[u8])
        ensures limit { self.new.writing.limit ≡ self.old.writing.limit }
        ensures octets { self.new.writing.octets
            ≡ octets_with self.old.writing.limit self.old.writing.octets more.now }
        ensures room { self.new.room ≡ room_with self.old.room self.new.writing.octets }
    {
        self.len = append(&mut self.octets, self.len, self.limit, more);
    }
}

/// Writes octets after the first `len`, where they fit before the limit, and returns the new length; none where they
/// don't.
fn append(octets: &mut Vec<u8>, len: Option<usize>, limit: usize, more: &[u8]) -> Option<usize>
    requires within { ForSome len (λ n. n ≤ limit) }
    requires room { limit ≤ length octets.old.items }
    ensures same { length octets.new.items ≡ length octets.old.items }
    ensures len { ForSome result (λ n. n ≤ limit) }
    ensures octets { option_map (λ n. take n octets.new.items) result
        ≡ octets_with limit (option_map (λ n. take n octets.old.items) len) more.now }
    ensures front { octets.new.items
        ≡ room_with octets.old.items (option_map (λ n. take n octets.new.items) result) }
{
    match len {
        None => None,
        Some(at) => place(octets, at, limit, more),
    }
}

/// Writes octets at an offset, where they fit before the limit, and returns the offset after them; none where they
/// don't.
fn place(octets: &mut Vec<u8>, at: usize, limit: usize, more: &[u8]) -> Option<usize>
    requires within { at ≤ limit }
    requires room { limit ≤ length octets.old.items }
    ensures len { length octets.new.items ≡ length octets.old.items }
    ensures end { result ≡ (if nat_le (length more.now) (limit - at)
        then Some (at + length more.now) else None) }
    ensures octets { IsSome result
        → octets.new.items ≡ take at octets.old.items
        ++ (more.now ++ drop (at + length more.now) octets.old.items) }
    ensures none { IsNone result → octets.new.items ≡ octets.old.items }
{
    if more.len() <= limit - at {
        let end = at + more.len();
        octets[at..end].copy_from_slice(more);
        Some(end)
    } else {
        None
    }
}

/// Writes octets in place of those at an offset, the first `len` of which were written.
fn change(octets: &mut Vec<u8>, len: Option<usize>, at: usize, pair: &[u8])
    requires room { at + length pair.now ≤ length octets.old.items }
    requires within { ForSome len (λ n. n ≤ length octets.old.items) }
    ensures same { length octets.new.items ≡ length octets.old.items }
    ensures written { ForSome (option_map (λ n. take n octets.old.items) len)
        (λ text. at + length pair.now ≤ length text)
        → option_map (λ n. take n octets.new.items) len
        ≡ option_map (changed at pair.now) (option_map (λ n. take n octets.old.items) len) }
    ensures room { octets.new.items ≡ changed at pair.now octets.old.items }
{
    put_at(octets, at, pair);
}

/// Writes octets in place of those at an offset.
fn put_at(octets: &mut Vec<u8>, at: usize, pair: &[u8])
    requires { at + length pair.now ≤ length octets.old.items }
    ensures same { length octets.new.items ≡ length octets.old.items }
    ensures octets { octets.new.items
        ≡ take at octets.old.items ++ (pair.now ++ drop (at + length pair.now) octets.old.items) }
{
    let end = at + pair.len();
    octets[at..end].copy_from_slice(pair);
}
