//! An index of owners.

ghost use Rattle.std.specs.Prelude.{◌≡◌, ◌↔◌, ℕ, ◌+◌, ◌-◌, ◌^◌, ◌<◌, ◌≤◌, List, [], ◌∷◌, ◌++◌, length, None, IfOk};
ghost use Rattle.std.specs.Prelude.{IfSome, slice_index, slice_index_or, slice_range, nat_lt, ◌&&◌, false, true, OnOk};
ghost use Rattle.std.specs.Prelude.{OnErr};
ghost use Rattle.std.specs.Ordering.{is_eq, is_gt};
ghost use Rattle.dz_name.specs.Words.{Name};
ghost use Rattle.dz_index.specs.Index.{IsFirstOf, IsEndOf, IsRun, InOrder, order_behind, IsSearch, TakesAtMost};
ghost use Rattle.dz_index.specs.Rows.{count, total, key_at, compared, IsIndex, AreRising};
ghost use Rattle.dz_index.specs.SortKey.{key_of};
ghost use Rattle.dz_index.specs.inner.Kept.{IsPlaceAmong, repeated, added, last_compared};
ghost use Rattle.dz_index.specs.inner.Portion.{IsPortion, IsPlaces, places_with, joined, continued};

use crate::keys::Keys;
use crate::owner_key::OwnerKey;
use crate::places::extend_moved;
use crate::sort_key::{ROOM, SortKey};
use dz_name::{Name, NameRef};
use dz_steps::Steps;
use std::alloc::{AllocError, Global};
use std::cmp::Ordering;
use std::marker::{Brand, Model};
use std::sync::ledger::{Blank, Ledger};

/// The most owners of an index, each as often as it comes: a zone of 250,000 records, and the 500,000 that a transfer
/// may add to it.
pub const OWNERS: usize = 750_000;

/// The distinct owners of a zone, each with the place of its first record: their sort keys, and eight octets beside each.
/// Contracts see the keys and the places.
#[derive(Debug, Drop)]
pub struct Index {
    keys: Keys,
    firsts: Vec<u32>,
}

/// A run of records: from one place up to another, and the number of its owner, which is how many owners come before it.
#[derive(Clone, Copy, Debug, PartialEq, Eq)]
pub struct Run {
    pub number: usize,
    pub begin: usize,
    pub end: usize,
}

/// The records of an index from one place up to another, and the owners that they have: from one number up to another.
#[derive(Clone, Copy)]
struct Portion {
    from: usize,
    to: usize,
    begin: usize,
    end: usize,
}

impl Model for Index {
    ghost use Rattle.dz_index.specs.Rows.{Rows};
    ghost use Rattle.dz_index.specs.inner.Kept.{IsKept};

    ghost Value = { Rows };

    ghost view = { λ i. record { keys = i.keys; firsts = i.firsts.items } };

    ghost invariant = { λ i. IsKept (record { keys = i.keys; firsts = i.firsts.items }) };
}

/// The index of owners, counted in a ledger that is still blank.
fn index_over<L: Ledger>(
    blank: Blank,
    alloc: Global,
    owners: Vec<Name>,
) -> Result<Index, AllocError>
    requires name { blank.name ≡ L.name }
    requires parts { blank.parts ≡ L.parts }
    requires whole { blank.parts ≡ 1 }
    requires few { length owners.items ≤ OWNERS }
    requires order { InOrder owners.items }
    ensures { IfOk result (IsIndex owners.items) }
{
    let mut steps = Steps::<L>::new(blank);
    let mut index = Index::empty(alloc)?;
    let mut key = OwnerKey::empty();
    'owners: for owner in &owners {
        index.put(&owner.as_ref(), &mut key, &mut steps)?;
    }
    Ok(index)
}

impl Index {
    /// The index of owners in canonical order, each of which may come more than once. The error is want of memory.
    pub fn over(alloc: Global, owners: Vec<Name>) -> Result<Index, AllocError>
        requires few { length owners.items ≤ OWNERS }
        requires order { InOrder owners.items }
        ensures { IfOk result (IsIndex owners.items) }
    {
        index_over::<Brand>(Blank::new(1), alloc, owners)
    }

    /// No owner yet. The error is want of memory.
    pub fn empty(alloc: Global) -> Result<Index, AllocError>
        ensures { IfOk result (IsIndex []) }
    {
        Ok(Index {
            keys: Keys::empty(alloc)?,
            firsts: vec![in alloc; 0]?,
        })
    }

    /// No owner yet, with room for as many as another index has. The error is want of memory.
    pub fn beside(alloc: Global, other: &Index) -> Result<Index, AllocError>
        ensures { IfOk result (IsIndex []) }
    {
        let mut firsts = Vec::with_capacity(alloc, other.firsts.len())?;
        firsts.push(0)?;
        Ok(Index {
            keys: Keys::beside(alloc, &other.keys)?,
            firsts,
        })
    }

    /// One more owner after the others, or the last one once more, in place; and how the last one compares with it,
    /// which is before it where there is none. An owner that comes before the last one isn't added, nor is one where
    /// memory runs out. It takes one comparison where there is an owner already, and none where there is none.
    pub fn put<L: Ledger>(
        &mut self,
        name: &NameRef<'_>,
        key: &mut OwnerKey,
        steps: &mut Steps<L>,
    ) -> Result<Ordering, AllocError>
        requires few { total self.old < OWNERS }
        ensures total { IfOk result (λ o. is_gt o ≡ false → total self.new ≡ total self.old + 1) }
        ensures order { (owners : List Name) → IsIndex owners self.old
            → IfOk result (λ o. o ≡ order_behind owners name.now) }
        ensures index { (owners : List Name) → IsIndex owners self.old
            → IfOk result (λ o. is_gt o ≡ false → IsIndex (owners ++ name.now ∷ []) self.new) }
        ensures kept { IfOk result (λ o. is_gt o ≡ true → self.new ≡ self.old) }
        ensures wanting { OnErr result (self.new ≡ self.old) }
        ensures key { key.new ≡ key_of name.now }
        ensures one { 0 < count self.old → steps.new ≡ steps.old + 1 }
        ensures none { count self.old ≡ 0 → steps.new ≡ steps.old }
    {
        let _ = &self.firsts;
        key.set(name);
        let order = self.last_cmp(key.octets(), steps);
        match order {
            Ordering::Less => self.add(key.octets())?,
            Ordering::Equal => self.repeat(),
            Ordering::Greater => {}
        }
        Ok(order)
    }

    /// The owners of another index's records from one place up to another after the others; and how the last owner
    /// here compares with the first of them, which is before it where there is none. Where it comes after it, nothing
    /// is added. It takes one comparison where there is an owner already, and none where there is none; keys and places
    /// are copied in blocks. The error is want of memory.
    pub fn with_run<L: Ledger>(
        self,
        other: &Index,
        begin: usize,
        end: usize,
        steps: &mut Steps<L>,
    ) -> Result<(Index, Ordering), AllocError>
        requires some { begin < end }
        requires within { end ≤ total other.now }
        requires few { total self + (end - begin) ≤ OWNERS }
        ensures order { (owners others : List Name) (d : Name) → IsIndex owners self
            → IsIndex others other.now
            → IfOk result (λ r. r.1 ≡ order_behind owners (slice_index_or others begin d)) }
        ensures index { (owners others : List Name) → IsIndex owners self
            → IsIndex others other.now → IfOk result (λ r. is_gt r.1 ≡ false
            → IsIndex (owners ++ slice_range others begin end) r.0) }
        ensures total { IfOk result (λ r. is_gt r.1 ≡ false
            → total r.0 ≡ total self + (end - begin)) }
        ensures kept { IfOk result (λ r. is_gt r.1 ≡ true → r.0 ≡ self) }
        ensures one { 0 < count self → steps.new ≡ steps.old + 1 }
        ensures none { count self ≡ 0 → steps.new ≡ steps.old }
    {
        let _ = &self.firsts;
        let _ = &other.firsts;
        let portion = other.portion(begin, end);
        let order = self.last_cmp_of(other, portion.from, steps);
        let index = match order {
            Ordering::Less => self.joined(other, portion)?,
            Ordering::Equal => self.continued(other, portion)?,
            Ordering::Greater => self,
        };
        Ok((index, order))
    }

    /// How many owners come before a name in canonical order, which is the place of its first record.
    pub fn first_of<L: Ledger>(&self, name: &Name, steps: &mut Steps<L>) -> usize
        ensures within { result ≤ total self.now }
        ensures place { (owners : List Name) → IsIndex owners self.now
            → IsFirstOf name.now owners result }
        ensures cost { IsSearch (count self.now) (steps.new - steps.old) }
        ensures counted { steps.old ≤ steps.new }
    {
        let key = SortKey::of(&name.as_ref());
        let found = self.search(key.octets(), steps);
        self.first(found)
    }

    /// Where the records of an owner begin and end, or would be. It takes one comparison more than the search.
    pub fn run_of<L: Ledger>(&self, name: &NameRef<'_>, steps: &mut Steps<L>) -> Run
        ensures begins { result.begin ≤ total self.now }
        ensures ends { result.end ≤ total self.now }
        ensures begin { (owners : List Name) → IsIndex owners self.now
            → IsFirstOf name.now owners result.begin }
        ensures end { (owners : List Name) → IsIndex owners self.now
            → IsEndOf name.now owners result.end }
        ensures number { result.number ≤ count self.now }
        ensures first { result.begin ≡ slice_index self.now.firsts result.number }
        ensures cost { TakesAtMost (total self.now) (steps.new - steps.old) }
        ensures counted { steps.old ≤ steps.new }
    {
        let mut sort_key = SortKey::empty();
        sort_key.set(name);
        let key = sort_key.octets();
        let found = self.search(key, steps);
        let begin = self.first(found);
        if self.has_key(found, key, steps) {
            Run {
                number: found,
                begin,
                end: self.end(found),
            }
        } else {
            Run {
                number: found,
                begin,
                end: begin,
            }
        }
    }

    /// Where the records of the owner begin and end before which there are so many others; none where there aren't as
    /// many. It takes no comparison.
    pub fn run_at(&self, number: usize) -> Option<Run>
        ensures none { (result ≡ None) ↔ (count self.now ≤ number) }
        ensures number { IfSome result (λ run. run.number ≡ number) }
        ensures ends { IfSome result (λ run. run.end ≤ total self.now) }
        ensures run { (owners : List Name) → IsIndex owners self.now
            → IfSome result (λ run. IsRun owners run.begin run.end) }
    {
        if self.len() <= number {
            return None;
        }
        Some(Run {
            number,
            begin: self.first(number),
            end: self.end(number),
        })
    }

    /// Gives back the memory that was taken beyond these owners.
    pub fn fit(&mut self)
        ensures { self.new ≡ self.old }
    {
        self.keys.fit();
        self.firsts.shrink_to_fit();
    }

    /// How many distinct owners there are.
    pub fn len(&self) -> usize
        ensures count { result ≡ count self.now }
        ensures few { result ≤ total self.now }
    {
        self.keys.len()
    }

    /// How many owners there are, each as often as it comes.
    pub fn total(&self) -> usize
        ensures { result ≡ total self.now }
    {
        self.first(self.len())
    }

    /// The place of the first record of an owner, and after the last owner how many records there are.
    fn first(&self, number: usize) -> usize
        requires { number ≤ count self.now }
        ensures first { result ≡ slice_index self.now.firsts number }
        ensures within { result ≤ total self.now }
    {
        self.firsts[number] as usize
    }

    /// The place after the records of an owner.
    fn end(&self, number: usize) -> usize
        requires { number < count self.now }
        ensures end { result ≡ slice_index self.now.firsts (number + 1) }
        ensures within { result ≤ total self.now }
    {
        self.firsts[number + 1] as usize
    }

    /// Whether there is an owner of this number and it has this key. It takes one comparison where there is such an owner.
    fn has_key<L: Ledger>(&self, number: usize, key: &[u8], steps: &mut Steps<L>) -> bool
        requires { number ≤ count self.now }
        ensures value { result ≡ (nat_lt number (count self.now)
            && is_eq (compared (key_at self.now number) key.now)) }
        ensures one { number < count self.now → steps.new ≡ steps.old + 1 }
        ensures none { number ≡ count self.now → steps.new ≡ steps.old }
    {
        if number == self.len() {
            return false;
        }
        self.keys.compare(number, key, steps).is_eq()
    }

    /// How many keys come before a key.
    fn search<L: Ledger>(&self, key: &[u8], steps: &mut Steps<L>) -> usize
        ensures within { result ≤ count self.now }
        ensures few { count self.now ≤ total self.now }
        ensures place { AreRising self.now → IsPlaceAmong key.now self.now result }
        ensures cost { IsSearch (count self.now) (steps.new - steps.old) }
        ensures counted { steps.old ≤ steps.new }
    {
        let mut low = 0;
        let mut high = self.len();
        'search: while low < high {
            let middle = low + (high - low) / 2;
            if self.keys.compare(middle, key, steps).is_lt() {
                low = middle + 1;
            } else {
                high = middle;
            }
        }
        low
    }

    /// How the last key compares with this one: before it where there is none.
    fn last_cmp<L: Ledger>(&self, key: &[u8], steps: &mut Steps<L>) -> Ordering
        ensures value { result ≡ last_compared self.now key.now }
        ensures one { 0 < count self.now → steps.new ≡ steps.old + 1 }
        ensures none { count self.now ≡ 0 → steps.new ≡ steps.old }
    {
        let count = self.len();
        if count == 0 {
            return Ordering::Less;
        }
        self.keys.compare(count - 1, key, steps)
    }

    /// The last owner once more.
    fn repeat(&mut self)
        requires few { total self.old < OWNERS }
        requires some { 0 < count self.old }
        ensures { self.new ≡ repeated self.old }
    {
        let last = self.firsts.len() - 1;
        self.firsts[last] += 1;
    }

    /// An owner with a key of its own after the others. If memory runs out, nothing is added.
    fn add(&mut self, key: &[u8]) -> Result<(), AllocError>
        requires few { total self.old < OWNERS }
        requires room { length key.now ≤ ROOM }
        ensures value { OnOk result (self.new ≡ added self.old key.now) }
        ensures wanting { OnErr result (self.new ≡ self.old) }
    {
        let total = self.firsts[self.firsts.len() - 1];
        self.firsts.push(total + 1)?;
        if self.keys.push(key).is_err() {
            self.firsts.pop();
            return Err(AllocError);
        }
        Ok(())
    }

    /// How the last key compares with one of another index: before it where there is none.
    fn last_cmp_of<L: Ledger>(&self, other: &Index, number: usize, steps: &mut Steps<L>) -> Ordering
        requires { number < count other.now }
        ensures value { result ≡ last_compared self.now (key_at other.now number) }
        ensures one { 0 < count self.now → steps.new ≡ steps.old + 1 }
        ensures none { count self.now ≡ 0 → steps.new ≡ steps.old }
    {
        let count = self.len();
        if count == 0 {
            return Ordering::Less;
        }
        self.keys
            .compare_with(count - 1, &other.keys, number, steps)
    }

    /// How many places of `firsts` come before this one.
    fn firsts_before(&self, place: usize) -> usize
        ensures within { result ≤ count self.now + 1 }
        ensures before { (i : ℕ) → i < result → slice_index self.now.firsts i < place }
        ensures behind { (i : ℕ) → result ≤ i → i ≤ count self.now
            → place ≤ slice_index self.now.firsts i }
    {
        self.firsts
            .as_slice()
            .partition_point(|first| (*first as usize) < place)
    }

    /// The owners of the records from one place up to another.
    fn portion(&self, begin: usize, end: usize) -> Portion
        requires some { begin < end }
        requires within { end ≤ total self.now }
        ensures portion { IsPortion self.now result }
        ensures begin { result.begin ≡ begin }
        ensures end { result.end ≡ end }
    {
        let _ = &self.firsts;
        Portion {
            from: self.firsts_before(begin + 1) - 1,
            to: self.firsts_before(end),
            begin,
            end,
        }
    }

    /// The owners of a portion of another index after the others.
    fn joined(self, other: &Index, portion: Portion) -> Result<Index, AllocError>
        requires portion { IsPortion other.now portion }
        requires few { total self + (portion.end - portion.begin) ≤ OWNERS }
        ensures { IfOk result (λ r. r ≡ joined self other.now portion) }
    {
        let total = self.total();
        let Index { keys, mut firsts } = self;
        extend_places(&mut firsts, other.firsts.as_slice(), portion, total)?;
        Ok(Index {
            keys: keys.with_run(&other.keys, portion.from, portion.to)?,
            firsts,
        })
    }

    /// The owners of a portion of another index after the others, where the first of them is the last one here.
    fn continued(self, other: &Index, portion: Portion) -> Result<Index, AllocError>
        requires some { 0 < count self }
        requires portion { IsPortion other.now portion }
        requires few { total self + (portion.end - portion.begin) ≤ OWNERS }
        ensures { IfOk result (λ r. r ≡ continued self other.now portion) }
    {
        let total = self.total();
        let Index { keys, mut firsts } = self;
        firsts.pop();
        extend_places(&mut firsts, other.firsts.as_slice(), portion, total)?;
        Ok(Index {
            keys: keys.with_run(&other.keys, portion.from + 1, portion.to)?,
            firsts,
        })
    }
}

/// The places of the owners of a portion after others, and the place after its records. So many records come before it.
fn extend_places(
    firsts: &mut Vec<u32>,
    others: &[u32],
    portion: Portion,
    total: usize,
) -> Result<(), AllocError>
    requires places { IsPlaces others.now portion }
    requires few { total + (portion.end - portion.begin) ≤ OWNERS }
    ensures { OnOk result (firsts.new.items
        ≡ places_with firsts.old.items others.now portion total) }
{
    let Portion {
        from,
        to,
        begin,
        end,
    } = portion;
    firsts.reserve(to - from)?;
    extend_moved(firsts, &others[from + 1..to], begin as u32, total as u32)?;
    firsts.push((total + (end - begin)) as u32)?;
    Ok(())
}
