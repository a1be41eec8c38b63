//! The keys of an index, which a counted comparison alone reads.

ghost use Rattle.std.specs.Prelude.{◌≡◌, ◌+◌, ◌-◌, ◌^◌, ◌<◌, ◌≤◌, [], ◌∷◌, ◌++◌, length, slice_index, slice_index_or};
ghost use Rattle.std.specs.Prelude.{slice_range, map, drop, IfOk, OnOk, OnErr};
ghost use Rattle.dz_index.specs.Rows.{compared};
ghost use Rattle.dz_index.specs.inner.Parts.{AreBounds, AreWithin, last_of};
ghost use Rattle.dz_index.specs.inner.Portion.{moved};

use crate::index::OWNERS;
use crate::octets::compare_octets;
use crate::places::extend_moved;
use crate::sort_key::ROOM;
use dz_steps::Steps;
use std::alloc::{AllocError, Global};
use std::cmp::Ordering;
use std::fmt;
use std::marker::Model;
use std::sync::ledger::Ledger;

/// The sort keys of owners: all in one block of octets, and four octets beside each. No code outside this module sees an
/// octet of a key; it compares keys by [`Keys::compare`], which counts, and copies them by [`Keys::with_run`]. Contracts
/// see the keys.
#[derive(Drop)]
pub(crate) struct Keys {
    octets: Vec<u8>,
    bounds: Vec<u32>,
}

impl Model for Keys {
    ghost use Rattle.std.specs.Prelude.{List};
    ghost use Rattle.dz_name.specs.Words.{Octets};
    ghost use Rattle.dz_index.specs.inner.Parts.{parts_of, AreBounds};

    ghost Value = { List Octets };

    ghost view = { λ k. parts_of k.octets.items k.bounds.items };

    ghost invariant = { λ k. AreBounds k.octets.items k.bounds.items };
}

/// Shows how many keys there are, and no octet of them.
impl fmt::Debug for Keys {
    fn fmt<W: fmt::Write>(&self, f: &mut fmt::Formatter<W>) -> fmt::Result {
        write!(f, "{} keys", self.len())
    }
}

impl Keys {
    /// No key yet.
    pub(crate) fn empty(alloc: Global) -> Result<Keys, AllocError>
        ensures { IfOk result (λ keys. keys ≡ []) }
    {
        Ok(Keys {
            octets: Vec::new(alloc),
            bounds: vec![in alloc; 0]?,
        })
    }

    /// No key yet, with room for as many as others are.
    pub(crate) fn beside(alloc: Global, other: &Keys) -> Result<Keys, AllocError>
        ensures { IfOk result (λ keys. keys ≡ []) }
    {
        let octets = Vec::with_capacity(alloc, other.octets.len())?;
        let mut bounds = Vec::with_capacity(alloc, other.bounds.len())?;
        bounds.push(0)?;
        Ok(Keys { octets, bounds })
    }

    /// Gives back the memory that was taken beyond these keys.
    pub(crate) fn fit(&mut self)
        ensures { self.new ≡ self.old }
    {
        self.octets.shrink_to_fit();
        self.bounds.shrink_to_fit();
    }

    /// How many keys there are.
    pub(crate) fn len(&self) -> usize
        ensures { result ≡ length self.now }
    {
        self.bounds.len() - 1
    }

    /// How the key of a number compares with another one. It is one step.
    pub(crate) fn compare<L: Ledger>(
        &self,
        number: usize,
        key: &[u8],
        steps: &mut Steps<L>,
    ) -> Ordering
        requires { number < length self.now }
        ensures value { result ≡ compared (slice_index_or self.now number []) key.now }
        ensures counted { steps.new ≡ steps.old + 1 }
    {
        steps.tick();
        compare_octets(self.key(number), key)
    }

    /// How the key of a number compares with one of other keys. It is one step.
    pub(crate) fn compare_with<L: Ledger>(
        &self,
        number: usize,
        other: &Keys,
        theirs: usize,
        steps: &mut Steps<L>,
    ) -> Ordering
        requires mine { number < length self.now }
        requires theirs { theirs < length other.now }
        ensures value { result ≡ compared (slice_index_or self.now number [])
            (slice_index_or other.now theirs []) }
        ensures counted { steps.new ≡ steps.old + 1 }
    {
        self.compare(number, other.key(theirs), steps)
    }

    /// Other keys from one number up to another after these. Their octets are copied in one block.
    pub(crate) fn with_run(self, other: &Keys, from: usize, to: usize) -> Result<Keys, AllocError>
        requires order { from ≤ to }
        requires within { to ≤ length other.now }
        requires few { length self + (to - from) ≤ OWNERS }
        ensures { IfOk result (λ keys. keys ≡ self ++ slice_range other.now from to) }
    {
        let Keys {
            mut octets,
            mut bounds,
        } = self;
        let theirs = &other.bounds[from..to + 1];
        extend_parts(&mut octets, &mut bounds, other.octets.as_slice(), theirs)?;
        Ok(Keys { octets, bounds })
    }

    /// One more key after the others. If memory runs out, none is added.
    pub(crate) fn push(&mut self, key: &[u8]) -> Result<(), AllocError>
        requires few { length self.old < OWNERS }
        requires room { length key.now ≤ ROOM }
        ensures value { OnOk result (self.new ≡ self.old ++ key.now ∷ []) }
        ensures wanting { OnErr result (self.new ≡ self.old) }
    {
        push_part(&mut self.octets, &mut self.bounds, key)?;
        Ok(())
    }

    fn key(&self, number: usize) -> &[u8]
        requires { number < length self.now }
        ensures { result.now ≡ slice_index_or self.now number [] }
    {
        part(self.octets.as_slice(), self.bounds.as_slice(), number)
    }
}

/// The octets from one bound up to the next.
fn part<'a>(octets: &'a [u8], bounds: &[u32], number: usize) -> &'a [u8]
    requires bounds { AreBounds octets.now bounds.now }
    requires within { number + 1 < length bounds.now }
    ensures { result.now ≡ slice_range octets.now (slice_index bounds.now number)
        (slice_index bounds.now (number + 1)) }
{
    &octets[bounds[number] as usize..bounds[number + 1] as usize]
}

/// One more part after the others. If memory runs out, none is added.
fn push_part(octets: &mut Vec<u8>, bounds: &mut Vec<u32>, part: &[u8]) -> Result<(), AllocError>
    requires { length octets.old.items + length part.now < 2 ^ 32 }
    ensures octets { OnOk result (octets.new.items ≡ octets.old.items ++ part.now) }
    ensures bounds { OnOk result (bounds.new.items
        ≡ bounds.old.items ++ (length octets.old.items + length part.now) ∷ []) }
    ensures wanting_octets { OnErr result (octets.new.items ≡ octets.old.items) }
    ensures wanting_bounds { OnErr result (bounds.new.items ≡ bounds.old.items) }
{
    let before = octets.len();
    octets.extend_from_slice(part)?;
    if bounds.push(octets.len() as u32).is_err() {
        octets.truncate(before);
        return Err(AllocError);
    }
    Ok(())
}

/// The parts of other octets between bounds after these. Octets and bounds are copied in one block each.
fn extend_parts(
    octets: &mut Vec<u8>,
    bounds: &mut Vec<u32>,
    others: &[u8],
    theirs: &[u32],
) -> Result<(), AllocError>
    requires bounds { AreWithin others.now theirs.now }
    requires room { length octets.old.items
        + (last_of theirs.now - slice_index theirs.now 0) < 2 ^ 32 }
    ensures octets { OnOk result (octets.new.items ≡ octets.old.items
        ++ slice_range others.now (slice_index theirs.now 0) (last_of theirs.now)) }
    ensures bounds { OnOk result (bounds.new.items ≡ bounds.old.items
        ++ map (moved (slice_index theirs.now 0) (length octets.old.items)) (drop 1 theirs.now)) }
{
    let before = octets.len() as u32;
    let begin = theirs[0];
    let end = theirs[theirs.len() - 1];
    extend_moved(bounds, &theirs[1..], begin, before)?;
    octets.extend_from_slice(&others[begin as usize..end as usize])?;
    Ok(())
}
