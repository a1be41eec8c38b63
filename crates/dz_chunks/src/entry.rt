//! An entry as chunks keep it.

ghost use Rattle.std.specs.Prelude.{◌≡◌, ◌+◌, IfOk};

use crate::keyed::Keyed;
use crate::lead::{Lead, compare_lead};
use dz_steps::Steps;
use std::alloc::{AllocError, Global};
use std::cmp::Ordering;
use std::marker::{Model, PhantomData};
use std::sync::Arc;
use std::sync::ledger::Ledger;

/// A value, which maps share, after the first octets of its key. Contracts see it with its key.
#[derive(Drop)]
pub struct Entry<K: Lead, V: Keyed<K>> {
    lead: [u8; 16],
    value: Arc<V>,
    key: PhantomData<K>,
}

impl<K: Lead, V: Keyed<K>> Model for Entry<K, V> {
    ghost use Rattle.std.specs.Prelude.{◌≡◌};
    ghost use Rattle.std.specs.Arc.{arc_value};

    ghost Value = { K × V };

    ghost view = { λ e. (V.key (arc_value e.value), arc_value e.value) };

    ghost invariant = { λ e. e.lead ≡ K.lead (V.key (arc_value e.value)) };
}

impl<K: Lead + Copy, V: Keyed<K>> Entry<K, V> {
    /// The entry of a value. The error is want of memory.
    pub fn new(alloc: Global, value: V) -> Result<Entry<K, V>, AllocError>
    where
        V: Drop,
        ensures { IfOk result (λ entry. entry ≡ (V.key value, value)) }
    {
        Ok(Entry {
            lead: value.key().lead(),
            value: Arc::new(alloc, value)?,
            key: PhantomData,
        })
    }

    /// The same entry once more: a second owner of the value, and the one way to it. It is one step. The error is want of
    /// memory.
    pub fn copied<L: Ledger>(&self, steps: &mut Steps<L>) -> Result<Entry<K, V>, AllocError>
        ensures copied { IfOk result (λ entry. entry ≡ self.now) }
        ensures key { V.key self.now.1 ≡ self.now.0 }
        ensures counted { steps.new ≡ steps.old + 1 }
    {
        steps.tick();
        self.share()
    }

    /// The same as [`Entry::copied`], for a caller that counts nothing.
    pub fn share(&self) -> Result<Entry<K, V>, AllocError>
        ensures copied { IfOk result (λ entry. entry ≡ self.now) }
        ensures key { V.key self.now.1 ≡ self.now.0 }
    {
        Ok(Entry {
            lead: self.lead,
            value: Arc::try_clone(&self.value)?,
            key: PhantomData,
        })
    }

    /// The first octets of the key.
    pub(crate) fn lead(&self) -> [u8; 16]
        ensures { result ≡ K.lead self.now.0 }
    {
        self.lead
    }

    /// The value.
    pub fn value(&self) -> &V
        ensures value { result.now ≡ self.now.1 }
        ensures key { V.key result.now ≡ self.now.0 }
    {
        &self.value
    }

    /// How the key compares with another one. The value is read only where the first octets are alike. It is one step.
    #[inline(always)]
    pub(crate) fn compare<L: Ledger>(&self, key: &K, steps: &mut Steps<L>) -> Ordering
        ensures value { result ≡ K.Ord.cmp self.now.0 key.now }
        ensures counted { steps.new ≡ steps.old + 1 }
    {
        match compare_lead(&self.lead, key, steps) {
            Ordering::Equal => self.compare_value(key, steps),
            order => order,
        }
    }

    /// The same by the value. It is apart, so that a loop over first octets is short.
    #[inline(never)]
    fn compare_value<L: Ledger>(&self, key: &K, steps: &mut Steps<L>) -> Ordering
        ensures value { result ≡ K.Ord.cmp self.now.0 key.now }
        ensures counted { steps.new ≡ steps.old + 1 }
    {
        self.value.compare(key, steps)
    }
}
