//! Values with keys.

ghost use Rattle.std.specs.Prelude.{◌≡◌, ◌+◌};

use crate::lead::Lead;
use dz_steps::Steps;
use std::cmp::Ordering;
use std::sync::ledger::Ledger;

/// A value that tells its key, so that a map keeps no key beside it.
pub trait Keyed<K: Lead> {
    /// The key.
    ghost key: { Self → K };

    /// The key.
    fn key(&self) -> K
        ensures { result ≡ key self.now };

    /// How the key compares with another one. It is one step.
    fn compare<L: Ledger>(&self, asked: &K, steps: &mut Steps<L>) -> Ordering
        ensures value { result ≡ K.Ord.cmp (key self.now) asked.now }
        ensures counted { steps.new ≡ steps.old + 1 };
}
