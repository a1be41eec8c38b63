//! Witnesses of NOTIFY.

ghost use Rattle.std.specs.Prelude.{◌≡◌};

use dz_fleet::Fleet;
use std::marker::Model;
use std::snapshot::Snapshot;

/// What shows that a NOTIFY was heard: the core as it came, and after it. Contracts see both, and at run time nothing is
/// kept. The calls of `Ear` over this crate's lock alone make one.
#[derive(Drop)]
pub struct Witness {
    before: Snapshot<Fleet>,
    after: Snapshot<Fleet>,
}

impl Model for Witness {
    ghost use Rattle.dz_provision.specs.Witness.{WitnessOf};

    ghost Value = { WitnessOf };

    ghost view = { λ w. record { before = w.before.value; after = w.after.value } };
}

impl Witness {
    /// That of a core before and after.
    pub(crate) fn of(before: Snapshot<Fleet>, after: &Fleet) -> Witness
        ensures { result ≡ record { before = before.value; after = after.now } }
    {
        Witness {
            before,
            after: Snapshot::of(after),
        }
    }
}
