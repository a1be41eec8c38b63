//! The publisher that a type is of.

use std::marker::Brand;
use std::sync::ledger::Ledger;

/// Names a publisher, so that what comes out of a lock, of which the type alone is known, is known to be of that one. In its
/// ledger the lines of want of memory are counted.
pub trait Naming: Ledger {
    ghost use Rattle.dz_desk.specs.Seen.{Book};

    /// The publisher.
    ghost publisher: { Book };
}

impl Naming for Brand {
    ghost use Rattle.dz_provision.specs.Names.{nowhere};

    ghost publisher = { nowhere };
}
