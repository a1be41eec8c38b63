//! What a change of a map copies, and what its search compares.

use dz_steps::Steps;
use std::sync::ledger::Ledger;

/// How many entries, and how many references to chunks, were copied, and how many keys were compared, each counted by
/// itself. Contracts see three numbers; nothing is counted at run time.
#[derive(Drop)]
pub struct Copies<E: Ledger, R: Ledger, C: Ledger> {
    pub entries: Steps<E>,
    pub references: Steps<R>,
    pub comparisons: Steps<C>,
}
