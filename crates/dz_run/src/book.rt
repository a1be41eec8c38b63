//! The ledger of a provisioner that has not begun.

ghost use Rattle.std.specs.Prelude.{◌≡◌};

use std::sync::ledger::{Book, Ledger};

/// The book of a ledger that counts nothing.
#[derive(Drop)]
pub(crate) struct EmptyBook<L: Ledger> {
    pub book: Book<L>,
    ghost empty: { book.total ≡ 0 },
}
