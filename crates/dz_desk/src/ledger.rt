//! The published list as the log of a book, which exists in proofs alone. What threads share of it at run time is one
//! word, the length of the list.

use dz_history::Entry;
use logbook::{Gain, Plain, Play, Rule, Seen, Word};

/// The book reached a list of entries, and has it for good.
pub(crate) type Reached = Seen<Entry, u64, Counts>;

/// The word that holds the length.
pub(crate) type Length = Word<Entry, u64, Counts>;

/// The rule of the book: its word counts its entries.
pub(crate) struct Counts;

impl Rule<Entry, u64> for Counts {
    ghost use Rattle.std.specs.Prelude.{[]};
    ghost use base.Fml.{ftrue};
    ghost use Rattle.dz_desk.specs.inner.Ledger.{IsCounted};

    ghost holds = { λ cells log. IsCounted cells log };

    ghost first = { [] };

    ghost hinted = { λ value log. Unit {0} };

    ghost shows = { λ log. [] };

    ghost keeps = { λ names log. ftrue };

    ghost moves = { λ ask before after answer. Unit {0} };
}

/// Nothing is traded for an entry.
pub(crate) struct Gratis;

impl Gain<Entry, u64> for Gratis {
    ghost use base.Fml.{ftrue};

    ghost after = { λ names about answer. ftrue };
}

/// The step that enters an entry.
pub(crate) struct Enter;

impl Play<Entry, u64> for Enter {
    ghost use Rattle.dz_desk.specs.inner.Ledger.{Enters};

    ghost then = { Enters };
}

impl Plain<Entry, Entry, u64> for Enter {
    ghost use Rattle.std.specs.Prelude.{None};

    ghost ask = { λ entry. entry };

    ghost state = { λ entry. None };
}
