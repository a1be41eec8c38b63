//! The list of taken transfers.

ghost use Rattle.std.specs.Prelude.{◌≡◌, [], ◌∷◌, ◌++◌};

use crate::entry::Entry;
use crate::past::{Last, Past};
use std::marker::Model;
use std::mem::size_of;
use std::snapshot::Snapshot;

/// A list of entries. Contracts see the list; at run time it is one octet, whatever its length, so that no memory holds
/// the octets of transfers. It says something of the program only where an invariant ties it to data that is kept.
#[derive(Drop)]
pub struct History {
    past: Past,
}

const _: () = prove!(size_of::<History>() == 1);

impl Model for History {
    ghost use Rattle.std.specs.Prelude.{List};
    ghost use Rattle.dz_history.specs.declared.entry.Entry.{Entry};
    ghost use Rattle.dz_history.specs.inner.Entries.{entries};

    ghost Value = { List Entry };

    ghost view = { λ h. entries h.past };
}

impl History {
    /// No entry.
    pub fn new() -> History
        ensures { result ≡ [] }
    {
        History { past: Past::Start }
    }

    /// The same list again.
    pub fn again(&self) -> History
        ensures { result ≡ self.now }
    {
        History {
            past: Past::Same(Snapshot::of(&self.past)),
        }
    }

    /// The list with an entry after the others.
    pub fn and(&self, entry: Snapshot<Entry>) -> History
        ensures { result ≡ self.now ++ entry.value ∷ [] }
    {
        let History { past } = self.again();
        let last = Last {
            before: past,
            entry,
        };
        History {
            past: Past::After(Snapshot::of(&last)),
        }
    }
}
