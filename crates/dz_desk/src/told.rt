//! A note of a list.

ghost use Rattle.std.specs.Prelude.{◌≡◌, ◌+◌, ◌-◌, ◌^◌, ◌<◌, [], ◌∷◌, ◌++◌, length, IfSome, MatchBool};
ghost use mathlib.Core.List.{IsPrefix};
ghost use Rattle.dz_history.specs.Legal.{IsLegal};
ghost use Rattle.dz_desk.specs.Seen.{page};
ghost use Rattle.dz_desk.specs.inner.Ledger.{length_of};

use crate::ledger::{Counts, Enter, Gratis, Length, Reached};
use dz_history::Entry;
use logbook::{Offer, Seen, Start, Word};
use std::marker::Model;
use std::mem::size_of;

/// A note of a publisher's list as it was. Contracts see that list, and the publisher's book. It may go to another
/// thread, and may be dropped.
#[derive(Drop)]
pub struct Told {
    count: u64,
    reached: Reached,
}

const _: () = prove!(size_of::<Told>() == 8);

impl Model for Told {
    ghost use Rattle.std.specs.Prelude.{◌≡◌, length};
    ghost use Rattle.dz_history.specs.Legal.{IsLegal};
    ghost use Rattle.dz_desk.specs.Seen.{Page, page};

    ghost Value = { Page };

    ghost view = { λ t. page t.reached.log t.reached.book };

    ghost invariant = { λ t. (t.count ≡ length t.reached.log) × IsLegal t.reached.log };
}

impl Told {
    /// A new book, without an entry, and the word that holds its length.
    pub(crate) fn open() -> (Told, Length)
        ensures list { result.0.list ≡ [] }
        ensures legal { IsLegal result.0.list }
        ensures word { result.1 ≡ length_of result.0.book }
    {
        let (reached, mut pen, _) = Seen::open(Start::alone(), 0, 0);
        let word = Word::tracked(0, &mut pen);
        (Told { count: 0, reached }, word)
    }

    /// A copy of the note.
    pub(crate) fn again(&self) -> Told
        ensures same { result ≡ self.now }
        ensures legal { IsLegal self.now.list }
    {
        Told {
            count: self.count,
            reached: self.reached.again(),
        }
    }

    /// The number of entries of the list.
    pub fn count(&self) -> u64
        ensures count { result ≡ length self.now.list }
        ensures legal { IsLegal self.now.list }
    {
        self.count
    }

    /// Whether this list begins with that of another note of the same book. Else the other list begins with this one.
    pub(crate) fn has(&self, other: &Told) -> bool
        requires { other.now.book ≡ self.now.book }
        ensures { MatchBool result (IsPrefix other.now.list self.now.list)
            (IsPrefix self.now.list other.now.list) }
    {
        let mut both = self.reached.again();
        both.learn(&other.reached);
        if self.count < other.count {
            return false;
        }
        true
    }

    /// Appends an entry to the list. `None` comes where the book has another length, and nothing has changed.
    pub(crate) fn and(&self, word: &Length, entry: &Entry) -> Option<Told>
        requires own { word.now ≡ length_of self.now.book }
        requires room { length self.now.list < 2 ^ 64 - 1 }
        requires legal { IsLegal (self.now.list ++ entry.now ∷ []) }
        ensures { IfSome result (λ told. told
            ≡ page (self.now.list ++ entry.now ∷ []) self.now.book) }
    {
        let mut reached = self.reached.again();
        let mut offer: Offer<Entry, u64, Counts, Gratis> = reached.plain::<Gratis, Entry, Enter>(
            entry,
        );
        let mut pen = reached.no_pen();
        let found = word.compare_exchange::<Enter, Gratis>(
            self.count,
            self.count + 1,
            &mut reached,
            &mut offer,
            &mut pen,
        );
        if found != self.count {
            return None;
        }
        Some(Told {
            count: self.count + 1,
            reached,
        })
    }
}
