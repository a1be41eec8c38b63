//! The end that publishes.

ghost use Rattle.std.specs.Prelude.{◌≡◌, ◌+◌, ◌-◌, ◌^◌, ◌<◌, [], ◌∷◌, ◌++◌, length, Some, None, IsSome, IfOk};
ghost use mathlib.Core.List.{IsPrefix};
ghost use Rattle.dz_history.specs.After.{after};
ghost use Rattle.dz_history.specs.Legal.{IsLegal};
ghost use Rattle.dz_desk.specs.Seen.{page, IsFresh};
ghost use Rattle.dz_desk.specs.inner.Ledger.{length_of};

use crate::board::Note;
use crate::edition::Edition;
use crate::ledger::Length;
use crate::reading::Reading;
use crate::show::{Showing, show};
use crate::told::Told;
use dz_history::{Entry, Step};
use std::alloc::AllocError;
use std::marker::Model;
use std::sync::Wait;

/// The one end of a desk that publishes. Contracts see the published list, the list that is staged to be published
/// next, and its book. It can't be dropped: `close` ends it.
pub struct Publisher {
    pub(crate) writer: Showing,
    pub(crate) word: Length,
    pub(crate) staged: Option<Step>,
}

impl Model for Publisher {
    ghost use Rattle.std.specs.Prelude.{drop};
    ghost use Rattle.left_right.specs.Sides.{view as last_seen};
    ghost use Rattle.dz_desk.specs.Seen.{Published};
    ghost use Rattle.dz_desk.specs.inner.Kept.{published, IsKept};

    ghost Value = { Published };

    ghost view = { λ p. published p.writer.desk.shown.value p.staged };

    ghost invariant = { λ p. IsKept (last_seen p.writer.desk.place)
        (drop p.writer.behind p.writer.log.items) p.word p.writer.desk.shown.value p.staged };
}

impl Publisher {
    /// A new reading of this publisher.
    pub(crate) fn reading(&mut self) -> Result<Reading, AllocError>
        requires { self.old.list ≡ [] }
        ensures same { self.new ≡ self.old }
        ensures fresh { IfOk result (IsFresh self.old.book) }
    {
        let mut reader = self.writer.factory().reader()?;
        reader.learn::<Note>(self.writer.tell::<Note>());
        Ok(Reading::new(reader, self.writer.published().told().again()))
    }

    /// The number of entries of the published list.
    pub fn count(&self) -> u64
        ensures count { result ≡ length self.now.list }
        ensures legal { IsLegal self.now.list }
    {
        self.writer.published().told().count()
    }

    /// Puts a step in place, to be published next. It takes no memory.
    pub fn stage(&mut self, step: Step)
        requires free { self.old.staged ≡ None }
        requires room { length self.old.list < 2 ^ 64 - 1 }
        requires legal { IsLegal (self.old.list ++ step.entry ∷ []) }
        requires table { step.table.value ≡ (after (self.old.list ++ step.entry ∷ [])).table }
        ensures { self.new
            ≡ record self.old { staged = Some (self.old.list ++ step.entry ∷ []) } }
    {
        self.staged = Some(step);
    }

    /// Publishes the step that is staged, and gives a note of the list. It waits for readings whose sight is older than
    /// the last publish, and for memory.
    pub fn publish<R: Wait>(&mut self, rt: &R) -> Told
        requires { IsSome self.old.staged }
        ensures list { self.old.staged ≡ Some self.new.list }
        ensures grows { IsPrefix self.old.list self.new.list }
        ensures rest { self.new ≡ record self.old { list = self.new.list; staged = None } }
        ensures told { result ≡ page self.new.list self.new.book }
    {
        let Some(Step { entry, table }) = self.staged.take() else {
            unreachable!()
        };
        let next = enter(rt, self.writer.published().told(), &self.word, &entry);
        show(rt, &mut self.writer, Edition::new(table, next));
        self.tell()
    }

    /// A note of the published list, which can come about.
    pub fn tell(&self) -> Told
        ensures told { result ≡ page self.now.list self.now.book }
        ensures legal { IsLegal self.now.list }
    {
        self.writer.published().told().again()
    }

    /// Ends the desk: from now on each look is refused. A step that is staged goes. It waits for readings that look.
    pub fn close<R: Wait>(self, rt: &R) {
        let Publisher {
            writer,
            word: _word,
            staged: _staged,
        } = self;
        drop(writer.take(rt));
    }
}

/// Appends an entry to the list of a note. The book has the list's length, since one publisher alone appends to it, but
/// nothing proves that here: where it has another, it tries again.
fn enter<R: Wait>(rt: &R, told: &Told, word: &Length, entry: &Entry) -> Told
    requires own { word.now ≡ length_of told.now.book }
    requires room { length told.now.list < 2 ^ 64 - 1 }
    requires legal { IsLegal (told.now.list ++ entry.now ∷ []) }
    ensures { result ≡ page (told.now.list ++ entry.now ∷ []) told.now.book }
{
    'lengths: for _ in rt.forever() {
        if let Some(next) = told.and(word, entry) {
            return next;
        }
    }
    unreachable!()
}
