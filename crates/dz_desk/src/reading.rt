//! The ends that look.

ghost use Rattle.std.specs.Prelude.{◌≡◌, true, false, length, Some, MatchBool, IfSome, IfNone};
ghost use mathlib.Core.List.{IsPrefix};
ghost use Rattle.left_right.specs.Sides.{view as last_seen};
ghost use Rattle.dz_history.specs.After.{after};
ghost use Rattle.dz_history.specs.Legal.{IsLegal};
ghost use Rattle.dz_desk.specs.Seen.{Goes, shown, refused};
ghost use Rattle.dz_desk.specs.inner.Kept.{viewed};

use crate::board::{Board, Last, Look};
use crate::edition::Edition;
use crate::told::Told;
use dz_table::Table;
use left_right::reader;
use left_right::reader::Reader;
use std::marker::Model;
use std::sync::Wait;

/// A seat, between two looks.
pub(crate) type Seat = Reader<Edition, Last, Board>;

/// A seat, while it looks.
type Looking = reader::Reading<Edition, Last, Board>;

/// A list in sight. Contracts see the list, and its publisher's book. It can't be dropped: `Reading::leave` ends it.
pub struct Sight {
    looking: Looking,
}

impl Model for Sight {
    ghost use Rattle.std.specs.Prelude.{◌≡◌, Some};
    ghost use Rattle.left_right.specs.Sides.{view as last_seen};
    ghost use Rattle.dz_desk.specs.Seen.{Page};

    ghost Value = { Page };

    ghost view = { λ s. s.looking.part.value };

    ghost invariant = { λ s. last_seen s.looking.place ≡ Some s.looking.part.value };
}

impl Sight {
    /// The table of the list.
    pub fn table(&self) -> &Table
        ensures table { result.now ≡ (after self.now.list).table }
        ensures legal { IsLegal self.now.list }
    {
        self.looking.get().table()
    }
}

/// An end that looks at the published list, without waiting for anybody. Contracts see the list that it has seen,
/// whether a sight of it is out, its counts of looks, and its publisher's book.
#[derive(Drop)]
pub struct Reading {
    seat: Option<Seat>,
    seen: Told,
    sights: u64,
    refusals: u64,
}

impl Model for Reading {
    ghost use Rattle.std.specs.Prelude.{◌≡◌, is_none, Some, IfSome};
    ghost use Rattle.left_right.specs.Sides.{view as last_seen};
    ghost use Rattle.dz_desk.specs.Seen.{Viewed};
    ghost use Rattle.dz_desk.specs.inner.Kept.{viewed};

    ghost Value = { Viewed };

    ghost view = { λ r. viewed r.seen (is_none r.seat) r.sights r.refusals };

    ghost invariant = { λ r. IfSome r.seat (λ seat. last_seen seat.place ≡ Some r.seen) };
}

impl Reading {
    /// A reading that has seen what its seat saw last, and has not looked yet.
    pub(crate) fn new(seat: Seat, seen: Told) -> Reading
        requires { last_seen seat.place ≡ Some seen }
        ensures { result ≡ viewed seen false 0 0 }
    {
        Reading {
            seat: Some(seat),
            seen,
            sights: 0,
            refusals: 0,
        }
    }

    /// The number of entries of the list that was seen.
    pub fn count(&self) -> u64
        ensures count { result ≡ length self.now.list }
        ensures legal { IsLegal self.now.list }
    {
        self.seen.count()
    }

    /// How many looks showed a sight; it stays at 2^64 - 1.
    pub fn sights(&self) -> u64
        ensures { result ≡ self.now.sights }
    {
        self.sights
    }

    /// How many looks were refused; it stays at 2^64 - 1.
    pub fn refusals(&self) -> u64
        ensures { result ≡ self.now.refusals }
    {
        self.refusals
    }

    /// Whether a note's list begins with all that was seen. Else what was seen begins with the note's list.
    pub fn is_within(&self, told: &Told) -> bool
        requires { told.now.book ≡ self.now.book }
        ensures { MatchBool result (IsPrefix self.now.list told.now.list)
            (IsPrefix told.now.list self.now.list) }
    {
        told.has(&self.seen)
    }

    /// Looks at the published list. It may see it as it was at an earlier time, but no shorter than it saw it before.
    /// `None` names no cause; it comes after the publisher has ended.
    pub fn see(&mut self) -> Option<Sight>
        requires { self.old.is_out ≡ false }
        ensures seen { IsPrefix self.old.list self.new.list }
        ensures sight { IfSome result (λ s. (s.list ≡ self.new.list) × (s.book ≡ self.new.book)) }
        ensures some { IfSome result (λ _. self.new ≡ shown self.old self.new.list) }
        ensures none { IfNone result (self.new ≡ refused self.old) }
    {
        let Reading {
            seat,
            seen,
            sights,
            refusals,
        } = self;
        let Some(waiting) = seat.take() else {
            unreachable!()
        };
        match waiting.enter_as::<Look>() {
            Ok(looking) => {
                *seen = looking.get().told().again();
                *sights = sights.saturating_add(1);
                Some(Sight { looking })
            }
            Err(waiting) => {
                *seat = Some(waiting);
                *refusals = refusals.saturating_add(1);
                None
            }
        }
    }

    /// Ends the sight that is out.
    pub fn leave(&mut self, sight: Sight)
        requires out { self.old.is_out ≡ true }
        requires own { (sight.list ≡ self.old.list) × (sight.book ≡ self.old.book) }
        ensures { self.new ≡ record self.old { is_out = false } }
    {
        let Sight { looking } = sight;
        self.seat = Some(looking.leave());
    }

    /// Sees all that was told, and waits until it has. Its looks aren't counted. After the publisher's end it may wait
    /// forever.
    pub fn learn<R: Wait>(&mut self, rt: &R, told: Told)
        requires out { self.old.is_out ≡ false }
        requires own { told.book ≡ self.old.book }
        ensures seen { IsPrefix self.old.list self.new.list }
        ensures told { IsPrefix told.list self.new.list }
        ensures same { self.new ≡ record self.old { list = self.new.list } }
        ensures legal { IsLegal self.new.list }
    {
        let Reading { seat, seen, .. } = self;
        let Some(waiting) = seat.take() else {
            unreachable!()
        };
        let looking = enter_surely(rt, waiting, seen, &told);
        let learned = looking.get().told();
        *seen = learned.again();
        *seat = Some(looking.leave());
    }
}

/// Looks until all that was told is seen.
fn enter_surely<R: Wait>(rt: &R, seat: Seat, seen: &Told, told: &Told) -> Looking
    requires last { last_seen seat.place ≡ Some seen.now }
    requires own { told.now.book ≡ seen.now.book }
    ensures last { last_seen result.place ≡ Some result.part.value }
    ensures seen { Goes seen.now result.part.value }
    ensures told { Goes told.now result.part.value }
{
    let mut seat = seat;
    'looks: for _ in rt.forever() {
        match seat.enter_as::<Look>() {
            Ok(looking) => {
                if looking.get().told().has(told) {
                    return looking;
                }
                seat = looking.leave();
            }
            Err(waiting) => seat = waiting,
        }
    }
    unreachable!()
}
