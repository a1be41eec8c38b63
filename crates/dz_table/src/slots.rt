//! The slots of a table one by one.

ghost use Rattle.std.specs.Prelude.{◌≡◌, List};
ghost use Rattle.std.specs.Iterator.{YieldsFirstBy, item_count};
ghost use Rattle.dz_table.specs.Slot.{SlotOf};
ghost use Rattle.dz_table.specs.inner.Kept.{slots_of};

use crate::slot::Slot;
use dz_chunks::Walk;
use dz_keys::ZoneKey;
use std::iter::Iterator;
use std::marker::Model;

/// The slots of a table, in the canonical order of their zones. Contracts see the slots that are left.
#[derive(Drop)]
pub struct Slots<'a> {
    walk: Walk<'a, ZoneKey, Slot>,
}

impl<'a> Model for Slots<'a> {
    ghost use Rattle.std.specs.Prelude.{List};
    ghost use Rattle.dz_table.specs.Slot.{SlotOf};
    ghost use Rattle.dz_table.specs.inner.Kept.{slots_of};

    ghost Value = { List SlotOf };

    ghost view = { λ s. slots_of s.walk };
}

impl<'a> Slots<'a> {
    /// The slots of a walk over a map.
    pub(crate) fn over(walk: Walk<'a, ZoneKey, Slot>) -> Slots<'a>
        ensures { result ≡ slots_of walk.entry }
    {
        Slots { walk }
    }
}

impl<'a> Iterator for Slots<'a> {
    type Item = &'a Slot;

    ghost next_gives = { YieldsFirstBy (λ slot. slot.now) (λ left. left) };

    ghost remaining = { item_count (λ left. left) };

    /// The next slot; none after the last.
    fn next(&mut self) -> Option<&'a Slot> {
        self.walk.next()
    }
}
