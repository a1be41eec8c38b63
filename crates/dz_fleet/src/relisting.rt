//! A listing: the members before and after it, and its changes.

ghost use Rattle.std.specs.Prelude.{◌≡◌, ◌<◌, false, length, map, slice_get, Some};
ghost use Rattle.std.specs.Option.{option_map_or};
ghost use Rattle.dz_fleet.specs.inner.Relisting.{is_entry};

use dz_history::Holdings;
use dz_member::{Changes, Fold, What};
use dz_name::Name;
use dz_timer::Schedule;
use std::marker::Model;

/// What is assigned before a listing, with what zones wait for then, and the members after it.
#[derive(Drop)]
pub(crate) struct Relisting<'a> {
    pub(crate) before: &'a Holdings,
    pub(crate) schedule: &'a Schedule,
    pub(crate) after: &'a Fold,
}

impl<'a> Model for Relisting<'a> {
    ghost use Rattle.dz_fleet.specs.inner.Relisting.{RelistingOf, IsRelisting};

    ghost Value = { RelistingOf };

    ghost view = { λ r. record {
      state = r.before.now;
      values = r.schedule.now;
      members = r.after.now.members;
    } };

    ghost invariant = { λ r. IsRelisting r.before.now r.schedule.now r.after.now.members };
}

/// How many changes there are.
pub(crate) fn count_of(changes: &Changes) -> usize
    ensures { result ≡ length changes.now }
{
    changes.len()
}

/// The zone of the change at a place.
pub(crate) fn zone_at(changes: &Changes, place: usize) -> Name
    requires { place < length changes.now }
    ensures { slice_get (map (λ c. c.zone) changes.now) place ≡ Some result }
{
    changes.at(place).zone
}

/// Whether by the change at a place a zone becomes a member or ceases to be one.
pub(crate) fn is_entry_at(changes: &Changes, place: usize) -> bool
    requires { place < length changes.now }
    ensures { result ≡ option_map_or (λ c. is_entry c.what)
        (slice_get changes.now place) false }
{
    matches!(changes.at(place).what, What::Added(_) | What::Removed(_))
}
