//! What is written of what zones wait for after a listing.

ghost use Rattle.std.specs.Prelude.{◌≡◌, ◌<◌, ◌+◌, length, drop, IfOk};
ghost use Rattle.dz_history.specs.Places.{seats, IsApart};
ghost use Rattle.dz_fleet.specs.Values.{relisted_values};
ghost use Rattle.dz_fleet.specs.Weighing.{written, written_at};
ghost use Rattle.dz_fleet.specs.inner.Relisting.{AreRelisted, AreListed, AreSameZones, AreBehind, half_made};
ghost use Rattle.dz_fleet.specs.inner.Relisting.{keeps_places};
ghost use Rattle.dz_fleet.specs.inner.Renewing.{written_in};

use crate::ahead::{count_before, next_place};
use crate::relisted::{carried_at, relisted};
use crate::relisting::{Relisting, count_of, is_entry_at, zone_at};
use dz_history::Holdings;
use dz_member::Changes;
use dz_timer::{Schedule, Values};
use std::alloc::{AllocError, Global};

/// What zones wait for after a listing: the values of the zones at these places, which a listing leaves as they are
/// where it adds and removes no member; or those of all zones.
#[derive(Drop)]
pub(crate) enum Waiting {
    Places(Vec<(usize, Values)>),
    All(Schedule),
}

/// What zones wait for after a listing. `AllocError` where memory runs out.
pub(crate) fn waiting_after(
    alloc: Global,
    before: &Holdings,
    schedule: &Schedule,
    after: &Holdings,
    changes: &Changes,
) -> Result<Waiting, AllocError>
    requires apart { IsApart before.now }
    requires sized { length schedule.now ≡ length (seats before.now) }
    requires listed { AreListed before.now.fold.members after.now.fold.members changes.now }
    ensures { IfOk result (λ w. written schedule.now (written_in w)
        ≡ relisted_values before.now schedule.now after.now.fold.members) }
{
    if keeps_places(changes) {
        let pairs = changed_values(alloc, before, schedule, after, changes)?;
        Ok(Waiting::Places(pairs))
    } else {
        let schedule = relisted(alloc, before, schedule, after, changes)?;
        Ok(Waiting::All(schedule))
    }
}

/// The values of the zones that a listing changes, by their places, where the same zones are members as before it.
/// `AllocError` where memory runs out.
fn changed_values(
    alloc: Global,
    before: &Holdings,
    schedule: &Schedule,
    after: &Holdings,
    changes: &Changes,
) -> Result<Vec<(usize, Values)>, AllocError>
    requires apart { IsApart before.now }
    requires sized { length schedule.now ≡ length (seats before.now) }
    requires changes { AreRelisted before.now.fold.members after.now.fold.members changes.now }
    requires zones { AreSameZones before.now.fold.members after.now.fold.members }
    ensures { IfOk result (λ pairs. written_at schedule.now pairs.items
        ≡ relisted_values before.now schedule.now after.now.fold.members) }
{
    let most = before.fold().count();
    let mut pairs = Vec::with_capacity(alloc, count_of(changes).min(most))?;
    let relisting = Relisting {
        before,
        schedule,
        after: after.fold(),
    };
    let mut known = 0;
    'changes: for place in 0..count_of(changes) {
        known = note(&mut pairs, &relisting, known, changes, place)?;
    }
    Ok(pairs)
}

/// Appends the values of the zone of a change, where it is a member. So many members are known to come before it; it
/// answers how many come up to it. `AllocError` where memory runs out.
fn note(
    pairs: &mut Vec<(usize, Values)>,
    relisting: &Relisting<'_>,
    known: usize,
    changes: &Changes,
    place: usize,
) -> Result<usize, AllocError>
    requires there { place < length changes.now }
    requires behind { AreBehind relisting.now.state.fold.members relisting.now.members
        (drop place changes.now) known known }
    requires zones { AreSameZones relisting.now.state.fold.members relisting.now.members }
    requires values { written_at relisting.now.values pairs.old.items
        ≡ half_made relisting.now known }
    ensures behind { IfOk result (λ next. AreBehind relisting.now.state.fold.members
        relisting.now.members (drop (place + 1) changes.now) next next) }
    ensures values { IfOk result (λ next. written_at relisting.now.values pairs.new.items
        ≡ half_made relisting.now next) }
{
    let zone = zone_at(changes, place);
    let fold = relisting.before.fold();
    let left = count_before(fold, known, &zone);
    let next = next_place(fold, left, &zone);
    if left < next {
        let catalogs = fold.catalogs().len();
        pairs.push((catalogs + left, carried_at(relisting, Some(left), left)))?;
    }
    Ok(next)
}

/// Whether no zone becomes a member and none ceases to be one.
fn keeps_places(changes: &Changes) -> bool
    ensures { result ≡ keeps_places changes.now }
{
    'changes: for place in 0..count_of(changes) {
        if is_entry_at(changes, place) {
            return false;
        }
    }
    true
}
