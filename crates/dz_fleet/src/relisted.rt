//! What zones wait for after a listing.

ghost use Rattle.std.specs.Prelude.{◌≡◌, ◌≤◌, ◌<◌, ◌+◌, ◌-◌, ◌++◌, length, map, take, drop, slice_get, position};
ghost use Rattle.std.specs.Prelude.{IfOk, IfSome, Some, None, nat_lt, if◌then◌else◌};
ghost use Rattle.dz_name.specs.Name.{same_name};
ghost use Rattle.dz_history.specs.Places.{seats, IsApart};
ghost use Rattle.dz_fleet.specs.Values.{carried, relisted_values};
ghost use Rattle.dz_fleet.specs.inner.Relisting.{AreRelisted, AreBehind};

use crate::ahead::{count_before, next_place};
use crate::carried::carried;
use crate::relisting::{Relisting, count_of, zone_at};
use dz_history::Holdings;
use dz_member::Changes;
use dz_timer::{Schedule, Values};
use std::alloc::{AllocError, Global};

/// More zones than a schedule has places for, 2^32, count as out of memory.
const ZONES: usize = 4_294_967_296;

/// How many members before a listing, and after it, are behind.
#[derive(Clone, Copy)]
pub(crate) struct Behind {
    left: usize,
    made: usize,
}

/// What each zone waits for after a listing: catalogs and the members of the incarnations before keep their values, and
/// others begin. Between changed zones values are copied in runs. `AllocError` where memory runs out.
pub(crate) fn relisted(
    alloc: Global,
    before: &Holdings,
    schedule: &Schedule,
    after: &Holdings,
    changes: &Changes,
) -> Result<Schedule, AllocError>
    requires apart { IsApart before.now }
    requires sized { length schedule.now ≡ length (seats before.now) }
    requires changes { AreRelisted before.now.fold.members after.now.fold.members changes.now }
    ensures { IfOk result (λ s. s
        ≡ relisted_values before.now schedule.now after.now.fold.members) }
{
    let after = after.fold();
    let mut values = catalog_values(alloc, before, schedule, after.count())?;
    let relisting = Relisting {
        before,
        schedule,
        after,
    };
    carry(&mut values, &relisting, changes)?;
    if ZONES <= values.len() {
        return Err(AllocError);
    }
    Schedule::over(alloc, values)
}

/// The values of the catalogs, with room for those of the given number of members. `AllocError` where memory runs out.
fn catalog_values(
    alloc: Global,
    before: &Holdings,
    schedule: &Schedule,
    members: usize,
) -> Result<Vec<Values>, AllocError>
    requires { length before.now.fold.config ≤ length schedule.now }
    ensures { IfOk result (λ v. v.items ≡ take (length before.now.fold.config) schedule.now) }
{
    let catalogs = before.fold().catalogs().len();
    let mut values = Vec::with_capacity(alloc, members.saturating_add(catalogs))?;
    values.extend_from_slice(&schedule.values()[..catalogs])?;
    Ok(values)
}

/// Appends the values of members to others. `AllocError` where memory runs out.
fn carry(
    values: &mut Vec<Values>,
    relisting: &Relisting<'_>,
    changes: &Changes,
) -> Result<(), AllocError>
    requires changes { AreRelisted relisting.now.state.fold.members relisting.now.members
        changes.now }
    ensures { IfOk result (λ _. values.new.items
        ≡ values.old.items
        ++ map (carried relisting.now.state relisting.now.values) relisting.now.members) }
{
    let mut behind = Behind { left: 0, made: 0 };
    'changes: for place in 0..count_of(changes) {
        behind = carry_to(values, relisting, behind, changes, place)?;
    }
    let count = relisting.before.fold().count();
    copy_run(values, relisting, behind.left, count)
}

/// Appends the values of the members up to the zone of a change, and of its own. It answers how many are behind then.
/// `AllocError` where memory runs out.
fn carry_to(
    values: &mut Vec<Values>,
    relisting: &Relisting<'_>,
    behind: Behind,
    changes: &Changes,
    place: usize,
) -> Result<Behind, AllocError>
    requires there { place < length changes.now }
    requires behind { AreBehind relisting.now.state.fold.members relisting.now.members
        (drop place changes.now) behind.left behind.made }
    ensures behind { IfOk result (λ r. AreBehind relisting.now.state.fold.members
        relisting.now.members (drop (place + 1) changes.now) r.left r.made) }
    ensures values { IfOk result (λ r. values.new.items
        ++ map (carried relisting.now.state relisting.now.values)
        (drop r.made relisting.now.members)
        ≡ values.old.items ++ map (carried relisting.now.state relisting.now.values)
        (drop behind.made relisting.now.members)) }
{
    let zone = zone_at(changes, place);
    let left = count_before(relisting.before.fold(), behind.left, &zone);
    copy_run(values, relisting, behind.left, left)?;
    let made = behind.made + (left - behind.left);
    let next_left = next_place(relisting.before.fold(), left, &zone);
    let next_made = next_place(relisting.after, made, &zone);
    if made < next_made {
        values.push(carried_at(relisting, place_before(left, next_left), made))?;
    }
    Ok(Behind {
        left: next_left,
        made: next_made,
    })
}

/// Appends the values of the members before a listing from one place to another, which it leaves as they are.
/// `AllocError` where memory runs out.
fn copy_run(
    values: &mut Vec<Values>,
    relisting: &Relisting<'_>,
    from: usize,
    upto: usize,
) -> Result<(), AllocError>
    requires order { from ≤ upto }
    requires within { upto ≤ length relisting.now.state.fold.members }
    ensures { IfOk result (λ _. values.new.items
        ≡ values.old.items ++ map (carried relisting.now.state relisting.now.values)
        (take (upto - from) (drop from relisting.now.state.fold.members))) }
{
    let catalogs = relisting.before.fold().catalogs().len();
    let run = &relisting.schedule.values()[catalogs + from..catalogs + upto];
    values.extend_from_slice(run)
}

/// The values of the member at a place after a listing, whose zone had this place before it, if it was a member.
pub(crate) fn carried_at(relisting: &Relisting<'_>, held: Option<usize>, place: usize) -> Values
    requires there { place < length relisting.now.members }
    requires held { IfSome (slice_get relisting.now.members place)
        (λ m. held ≡ position (λ b. same_name b.zone m.zone) relisting.now.state.fold.members) }
    ensures { slice_get (map (carried relisting.now.state relisting.now.values)
        relisting.now.members) place ≡ Some result }
{
    carried(
        relisting.before,
        relisting.schedule,
        held,
        &relisting.after.member(place),
    )
}

/// A place, where it comes before another.
fn place_before(place: usize, next: usize) -> Option<usize>
    ensures { result ≡ (if nat_lt place next then Some place else None) }
{
    if place < next { Some(place) } else { None }
}
