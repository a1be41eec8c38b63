//! What a member waits for after a listing.

ghost use Rattle.std.specs.Prelude.{◌≡◌, option_map, position};
ghost use Rattle.std.specs.Option.{option_eq};
ghost use Rattle.std.specs.Str.{bytes_eq};
ghost use Rattle.dz_name.specs.Name.{same_name};
ghost use Rattle.dz_history.specs.Places.{IsApart};
ghost use Rattle.dz_timer.specs.Values.{fresh};
ghost use Rattle.dz_fleet.specs.Values.{value_at, kept, same_primaries, carried};

use dz_history::Holdings;
use dz_member::Member;
use dz_name::Octets;
use dz_timer::{Schedule, Values};

/// The values of a member after a listing, whose zone had this place among the members before it, if it was one.
pub(crate) fn carried(
    before: &Holdings,
    schedule: &Schedule,
    held: Option<usize>,
    member: &Member<'_>,
) -> Values
    requires apart { IsApart before.now }
    requires held { held
        ≡ position (λ m. same_name m.zone member.now.zone) before.now.fold.members }
    ensures { result ≡ carried before.now schedule.now member.now }
{
    match held {
        None => Values::fresh(),
        Some(place) => {
            let fold = before.fold();
            let held = fold.member(place);
            if held.incarnation() == member.incarnation() {
                let seat = fold.catalogs().len() + place;
                kept(value_at(schedule, seat), &held, member)
            } else {
                Values::fresh()
            }
        }
    }
}

/// The values at a place.
fn value_at(schedule: &Schedule, place: usize) -> Values
    ensures { result ≡ value_at schedule.now place }
{
    if place < schedule.len() {
        schedule.at(place)
    } else {
        Values::fresh()
    }
}

/// The values of a member that stays: where it has other primaries, the first of them is asked next.
fn kept(values: Values, before: &Member<'_>, now: &Member<'_>) -> Values
    ensures { result ≡ kept values before.now now.now }
{
    if same_primaries(before, now) {
        values
    } else {
        values.turned_back()
    }
}

/// Whether a member is of the same catalog and the same group as before.
fn same_primaries(before: &Member<'_>, now: &Member<'_>) -> bool
    ensures { result ≡ same_primaries before.now now.now }
{
    before.catalog() == now.catalog() && same_choice(before.choice(), now.choice())
}

/// Whether two members are of the same group, or of none.
fn same_choice(a: Option<&Octets>, b: Option<&Octets>) -> bool
    ensures { result ≡ option_eq bytes_eq (option_map (λ r. r.now) a.entry)
        (option_map (λ r. r.now) b.entry) }
{
    match (a, b) {
        (None, None) => true,
        (Some(a), Some(b)) => a.as_slice() == b.as_slice(),
        _ => false,
    }
}
