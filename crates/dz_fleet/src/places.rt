//! The places of zones.

ghost use Rattle.std.specs.Prelude.{◌≡◌, ◌<◌, length, slice_get, Some, IsSome};
ghost use Rattle.dz_history.specs.Places.{seats, place_at};

use dz_history::Holdings;
use dz_name::Name;

/// The place of a zone: catalogs come in the order of the configuration, and then members in canonical order.
pub(crate) fn place_of(holdings: &Holdings, zone: &Name) -> Option<usize>
    ensures { result ≡ place_at holdings.now zone.now }
{
    let fold = holdings.fold();
    let catalogs = fold.catalogs();
    match fold.catalog_number(zone) {
        Some(number) => Some(number),
        None => match fold.place_of(zone) {
            Some(place) => Some(catalogs.len() + place),
            None => None,
        },
    }
}

/// The place of a zone that has one.
pub(crate) fn own_place(holdings: &Holdings, zone: &Name) -> usize
    requires { IsSome (place_at holdings.now zone.now) }
    ensures { place_at holdings.now zone.now ≡ Some result }
{
    match place_of(holdings, zone) {
        Some(place) => place,
        None => unreachable!(),
    }
}

/// The zone at a place, and its incarnation.
pub(crate) fn seat_at(holdings: &Holdings, place: usize) -> (Name, u64)
    requires { place < length (seats holdings.now) }
    ensures { slice_get (seats holdings.now) place
        ≡ Some record { zone = result.0; incarnation = result.1 } }
{
    let fold = holdings.fold();
    let catalogs = fold.catalogs().len();
    if place < catalogs {
        (fold.settings(place).name, 0)
    } else {
        let member = fold.member(place - catalogs);
        (member.zone().to_name(), member.incarnation())
    }
}
