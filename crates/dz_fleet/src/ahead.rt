//! How many members come before a zone.

ghost use Rattle.std.specs.Prelude.{◌≡◌, ◌<◌, ◌≤◌, length, map, slice_get, false};
ghost use Rattle.std.specs.Option.{option_map_or};
ghost use Rattle.std.specs.Ordering.{is_lt};
ghost use Rattle.std.specs.List.Sorted.{IsStrictlySortedBy};
ghost use Rattle.dz_name.specs.Name.{canonical_order};
ghost use Rattle.dz_fleet.specs.inner.Relisting.{count_before, next_place};

use dz_member::Fold;
use dz_name::Name;

/// How many members come before a zone, where so many are known to. It takes about twice as many comparisons as the
/// number of the others has binary digits.
pub(crate) fn count_before(fold: &Fold, known: usize, zone: &Name) -> usize
    requires order { IsStrictlySortedBy canonical_order (map (λ m. m.zone) fold.now.members) }
    requires known { known ≤ count_before zone.now fold.now.members }
    ensures { result ≡ count_before zone.now fold.now.members }
{
    let (low, high) = bounds(fold, known, zone);
    count_within(fold, low, high, zone)
}

/// Bounds of how many members come before a zone, found by steps that double.
fn bounds(fold: &Fold, known: usize, zone: &Name) -> (usize, usize)
    requires order { IsStrictlySortedBy canonical_order (map (λ m. m.zone) fold.now.members) }
    requires known { known ≤ count_before zone.now fold.now.members }
    ensures low { result.0 ≤ count_before zone.now fold.now.members }
    ensures high { count_before zone.now fold.now.members ≤ result.1 }
    ensures within { result.1 ≤ length fold.now.members }
{
    let count = fold.count();
    let mut low = known;
    'steps: while low < count {
        let place = low + (low - known).min(count - 1 - low);
        if !is_before(fold, place, zone) {
            return (low, place);
        }
        low = place + 1;
    }
    (low, count)
}

/// How many members come before a zone, by halves between these bounds.
fn count_within(fold: &Fold, from: usize, upto: usize, zone: &Name) -> usize
    requires order { IsStrictlySortedBy canonical_order (map (λ m. m.zone) fold.now.members) }
    requires low { from ≤ count_before zone.now fold.now.members }
    requires high { count_before zone.now fold.now.members ≤ upto }
    requires within { upto ≤ length fold.now.members }
    ensures { result ≡ count_before zone.now fold.now.members }
{
    let mut low = from;
    let mut high = upto;
    'search: while low < high {
        let middle = low + (high - low) / 2;
        if is_before(fold, middle, zone) {
            low = middle + 1;
        } else {
            high = middle;
        }
    }
    low
}

/// Whether the member at a place comes before a zone.
fn is_before(fold: &Fold, place: usize, zone: &Name) -> bool
    requires { place < length fold.now.members }
    ensures { result ≡ option_map_or (λ m. is_lt (canonical_order m.zone zone.now))
        (slice_get fold.now.members place) false }
{
    fold.member(place)
        .zone()
        .canonical_cmp(&zone.as_ref())
        .is_lt()
}

/// The place behind a zone: the next one, where the member at this place is of the zone, and otherwise this one.
pub(crate) fn next_place(fold: &Fold, place: usize, zone: &Name) -> usize
    ensures { result ≡ next_place zone.now fold.now.members place }
{
    if place < fold.count() && fold.member(place).zone().same(&zone.as_ref()) {
        place + 1
    } else {
        place
    }
}
