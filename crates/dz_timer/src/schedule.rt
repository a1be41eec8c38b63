//! The values of many zones, and the first zone that is due.

ghost use Rattle.std.specs.Prelude.{◌≡◌, ◌<◌, ◌^◌, length, slice_get, slice_set, Some, IfOk};
ghost use Rattle.std.specs.List.{position};
ghost use Rattle.dz_timer.specs.Schedule.{is_first};

use crate::tournament::{NEVER, Tournament, wait_of};
use crate::values::Values;
use std::alloc::{AllocError, Global};
use std::marker::Model;

/// What each zone waits for, by place. Contracts see it as the list of the values. The first zone that is due is known
/// at once. A change allocates nothing, and takes as many steps as the number of zones has binary digits.
#[derive(Drop)]
pub struct Schedule {
    values: Vec<Values>,
    tournament: Tournament,
}

impl Model for Schedule {
    ghost use Rattle.std.specs.Prelude.{List};
    ghost use Rattle.dz_timer.specs.Values.{ValuesOf};
    ghost use Rattle.dz_timer.specs.inner.Tournament.{AreKept};

    ghost Value = { List ValuesOf };

    ghost view = { λ s. s.values.items };

    ghost invariant = { λ s. AreKept s.values.items s.tournament };
}

impl Schedule {
    /// The schedule of fewer than 2^32 zones, made in as many steps. `AllocError` where memory runs out.
    pub fn over(alloc: Global, values: Vec<Values>) -> Result<Schedule, AllocError>
        requires { length values.items < 2 ^ 32 }
        ensures { IfOk result (λ schedule. schedule ≡ values.items) }
    {
        let tournament = Tournament::over(alloc, &values)?;
        Ok(Schedule { values, tournament })
    }

    /// How many zones there are.
    pub fn len(&self) -> usize
        ensures { result ≡ length self.now }
    {
        self.values.len()
    }

    /// The values of all zones.
    pub fn values(&self) -> &[Values]
        ensures { result.now ≡ self.now }
    {
        &self.values
    }

    /// The values of the zone at a place.
    pub fn at(&self, place: usize) -> Values
        requires { place < length self.now }
        ensures { slice_get self.now place ≡ Some result }
    {
        self.values[place]
    }

    /// The place of the first zone, among those without a job in flight, that waits for the earliest moment; `None`
    /// where each has a job in flight.
    pub fn first(&self) -> Option<usize>
        ensures { result ≡ position (is_first self.now) self.now }
    {
        let first = self.tournament.first()?;
        if first.moment == NEVER {
            return None;
        }
        Some(first.place)
    }

    /// Replaces the values of the zone at a place.
    pub fn change(&mut self, place: usize, values: Values)
        requires { place < length self.old }
        ensures { self.new ≡ slice_set self.old place values }
    {
        self.tournament.change(place, wait_of(values));
        self.values[place] = values;
    }
}
