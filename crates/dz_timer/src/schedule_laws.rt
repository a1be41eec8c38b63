//! Laws of the first zone that is due, for all values.

ghost use Rattle.dz_timer.specs.ScheduleLaws.{FirstIsLeast, NoneIsIdle, FirstIsDue};

/// The first zone has no job in flight. No zone without one waits for an earlier moment, and none at a lower place for
/// the same moment.
pub fn first_is_least()
    ensures { FirstIsLeast }
{}

/// There is no first zone exactly where each zone has a job in flight.
pub fn none_is_idle()
    ensures { NoneIsIdle }
{}

/// At any moment some zone is due exactly where the first zone is.
pub fn first_is_due()
    ensures { FirstIsDue }
{}
