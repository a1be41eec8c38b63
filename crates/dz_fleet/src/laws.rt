//! Laws of a core to which events happen, one after the other. Each is a contract without a call, so its body is
//! empty.

ghost use Rattle.dz_fleet.specs.Events.{ListOnlyGrows, ListStaysLegal, CoreStaysSound, CallsAreEvents};

/// Whatever happens, the list of taken transfers only grows: an entry stays where it is.
pub fn list_only_grows()
    ensures { ListOnlyGrows }
{}

/// Whatever can happen to the core of a configuration leaves a list that can come about.
pub fn list_stays_legal()
    ensures { ListStaysLegal }
{}

/// Whatever can happen to the core of a configuration leaves a sound core.
pub fn core_stays_sound()
    ensures { CoreStaysSound }
{}

/// Each call that changes a core is one of the events.
pub fn calls_are_events()
    ensures { CallsAreEvents }
{}
