//! The moment that the zone at a place waits for.

ghost use Rattle.std.specs.Prelude.{◌≡◌};
ghost use Rattle.dz_timer.specs.inner.Tournament.{earlier};

/// The moment that the zone at this place waits for.
#[derive(Clone, Copy, Debug)]
pub(crate) struct Wait {
    pub(crate) moment: u64,
    pub(crate) place: usize,
}

/// The wait for the earlier moment; for the same moment the one at the lower place.
pub(crate) fn earlier(a: Wait, b: Wait) -> Wait
    ensures { result ≡ earlier a b }
{
    if b.moment < a.moment || b.moment == a.moment && b.place < a.place {
        b
    } else {
        a
    }
}
