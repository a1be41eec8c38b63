//! Laws of a core whose zones are restored. Each is a contract without a call, so its body is empty.

ghost use Rattle.dz_restore.specs.Laws.{RestoresExactly};
ghost use Rattle.dz_restore.specs.Turns.{DueInTurn, FailsInTurn, RefusedInTurn, SucceedsInTurn};

/// While zones have their turns, the next one is handed out at every moment, and passes the turn on whatever comes of
/// it.
pub fn zones_have_turns()
    ensures due { DueInTurn }
    ensures fails { FailsInTurn }
    ensures refused { RefusedInTurn }
    ensures succeeds { SucceedsInTurn }
{}

/// After all had their turns, the zones hold their kept versions exactly where these return.
pub fn restores_exactly()
    ensures { RestoresExactly }
{}
