//! Laws of what a transfer changes. Each is a contract without a call, so its body is empty.

ghost use Rattle.dz_history.specs.Laws.{BrokenKeeps, BeginsEmpty, RefusedKeeps, RecordsAreOwn};

/// A catalog that is broken keeps its members and all that is held of them (RFC 9432 section 5.1).
pub fn broken_keeps()
    ensures { BrokenKeeps }
{}

/// A zone that is reset shows no records that were taken before (RFC 9432 section 5.4).
pub fn begins_empty()
    ensures { BeginsEmpty }
{}

/// A refused transfer keeps all members and all that is held of them.
pub fn refused_keeps()
    ensures { RefusedKeeps }
{}

/// What is held of a member was taken for its zone and its incarnation, after it began.
pub fn records_are_own()
    ensures { RecordsAreOwn }
{}
