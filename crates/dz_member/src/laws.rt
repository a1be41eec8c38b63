//! Laws of what a listing changes. Each is a contract without a call, so its body is empty.

ghost use Rattle.dz_member.specs.Laws.{HeldOnce, MovesWithConsent, KeepsState, StaysWithout, ClashStays, ChangesOnce};
ghost use Rattle.dz_member.specs.Laws.{InAnyOrder};

/// No zone is held twice.
pub fn held_once()
    ensures { HeldOnce }
{}

/// A zone changes its holder only where the node of its label in the old holder's last unbroken listing has a `coo`
/// that names the new one (RFC 9432 section 4.3.1).
pub fn moves_with_consent()
    ensures { MovesWithConsent }
{}

/// A zone that is moved or regrouped keeps its label and its incarnation.
pub fn keeps_state()
    ensures { KeepsState }
{}

/// A zone without a change is as it was, and so is one that is a clash.
pub fn stays()
    ensures without { StaysWithout }
    ensures clash { ClashStays }
{}

/// A listing that is processed once more changes nothing: the clashes that are still there are reported again.
pub fn changes_once()
    ensures { ChangesOnce }
{}

/// The order of a listing's nodes doesn't matter: each zone is judged alike.
pub fn in_any_order()
    ensures { InAnyOrder }
{}
