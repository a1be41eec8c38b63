//! Laws of what comes of a transfer. Each is a contract without a call, so its body is empty.

ghost use Rattle.dz_take.specs.Fit.{OutcomesFit};
ghost use Rattle.dz_take.specs.Laws.{MessagesDecide, FirstDecides, DecidingDecides, NoneDecides, FormDecides};
ghost use Rattle.dz_take.specs.Laws.{FormStands};

/// The outcome is that of the messages, however their octets were cut; a part of a frame after them doesn't count.
pub fn messages_decide()
    ensures { MessagesDecide }
{}

/// What messages decide is what the first of them decides that decides anything.
pub fn first_decides()
    ensures first { FirstDecides }
    ensures back { DecidingDecides }
    ensures none { NoneDecides }
{}

/// After a first SOA that settles nothing, what holds of the answer records as a whole decides, by the form of their
/// kind; and something always holds of them.
pub fn form_decides()
    ensures decides { FormDecides }
    ensures stands { FormStands }
{}

/// What comes of a transfer fits it: the held version can be the primary's only where one is held, and a new one is of
/// the zone that was asked for.
pub fn outcomes_fit()
    ensures { OutcomesFit }
{}
