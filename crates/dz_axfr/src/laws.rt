//! Laws of the whole form. Each is a contract without a call, so its body is empty.

ghost use Rattle.dz_axfr.specs.Laws.{ReadingStands, NothingElse};

/// What the reading of the whole form says of a list of records is what holds of the list, and nothing else does.
#[tactic(auto, using(crate::proofs::WholeLemmas::whole_stands_once))]
pub fn whole_form()
    ensures stands { ReadingStands }
    ensures once { NothingElse }
{}
