//! Laws of the steps of a desk. Each is a contract without a call, so its body is empty.

ghost use Rattle.dz_desk.specs.Kinds.{EachKeeps};
ghost use Rattle.dz_desk.specs.Steps.{StepsKeep};

/// Whatever step comes next, what each end saw still begins what is published.
pub fn steps_keep()
    ensures { StepsKeep }
{}

/// Each of the eight kinds of atomic step keeps the rule: the published list is legal, its table is published, and all
/// that was seen or noted begins it.
pub fn each_keeps()
    ensures { EachKeeps }
{}
