//! Laws of counts of faults. Each is a contract without a call, so its body is empty.
ghost use Rattle.dz_io.specs.Counts.{RisesAddUp, RisesLast};

/// A count that rose by one number and then by another rose by their sum.
pub fn rises_add_up()
    ensures { RisesAddUp }
{}

/// A count that rose has still risen later, where it doesn't fall.
pub fn rises_last()
    ensures { RisesLast }
{}
