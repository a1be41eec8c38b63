//! Laws of signed streams. Each is a contract without a call, so its body is empty.
ghost use Rattle.dz_tsig.specs.Laws.{ChangedMacIsFound, SignedHasNoFault};

/// What is signed has no fault at its moment.
pub fn signed_has_no_fault()
    ensures { SignedHasNoFault }
{}

/// A stream without a fault has the fault `Mac` once the TSIG of a message has another MAC.
pub fn changed_mac_is_found()
    ensures { ChangedMacIsFound }
{}
