//! Laws of scripts. Each is a contract without a call, so its body is empty.

ghost use Rattle.dz_run.specs.Rehearsing.{GoesOn};

/// No line of the generated script with 1 to 1,000 zones ends it, so it is read to its end.
pub fn generated_script_goes_on(number: u16)
    ensures { GoesOn number }
{}
