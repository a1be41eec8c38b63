//! Values that are read, or the least of the faults found where they should be.

ghost use Rattle.std.specs.Prelude.{◌≡◌, IfOk};
ghost use Rattle.dz_config.specs.Reading.{both, made, more};

use crate::fault::{ConfigFault, least};
use std::alloc::AllocError;

/// Two values, or the lesser fault.
pub(crate) fn both<A: Drop, B: Drop>(
    one: Result<A, ConfigFault>,
    other: Result<B, ConfigFault>,
) -> Result<(A, B), ConfigFault>
    ensures { result ≡ both one other }
{
    match one {
        Ok(a) => match other {
            Ok(b) => Ok((a, b)),
            Err(fault) => Err(fault),
        },
        Err(fault) => match other {
            Ok(_) => Err(fault),
            Err(second) => Err(least(fault, second)),
        },
    }
}

/// One value more after the others, or the least fault. The outer error is out of memory.
pub(crate) fn more<T: Drop>(
    all: Result<Vec<T>, ConfigFault>,
    one: Result<T, ConfigFault>,
) -> Result<Result<Vec<T>, ConfigFault>, AllocError>
    ensures { IfOk result (λ r. made (λ v. v.items) r ≡ more (made (λ v. v.items) all) one) }
{
    match both(all, one) {
        Ok((mut items, item)) => {
            items.push(item)?;
            Ok(Ok(items))
        }
        Err(fault) => Ok(Err(fault)),
    }
}
