//! Desks on which nothing is published yet.

ghost use Rattle.std.specs.Prelude.{◌≡◌, false};
ghost use Rattle.dz_desk.specs.Seen.{IsFresh};
ghost use Rattle.dz_run.specs.Running.{IsNewDesk};

use dz_desk::{Desk, Publisher, Reading, open_desk};
use std::alloc::Global;
use std::process::Abort;
use std::sync::Wait;

/// A desk of six readings.
pub fn open<R: Abort + Wait>(rt: &R, alloc: Global) -> Desk
    ensures { IsNewDesk result.publisher result.readings.items }
{
    match open_desk(rt, alloc, 6) {
        Ok(desk) => desk,
        Err(error) => panic!(rt; "{error}"),
    }
}

/// The publisher and the reading of a desk with one.
pub fn open_one<R: Abort + Wait>(rt: &R, alloc: Global) -> (Publisher, Reading)
    ensures reading { IsFresh result.0.book result.1 }
    ensures rests { result.1.is_out ≡ false }
{
    match open_desk(rt, alloc, 1) {
        Ok(
            Desk {
                publisher,
                mut readings,
            },
        ) => match readings.pop() {
            Some(reading) => (publisher, reading),
            None => panic!(rt; "no reading"),
        },
        Err(error) => panic!(rt; "{error}"),
    }
}

/// Ends a desk.
pub fn end<R: Wait>(rt: &R, desk: Desk) {
    let Desk {
        publisher,
        readings,
    } = desk;
    drop(readings);
    publisher.close(rt);
}
