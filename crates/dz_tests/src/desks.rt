//! Desks on which nothing is published yet.

ghost use Rattle.std.specs.Prelude.{◌≡◌, ◌<◌, false, [], None, All};
ghost use Rattle.dz_desk.specs.Seen.{IsFresh};

use dz_desk::{Desk, Publisher, Reading, open_desk};
use std::alloc::Global;
use std::process::Abort;
use std::sync::Wait;

/// A desk with this many readings.
pub fn open<R: Abort + Wait>(rt: &R, alloc: Global, readers: u8) -> Desk
    requires { 0 < readers }
    ensures list { (result.publisher.list ≡ []) × (result.publisher.staged ≡ None) }
    ensures fresh { All (IsFresh result.publisher.book) result.readings.items }
{
    match open_desk(rt, alloc, readers) {
        Ok(desk) => desk,
        Err(error) => panic!(rt; "{error}"),
    }
}

/// The last of the readings.
pub fn last_of(rt: &impl Abort, readings: &mut Vec<Reading>, publisher: &Publisher) -> Reading
    requires { All (IsFresh publisher.now.book) readings.old.items }
    ensures rest { All (IsFresh publisher.now.book) readings.new.items }
    ensures last { IsFresh publisher.now.book result }
{
    match readings.pop() {
        Some(reading) => reading,
        None => panic!(rt; "no reading"),
    }
}

/// The publisher and the reading of a desk with one.
pub fn open_one<R: Abort + Wait>(rt: &R, alloc: Global) -> (Publisher, Reading)
    ensures publisher { (result.0.list ≡ []) × (result.0.staged ≡ None) }
    ensures reading { IsFresh result.0.book result.1 }
    ensures rests { result.1.is_out ≡ false }
{
    let Desk {
        publisher,
        mut readings,
    } = open(rt, alloc, 1);
    let reading = last_of(rt, &mut readings, &publisher);
    (publisher, reading)
}
