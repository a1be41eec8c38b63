//! One call of a transfer worker whose transfers are kept.

ghost use Rattle.std.specs.Prelude.{◌≡◌, ◌≤◌, ◌<◌, ◌+◌, false, length, None, IfSome};
ghost use mathlib.Core.List.{IsPrefix};
ghost use Rattle.dz_io.specs.Counts.{HasRisen};
ghost use Rattle.dz_provision.specs.Endings.{EndsAmong, starved_in};
ghost use Rattle.dz_transfer.specs.Receipts.{IsWork, LeavesDialer, IsAtMoment};

use crate::report::Report;
use crate::work::{Worked, work_one};
use dz_desk::Reading;
use dz_disk::Disk;
use dz_io::{Clock, Dialer, Sink};
use dz_provision::{Keeping, Naming, Shared};
use dz_store::Store;
use std::alloc::Global;
use std::sync::ledger::Share;
use std::sync::{Mutex, Wait};

/// Does what [`work_one`] does over a shared provisioner. What is taken is kept in the store before the provisioner's lock is
/// let go, as [`dz_provision::keep_last`] does.
pub fn work_and_keep<K: Sink, J: Naming, L: Dialer, C: Clock, D: Disk + Drop, R: Wait>(
    rt: &R,
    alloc: Global,
    shared: &Shared<K, J>,
    reading: &mut Reading,
    share: &mut Share<J>,
    dialer: &mut L,
    clock: &mut C,
    store: &Mutex<Store<D>>,
) -> Worked
    requires out { reading.old.is_out ≡ false }
    requires own { reading.old.book ≡ J.publisher }
    requires part { 0 < share.old.parts }
    requires dialer { L.out dialer.old ≡ None }
    ensures same { reading.new ≡ record reading.old { list = reading.new.list } }
    ensures seen { IsPrefix reading.old.list reading.new.list }
    ensures back { L.out dialer.new ≡ None }
    ensures worked { IsWork result.dialed result.report result.ending
        (length reading.old.list) reading.new.list
        (L.links dialer.old) (L.links dialer.new) (L.faults dialer.old) (L.faults dialer.new) }
    ensures left { LeavesDialer result.report
        (L.links dialer.old) (L.links dialer.new) (L.faults dialer.old) (L.faults dialer.new) }
    ensures later { L.faults dialer.old ≤ L.faults dialer.new }
    ensures link { result.report ≡ Report.LinkFault
        → HasRisen (L.faults dialer.old) (L.faults dialer.new) }
    ensures memory { result.report ≡ Report.OutOfMemory
        → L.faults dialer.new ≡ L.faults dialer.old }
    ensures parts { share.new.parts ≡ share.old.parts }
    ensures counted { share.new.amount ≡ share.old.amount + starved_in result.ending }
    ensures log { result.report ≡ Report.LogFault → (k : K) × HasRisen 0 (K.faults k) }
    ensures moment { IsAtMoment result.report (C.may_give clock.old) }
    ensures ended { IfSome result.ending (EndsAmong (C.may_give clock.old)) }
    ensures give { C.may_give clock.new ≡ C.may_give clock.old }
    ensures stop { C.may_stop clock.new ≡ C.may_stop clock.old }
{
    let jobs = Keeping::over(shared, Some(store));
    work_one(rt, alloc, &jobs, reading, share, dialer, clock)
}
