//! The work of a transfer worker.

ghost use Rattle.std.specs.Prelude.{◌≡◌, ◌≤◌, ◌<◌, ◌+◌, false, true, [], length, None};
ghost use Rattle.std.specs.List.{All};
ghost use mathlib.Core.List.{IsPrefix};
ghost use Rattle.dz_provision.specs.Endings.{EndsAmong};
ghost use Rattle.dz_transfer.specs.Serving.{IsTransfers, Counts};
ghost use Rattle.dz_transfer.specs.inner.Marks.{IsMore, number_if};

use crate::report::{absent_of, is_idle, is_log_fault, starved_of};
use crate::work::{Worked, work_one};
use dz_desk::Reading;
use dz_io::{Clock, Dialer, Rest};
use dz_provision::{Endings, Jobs};
use std::alloc::Global;
use std::sync::Wait;
use std::sync::ledger::Share;

/// Why a transfer worker ended.
#[derive(Clone, Copy, Debug, PartialEq, Eq)]
pub enum TransferEnd {
    /// The clock said that it is enough.
    Stopped,
    /// A write to the log has failed.
    LogFault,
}

/// What a transfer worker did: whether it dialled, why it ended, how many of its dials left no trace in the links, and how
/// its jobs ended.
#[derive(Drop)]
pub struct Transfers {
    pub dialed: bool,
    pub end: TransferEnd,
    /// How many dials were for jobs that were not in flight as they ended. At 2^64 - 1 it says nothing more.
    pub absent: u64,
    /// How many dials ended for want of memory. At 2^64 - 1 it says nothing more.
    pub starved: u64,
    /// How the jobs ended, in their order.
    pub endings: Endings,
}

/// Makes transfers until the clock says that it is enough, or a write to the log has failed. It rests between two of them,
/// longer where nothing can be done for now. The share, which counts nothing yet, counts the lines that its calls write of
/// want of memory.
#[tactic(auto, using(dz_desk::proofs::PrefixLemmas::prefix_self, dz_desk::proofs::PrefixLemmas::prefix_trans))]
pub fn serve_transfers<B: Jobs, D: Dialer, C: Clock, R: Wait>(
    rt: &R,
    alloc: Global,
    jobs: &B,
    reading: &mut Reading,
    share: &mut Share<B::Counted>,
    dialer: &mut D,
    clock: &mut C,
) -> Transfers
    requires out { reading.old.is_out ≡ false }
    requires own { reading.old.book ≡ B.publisher }
    requires share { (share.old.amount ≡ 0) × (0 < share.old.parts) }
    requires dialer { D.out dialer.old ≡ None }
    ensures same { reading.new ≡ record reading.old { list = reading.new.list } }
    ensures seen { IsPrefix reading.old.list reading.new.list }
    ensures back { D.out dialer.new ≡ None }
    ensures parts { share.new.parts ≡ share.old.parts }
    ensures served { IsTransfers result share.new.amount
        (length reading.old.list) reading.new.list
        (D.links dialer.old) (D.links dialer.new) (D.faults dialer.old) (D.faults dialer.new) }
    ensures later { D.faults dialer.old ≤ D.faults dialer.new }
    ensures moments { All (EndsAmong (C.may_give clock.old)) result.endings }
    ensures log { result.end ≡ TransferEnd.LogFault → B.may_fail }
    ensures stopped { result.end ≡ TransferEnd.Stopped → C.may_stop clock.old ≡ true }
    ensures give { C.may_give clock.new ≡ C.may_give clock.old }
    ensures stop { C.may_stop clock.new ≡ C.may_stop clock.old }
{
    let mut done = nothing();
    'jobs: for _ in rt.forever() {
        let worked = work_one(rt, alloc, jobs, reading, share, dialer, clock);
        let report = worked.report;
        done = joined(done, worked);
        if is_log_fault(&report) {
            return at_log_fault(done);
        }
        if clock.rest(is_idle(&report)) == Rest::Stop {
            return done;
        }
    }
    unreachable!()
}

/// Nothing, of a worker that is to be stopped.
fn nothing() -> Transfers
    ensures dialed { result.dialed ≡ false }
    ensures end { result.end ≡ TransferEnd.Stopped }
    ensures absent { result.absent ≡ 0 }
    ensures starved { result.starved ≡ 0 }
    ensures endings { result.endings ≡ [] }
{
    Transfers {
        dialed: false,
        end: TransferEnd::Stopped,
        absent: 0,
        starved: 0,
        endings: Endings::new(),
    }
}

/// The same and one more call.
fn joined(done: Transfers, worked: Worked) -> Transfers
    ensures { IsMore done worked result }
{
    let absent = absent_of(&worked.report);
    let starved = starved_of(&worked.report);
    Transfers {
        dialed: done.dialed || worked.dialed,
        end: done.end,
        absent: counted(done.absent, worked.dialed, absent),
        starved: counted(done.starved, worked.dialed, starved),
        endings: done.endings.and(worked.ending),
    }
}

/// A count and this number more, where there was a dial.
fn counted(count: u64, dialed: bool, number: u64) -> u64
    ensures { Counts (count + number_if dialed number) result }
{
    if dialed {
        count.saturating_add(number)
    } else {
        count
    }
}

/// The same, ended by a fault of the log.
fn at_log_fault(done: Transfers) -> Transfers
    ensures { result ≡ record done { end = TransferEnd.LogFault } }
{
    Transfers {
        dialed: done.dialed,
        end: TransferEnd::LogFault,
        absent: done.absent,
        starved: done.starved,
        endings: done.endings,
    }
}
