//! One call of a transfer worker.

ghost use Rattle.std.specs.Prelude.{◌≡◌, ◌≤◌, ◌<◌, ◌+◌, None, true, false, length, IfSome};
ghost use mathlib.Core.List.{IsPrefix};
ghost use Rattle.dz_io.specs.Counts.{HasRisen};
ghost use Rattle.dz_provision.specs.Endings.{EndsAmong, starved_in};
ghost use Rattle.dz_provision.specs.Receipts.{IsDueAt};
ghost use Rattle.dz_transfer.specs.Receipts.{HasDialled, IsWork, LeavesDialer, IsAtMoment};
ghost use Rattle.dz_transfer.specs.inner.Marks.{is_busy};

use crate::report::{Report, failed_report, job_in, settled_report};
use dz_desk::Reading;
use dz_fetch::{Fetched, fetch};
use dz_fleet::Job;
use dz_io::{Clock, Dialer};
use dz_provision::{Ending, Jobs};
use std::alloc::Global;
use std::sync::Wait;
use std::sync::ledger::Share;

/// What one call came to, whether it dialled, and how its job ended, where it did.
#[derive(Drop)]
pub struct Worked {
    pub report: Report,
    pub dialed: bool,
    pub ending: Option<Ending>,
}

/// Asks for a job, and where there is one makes its transfer: it dials the job's primary, reads what it gives, and ends the
/// job by that. Nothing is locked while it reads. The clock is asked for the moment of the job, and once the link was given
/// back for that of its end. The share counts the line that is written of want of memory.
#[tactic(auto, using(dz_desk::proofs::PrefixLemmas::prefix_trans))]
pub fn work_one<B: Jobs, D: Dialer, C: Clock, R: Wait>(
    rt: &R,
    alloc: Global,
    jobs: &B,
    reading: &mut Reading,
    share: &mut Share<B::Counted>,
    dialer: &mut D,
    clock: &mut C,
) -> Worked
    requires out { reading.old.is_out ≡ false }
    requires own { reading.old.book ≡ B.publisher }
    requires part { 0 < share.old.parts }
    requires dialer { D.out dialer.old ≡ None }
    ensures same { reading.new ≡ record reading.old { list = reading.new.list } }
    ensures seen { IsPrefix reading.old.list reading.new.list }
    ensures back { D.out dialer.new ≡ None }
    ensures worked { IsWork result.dialed result.report result.ending
        (length reading.old.list) reading.new.list
        (D.links dialer.old) (D.links dialer.new) (D.faults dialer.old) (D.faults dialer.new) }
    ensures left { LeavesDialer result.report
        (D.links dialer.old) (D.links dialer.new) (D.faults dialer.old) (D.faults dialer.new) }
    ensures later { D.faults dialer.old ≤ D.faults dialer.new }
    ensures link { result.report ≡ Report.LinkFault
        → HasRisen (D.faults dialer.old) (D.faults dialer.new) }
    ensures memory { result.report ≡ Report.OutOfMemory
        → D.faults dialer.new ≡ D.faults dialer.old }
    ensures parts { share.new.parts ≡ share.old.parts }
    ensures counted { share.new.amount ≡ share.old.amount + starved_in result.ending }
    ensures log { result.report ≡ Report.LogFault → B.may_fail }
    ensures moment { IsAtMoment result.report (C.may_give clock.old) }
    ensures ended { IfSome result.ending (EndsAmong (C.may_give clock.old)) }
    ensures give { C.may_give clock.new ≡ C.may_give clock.old }
    ensures stop { C.may_stop clock.new ≡ C.may_stop clock.old }
{
    let now = clock.now();
    match job_in(jobs.hand_out(rt, reading, now)) {
        Err(report) => Worked {
            report,
            dialed: false,
            ending: None,
        },
        Ok(job) => transfer(rt, alloc, jobs, reading, share, dialer, clock, job),
    }
}

/// Makes the transfer of a job and ends the job, and the share counts its line of want of memory.
fn transfer<B: Jobs, D: Dialer, C: Clock, R: Wait>(
    rt: &R,
    alloc: Global,
    jobs: &B,
    reading: &mut Reading,
    share: &mut Share<B::Counted>,
    dialer: &mut D,
    clock: &mut C,
    job: Job,
) -> Worked
    requires out { reading.old.is_out ≡ false }
    requires own { reading.old.book ≡ B.publisher }
    requires part { 0 < share.old.parts }
    requires dialer { D.out dialer.old ≡ None }
    requires due { IsDueAt job reading.old.list }
    ensures same { reading.new ≡ record reading.old { list = reading.new.list } }
    ensures seen { IsPrefix reading.old.list reading.new.list }
    ensures back { D.out dialer.new ≡ None }
    ensures dialed { result.dialed ≡ true }
    ensures worked { HasDialled result.report result.ending
        (length reading.old.list) reading.new.list
        (D.links dialer.old) (D.links dialer.new) (D.faults dialer.old) (D.faults dialer.new) }
    ensures busy { is_busy result.report ≡ true }
    ensures later { D.faults dialer.old ≤ D.faults dialer.new }
    ensures link { result.report ≡ Report.LinkFault
        → HasRisen (D.faults dialer.old) (D.faults dialer.new) }
    ensures memory { result.report ≡ Report.OutOfMemory
        → D.faults dialer.new ≡ D.faults dialer.old }
    ensures parts { share.new.parts ≡ share.old.parts }
    ensures counted { share.new.amount ≡ share.old.amount + starved_in result.ending }
    ensures log { result.report ≡ Report.LogFault → B.may_fail }
    ensures ended { IfSome result.ending (EndsAmong (C.may_give clock.old)) }
    ensures give { C.may_give clock.new ≡ C.may_give clock.old }
    ensures stop { C.may_stop clock.new ≡ C.may_stop clock.old }
{
    match fetch(alloc, dialer, &job) {
        Fetched::Finished(finished) => {
            let now = clock.now();
            let ended = jobs.settle(rt, alloc, reading, share, job, finished, now);
            dialled(settled_report(ended.answer), ended.ending)
        }
        Fetched::LinkFault => {
            let now = clock.now();
            let ended = jobs.fail(rt, reading, job, now);
            dialled(failed_report(ended.answer, Report::LinkFault), ended.ending)
        }
        Fetched::OutOfMemory => {
            let now = clock.now();
            let ended = jobs.starve(rt, reading, share, job, now);
            dialled(
                failed_report(ended.answer, Report::OutOfMemory),
                ended.ending,
            )
        }
    }
}

/// What a call came to that dialled.
fn dialled(report: Report, ending: Option<Ending>) -> Worked
    ensures report { result.report ≡ report }
    ensures dialed { result.dialed ≡ true }
    ensures ending { result.ending ≡ ending }
{
    Worked {
        report,
        dialed: true,
        ending,
    }
}
