//! A transfer that is read from a source.
ghost use Rattle.std.specs.Prelude.{◌≡◌, ◌≤◌, [], ◌++◌, None, length, IfOk, OnOk};
ghost use Rattle.dz_message.specs.Frame.{messages_in};
ghost use Rattle.dz_name.specs.declared.dns.TheConstants.{TRANSFER_OCTETS};
ghost use Rattle.dz_take.specs.Outcome.{decided};
ghost use Rattle.dz_take.specs.Taken.{Shows};
ghost use Rattle.dz_fetch.specs.Fetching.{IsTakenFrom, IsTaken, Counts};
ghost use Rattle.dz_fetch.specs.inner.Frames.{IsFrame, AreFrames, HasTaken, HasCount};

use crate::Fetched;
use crate::frames::{ReadError, read_frame};
use dz_io::Source;
use dz_job::{Job, finish_taking, start_taking};
use dz_name::dns::LENGTH_OCTETS;
use dz_take::{Finished, Progress, Taking};
use std::alloc::{AllocError, Global};

/// What comes of a job's transfer whose octets a source gives: messages are read up to the first that decides, or to
/// the source's end. A part of a frame at the end is not looked at. `LinkFault` is a fault of the source.
pub fn take_all<S: Source>(alloc: Global, source: &mut S, job: &Job) -> Fetched
    ensures taken { IsTaken result job.now (S.given source.old) (S.given source.new)
        (S.left source.new) }
    ensures beside { S.beside source.new ≡ S.beside source.old }
    ensures later { S.faults source.old ≤ S.faults source.new }
    ensures faults { Counts result (S.faults source.old) (S.faults source.new) }
{
    match take(alloc, source, job) {
        Ok(finished) => Fetched::Finished(finished),
        Err(ReadError::Fault) => Fetched::LinkFault,
        Err(ReadError::OutOfMemory) => Fetched::OutOfMemory,
    }
}

/// Reads a job's transfer from a source; the error is a fault of the source or that memory ran out.
fn take<S: Source>(alloc: Global, source: &mut S, job: &Job) -> Result<Finished, ReadError>
    ensures taken { IfOk result (λ f.
        IsTakenFrom job.now (S.given source.old) (S.given source.new) (S.left source.new) f) }
    ensures beside { S.beside source.new ≡ S.beside source.old }
    ensures cause { HasCount (S.faults source.old) (S.faults source.new) result }
{
    let Ok(mut taking) = start_taking(alloc, job) else {
        return Err(ReadError::OutOfMemory);
    };
    read_messages(alloc, source, &mut taking)?;
    match finish_taking(job, taking) {
        Ok(finished) => Ok(finished),
        Err(_) => Err(ReadError::OutOfMemory),
    }
}

/// Reads messages until something is decided, or the source ends.
fn read_messages<S: Source>(
    alloc: Global,
    source: &mut S,
    taking: &mut Taking,
) -> Result<(), ReadError>
    requires nothing { taking.old.octets ≡ [] }
    requires undecided { decided taking.old.transfer (messages_in taking.old.octets) ≡ None }
    ensures transfer { OnOk result (taking.new.transfer ≡ taking.old.transfer) }
    ensures read { OnOk result (HasTaken taking.old.transfer taking.new.octets
        (S.given source.old) (S.given source.new) (S.left source.new)) }
    ensures beside { S.beside source.new ≡ S.beside source.old }
    ensures cause { HasCount (S.faults source.old) (S.faults source.new) result }
{
    let mut frame = Vec::new(alloc);
    'frames: while read_frame(source, &mut frame)? {
        match feed_frame(taking, &frame) {
            Err(_) => return Err(ReadError::OutOfMemory),
            Ok(Progress::Ended) => return Ok(()),
            Ok(Progress::More) => {}
        }
    }
    Ok(())
}

/// Reads the message of a whole frame.
fn feed_frame(taking: &mut Taking, frame: &[u8]) -> Result<Progress, AllocError>
    requires frame { IsFrame frame.now }
    requires frames { AreFrames taking.old.octets }
    requires undecided { decided taking.old.transfer (messages_in taking.old.octets) ≡ None }
    ensures transfer { OnOk result (taking.new.transfer ≡ taking.old.transfer) }
    ensures octets { OnOk result (taking.new.octets ≡ taking.old.octets ++ frame.now) }
    ensures frames { OnOk result (AreFrames taking.new.octets) }
    ensures progress { IfOk result
        (λ p. Shows p (decided taking.old.transfer (messages_in taking.new.octets))) }
    ensures fits { OnOk result (decided taking.old.transfer (messages_in taking.new.octets) ≡ None
        → length taking.new.octets ≤ TRANSFER_OCTETS) }
{
    let (_, message) = frame.split_at(LENGTH_OCTETS);
    let progress = taking.feed(message)?;
    Ok(progress)
}
