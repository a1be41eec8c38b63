//! Streams of whole messages, each preceded by its length.

ghost use Rattle.std.specs.Prelude.{◌≡◌, [], None, IfOk, OnOk, length};
ghost use Rattle.dz_message.specs.Frame.{messages_in};
ghost use Rattle.dz_take.specs.Outcome.{decided, octets_used};
ghost use Rattle.dz_job.specs.Job.{transfer_for};
ghost use Rattle.dz_job.specs.Stream.{HasRead, IsReadOf};

use crate::job::Job;
use dz_message::next_frame;
use dz_take::{Finished, Progress, Taking};
use std::alloc::{AllocError, Global};
use std::sync::Arc;

/// What comes of the octets that a job got: their messages are read up to the first that decides; where none does, all
/// whole frames are read. A part of a frame at the end is not looked at.
///
/// # Errors
///
/// `AllocError` where memory runs out.
pub fn take_stream(alloc: Global, job: &Job, octets: &[u8]) -> Result<Finished, AllocError>
    ensures transfer { IfOk result (λ f. f.transfer ≡ transfer_for job.now) }
    ensures read { IfOk result (λ f. IsReadOf (transfer_for job.now) octets.now f.octets) }
    ensures frames { IfOk result (λ f. HasRead (transfer_for job.now) octets.now f.octets) }
{
    let mut taking = start_taking(alloc, job)?;
    read_frames(&mut taking, octets)?;
    let finished = taking.finish()?;
    Ok(finished)
}

/// The transfer that a job asks for, of which nothing was read.
///
/// # Errors
///
/// `AllocError` where memory runs out.
pub fn start_taking(alloc: Global, job: &Job) -> Result<Taking, AllocError>
    ensures transfer { IfOk result (λ t. t.transfer ≡ transfer_for job.now) }
    ensures nothing { IfOk result (λ t. t.octets ≡ []) }
    ensures undecided { IfOk result (λ t. decided t.transfer (messages_in t.octets) ≡ None) }
{
    let held = match job.held() {
        None => None,
        Some(version) => Some(Arc::try_clone(version)?),
    };
    Ok(Taking::start(alloc, *job.zone(), job.ask(), job.id(), held))
}

/// The transfer of a job, with what came of it. A new version is hashed here, for its ZONEMD records (RFC 8976), where
/// the job is one whose digests are computed ahead ([`Job::digesting`]).
///
/// # Errors
///
/// `AllocError` where memory runs out.
pub fn finish_taking(job: &Job, taking: Taking) -> Result<Finished, AllocError>
    ensures same { IfOk result (λ f. f ≡ taking) }
    ensures used { IfOk result (λ f. octets_used f.transfer f.octets ≡ length f.octets) }
{
    let finished = taking.finish()?;
    if job.is_digesting {
        Ok(finished.digested())
    } else {
        Ok(finished)
    }
}

/// Reads the messages of whole frames, until something is decided. `AllocError` where memory runs out.
fn read_frames(taking: &mut Taking, octets: &[u8]) -> Result<(), AllocError>
    requires nothing { taking.old.octets ≡ [] }
    requires undecided { decided taking.old.transfer (messages_in taking.old.octets) ≡ None }
    ensures transfer { OnOk result (taking.new.transfer ≡ taking.old.transfer) }
    ensures read { OnOk result (HasRead taking.old.transfer octets.now taking.new.octets) }
{
    let mut at = 0;
    'frames: while let Some((begin, end)) = next_frame(octets, at) {
        match taking.feed(&octets[begin..end])? {
            Progress::Ended => return Ok(()),
            Progress::More => at = end,
        }
    }
    Ok(())
}
