//! The query of a job.
ghost use Rattle.std.specs.Prelude.{◌≡◌, ◌≤◌, length, IfOk};
ghost use Rattle.dz_take.specs.Query.{asked_octets};
ghost use Rattle.dz_job.specs.Job.{transfer_for};
ghost use Rattle.dz_fetch.specs.Query.{query_of, sent_to};

use dz_job::Job;
use dz_message::push_frame;
use dz_name::Octets;
use dz_tsig::sign_query;
use std::alloc::{AllocError, Global};

/// The query of the job, after its length.
pub(crate) fn framed_query(alloc: Global, job: &Job) -> Result<Vec<u8>, AllocError>
    ensures { IfOk result (λ v. v.items ≡ query_of job.now) }
{
    let query = query(alloc, job)?;
    let mut out = Vec::new(alloc);
    push_frame(&mut out, query.as_slice())?;
    Ok(out)
}

/// The query, signed where the job has a key.
fn query(alloc: Global, job: &Job) -> Result<Octets, AllocError>
    ensures octets { IfOk result
        (λ o. o ≡ sent_to job.now.key (asked_octets (transfer_for job.now)) job.now.flight.moment) }
    ensures short { IfOk result (λ o. length o ≤ 65535) }
{
    let query = job.query(alloc)?;
    match job.key() {
        None => Ok(query),
        Some(key) => {
            let signed = sign_query(alloc, key, query.as_slice(), job.moment())?;
            Ok(signed)
        }
    }
}
