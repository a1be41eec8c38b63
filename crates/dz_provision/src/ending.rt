//! How jobs ended.

ghost use Rattle.std.specs.Prelude.{◌≡◌};
ghost use Rattle.dz_provision.specs.Endings.{settled_ending, failed_ending, starved_ending};
ghost use Rattle.dz_provision.specs.inner.Ends.{ending_by};

use crate::provisioner::Unmade;
use dz_fleet::{Failure, Job, Verdict};
use dz_take::Finished;
use std::marker::Model;
use std::snapshot::Snapshot;

/// The event that ended a job: it was settled, or it failed, for want of memory or not.
#[derive(Drop)]
pub enum End {
    Settled {
        job: Snapshot<Job>,
        finished: Snapshot<Finished>,
        verdict: Snapshot<Verdict>,
        moment: u64,
    },
    Failed {
        job: Snapshot<Job>,
        failure: Snapshot<Failure>,
        moment: u64,
    },
    Starved {
        job: Snapshot<Job>,
        failure: Snapshot<Failure>,
        moment: u64,
    },
}

/// How a call ended a job: which event of the core it made, and which lines were written of it. Contracts see both, and at
/// run time nothing is kept. The calls of [`crate::Jobs`] over this crate's lock alone make one.
#[derive(Drop)]
pub struct Ending {
    of: Snapshot<End>,
}

impl Model for Ending {
    ghost use Rattle.dz_provision.specs.Endings.{EndingOf};
    ghost use Rattle.dz_provision.specs.inner.Ends.{ending_by};

    ghost Value = { EndingOf };

    ghost view = { λ e. ending_by e.of.value };
}

/// What a call that ends a job answers, and how the job ended, where it did.
#[derive(Drop)]
pub struct Ended<T> {
    pub answer: Result<T, Unmade>,
    pub ending: Option<Ending>,
}

/// The answer for a job that was settled at a moment.
pub(crate) fn settled(
    job: Snapshot<Job>,
    finished: Snapshot<Finished>,
    moment: u64,
    answer: Result<Verdict, Unmade>,
) -> Ended<Verdict>
    ensures answer { result.answer ≡ answer }
    ensures ending { result.ending ≡ settled_ending job.value finished.value.octets moment answer }
{
    let ending = match &answer {
        Err(_) => None,
        Ok(verdict) => Some(ending_of(End::Settled {
            job,
            finished,
            verdict: Snapshot::of(verdict),
            moment,
        })),
    };
    Ended { answer, ending }
}

/// The answer for a job that failed at a moment.
pub(crate) fn failed(
    job: Snapshot<Job>,
    moment: u64,
    answer: Result<Failure, Unmade>,
) -> Ended<Failure>
    ensures answer { result.answer ≡ answer }
    ensures ending { result.ending ≡ failed_ending job.value moment answer }
{
    let ending = match &answer {
        Err(_) => None,
        Ok(failure) => Some(ending_of(End::Failed {
            job,
            failure: Snapshot::of(failure),
            moment,
        })),
    };
    Ended { answer, ending }
}

/// The answer for a job that failed for want of memory at a moment.
pub(crate) fn starved(
    job: Snapshot<Job>,
    moment: u64,
    answer: Result<Failure, Unmade>,
) -> Ended<Failure>
    ensures answer { result.answer ≡ answer }
    ensures ending { result.ending ≡ starved_ending job.value moment answer }
{
    let ending = match &answer {
        Err(_) => None,
        Ok(failure) => Some(ending_of(End::Starved {
            job,
            failure: Snapshot::of(failure),
            moment,
        })),
    };
    Ended { answer, ending }
}

fn ending_of(end: End) -> Ending
    ensures { result ≡ ending_by end }
{
    Ending {
        of: Snapshot::of(&end),
    }
}
