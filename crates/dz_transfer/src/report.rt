//! What a transfer worker reports.

ghost use Rattle.std.specs.Prelude.{◌≡◌};
ghost use Rattle.dz_transfer.specs.Receipts.{settled_report, failed_report, unmade_report};
ghost use Rattle.dz_transfer.specs.Serving.{absent_of, starved_of};
ghost use Rattle.dz_transfer.specs.inner.Marks.{is_log_fault, is_idle, job_in, job_of};

use dz_fleet::{Absent, Due, Failure, Job, Quiet, Verdict};
use dz_provision::{LogFault, Unmade};
use dz_take::TakeFault;
use dz_zonemd::Standing;

/// What one call of a transfer worker came to.
#[derive(Clone, Copy, Debug)]
pub enum Report {
    /// No zone is due.
    Idle(Quiet),
    /// No job is handed out, whatever is due.
    Full(Quiet),
    /// A new version is held and answers, by the entry at this position.
    Published(u64),
    /// The version that is held is the primary's, by the entry at this position.
    Confirmed(u64),
    /// What came is no version of the zone.
    Refused(TakeFault),
    /// The zone's policy doesn't accept what the ZONEMD records of the new version say (RFC 8976).
    PolicyRefused(Standing),
    /// The entry at this position ended the zone's incarnation.
    Stale(u64),
    /// The job was none that was handed out there, or had ended.
    NotInFlight(Absent),
    /// The dial failed, or a call on the link.
    LinkFault,
    /// A write to the log has failed.
    LogFault,
    OutOfMemory,
}

/// The job that was handed out.
///
/// # Errors
///
/// What is reported where there is none.
pub(crate) fn job_in(handed: Result<Due, LogFault>) -> Result<Job, Report>
    ensures { result ≡ job_in handed }
{
    match handed {
        Ok(due) => job_of(due),
        Err(_) => Err(Report::LogFault),
    }
}

fn job_of(due: Due) -> Result<Job, Report>
    ensures { result ≡ job_of due }
{
    match due {
        Due::Job(job) => Ok(job),
        Due::Idle(quiet) => Err(Report::Idle(quiet)),
        Due::Full(quiet) => Err(Report::Full(quiet)),
        Due::OutOfMemory => Err(Report::OutOfMemory),
    }
}

/// What comes of a job that was settled.
pub(crate) fn settled_report(settled: Result<Verdict, Unmade>) -> Report
    ensures { result ≡ settled_report settled }
{
    match settled {
        Ok(
            Verdict::Published {
                position,
                serial: _,
                aftermath,
            },
        ) => {
            drop(aftermath);
            Report::Published(position)
        }
        Ok(
            Verdict::Confirmed {
                position,
                serial: _,
            },
        ) => Report::Confirmed(position),
        Ok(Verdict::Refused(fault)) => Report::Refused(fault),
        Ok(Verdict::PolicyRefused(standing)) => Report::PolicyRefused(standing),
        Ok(Verdict::Stale(position)) => Report::Stale(position),
        Ok(Verdict::OutOfMemory) => Report::OutOfMemory,
        Err(unmade) => unmade_report(unmade),
    }
}

/// What comes of a job that failed for a cause.
pub(crate) fn failed_report(failed: Result<Failure, Unmade>, cause: Report) -> Report
    ensures { result ≡ failed_report failed cause }
{
    match failed {
        Ok(Failure::Failed) => cause,
        Ok(Failure::Stale(position)) => Report::Stale(position),
        Err(unmade) => unmade_report(unmade),
    }
}

/// What comes of a job that was not ended.
fn unmade_report(unmade: Unmade) -> Report
    ensures { result ≡ unmade_report unmade }
{
    match unmade {
        Unmade::LogFault => Report::LogFault,
        Unmade::NotInFlight(absent) => Report::NotInFlight(absent),
    }
}

/// Whether the log has failed.
pub(crate) fn is_log_fault(report: &Report) -> bool
    ensures { result ≡ is_log_fault report.now }
{
    matches!(report, Report::LogFault)
}

/// 1 where the job was not in flight, and else 0.
pub(crate) fn absent_of(report: &Report) -> u64
    ensures { result ≡ absent_of report.now }
{
    match report {
        Report::NotInFlight(_) => 1,
        _ => 0,
    }
}

/// 1 where memory ran out, and else 0.
pub(crate) fn starved_of(report: &Report) -> u64
    ensures { result ≡ starved_of report.now }
{
    match report {
        Report::OutOfMemory => 1,
        _ => 0,
    }
}

/// Whether nothing can be done for now.
pub(crate) fn is_idle(report: &Report) -> bool
    ensures { result ≡ is_idle report.now }
{
    matches!(
        report,
        Report::Idle(_) | Report::Full(_) | Report::OutOfMemory
    )
}
