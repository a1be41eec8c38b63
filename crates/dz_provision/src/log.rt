//! Lines that are written to the log.

ghost use Rattle.std.specs.Prelude.{◌≡◌};
ghost use Rattle.dz_provision.specs.inner.Writing.{IsWritten, log_of, answered, ended};

use crate::provisioner::{LogFault, Unmade};
use dz_desk::Told;
use dz_fleet::{Due, Job};
use dz_io::Sink;

/// Writes lines, and keeps in mind that a write failed.
pub(crate) fn log<K: Sink>(output: &mut K, failed: &mut bool, lines: &[u8]) -> Result<(), LogFault>
    ensures { IsWritten lines.now result
        (log_of (K.held output.old) (K.faults output.old) failed.old)
        (log_of (K.held output.new) (K.faults output.new) failed.new) }
{
    match output.write(lines) {
        Ok(()) => Ok(()),
        Err(_) => {
            *failed = true;
            Err(LogFault)
        }
    }
}

/// Answers a job whose line was written. Where it was not, the job is closed.
pub(crate) fn hand(logged: Result<(), LogFault>, job: Job) -> Result<Due, LogFault>
    ensures { result ≡ answered logged (Due.Job job) }
{
    match logged {
        Ok(()) => Ok(Due::Job(job)),
        Err(fault) => {
            job.close();
            Err(fault)
        }
    }
}

/// Answers how something came out whose lines were written, with a note of the list.
pub(crate) fn answer<T: Drop>(
    logged: Result<(), LogFault>,
    how: T,
    told: Told,
) -> Result<(T, Told), LogFault>
    ensures { result ≡ answered logged (how, told) }
{
    logged?;
    Ok((how, told))
}

/// The same of a job that ended.
pub(crate) fn end<T: Drop>(
    logged: Result<(), LogFault>,
    how: T,
    told: Told,
) -> Result<(T, Told), Unmade>
    ensures { result ≡ ended logged (how, told) }
{
    match logged {
        Ok(()) => Ok((how, told)),
        Err(_) => Err(Unmade::LogFault),
    }
}
