//! Laws of the timing of a zone, for all values. Each is a contract without a call, so its body is empty.

ghost use Rattle.dz_timer.specs.Laws.{NotifyIsKept, JobWaits};

/// No NOTIFY is lost: the zone is due at once, or once the job that was in flight has ended.
pub fn notify_is_kept()
    ensures { NotifyIsKept }
{}

/// Where no NOTIFY came meanwhile, the next job is due after the seconds of the SOA, and at least one.
pub fn job_waits()
    ensures { JobWaits }
{}
