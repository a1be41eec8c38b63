//! When a zone's next job is due, by REFRESH and RETRY (RFC 1035 section 3.3.13) and NOTIFY (RFC 1996); how long a
//! version answers; and what each zone waits for, with the first zone that is due.
#![tactic(auto)]

mod laws;
mod schedule;
mod schedule_laws;
mod timer;
mod tournament;
mod values;
mod wait;

pub use laws::{job_waits, notify_is_kept};
pub use schedule::Schedule;
pub use schedule_laws::{first_is_due, first_is_least, none_is_idle};
pub use timer::{Timer, UNHELD_RETRY, is_live};
pub use values::Values;
