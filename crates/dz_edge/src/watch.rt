//! What a worker looks at between two calls: the time, and whether the server is to stop.
use crate::Bell;
use crate::kind::Kind;
use std::fs::{File, Files};
use std::io::{Eprint, Error};
use std::sync::Wait;
use std::thread::sleep;
use std::time::{Clock, Duration};

/// How many milliseconds a device waits after an error, before it tries again.
const AGAIN_MILLIS: u64 = 100;

/// Asks whether the server is to stop, and looks for a signal at most once a second.
#[derive(Drop)]
pub(crate) struct Watch<'a, R> {
    pub rt: &'a R,
    pub bell: &'a Bell,
    /// The second in which it last looked for a signal.
    looked: u64,
}

impl<'a, R> Watch<'a, R> {
    /// A watch that has not looked.
    pub fn new(rt: &'a R, bell: &'a Bell) -> Watch<'a, R> {
        Watch {
            rt,
            bell,
            looked: 0,
        }
    }
}

impl<'a, R: Clock + Files<File = File> + Wait> Watch<'a, R> {
    /// Whether the server is to stop.
    pub fn is_to_stop(&mut self) -> bool {
        let now = self.time();
        self.is_to_stop_at(now)
    }

    /// Whether the server is to stop, where this is the time.
    pub fn is_to_stop_at(&mut self, now: Duration) -> bool {
        let second = now.as_secs();
        if second == self.looked {
            return self.bell.is_to_stop();
        }
        self.looked = second;
        self.bell.look(self.rt)
    }
}

impl<'a, R: Clock> Watch<'a, R> {
    /// The time since the host began; zero where the host doesn't tell it.
    pub fn time(&self) -> Duration {
        self.rt.monotonic().unwrap_or(Duration::ZERO)
    }
}

impl<'a, R: Clock + Eprint> Watch<'a, R> {
    /// Tells an error of a device on standard error, once a minute for those of its kind.
    pub fn tell(&self, kind: &Kind, error: &Error) {
        if kind.may_tell(self.time().as_secs()) {
            let name = kind.name;
            let _ = self.rt.eprintln(format_args!("catzd: {name}: {error}"));
        }
    }

    /// Tells an error of a device, and waits a little.
    pub fn rest_after(&self, kind: &Kind, error: &Error) {
        self.tell(kind, error);
        sleep(self.rt, Duration::from_millis(AGAIN_MILLIS));
    }
}
