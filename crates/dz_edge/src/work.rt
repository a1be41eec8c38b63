//! How long the log or the disk has been at work.
use crate::Bell;
use libc::net::{POLLOUT, poll};
use libc::types::pollfd;
use std::io;
use std::io::Write;
use std::sync::Wait;
use std::sync::atomic::{AtomicU64, Ordering};
use std::time::{Clock, Duration};

/// The descriptor of the log, which is standard output.
const LOG: i32 = 1;

/// The descriptor of standard error.
const ERRORS: i32 = 2;

/// What is kept while neither is at work.
const IDLE: u64 = u64::MAX;

/// Since when the writer of the log, or the disk, has been at work. Both work under one lock, the provisioner's, so one
/// moment is enough.
#[derive(Drop)]
pub(crate) struct Work {
    /// The millisecond since the host began, or `IDLE`.
    begun: AtomicU64,
}

impl Work {
    /// Neither is at work.
    pub fn new() -> Work {
        Work {
            begun: AtomicU64::new(IDLE),
        }
    }

    /// One begins its work on this host.
    pub fn begin<R: Clock>(&self, rt: &R) {
        let now = rt.monotonic().unwrap_or(Duration::ZERO);
        self.begun.store(millis(now), Ordering::SeqCst);
    }

    /// It has ended.
    pub fn end(&self) {
        self.begun.store(IDLE, Ordering::SeqCst);
    }

    /// Whether one has been at work for this many milliseconds or longer.
    pub fn lasts(&self, now: u64, limit: u64) -> bool {
        let begun = self.begun.load(Ordering::SeqCst);
        begun != IDLE && now.saturating_sub(begun) >= limit
    }
}

/// A span of time in whole milliseconds.
pub(crate) fn millis(time: Duration) -> u64 {
    time.as_secs()
        .saturating_mul(1000)
        .saturating_add(time.subsec_millis() as u64)
}

/// Whether the log takes a line at once. A pipe that takes any octets has room for 4,096, and a line has fewer.
pub(crate) fn has_log_room() -> bool {
    has_room(LOG)
}

/// Whether standard error takes a line at once.
pub(crate) fn has_errors_room() -> bool {
    has_room(ERRORS)
}

/// Whether a write to a descriptor doesn't wait.
fn has_room(fd: i32) -> bool {
    let mut ends = [pollfd {
        fd,
        events: POLLOUT,
        revents: 0,
    }];
    poll(&mut ends, 0) != 0
}

/// A writer of the log, which tells while it is at work, and what its lines say of versions.
#[derive(Drop)]
pub struct LogWriter<'a, R, W> {
    rt: &'a R,
    bell: &'a Bell,
    writer: W,
}

impl<'a, R, W: Drop> LogWriter<'a, R, W> {
    /// This writer as the one of the log.
    pub fn new(rt: &'a R, bell: &'a Bell, writer: W) -> LogWriter<'a, R, W> {
        LogWriter { rt, bell, writer }
    }
}

impl<'a, R: Clock + Wait, W: Write> Write for LogWriter<'a, R, W> {
    /// Writes octets, and answers how many.
    fn write(&mut self, piece: &[u8]) -> io::Result<usize> {
        if self.bell.expiries.knows() {
            let now = self.rt.monotonic().unwrap_or(Duration::ZERO);
            self.bell.expiries.read(self.rt, now.as_secs(), piece);
        }
        self.bell.notifies.work.begin(self.rt);
        let written = self.writer.write(piece);
        self.bell.notifies.work.end();
        written
    }

    /// Writes what the writer keeps.
    fn flush(&mut self) -> io::Result<()> {
        self.writer.flush()
    }
}
