//! What has happened in a test.
use std::hint::spin_loop;
use std::sync::atomic::{AtomicBool, AtomicU64, Ordering};

/// How many turns a wait has at most.
const TURNS: u32 = 200_000_000;

/// The last octets of the log line of the first version of the zone, with its newline.
const FIRST_LINE: &[u8] = b"example. 5\n";

/// The last octets of the log line of the second version of the zone.
const SECOND_LINE: &[u8] = b"example. 6\n";

/// The last octets of the log line of a failed job.
const FAILED_LINE: &[u8] = b"failed cat1.example.\n";

/// What waits or fails in a test.
#[derive(Clone, Copy, Debug, PartialEq, Eq)]
pub enum Play {
    /// A read of a transfer waits for a reply.
    ReadWaits,
    /// A write of the log waits for a reply: whoever has the lock of the log keeps it until then.
    LogWaits,
    /// The first dial fails, and no query comes.
    DialFails,
}

/// What has happened, which the devices of one test share.
#[derive(Drop)]
pub struct Stage {
    play: Play,
    /// The first dial has failed.
    has_dialled: AtomicBool,
    /// The failed job is in the log.
    has_failure: AtomicBool,
    /// The first version of the zone is in the log.
    has_first: AtomicBool,
    /// The second version of the zone is in the log.
    has_second: AtomicBool,
    /// A read or a write waits for a reply.
    is_held: AtomicBool,
    /// A reply was sent.
    is_answered: AtomicBool,
    /// The second reply was sent.
    is_over: AtomicBool,
    /// A wait reached its limit.
    is_late: AtomicBool,
    /// How many replies were sent.
    replies: AtomicU64,
}

impl Stage {
    /// A stage on which nothing has happened.
    pub fn new(play: Play) -> Stage {
        Stage {
            play,
            has_dialled: AtomicBool::new(false),
            has_failure: AtomicBool::new(false),
            has_first: AtomicBool::new(false),
            has_second: AtomicBool::new(false),
            is_held: AtomicBool::new(false),
            is_answered: AtomicBool::new(false),
            is_over: AtomicBool::new(false),
            is_late: AtomicBool::new(false),
            replies: AtomicU64::new(0),
        }
    }

    /// Whether a wait reached its limit.
    pub fn is_late(&self) -> bool {
        self.is_late.load(Ordering::SeqCst)
    }

    /// How many replies were sent.
    pub fn replies(&self) -> u64 {
        self.replies.load(Ordering::SeqCst)
    }

    /// What waits or fails.
    pub(crate) fn play(&self) -> Play {
        self.play
    }

    /// Whether a dial is to fail: only the very first does, and only in `Play::DialFails`.
    pub(crate) fn fails_dial(&self) -> bool {
        self.play == Play::DialFails && !self.has_dialled.swap(true, Ordering::SeqCst)
    }

    /// Whether the failed job of `Play::DialFails` is in the log.
    pub(crate) fn has_failure(&self) -> bool {
        self.play == Play::DialFails && self.has_failure.load(Ordering::SeqCst)
    }

    /// Whether the first version of the zone is in the log.
    pub(crate) fn has_first(&self) -> bool {
        self.has_first.load(Ordering::SeqCst)
    }

    /// Whether all has happened: the second reply was sent, or, where no query comes, the first version of the zone is
    /// in the log.
    pub(crate) fn is_over(&self) -> bool {
        match self.play {
            Play::DialFails => self.has_first(),
            Play::ReadWaits | Play::LogWaits => self.is_over.load(Ordering::SeqCst),
        }
    }

    /// Looks at a piece before it is written to the log. In `Play::LogWaits` the line of the second version waits for a
    /// reply.
    pub(crate) fn see_line(&self, piece: &[u8]) {
        if self.play == Play::LogWaits && has_piece(piece, SECOND_LINE) {
            self.hold();
        }
    }

    /// Looks for the expected lines in the text of the log.
    pub(crate) fn see_log(&self, text: &[u8]) {
        if has_piece(text, FAILED_LINE) {
            self.has_failure.store(true, Ordering::SeqCst);
        }
        if has_piece(text, FIRST_LINE) {
            self.has_first.store(true, Ordering::SeqCst);
        }
        if has_piece(text, SECOND_LINE) {
            self.has_second.store(true, Ordering::SeqCst);
        }
    }

    /// Notes that a reply was sent.
    pub(crate) fn see_reply(&self) {
        if self.replies.fetch_add(1, Ordering::SeqCst) > 0 {
            self.is_over.store(true, Ordering::SeqCst);
        }
        self.is_answered.store(true, Ordering::SeqCst);
    }

    /// Holds a read or a write until a reply was sent.
    pub(crate) fn hold(&self) {
        self.is_held.store(true, Ordering::SeqCst);
        self.wait_for(&self.is_answered);
    }

    /// Waits until a read or a write is held.
    pub(crate) fn wait_for_hold(&self) {
        self.wait_for(&self.is_held);
    }

    /// Waits until the second version of the zone is in the log.
    pub(crate) fn wait_for_second(&self) {
        self.wait_for(&self.has_second);
    }

    /// Waits for an event, and notes where the wait reached its limit.
    fn wait_for(&self, event: &AtomicBool) {
        if !has_come(event) {
            self.is_late.store(true, Ordering::SeqCst);
        }
    }
}

/// Waits until an event has happened, and returns whether it has.
fn has_come(event: &AtomicBool) -> bool {
    'turns: for _ in 0..TURNS {
        if event.load(Ordering::SeqCst) {
            return true;
        }
        spin_loop();
    }
    false
}

/// Whether the piece is anywhere in the text.
fn has_piece(text: &[u8], piece: &[u8]) -> bool {
    'places: for at in 0..text.len() {
        if text.get(at..).unwrap_or(&[]).starts_with(piece) {
            return true;
        }
    }
    false
}
