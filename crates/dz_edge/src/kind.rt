//! The devices of one kind, of which a server needs at least one.
use std::sync::atomic::{AtomicU64, Ordering};

/// How many seconds lie at least between two messages about the devices of one kind.
const TELL_SECONDS: u64 = 60;

/// The devices of one kind, as the sockets for UDP: how many work, and when an error of theirs was last told.
#[derive(Drop)]
pub(crate) struct Kind {
    /// What messages call them.
    pub name: &'static str,
    left: AtomicU64,
    /// The first second in which the next error may be told.
    again: AtomicU64,
}

impl Kind {
    /// No device yet, and nothing was told.
    pub fn new(name: &'static str) -> Kind {
        Kind {
            name,
            left: AtomicU64::new(0),
            again: AtomicU64::new(0),
        }
    }

    /// One more works.
    pub fn open(&self) {
        self.left.fetch_add(1, Ordering::SeqCst);
    }

    /// One of them has failed for good. It answers whether it was the last.
    pub fn lose(&self) -> bool {
        self.left.fetch_sub(1, Ordering::SeqCst) <= 1
    }

    /// Whether an error is to be told in this second: the first, and then one a minute.
    pub fn may_tell(&self, second: u64) -> bool {
        let again = self.again.load(Ordering::SeqCst);
        if second < again {
            return false;
        }
        let next = second.saturating_add(TELL_SECONDS);
        self.again
            .compare_exchange(again, next, Ordering::SeqCst, Ordering::SeqCst)
            .is_ok()
    }
}
