//! NOTIFYs, which are delivered at a pace.
ghost use Rattle.std.specs.Prelude.{◌≤◌, length, IfSome};

use crate::figures::{Numbers, add};
use crate::pacing::{NEVER, Pacing};
use crate::work::{Work, has_log_room};
use dz_io::Peer;
use std::alloc::Global;
use std::sync::atomic::{AtomicU64, Ordering};
use std::sync::{Mutex, Wait};

/// For how many milliseconds the log or the disk may be at work before NOTIFYs over UDP are held back.
const WORK_MILLIS: u64 = 20;

/// After how many milliseconds the log is looked at again that takes no line.
const LOOK_MILLIS: u64 = 20;

/// The NOTIFYs of all workers: when each is delivered, and which of those over UDP has its session.
///
/// A NOTIFY is heard under the lock under which the log is written, transfers end and zones are kept on a disk. So its
/// session may take as long as a reader of the log or a disk does. As there is one such session over UDP at most, the
/// other worker goes on with the queries. And none begins while the log or the disk is slow.
#[derive(Drop)]
pub(crate) struct Notifies {
    desk: Mutex<Desk>,
    /// The first moment at which one that waits may be due: what a worker looks at before each packet.
    soonest: AtomicU64,
    /// Since when the log or the disk has been at work.
    pub(crate) work: Work,
    pub(crate) fates: Fates,
}

/// What is kept of NOTIFYs.
#[derive(Drop)]
struct Desk {
    /// Whether one that came over UDP has its session.
    is_heard: bool,
    pacing: Pacing,
}

impl Notifies {
    /// None has its session, and none waits.
    pub fn new(alloc: Global) -> Notifies {
        Notifies {
            desk: Mutex::new(Desk {
                is_heard: false,
                pacing: Pacing::new(alloc),
            }),
            soonest: AtomicU64::new(NEVER),
            work: Work::new(),
            fates: Fates::new(),
        }
    }

    /// An address is that of a primary: it was dialled, or a NOTIFY from it was taken.
    pub fn know<R: Wait>(&self, rt: &R, address: [u8; 4]) {
        let mut desk = self.desk.lock(rt);
        desk.pacing.know(u32::from_be_bytes(address));
    }

    /// A NOTIFY came from this peer over UDP. It answers whether its session begins. Otherwise the NOTIFY waits, in
    /// place of one before it with the same question, or is dropped; then its primary sends it again.
    pub fn begin<R: Wait>(&self, rt: &R, now: u64, peer: &Peer, packet: &[u8]) -> bool {
        let fate = self.judge(rt, now, peer, packet);
        self.fates.count(fate);
        fate == Fate::Begins
    }

    /// What becomes of a NOTIFY that came from this peer over UDP.
    fn judge<R: Wait>(&self, rt: &R, now: u64, peer: &Peer, packet: &[u8]) -> Fate {
        let mut desk = self.desk.lock(rt);
        let source = u32::from_be_bytes(peer.address);
        let is_known = desk.pacing.is_known(source);
        if !is_known && desk.pacing.opens(source) > now {
            return Fate::Dropped;
        }
        let is_free = !desk.is_heard && !self.work.lasts(now, WORK_MILLIS) && has_log_room();
        if !is_known && !is_free {
            return Fate::Dropped;
        }
        let Some(place) = desk.pacing.place_of(peer, packet) else {
            return Fate::Dropped;
        };
        if is_free && desk.pacing.is_open(place, now) {
            desk.pacing.deliver(place, now);
            desk.is_heard = true;
            return Fate::Begins;
        }
        let moment = desk.pacing.hold(place, peer, packet);
        let soonest = self.soonest.load(Ordering::SeqCst);
        self.soonest.store(soonest.min(moment), Ordering::SeqCst);
        Fate::Waits
    }

    /// The session of a NOTIFY over UDP has ended.
    pub fn end<R: Wait>(&self, rt: &R) {
        self.desk.lock(rt).is_heard = false;
    }

    /// The next NOTIFY that waits and is due, at the beginning of the buffer: how many octets it has, and its peer. Its
    /// session begins. None where none is due, another has its session, or the log or the disk is slow.
    pub fn next<R: Wait>(&self, rt: &R, now: u64, buffer: &mut [u8]) -> Option<(usize, Peer)>
        ensures { IfSome result (λ found. found.0 ≤ length buffer.new) }
    {
        if self.soonest.load(Ordering::SeqCst) > now || self.work.lasts(now, WORK_MILLIS) {
            return None;
        }
        let mut desk = self.desk.lock(rt);
        if desk.is_heard {
            return None;
        }
        if !has_log_room() {
            self.soonest
                .store(now.saturating_add(LOOK_MILLIS), Ordering::SeqCst);
            return None;
        }
        match desk.pacing.next(now) {
            Ok(place) => {
                let found = desk.pacing.take(place, now, buffer);
                desk.is_heard = found.is_some();
                add(&self.fates.delivered, found.is_some() as u64);
                found
            }
            Err(soonest) => {
                self.soonest.store(soonest, Ordering::SeqCst);
                None
            }
        }
    }

    /// Whether the session of a NOTIFY that came over TCP begins now. Otherwise its connection waits: it is asked for
    /// again a little later.
    pub fn may_begin<R: Wait>(&self, rt: &R, now: u64, peer: &Peer, packet: &[u8]) -> bool {
        let mut desk = self.desk.lock(rt);
        let source = u32::from_be_bytes(peer.address);
        if desk.pacing.opens(source) > now || self.work.lasts(now, 0) || !has_log_room() {
            return false;
        }
        match desk.pacing.place_of(peer, packet) {
            Some(place) if desk.pacing.is_open(place, now) => {
                desk.pacing.deliver(place, now);
                add(&self.fates.delivered, 1);
                true
            }
            _ => false,
        }
    }
}

/// What becomes of a NOTIFY that came over UDP.
#[derive(Clone, Copy, PartialEq, Eq)]
enum Fate {
    /// Its session begins.
    Begins,
    /// It is held back.
    Waits,
    Dropped,
}

/// How many NOTIFYs were delivered, held back at first, and dropped. One over TCP is never held back: its connection
/// waits with it, and it counts once it is delivered.
#[derive(Drop)]
pub(crate) struct Fates {
    delivered: AtomicU64,
    waited: AtomicU64,
    dropped: AtomicU64,
}

impl Fates {
    /// None came.
    fn new() -> Fates {
        Fates {
            delivered: AtomicU64::new(0),
            waited: AtomicU64::new(0),
            dropped: AtomicU64::new(0),
        }
    }

    /// Counts one.
    fn count(&self, fate: Fate) {
        match fate {
            Fate::Begins => add(&self.delivered, 1),
            Fate::Waits => add(&self.waited, 1),
            Fate::Dropped => add(&self.dropped, 1),
        }
    }

    /// Puts them among the numbers of a line.
    pub fn put_in(&self, numbers: &mut Numbers) {
        numbers.notifies = self.delivered.load(Ordering::SeqCst);
        numbers.paced = self.waited.load(Ordering::SeqCst);
        numbers.dropped = self.dropped.load(Ordering::SeqCst);
    }
}
