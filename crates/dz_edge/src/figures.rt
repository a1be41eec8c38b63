//! The figures of a running server, which a line on standard error shows now and then.
use crate::tally::{Guests, Tally};
use std::fmt;
use std::sync::atomic::{AtomicBool, AtomicU64, Ordering};

/// The second that never comes.
const NEVER: u64 = u64::MAX;

/// What the workers have counted, each in a share of its own, and when the next line is due. No share has a lock, and
/// a line may have one number of a moment and another of the next.
#[derive(Drop)]
pub(crate) struct Figures {
    udp: [Share; 2],
    tcp: [Share; 2],
    pub dials: AtomicU64,
    /// Dials that made no connection.
    pub failed: AtomicU64,
    /// The second since the host began in which the lines were asked for.
    begun: AtomicU64,
    /// How many seconds lie between two lines.
    period: AtomicU64,
    /// The second of the next line.
    next: AtomicU64,
    is_stop_told: AtomicBool,
}

impl Figures {
    /// Nothing was counted, and no line is ever due.
    pub fn new() -> Figures {
        Figures {
            udp: [Share::new(), Share::new()],
            tcp: [Share::new(), Share::new()],
            dials: AtomicU64::new(0),
            failed: AtomicU64::new(0),
            begun: AtomicU64::new(0),
            period: AtomicU64::new(0),
            next: AtomicU64::new(NEVER),
            is_stop_told: AtomicBool::new(false),
        }
    }

    /// The share of a worker's socket for UDP.
    pub fn udp_of(&self, worker: u8) -> &Share {
        &self.udp[worker as usize % 2]
    }

    /// The share of a worker's acceptor.
    pub fn tcp_of(&self, worker: u8) -> &Share {
        &self.tcp[worker as usize % 2]
    }

    /// From this second on a line is due after each period of this many seconds.
    pub fn begin(&self, second: u64, period: u64) {
        self.begun.store(second, Ordering::SeqCst);
        self.period.store(period, Ordering::SeqCst);
        self.next
            .store(second.saturating_add(period), Ordering::SeqCst);
    }

    /// Whether a line is due in this second. One worker is told so, and then the next line is due a period later.
    pub fn is_due(&self, second: u64) -> bool {
        let next = self.next.load(Ordering::SeqCst);
        if second < next {
            return false;
        }
        let later = second.saturating_add(self.period.load(Ordering::SeqCst));
        self.next
            .compare_exchange(next, later, Ordering::SeqCst, Ordering::SeqCst)
            .is_ok()
    }

    /// Whether it is to be told now that the server stops: once.
    pub fn may_tell_stop(&self) -> bool {
        !self.is_stop_told.swap(true, Ordering::SeqCst)
    }

    /// The numbers of all shares, in this second.
    pub fn numbers(&self, second: u64) -> Numbers {
        let (mut tally, mut tcp, mut guests) = (Tally::new(), Tally::new(), Guests::new());
        self.udp[0].add_to(&mut tally, &mut guests);
        self.udp[1].add_to(&mut tally, &mut guests);
        let udp = tally.requests;
        self.tcp[0].add_to(&mut tally, &mut guests);
        self.tcp[1].add_to(&mut tally, &mut guests);
        Numbers {
            uptime: second.saturating_sub(self.begun.load(Ordering::SeqCst)),
            udp,
            tally,
            guests,
            notifies: 0,
            paced: 0,
            dropped: 0,
            dials: self.dials.load(Ordering::SeqCst),
            failed: self.failed.load(Ordering::SeqCst),
            memory: 0,
        }
    }
}

/// What a worker has counted. Only that worker adds to it.
#[derive(Drop)]
pub(crate) struct Share {
    requests: AtomicU64,
    noerror: AtomicU64,
    formerr: AtomicU64,
    servfail: AtomicU64,
    nxdomain: AtomicU64,
    notimp: AtomicU64,
    refused: AtomicU64,
    other: AtomicU64,
    truncated: AtomicU64,
    taken: AtomicU64,
    ended: AtomicU64,
    idle: AtomicU64,
    crowded: AtomicU64,
    address: AtomicU64,
    unread: AtomicU64,
    /// As long as a line of the processor's cache, so that no two workers write in one.
    _apart: [u64; 8],
}

impl Share {
    /// Nothing was counted.
    pub fn new() -> Share {
        Share {
            requests: AtomicU64::new(0),
            noerror: AtomicU64::new(0),
            formerr: AtomicU64::new(0),
            servfail: AtomicU64::new(0),
            nxdomain: AtomicU64::new(0),
            notimp: AtomicU64::new(0),
            refused: AtomicU64::new(0),
            other: AtomicU64::new(0),
            truncated: AtomicU64::new(0),
            taken: AtomicU64::new(0),
            ended: AtomicU64::new(0),
            idle: AtomicU64::new(0),
            crowded: AtomicU64::new(0),
            address: AtomicU64::new(0),
            unread: AtomicU64::new(0),
            _apart: [0; 8],
        }
    }

    /// Adds messages.
    pub fn add(&self, tally: &Tally) {
        add(&self.requests, tally.requests);
        add(&self.noerror, tally.noerror);
        add(&self.formerr, tally.formerr);
        add(&self.servfail, tally.servfail);
        add(&self.nxdomain, tally.nxdomain);
        add(&self.notimp, tally.notimp);
        add(&self.refused, tally.refused);
        add(&self.other, tally.other);
        add(&self.truncated, tally.truncated);
    }

    /// Adds connections.
    pub fn add_guests(&self, guests: &Guests) {
        add(&self.taken, guests.taken);
        add(&self.ended, guests.ended);
        add(&self.idle, guests.idle);
        add(&self.crowded, guests.crowded);
        add(&self.address, guests.address);
        add(&self.unread, guests.unread);
    }

    /// Adds what it has to a sum.
    pub fn add_to(&self, tally: &mut Tally, guests: &mut Guests) {
        more(&mut tally.requests, &self.requests);
        more(&mut tally.noerror, &self.noerror);
        more(&mut tally.formerr, &self.formerr);
        more(&mut tally.servfail, &self.servfail);
        more(&mut tally.nxdomain, &self.nxdomain);
        more(&mut tally.notimp, &self.notimp);
        more(&mut tally.refused, &self.refused);
        more(&mut tally.other, &self.other);
        more(&mut tally.truncated, &self.truncated);
        more(&mut guests.taken, &self.taken);
        more(&mut guests.ended, &self.ended);
        more(&mut guests.idle, &self.idle);
        more(&mut guests.crowded, &self.crowded);
        more(&mut guests.address, &self.address);
        more(&mut guests.unread, &self.unread);
    }
}

/// Adds to a number that is shared. Zero takes no step.
pub(crate) fn add(number: &AtomicU64, count: u64) {
    if count > 0 {
        number.fetch_add(count, Ordering::SeqCst);
    }
}

/// Adds a number that is shared to a sum.
fn more(sum: &mut u64, number: &AtomicU64) {
    *sum = sum.saturating_add(number.load(Ordering::SeqCst));
}

/// The numbers of a line.
#[derive(Clone, Copy)]
pub(crate) struct Numbers {
    /// In seconds.
    pub uptime: u64,
    /// How many of the requests came over UDP.
    pub udp: u64,
    pub tally: Tally,
    pub guests: Guests,
    /// NOTIFYs that were delivered, that were held back at first, and that were dropped.
    pub notifies: u64,
    pub paced: u64,
    pub dropped: u64,
    pub dials: u64,
    pub failed: u64,
    /// Resident memory, in units of 1,024 octets.
    pub memory: u64,
}

impl fmt::Display for Numbers {
    /// The line, after the name of the program.
    fn fmt<W: fmt::Write>(&self, f: &mut fmt::Formatter<W>) -> fmt::Result {
        let (uptime, udp) = (self.uptime, self.udp);
        let tcp = self.tally.requests.saturating_sub(udp);
        write!(f, "figures, uptime {uptime} s, udp {udp} tcp {tcp}, ")?;
        self.tally.fmt(f)?;
        self.guests.fmt(f)?;
        let (notifies, paced, dropped) = (self.notifies, self.paced, self.dropped);
        write!(f, "notifies {notifies} paced {paced} dropped {dropped}, ")?;
        let (dials, failed, memory) = (self.dials, self.failed, self.memory);
        write!(f, "dials {dials} failed {failed}, memory {memory} kB")
    }
}

impl fmt::Display for Tally {
    /// Its part of the line.
    fn fmt<W: fmt::Write>(&self, f: &mut fmt::Formatter<W>) -> fmt::Result {
        let Tally {
            noerror,
            formerr,
            servfail,
            nxdomain,
            ..
        } = *self;
        write!(
            f,
            "noerror {noerror} nxdomain {nxdomain} servfail {servfail} "
        )?;
        let (notimp, refused, other) = (self.notimp, self.refused, self.other);
        write!(
            f,
            "refused {refused} formerr {formerr} notimp {notimp} other {other}, "
        )?;
        let truncated = self.truncated;
        write!(f, "truncated {truncated}, ")
    }
}

impl fmt::Display for Guests {
    /// Its part of the line.
    fn fmt<W: fmt::Write>(&self, f: &mut fmt::Formatter<W>) -> fmt::Result {
        let open = self.taken.saturating_sub(self.ended);
        let (taken, idle, crowded) = (self.taken, self.idle, self.crowded);
        write!(
            f,
            "connections {open} taken {taken} idle {idle} crowded {crowded} "
        )?;
        let (address, unread) = (self.address, self.unread);
        write!(f, "address {address} unread {unread}, ")
    }
}
