//! When the versions of zones expire, as far as devices see it.
use dz_name::Name;
use std::alloc::{AllocError, Global};
use std::collections::BTreeMap;
use std::sync::atomic::{AtomicBool, Ordering};
use std::sync::{Mutex, Wait};

/// The second that never comes.
const NEVER: u64 = u64::MAX;

/// How many zones are told in a second at most.
const TOLD: usize = 100;

/// When the version of each zone expires: EXPIRE seconds after it was last taken or confirmed (RFC 1035 section
/// 3.3.13). What is known comes from the links to primaries, which show EXPIRE, and from the lines of the log. So
/// nothing is known of a version that was given back at the start, before its zone's first transfer.
#[derive(Drop)]
pub(crate) struct Expiries {
    book: Mutex<Book>,
    /// Whether a zone was ever known.
    knows: AtomicBool,
    alloc: Global,
}

/// What is known of all zones.
#[derive(Drop)]
struct Book {
    /// By the zones' texts.
    zones: BTreeMap<Vec<u8>, Expiry>,
    /// The first second in which a version may expire.
    soonest: u64,
}

/// What is known of one zone.
#[derive(Drop)]
struct Expiry {
    /// EXPIRE of the last reply that had one.
    span: u32,
    /// The second in which the version expires, or `NEVER` where there is none, or that was told.
    second: u64,
}

impl Expiries {
    /// No zone is known.
    pub fn new(alloc: Global) -> Expiries {
        Expiries {
            book: Mutex::new(Book {
                zones: BTreeMap::new(alloc),
                soonest: NEVER,
            }),
            knows: AtomicBool::new(false),
            alloc,
        }
    }

    /// Whether a primary's reply has been noted, so that lines of the log tell something.
    pub fn knows(&self) -> bool {
        self.knows.load(Ordering::SeqCst)
    }

    /// A primary's reply for a zone has this EXPIRE. Where memory runs out, it isn't kept.
    pub fn note<R: Wait>(&self, rt: &R, zone: &Name, span: u32) {
        if let Ok(text) = copy_of(self.alloc, zone.print().as_str().as_bytes()) {
            self.knows.store(true, Ordering::SeqCst);
            let mut book = self.book.lock(rt);
            match book.zones.get_mut(&text) {
                Some(expiry) => expiry.span = span,
                None => {
                    let second = NEVER;
                    let _ = book.zones.insert(text, Expiry { span, second });
                }
            }
        }
    }

    /// These lines are written to the log in this second.
    pub fn read<R: Wait>(&self, rt: &R, second: u64, lines: &[u8]) {
        'lines: for line in lines.split(|octet| *octet == b'\n') {
            let mut words = line.split(|octet| *octet == b' ');
            match words.next() {
                Some(b"published" | b"confirmed") => {
                    let _position = words.next();
                    self.renew(rt, second, words.next().unwrap_or(&[]));
                }
                Some(b"removed" | b"reset" | b"moved-reset") => {
                    self.forget(rt, words.next().unwrap_or(&[]));
                }
                _ => {}
            }
        }
    }

    /// The version of a zone was taken or confirmed in this second.
    fn renew<R: Wait>(&self, rt: &R, second: u64, zone: &[u8]) {
        let Ok(text) = copy_of(self.alloc, zone) else {
            return;
        };
        let mut book = self.book.lock(rt);
        if let Some(expiry) = book.zones.get_mut(&text) {
            let end = second.saturating_add(expiry.span as u64);
            expiry.second = end;
            book.soonest = book.soonest.min(end);
        }
    }

    /// A zone has no version any more.
    fn forget<R: Wait>(&self, rt: &R, zone: &[u8]) {
        if let Ok(text) = copy_of(self.alloc, zone) {
            self.book.lock(rt).zones.remove(&text);
        }
    }

    /// The zones whose versions have expired before this second and which weren't told, 100 at most. They count as told.
    pub fn expired<R: Wait>(&self, rt: &R, second: u64) -> Vec<Vec<u8>> {
        let mut told = Vec::new(self.alloc);
        let mut book = self.book.lock(rt);
        if book.soonest >= second {
            return told;
        }
        let mut soonest = NEVER;
        'zones: for (text, expiry) in book.zones.iter_mut() {
            if expiry.second < second && told.len() < TOLD && push(self.alloc, &mut told, text) {
                expiry.second = NEVER;
            }
            soonest = soonest.min(expiry.second);
        }
        book.soonest = soonest;
        told
    }
}

/// Appends a copy of a text, and answers whether there was memory for it.
fn push(alloc: Global, texts: &mut Vec<Vec<u8>>, text: &[u8]) -> bool {
    match copy_of(alloc, text) {
        Ok(copy) => texts.push(copy).is_ok(),
        Err(_) => false,
    }
}

/// A copy of octets.
fn copy_of(alloc: Global, octets: &[u8]) -> Result<Vec<u8>, AllocError> {
    let mut copy = Vec::with_capacity(alloc, octets.len())?;
    copy.extend_from_slice(octets)?;
    Ok(copy)
}
