//! Whether the server is to stop.
use std::fs::{File, Files};
use std::os::unix::fs::FileExt;
use std::sync::atomic::{AtomicBool, Ordering};
use std::sync::{Mutex, Wait};

/// The signals that end a server, SIGHUP, SIGINT and SIGTERM, in the masks of /proc/self/status.
const ENDING: u64 = 0x4003;

/// The word before the mask of the signals that are pending for the whole process.
const PENDING: &[u8] = b"ShdPnd:";

/// What follows that word: a tab, and 16 hexadecimal digits.
const MASK_OCTETS: usize = 17;

/// How many octets of /proc/self/status are read at once.
const PIECE_OCTETS: usize = 4096;

/// How many octets of a piece are read again with the next, so that the line of `PENDING` is whole in one of them.
const AGAIN_OCTETS: usize = 64;

/// How many pieces are read: the line of a process in 65,536 groups (setgroups(2)) comes within 800,000 octets.
const PIECES: usize = 256;

/// Whether the server is to stop. Once set, it stays so.
///
/// A signal that the starter has blocked stays pending and ends nothing by itself; `look` finds it.
#[derive(Drop)]
pub(crate) struct Stop {
    flag: AtomicBool,
    /// /proc/self/status, open from the first look on, so that a look needs no descriptor.
    status: Mutex<Option<File>>,
}

impl Stop {
    /// The server isn't to stop yet.
    pub fn new() -> Stop {
        Stop {
            flag: AtomicBool::new(false),
            status: Mutex::new(None),
        }
    }

    /// Whether the server is to stop.
    pub fn is_set(&self) -> bool {
        self.flag.load(Ordering::SeqCst)
    }

    /// Tells that the server is to stop.
    pub fn set(&self) {
        self.flag.store(true, Ordering::SeqCst)
    }

    /// Sets it where SIGHUP, SIGINT or SIGTERM is pending, and answers whether the server is to stop.
    pub fn look<R: Wait + Files<File = File>>(&self, rt: &R) -> bool {
        if !self.is_set() && self.pending(rt) & ENDING != 0 {
            self.set();
        }
        self.is_set()
    }

    /// The signals that are pending for this process; none where that can't be read.
    fn pending<R: Wait + Files<File = File>>(&self, rt: &R) -> u64 {
        let mut status = self.status.lock(rt);
        if status.is_none() {
            *status = File::open(rt, "/proc/self/status").ok();
        }
        match &*status {
            Some(file) => pending_in(file),
            None => 0,
        }
    }
}

/// The signals that are pending by this file, which is read in pieces.
fn pending_in(file: &File) -> u64 {
    let mut buffer = [0; PIECE_OCTETS];
    let mut at = 0_u64;
    'pieces: for _ in 0..PIECES {
        let Ok(count) = file.read_at(&mut buffer, at) else {
            break;
        };
        if let Some(mask) = mask_of(buffer.get(..count).unwrap_or(&[])) {
            return mask;
        }
        if count <= AGAIN_OCTETS {
            break;
        }
        at = at.saturating_add((count - AGAIN_OCTETS) as u64);
    }
    0
}

/// The mask in the line of `PENDING`; none where it isn't whole here.
pub(crate) fn mask_of(status: &[u8]) -> Option<u64> {
    'lines: for line in status.split(|octet| *octet == b'\n') {
        if let Some(mask) = line.strip_prefix(PENDING) {
            if mask.len() >= MASK_OCTETS {
                return Some(hex_number(mask));
            }
        }
    }
    None
}

/// The number of these hexadecimal digits; other octets are passed over.
fn hex_number(text: &[u8]) -> u64 {
    let mut number = 0_u64;
    'digits: for octet in text {
        let digit = match octet {
            b'0'..=b'9' => octet - b'0',
            b'a'..=b'f' => octet - b'a' + 10,
            _ => continue,
        };
        number = number << 4 | digit as u64;
    }
    number
}
