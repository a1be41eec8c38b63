//! A TCP connection that a client has made.
ghost use Rattle.std.specs.Prelude.{◌≡◌, ◌≤◌, ◌+◌, length, vec_len, vec_capacity, IfSome};

use dz_io::Peer;
use mio::net::TcpStream;
use std::alloc::Global;
use std::io::{ErrorKind, Read, Write};
use std::mem::{replace, swap};

/// After how many seconds without a message, or without progress in sending, a connection is closed.
const LIMIT_SECONDS: u64 = 10;

/// A room for a part of a frame that has more octets is given back once it is empty.
const HELD_OCTETS: usize = 4096;

/// Replies that wait are copied if they have at most this many octets, so that the worker keeps its room.
const COPIED_OCTETS: usize = 81_921;

/// A TCP connection that a client has made, whose calls don't wait.
#[derive(Drop)]
pub(crate) struct Connection {
    stream: TcpStream,
    pub peer: Peer,
    /// Octets that were read: a part of a frame, and what a turn has left.
    held: Vec<u8>,
    /// Replies of which the socket hasn't taken the last octet yet, in a room that is given back once it has. Until
    /// then nothing is read.
    unsent: Vec<u8>,
    ghost given_back: { vec_len unsent ≡ 0 → vec_capacity unsent ≡ 0 },
    /// How many octets of them the socket has taken.
    sent: usize,
    ghost taken: { sent ≤ vec_len unsent },
    alloc: Global,
    /// The second of its last message, or of its last progress in sending.
    seen: u64,
    /// It is in the queue for a turn.
    pub is_queued: bool,
    /// What it holds begins with a NOTIFY that is kept back.
    pub is_kept_back: bool,
    /// The system has told that the client sends no more, or that the connection is broken.
    pub is_ending: bool,
    /// It has been read to its end.
    is_at_end: bool,
}

/// What a connection had to give.
pub(crate) enum Fetched {
    /// This many octets are in the room. There may be more to read where `more` says so; otherwise the system will
    /// tell.
    Octets { total: usize, more: bool },
    /// The connection is broken.
    Broken,
}

impl Connection {
    /// A connection that was made in this second.
    pub fn new(alloc: Global, stream: TcpStream, peer: Peer, now: u64) -> Connection {
        Connection {
            stream,
            peer,
            held: Vec::new(alloc),
            unsent: Vec::new(alloc),
            sent: 0,
            alloc,
            seen: now,
            is_queued: false,
            is_kept_back: false,
            is_ending: false,
            is_at_end: false,
        }
    }

    /// Notes that a message came in this second.
    pub fn mark(&mut self, now: u64) {
        self.seen = now;
    }

    /// The octets that it holds.
    pub fn held(&self) -> &[u8] {
        self.held.as_slice()
    }

    /// The second of its last message, or of its last progress in sending.
    pub fn seen(&self) -> u64 {
        self.seen
    }

    /// Whether nothing happened on it for `LIMIT_SECONDS`.
    pub fn is_late(&self, now: u64) -> bool {
        now.saturating_sub(self.seen) >= LIMIT_SECONDS
    }

    /// Whether replies wait for the socket to take them.
    pub fn is_clogged(&self) -> bool {
        self.waits() > 0
    }

    /// How many octets of replies it keeps: all those of a turn, until the socket has taken the last of them.
    pub fn waits(&self) -> usize
        ensures { result ≡ vec_len self.now.unsent }
    {
        self.unsent.len()
    }

    /// Whether it has been read to its end.
    pub fn is_at_end(&self) -> bool {
        self.is_at_end
    }

    /// Sends what waits, as far as the socket takes it. It answers whether the connection is still up.
    pub fn flush(&mut self, now: u64) -> bool
        ensures { vec_len self.new.unsent ≤ vec_len self.old.unsent }
    {
        if self.unsent.is_empty() {
            return true;
        }
        let rest = &self.unsent[self.sent..];
        let Some(count) = push(&self.stream, rest) else {
            return false;
        };
        if count > 0 {
            self.seen = now;
        }
        if count < rest.len() {
            self.sent += count;
        } else {
            self.unsent = Vec::new(self.alloc);
            self.sent = 0;
        }
        true
    }

    /// Sends the replies of a turn, beside which nothing waits. Where the socket doesn't take all, they are kept here. The
    /// room of a zone's stream moves here with them, and an empty one is left in its place. It answers whether the connection is still up.
    pub fn send(&mut self, replies: &mut Vec<u8>) -> bool
        ensures { vec_len self.new.unsent + vec_len replies.new
            ≡ vec_len self.old.unsent + vec_len replies.old }
    {
        let Some(count) = push(&self.stream, replies.as_slice()) else {
            return false;
        };
        if count < replies.len() {
            swap(&mut self.unsent, replies);
            if replies.is_empty() && self.unsent.len() <= COPIED_OCTETS {
                self.give_back_room(replies);
            }
            self.sent = count;
        }
        true
    }

    /// Copies the replies that wait, where there is memory for it, and gives their room back in place of none.
    fn give_back_room(&mut self, none: &mut Vec<u8>)
        requires { vec_len none.old ≡ 0 }
        ensures none { vec_len none.new ≡ 0 }
        ensures length { vec_len self.new.unsent ≡ vec_len self.old.unsent }
        ensures sent { self.new.sent ≡ self.old.sent }
    {
        if self.unsent.is_empty() {
            return;
        }
        if let Ok(copy) = self.unsent.as_slice().to_vec(self.alloc) {
            let mut room = replace(&mut self.unsent, copy);
            room.clear();
            *none = room;
        }
    }

    /// Keeps octets that were read, after those that it holds. It answers whether there was memory for them.
    pub fn keep(&mut self, octets: &[u8]) -> bool {
        self.held.reserve_exact(octets.len()).is_ok() && self.held.extend_from_slice(octets).is_ok()
    }

    /// Moves what it holds to the front of the room, and reads once into the room after it.
    pub fn fetch(&mut self, room: &mut [u8]) -> Fetched {
        let before = self.held.len();
        if before > room.len() {
            return Fetched::Broken;
        }
        let (front, back) = room.split_at_mut(before);
        front.copy_from_slice(self.held.as_slice());
        self.held.clear();
        if self.held.capacity() > HELD_OCTETS {
            self.held = Vec::new(self.alloc);
        }
        match self.read(back) {
            Some((count, more)) => Fetched::Octets {
                total: before.saturating_add(count),
                more,
            },
            None => Fetched::Broken,
        }
    }

    /// Reads once. It answers how many octets came, and whether there may be more; none where the connection is broken.
    fn read(&mut self, back: &mut [u8]) -> Option<(usize, bool)> {
        if self.is_at_end || back.is_empty() {
            return Some((0, true));
        }
        match (&self.stream).read(back) {
            Ok(0) => {
                self.is_at_end = true;
                Some((0, true))
            }
            Ok(count) => Some((count, self.is_ending || count >= back.len())),
            Err(error) if error.kind() == ErrorKind::WouldBlock => Some((0, false)),
            Err(error) if error.kind() == ErrorKind::Interrupted => Some((0, true)),
            Err(_) => None,
        }
    }
}

/// Writes what the socket takes at once. It answers how many octets; none where the connection is broken.
fn push(stream: &TcpStream, octets: &[u8]) -> Option<usize>
    ensures { IfSome result (λ count. count ≤ length octets.now) }
{
    let mut at = 0_usize;
    'pieces: for _ in 0..u64::MAX {
        let rest = &octets[at..];
        if rest.is_empty() {
            return Some(at);
        }
        match (&*stream).write(rest) {
            Ok(0) => break,
            Ok(count) => at += count,
            Err(error) if error.kind() == ErrorKind::WouldBlock => return Some(at),
            Err(error) if error.kind() == ErrorKind::Interrupted => {}
            Err(_) => break,
        }
    }
    None
}
