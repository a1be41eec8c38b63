//! NOTIFYs of one source and question.
ghost use Rattle.std.specs.Prelude.{◌≡◌, ◌<◌, ◌≤◌, ◌+◌, ◌-◌, ◌^◌, ◌↔◌, min, true, false, length, IfSome, IsTrue};

use crate::quota::SECOND_MILLIS;
use dz_io::Peer;
use dz_name::Name;
use dz_name::dns::{HEADER_OCTETS, UDP_OCTETS};

/// A source in the upper half, the type and the class of a question in the lower half, and the question's name.
pub(crate) type Key = (u64, Name);

/// The source and the question (RFC 1996 section 3.7) of a NOTIFY. Those whose question can't be read are as one with
/// the root, type 0 and class 0.
pub(crate) fn key_of(peer: &Peer, packet: &[u8]) -> Key {
    let source = (u32::from_be_bytes(peer.address) as u64) << 32;
    if let Ok((name, end)) = Name::read_at(packet, HEADER_OCTETS) {
        if let Some([a, b, c, d, ..]) = packet.get(end..) {
            return (source | u32::from_be_bytes([*a, *b, *c, *d]) as u64, name);
        }
    }
    (source, Name::root())
}

/// The NOTIFYs of one source and question, of which one is delivered in a second, and the last that came meanwhile
/// waits.
#[derive(Drop)]
pub(crate) struct Paced {
    pub key: Key,
    /// The first millisecond at which one may be delivered.
    due: u64,
    waits: bool,
    /// The one that came last, if it waits.
    peer: Peer,
    octets: [u8; UDP_OCTETS],
    length: usize,
}

impl Paced {
    /// None was delivered, and none waits.
    pub fn new(key: Key) -> Paced
        ensures due { result.due ≡ 0 }
        ensures waits { result.waits ≡ false }
    {
        Paced {
            key,
            due: 0,
            waits: false,
            peer: Peer {
                address: [0; 4],
                port: 0,
            },
            octets: [0; UDP_OCTETS],
            length: 0,
        }
    }

    /// The address that they come from.
    pub fn source(&self) -> u32 {
        (self.key.0 >> 32) as u32
    }

    /// The first moment at which one may be delivered.
    pub fn due(&self) -> u64
        ensures { result ≡ self.now.due }
    {
        self.due
    }

    /// Whether one waits.
    pub fn waits(&self) -> bool
        ensures { result ≡ self.now.waits }
    {
        self.waits
    }

    /// One of them waits from now on, in place of another that may have waited. Where it has more than 512 octets, it is
    /// dropped.
    pub fn hold(&mut self, peer: &Peer, packet: &[u8])
        ensures due { self.new.due ≡ self.old.due }
        ensures waits { length packet.now ≤ 512 → self.new.waits ≡ true }
    {
        if packet.len() > UDP_OCTETS {
            return;
        }
        self.octets[..packet.len()].copy_from_slice(packet);
        self.length = packet.len();
        self.peer = *peer;
        self.waits = true;
    }

    /// One is delivered at this moment. The next is due a second later.
    pub fn deliver(&mut self, now: u64)
        ensures due { self.new.due ≡ min (now + 1000) (2 ^ 64 - 1) }
        ensures waits { self.new.waits ≡ self.old.waits }
    {
        self.due = now.saturating_add(SECOND_MILLIS);
    }

    /// The one that waits is copied to the beginning of the buffer, and waits no more: how many octets it has, and its
    /// peer.
    pub fn take(&mut self, buffer: &mut [u8]) -> (usize, Peer)
        ensures count { result.0 ≤ length buffer.new }
        ensures due { self.new.due ≡ self.old.due }
        ensures waits { self.new.waits ≡ false }
    {
        let count = self.length.min(UDP_OCTETS).min(buffer.len());
        buffer[..count].copy_from_slice(&self.octets[..count]);
        self.waits = false;
        (count, self.peer)
    }
}
