//! HMAC-SHA-256 (RFC 2104).

ghost use Rattle.std.specs.Prelude.{◌≡◌, ◌≤◌, ◌++◌, [], length, drop};
ghost use Rattle.std.specs.Str.{bytes_eq};
ghost use Rattle.dz_name.specs.Words.{Octets};
ghost use Rattle.dz_tsig.specs.Hmac.{hmac, padded};
ghost use Rattle.dz_tsig.specs.inner.Hashing.{IsOf};

use sha2::{Digest, Sha256};

/// How many octets a block of SHA-256 has (RFC 2104 section 2), which is the most that a key has here.
pub const BLOCK_OCTETS: usize = 64;
/// How many octets a MAC has.
pub const MAC_OCTETS: usize = 32;
/// The octet of `ipad`, with which those of the key are combined for the inner hash (RFC 2104 section 2).
const IPAD: u8 = 0x36;
/// The octet of `opad`, with which those of the key are combined for the outer hash (RFC 2104 section 2).
const OPAD: u8 = 0x5c;

/// The MAC of octets under a key.
pub fn hmac(key: &[u8], octets: &[u8]) -> [u8; MAC_OCTETS]
    requires { length key.now ≤ BLOCK_OCTETS }
    ensures { result ≡ hmac key.now octets.now }
{
    let mut mac = MacHasher::start(key);
    mac.put(octets);
    mac.finish()
}

/// The MAC of octets that come piece by piece.
#[derive(Drop)]
pub(crate) struct MacHasher {
    inner: Sha256,
    outer: Sha256,
}

impl MacHasher {
    /// The MAC of no octets so far.
    pub(crate) fn start(key: &[u8]) -> MacHasher
        requires { length key.now ≤ BLOCK_OCTETS }
        ensures { IsOf result key.now [] }
    {
        let mut inner = Sha256::new();
        inner.update(padded(key, IPAD).as_slice());
        let mut outer = Sha256::new();
        outer.update(padded(key, OPAD).as_slice());
        MacHasher { inner, outer }
    }

    /// Puts more octets.
    pub(crate) fn put(&mut self, octets: &[u8])
        ensures { (key text : Octets) → IsOf self.old key text
            → IsOf self.new key (text ++ octets.now) }
    {
        self.inner.update(octets);
    }

    /// The MAC of all octets that were put.
    pub(crate) fn finish(self) -> [u8; MAC_OCTETS]
        ensures { (key text : Octets) → IsOf self key text → result ≡ hmac key text }
    {
        let MacHasher { inner, mut outer } = self;
        let hashed = inner.finalize();
        outer.update(hashed.as_slice());
        outer.finalize()
    }
}

/// A key, filled up with zero octets to 64, each octet combined with one of a pad (RFC 2104 section 2).
fn padded(key: &[u8], pad: u8) -> [u8; BLOCK_OCTETS]
    requires { length key.now ≤ BLOCK_OCTETS }
    ensures { result ≡ padded pad key.now }
{
    let mut block = [0; BLOCK_OCTETS];
    put_front(&mut block, key);
    'octets: for at in 0..BLOCK_OCTETS {
        block[at] ^= pad;
    }
    block
}

/// Writes octets to the beginning of a block.
pub(crate) fn put_front(block: &mut [u8; BLOCK_OCTETS], octets: &[u8])
    requires { length octets.now ≤ BLOCK_OCTETS }
    ensures { block.new ≡ octets.now ++ drop (length octets.now) block.old }
{
    block[..octets.len()].copy_from_slice(octets);
}

/// Whether octets are this MAC, in a time that doesn't depend on where they differ. Their length, which everybody sees,
/// decides whether they are compared, and then each octet is.
///
/// The time follows from the text of `difference` alone. No clause can speak of it, nor of what a compiler makes of it.
pub(crate) fn is_mac(octets: &[u8], mac: &[u8; MAC_OCTETS]) -> bool
    ensures { result ≡ bytes_eq octets.now mac.now }
{
    octets.len() == MAC_OCTETS && difference(octets, mac) == 0
}

/// The bits in which octets differ from a MAC at some place. No branch and no index depends on an octet.
fn difference(octets: &[u8], mac: &[u8; MAC_OCTETS]) -> u8
    requires { length octets.now ≡ MAC_OCTETS }
    ensures same { result ≡ 0 → octets.now ≡ mac.now }
    ensures none { octets.now ≡ mac.now → result ≡ 0 }
{
    let mut difference = 0;
    'octets: for at in 0..MAC_OCTETS {
        difference |= octets[at] ^ mac[at];
    }
    difference
}
