//! Names and peers.

use dz_io::Peer;
use dz_name::Name;
use std::process::Abort;

/// The name of a text (RFC 1035 section 5.1).
pub fn name(rt: &impl Abort, text: &str) -> Name {
    name_of(rt, text.as_bytes())
}

/// The name of a text, by its octets.
pub fn name_of(rt: &impl Abort, text: &[u8]) -> Name {
    match Name::parse(text) {
        Ok(name) => name,
        Err(fault) => panic!(rt; "{text:?}: {fault:?}"),
    }
}

/// The peer 192.0.2.N at port 53.
pub fn peer(last: u8) -> Peer {
    Peer {
        address: [192, 0, 2, last],
        port: 53,
    }
}
