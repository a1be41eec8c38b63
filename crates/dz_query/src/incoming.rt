//! Requests that come.

use dz_header::Transport;
use dz_io::Peer;

/// A request, the peer that it came from, the moment in seconds by which it is answered, and the transport.
#[derive(Drop)]
pub(crate) struct Incoming<'a> {
    pub octets: &'a [u8],
    pub peer: &'a Peer,
    pub moment: u64,
    pub transport: Transport,
}
