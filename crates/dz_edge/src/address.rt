//! Addresses as sockets have them.
use dz_io::Peer;
use std::net::SocketAddr;

/// The address of a peer.
pub(crate) fn socket_address(peer: &Peer) -> SocketAddr {
    SocketAddr::from((peer.address, peer.port))
}

/// The peer at an address; none where it isn't one of IPv4.
pub(crate) fn peer_of(address: &SocketAddr) -> Option<Peer> {
    match address {
        SocketAddr::V4(address) => Some(Peer {
            address: address.ip().octets(),
            port: address.port(),
        }),
        SocketAddr::V6(_) => None,
    }
}
