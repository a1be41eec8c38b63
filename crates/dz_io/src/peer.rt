//! The address of another host.

/// An IPv4 address and a port, as of a socket.
#[derive(Clone, Copy, Debug, PartialEq, Eq)]
pub struct Peer {
    /// The four octets of the address, in the order of the dotted form.
    pub address: [u8; 4],
    /// The port, in host byte order.
    pub port: u16,
}
