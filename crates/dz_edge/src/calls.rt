//! Calls of the C library that `std` has no way to: a packet that is sent at once or not at all, and a connection from a
//! given address.
ghost use Rattle.std.specs.Prelude.{◌≤◌, length, IfOk};

use dz_io::Peer;
use libc::net::{
    _SS_SIZE, AF_INET, MSG_DONTWAIT, MSG_NOSIGNAL, POLLOUT, SO_REUSEADDR, SOCK_CLOEXEC, SOCK_DGRAM,
    SOCK_NONBLOCK, SOCK_STREAM, SOL_SOCKET, bind, connect, getsockname, poll, sendto, setsockopt,
    socket,
};
use libc::types::pollfd;
use os::FromRawFd;
use std::io::{Error, Result};
use std::net::{TcpStream, UdpSocket};
use std::os::fd::{AsRawFd, OwnedFd};

/// How many octets an address of IPv4 has (struct sockaddr_in).
const ADDRESS_OCTETS: u32 = 16;

/// An address as the C library has it: the family, the port, and the four octets.
fn raw_address(peer: &Peer) -> [u8; _SS_SIZE] {
    let mut raw = [0; _SS_SIZE];
    raw[..2].copy_from_slice(&(AF_INET as u16).to_ne_bytes());
    raw[2..4].copy_from_slice(&peer.port.to_be_bytes());
    raw[4..8].copy_from_slice(&peer.address);
    raw
}

/// The error of the last call.
fn last_error() -> Error {
    Error::from_raw_os_error(os::errno())
}

/// Fails where a call has answered a negative number.
fn check(status: i32) -> Result<()> {
    if status < 0 {
        Err(last_error())
    } else {
        Ok(())
    }
}

/// Sends a packet to a peer if the socket takes it at once, and answers how many octets went.
pub(crate) fn send_at_once(socket: &UdpSocket, peer: &Peer, packet: &[u8]) -> Result<usize> {
    let raw = raw_address(peer);
    let flags = MSG_NOSIGNAL | MSG_DONTWAIT;
    let sent = unsafe { sendto(socket.as_raw_fd(), packet, flags, &raw, ADDRESS_OCTETS) };
    if sent < 0 {
        Err(last_error())
    } else {
        Ok(sent as usize)
    }
}

/// Begins a connection to a peer, from this address where there is one. Its calls don't wait. A socket gets an address only
/// where the system would choose another one: the search for a port that no other connection from an address has takes the
/// longer, the more of them have just ended.
pub(crate) fn begin_dial(from: Option<[u8; 4]>, peer: &Peer) -> Result<TcpStream> {
    let kind = SOCK_STREAM | SOCK_NONBLOCK | SOCK_CLOEXEC;
    let fd = unsafe { socket(AF_INET, kind, 0) };
    if fd < 0 {
        return Err(last_error());
    }
    let owned = unsafe { OwnedFd::from_raw_fd(fd) };
    if let Some(address) = from {
        if source_to(peer) != from {
            bind_to(&owned, address)?;
        }
    }
    let raw = raw_address(peer);
    match check(unsafe { connect(owned.as_raw_fd(), &raw, ADDRESS_OCTETS) }) {
        Err(error) if error.raw_os_error() != Some(libc::EINPROGRESS) => Err(error),
        _ => Ok(TcpStream::from(owned)),
    }
}

/// The address from which the system reaches a peer: that of a datagram socket which is connected to it. Nothing is sent.
fn source_to(peer: &Peer) -> Option<[u8; 4]> {
    let fd = unsafe { socket(AF_INET, SOCK_DGRAM | SOCK_CLOEXEC, 0) };
    if fd < 0 {
        return None;
    }
    let owned = unsafe { OwnedFd::from_raw_fd(fd) };
    let raw = raw_address(peer);
    check(unsafe { connect(owned.as_raw_fd(), &raw, ADDRESS_OCTETS) }).ok()?;
    let mut own = [0; _SS_SIZE];
    let mut octets = ADDRESS_OCTETS;
    check(unsafe { getsockname(owned.as_raw_fd(), &mut own, &mut octets) }).ok()?;
    Some([own[4], own[5], own[6], own[7]])
}

/// Gives a socket this address, and a port that the system chooses.
fn bind_to(socket: &OwnedFd, address: [u8; 4]) -> Result<()> {
    let fd = socket.as_raw_fd();
    let mut on = [0; 16];
    on[..4].copy_from_slice(&1_i32.to_ne_bytes());
    check(unsafe { setsockopt(fd, SOL_SOCKET, SO_REUSEADDR, &on, 4) })?;
    let raw = raw_address(&Peer { address, port: 0 });
    check(unsafe { bind(fd, &raw, ADDRESS_OCTETS) })
}

/// Waits until a connection that was begun is made or has failed, this many milliseconds at most, and answers whether it
/// is made.
pub(crate) fn is_made(stream: &TcpStream, millis: i32) -> Result<bool> {
    let mut ends = [pollfd {
        fd: stream.as_raw_fd(),
        events: POLLOUT,
        revents: 0,
    }];
    if poll(&mut ends, millis) <= 0 {
        return Ok(false);
    }
    match stream.take_error()? {
        Some(error) => Err(error),
        None => Ok(true),
    }
}
