//! Datagrams over UDP.
ghost use Rattle.std.specs.Prelude.{◌≡◌, ◌≤◌, length, false, None, IfSome};
ghost use Rattle.dz_io.specs.Packets.{Receives};

use crate::Bell;
use crate::address::{peer_of, socket_address};
use crate::calls::send_at_once;
use crate::errors::is_for_good;
use crate::figures::Share;
use crate::frames::{is_notify, takes_notify};
use crate::tally::Tally;
use crate::watch::Watch;
use crate::work::millis;
use dz_io::{Datagrams, Failed, Peer, Received};
use std::fs::{File, Files};
use std::io;
use std::io::{Eprint, Error, ErrorKind};
use std::net::{Net, UdpSocket};
use std::sync::Wait;
use std::time::{Clock, Duration};

/// How many milliseconds a socket waits before it looks whether to stop.
const LOOK_MILLIS: u64 = 200;

/// How many times a packet is sent that signals interrupt.
const TRIES: usize = 1000;

/// A UDP socket. It doesn't tell its packets, and is closed once the server is to stop.
#[derive(Drop)]
pub struct UdpDatagrams<'a, R> {
    watch: Watch<'a, R>,
    pub(crate) socket: UdpSocket,
    /// Where it adds what it has counted.
    share: &'a Share,
    /// The last packet and its reply.
    pub(crate) tally: Tally,
    /// Whether a NOTIFY that it received has its session.
    hears: bool,
    is_closed: bool,
    pub(crate) faults: u64,
}

/// A socket that listens at this address and port; the system's error where there is none.
pub(crate) fn bind_udp<R: Net>(rt: &R, listen: &Peer) -> io::Result<UdpSocket> {
    let socket = UdpSocket::bind(rt, socket_address(listen))?;
    let limit = Some(Duration::from_millis(LOOK_MILLIS));
    socket.set_read_timeout(limit)?;
    Ok(socket)
}

impl<'a, R> UdpDatagrams<'a, R> {
    /// A worker's device that has received and sent nothing.
    pub(crate) fn new(
        rt: &'a R,
        bell: &'a Bell,
        socket: UdpSocket,
        worker: u8,
    ) -> UdpDatagrams<'a, R>
        ensures closed { result.is_closed ≡ false }
        ensures faults { result.faults ≡ 0 }
    {
        UdpDatagrams {
            watch: Watch::new(rt, bell),
            socket,
            share: bell.figures.udp_of(worker),
            tally: Tally::new(),
            hears: false,
            is_closed: false,
            faults: 0,
        }
    }
}

impl<'a, R: Clock + Eprint + Files<File = File> + Wait> UdpDatagrams<'a, R> {
    /// The session of a NOTIFY has ended, if there was one.
    fn end_session(&mut self)
        ensures closed { self.new.is_closed ≡ self.old.is_closed }
        ensures faults { self.new.faults ≡ self.old.faults }
    {
        if self.hears {
            self.hears = false;
            self.watch.bell.notifies.end(self.watch.rt);
        }
    }

    /// The next packet whose session may begin, or that the server is to stop; none where the socket is bad.
    fn next_packet(&mut self, buffer: &mut [u8]) -> Option<Received>
        ensures came { IfSome result (λ r. Receives r buffer.new None None) }
        ensures closed { self.new.is_closed ≡ self.old.is_closed }
        ensures faults { self.new.faults ≡ self.old.faults }
    {
        'packets: for _ in 0..u64::MAX {
            let now = self.watch.time();
            if self.watch.is_to_stop_at(now) {
                return Some(Received::Closed);
            }
            if let Some((length, peer)) = self.next_notify(now, buffer) {
                return Some(Received::Packet { length, peer });
            }
            match self.socket.recv_from(buffer) {
                Ok((length, from)) => {
                    if let Some(peer) = peer_of(&from) {
                        if self.may_begin(&peer, buffer.get(..length).unwrap_or(&[])) {
                            return Some(Received::Packet { length, peer });
                        }
                    }
                }
                Err(error) if is_for_good(&error) => break,
                Err(error) => self.rest_after(&error),
            }
        }
        None
    }

    /// A NOTIFY that has waited and whose session begins now, at the beginning of the buffer.
    fn next_notify(&mut self, now: Duration, buffer: &mut [u8]) -> Option<(usize, Peer)>
        ensures came { IfSome result (λ found. found.0 ≤ length buffer.new) }
        ensures closed { self.new.is_closed ≡ self.old.is_closed }
        ensures faults { self.new.faults ≡ self.old.faults }
    {
        let notifies = &self.watch.bell.notifies;
        let found = notifies.next(self.watch.rt, millis(now), buffer)?;
        self.hears = true;
        Some(found)
    }

    /// Whether the session of a packet may begin at once: of any from a port that can be answered, but for a NOTIFY that
    /// has to wait.
    fn may_begin(&mut self, peer: &Peer, packet: &[u8]) -> bool
        ensures closed { self.new.is_closed ≡ self.old.is_closed }
        ensures faults { self.new.faults ≡ self.old.faults }
    {
        if peer.port == 0 || !is_notify(packet) {
            return peer.port != 0;
        }
        let now = millis(self.watch.time());
        let notifies = &self.watch.bell.notifies;
        self.hears = notifies.begin(self.watch.rt, now, peer, packet);
        self.hears
    }

    /// Waits a little after an error, unless nothing came or a signal interrupted.
    fn rest_after(&self, error: &Error) {
        if !matches!(error.kind(), ErrorKind::WouldBlock | ErrorKind::Interrupted) {
            let bell = self.watch.bell;
            self.watch.rest_after(&bell.datagrams, error);
        }
    }
}

impl<'a, R: Clock + Eprint + Files<File = File> + Wait> Datagrams for UdpDatagrams<'a, R> {
    ghost received = { λ _. None };

    ghost sent = { λ _. None };

    ghost is_closed = { λ device. device.is_closed };

    ghost faults = { λ device. device.faults };

    /// The next packet. A NOTIFY may be kept back or dropped, as `Notifies` says. The call fails only where the socket
    /// is bad, since a later packet may come through; after the last such socket the server is to stop.
    fn receive(&mut self, buffer: &mut [u8]) -> Result<Received, Failed> {
        self.end_session();
        self.share.add(&self.tally);
        self.tally = Tally::new();
        match self.next_packet(buffer) {
            Some(Received::Closed) => {
                self.is_closed = true;
                Ok(Received::Closed)
            }
            Some(Received::Packet { length, peer }) => {
                self.tally.ask();
                Ok(Received::Packet { length, peer })
            }
            None => {
                self.faults = self.faults.saturating_add(1);
                let bell = self.watch.bell;
                bell.lose(self.watch.rt, &bell.datagrams);
                Err(Failed)
            }
        }
    }

    /// Sends a packet, if the socket takes it at once. It rings the bell after the reply to a NOTIFY that was taken:
    /// then the zone that it tells of is due.
    fn send(&mut self, peer: &Peer, piece: &[u8]) -> Result<(), Failed> {
        let is_sent = send_whole(&self.socket, peer, piece);
        self.tally.answer(piece);
        self.end_session();
        if takes_notify(piece) {
            let bell = self.watch.bell;
            bell.notifies.know(self.watch.rt, peer.address);
            bell.ring(self.watch.rt);
        }
        if is_sent {
            Ok(())
        } else {
            self.faults = self.faults.saturating_add(1);
            Err(Failed)
        }
    }
}

/// Sends a packet, again where a signal interrupts. It answers whether the whole of it went.
fn send_whole(socket: &UdpSocket, peer: &Peer, piece: &[u8]) -> bool {
    'tries: for _ in 0..TRIES {
        match send_at_once(socket, peer, piece) {
            Ok(count) => return count == piece.len(),
            Err(error) if error.kind() == ErrorKind::Interrupted => {}
            Err(_) => return false,
        }
    }
    false
}
