//! A dialer over TCP.
ghost use Rattle.std.specs.Prelude.{◌≡◌, None, IfSome};

use crate::calls::{begin_dial, is_made};
use crate::figures::add;
use crate::watch::Watch;
use crate::{Bell, TcpLink};
use dz_io::{Dialer, Failed, Peer};
use std::fs::{File, Files};
use std::io::ErrorKind;
use std::net::{Net, TcpStream};
use std::sync::Wait;
use std::time::{Clock, Duration};

/// How many seconds a connection waits for the peer to take it.
const LIMIT_SECONDS: u64 = 5;

/// How many milliseconds it waits before it looks whether to stop.
const LOOK_MILLIS: i32 = 200;

/// How many times it looks: enough for the limit, with calls that signals interrupt.
const LOOKS: usize = 1000;

/// The first octet of the addresses that reach this host alone (RFC 1122 section 3.2.1.3).
const LOOPBACK: u8 = 127;

/// What makes TCP connections. It doesn't tell its links.
#[derive(Drop)]
pub struct TcpDialer<'a, R> {
    rt: &'a R,
    bell: &'a Bell,
    /// The address that the server listens on.
    listen: Option<[u8; 4]>,
    out: Option<Peer>,
    faults: u64,
}

impl<'a, R> TcpDialer<'a, R> {
    /// A dialer that has made no link, of a server that listens on this address.
    pub(crate) fn new(rt: &'a R, bell: &'a Bell, listen: Option<[u8; 4]>) -> TcpDialer<'a, R>
        ensures out { result.out ≡ None }
        ensures faults { result.faults ≡ 0 }
    {
        TcpDialer {
            rt,
            bell,
            listen,
            out: None,
            faults: 0,
        }
    }
}

impl<'a, R: Net<Stream = TcpStream> + Clock + Files<File = File> + Wait + Sync> Dialer
    for TcpDialer<'a, R> {
    type L = TcpLink<'a, R>;

    ghost links = { λ _. None };

    ghost out = { λ dialer. dialer.out };

    ghost faults = { λ dialer. dialer.faults };

    /// A new connection to a peer; it fails where the peer doesn't answer within the limit, or the server is to stop.
    fn dial(&mut self, peer: &Peer) -> Result<TcpLink<'a, R>, Failed> {
        self.bell.notifies.know(self.rt, peer.address);
        add(&self.bell.figures.dials, 1);
        let from = leaves_from(self.listen, peer);
        match connect(Watch::new(self.rt, self.bell), from, peer) {
            Some(link) => {
                self.out = Some(*peer);
                Ok(link)
            }
            None => {
                add(&self.bell.figures.failed, 1);
                self.faults = self.faults.saturating_add(1);
                Err(Failed)
            }
        }
    }

    /// Takes a connection back, closes it, and counts that it had faults.
    fn done(&mut self, link: TcpLink<'a, R>) {
        self.out = None;
        if link.faults > 0 {
            self.faults = self.faults.saturating_add(1);
        }
    }
}

/// The address from which a peer is dialled: the one that the server listens on. None, so that the system chooses,
/// where that is 0.0.0.0, or where it reaches this host alone and the peer is another.
pub(crate) fn leaves_from(listen: Option<[u8; 4]>, peer: &Peer) -> Option<[u8; 4]> {
    let address = listen?;
    let is_local = address[0] == LOOPBACK && peer.address[0] != LOOPBACK;
    if address == [0; 4] || is_local {
        None
    } else {
        Some(address)
    }
}

/// A new connection to a peer from this address; none where it isn't taken within the limit.
fn connect<'a, R: Net<Stream = TcpStream> + Clock + Files<File = File> + Wait>(
    watch: Watch<'a, R>,
    from: Option<[u8; 4]>,
    peer: &Peer,
) -> Option<TcpLink<'a, R>>
    ensures { IfSome result (λ link. link.faults ≡ 0) }
{
    let dialled = watch.time();
    let stream = begin_near(from, peer)?;
    let mut watch = watch;
    if !comes_up(&mut watch, &stream, dialled) {
        return None;
    }
    stream.set_nonblocking(false).ok()?;
    TcpLink::new(watch, stream, dialled)
}

/// Begins a connection from this address, or from the system's choice where no port of it is free.
fn begin_near(from: Option<[u8; 4]>, peer: &Peer) -> Option<TcpStream> {
    match begin_dial(from, peer) {
        Ok(stream) => Some(stream),
        Err(error)
            if matches!(
                error.kind(),
                ErrorKind::AddrInUse | ErrorKind::AddrNotAvailable
            ) => { begin_dial(None, peer).ok() }
        Err(_) => None,
    }
}

/// Waits for a connection that was begun at this moment. It answers whether it was made within the limit, and before
/// the server was to stop.
fn comes_up<R: Clock + Files<File = File> + Wait>(
    watch: &mut Watch<'_, R>,
    stream: &TcpStream,
    dialled: Duration,
) -> bool {
    let limit = Duration::from_secs(LIMIT_SECONDS);
    'looks: for _ in 0..LOOKS {
        let now = watch.time();
        if now.saturating_sub(dialled) >= limit || watch.is_to_stop_at(now) {
            break;
        }
        match is_made(stream, LOOK_MILLIS) {
            Ok(true) => return true,
            Ok(false) => {}
            Err(_) => break,
        }
    }
    false
}
