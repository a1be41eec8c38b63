//! An acceptor over TCP.
ghost use Rattle.std.specs.Prelude.{◌≡◌, false, None, IfSome};

use crate::address::socket_address;
use crate::turns::Turns;
use crate::{Bell, Turn};
use dz_io::{Accepted, Acceptor, Failed, Peer};
use std::alloc::Global;
use std::fs::{File, Files};
use std::io;
use std::io::Eprint;
use std::net::{Net, TcpListener};
use std::sync::Wait;
use std::time::Clock;

/// A TCP listener and the connections that were made to it, of which each link is a turn. It doesn't tell its links,
/// and is closed once the server is to stop.
#[derive(Drop)]
pub struct TcpAcceptor<'a, R> {
    pub(crate) turns: Turns<'a, R>,
    out: Option<Peer>,
    is_closed: bool,
    pub(crate) faults: u64,
}

/// A listener at this address and port, whose `accept` doesn't wait; the system's error where there is none.
pub(crate) fn bind_tcp<R: Net>(rt: &R, listen: &Peer) -> io::Result<TcpListener> {
    let listener = mio::net::TcpListener::bind(rt, socket_address(listen))?;
    Ok(TcpListener::from(listener))
}

/// A worker's acceptor at a listener, if there is one, that has given no link; none where the system or memory refuses.
pub(crate) fn accept_at<'a, R: Net + Clock>(
    rt: &'a R,
    alloc: Global,
    bell: &'a Bell,
    listener: Option<TcpListener>,
    worker: u8,
) -> Option<TcpAcceptor<'a, R>>
    ensures out { IfSome result (λ acceptor. acceptor.out ≡ None) }
    ensures closed { IfSome result (λ acceptor. acceptor.is_closed ≡ false) }
    ensures faults { IfSome result (λ acceptor. acceptor.faults ≡ 0) }
{
    let listener = mio::net::TcpListener::from_std(listener?);
    let turns = Turns::new(rt, alloc, bell, listener, worker)?;
    Some(TcpAcceptor::new(turns))
}

impl<'a, R> TcpAcceptor<'a, R> {
    /// An acceptor that has given no link.
    pub(crate) fn new(turns: Turns<'a, R>) -> TcpAcceptor<'a, R>
        ensures out { result.out ≡ None }
        ensures closed { result.is_closed ≡ false }
        ensures faults { result.faults ≡ 0 }
    {
        TcpAcceptor {
            turns,
            out: None,
            is_closed: false,
            faults: 0,
        }
    }
}

impl<'a, R: Clock + Eprint + Files<File = File> + Wait> Acceptor for TcpAcceptor<'a, R> {
    type L = Turn;

    ghost links = { λ _. None };

    ghost out = { λ acceptor. acceptor.out };

    ghost is_closed = { λ acceptor. acceptor.is_closed };

    ghost faults = { λ acceptor. acceptor.faults };

    /// The next turn. It fails only where the listener or the poll is bad, since a later connection may come through;
    /// after the last such acceptor the server is to stop.
    fn accept(&mut self) -> Result<Accepted<Turn>, Failed> {
        match self.turns.next() {
            Some(Accepted::Closed) => {
                self.is_closed = true;
                Ok(Accepted::Closed)
            }
            Some(Accepted::One(turn, peer)) => {
                self.out = Some(peer);
                Ok(Accepted::One(turn, peer))
            }
            None => {
                self.faults = self.faults.saturating_add(1);
                self.turns.lose();
                Err(Failed)
            }
        }
    }

    /// Takes a turn back: its replies are sent, and its connection waits for the next one.
    fn done(&mut self, link: Turn) {
        self.turns.done(link);
        self.out = None;
    }
}
