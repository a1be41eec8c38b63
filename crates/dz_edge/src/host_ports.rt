//! The ports of the host.
ghost use Rattle.std.specs.Prelude.{◌≡◌, None};

use crate::tcp_acceptor::{accept_at, bind_tcp};
use crate::tell::tell_refused;
use crate::udp_datagrams::bind_udp;
use crate::{Bell, TcpAcceptor, TcpDialer, UdpDatagrams};
use dz_io::{Failed, Peer, Ports};
use std::alloc::Global;
use std::fs::{File, Files};
use std::io::Eprint;
use std::net::{Net, TcpListener, TcpStream, UdpSocket};
use std::sync::Wait;
use std::time::Clock;

/// What is told where `listen` has the address 0.0.0.0.
const ANY_ADDRESS: &str =
    "catzd: listen = \"0.0.0.0:..\": on a host with several addresses replies over UDP may leave \
    from another than was asked, and are then lost; give the one address";

/// What opens sockets. It tells neither where it opened them nor what came back. The devices of one kind at one address
/// share a socket.
#[derive(Drop)]
pub struct HostPorts<'a, R> {
    rt: &'a R,
    alloc: Global,
    bell: &'a Bell,
    /// The address at which it opened last.
    listen: Option<[u8; 4]>,
    socket: Option<(Peer, UdpSocket)>,
    listener: Option<(Peer, TcpListener)>,
    datagrams_out: u64,
    acceptors_out: u64,
    dialers_out: u64,
    faults: u64,
}

impl<'a, R> HostPorts<'a, R> {
    /// Ports that have opened nothing. Their devices ring the bell.
    pub fn new(rt: &'a R, alloc: Global, bell: &'a Bell) -> HostPorts<'a, R>
        ensures datagrams { result.datagrams_out ≡ 0 }
        ensures acceptors { result.acceptors_out ≡ 0 }
        ensures dialers { result.dialers_out ≡ 0 }
        ensures faults { result.faults ≡ 0 }
    {
        HostPorts {
            rt,
            alloc,
            bell,
            listen: None,
            socket: None,
            listener: None,
            datagrams_out: 0,
            acceptors_out: 0,
            dialers_out: 0,
            faults: 0,
        }
    }
}

impl<'a, R: Eprint + Files<File = File> + Wait> HostPorts<'a, R> {
    /// Keeps the address at which devices listen, and looks once whether the server is to stop, so that what a look
    /// needs is open from the start. The address 0.0.0.0 is told to be wrong.
    fn begin(&mut self, listen: &Peer)
        ensures datagrams { self.new.datagrams_out ≡ self.old.datagrams_out }
        ensures acceptors { self.new.acceptors_out ≡ self.old.acceptors_out }
        ensures dialers { self.new.dialers_out ≡ self.old.dialers_out }
        ensures faults { self.new.faults ≡ self.old.faults }
    {
        let _stops = self.bell.look(self.rt);
        if self.listen.is_none() && listen.address == [0; 4] {
            let _ = self.rt.eprintln(ANY_ADDRESS);
        }
        self.listen = Some(listen.address);
    }
}

impl<'a, R: Net<Stream = TcpStream> + Clock + Eprint + Files<File = File> + Wait + Sync> Ports
    for HostPorts<'a, R> {
    type D = UdpDatagrams<'a, R>;

    type A = TcpAcceptor<'a, R>;

    type L = TcpDialer<'a, R>;

    ghost datagrams = { λ ports. record { opened = None; out = ports.datagrams_out; back = None } };

    ghost acceptors = { λ ports. record { opened = None; out = ports.acceptors_out; back = None } };

    ghost dialers = { λ ports. record { opened = None; out = ports.dialers_out; back = None } };

    ghost faults = { λ ports. ports.faults };

    /// A UDP socket at this address, for a worker; it fails where there is none.
    fn open_datagrams(&mut self, listen: &Peer, worker: u8) -> Result<UdpDatagrams<'a, R>, Failed> {
        self.begin(listen);
        let socket = share_socket(self.rt, &mut self.socket, listen);
        match (socket, self.datagrams_out.checked_add(1)) {
            (Some(socket), Some(out)) => {
                self.datagrams_out = out;
                self.bell.datagrams.open();
                Ok(UdpDatagrams::new(self.rt, self.bell, socket, worker))
            }
            _ => {
                self.faults = self.faults.saturating_add(1);
                Err(Failed)
            }
        }
    }

    /// A TCP listener at this address, for a worker; it fails where there is none.
    fn open_acceptor(&mut self, listen: &Peer, worker: u8) -> Result<TcpAcceptor<'a, R>, Failed> {
        let listener = share_listener(self.rt, &mut self.listener, listen);
        let acceptor = accept_at(self.rt, self.alloc, self.bell, listener, worker);
        match (acceptor, self.acceptors_out.checked_add(1)) {
            (Some(acceptor), Some(out)) => {
                self.acceptors_out = out;
                self.bell.acceptors.open();
                Ok(acceptor)
            }
            _ => {
                self.faults = self.faults.saturating_add(1);
                Err(Failed)
            }
        }
    }

    /// A dialer for a worker; it fails only where one more can't be counted.
    fn dialer(&mut self, _worker: u8) -> Result<TcpDialer<'a, R>, Failed> {
        match self.dialers_out.checked_add(1) {
            Some(out) => {
                self.dialers_out = out;
                Ok(TcpDialer::new(self.rt, self.bell, self.listen))
            }
            None => {
                self.faults = self.faults.saturating_add(1);
                Err(Failed)
            }
        }
    }

    /// Takes a UDP device back, and counts that it had faults.
    fn close_datagrams(&mut self, device: UdpDatagrams<'a, R>) {
        self.datagrams_out -= 1;
        if device.faults > 0 {
            self.faults = self.faults.saturating_add(1);
        }
    }

    /// Takes an acceptor back, and counts that it had faults.
    fn close_acceptor(&mut self, device: TcpAcceptor<'a, R>) {
        self.acceptors_out -= 1;
        if device.faults > 0 {
            self.faults = self.faults.saturating_add(1);
        }
    }

    /// Takes a dialer back.
    fn close_dialer(&mut self, _device: TcpDialer<'a, R>) {
        self.dialers_out -= 1;
    }
}

/// The socket that was kept at this address, or a new one, which it keeps. Where the system refuses it, that is told.
fn share_socket<R: Net + Eprint>(
    rt: &R,
    kept: &mut Option<(Peer, UdpSocket)>,
    listen: &Peer,
) -> Option<UdpSocket> {
    if let Some((at, socket)) = kept {
        if *at == *listen {
            return socket.try_clone().ok();
        }
    }
    let socket = tell_refused(rt, "UDP", listen, bind_udp(rt, listen))?;
    *kept = Some((*listen, socket.try_clone().ok()?));
    Some(socket)
}

/// The listener that was kept at this address, or a new one, which it keeps. Where the system refuses it, that is told.
fn share_listener<R: Net + Eprint>(
    rt: &R,
    kept: &mut Option<(Peer, TcpListener)>,
    listen: &Peer,
) -> Option<TcpListener> {
    if let Some((at, listener)) = kept {
        if *at == *listen {
            return listener.try_clone().ok();
        }
    }
    let listener = tell_refused(rt, "TCP", listen, bind_tcp(rt, listen))?;
    *kept = Some((*listen, listener.try_clone().ok()?));
    Some(listener)
}
