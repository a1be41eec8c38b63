//! Links over TCP.
ghost use Rattle.std.specs.Prelude.{◌≡◌, ◌≤◌, ◌<◌, ◌+◌, ◌/◌, ◌↔◌, refl, length, None, IfSome, IsTrue};

use crate::glimpse::Glimpse;
use crate::watch::Watch;
use crate::work::millis;
use dz_io::{Failed, Link, Sink, Source};
use std::fs::{File, Files};
use std::io::{ErrorKind, Read, Write};
use std::net::TcpStream;
use std::sync::Wait;
use std::time::{Clock, Duration};

/// How many seconds a read or a write waits for the peer.
const LIMIT_SECONDS: u64 = 10;

/// How many milliseconds a link may last in which nothing comes.
const GRACE_MILLIS: u64 = 30_000;

/// How many octets give a link a millisecond more: 8,000 a second.
const PACE: u64 = 8;

/// How many milliseconds a read waits before it looks whether to stop.
const LOOK_MILLIS: u64 = 200;

/// How many times a read is tried that signals interrupt, or that waits.
const TRIES: usize = 1000;

/// A TCP connection to a primary. It doesn't tell its octets. Its reads fail once the server is to stop, and where the
/// primary sends too slowly: nothing for ten seconds, or on the average of the whole connection after its first 30
/// seconds fewer than 8,000 octets a second.
#[derive(Drop)]
pub struct TcpLink<'a, R> {
    watch: Watch<'a, R>,
    stream: TcpStream,
    /// When it was dialled.
    dialled: Duration,
    /// How many octets were read.
    octets: u64,
    glimpse: Glimpse,
    pub(crate) faults: u64,
}

/// Whether a link that has lasted so long has brought too few octets.
pub(crate) fn is_too_slow(lasted: u64, octets: u64) -> bool
    ensures { IsTrue result ↔ (30_000 + octets / 8 < lasted) }
{
    lasted > GRACE_MILLIS && lasted - GRACE_MILLIS > octets / PACE
}

impl<'a, R> TcpLink<'a, R> {
    /// A link of a new connection, which was dialled at this moment; none where its limits can't be set.
    pub(crate) fn new(
        watch: Watch<'a, R>,
        stream: TcpStream,
        dialled: Duration,
    ) -> Option<TcpLink<'a, R>>
        ensures { IfSome result (λ link. link.faults ≡ 0) }
    {
        stream.set_nodelay(true).ok()?;
        let look = Some(Duration::from_millis(LOOK_MILLIS));
        stream.set_read_timeout(look).ok()?;
        let limit = Some(Duration::from_secs(LIMIT_SECONDS));
        stream.set_write_timeout(limit).ok()?;
        Some(TcpLink {
            watch,
            stream,
            dialled,
            octets: 0,
            glimpse: Glimpse::nothing(),
            faults: 0,
        })
    }
}

impl<'a, R: Clock + Files<File = File> + Wait> TcpLink<'a, R> {
    /// Octets of the reply came. What they show of EXPIRE is kept.
    fn show(&mut self, octets: &[u8])
        ensures { self.new.faults ≡ self.old.faults }
    {
        if !self.glimpse.add(octets) {
            return;
        }
        if let Some((zone, span)) = self.glimpse.expire() {
            self.watch.bell.expiries.note(self.watch.rt, &zone, span);
        }
    }

    /// Whether it is to go on waiting for octets since a moment: the server isn't to stop, and the primary isn't too slow.
    fn may_wait(&mut self, since: Duration) -> bool
        ensures { self.new.faults ≡ self.old.faults }
    {
        let now = self.watch.time();
        let lasted = millis(now.saturating_sub(self.dialled));
        !self.watch.is_to_stop_at(now)
            && now.saturating_sub(since) < Duration::from_secs(LIMIT_SECONDS)
            && !is_too_slow(lasted, self.octets)
    }

    /// Reads as soon as octets are there; none where it isn't to wait for them any longer.
    fn read_within(&mut self, buffer: &mut [u8]) -> Option<usize>
        ensures count { IfSome result (λ n. n ≤ length buffer.old) }
        ensures faults { self.new.faults ≡ self.old.faults }
    {
        let since = self.watch.time();
        'tries: for _ in 0..TRIES {
            if !self.may_wait(since) {
                break;
            }
            match self.stream.read(buffer) {
                Ok(count) => {
                    self.octets = self.octets.saturating_add(count as u64);
                    return Some(count);
                }
                Err(error) if error.kind() == ErrorKind::Interrupted => {}
                Err(error) if error.kind() == ErrorKind::WouldBlock => {}
                Err(_) => break,
            }
        }
        None
    }
}

impl<'a, R: Clock + Files<File = File> + Wait> Source for TcpLink<'a, R> {
    ghost given = { λ _. None };

    ghost left = { λ _. None };

    ghost beside = { λ _. None };

    ghost faults = { λ link. link.faults };

    /// Reads octets, and answers how many; it fails where the primary is too slow, or the server is to stop.
    fn read(&mut self, buffer: &mut [u8]) -> Result<usize, Failed> {
        match self.read_within(buffer) {
            Some(count) => {
                self.show(buffer.get(..count).unwrap_or(&[]));
                Ok(count)
            }
            None => {
                self.faults = self.faults.saturating_add(1);
                Err(Failed)
            }
        }
    }
}

impl<'a, R: Clock + Files<File = File> + Wait> Sink for TcpLink<'a, R> {
    ghost held = { λ _. None };

    ghost beside = { λ _. record { given = None; left = None } };

    ghost faults = { λ link. link.faults };

    /// Writes all octets; it fails where the socket does.
    fn write(&mut self, piece: &[u8]) -> Result<(), Failed> {
        self.glimpse.ask(piece);
        match self.stream.write_all(piece) {
            Ok(()) => Ok(()),
            Err(_) => {
                self.faults = self.faults.saturating_add(1);
                Err(Failed)
            }
        }
    }
}

impl<'a, R: Clock + Files<File = File> + Wait> Link for TcpLink<'a, R> {
    ghost one_count = { λ _. refl };

    ghost reads_leave = { λ _. refl };

    ghost writes_leave = { λ _. refl };
}
