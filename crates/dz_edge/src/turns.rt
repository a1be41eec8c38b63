//! The turns of a worker's connections.
ghost use Rattle.std.specs.Prelude.{◌≡◌, ◌≢◌, ◌≤◌, ⊤, [], IfSome};
ghost use Rattle.dz_io.specs.Links.{IsAccepted};

use crate::Bell;
use crate::address::peer_of;
use crate::buffers::Buffers;
use crate::connection::{Connection, Fetched};
use crate::crowd::Crowd;
use crate::errors::{is_for_good, is_shortage};
use crate::figures::Share;
use crate::frames::{TurnFrames, asks_for_zone, begins_with_notify, frame_end, turn_frames};
use crate::tally::Guests;
use crate::tell::{tell_expired, tell_figures, tell_stop};
use crate::turn::{Frames, Turn};
use crate::watch::Watch;
use crate::work::millis;
use dz_io::{Accepted, Peer};
use dz_name::dns::LENGTH_OCTETS;
use mio::net::{TcpListener, TcpStream};
use mio::{Events, Interest, Poll, Token};
use std::alloc::Global;
use std::fs::{File, Files};
use std::io::{Eprint, Error, ErrorKind};
use std::net::Net;
use std::sync::Wait;
use std::thread::sleep;
use std::time::{Clock, Duration};

/// How many connections a worker has at most.
const CONNECTIONS: usize = 400;

/// How many events are taken at once.
const EVENTS: usize = 256;

/// How many connections are accepted at most before the next turn.
const GUESTS: usize = 32;

/// The token of the listener. Those of connections are their places.
const DOOR: usize = usize::MAX;

/// How many milliseconds a worker waits before it looks whether to stop.
const LOOK_MILLIS: u64 = 200;

/// How many milliseconds after an error the listener is tried again.
const AGAIN_MILLIS: u64 = 100;

/// How many milliseconds after a NOTIFY was kept back its connection is asked for it again.
const LATER_MILLIS: u64 = 10;

/// How many milliseconds lie between two tries to send what waits once the server is to stop.
const DRAIN_MILLIS: u64 = 50;

/// How many such tries there are: for a second.
const DRAINS: usize = 20;

/// Whether the listener has a connection.
#[derive(Clone, Copy, PartialEq, Eq)]
enum Door {
    /// It may have one.
    Open,
    /// It has none. The system will tell when the next comes.
    Quiet,
    /// It failed for want of memory or descriptors. It is tried again a little later.
    Failed,
    /// The listener or the poll is bad.
    Gone,
}

/// What a connection has at the front.
#[derive(Clone, Copy, PartialEq, Eq)]
enum Front {
    /// Frames whose turn begins.
    Turn,
    /// A frame that asks for a zone, whose turn comes after the round.
    Zone,
    /// A NOTIFY that is kept back.
    Notify,
    /// No whole frame.
    Part,
}

/// What a connection gave: how many octets, and whether there may be more. It may have a whole zone now, or the session
/// of its NOTIFY may begin.
#[derive(Clone, Copy)]
struct Came {
    total: usize,
    more: bool,
    for_zone: bool,
    is_heard: bool,
}

/// The connections of a worker, which take turns. In a round each that is ready has one turn; between two rounds the
/// worker looks which are ready, and accepts what is new. It waits for no client: a connection without a whole frame is
/// left to the poll.
#[derive(Drop)]
pub(crate) struct Turns<'a, R> {
    rt: &'a R,
    watch: Watch<'a, R>,
    alloc: Global,
    /// Where it adds what it has counted.
    share: &'a Share,
    poll: Poll,
    events: Events,
    pub(crate) listener: TcpListener,
    door: Door,
    pub(crate) crowd: Crowd,
    /// How many turns the round has left.
    round: usize,
    /// Whether a connection that asks for a whole zone is to have its turn once the round is over.
    has_zone_turn: bool,
    /// None while a turn has them.
    buffers: Option<Buffers>,
    /// When the last round began.
    now: Duration,
    /// When the listener last failed.
    failed: Duration,
    /// When connections were last asked again for a NOTIFY.
    asked: Duration,
    /// The second of the last sweep.
    swept: u64,
}

impl<'a, R: Net + Clock> Turns<'a, R> {
    /// A worker with no connection, at a listener whose `accept` doesn't wait; none where the system or memory refuses.
    pub fn new(
        rt: &'a R,
        alloc: Global,
        bell: &'a Bell,
        listener: TcpListener,
        worker: u8,
    ) -> Option<Turns<'a, R>> {
        let mut listener = listener;
        let poll = Poll::new(rt).ok()?;
        poll.registry()
            .register(&mut listener, Token(DOOR), Interest::READABLE)
            .ok()?;
        let now = time(rt, Duration::ZERO);
        Some(Turns {
            rt,
            watch: Watch::new(rt, bell),
            alloc,
            share: bell.figures.tcp_of(worker),
            poll,
            events: Events::with_capacity(alloc, EVENTS).ok()?,
            listener,
            door: Door::Open,
            crowd: Crowd::new(alloc, CONNECTIONS).ok()?,
            round: 0,
            has_zone_turn: false,
            buffers: Some(Buffers::new(alloc).ok()?),
            now,
            failed: now,
            asked: now,
            swept: now.as_secs(),
        })
    }
}

impl<'a, R: Clock + Eprint + Files<File = File> + Wait> Turns<'a, R> {
    /// The next turn, or that the server is to stop; none where the listener or the poll is bad.
    pub fn next(&mut self) -> Option<Accepted<Turn>>
        ensures faults { IfSome result (λ a. IsAccepted a (λ turn peer. turn.faults ≡ 0) ⊤) }
        ensures none { IfSome result (λ a. IsAccepted a
            (λ turn peer. turn.buffers.replies.octets.items ≡ []) ⊤) }
        ensures beside { IfSome result (λ a. IsAccepted a
            (λ turn peer. turn.buffers.replies.beside ≡ self.new.crowd.waiting) ⊤) }
    {
        'turns: for _ in 0..u64::MAX {
            if self.watch.is_to_stop() {
                self.drain();
                return Some(Accepted::Closed);
            }
            if self.round > 0 || self.has_zone_turn {
                if let Some(turn) = self.next_turn() {
                    let peer = turn.connection.peer;
                    return Some(Accepted::One(turn, peer));
                }
            } else {
                self.begin_round();
                if self.door == Door::Gone {
                    break;
                }
            }
        }
        None
    }

    /// The acceptor has failed: after the last one the server is to stop.
    pub fn lose(&mut self) {
        let bell = self.watch.bell;
        bell.lose(self.rt, &bell.acceptors);
    }

    /// Sends what waits, for a second at most.
    fn drain(&mut self) {
        tell_stop(self.rt, self.watch.bell);
        'tries: for _ in 0..DRAINS {
            if self.crowd.waiting().is_none() {
                break;
            }
            self.crowd.sweep(self.now.as_secs());
            sleep(self.rt, Duration::from_millis(DRAIN_MILLIS));
        }
    }

    /// Sends the replies of a turn, and puts its connection back. After a fault the connection is closed, and no more
    /// waits than before.
    pub fn done(&mut self, turn: Turn)
        ensures { turn.faults ≢ 0
            → self.new.crowd.waiting.octets ≤ self.old.crowd.waiting.octets }
    {
        let Turn {
            mut connection,
            place,
            mut buffers,
            frames,
            more,
            rings,
            tally,
            faults,
        } = turn;
        self.share.add(&tally);
        let address = connection.peer.address;
        let room = buffers.room.as_slice();
        let left = room.get(frames.at..frames.total).unwrap_or(&[]);
        let has_more = more || frame_end(left, 0).is_some();
        let stands = faults == 0
            && frames.is_between()
            && connection.send(&mut buffers.replies.octets)
            && connection.keep(left);
        buffers.replies.end(self.alloc);
        self.buffers = Some(buffers);
        if stands {
            self.put_back(place, connection, Front::Part, has_more);
        } else {
            drop(connection);
            self.crowd.release(place);
        }
        if rings {
            let bell = self.watch.bell;
            bell.notifies.know(self.rt, address);
            bell.ring(self.rt);
        }
    }

    /// Puts a connection back, and into a queue where there may be more to do of which the system won't tell.
    fn put_back(&mut self, place: usize, connection: Connection, front: Front, more: bool) {
        self.crowd.put(place, connection);
        match front {
            Front::Zone => self.crowd.queue_for_zone(place),
            Front::Notify => self.crowd.queue_later(place),
            Front::Turn | Front::Part => {
                if more {
                    self.crowd.queue(place);
                }
            }
        }
    }

    /// The next turn of the round, or the one after the round, of a connection that asks for a whole zone. Its stream
    /// takes long to put together, so all other connections that are ready have a turn before each.
    fn next_turn(&mut self) -> Option<Turn>
        ensures faults { IfSome result (λ turn. turn.faults ≡ 0) }
        ensures none { IfSome result (λ turn. turn.buffers.replies.octets.items ≡ []) }
        ensures beside { IfSome result
            (λ turn. turn.buffers.replies.beside ≡ self.new.crowd.waiting) }
    {
        if self.round > 0 {
            self.round -= 1;
            let place = self.crowd.next()?;
            self.take_turn(place, false)
        } else {
            self.has_zone_turn = false;
            let place = self.crowd.next_for_zone()?;
            self.take_turn(place, true)
        }
    }

    /// Takes what a connection has, and gives its turn where it has one now.
    fn take_turn(&mut self, place: usize, for_zone: bool) -> Option<Turn>
        ensures faults { IfSome result (λ turn. turn.faults ≡ 0) }
        ensures none { IfSome result (λ turn. turn.buffers.replies.octets.items ≡ []) }
        ensures beside { IfSome result
            (λ turn. turn.buffers.replies.beside ≡ self.new.crowd.waiting) }
    {
        let mut connection = self.crowd.take(place)?;
        if !connection.flush(self.now.as_secs()) {
            self.close(place, connection);
            return None;
        }
        if connection.is_clogged() {
            self.crowd.put(place, connection);
            return None;
        }
        let is_heard = connection.is_kept_back;
        if is_heard && !self.may_hear(&connection.peer, connection.held()) {
            self.put_back(place, connection, Front::Notify, false);
            return None;
        }
        let Some(mut buffers) = self.buffers.take() else {
            self.crowd.put(place, connection);
            return None;
        };
        match connection.fetch(buffers.room.as_mut_slice()) {
            Fetched::Broken => {
                self.buffers = Some(buffers);
                self.close(place, connection);
                None
            }
            Fetched::Octets { total, more } => {
                let came = Came {
                    total,
                    more,
                    for_zone,
                    is_heard,
                };
                self.begin_turn(place, connection, buffers, came)
            }
        }
    }

    /// Begins a turn with the octets at the front of the room, or puts the connection back with them.
    fn begin_turn(
        &mut self,
        place: usize,
        connection: Connection,
        buffers: Buffers,
        came: Came,
    ) -> Option<Turn>
        ensures faults { IfSome result (λ turn. turn.faults ≡ 0) }
        ensures none { IfSome result (λ turn. turn.buffers.replies.octets.items ≡ []) }
        ensures beside { IfSome result
            (λ turn. turn.buffers.replies.beside ≡ self.new.crowd.waiting) }
    {
        let mut connection = connection;
        let mut buffers = buffers;
        let octets = buffers.room.as_slice().get(..came.total).unwrap_or(&[]);
        let found = turn_frames(octets);
        let front = self.front(&connection.peer, octets, found, came);
        connection.is_kept_back = front == Front::Notify;
        if front == Front::Turn {
            if found.is_alive {
                connection.mark(self.now.as_secs());
            }
            buffers.replies.begin(self.crowd.waiting());
            let frames = Frames::new(found.end, came.total);
            return Some(Turn::new(connection, place, buffers, frames, came.more));
        }
        let stands = (front != Front::Part || !connection.is_at_end()) && connection.keep(octets);
        self.buffers = Some(buffers);
        if stands {
            self.put_back(place, connection, front, came.more);
        } else {
            self.close(place, connection);
        }
        None
    }

    /// What a connection has at the front: these frames of these octets.
    fn front(&self, peer: &Peer, octets: &[u8], found: TurnFrames, came: Came) -> Front {
        if found.end == 0 {
            Front::Part
        } else if !came.for_zone && asks_for_zone(octets) {
            Front::Zone
        } else if !came.is_heard && begins_with_notify(octets) && !self.may_hear(peer, octets) {
            Front::Notify
        } else {
            Front::Turn
        }
    }

    /// Whether the session of the NOTIFY that these frames begin with may begin.
    fn may_hear(&self, peer: &Peer, frames: &[u8]) -> bool {
        let packet = frames.get(LENGTH_OCTETS..).unwrap_or(&[]);
        let now = millis(self.watch.time());
        self.watch
            .bell
            .notifies
            .may_begin(self.rt, now, peer, packet)
    }

    /// Closes a connection that was taken from its place.
    fn close(&mut self, place: usize, connection: Connection) {
        drop(connection);
        self.crowd.release(place);
    }

    /// Accepts what is new, looks which connections are ready, and begins a round of them.
    fn begin_round(&mut self) {
        self.try_again();
        self.accept_guests();
        let limit = self.limit();
        let told = self.poll.poll(&mut self.events, Some(limit));
        self.now = time(self.rt, self.now);
        match told {
            Ok(()) => {
                if take_events(&self.events, &mut self.crowd) && self.door != Door::Gone {
                    self.door = Door::Open;
                }
            }
            Err(error) if is_for_good(&error) => self.door = Door::Gone,
            Err(error) if error.kind() == ErrorKind::Interrupted => {}
            Err(error) => {
                let bell = self.watch.bell;
                self.watch.rest_after(&bell.acceptors, &error);
            }
        }
        self.ask_again();
        let second = self.now.as_secs();
        if second > self.swept {
            self.swept = second;
            self.crowd.sweep(second);
            self.tell(second);
        }
        self.round = self.crowd.queued();
        self.has_zone_turn = true;
    }

    /// Adds what the crowd has counted to the figures, writes their line where it is due in this second, and tells which
    /// versions have expired.
    fn tell(&mut self, second: u64) {
        self.share.add_guests(&self.crowd.guests);
        self.crowd.guests = Guests::new();
        tell_figures(self.rt, self.watch.bell, second);
        tell_expired(self.rt, self.watch.bell, second);
    }

    /// Queues the connections whose NOTIFY was kept back, where that was a little ago.
    fn ask_again(&mut self) {
        let gone = self.now.saturating_sub(self.asked);
        if gone >= Duration::from_millis(LATER_MILLIS) {
            self.asked = self.now;
            self.crowd.queue_held();
        }
    }

    /// Opens the door again a little after the listener failed.
    fn try_again(&mut self) {
        let gone = self.now.saturating_sub(self.failed);
        if self.door == Door::Failed && gone >= Duration::from_millis(AGAIN_MILLIS) {
            self.door = Door::Open;
        }
    }

    /// How long the poll may wait.
    fn limit(&self) -> Duration {
        if self.crowd.queued() > 0 || self.crowd.has_for_zone() {
            return Duration::ZERO;
        }
        match self.door {
            Door::Open => Duration::ZERO,
            _ if self.crowd.has_later() => Duration::from_millis(LATER_MILLIS),
            Door::Quiet | Door::Gone => Duration::from_millis(LOOK_MILLIS),
            Door::Failed => Duration::from_millis(AGAIN_MILLIS),
        }
    }

    /// Accepts connections while there may be some, `GUESTS` at most. Where each of these fails, the listener rests a
    /// little.
    fn accept_guests(&mut self) {
        let mut missed = 0_usize;
        'guests: for _ in 0..GUESTS {
            if self.door != Door::Open {
                break;
            }
            match self.listener.accept() {
                Ok((stream, address)) => {
                    if let Some(peer) = peer_of(&address) {
                        self.admit(stream, peer);
                    }
                }
                Err(error) => {
                    missed = missed.saturating_add(1);
                    self.miss_guest(&error);
                }
            }
        }
        if missed >= GUESTS {
            self.door = Door::Failed;
            self.failed = self.now;
        }
    }

    /// No connection was accepted. Where the system is out of memory or descriptors, the oldest makes room, and the
    /// listener rests a little. An error that isn't the listener's own says that the client has gone.
    fn miss_guest(&mut self, error: &Error) {
        if error.kind() == ErrorKind::WouldBlock {
            self.door = Door::Quiet;
        } else if is_shortage(error) {
            self.door = Door::Failed;
            self.failed = self.now;
            self.crowd.drop_oldest();
            let bell = self.watch.bell;
            self.watch.tell(&bell.acceptors, error);
        } else if is_for_good(error) {
            self.door = Door::Gone;
        }
    }

    /// Gives a new connection a place. It is closed where the system refuses.
    fn admit(&mut self, stream: TcpStream, peer: Peer) {
        self.crowd.make_room_for(peer.address);
        let Some(place) = self.crowd.seat() else {
            return;
        };
        let mut stream = stream;
        let interest = Interest::READABLE | Interest::WRITABLE;
        let registry = self.poll.registry();
        let is_registered = registry
            .register(&mut stream, Token(place), interest)
            .is_ok();
        if is_registered && stream.set_nodelay(true).is_ok() {
            let second = self.now.as_secs();
            let connection = Connection::new(self.alloc, stream, peer, second);
            self.crowd.put(place, connection);
        } else {
            self.crowd.release(place);
        }
    }
}

/// The time since the host began, or this one where the host doesn't tell it.
fn time<R: Clock>(rt: &R, before: Duration) -> Duration {
    match rt.monotonic() {
        Ok(time) => time,
        Err(_) => before,
    }
}

/// Queues the connections that events tell of. It answers whether the listener is among them.
fn take_events(events: &Events, crowd: &mut Crowd) -> bool {
    let mut comes = false;
    'events: for event in events.iter() {
        let Token(token) = event.token();
        if token == DOOR {
            comes = true;
        } else {
            if event.is_read_closed() || event.is_error() {
                crowd.end(token);
            }
            crowd.queue(token);
        }
    }
    comes
}
