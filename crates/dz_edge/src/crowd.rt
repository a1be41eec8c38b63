//! The connections of a worker.
ghost use Rattle.std.specs.Prelude.{◌≡◌, ◌≤◌, ◌+◌, IfOk};
ghost use Rattle.dz_edge.specs.Waiting.{waits_at, waiting_at};
ghost use Rattle.dz_edge.specs.declared.waiting.TheConstants.{WAITING_OCTETS};

use crate::connection::Connection;
use crate::replies::ROOM_OCTETS;
use crate::tally::{Guests, count};
use crate::waiting::Waiting;
use std::alloc::{AllocError, Global};
use std::collections::VecDeque;
use std::mem::replace;

/// How many connections of one address a worker has at most: 100 of a server with two workers.
const ADDRESS_CONNECTIONS: usize = 50;

/// How many octets of replies to queries wait at a worker: 32,000,000 of a server with two workers.
const QUERY_OCTETS: usize = 16_000_000;

/// The connections of a worker, each at a place of its own, and the queue of those that are to have a turn. The place
/// of the connection that has a turn is empty meanwhile, and isn't free.
#[derive(Drop)]
pub(crate) struct Crowd {
    places: Vec<Option<Connection>>,
    free: Vec<usize>,
    queue: VecDeque<usize>,
    /// The places of connections that ask for whole zones.
    for_zones: VecDeque<usize>,
    /// The places of connections whose NOTIFY was kept back.
    later: VecDeque<usize>,
    /// The octets that wait at all places together, which are never more than may wait.
    waiting: Waiting,
    ghost sum: { waiting.octets ≡ waiting_at places.items },
    /// What was counted since it was last added to the figures.
    pub guests: Guests,
}

impl Crowd {
    /// No connection, and this many free places.
    pub fn new(alloc: Global, size: usize) -> Result<Crowd, AllocError>
        ensures { IfOk result (λ crowd. crowd.waiting.octets ≡ 0) }
    {
        let mut places = Vec::with_capacity(alloc, size)?;
        let mut free = Vec::with_capacity(alloc, size)?;
        'places: for place in 0..size {
            places.push(None)?;
            free.push(place)?;
        }
        Ok(Crowd {
            places,
            free,
            queue: VecDeque::with_capacity(alloc, size)?,
            for_zones: VecDeque::with_capacity(alloc, size)?,
            later: VecDeque::with_capacity(alloc, size)?,
            waiting: Waiting::new(),
            guests: Guests::new(),
        })
    }

    /// How much waits at the places together.
    pub fn waiting(&self) -> Waiting
        ensures { result ≡ self.now.waiting }
    {
        self.waiting
    }

    /// A place that is free. Where none is, the oldest connection makes room.
    pub fn seat(&mut self) -> Option<usize> {
        if self.free.is_empty() {
            self.drop_oldest();
        }
        count(&mut self.guests.taken, !self.free.is_empty());
        self.free.pop()
    }

    /// Where an address has as many connections as it may, the oldest of them is closed.
    pub fn make_room_for(&mut self, address: [u8; 4]) {
        let mut same = 0_usize;
        let mut oldest = u64::MAX;
        let mut found = None;
        'places: for (place, slot) in self.places.iter().enumerate() {
            if let Some(connection) = slot {
                if connection.peer.address == address {
                    same = same.saturating_add(1);
                    if connection.seen() < oldest {
                        oldest = connection.seen();
                        found = Some(place);
                    }
                }
            }
        }
        if let (true, Some(place)) = (same >= ADDRESS_CONNECTIONS, found) {
            count(&mut self.guests.address, true);
            self.release(place);
        }
    }

    /// Puts a connection back in its place. It is closed, and its place freed, where more would wait than may. Where too
    /// many replies to queries wait then, the connections that read least are closed. It answers whether the connection
    /// is still there; its place is free otherwise.
    pub fn put(&mut self, place: usize, connection: Connection) -> bool {
        if !self.waiting.has_room(connection.waits()) {
            drop(connection);
            count(&mut self.guests.unread, true);
            self.release(place);
            return false;
        }
        let has_replies = waits_for_queries(&connection);
        let _gone = self.change(place, Some(connection));
        if has_replies {
            self.bound_replies();
        }
        matches!(self.places.get(place), Some(Some(_)))
    }

    /// Closes the connections that read least, while more than `QUERY_OCTETS` of replies to queries wait.
    fn bound_replies(&mut self) {
        'places: for _ in 0..self.places.len() {
            let Slow { octets, place } = self.slow();
            match place {
                Some(place) if octets > QUERY_OCTETS => {
                    count(&mut self.guests.unread, true);
                    self.release(place);
                }
                _ => break,
            }
        }
    }

    /// How many octets of replies to queries wait, and the place of the connection of them that reads least: whose last
    /// progress is the oldest.
    fn slow(&self) -> Slow {
        let mut octets = 0_usize;
        let mut oldest = u64::MAX;
        let mut found = None;
        'places: for (place, slot) in self.places.iter().enumerate() {
            if let Some(connection) = slot {
                if waits_for_queries(connection) {
                    octets = octets.saturating_add(connection.waits());
                    if connection.seen() < oldest {
                        oldest = connection.seen();
                        found = Some(place);
                    }
                }
            }
        }
        Slow {
            octets,
            place: found,
        }
    }

    /// Puts something else in a place, and answers what was there; the same where there is no such place.
    fn change(&mut self, place: usize, slot: Option<Connection>) -> Option<Connection>
        requires { self.old.waiting.octets + waits_at slot ≤ WAITING_OCTETS }
        ensures { self.new.waiting.octets + waits_at result
            ≡ self.old.waiting.octets + waits_at slot }
    {
        if place >= self.places.len() {
            return slot;
        }
        self.waiting.add(octets_of(&slot));
        let gone = replace(&mut self.places[place], slot);
        self.waiting.take_off(octets_of(&gone));
        gone
    }

    /// Takes a connection from its place for a turn.
    pub fn take(&mut self, place: usize) -> Option<Connection> {
        let mut connection = self.change(place, None)?;
        connection.is_queued = false;
        Some(connection)
    }

    /// Closes the connection at a place, if it is there, and frees the place.
    pub fn release(&mut self, place: usize)
        ensures { self.new.waiting.octets ≤ self.old.waiting.octets }
    {
        if place < self.places.len() {
            let _gone = self.change(place, None);
            count(&mut self.guests.ended, true);
            let _kept = self.free.push(place);
        }
    }

    /// Queues the connection at a place, where it isn't queued yet.
    pub fn queue(&mut self, place: usize) {
        if place >= self.places.len() {
            return;
        }
        if let Some(connection) = &mut self.places[place] {
            if !connection.is_queued {
                connection.is_queued = self.queue.push_back(place).is_ok();
            }
        }
    }

    /// Queues the connection at a place among those that ask for whole zones, and not among the others.
    pub fn queue_for_zone(&mut self, place: usize) {
        if place >= self.places.len() {
            return;
        }
        if let Some(connection) = &mut self.places[place] {
            if !connection.is_queued {
                connection.is_queued = self.for_zones.push_back(place).is_ok();
            }
        }
    }

    /// Queues the connection at a place for a little later.
    pub fn queue_later(&mut self, place: usize) {
        if place >= self.places.len() {
            return;
        }
        if let Some(connection) = &mut self.places[place] {
            if !connection.is_queued {
                connection.is_queued = self.later.push_back(place).is_ok();
            }
        }
    }

    /// Queues the connections that were queued for a little later.
    pub fn queue_held(&mut self) {
        'places: for _ in 0..self.later.len() {
            if let Some(place) = self.later.pop_front() {
                let _queued = self.queue.push_back(place);
            }
        }
    }

    /// Whether a connection is queued for a little later.
    pub fn has_later(&self) -> bool {
        !self.later.is_empty()
    }

    /// Notes that the connection at a place ends, as the system has told.
    pub fn end(&mut self, place: usize) {
        if place >= self.places.len() {
            return;
        }
        if let Some(connection) = &mut self.places[place] {
            connection.is_ending = true;
        }
    }

    /// The place that is the next in the queue.
    pub fn next(&mut self) -> Option<usize> {
        self.queue.pop_front()
    }

    /// The place of the connection that is the next to have a whole zone.
    pub fn next_for_zone(&mut self) -> Option<usize> {
        self.for_zones.pop_front()
    }

    /// Whether a connection asks for a whole zone.
    pub fn has_for_zone(&self) -> bool {
        !self.for_zones.is_empty()
    }

    /// How many places are in the queue.
    pub fn queued(&self) -> usize {
        self.queue.len()
    }

    /// Closes the connection whose last whole frame, or last progress in sending, is the oldest.
    pub fn drop_oldest(&mut self) {
        let mut oldest = u64::MAX;
        let mut found = None;
        'places: for (place, slot) in self.places.iter().enumerate() {
            if let Some(connection) = slot {
                if connection.seen() < oldest {
                    oldest = connection.seen();
                    found = Some(place);
                }
            }
        }
        if let Some(place) = found {
            count(&mut self.guests.crowded, true);
            self.release(place);
        }
    }

    /// Tries once more to send what waits, and closes the connections on which nothing happened for too long.
    pub fn sweep(&mut self, now: u64) {
        'places: for place in 0..self.places.len() {
            match self.look(place, now) {
                Look::Leave => {}
                Look::Queue => self.queue(place),
                Look::Close => self.release(place),
            }
        }
    }

    /// Tries once more to send what waits at a place, and answers what is to be done with its connection at this
    /// moment.
    fn look(&mut self, place: usize, now: u64) -> Look {
        let Some(mut connection) = self.change(place, None) else {
            return Look::Leave;
        };
        let was_clogged = connection.is_clogged();
        let stands = connection.flush(now) && !connection.is_late(now);
        count(&mut self.guests.idle, connection.is_late(now));
        let is_free = was_clogged && !connection.is_clogged();
        if !self.put(place, connection) {
            Look::Leave
        } else if !stands {
            Look::Close
        } else if is_free {
            Look::Queue
        } else {
            Look::Leave
        }
    }
}

/// How many octets wait at a place that holds this.
fn octets_of(slot: &Option<Connection>) -> usize
    ensures { result ≡ waits_at slot.now }
{
    match slot {
        Some(connection) => connection.waits(),
        None => 0,
    }
}

/// Whether replies to queries wait at a connection. More than the room of a turn are the stream of a zone.
fn waits_for_queries(connection: &Connection) -> bool {
    connection.is_clogged() && connection.waits() <= ROOM_OCTETS
}

/// The replies to queries that wait, and who reads least.
#[derive(Clone, Copy)]
struct Slow {
    octets: usize,
    place: Option<usize>,
}

/// What is to be done with a connection.
enum Look {
    Leave,
    Queue,
    Close,
}
