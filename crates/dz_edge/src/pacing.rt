//! Which NOTIFYs are delivered, and when.
ghost use Rattle.std.specs.Prelude.{◌≤◌, length, vec_len, IfSome};

use crate::paced::{Key, Paced, key_of};
use crate::quota::Quota;
use dz_io::Peer;
use std::alloc::{AllocError, Global};
use std::collections::BTreeMap;

/// How many sources and questions are kept.
const PLACES: usize = 4096;

/// How many sources are known at most.
const SOURCES: usize = 4096;

/// How many NOTIFYs of a known source are delivered in a second.
const KNOWN: u64 = 100;

/// How many NOTIFYs of all other sources together are delivered in a second.
const STRANGERS: u64 = 16;

/// The moment that never comes.
pub(crate) const NEVER: u64 = u64::MAX;

/// The NOTIFYs of the last sources and questions, which are delivered by three rules:
///
/// - of one source and question one in a second; the last that came meanwhile waits until the second is over;
/// - of a known source 100 in a second; the others wait. A source is known once it was dialled, or a NOTIFY of it was
///   taken;
/// - of all other sources together 16 in a second; the others are dropped.
///
/// Moments are milliseconds since the host began.
#[derive(Drop)]
pub(crate) struct Pacing {
    places: Vec<Paced>,
    ghost bounded: { vec_len places ≤ 4096 },
    found: BTreeMap<Key, usize>,
    /// The place that is taken next once all are taken: the oldest.
    oldest: usize,
    /// The place at which the next search for one that is due begins.
    turn: usize,
    known: BTreeMap<u32, Quota>,
    strangers: Quota,
}

impl Pacing {
    /// No source is known, and none has sent a NOTIFY.
    pub fn new(alloc: Global) -> Pacing {
        Pacing {
            places: Vec::new(alloc),
            found: BTreeMap::new(alloc),
            oldest: 0,
            turn: 0,
            known: BTreeMap::new(alloc),
            strangers: Quota::new(),
        }
    }

    /// A source is known from now on, where there is room for it.
    pub fn know(&mut self, source: u32) {
        if self.known.len() < SOURCES && self.known.get(&source).is_none() {
            let _known = self.known.insert(source, Quota::new());
        }
    }

    /// Whether a source is known.
    pub fn is_known(&self, source: u32) -> bool {
        self.known.get(&source).is_some()
    }

    /// The first moment at which one more may be delivered from a source, whatever its question.
    pub fn opens(&self, source: u32) -> u64 {
        match self.known.get(&source) {
            Some(quota) => quota.opens(KNOWN),
            None => self.strangers.opens(STRANGERS),
        }
    }

    /// The place of a source and question, or a new one, for which the oldest goes where all are taken; none where
    /// memory runs out.
    pub fn place_of(&mut self, peer: &Peer, packet: &[u8]) -> Option<usize> {
        let key = key_of(peer, packet);
        if let Some(place) = self.found.get(&key) {
            return Some(*place);
        }
        let place = self.new_place(key).ok()?;
        self.found.insert(key, place).ok()?;
        Some(place)
    }

    /// A place for a source and question that has none.
    fn new_place(&mut self, key: Key) -> Result<usize, AllocError> {
        let count = self.places.len();
        if count < PLACES {
            self.places.push(Paced::new(key))?;
            return Ok(count);
        }
        let place = self.oldest % PLACES;
        self.oldest = (place + 1) % PLACES;
        self.found.remove(&self.places[place].key);
        self.places[place] = Paced::new(key);
        Ok(place)
    }

    /// Whether one may be delivered at a place now.
    pub fn is_open(&self, place: usize, now: u64) -> bool {
        self.moment(place) <= now
    }

    /// The first moment at which one may be delivered at a place; never where there is no such place.
    fn moment(&self, place: usize) -> u64 {
        match self.places.get(place) {
            Some(paced) => paced.due().max(self.opens(paced.source())),
            None => NEVER,
        }
    }

    /// One waits at a place, whose turn comes at this moment.
    pub fn hold(&mut self, place: usize, peer: &Peer, packet: &[u8]) -> u64 {
        let moment = self.moment(place);
        match self.places.get_mut(place) {
            Some(paced) => {
                paced.hold(peer, packet);
                moment
            }
            None => NEVER,
        }
    }

    /// Counts that one is delivered at a place now.
    pub fn deliver(&mut self, place: usize, now: u64) {
        if let Some(paced) = self.places.get_mut(place) {
            paced.deliver(now);
            match self.known.get_mut(&paced.source()) {
                Some(quota) => quota.count(now),
                None => self.strangers.count(now),
            }
        }
    }

    /// The one that waits at a place is copied to the beginning of the buffer, and counted as delivered now: how many
    /// octets it has, and its peer.
    pub fn take(&mut self, place: usize, now: u64, buffer: &mut [u8]) -> Option<(usize, Peer)>
        ensures { IfSome result (λ found. found.0 ≤ length buffer.new) }
    {
        self.deliver(place, now);
        Some(self.places.get_mut(place)?.take(buffer))
    }

    /// The next place in turn at which one waits that may be delivered now. Where there is none, the first moment at
    /// which there is one of those that wait.
    pub fn next(&mut self, now: u64) -> Result<usize, u64> {
        let count = self.places.len();
        let mut soonest = NEVER;
        'places: for step in 0..count {
            let ahead = self.turn.saturating_add(step);
            let place = if ahead < count {
                ahead
            } else {
                ahead.saturating_sub(count)
            };
            if self.waits(place) {
                let moment = self.moment(place);
                if moment <= now {
                    self.turn = place.saturating_add(1) % PLACES;
                    return Ok(place);
                }
                soonest = soonest.min(moment);
            }
        }
        Err(soonest)
    }

    /// Whether one waits at a place.
    fn waits(&self, place: usize) -> bool {
        match self.places.get(place) {
            Some(paced) => paced.waits(),
            None => false,
        }
    }
}
