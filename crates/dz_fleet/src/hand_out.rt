//! Jobs that are handed out, and NOTIFY.

ghost use Rattle.std.specs.Prelude.{◌≡◌, ◌<◌, ◌^◌, nat_lt, Some, None, false, length, option_map, IfOk, IsSome};
ghost use Rattle.std.specs.List.{list_any};
ghost use Rattle.std.specs.Str.{bytes_eq};
ghost use Rattle.std.specs.Arc.{arc_value};
ghost use Rattle.dz_history.specs.State.{held_at, primaries_at};
ghost use Rattle.dz_fleet.specs.Quiet.{IsQuiet};
ghost use Rattle.dz_fleet.specs.Answers.{IsHanded};
ghost use Rattle.dz_fleet.specs.Values.{value_at};
ghost use Rattle.dz_fleet.specs.Core.{state_of, is_full, first_place, quiet_of, ask_of, primary_at, primaries_of};
ghost use Rattle.dz_fleet.specs.Core.{job_at, heard_of, after_notify};
ghost use Rattle.dz_fleet.specs.Answers.{IsDue};

use crate::due::{Due, Quiet};
use crate::fleet::Fleet;
use crate::flight::Flying;
use crate::places::{place_of, seat_at};
use dz_io::Peer;
use dz_job::{Flight, Job};
use dz_name::Name;
use dz_notify::Heard;
use dz_settings::{Key, Policy};
use dz_take::Ask;
use dz_zone::Version;
use std::alloc::AllocError;
use std::snapshot::Snapshot;
use std::sync::Arc;

/// How many jobs there are in flight at most.
pub(crate) const JOBS: usize = 16;

/// How many tickets there are.
pub(crate) const TICKETS: u64 = 18_446_744_073_709_551_614;

impl Fleet {
    /// Hands out the job of the zone that waits for the earliest moment, which is a number of seconds below 2^40.
    pub fn due(&mut self, now: u64) -> Due
        requires { now < 2 ^ 40 }
        ensures due { IsDue self.old now result self.new }
        ensures flying { IsHanded result self.new }
    {
        if self.is_full() {
            return Due::Full(self.quiet(now));
        }
        match self.schedule.first() {
            None => Due::Idle(self.quiet(now)),
            Some(place) => self.due_at(place, now),
        }
    }

    /// Whether no job is handed out, whatever is due.
    fn is_full(&self) -> bool
        ensures { result ≡ is_full self.now }
    {
        JOBS <= self.flying.len() || TICKETS <= self.tickets
    }

    /// Why no job is handed out.
    fn quiet(&self, now: u64) -> Quiet
        requires { IsQuiet (quiet_of self.now now) }
        ensures { result ≡ quiet_of self.now now }
    {
        let earliest = self.earliest();
        Quiet::new(
            self.holdings.count(),
            now,
            self.flying.len() as u8,
            self.tickets,
            earliest,
        )
    }

    /// The earliest moment for which a zone without a job in flight waits, in seconds; none where there is no such
    /// zone.
    fn earliest(&self) -> Option<u64>
        ensures { result ≡ option_map (λ place. (value_at self.now.values place).timing.next)
            (first_place self.now) }
    {
        match self.schedule.first() {
            Some(place) => Some(self.schedule.at(place).next()),
            None => None,
        }
    }

    /// Hands out the job of the zone at the first place, if it is due.
    fn due_at(&mut self, place: usize, now: u64) -> Due
        requires first { first_place self.old ≡ Some place }
        requires room { is_full self.old ≡ false }
        requires moment { now < 2 ^ 40 }
        ensures due { IsDue self.old now result self.new }
        ensures flying { IsHanded result self.new }
    {
        if now < self.schedule.at(place).next() {
            return Due::Idle(self.quiet(now));
        }
        match self.job_at(place, now) {
            Err(_) => Due::OutOfMemory,
            Ok(job) => self.hand_out(place, job),
        }
    }

    /// The job of the zone at a place. `AllocError` where memory runs out.
    fn job_at(&self, place: usize, now: u64) -> Result<Job, AllocError>
        requires place { place < length self.now.values }
        requires room { is_full self.now ≡ false }
        requires moment { now < 2 ^ 40 }
        ensures { IfOk result (λ job. job ≡ job_at self.now now place) }
    {
        let values = self.schedule.at(place);
        let (zone, incarnation) = seat_at(&self.holdings, place);
        let held = shared(self.holdings.held(&zone))?;
        let key = copied(self.holdings.key(&zone));
        let ticket = self.tickets + 1;
        let flight = Flight {
            ticket,
            zone,
            incarnation,
            ask: ask_of(&held, values.is_whole()),
            id: (ticket % 65_536) as u16,
            primary: self.primary(&zone, values.turn()),
            moment: now,
            entries: self.holdings.count(),
        };
        let job = Job::new(flight, held, key);
        Ok(prepared(job, self.holdings.policy(&zone)))
    }

    /// The primary of this number.
    fn primary(&self, zone: &Name, turn: u8) -> Peer
        requires there { IsSome (primaries_at (state_of self.now) zone.now) }
        requires turn { turn < primaries_of (state_of self.now) zone.now }
        ensures { result ≡ primary_at (primaries_at (state_of self.now) zone.now) turn }
    {
        match self.holdings.primaries(zone) {
            Some(peers) => peers.as_slice()[turn as usize],
            None => unreachable!(),
        }
    }

    /// Puts a job in flight, which is that of the zone at the first place.
    fn hand_out(&mut self, place: usize, job: Job) -> Due
        requires first { first_place self.old ≡ Some place }
        requires room { is_full self.old ≡ false }
        requires due { nat_lt job.flight.moment (value_at self.old.values place).timing.next
            ≡ false }
        requires job { job ≡ job_at self.old job.flight.moment place }
        ensures due { IsDue self.old job.flight.moment result self.new }
        ensures flying { IsHanded result self.new }
    {
        let flying = Flying {
            flight: *job.flight(),
            held: Snapshot::of(job.shared()),
            key: Snapshot::of(job.shared_key()),
            ended: None,
        };
        match self.flying.push(flying) {
            Ok(()) => {
                let values = self.schedule.at(place).departed();
                self.schedule.change(place, values);
                self.tickets += 1;
                Due::Job(job)
            }
            Err(_) => {
                job.close();
                Due::OutOfMemory
            }
        }
    }

    /// Hears a NOTIFY of a zone from a peer (RFC 1996 section 3.11).
    pub fn notify(&mut self, peer: &Peer, zone: &Name) -> Heard
        ensures heard { result ≡ heard_of self.old peer.now zone.now }
        ensures core { self.new ≡ after_notify self.old zone.now result }
    {
        let heard = self.hear(peer, zone);
        if let Heard::Taken = heard {
            self.wake(zone);
        }
        heard
    }

    /// How a NOTIFY of a zone from a peer is heard.
    fn hear(&self, peer: &Peer, zone: &Name) -> Heard
        ensures { result ≡ heard_of self.now peer.now zone.now }
    {
        match self.holdings.primaries(zone) {
            None => Heard::NotOurs,
            Some(peers) => {
                if has_address(peers.as_slice(), peer) {
                    Heard::Taken
                } else {
                    Heard::Stranger
                }
            }
        }
    }

    /// Makes a zone due at once, or as soon as its job in flight ends.
    fn wake(&mut self, zone: &Name)
        ensures { self.new ≡ after_notify self.old zone.now Heard.Taken }
    {
        if let Some(place) = place_of(&self.holdings, zone) {
            let values = self.schedule.at(place).notified();
            self.schedule.change(place, values);
        }
    }
}

/// Whether one of these peers has the address of a peer.
fn has_address(peers: &[Peer], peer: &Peer) -> bool
    ensures { result ≡ list_any (λ p. bytes_eq p.address peer.now.address) peers.now }
{
    peers.iter().any(|p| p.address == peer.address)
}

/// The same version, shared. `AllocError` where memory runs out.
fn shared(held: Option<&Arc<Version>>) -> Result<Option<Arc<Version>>, AllocError>
    ensures { IfOk result (λ version. option_map arc_value version
        ≡ option_map (λ r. r.now.value) held.entry) }
{
    match held {
        None => Ok(None),
        Some(version) => Ok(Some(Arc::try_clone(version)?)),
    }
}

/// A copy of the key.
fn copied(key: Option<&Key>) -> Option<Key>
    ensures { result ≡ option_map (λ r. r.now) key.entry }
{
    match key {
        None => None,
        Some(key) => Some(*key),
    }
}

/// Which form a job asks for: the whole zone where none is held or where it is wanted, and otherwise differences.
fn ask_of(held: &Option<Arc<Version>>, whole: bool) -> Ask
    ensures { result ≡ ask_of (option_map arc_value held.now) whole }
{
    match held {
        None => Ask::Axfr,
        Some(_) => { if whole { Ask::Axfr } else { Ask::Ixfr } }
    }
}

/// A job of a zone with this policy: one that asks for digests has them computed as its transfer ends.
fn prepared(job: Job, policy: Option<Policy>) -> Job
    ensures { result ≡ job }
{
    match policy {
        None | Some(Policy::Off) => job,
        Some(Policy::Present | Policy::Require) => job.digesting(),
    }
}
