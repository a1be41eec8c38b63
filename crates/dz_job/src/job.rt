//! Jobs.

ghost use Rattle.std.specs.Prelude.{◌≡◌, ◌==◌, option_map};
ghost use Rattle.std.specs.Option.{ForSome};
ghost use Rattle.std.specs.Arc.{arc_value};
ghost use Rattle.dz_settings.specs.Key.{IsKey};
ghost use Rattle.dz_job.specs.Job.{IsJob, IsReady};

use crate::flight::Flight;
use dz_io::Peer;
use dz_name::Name;
use dz_settings::Key;
use dz_take::Ask;
use dz_zone::Version;
use std::marker::Model;
use std::sync::Arc;

/// A job: the transfer of a zone from one of its primaries. It is used up when it is settled or fails, or by
/// [`Job::close`].
#[derive(Debug)]
pub struct Job {
    flight: Flight,
    held: Option<Arc<Version>>,
    key: Option<Key>,
    pub(crate) is_digesting: bool,
}

impl Model for Job {
    ghost use Rattle.std.specs.Prelude.{option_map};
    ghost use Rattle.std.specs.Arc.{arc_value};
    ghost use Rattle.dz_job.specs.Job.{JobOf, IsReady};

    ghost Value = { JobOf };

    ghost view = { λ j. record { flight = j.flight; held = option_map arc_value j.held; key = j.key } };

    ghost invariant = { λ j. IsReady
        record { flight = j.flight; held = option_map arc_value j.held; key = j.key } };
}

impl Job {
    /// The job of these parts.
    pub fn new(flight: Flight, held: Option<Arc<Version>>, key: Option<Key>) -> Job
        requires { IsReady record { flight = flight; held = option_map arc_value held; key = key } }
        ensures { result ≡ record { flight = flight; held = option_map arc_value held; key = key } }
    {
        Job {
            flight,
            held,
            key,
            is_digesting: false,
        }
    }

    /// The same job, whose new version is hashed as its transfer ends ([`crate::finish_taking`]) and not where it is
    /// judged: for a zone whose policy asks for digests.
    pub fn digesting(self) -> Job
        ensures { result ≡ self }
    {
        let Job {
            flight,
            held,
            key,
            is_digesting: _,
        } = self;
        Job {
            flight,
            held,
            key,
            is_digesting: true,
        }
    }

    /// What it asks for. Its key can be used.
    pub fn flight(&self) -> &Flight
        ensures flight { result.now ≡ self.now.flight }
        ensures ready { IsReady self.now }
    {
        &self.flight
    }

    /// The number of the job, from 1.
    pub fn ticket(&self) -> u64
        ensures { result ≡ self.now.flight.ticket }
    {
        self.flight.ticket
    }

    /// The zone.
    pub fn zone(&self) -> &Name
        ensures { result.now ≡ self.now.flight.zone }
    {
        &self.flight.zone
    }

    /// The position of the entry that the zone began by; 0 for a catalog.
    pub fn incarnation(&self) -> u64
        ensures { result ≡ self.now.flight.incarnation }
    {
        self.flight.incarnation
    }

    /// What is asked for.
    pub fn ask(&self) -> Ask
        ensures { result ≡ self.now.flight.ask }
    {
        self.flight.ask
    }

    /// The ID of the query.
    pub fn id(&self) -> u16
        ensures { result ≡ self.now.flight.id }
    {
        self.flight.id
    }

    /// The version that was held as the job was handed out, which is of the zone. Where there is none the whole zone is
    /// asked for.
    pub fn held(&self) -> Option<&Arc<Version>>
        ensures held { option_map (λ r. r.now.value) result ≡ self.now.held }
        ensures valid { IsJob self.now }
    {
        self.held.as_ref()
    }

    /// The primary that is asked.
    pub fn primary(&self) -> &Peer
        ensures { result.now ≡ self.now.flight.primary }
    {
        &self.flight.primary
    }

    /// The moment of the job in seconds, below 2^40.
    pub fn moment(&self) -> u64
        ensures moment { result ≡ self.now.flight.moment }
        ensures valid { IsJob self.now }
    {
        self.flight.moment
    }

    /// The key that the query is signed with.
    pub fn key(&self) -> Option<&Key>
        ensures key { option_map (λ r. r.now) result ≡ self.now.key }
        ensures usable { ForSome self.now.key IsKey }
    {
        self.key.as_ref()
    }

    /// The key as it is kept.
    pub fn shared_key(&self) -> &Option<Key>
        ensures { result.now ≡ self.now.key }
    {
        &self.key
    }

    /// The version that was held, as it is kept.
    pub fn shared(&self) -> &Option<Arc<Version>>
        ensures { option_map arc_value result.now ≡ self.now.held }
    {
        &self.held
    }

    /// Drops a job that no event will end.
    pub fn close(self) {
        let Job {
            flight: _,
            held,
            key,
            is_digesting: _,
        } = self;
        drop(held);
        drop(key);
    }
}
