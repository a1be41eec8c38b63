//! Jobs that are this core's, and those that aren't.

ghost use Rattle.std.specs.Prelude.{◌≡◌, ◌↔◌, ◌==◌, None, IsTrue, IfSome};
ghost use Rattle.std.specs.List.{list_any};
ghost use Rattle.dz_fleet.specs.Absence.{absent_of};
ghost use Rattle.dz_fleet.specs.Sound.{IsFlying, IsGiven, IsSound};
ghost use Rattle.dz_fleet.specs.inner.Same.{same_ask, same_peer, same_query, same_number, same_flight};

use crate::fleet::Fleet;
use crate::flight::Flying;
use dz_io::Peer;
use dz_job::{Flight, Job};
use dz_take::Ask;
use std::marker::Model;

/// Why a job isn't a fleet's.
#[derive(Clone, Copy, Debug)]
pub struct Absent {
    count: u64,
    ticket: u64,
    differs: bool,
}

impl Model for Absent {
    ghost use Rattle.dz_fleet.specs.Absence.{AbsentOf};

    ghost Value = { AbsentOf };

    ghost view = { λ a. record { count = a.count; ticket = a.ticket; differs = a.differs } };

    ghost inverse = { λ a. record { count = a.count; ticket = a.ticket; differs = a.differs } };
}

impl Absent {
    /// How many entries the list has.
    pub fn count(&self) -> u64
        ensures { result ≡ self.now.count }
    {
        self.count
    }

    /// The number of the job, from 1.
    pub fn ticket(&self) -> u64
        ensures { result ≡ self.now.ticket }
    {
        self.ticket
    }

    /// Whether a job in flight has this number, and so differs from this one in something else.
    pub fn differs(&self) -> bool
        ensures { result ≡ self.now.differs }
    {
        self.differs
    }
}

impl Fleet {
    /// Whether a job in flight agrees with this one in all that it asks for. Of one that this list handed out nothing
    /// else can differ: its version is the one that its zone held at the number of entries that it names.
    pub fn is_in_flight(&self, job: &Job) -> bool
        requires given { IsSound self.now → IsGiven self.now.list job.now }
        ensures { IsTrue result ↔ IsFlying self.now job.now }
    {
        is_among(&self.flying, job.flight())
    }

    /// Why a job isn't this fleet's; none exactly where it is.
    pub fn absence(&self, job: &Job) -> Option<Absent>
        requires given { IsSound self.now → IsGiven self.now.list job.now }
        ensures none { (result ≡ None) ↔ IsFlying self.now job.now }
        ensures absent { IfSome result (λ a. a ≡ absent_of self.now job.now) }
        ensures sound { IsSound self.now }
    {
        let _ = &self.flying;
        if self.is_in_flight(job) {
            None
        } else {
            Some(self.absent(job))
        }
    }

    /// Why a job that isn't this fleet's is absent from it.
    fn absent(&self, job: &Job) -> Absent
        ensures { result ≡ absent_of self.now job.now }
    {
        Absent {
            count: self.count(),
            ticket: job.ticket(),
            differs: has_ticket(&self.flying, job.ticket()),
        }
    }
}

/// Whether one of these jobs has a number.
fn has_ticket(flying: &[Flying], ticket: u64) -> bool
    ensures { result ≡ list_any (λ f. f.flight.ticket == ticket) flying.now }
{
    flying.iter().any(|f| f.flight.ticket == ticket)
}

/// Whether one of these jobs asks for the same.
fn is_among(flying: &[Flying], flight: &Flight) -> bool
    ensures { result ≡ list_any (λ f. same_flight f.flight flight.now) flying.now }
{
    flying.iter().any(|f| same_flight(&f.flight, flight))
}

/// Whether two jobs have one number, one length of the list, one incarnation of a zone and one query.
fn same_flight(a: &Flight, b: &Flight) -> bool
    ensures { result ≡ same_flight a.now b.now }
{
    same_number(a, b) && a.zone == b.zone && a.incarnation == b.incarnation && same_query(a, b)
}

/// Whether two jobs have one number, and were handed out by lists of one length.
fn same_number(a: &Flight, b: &Flight) -> bool
    ensures { result ≡ same_number a.now b.now }
{
    a.ticket == b.ticket && a.entries == b.entries
}

/// Whether two jobs ask the same primary for the same at the same moment, with the same ID.
fn same_query(a: &Flight, b: &Flight) -> bool
    ensures { result ≡ same_query a.now b.now }
{
    same_ask(a.ask, b.ask)
        && a.id == b.id
        && same_peer(&a.primary, &b.primary)
        && a.moment == b.moment
}

/// Whether two jobs ask for the same form.
fn same_ask(a: Ask, b: Ask) -> bool
    ensures { result ≡ same_ask a b }
{
    match (a, b) {
        (Ask::Axfr, Ask::Axfr) => true,
        (Ask::Ixfr, Ask::Ixfr) => true,
        _ => false,
    }
}

/// Whether two peers have the same address and port.
fn same_peer(a: &Peer, b: &Peer) -> bool
    ensures { result ≡ same_peer a.now b.now }
{
    a.address == b.address && a.port == b.port
}
