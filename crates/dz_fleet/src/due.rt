//! What is due.

ghost use Rattle.std.specs.Prelude.{◌≡◌};
ghost use Rattle.dz_fleet.specs.Quiet.{QuietOf, IsQuiet};

use dz_job::Job;
use std::marker::Model;

/// What is due.
#[derive(Debug)]
pub enum Due {
    /// A job.
    Job(Job),
    /// No zone is due.
    Idle(Quiet),
    /// No job is handed out, whatever is due: 16 are in flight, or no ticket is left.
    Full(Quiet),
    OutOfMemory,
}

/// Why no job was handed out.
#[derive(Clone, Copy, Debug)]
pub struct Quiet {
    count: u64,
    moment: u64,
    in_flight: u8,
    drawn: u64,
    earliest: Option<u64>,
}

impl Model for Quiet {
    ghost use Rattle.dz_fleet.specs.Quiet.{QuietOf, IsQuiet};

    ghost Value = { QuietOf };

    ghost view = { λ q. record {
      count = q.count;
      moment = q.moment;
      in_flight = q.in_flight;
      drawn = q.drawn;
      earliest = q.earliest;
    } };

    ghost invariant = { λ q. IsQuiet
        record {
          count = q.count;
          moment = q.moment;
          in_flight = q.in_flight;
          drawn = q.drawn;
          earliest = q.earliest;
        } };

    ghost inverse = { λ q. record {
      count = q.count;
      moment = q.moment;
      in_flight = q.in_flight;
      drawn = q.drawn;
      earliest = q.earliest;
    } };
}

impl Quiet {
    /// Why no job was handed out, of these parts; moments are in seconds.
    pub(crate) fn new(
        count: u64,
        moment: u64,
        in_flight: u8,
        drawn: u64,
        earliest: Option<u64>,
    ) -> Quiet
        requires { IsQuiet record {
          count = count;
          moment = moment;
          in_flight = in_flight;
          drawn = drawn;
          earliest = earliest;
        } }
        ensures { result ≡ record {
          count = count;
          moment = moment;
          in_flight = in_flight;
          drawn = drawn;
          earliest = earliest;
        } }
    {
        Quiet {
            count,
            moment,
            in_flight,
            drawn,
            earliest,
        }
    }

    /// How many entries the list has.
    pub fn count(&self) -> u64
        ensures { result ≡ self.now.count }
    {
        self.count
    }

    /// The moment that was asked at, in seconds.
    pub fn moment(&self) -> u64
        ensures { result ≡ self.now.moment }
    {
        self.moment
    }

    /// How many jobs are in flight.
    pub fn in_flight(&self) -> u8
        ensures { result ≡ self.now.in_flight }
    {
        self.in_flight
    }

    /// How many tickets were handed out.
    pub fn drawn(&self) -> u64
        ensures { result ≡ self.now.drawn }
    {
        self.drawn
    }

    /// The earliest moment for which a zone without a job in flight waits; none where there is no such zone.
    pub fn earliest(&self) -> Option<u64>
        ensures earliest { result ≡ self.now.earliest }
        ensures quiet { IsQuiet self.now }
    {
        self.earliest
    }
}
