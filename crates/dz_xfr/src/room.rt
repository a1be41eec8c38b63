//! How much memory the records of a transfer may take.

ghost use Rattle.std.specs.Prelude.{◌≡◌, ◌-◌, ◌≤◌, not, nat_lt, is_ok, OnOk, OnErr};
ghost use Rattle.std.specs.List.{fold};
ghost use Rattle.dz_xfr.specs.Room.{weight, given, left_after};

use dz_record::Rr;
use std::alloc::AllocError;
use std::marker::Model;

/// How many records are kept at most: twice as many as a zone may have.
pub const KEPT_RECORDS: usize = 500_000;

/// How many octets the records that are kept may take.
pub const KEPT_OCTETS: u64 = 290_000_000;

/// How many octets a record takes beside its own: the counts and lengths of its allocations, and its place in lists.
const BESIDE_OCTETS: u64 = 128;

/// How many octets are left for the records of a transfer. A message can make far more octets of records than it has
/// itself, since names are compressed in it.
#[derive(Debug, Drop)]
pub struct Room {
    left: u64,
}

impl Model for Room {
    ghost use Rattle.std.specs.Prelude.{ℕ, ◌≤◌};
    ghost use Rattle.dz_xfr.specs.declared.room.TheConstants.{KEPT_OCTETS};

    ghost Value = { ℕ };

    ghost view = { λ r. r.left };

    ghost invariant = { λ r. r.left ≤ KEPT_OCTETS };
}

impl Room {
    /// Room for [`KEPT_OCTETS`].
    pub fn whole() -> Room
        ensures { result ≡ KEPT_OCTETS }
    {
        Room { left: KEPT_OCTETS }
    }

    /// Takes what a record weighs. The error is that so much isn't left.
    pub fn take(&mut self, found: &Rr) -> Result<(), AllocError>
        ensures fits { is_ok result ≡ not (nat_lt self.old (weight found.now)) }
        ensures taken { OnOk result (self.new ≡ self.old - weight found.now) }
        ensures kept { OnErr result (self.new ≡ self.old) }
    {
        let weight = weight(found);
        if self.left < weight {
            return Err(AllocError);
        }
        self.left -= weight;
        Ok(())
    }

    /// Takes what all of these records weigh. The error is that so much isn't left.
    pub fn take_all(&mut self, records: &[Rr]) -> Result<(), AllocError>
        ensures { OnOk result (self.new ≡ left_after self.old records.now) }
    {
        'records: for found in records {
            self.take(found)?;
        }
        Ok(())
    }

    /// Gives back what a record weighs, up to the whole.
    pub fn give(&mut self, found: &Rr)
        ensures { self.new ≡ given self.old found.now }
    {
        let weight = weight(found);
        self.left = if KEPT_OCTETS - self.left < weight {
            KEPT_OCTETS
        } else {
            self.left + weight
        };
    }
}

/// What a record weighs: its octets, and what it takes beside them.
fn weight(found: &Rr) -> u64
    ensures { result ≡ weight found.now }
{
    found.octets().len() as u64 + BESIDE_OCTETS
}
