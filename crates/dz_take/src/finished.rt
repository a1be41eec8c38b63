//! A transfer that was read.

ghost use Rattle.std.specs.Prelude.{◌≡◌, length, option_map};
ghost use Rattle.dz_take.specs.Outcome.{outcome, octets_used};
ghost use Rattle.dz_take.specs.Taken.{IsTransfer, meaning_of, standing_of};

use crate::ask::Ask;
use crate::outcome::Outcome;
use crate::transfer::Transfer;
use dz_name::{Name, Octets};
use dz_zone::Version;
use dz_zonemd::{Standing, standing};
use std::marker::Model;
use std::sync::Arc;

/// A transfer that was read, and what came of it. Contracts see the transfer and the octets that were read: its outcome
/// is that of these octets, and no octets follow those that decide it. What the ZONEMD records of a new version say is
/// kept where it was computed.
#[derive(Debug, Drop)]
pub struct Finished {
    transfer: Transfer,
    octets: Octets,
    outcome: Outcome,
    standing: Option<Standing>,
}

impl Model for Finished {
    ghost use Rattle.dz_take.specs.Taken.{Taken, IsFinished};

    ghost Value = { Taken };

    ghost view = { λ f. record { transfer = f.transfer; octets = f.octets } };

    ghost invariant = { λ f. IsFinished f.transfer f.octets f.outcome f.standing };
}

impl Finished {
    /// A transfer of which these octets were read, with what came of it.
    pub(crate) fn new(transfer: Transfer, octets: Octets, came: Outcome) -> Finished
        requires outcome { meaning_of came ≡ outcome transfer octets }
        requires used { octets_used transfer octets ≡ length octets }
        ensures { result ≡ record { transfer = transfer; octets = octets } }
    {
        Finished {
            transfer,
            octets,
            outcome: came,
            standing: None,
        }
    }

    /// The same, with what the ZONEMD records of a new version say (RFC 8976 section 4) computed and kept, so that
    /// [`Finished::standing`] hashes nothing more.
    pub fn digested(self) -> Finished
        ensures { result ≡ self }
    {
        let Finished {
            transfer,
            octets,
            outcome,
            standing: _,
        } = self;
        let standing = standing_of(&outcome);
        Finished {
            transfer,
            octets,
            outcome,
            standing,
        }
    }

    /// The zone.
    pub fn apex(&self) -> &Name
        ensures { result.now ≡ self.now.transfer.apex }
    {
        self.transfer.apex()
    }

    /// What was asked for.
    pub fn ask(&self) -> Ask
        ensures { result ≡ self.now.transfer.ask }
    {
        self.transfer.ask()
    }

    /// The ID of the query.
    pub fn id(&self) -> u16
        ensures { result ≡ self.now.transfer.id }
    {
        self.transfer.id()
    }

    /// The version that was held as the transfer began, as it is shared.
    pub fn held(&self) -> Option<&Arc<Version>>
        ensures held { option_map (λ r. r.now.value) result ≡ self.now.transfer.held }
        ensures valid { IsTransfer self.now.transfer }
    {
        self.transfer.shared()
    }

    /// The octets that were read: the messages, each preceded by its length. All of them are used.
    pub fn octets(&self) -> &Octets
        ensures octets { result.now ≡ self.now.octets }
        ensures used { octets_used self.now.transfer self.now.octets ≡ length self.now.octets }
    {
        &self.octets
    }

    /// The octets that were read, by value. All of them are used.
    pub fn into_octets(self) -> Octets
        ensures octets { result ≡ self.octets }
        ensures used { octets_used self.transfer self.octets ≡ length self.octets }
    {
        self.octets
    }

    /// What came of the transfer.
    pub fn outcome(&self) -> &Outcome
        ensures { meaning_of result.now ≡ outcome self.now.transfer self.now.octets }
    {
        &self.outcome
    }

    /// What the ZONEMD records of the new version say of it (RFC 8976 section 4); none exactly where the outcome is no
    /// new version. Unless [`Finished::digested`] has computed it, the version is hashed here.
    pub fn standing(&self) -> Option<Standing>
        ensures { result ≡ standing_of (outcome self.now.transfer self.now.octets) }
    {
        match self.standing {
            Some(standing) => Some(standing),
            None => standing_of(&self.outcome),
        }
    }
}

/// What the ZONEMD records of a new version say of it.
fn standing_of(came: &Outcome) -> Option<Standing>
    ensures { result ≡ standing_of (meaning_of came.now) }
{
    match came {
        Outcome::New(version) => Some(standing(&version.apex().to_name(), version.records())),
        _ => None,
    }
}
