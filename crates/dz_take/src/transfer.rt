//! A transfer that was asked for.

ghost use Rattle.std.specs.Prelude.{◌≡◌, option_map};
ghost use Rattle.std.specs.Arc.{arc_value};
ghost use Rattle.dz_take.specs.Form.{base_of};
ghost use Rattle.dz_take.specs.Taken.{IsOfZone, IsTransfer, CanAsk};

use crate::ask::Ask;
use dz_name::Name;
use dz_zone::Version;
use std::marker::Model;
use std::sync::Arc;

/// A transfer: the zone, the form that was asked for, the ID of the query, and the version that is held, which is
/// shared.
#[derive(Debug, Drop)]
pub(crate) struct Transfer {
    apex: Name,
    ask: Ask,
    id: u16,
    held: Option<Arc<Version>>,
}

impl Model for Transfer {
    ghost use Rattle.std.specs.Prelude.{option_map};
    ghost use Rattle.std.specs.Arc.{arc_value};
    ghost use Rattle.dz_take.specs.Transfer.{Transfer};
    ghost use Rattle.dz_take.specs.Taken.{IsTransfer};

    ghost Value = { Transfer };

    ghost view = { λ t. record {
      apex = t.apex;
      ask = t.ask;
      id = t.id;
      held = option_map arc_value t.held;
    } };

    ghost invariant = { λ t. IsTransfer
        record { apex = t.apex; ask = t.ask; id = t.id; held = option_map arc_value t.held } };
}

impl Transfer {
    /// The transfer of these parts. A held version is of the zone, and where none is held only the whole zone is asked
    /// for.
    pub fn new(apex: Name, ask: Ask, id: u16, held: Option<Arc<Version>>) -> Transfer
        requires held { IsOfZone apex (option_map arc_value held) }
        requires asks { CanAsk ask (option_map arc_value held) }
        ensures { result ≡ record {
          apex = apex;
          ask = ask;
          id = id;
          held = option_map arc_value held;
        } }
    {
        Transfer {
            apex,
            ask,
            id,
            held,
        }
    }

    /// The apex of the zone.
    pub fn apex(&self) -> &Name
        ensures { result.now ≡ self.now.apex }
    {
        &self.apex
    }

    /// What was asked for.
    pub fn ask(&self) -> Ask
        ensures { result ≡ self.now.ask }
    {
        self.ask
    }

    /// The ID of the query.
    pub fn id(&self) -> u16
        ensures { result ≡ self.now.id }
    {
        self.id
    }

    /// The held version, which is of the zone, as it is shared.
    pub fn shared(&self) -> Option<&Arc<Version>>
        ensures held { option_map (λ r. r.now.value) result ≡ self.now.held }
        ensures valid { IsTransfer self.now }
    {
        self.held.as_ref()
    }

    /// The held version, which is of the zone.
    pub fn held(&self) -> Option<&Version>
        ensures held { option_map (λ r. r.now) result ≡ self.now.held }
        ensures valid { IsTransfer self.now }
    {
        match &self.held {
            None => None,
            Some(version) => Some(&**version),
        }
    }

    /// The version that differences lead on from, where they were asked for, as it is shared.
    pub fn base(&self) -> Option<&Arc<Version>>
        ensures held { option_map (λ r. r.now.value) result ≡ base_of self.now.ask self.now.held }
        ensures valid { IsTransfer self.now }
    {
        let held = self.shared();
        match self.ask {
            Ask::Axfr => None,
            Ask::Ixfr => held,
        }
    }
}
