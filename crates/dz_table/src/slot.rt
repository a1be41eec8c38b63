//! What is held of a zone.

ghost use Rattle.std.specs.Prelude.{◌≡◌, ◌<◌, ◌^◌, IfOk, option_map};
ghost use Rattle.std.specs.Option.{ForSome};
ghost use Rattle.std.specs.Arc.{arc_value};
ghost use Rattle.std.specs.List.{All};
ghost use Rattle.dz_record.specs.Record.{IsRecord};
ghost use Rattle.dz_table.specs.Slot.{SlotOf, IsSlot, is_live};

use dz_chunks::{Keyed, Share};
use dz_keys::ZoneKey;
use dz_name::{KeptName, Name, NameRef};
use dz_steps::Steps;
use dz_zone::Version;
use std::alloc::{AllocError, Global};
use std::cmp::Ordering;
use std::marker::Model;
use std::sync::Arc;
use std::sync::ledger::Ledger;

/// What is held of a zone: its name, the moment of its last refresh in seconds, below 2^40, and its version, if there
/// is one. A version's apex is the zone. Slots may share a version.
#[derive(Debug, Drop)]
pub struct Slot {
    refreshed: u64,
    version: Option<Arc<Version>>,
    zone: KeptName,
}

impl Model for Slot {
    ghost use Rattle.std.specs.Prelude.{option_map};
    ghost use Rattle.std.specs.Arc.{arc_value};
    ghost use Rattle.dz_table.specs.Slot.{SlotOf, IsSlot};

    ghost Value = { SlotOf };

    ghost view = { λ s. record {
      zone = s.zone;
      refreshed = s.refreshed;
      version = option_map arc_value s.version;
    } };

    ghost invariant = { λ s. IsSlot
        record {
          zone = s.zone;
          refreshed = s.refreshed;
          version = option_map arc_value s.version;
        } };
}

impl Slot {
    /// The slot of these parts.
    ///
    /// # Errors
    ///
    /// `AllocError` where there is no memory for a long name.
    pub fn new(
        alloc: Global,
        zone: &Name,
        refreshed: u64,
        version: Option<Arc<Version>>,
    ) -> Result<Slot, AllocError>
        requires moment { refreshed < 2 ^ 40 }
        requires apex { ForSome version (λ v. v.value.apex ≡ zone.now) }
        ensures { IfOk result (λ slot. slot
            ≡ record {
              zone = zone.now;
              refreshed = refreshed;
              version = option_map arc_value version;
            }) }
    {
        Ok(Slot {
            zone: KeptName::of(alloc, &zone.as_ref())?,
            refreshed,
            version,
        })
    }

    /// The name of the zone.
    pub fn zone(&self) -> NameRef<'_>
        ensures { result ≡ self.now.zone }
    {
        self.zone.as_ref()
    }

    /// The moment of the last refresh in seconds, below 2^40.
    pub fn refreshed(&self) -> u64
        ensures { result ≡ self.now.refreshed }
    {
        self.refreshed
    }

    /// The version, whose apex is the zone; none where none is held.
    pub fn version(&self) -> Option<&Version>
        ensures version { option_map (λ r. r.now) result ≡ self.now.version }
        ensures valid { IsSlot self.now }
        ensures held { ForSome self.now.version (λ v. All IsRecord v.records) }
    {
        Version::shared(&self.version)
    }

    /// The version as slots share it: a clone of the handle is one more owner of the same records.
    pub fn shared_version(&self) -> Option<&Arc<Version>>
        ensures version { option_map (λ r. r.now.value) result ≡ self.now.version }
        ensures valid { IsSlot self.now }
    {
        self.version.as_ref()
    }

    /// The same slot, refreshed at another moment in seconds, below 2^40. It shares the version. The error is out of
    /// memory.
    pub fn refreshed_at(&self, moment: u64) -> Result<Slot, AllocError>
        requires { moment < 2 ^ 40 }
        ensures { IfOk result (λ s. s ≡ record self.now { refreshed = moment }) }
    {
        let mut slot = self.share()?;
        slot.refreshed = moment;
        Ok(slot)
    }

    /// Whether the version may answer at a moment in seconds: one is held, and fewer than EXPIRE seconds have passed
    /// since its last refresh (RFC 1035 section 3.3.13).
    pub fn is_live(&self, moment: u64) -> bool
        ensures { result ≡ is_live self.now moment }
    {
        match self.version() {
            None => false,
            Some(version) => dz_timer::is_live(self.refreshed, version.soa().expire, moment),
        }
    }
}

impl Share for Slot {
    /// A copy of the slot. It shares the version, so no record is copied. The error is out of memory.
    fn share(&self) -> Result<Slot, AllocError> {
        let version = match &self.version {
            None => None,
            Some(version) => Some(Arc::try_clone(version)?),
        };
        Ok(Slot {
            zone: self.zone.try_clone()?,
            refreshed: self.refreshed,
            version,
        })
    }
}

impl Keyed<ZoneKey> for Slot {
    ghost key = { λ slot. slot.zone };

    /// The key of the slot's zone.
    fn key(&self) -> ZoneKey {
        ZoneKey::of(&self.zone().to_name())
    }

    /// How the slot's zone compares in canonical order with the zone that is asked for. It is one step.
    fn compare<L: Ledger>(&self, asked: &ZoneKey, steps: &mut Steps<L>) -> Ordering {
        steps.tick();
        self.zone().canonical_cmp(&asked.zone().as_ref())
    }
}
