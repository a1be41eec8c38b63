//! Where the record of each kept zone is.

ghost use Rattle.std.specs.Prelude.{◌≡◌, ℕ, List, IfOk};
ghost use Rattle.std.specs.BTreeMap.{keys};
ghost use Rattle.dz_store.specs.inner.Places.{places};

use crate::head::{forgotten_of, is_kept, zone_of};
use crate::read::kept_of;
use dz_disk::RecordIndex;
use dz_name::Name;
use std::alloc::{AllocError, Global};
use std::collections::BTreeMap;

/// The most octets of a payload: the first octet, two names, a label preceded by its length, a moment and a stream.
pub(crate) const MOST: u64 = 67_109_447;

/// Where a record is: the place of its gate, and how many octets its payload has.
#[derive(Clone, Copy, Debug, PartialEq, Eq)]
pub(crate) struct Place {
    pub(crate) at: u64,
    pub(crate) size: u64,
}

/// The places of the records that count, by their zones.
#[derive(Drop)]
pub(crate) struct Places {
    entries: BTreeMap<Name, Place>,
}

impl Places {
    /// Where the record that counts for a zone is.
    pub(crate) fn find(&self, zone: &Name) -> Option<Place>
        ensures { (list : List (List ℕ)) → ⟦<Places as RecordIndex>⟧.is_of self.now list
            → result ≡ (places zone.now list).place }
    {
        self.entries.get(zone).copied()
    }

    /// The kept zones, in canonical order. `AllocError` where memory runs out.
    pub(crate) fn zones(&self, alloc: Global) -> Result<Vec<Name>, AllocError>
        ensures { IfOk result (λ v. v.items ≡ keys self.now.entries) }
    {
        self.entries.keys().copied().collect(alloc)
    }
}

impl RecordIndex for Places {
    ghost use Rattle.std.specs.Prelude.{◌≡◌};
    ghost use Rattle.std.specs.BTreeMap.{get};
    ghost use Rattle.dz_name.specs.Words.{Name};
    ghost use Rattle.dz_name.specs.Name.{canonical_order};
    ghost use Rattle.dz_store.specs.Payload.{reads};
    ghost use Rattle.dz_store.specs.inner.Places.{places};
    ghost use Rattle.dz_store.specs.inner.Short.{short};
    ghost use Rattle.dz_store.specs.declared.places.TheConstants.{MOST};

    ghost reads = { reads };

    ghost most = { MOST };

    ghost is_of = { λ i list. (zone : Name)
        → get canonical_order i.entries zone ≡ (places zone list).place };

    /// No places.
    fn empty(alloc: Global) -> Places {
        Places {
            entries: BTreeMap::new(alloc),
        }
    }

    /// The most octets of a payload.
    fn longest() -> u64 {
        MOST
    }

    /// Whether a payload can be read: whether it is written of a kept or a forgotten zone. `AllocError` where memory
    /// runs out.
    fn is_payload(alloc: Global, payload: &[u8]) -> Result<bool, AllocError> {
        if MOST < payload.len() as u64 {
            return Ok(false);
        }
        if forgotten_of(payload).is_some() {
            return Ok(true);
        }
        Ok(kept_of(alloc, payload)?.is_some())
    }

    /// Notes the place of a payload that was added, or that its zone is forgotten. `AllocError` where memory runs out.
    fn add(&mut self, _alloc: Global, payload: &[u8], at: u64) -> Result<(), AllocError> {
        let Some(zone) = zone_of(payload) else {
            return Ok(());
        };
        if is_kept(payload) {
            let place = Place {
                at,
                size: payload.len() as u64,
            };
            self.entries.insert(zone, place)?;
        } else {
            self.entries.remove(&zone);
        }
        Ok(())
    }

    ghost is_most = { short };
}
