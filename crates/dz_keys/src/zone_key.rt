//! Zones as the keys of a map.

ghost use Rattle.std.specs.Prelude.{◌≡◌, refl};
ghost use Rattle.std.specs.Ordering.{as_partial_cmp};
ghost use Rattle.dz_name.specs.Name.{canonical_order, same_name};
ghost use Rattle.dz_name.specs.Order.{canonical_total, canonical_same, names_equal, names_partly_equal, names_ordered};
ghost use Rattle.dz_name.specs.Order.{same_ties};
ghost use Rattle.dz_index.specs.SortKey.{key_of};
ghost use Rattle.dz_index.specs.Lead.{lead_of};
ghost use Rattle.dz_index.proofs.LeadLemmas.{lead_decides};

use dz_chunks::Lead;
use dz_index::{LEAD, SortKey, lead_of};
use dz_name::Name;
use std::cmp::Ordering;
use std::marker::Model;

/// What a map of zones is asked with: a zone after the first octets of its sort key, by which the map tells most zones
/// apart. Contracts see the zone.
#[derive(Clone, Copy)]
pub struct ZoneKey {
    lead: [u8; LEAD],
    zone: Name,
}

impl Model for ZoneKey {
    ghost use Rattle.std.specs.Prelude.{◌≡◌};
    ghost use Rattle.std.proofs.Common.{sym, ap};
    ghost use Rattle.dz_name.specs.Words.{Name};
    ghost use Rattle.dz_index.specs.SortKey.{key_of};
    ghost use Rattle.dz_index.specs.Lead.{lead_of};

    ghost Value = { Name };

    ghost view = { λ k. k.zone };

    ghost invariant = { λ k. k.lead ≡ lead_of 16 (key_of k.zone) };

    ghost inverse = { λ zone. record { lead = lead_of 16 (key_of zone); zone = zone } };

    ghost inverse_ok = { λ k h. ap (λ lead. record { lead = lead; zone = k.zone }) (sym h) };
}

impl ZoneKey {
    /// The key of a zone.
    pub fn of(zone: &Name) -> ZoneKey
        ensures { result ≡ zone.now }
    {
        let key = SortKey::of(&zone.as_ref());
        ZoneKey {
            lead: lead_of(key.octets()),
            zone: *zone,
        }
    }

    /// The zone.
    pub fn zone(&self) -> &Name
        ensures { result.now ≡ self.now }
    {
        &self.zone
    }
}

impl PartialEq for ZoneKey {
    ghost eq = { same_name };

    ghost laws = { names_partly_equal };

    /// Whether the zones are the same name.
    fn eq(&self, other: &ZoneKey) -> bool {
        self.zone.same(&other.zone)
    }
}

impl Eq for ZoneKey {
    ghost laws = { names_equal };
}

impl PartialOrd for ZoneKey {
    ghost partial_cmp = { as_partial_cmp canonical_order };

    ghost laws = { names_ordered };

    /// The canonical order of the zones; any two compare.
    fn partial_cmp(&self, other: &ZoneKey) -> Option<Ordering> {
        Some(self.cmp(other))
    }
}

impl Ord for ZoneKey {
    ghost cmp = { canonical_order };

    ghost total = { canonical_total };

    ghost matches_partial_cmp = { λ a b. refl };

    ghost matches_eq = { same_ties };

    /// The canonical order of the zones.
    fn cmp(&self, other: &ZoneKey) -> Ordering {
        self.zone.canonical_cmp(&other.zone)
    }
}

impl Lead for ZoneKey {
    ghost lead = { λ zone. lead_of 16 (key_of zone) };

    ghost decides = { lead_decides };

    ghost one = { canonical_same };

    /// The first octets of the zone's sort key.
    fn lead(&self) -> [u8; LEAD] {
        self.lead
    }
}
