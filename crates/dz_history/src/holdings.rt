//! What is assigned and held after a list of taken transfers.

ghost use Rattle.std.specs.Prelude.{◌≡◌, Some, None, length, option_map, IfOk};
ghost use Rattle.std.specs.Option.{option_and_then, ForSome};
ghost use Rattle.std.specs.Arc.{arc_value};
ghost use Rattle.dz_take.specs.Taken.{IsOfZone};
ghost use Rattle.dz_settings.specs.Config.{IsAllowed};
ghost use Rattle.dz_member.specs.Fold.{IsFold};
ghost use Rattle.dz_settings.specs.Key.{IsKey};
ghost use Rattle.dz_history.specs.State.{opened, catalog_at, incarnation_at, held_at, key_at, policy_at, primaries_at};
ghost use Rattle.dz_history.specs.State.{stands, IsState};

use crate::held::{Held, nothing_held, share_all};
use dz_member::Fold;
use dz_name::Name;
use dz_settings::{Config, Key, Peers, Policy};
use dz_table::Table;
use dz_zone::Version;
use std::alloc::{AllocError, Global};
use std::marker::Model;
use std::sync::Arc;

/// What is assigned and held after a list of taken transfers: the members of the catalogs, the version of each catalog
/// and each member, and how many entries the list has. It never changes: a transfer makes a new one, which shares all
/// but what the transfer changes.
#[derive(Drop)]
pub struct Holdings {
    pub(crate) fold: Arc<Fold>,
    pub(crate) versions: Vec<Held>,
    /// For each catalog the version that its last unbroken listing was read from.
    pub(crate) sources: Vec<Held>,
    pub(crate) table: Arc<Table>,
    pub(crate) count: u64,
}

impl Model for Holdings {
    ghost use Rattle.dz_history.specs.State.{State};
    ghost use Rattle.dz_history.specs.inner.Processed.{AreHoldings};

    ghost Value = { State };

    ghost view = { λ h. record {
      fold = h.fold.value;
      versions = h.versions.items;
      table = h.table.value;
      count = h.count;
    } };

    ghost invariant = { λ h. AreHoldings
        record {
          fold = h.fold.value;
          versions = h.versions.items;
          table = h.table.value;
          count = h.count;
        } h.sources.items };
}

impl Holdings {
    /// What a configuration alone gives: its catalogs, without versions. `AllocError` where memory runs out.
    pub fn start(alloc: Global, config: Config) -> Result<Holdings, AllocError>
        requires { IsAllowed config }
        ensures opened { IfOk result (λ h. h ≡ opened config) }
        ensures state { IfOk result IsState }
    {
        let count = config.catalogs().len();
        let versions = nothing_held(alloc, count)?;
        let sources = nothing_held(alloc, count)?;
        let fold = Fold::start(alloc, config)?;
        Ok(Holdings {
            fold: Arc::new(alloc, fold)?,
            versions,
            sources,
            table: Arc::new(alloc, Table::empty(alloc))?,
            count: 1,
        })
    }

    /// The same holdings, with all of their parts shared. `AllocError` where memory runs out.
    pub fn share(&self, alloc: Global) -> Result<Holdings, AllocError>
        ensures { IfOk result (λ h. h ≡ self.now) }
    {
        Ok(Holdings {
            fold: Arc::try_clone(&self.fold)?,
            versions: share_all(alloc, self.versions.as_slice())?,
            sources: share_all(alloc, self.sources.as_slice())?,
            table: Arc::try_clone(&self.table)?,
            count: self.count,
        })
    }

    /// The members and the listings.
    pub fn fold(&self) -> &Fold
        ensures fold { result.now ≡ self.now.fold }
        ensures state { IsState self.now }
    {
        &self.fold
    }

    /// The table of the members, which answers.
    pub fn table(&self) -> &Arc<Table>
        ensures { result.now.value ≡ self.now.table }
    {
        &self.table
    }

    /// How many entries there are, the configuration included.
    pub fn count(&self) -> u64
        ensures { result ≡ self.now.count }
    {
        self.count
    }

    /// The incarnation of a zone, which is 0 for a catalog; none where the zone is neither a catalog nor a member.
    pub fn incarnation(&self, zone: &Name) -> Option<u64>
        ensures { result ≡ incarnation_at self.now zone.now }
    {
        match self.fold.catalog_number(zone) {
            Some(_) => Some(0),
            None => match self.fold.find(zone) {
                Some(member) => Some(member.incarnation()),
                None => None,
            },
        }
    }

    /// Whether an incarnation of a zone is current.
    pub fn stands(&self, zone: &Name, incarnation: u64) -> bool
        ensures { result ≡ stands self.now zone.now incarnation }
    {
        match self.incarnation(zone) {
            Some(standing) => standing == incarnation,
            None => false,
        }
    }

    /// The version that is held of a zone, as it is shared.
    pub fn held(&self, zone: &Name) -> Option<&Arc<Version>>
        ensures held { option_map (λ r. r.now.value) result ≡ held_at self.now zone.now }
        ensures own { IsOfZone zone.now (held_at self.now zone.now) }
        ensures state { IsState self.now }
    {
        match self.fold.catalog_number(zone) {
            Some(number) => self.versions[number].version(),
            None => match self.table.get(zone) {
                Some(slot) => slot.shared_version(),
                None => None,
            },
        }
    }

    /// The policy that holds for a zone: a catalog's own, and for a member that of its group, or else its catalog's.
    pub fn policy(&self, zone: &Name) -> Option<Policy>
        ensures { result ≡ policy_at self.now zone.now }
    {
        match self.fold.catalog_number(zone) {
            Some(number) => Some(self.fold.settings(number).policy),
            None => match self.fold.place_of(zone) {
                Some(place) => Some(self.fold.policy(place)),
                None => None,
            },
        }
    }

    /// The primaries of a zone: a catalog's own, and for a member those of its group, or else its catalog's.
    pub fn primaries(&self, zone: &Name) -> Option<&Peers>
        ensures { option_map (λ r. r.now) result ≡ primaries_at self.now zone.now }
    {
        match self.fold.catalog_number(zone) {
            Some(number) => Some(&self.fold.settings(number).primaries),
            None => match self.fold.place_of(zone) {
                Some(place) => Some(self.fold.primaries(place)),
                None => None,
            },
        }
    }

    /// The key that transfers of a zone are signed with: that of its catalog, if the catalog has one.
    pub fn key(&self, zone: &Name) -> Option<&Key>
        ensures key { option_map (λ r. r.now) result ≡ key_at self.now zone.now }
        ensures usable { ForSome (key_at self.now zone.now) IsKey }
    {
        match self.fold.catalog_number(zone) {
            Some(number) => self.fold.settings(number).key.as_ref(),
            None => match self.fold.place_of(zone) {
                Some(place) => self.fold.key(place),
                None => None,
            },
        }
    }
}
