//! The core of the server.

ghost use Rattle.std.specs.Prelude.{◌≡◌, ◌≤◌, [], ◌∷◌, length, replicate, IfOk, option_map};
ghost use Rattle.std.specs.Option.{ForSome};
ghost use Rattle.dz_take.specs.Taken.{IsOfZone};
ghost use Rattle.dz_settings.specs.Config.{IsAllowed};
ghost use Rattle.dz_history.specs.State.{IsState, opened, held_at};
ghost use Rattle.dz_history.specs.declared.entry.Entry.TheVariants.{Setup};
ghost use Rattle.dz_timer.specs.Values.{fresh};
ghost use Rattle.dz_fleet.specs.Core.{Core, state_of, opened_core};
ghost use Rattle.dz_fleet.specs.Sound.{IsSound};
ghost use Rattle.dz_fleet.specs.Last.{last_of, IsRefreshed};
ghost use Rattle.dz_fleet.specs.inner.Kept.{IsSetup};

use crate::flight::Flying;
use dz_history::{Entry, History, Holdings};
use dz_member::Fold;
use dz_name::Name;
use dz_settings::Config;
use dz_table::Table;
use dz_timer::{Schedule, Values};
use dz_zone::Version;
use std::alloc::{AllocError, Global};
use std::marker::Model;
use std::snapshot::Snapshot;
use std::sync::Arc;

/// The core: the list of taken transfers, of which what it assigns and holds is kept; the jobs in flight; and what each
/// zone waits for. Contracts see the list, and each call is one event.
#[derive(Drop)]
pub struct Fleet {
    pub(crate) holdings: Holdings,
    pub(crate) schedule: Schedule,
    pub(crate) flying: Vec<Flying>,
    pub(crate) history: History,
    pub(crate) tickets: u64,
    // what is known of the last transfer
    pub(crate) last: Option<Last>,
}

/// The zone and the moment of the last transfer.
#[derive(Clone, Copy, Debug)]
pub struct Last {
    pub zone: Name,
    /// The moment of its job in seconds.
    pub moment: u64,
}

impl Model for Fleet {
    ghost use Rattle.std.specs.Prelude.{◌≡◌};
    ghost use Rattle.dz_fleet.specs.Core.{Core};
    ghost use Rattle.dz_fleet.specs.inner.Kept.{core_in, IsKept};
    ghost use Rattle.dz_fleet.specs.Last.{last_of};

    ghost Value = { Core };

    ghost view = { λ f. core_in f.history f.tickets f.flying.items f.schedule };

    ghost invariant = { λ f. IsKept f.holdings f.history f.tickets f.flying.items f.schedule × (f.last ≡ last_of f.history) };
}

impl Fleet {
    /// The core of a configuration: the list has the one entry, and each catalog is due. `AllocError` where memory runs
    /// out.
    pub fn start(alloc: Global, config: Config) -> Result<Fleet, AllocError>
        requires { IsAllowed config }
        ensures { IfOk result (λ f. f ≡ opened_core config) }
    {
        let schedule = beginning(alloc, config.catalogs().len())?;
        let entry = Entry::Setup(config);
        let history = listed(&entry);
        let holdings = Holdings::start(alloc, config_of(entry))?;
        Ok(Fleet {
            holdings,
            schedule,
            flying: Vec::with_capacity(alloc, 16)?,
            history,
            tickets: 0,
            last: None,
        })
    }

    /// The table of the members, which answers.
    pub fn table(&self) -> &Table
        ensures { result.now ≡ (state_of self.now).table }
    {
        self.holdings.table()
    }

    /// The same table, as it is shared.
    pub fn shared_table(&self) -> &Arc<Table>
        ensures { result.now.value ≡ (state_of self.now).table }
    {
        self.holdings.table()
    }

    /// The zone and the moment of the last entry, where it is a transfer.
    pub fn last(&self) -> Option<&Last>
        ensures last { option_map (λ r. r.now) result ≡ last_of self.now.list }
        ensures refreshed { ForSome (last_of self.now.list) (IsRefreshed (state_of self.now)) }
    {
        self.last.as_ref()
    }

    /// The members and the listings.
    pub fn fold(&self) -> &Fold
        ensures fold { result.now ≡ (state_of self.now).fold }
        ensures state { IsState (state_of self.now) }
    {
        self.holdings.fold()
    }

    /// The version that is held of a zone, as it is shared.
    pub fn held(&self, zone: &Name) -> Option<&Arc<Version>>
        ensures held { option_map (λ r. r.now.value) result ≡ held_at (state_of self.now) zone.now }
        ensures own { IsOfZone zone.now (held_at (state_of self.now) zone.now) }
    {
        self.holdings.held(zone)
    }

    /// How many entries the list has.
    pub fn count(&self) -> u64
        ensures count { result ≡ length self.now.list }
        ensures sound { IsSound self.now }
    {
        self.holdings.count()
    }
}

/// The list that has a configuration alone.
fn listed(entry: &Entry) -> History
    ensures { result ≡ entry.now ∷ [] }
{
    History::new().and(Snapshot::of(entry))
}

/// The configuration of the first entry.
fn config_of(entry: Entry) -> Config
    requires { IsSetup entry }
    ensures { Setup result ≡ entry }
{
    match entry {
        Entry::Setup(config) => config,
        Entry::Transfer(taken) => {
            drop(taken);
            unreachable!()
        }
    }
}

/// What the given number of zones that begin wait for. `AllocError` where memory runs out.
fn beginning(alloc: Global, count: usize) -> Result<Schedule, AllocError>
    requires { count ≤ 8 }
    ensures { IfOk result (λ schedule. schedule ≡ replicate count fresh) }
{
    let mut values = Vec::with_capacity(alloc, count)?;
    'zones: for _place in 0..count {
        values.push(Values::fresh())?;
    }
    Schedule::over(alloc, values)
}
