//! What a transfer makes of what is assigned and held.

ghost use Rattle.std.specs.Prelude.{◌≡◌, ◌<◌, ◌+◌, ◌^◌, Some, length, IfOk, IsSome};
ghost use Rattle.dz_member.specs.Membership.{settings_at};
ghost use Rattle.dz_member.specs.Process.{changes};
ghost use Rattle.dz_name.specs.Words.{Name};
ghost use Rattle.dz_take.specs.Outcome.{outcome};
ghost use Rattle.dz_take.specs.Transfer.{up_to_date, new, refused};
ghost use Rattle.dz_take.specs.Taken.{meaning_of};
ghost use Rattle.dz_table.specs.Table.{put, slot_of};
ghost use Rattle.dz_history.specs.declared.aftermath.Aftermath.TheVariants.{Changes};
ghost use Rattle.dz_history.specs.State.{catalog_at, incarnation_at, IsState};
ghost use Rattle.dz_history.specs.After.{taken, catalog_after, member_after, aftermath_of, catalog_aftermath, counted};
ghost use Rattle.dz_history.specs.After.{with_version};
ghost use Rattle.dz_history.specs.inner.Processed.{AreProcessed};

use crate::aftermath::Aftermath;
use crate::held::{share_all, with_version};
use crate::holdings::Holdings;
use crate::processed::{Processed, Relisting};
use crate::table_after::table_after;
use dz_name::Name;
use dz_table::{Slot, Table};
use dz_take::{Finished, Outcome};
use dz_zone::Version;
use std::alloc::{AllocError, Global};
use std::sync::Arc;

impl Holdings {
    /// What is assigned and held after a transfer of an assigned zone, which began at this moment in seconds, and what
    /// else its new version changes. The holdings that it is called on stay as they are.
    ///
    /// # Errors
    ///
    /// `AllocError` where memory runs out.
    pub fn take(
        &self,
        alloc: Global,
        finished: &Finished,
        moment: u64,
    ) -> Result<(Holdings, Aftermath), AllocError>
        requires assigned { IsSome (incarnation_at self.now finished.now.transfer.apex) }
        requires moment { moment < 2 ^ 40 }
        requires room { self.now.count + 1 < 2 ^ 64 }
        ensures state { IfOk result (λ r. r.0
            ≡ taken self.now finished.now.transfer.apex moment
            (outcome finished.now.transfer finished.now.octets)) }
        ensures aftermath { IfOk result (λ r. r.1
            ≡ aftermath_of self.now finished.now.transfer.apex
            (outcome finished.now.transfer finished.now.octets)) }
    {
        let zone = finished.apex();
        match finished.outcome() {
            Outcome::UpToDate => Ok((self.refreshed(alloc, zone, moment)?, Aftermath::Member)),
            Outcome::New(version) => self.take_version(alloc, zone, moment, version),
            Outcome::Refused(_) => Ok((self.share(alloc)?.counted(), Aftermath::Member)),
        }
    }

    /// What is assigned and held after a new version of a zone. `AllocError` where memory runs out.
    fn take_version(
        &self,
        alloc: Global,
        zone: &Name,
        moment: u64,
        version: &Arc<Version>,
    ) -> Result<(Holdings, Aftermath), AllocError>
        requires own { version.now.value.apex ≡ zone.now }
        requires assigned { IsSome (incarnation_at self.now zone.now) }
        requires moment { moment < 2 ^ 40 }
        requires room { self.now.count + 1 < 2 ^ 64 }
        ensures state { IfOk result (λ r. r.0
            ≡ taken self.now zone.now moment (new version.now.value)) }
        ensures aftermath { IfOk result (λ r. r.1
            ≡ aftermath_of self.now zone.now (new version.now.value)) }
    {
        let version = Arc::try_clone(version)?;
        match self.fold.catalog_number(zone) {
            Some(number) => self.take_catalog(alloc, number, zone, version),
            None => {
                let slot = Slot::new(alloc, zone, moment, Some(version))?;
                Ok((self.with_slot(alloc, slot)?.counted(), Aftermath::Member))
            }
        }
    }

    /// What is assigned and held after a new version of a catalog. `AllocError` where memory runs out.
    fn take_catalog(
        &self,
        alloc: Global,
        number: usize,
        catalog: &Name,
        version: Arc<Version>,
    ) -> Result<(Holdings, Aftermath), AllocError>
        requires number { catalog_at self.now catalog.now ≡ Some number }
        requires own { version.value.apex ≡ catalog.now }
        requires room { self.now.count + 1 < 2 ^ 64 }
        ensures state { IfOk result (λ r. r.0
            ≡ counted (catalog_after self.now number catalog.now (new version.value))) }
        ensures aftermath { IfOk result (λ r. r.1
            ≡ catalog_aftermath self.now catalog.now (new version.value)) }
    {
        match self.processed(alloc, number, &version)? {
            Processed::Broken(reason) => {
                let holding = self.with_version(alloc, number, version)?;
                Ok((holding.counted(), Aftermath::Broken(reason)))
            }
            Processed::Listed(relisting) => self.relisted(alloc, number, version, relisting),
        }
    }

    /// The same with another version of a catalog. `AllocError` where memory runs out.
    fn with_version(
        &self,
        alloc: Global,
        number: usize,
        version: Arc<Version>,
    ) -> Result<Holdings, AllocError>
        requires number { number < length self.now.fold.config }
        requires own { version.value.apex ≡ (settings_at self.now.fold.config number).name }
        ensures { IfOk result (λ h. h ≡ with_version self.now number version.value) }
    {
        Ok(Holdings {
            fold: Arc::try_clone(&self.fold)?,
            versions: with_version(alloc, self.versions.as_slice(), number, version)?,
            sources: share_all(alloc, self.sources.as_slice())?,
            table: Arc::try_clone(&self.table)?,
            count: self.count,
        })
    }

    /// What is assigned and held after a new version of a catalog, of which this came. `AllocError` where memory runs
    /// out.
    fn relisted(
        &self,
        alloc: Global,
        number: usize,
        version: Arc<Version>,
        relisting: Relisting,
    ) -> Result<(Holdings, Aftermath), AllocError>
        requires number { catalog_at self.now version.value.apex ≡ Some number }
        requires processed { AreProcessed self.now version.value relisting }
        requires room { self.now.count + 1 < 2 ^ 64 }
        ensures state { IfOk result (λ r. r.0
            ≡ counted (catalog_after self.now number version.value.apex (new version.value))) }
        ensures aftermath { IfOk result (λ r. r.1
            ≡ catalog_aftermath self.now version.value.apex (new version.value)) }
    {
        let Relisting { fold, changes } = relisting;
        let _ = &self.table;
        let table = table_after(alloc, self, &fold, &changes)?;
        let source = Arc::try_clone(&version)?;
        let holdings = Holdings {
            fold: Arc::new(alloc, fold)?,
            versions: with_version(alloc, self.versions.as_slice(), number, version)?,
            sources: with_version(alloc, self.sources.as_slice(), number, source)?,
            table,
            count: self.count + 1,
        };
        Ok((holdings, Aftermath::Changes(changes)))
    }

    /// What is assigned and held after a transfer that found the version that is held. `AllocError` where memory runs
    /// out.
    fn refreshed(&self, alloc: Global, zone: &Name, moment: u64) -> Result<Holdings, AllocError>
        requires assigned { IsSome (incarnation_at self.now zone.now) }
        requires moment { moment < 2 ^ 40 }
        requires room { self.now.count + 1 < 2 ^ 64 }
        ensures { IfOk result (λ h. h ≡ taken self.now zone.now moment up_to_date) }
    {
        match self.fold.catalog_number(zone) {
            Some(_) => Ok(self.share(alloc)?.counted()),
            None => self.member_refreshed(alloc, zone, moment),
        }
    }

    /// The same where the zone is a member: it was refreshed at this moment in seconds. `AllocError` where memory runs
    /// out.
    fn member_refreshed(
        &self,
        alloc: Global,
        zone: &Name,
        moment: u64,
    ) -> Result<Holdings, AllocError>
        requires moment { moment < 2 ^ 40 }
        requires room { self.now.count + 1 < 2 ^ 64 }
        ensures { IfOk result (λ h. h
            ≡ counted (member_after self.now zone.now moment up_to_date)) }
    {
        match self.table.get(zone) {
            None => Ok(self.share(alloc)?.counted()),
            Some(slot) => {
                let slot = slot.refreshed_at(moment)?;
                Ok(self.with_slot(alloc, slot)?.counted())
            }
        }
    }

    /// The same with another slot of a member. `AllocError` where memory runs out.
    fn with_slot(&self, alloc: Global, slot: Slot) -> Result<Holdings, AllocError>
        requires { IsSome (slot_of slot.zone self.now.table) }
        ensures { IfOk result (λ h. h ≡ record self.now { table = put self.now.table slot }) }
    {
        let table = self.table.with_slot(alloc, slot)?;
        Ok(Holdings {
            fold: Arc::try_clone(&self.fold)?,
            versions: share_all(alloc, self.versions.as_slice())?,
            sources: share_all(alloc, self.sources.as_slice())?,
            table: Arc::new(alloc, table)?,
            count: self.count,
        })
    }

    /// The same one entry later.
    fn counted(mut self) -> Holdings
        requires { self.count + 1 < 2 ^ 64 }
        ensures { result ≡ counted self }
    {
        self.count += 1;
        self
    }
}
