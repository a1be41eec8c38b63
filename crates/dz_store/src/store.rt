//! Zones kept on a disk.

ghost use Rattle.std.specs.Prelude.{◌≡◌, ◌⊎◌, ◌+◌, ◌<◌, ◌≤◌, ◌^◌, [], ◌∷◌, ◌++◌, ℕ, List, Some, Err, option_map};
ghost use Rattle.std.specs.Prelude.{false, true, length, IfOk, OnOk, IfErr, IsErrOf};
ghost use Rattle.std.specs.Arc.{arc_value};
ghost use Rattle.dz_io.specs.Counts.{HasRisen};
ghost use Rattle.dz_disk.specs.Disk.{IsQuiet, IsSure, Leaves};
ghost use Rattle.dz_disk.specs.RecordLog.{limit, log, records, ArePayloads, IsLeft, IsPayload, Joins, MayLeaveOnly};
ghost use Rattle.dz_outward.specs.Stream.{is_fit};
ghost use Rattle.dz_name.specs.Name.{IsName};
ghost use Rattle.dz_store.specs.Kept.{CanBeKept, forgotten, meaning_of, payload_of};
ghost use Rattle.dz_store.specs.Payload.{reads};
ghost use Rattle.dz_store.specs.Store.{kept, HasFailed, KeepsSame};
ghost use Rattle.dz_store.specs.declared.places.TheConstants.{MOST};

use crate::copy::copy_all;
use crate::count::counting;
use crate::fault::StoreFault;
use crate::kept::Kept;
use crate::payload;
use crate::places::Places;
use crate::read::kept_of;
use dz_disk::{Disk, RecordLog};
use dz_name::Name;
use std::alloc::Global;
use std::marker::Model;

/// Zones kept on a disk: a list of records, each of a kept or a forgotten zone. In memory it has where the record of
/// each kept zone is. Contracts see the disk, whose file has the list.
#[derive(Drop)]
pub struct Store<D: Disk + Drop> {
    log: RecordLog<D, Places>,
}

impl<D: Disk + Drop> Model for Store<D> {
    ghost use Rattle.dz_store.specs.Store.{StoreOf, store_of};

    ghost Value = { StoreOf D };

    ghost view = { λ s. store_of s.log };
}

impl<D: Disk + Drop> Store<D> {
    /// Opens a file that a crash may have left; any file will do. Its list stays as it is.
    ///
    /// # Errors
    ///
    /// `DiskFault` where a call of the disk failed, `Full` where the records end past 2^40 octets, `OutOfMemory` where
    /// memory runs out.
    pub fn open(alloc: Global, disk: D) -> Result<Store<D>, StoreFault>
        ensures opens { IfOk result (λ s. (f : List ℕ) → D.file disk ≡ Some f
            → (g : List ℕ) × (D.file s.disk ≡ Some g) × (records reads g ≡ records reads f)
            × IsSure g (D.may_leave s.disk)) }
        ensures able { IfOk result (λ s. s.has_failed ≡ false) }
        ensures crash { IfOk result (λ s. (list : List (List ℕ)) (last f : List ℕ)
            → D.file disk ≡ Some f → ArePayloads reads list → IsPayload reads last
            → MayLeaveOnly list last (D.may_leave disk)
            → Leaves D.clock D.left_from disk s.disk (IsLeft list last)) }
        ensures faults { IfOk result (λ s. D.faults s.disk ≡ D.faults disk) }
        // the disk got into a state in which its count of faults has risen
        ensures failed { IsErrOf result StoreFault.DiskFault
            → (d : D) × HasRisen (D.faults disk) (D.faults d) }
        ensures full { IsErrOf result StoreFault.Full → (f : List ℕ) → D.file disk ≡ Some f
            → limit < length (log (records reads f)) }
        ensures never_unfit { IsErrOf result StoreFault.Unfit → ⊥ }
    {
        let log = RecordLog::<D, Places>::open(alloc, disk)?;
        Ok(Store { log })
    }

    /// Saves a zone with its version. At `Ok` each crash from then on leaves it; a crash before, or after `DiskFault`,
    /// leaves the list with its record or without it.
    ///
    /// # Errors
    ///
    /// `DiskFault` where a call of the disk failed, now or before; `Full` where the record would end past 2^40 octets;
    /// `Unfit` where the version can't be sent; `OutOfMemory` where memory runs out. After the latter three the store
    /// is as before.
    pub fn save(&mut self, alloc: Global, kept: &Kept) -> Result<(), StoreFault>
        requires zone { (arc_value kept.now.version).apex ≡ kept.now.zone }
        requires moment { kept.now.refreshed < 2 ^ 40 }
        ensures saved { OnOk result (Joins reads (D.file self.old.disk) (D.file self.new.disk)
            (payload_of (meaning_of kept.now))) }
        ensures able { OnOk result
            ((self.old.has_failed ≡ false) × (self.new.has_failed ≡ false)) }
        ensures can { OnOk result (CanBeKept (meaning_of kept.now)) }
        ensures end { OnOk result (self.new.end
            ≡ self.old.end + 9 + length (payload_of (meaning_of kept.now))) }
        ensures room { OnOk result
            (self.old.end + 9 + length (payload_of (meaning_of kept.now)) ≤ limit) }
        ensures crash { self.old.has_failed ≡ false → (f : List ℕ)
            → D.file self.old.disk ≡ Some f
            → Leaves D.clock D.left_from self.old.disk self.new.disk
            (IsLeft (records reads f) (payload_of (meaning_of kept.now))) }
        ensures faults { OnOk result (D.faults self.new.disk ≡ D.faults self.old.disk) }
        ensures failed_before { self.old.has_failed ≡ true
            → (result ≡ Err StoreFault.DiskFault) × (self.new ≡ self.old) }
        ensures failed { IsErrOf result StoreFault.DiskFault
            → HasFailed D.faults self.old self.new }
        ensures full { IsErrOf result StoreFault.Full
            → limit < self.old.end + 9 + length (payload_of (meaning_of kept.now)) }
        ensures unfit { IsErrOf result StoreFault.Unfit
            → is_fit (arc_value kept.now.version) ≡ false }
        // Full and Unfit are reported unless memory runs out
        ensures past { self.old.has_failed ≡ false → is_fit (arc_value kept.now.version) ≡ true
            → limit < self.old.end + 9 + length (payload_of (meaning_of kept.now))
            → (result ≡ Err StoreFault.Full) ⊎ (result ≡ Err StoreFault.OutOfMemory) }
        ensures misfit { self.old.has_failed ≡ false
            → is_fit (arc_value kept.now.version) ≡ false
            → (result ≡ Err StoreFault.Unfit) ⊎ (result ≡ Err StoreFault.OutOfMemory) }
        ensures same { IfErr result (λ e. (e ≡ StoreFault.DiskFault) ⊎ (self.new ≡ self.old)) }
    {
        if self.log.has_failed() {
            return Err(StoreFault::DiskFault);
        }
        let payload = payload::payload_of(alloc, kept)?;
        self.log.append(alloc, &payload)?;
        Ok(())
    }

    /// Forgets a zone, kept or not. At `Ok` each crash from then on leaves it forgotten.
    ///
    /// # Errors
    ///
    /// `DiskFault` where a call of the disk failed, now or before; `Full` where the record would end past 2^40 octets;
    /// `OutOfMemory` where memory runs out. After the latter two the store is as before.
    pub fn forget(&mut self, alloc: Global, zone: &Name) -> Result<(), StoreFault>
        ensures forgot { OnOk result (Joins reads (D.file self.old.disk) (D.file self.new.disk)
            (forgotten zone.now)) }
        ensures zone { OnOk result (IsName zone.now) }
        ensures able { OnOk result
            ((self.old.has_failed ≡ false) × (self.new.has_failed ≡ false)) }
        ensures end { OnOk result
            (self.new.end ≡ self.old.end + 9 + length (forgotten zone.now)) }
        ensures room { OnOk result (self.old.end + 9 + length (forgotten zone.now) ≤ limit) }
        ensures crash { self.old.has_failed ≡ false → (f : List ℕ)
            → D.file self.old.disk ≡ Some f
            → Leaves D.clock D.left_from self.old.disk self.new.disk
            (IsLeft (records reads f) (forgotten zone.now)) }
        ensures faults { OnOk result (D.faults self.new.disk ≡ D.faults self.old.disk) }
        ensures failed_before { self.old.has_failed ≡ true
            → (result ≡ Err StoreFault.DiskFault) × (self.new ≡ self.old) }
        ensures failed { IsErrOf result StoreFault.DiskFault
            → HasFailed D.faults self.old self.new }
        ensures full { IsErrOf result StoreFault.Full
            → limit < self.old.end + 9 + length (forgotten zone.now) }
        // Full is reported unless memory runs out
        ensures past { self.old.has_failed ≡ false
            → limit < self.old.end + 9 + length (forgotten zone.now)
            → (result ≡ Err StoreFault.Full) ⊎ (result ≡ Err StoreFault.OutOfMemory) }
        ensures never_unfit { IsErrOf result StoreFault.Unfit → ⊥ }
        ensures same { IfErr result (λ e. (e ≡ StoreFault.DiskFault) ⊎ (self.new ≡ self.old)) }
    {
        if self.log.has_failed() {
            return Err(StoreFault::DiskFault);
        }
        let payload = payload::forgotten(alloc, zone)?;
        self.log.append(alloc, &payload)?;
        Ok(())
    }

    /// What is kept of a zone; none exactly where the list keeps none.
    ///
    /// # Errors
    ///
    /// `DiskFault` where a call of the disk failed, now or before; `OutOfMemory` where memory runs out.
    pub fn latest(&mut self, alloc: Global, zone: &Name) -> Result<Option<Kept>, StoreFault>
        ensures latest { IfOk result (λ o. (f : List ℕ) → D.file self.old.disk ≡ Some f
            → option_map meaning_of o ≡ kept zone.now (records reads f)) }
        ensures able { OnOk result
            ((self.old.has_failed ≡ false) × (self.new.has_failed ≡ false)) }
        ensures quiet { IsQuiet D.file D.may_leave D.clock D.left_from
            self.old.disk self.new.disk }
        ensures end { self.new.end ≡ self.old.end }
        ensures faults { OnOk result (D.faults self.new.disk ≡ D.faults self.old.disk) }
        ensures failed_before { self.old.has_failed ≡ true
            → (result ≡ Err StoreFault.DiskFault) × (self.new ≡ self.old) }
        ensures failed { IsErrOf result StoreFault.DiskFault
            → HasFailed D.faults self.old self.new }
        ensures same { IfErr result (λ e. (e ≡ StoreFault.DiskFault)
            ⊎ ((e ≡ StoreFault.OutOfMemory) × (self.new.has_failed ≡ self.old.has_failed))) }
    {
        match counting(alloc, &mut self.log, zone)? {
            None => Ok(None),
            Some(payload) => Ok(kept_of(alloc, &payload)?),
        }
    }

    /// Saves into another store, whose list is empty, what this one keeps, in canonical order of zones. This one is
    /// only read.
    ///
    /// # Errors
    ///
    /// `DiskFault` where a call of either disk failed, now or before; `Full` where a record would end past 2^40 octets
    /// there; `OutOfMemory` where memory runs out.
    pub fn copy<E: Disk + Drop>(
        &mut self,
        alloc: Global,
        target: &mut Store<E>,
    ) -> Result<(), StoreFault>
        ensures copied { OnOk result ((f g : List ℕ) → D.file self.old.disk ≡ Some f
            → E.file target.old.disk ≡ Some g → records reads g ≡ []
            → (h : List ℕ) × (E.file target.new.disk ≡ Some h)
            × KeepsSame (records reads f) (records reads h)) }
        ensures quiet { IsQuiet D.file D.may_leave D.clock D.left_from
            self.old.disk self.new.disk }
        ensures failed { IsErrOf result StoreFault.DiskFault
            → HasFailed D.faults self.old self.new
            ⊎ HasFailed E.faults target.old target.new }
        // no room is left for the longest record
        ensures full { IsErrOf result StoreFault.Full → limit < target.new.end + 9 + MOST }
        ensures never_unfit { IsErrOf result StoreFault.Unfit → ⊥ }
    {
        copy_all(alloc, &mut self.log, &mut target.log)?;
        Ok(())
    }

    /// Whether a call of the disk failed, after which no call touches it.
    pub fn has_failed(&self) -> bool
        ensures failed { result ≡ self.now.has_failed }
        ensures sure { self.now.has_failed ≡ false → (f : List ℕ)
            → D.file self.now.disk ≡ Some f → IsSure f (D.may_leave self.now.disk) }
    {
        self.log.has_failed()
    }

    /// How many octets the records take.
    pub fn end(&self) -> u64
        ensures end { result ≡ self.now.end }
        ensures within { result ≤ limit }
        ensures records { self.now.has_failed ≡ false → (f : List ℕ)
            → D.file self.now.disk ≡ Some f → result ≡ length (log (records reads f)) }
        ensures sure { self.now.has_failed ≡ false → (f : List ℕ)
            → D.file self.now.disk ≡ Some f → IsSure f (D.may_leave self.now.disk) }
    {
        self.log.end()
    }

    /// The disk.
    pub fn into_disk(self) -> D
        ensures { result ≡ self.disk }
    {
        self.log.into_disk()
    }
}
