//! A list of records on a disk, to which records are added.

ghost use Rattle.std.specs.Prelude.{◌≡◌, ◌⊎◌, ◌↔◌, ◌+◌, ◌<◌, ◌≤◌, ◌^◌, ℕ, List, Some, Err, true, false, length, drop};
ghost use Rattle.std.specs.Prelude.{option_map, IfOk, IfErr, OnOk, IsErrOf};
ghost use Rattle.dz_io.specs.Counts.{HasRisen};
ghost use Rattle.dz_disk.specs.Disk.{Leaves, IsQuiet};
ghost use Rattle.dz_disk.specs.RecordLog.{limit, log, records, IsPayload, ArePayloads, IsLeft, MayLeaveOnly};
ghost use Rattle.dz_disk.specs.RecordLog.{IsSettled, Opens, Joins, IsPart};

use crate::gate::{join, stage};
use crate::prepared::prepare;
use crate::scan::read_part;
use crate::{Disk, RecordError, RecordIndex};
use std::alloc::Global;
use std::marker::Model;

/// The greatest number of octets that the records of a file take.
pub(crate) const LIMIT: u64 = 1 << 40;

/// A list of records on a disk, with an index of it in memory. To add a record, it and the next closed gate are written
/// after the closed gate at the end of the list, and then that gate is opened. Each of the two is on the disk before
/// the next step.
#[derive(Drop)]
pub struct RecordLog<D: Disk + Drop, I: RecordIndex> {
    disk: D,
    index: I,
    // the offset of the closed gate
    end: u64,
    // whether a call of the disk failed, after which the disk isn't used any more
    has_failed: bool,
}

impl<D: Disk + Drop, I: RecordIndex> Model for RecordLog<D, I> {
    ghost use Rattle.dz_disk.specs.RecordLog.{LogOf, IsLog};

    ghost Value = { LogOf D I };

    ghost view = { λ s. record { disk = s.disk; index = s.index; end = s.end; has_failed = s.has_failed } };

    ghost invariant = { λ s. IsLog I.reads I.is_of (D.file s.disk) (D.may_leave s.disk) s.index s.end s.has_failed };
}

impl<D: Disk + Drop, I: RecordIndex> RecordLog<D, I> {
    /// Opens a file that a crash may have left. Any file will do.
    ///
    /// # Errors
    ///
    /// `Disk` where a call of the disk failed, `Full` where the records end past 2^40 octets, `OutOfMemory` where
    /// memory runs out. The disk is then dropped; [`prepare`] does the same work on a disk that the caller keeps.
    pub fn open(alloc: Global, mut disk: D) -> Result<RecordLog<D, I>, RecordError>
        ensures opens { IfOk result (λ s. Opens I.reads I.is_of (D.file disk) (D.file s.disk)
            (D.may_leave s.disk) s.index s.end) }
        ensures able { IfOk result (λ s. s.has_failed ≡ false) }
        ensures crash { IfOk result (λ s. (list : List (List ℕ)) (last f : List ℕ)
            → D.file disk ≡ Some f → ArePayloads I.reads list → IsPayload I.reads last
            → MayLeaveOnly list last (D.may_leave disk)
            → Leaves D.clock D.left_from disk s.disk (IsLeft list last)) }
        ensures faults { IfOk result (λ s. D.faults s.disk ≡ D.faults disk) }
        // the disk reached a state in which its count of faults has risen
        ensures failed { IsErrOf result RecordError.Disk
            → (d : D) × HasRisen (D.faults disk) (D.faults d) }
        ensures full { IsErrOf result RecordError.Full → (f : List ℕ) → D.file disk ≡ Some f
            → limit < length (log (records I.reads f)) }
    {
        let (index, end) = prepare::<D, I>(alloc, &mut disk)?;
        Ok(RecordLog {
            disk,
            index,
            end,
            has_failed: false,
        })
    }

    /// Adds a record. After `Ok` every crash leaves it; a crash before, or after `Disk`, leaves the list with or
    /// without the record.
    ///
    /// # Errors
    ///
    /// `Disk` where a call of the disk failed, now or before; `Full` exactly where the record would end past 2^40
    /// octets; `OutOfMemory` where memory runs out. After the latter two the list is as before.
    pub fn append(&mut self, alloc: Global, payload: &[u8]) -> Result<(), RecordError>
        requires reads { I.reads payload.now ≡ true }
        ensures joined { OnOk result
            (Joins I.reads (D.file self.old.disk) (D.file self.new.disk) payload.now) }
        ensures able { OnOk result
            ((self.old.has_failed ≡ false) × (self.new.has_failed ≡ false)) }
        ensures end { OnOk result (self.new.end ≡ self.old.end + 9 + length payload.now) }
        ensures within { OnOk result (self.new.end ≤ limit) }
        ensures crash { self.old.has_failed ≡ false → (f : List ℕ)
            → D.file self.old.disk ≡ Some f
            → Leaves D.clock D.left_from self.old.disk self.new.disk
            (IsLeft (records I.reads f) payload.now) }
        ensures faults { OnOk result (D.faults self.new.disk ≡ D.faults self.old.disk) }
        ensures failed_before { self.old.has_failed ≡ true
            → (result ≡ Err RecordError.Disk) × (self.new ≡ self.old) }
        ensures failed { IsErrOf result RecordError.Disk → (self.new.has_failed ≡ true)
            × ((self.old.has_failed ≡ true)
            ⊎ HasRisen (D.faults self.old.disk) (D.faults self.new.disk)) }
        ensures full { self.old.has_failed ≡ false → (IsErrOf result RecordError.Full)
            ↔ (limit < self.old.end + 9 + length payload.now) }
        ensures same { IfErr result (λ e. (e ≡ RecordError.Disk)
            ⊎ ((self.new.disk ≡ self.old.disk) × (self.new.end ≡ self.old.end)
            × (self.new.has_failed ≡ self.old.has_failed))) }
    {
        if self.has_failed {
            return Err(RecordError::Disk);
        }
        let room = LIMIT - self.end;
        if room < 9 || room - 9 < payload.len() as u64 {
            return Err(RecordError::Full);
        }
        let staged = stage(alloc, payload)?;
        self.index.add(alloc, payload, self.end)?;
        match join(&mut self.disk, self.end, &staged) {
            Ok(()) => {
                self.end += 9 + payload.len() as u64;
                Ok(())
            }
            Err(_) => {
                self.has_failed = true;
                Err(RecordError::Disk)
            }
        }
    }

    /// Whether a call of the disk failed, after which the disk isn't used any more.
    pub fn has_failed(&self) -> bool
        ensures value { result ≡ self.now.has_failed }
        ensures within { self.now.end ≤ limit }
        ensures settled { self.now.has_failed ≡ false → (f : List ℕ)
            → D.file self.now.disk ≡ Some f
            → IsSettled I.reads I.is_of (D.may_leave self.now.disk) self.now.index self.now.end f }
    {
        self.has_failed
    }

    /// The offset of the gate of the next record, which is the number of octets that the records take.
    pub fn end(&self) -> u64
        ensures end { result ≡ self.now.end }
        ensures within { result ≤ limit }
        ensures settled { self.now.has_failed ≡ false → (f : List ℕ)
            → D.file self.now.disk ≡ Some f
            → IsSettled I.reads I.is_of (D.may_leave self.now.disk) self.now.index self.now.end f }
    {
        self.end
    }

    /// The index of the list in memory.
    pub fn index(&self) -> &I
        ensures index { result.now ≡ self.now.index }
        ensures within { self.now.end ≤ limit }
        ensures settled { self.now.has_failed ≡ false → (f : List ℕ)
            → D.file self.now.disk ≡ Some f
            → IsSettled I.reads I.is_of (D.may_leave self.now.disk) self.now.index self.now.end f }
    {
        &self.index
    }

    /// The first `size` octets of the payload of the record whose gate is at offset `at`; none where the file ends
    /// before.
    ///
    /// # Errors
    ///
    /// `Disk` where a call of the disk failed, now or before; `OutOfMemory` where memory runs out. It is never `Full`.
    pub fn payload(
        &mut self,
        alloc: Global,
        at: u64,
        size: u64,
    ) -> Result<Option<Vec<u8>>, RecordError>
        requires { at + 9 + size < 2 ^ 64 }
        ensures part { IfOk result (λ o. (f : List ℕ) → D.file self.old.disk ≡ Some f
            → IsPart (option_map (λ v. v.items) o) size (drop (at + 9) f)) }
        ensures able { OnOk result
            ((self.old.has_failed ≡ false) × (self.new.has_failed ≡ false)) }
        ensures quiet { IsQuiet D.file D.may_leave D.clock D.left_from
            self.old.disk self.new.disk }
        ensures rest { (self.new.index ≡ self.old.index) × (self.new.end ≡ self.old.end) }
        ensures faults { OnOk result (D.faults self.new.disk ≡ D.faults self.old.disk) }
        ensures failed_before { self.old.has_failed ≡ true
            → (result ≡ Err RecordError.Disk) × (self.new ≡ self.old) }
        ensures failed { IsErrOf result RecordError.Disk → (self.new.has_failed ≡ true)
            × ((self.old.has_failed ≡ true)
            ⊎ HasRisen (D.faults self.old.disk) (D.faults self.new.disk)) }
        ensures same { IfErr result (λ e. (e ≡ RecordError.Disk)
            ⊎ ((e ≡ RecordError.OutOfMemory) × (self.new.has_failed ≡ self.old.has_failed))) }
    {
        if self.has_failed {
            return Err(RecordError::Disk);
        }
        match read_part(alloc, &mut self.disk, at + 9, size as usize) {
            Ok(part) => Ok(part),
            Err(error) => {
                self.has_failed = error == RecordError::Disk;
                Err(error)
            }
        }
    }

    /// Closes the list, and returns the disk.
    pub fn into_disk(self) -> D
        ensures { result ≡ self.disk }
    {
        let RecordLog { disk, .. } = self;
        disk
    }
}
