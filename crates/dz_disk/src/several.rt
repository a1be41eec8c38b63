//! Several records, added one after another.

ghost use Rattle.std.specs.Prelude.{◌≡◌, ◌⊎◌, ℕ, List, Some, Err, false, true, map, IfErr, OnOk, IsErrOf};
ghost use Rattle.std.specs.List.{AllByRecursion};
ghost use Rattle.dz_io.specs.Counts.{HasRisen};
ghost use Rattle.dz_disk.specs.Disk.{Leaves};
ghost use Rattle.dz_disk.specs.RecordLog.{records};
ghost use Rattle.dz_disk.specs.Several.{IsLeftAmong, JoinInOrder, SomeJoin, HasNoRoom};

use crate::{Disk, RecordError, RecordIndex, RecordLog};
use std::alloc::Global;

/// Adds records in order, until one can't be added. A crash at any moment leaves the list with the first of them.
///
/// # Errors
///
/// The error of the record that can't be added.
pub fn append_each<D: Disk + Drop, I: RecordIndex>(
    alloc: Global,
    log: &mut RecordLog<D, I>,
    payloads: &[Vec<u8>],
) -> Result<(), RecordError>
    requires reads { AllByRecursion (λ v. I.reads v.items ≡ true) payloads.now }
    ensures joined { OnOk result (JoinInOrder I.reads (D.file log.old.disk) (D.file log.new.disk)
        (map (λ v. v.items) payloads.now)) }
    ensures able { OnOk result ((log.old.has_failed ≡ false) × (log.new.has_failed ≡ false)) }
    ensures crash { log.old.has_failed ≡ false → (f : List ℕ) → D.file log.old.disk ≡ Some f
        → Leaves D.clock D.left_from log.old.disk log.new.disk
        (IsLeftAmong (records I.reads f) (map (λ v. v.items) payloads.now) f) }
    // without a fault of the disk the first records were added
    ensures stopped { IfErr result (λ e. (e ≡ RecordError.Disk)
        ⊎ ((log.new.has_failed ≡ log.old.has_failed) × SomeJoin I.reads (D.file log.old.disk)
        (D.file log.new.disk) (map (λ v. v.items) payloads.now))) }
    ensures full { IsErrOf result RecordError.Full
        → HasNoRoom log.new.end (map (λ v. v.items) payloads.now) }
    ensures failed_before { log.old.has_failed ≡ true
        → (result ≡ Err RecordError.Disk) × (log.new ≡ log.old) }
    ensures failed { IsErrOf result RecordError.Disk → (log.new.has_failed ≡ true)
        × ((log.old.has_failed ≡ true)
        ⊎ HasRisen (D.faults log.old.disk) (D.faults log.new.disk)) }
{
    if log.has_failed() {
        return Err(RecordError::Disk);
    }
    'payloads: for payload in payloads {
        log.append(alloc, payload)?;
    }
    Ok(())
}
