//! The record that counts for a zone.

ghost use Rattle.std.specs.Prelude.{◌≡◌, ◌⊎◌, ℕ, List, Some, Err, option_map, false, true, IfOk, OnOk, IfErr, IsErrOf};
ghost use Rattle.dz_disk.specs.Disk.{IsQuiet};
ghost use Rattle.dz_disk.specs.RecordLog.{records};
ghost use Rattle.dz_store.specs.Payload.{reads};
ghost use Rattle.dz_store.specs.Store.{counting, store_of, HasFailed};

use crate::places::Places;
use dz_disk::{Disk, RecordError, RecordLog};
use dz_name::Name;
use std::alloc::Global;

/// No record ends past this place.
const FAR: u64 = 1 << 40;

/// The payload that counts for a zone; none where the list keeps none. The errors are those of
/// [`crate::Store::latest`].
pub(crate) fn counting<D: Disk + Drop>(
    alloc: Global,
    log: &mut RecordLog<D, Places>,
    zone: &Name,
) -> Result<Option<Vec<u8>>, RecordError>
    ensures counting { IfOk result (λ o. (f : List ℕ) → D.file log.old.disk ≡ Some f
        → option_map (λ v. v.items) o ≡ counting zone.now (records reads f)) }
    ensures able { OnOk result ((log.old.has_failed ≡ false) × (log.new.has_failed ≡ false)) }
    ensures quiet { IsQuiet D.file D.may_leave D.clock D.left_from log.old.disk log.new.disk }
    ensures rest { (log.new.index ≡ log.old.index) × (log.new.end ≡ log.old.end) }
    ensures faults { OnOk result (D.faults log.new.disk ≡ D.faults log.old.disk) }
    ensures failed_before { log.old.has_failed ≡ true
        → (result ≡ Err RecordError.Disk) × (log.new ≡ log.old) }
    ensures failed { IsErrOf result RecordError.Disk
        → HasFailed D.faults (store_of log.old) (store_of log.new) }
    ensures same { IfErr result (λ e. (e ≡ RecordError.Disk)
        ⊎ ((e ≡ RecordError.OutOfMemory) × (log.new.has_failed ≡ log.old.has_failed))) }
{
    if log.has_failed() {
        return Err(RecordError::Disk);
    }
    match log.index().find(zone) {
        None => Ok(None),
        Some(place) => {
            if FAR < place.at || FAR < place.size {
                return Ok(None);
            }
            log.payload(alloc, place.at, place.size)
        }
    }
}
