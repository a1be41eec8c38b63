//! A new list of the records that count in another.

ghost use Rattle.std.specs.Prelude.{◌≡◌, ◌⊎◌, ◌+◌, ◌<◌, [], ◌++◌, ℕ, List, Some, OnOk, IsErrOf};
ghost use Rattle.std.specs.Option.{option_to_list};
ghost use Rattle.dz_disk.specs.Disk.{IsQuiet};
ghost use Rattle.dz_disk.specs.RecordLog.{limit, records};
ghost use Rattle.dz_store.specs.Payload.{reads};
ghost use Rattle.dz_store.specs.Store.{counting, store_of, HasFailed};
ghost use Rattle.dz_store.specs.declared.places.TheConstants.{MOST};
ghost use Rattle.dz_store.specs.inner.Copying.{CountsSame};

use crate::count::counting;
use crate::places::Places;
use dz_disk::{Disk, RecordError, RecordIndex, RecordLog};
use dz_name::Name;
use std::alloc::Global;

/// Adds to an empty list what counts for each zone of another. The errors are those of [`crate::Store::copy`].
pub(crate) fn copy_all<D: Disk + Drop, E: Disk + Drop>(
    alloc: Global,
    source: &mut RecordLog<D, Places>,
    target: &mut RecordLog<E, Places>,
) -> Result<(), RecordError>
    ensures copied { OnOk result ((f g : List ℕ) → D.file source.old.disk ≡ Some f
        → E.file target.old.disk ≡ Some g → records reads g ≡ []
        → (h : List ℕ) × (E.file target.new.disk ≡ Some h)
        × CountsSame (records reads f) (records reads h)) }
    ensures quiet { IsQuiet D.file D.may_leave D.clock D.left_from
        source.old.disk source.new.disk }
    ensures full { IsErrOf result RecordError.Full → limit < target.new.end + 9 + MOST }
    ensures failed { IsErrOf result RecordError.Disk
        → HasFailed D.faults (store_of source.old) (store_of source.new)
        ⊎ HasFailed E.faults (store_of target.old) (store_of target.new) }
{
    if source.has_failed() {
        return Err(RecordError::Disk);
    }
    let zones = source.index().zones(alloc)?;
    'zones: for zone in &zones {
        copy_one(alloc, source, target, zone)?;
    }
    Ok(())
}

/// Adds what counts for a zone. The errors are those of [`crate::Store::copy`].
#[tactic(auto, using(crate::specs::inner::Short::short))]
fn copy_one<D: Disk + Drop, E: Disk + Drop>(
    alloc: Global,
    source: &mut RecordLog<D, Places>,
    target: &mut RecordLog<E, Places>,
    zone: &Name,
) -> Result<(), RecordError>
    ensures copied { OnOk result ((f g : List ℕ) → D.file source.old.disk ≡ Some f
        → E.file target.old.disk ≡ Some g
        → (h : List ℕ) × (E.file target.new.disk ≡ Some h)
        × (records reads h
        ≡ records reads g ++ option_to_list (counting zone.now (records reads f)))) }
    ensures quiet { IsQuiet D.file D.may_leave D.clock D.left_from
        source.old.disk source.new.disk }
    ensures faults { OnOk result ((D.faults source.new.disk ≡ D.faults source.old.disk)
        × (E.faults target.new.disk ≡ E.faults target.old.disk)) }
    ensures able { OnOk result ((source.new.has_failed ≡ source.old.has_failed)
        × (target.new.has_failed ≡ target.old.has_failed)) }
    ensures full { IsErrOf result RecordError.Full → limit < target.new.end + 9 + MOST }
    ensures failed { IsErrOf result RecordError.Disk
        → HasFailed D.faults (store_of source.old) (store_of source.new)
        ⊎ HasFailed E.faults (store_of target.old) (store_of target.new) }
{
    if source.has_failed() || target.has_failed() {
        return Err(RecordError::Disk);
    }
    let Some(payload) = counting(alloc, source, zone)? else {
        return Ok(());
    };
    if !Places::is_payload(alloc, &payload)? {
        return Ok(());
    }
    target.append(alloc, &payload)?;
    Ok(())
}
