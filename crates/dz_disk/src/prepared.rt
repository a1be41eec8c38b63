//! Opening a file that a crash may have left.

ghost use Rattle.std.specs.Prelude.{◌≡◌, ◌<◌, ◌≤◌, ℕ, List, Some, length, IfOk, IsErrOf};
ghost use Rattle.dz_io.specs.Device.{HasCauseOf};
ghost use Rattle.dz_disk.specs.Disk.{Leaves};
ghost use Rattle.dz_disk.specs.RecordLog.{limit, log, records, IsPayload, ArePayloads, IsLeft, MayLeaveOnly, Opens};
ghost use Rattle.dz_disk.specs.RecordLog.{WasTold};

use crate::gate::close_gate;
use crate::scan::read_log;
use crate::{Disk, RecordError, RecordIndex};
use std::alloc::Global;

/// Reads the records of a file, closes the gate that follows them, and returns their index and the offset of that gate.
/// Any file will do. A file that a crash left while a record was added is still such a file where a crash interrupts
/// the call or the disk fails.
///
/// # Errors
///
/// `Disk` where a call of the disk failed, `Full` where the records end past 2^40 octets, `OutOfMemory` where memory
/// runs out.
pub fn prepare<D: Disk, I: RecordIndex>(
    alloc: Global,
    disk: &mut D,
) -> Result<(I, u64), RecordError>
    ensures opens { IfOk result (λ r. Opens I.reads I.is_of (D.file disk.old) (D.file disk.new)
        (D.may_leave disk.new) r.0 r.1) }
    ensures told { IfOk result (λ r. WasTold (D.file disk.old) (D.file disk.new)) }
    ensures within { IfOk result (λ r. r.1 ≤ limit) }
    ensures crash { (list : List (List ℕ)) (last f : List ℕ) → D.file disk.old ≡ Some f
        → ArePayloads I.reads list → IsPayload I.reads last
        → MayLeaveOnly list last (D.may_leave disk.old)
        → Leaves D.clock D.left_from disk.old disk.new (IsLeft list last) }
    ensures cause { HasCauseOf (D.faults disk.old) (D.faults disk.new) result RecordError.Disk }
    ensures full { IsErrOf result RecordError.Full → (f : List ℕ) → D.file disk.old ≡ Some f
        → limit < length (log (records I.reads f)) }
{
    disk.sync()?;
    let scan = read_log::<D, I>(alloc, disk)?;
    close_gate(disk, scan.end, scan.gate)?;
    Ok((scan.index, scan.end))
}
