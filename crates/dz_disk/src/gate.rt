//! Writes that are on the disk before the call returns: a gate that is closed, and a record that is added.

ghost use Rattle.std.specs.Prelude.{◌≡◌, ◌≢◌, ◌<◌, ◌≤◌, ◌^◌, ◌⊎◌, [], ◌∷◌, ◌++◌, ℕ, List, Option, Some, None, length};
ghost use Rattle.std.specs.Prelude.{take, slice_get, option_map, IfOk, OnOk};
ghost use Rattle.dz_io.specs.Device.{HasCause};
ghost use Rattle.dz_disk.specs.Disk.{put, IsTorn, IsSure, Leaves};
ghost use Rattle.dz_disk.specs.RecordLog.{body, log, IsAtRest, IsLeft, WasTold};

use crate::Disk;
use dz_io::Failed;
use std::alloc::{AllocError, Global};

/// Writes a piece at an offset, and syncs. `Failed` where either failed.
fn write_through<D: Disk>(disk: &mut D, at: u64, piece: &[u8]) -> Result<(), Failed>
    requires { (f : List ℕ) → D.file disk.old ≡ Some f → at ≤ length f }
    ensures written { OnOk result
        (D.file disk.new ≡ option_map (put at piece.now) (D.file disk.old)) }
    ensures sure { OnOk result ((f : List ℕ) → D.file disk.new ≡ Some f
        → IsSure f (D.may_leave disk.new)) }
    ensures crash { (f : List ℕ) → IsSure f (D.may_leave disk.old)
        → Leaves D.clock D.left_from disk.old disk.new (IsTorn at (length piece.now) f) }
    ensures cause { HasCause (D.faults disk.old) (D.faults disk.new) result }
{
    disk.write_at(at, piece)?;
    disk.sync()?;
    Ok(())
}

/// Closes the gate at an offset, where the octet `gate` is or the file ends, unless it is closed already. `Failed`
/// where the disk failed.
pub(crate) fn close_gate<D: Disk>(disk: &mut D, at: u64, gate: Option<u8>) -> Result<(), Failed>
    requires within { (f : List ℕ) → D.file disk.old ≡ Some f → at ≤ length f }
    requires gate { (f : List ℕ) → D.file disk.old ≡ Some f → gate ≡ slice_get f at }
    requires sure { (f : List ℕ) → D.file disk.old ≡ Some f → IsSure f (D.may_leave disk.old) }
    ensures closed { OnOk result ((f : List ℕ) → D.file disk.old ≡ Some f
        → (junk : List ℕ) × (D.file disk.new ≡ Some (take at f ++ 0 ∷ junk))) }
    ensures told { OnOk result (WasTold (D.file disk.old) (D.file disk.new)) }
    ensures sure { OnOk result ((g : List ℕ) → D.file disk.new ≡ Some g
        → IsSure g (D.may_leave disk.new)) }
    ensures crash { (f : List ℕ) → D.file disk.old ≡ Some f
        → Leaves D.clock D.left_from disk.old disk.new
        (λ c. (c ≡ f) ⊎ ((slice_get f at ≢ Some 0) × IsTorn at 1 f c)) }
    ensures cause { HasCause (D.faults disk.old) (D.faults disk.new) result }
{
    match gate {
        Some(0) => Ok(()),
        _ => write_through(disk, at, &[0]),
    }
}

/// Writes a record after the closed gate at an offset, and then opens the gate. `Failed` where the disk failed.
pub(crate) fn join<D: Disk>(disk: &mut D, gate: u64, staged: &[u8]) -> Result<(), Failed>
    requires short { gate < 2 ^ 63 }
    requires there { (f : List ℕ) → D.file disk.old ≡ Some f → gate < length f }
    ensures joined { OnOk result ((list : List (List ℕ)) (payload f : List ℕ)
        → D.file disk.old ≡ Some f → IsAtRest list f → gate ≡ length (log list)
        → staged.now ≡ body payload ++ 0 ∷ []
        → (g : List ℕ) × (D.file disk.new ≡ Some g) × IsAtRest (list ++ payload ∷ []) g) }
    ensures told { OnOk result (WasTold (D.file disk.old) (D.file disk.new)) }
    ensures sure { OnOk result ((g : List ℕ) → D.file disk.new ≡ Some g
        → IsSure g (D.may_leave disk.new)) }
    ensures crash { (list : List (List ℕ)) (payload f : List ℕ) → D.file disk.old ≡ Some f
        → IsSure f (D.may_leave disk.old) → IsAtRest list f → gate ≡ length (log list)
        → staged.now ≡ body payload ++ 0 ∷ []
        → Leaves D.clock D.left_from disk.old disk.new (IsLeft list payload) }
    ensures cause { HasCause (D.faults disk.old) (D.faults disk.new) result }
{
    write_through(disk, gate + 1, staged)?;
    write_through(disk, gate, &[1])?;
    Ok(())
}

/// The octets of a record after its gate, followed by a closed gate. `AllocError` where memory runs out.
pub(crate) fn stage(alloc: Global, payload: &[u8]) -> Result<Vec<u8>, AllocError>
    ensures { IfOk result (λ v. v.items ≡ body payload.now ++ 0 ∷ []) }
{
    let mut staged = Vec::new(alloc);
    staged.extend_from_slice(&(payload.len() as u64).to_be_bytes())?;
    staged.extend_from_slice(payload)?;
    staged.push(0)?;
    Ok(staged)
}
