//! Reading the records of a file.

ghost use Rattle.std.specs.Prelude.{◌≡◌, ◌+◌, ◌<◌, ◌≤◌, ◌^◌, ℕ, List, Option, Some, length, take, drop, option_map};
ghost use Rattle.std.specs.Prelude.{IfOk, IfSome, IsErrOf};
ghost use Rattle.std.specs.Int.{w64, to_be_bytes};
ghost use Rattle.dz_io.specs.Device.{HasCause, HasCauseOf};
ghost use Rattle.dz_disk.specs.Disk.{IsQuiet};
ghost use Rattle.dz_disk.specs.RecordLog.{limit, log, records, IsPart};
ghost use Rattle.dz_disk.specs.inner.Reading.{IsHead, IsFound, IsReadable, IsAll};

use crate::record_log::LIMIT;
use crate::{Disk, RecordError, RecordIndex};
use dz_io::Failed;
use std::alloc::Global;

/// What is at an offset where a record may begin.
#[derive(Drop)]
pub(crate) enum Found {
    /// No record, and this octet where the file continues.
    Shut(Option<u8>),
    /// A record with this payload.
    Record(Vec<u8>),
}

/// What was read of a file: an index of its records, the offset at which they end, and the octet there.
#[derive(Drop)]
pub(crate) struct Scan<I> {
    pub(crate) index: I,
    pub(crate) end: u64,
    pub(crate) gate: Option<u8>,
}

/// Fills a buffer from an offset of the file on, as far as the file goes, and returns the number of octets. `Failed`
/// where the disk failed.
fn fill<D: Disk>(disk: &mut D, at: u64, buffer: &mut [u8]) -> Result<usize, Failed>
    requires { at + length buffer.old < 2 ^ 64 }
    ensures count { IfOk result (λ n. n ≤ length buffer.old) }
    ensures octets { IfOk result (λ n. (f : List ℕ) → D.file disk.old ≡ Some f
        → take n buffer.new ≡ take (length buffer.old) (drop at f)) }
    ensures quiet { IsQuiet D.file D.may_leave D.clock D.left_from disk.old disk.new }
    ensures cause { HasCause (D.faults disk.old) (D.faults disk.new) result }
{
    let mut filled = 0;
    'filling: while filled < buffer.len() {
        let (_front, rest) = buffer.split_at_mut(filled);
        let count = disk.read(at + filled as u64, rest)?;
        if count == 0 {
            return Ok(filled);
        }
        filled += count;
    }
    Ok(filled)
}

/// The number in eight octets, the most significant first.
fn number_of(octets: &[u8]) -> u64
    requires { length octets.now ≡ 8 }
    ensures { to_be_bytes w64 result ≡ octets.now }
{
    u64::from_be_bytes([
        octets[0], octets[1], octets[2], octets[3], octets[4], octets[5], octets[6], octets[7],
    ])
}

/// The gate at an offset and the length after it, as far as they are there. `Failed` where the disk failed.
fn read_head<D: Disk>(disk: &mut D, at: u64) -> Result<Option<(u8, Option<u64>)>, Failed>
    requires { at ≤ limit }
    ensures head { IfOk result (λ h. (f : List ℕ) → D.file disk.old ≡ Some f
        → IsHead h (drop at f)) }
    ensures quiet { IsQuiet D.file D.may_leave D.clock D.left_from disk.old disk.new }
    ensures cause { HasCause (D.faults disk.old) (D.faults disk.new) result }
{
    let mut head = [0; 9];
    let count = fill(disk, at, &mut head)?;
    if count == 0 {
        return Ok(None);
    }
    let gate = head[0];
    if count < 9 {
        return Ok(Some((gate, None)));
    }
    Ok(Some((gate, Some(number_of(&head[1..])))))
}

/// This many octets from an offset on, or `None` where the file ends before. It is never `Full`.
pub(crate) fn read_part<D: Disk>(
    alloc: Global,
    disk: &mut D,
    at: u64,
    size: usize,
) -> Result<Option<Vec<u8>>, RecordError>
    requires { at + size < 2 ^ 64 }
    ensures part { IfOk result (λ o. (f : List ℕ) → D.file disk.old ≡ Some f
        → IsPart (option_map (λ v. v.items) o) size (drop at f)) }
    ensures size { IfOk result (λ o. IfSome o (λ v. length v.items ≡ size)) }
    ensures quiet { IsQuiet D.file D.may_leave D.clock D.left_from disk.old disk.new }
    ensures cause { HasCauseOf (D.faults disk.old) (D.faults disk.new) result RecordError.Disk }
    ensures never_full { IsErrOf result RecordError.Full → ⊥ }
{
    let mut part = vec![in alloc; 0; size]?;
    let count = fill(disk, at, part.as_mut_slice())?;
    if count < size {
        return Ok(None);
    }
    Ok(Some(part))
}

/// What is at an offset where a record may begin. A length above the greatest length of a readable payload means a gate
/// that isn't open, so that no more memory is allocated. It is never `Full`.
fn read_record<D: Disk, I: RecordIndex>(
    alloc: Global,
    disk: &mut D,
    at: u64,
) -> Result<Found, RecordError>
    requires { at ≤ limit }
    ensures found { IfOk result (λ s. (f : List ℕ) → D.file disk.old ≡ Some f
        → IsFound I.reads s (drop at f)) }
    ensures readable { IfOk result (IsReadable I.reads) }
    ensures quiet { IsQuiet D.file D.may_leave D.clock D.left_from disk.old disk.new }
    ensures cause { HasCauseOf (D.faults disk.old) (D.faults disk.new) result RecordError.Disk }
    ensures never_full { IsErrOf result RecordError.Full → ⊥ }
{
    let Some((gate, size)) = read_head(disk, at)? else {
        return Ok(Found::Shut(None));
    };
    let Some(size) = size else {
        return Ok(Found::Shut(Some(gate)));
    };
    if gate != 1 || I::longest() < size {
        return Ok(Found::Shut(Some(gate)));
    }
    let Some(payload) = read_part(alloc, disk, at + 9, size as usize)? else {
        return Ok(Found::Shut(Some(gate)));
    };
    if !I::is_payload(alloc, &payload)? {
        return Ok(Found::Shut(Some(gate)));
    }
    Ok(Found::Record(payload))
}

/// Reads all records. The error is `Full` where they end past the limit.
pub(crate) fn read_log<D: Disk, I: RecordIndex>(
    alloc: Global,
    disk: &mut D,
) -> Result<Scan<I>, RecordError>
    ensures all { IfOk result (λ s. (f : List ℕ) → D.file disk.old ≡ Some f
        → IsAll I.reads I.is_of s.index s.end s.gate f) }
    ensures within { IfOk result (λ s. s.end ≤ limit) }
    ensures quiet { IsQuiet D.file D.may_leave D.clock D.left_from disk.old disk.new }
    ensures cause { HasCauseOf (D.faults disk.old) (D.faults disk.new) result RecordError.Disk }
    ensures full { IsErrOf result RecordError.Full → (f : List ℕ) → D.file disk.old ≡ Some f
        → limit < length (log (records I.reads f)) }
{
    let mut index = I::empty(alloc);
    let mut end = 0;
    'records: loop {
        match read_record::<D, I>(alloc, disk, end)? {
            Found::Shut(gate) => return Ok(Scan { index, end, gate }),
            Found::Record(payload) => {
                let next = end + 9 + payload.len() as u64;
                if LIMIT < next {
                    return Err(RecordError::Full);
                }
                index.add(alloc, &payload, end)?;
                end = next;
            }
        }
    }
}
