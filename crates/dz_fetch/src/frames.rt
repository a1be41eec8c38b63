//! Frames that are read from a source.
ghost use Rattle.std.specs.Prelude.{◌≡◌, ◌<◌, ◌≤◌, length, take, IfOk, OnOk};
ghost use Rattle.dz_io.specs.Device.{Gains, IsAtEnd, HasCause};
ghost use Rattle.dz_fetch.specs.inner.Frames.{ReadsOn, IsNext, HasCount};

use dz_io::{Failed, Source};
use dz_name::dns::LENGTH_OCTETS;
use dz_name::numbers::number_of_two;

/// Why nothing was read.
#[derive(Clone, Copy, Debug, PartialEq, Eq)]
pub(crate) enum ReadError {
    Fault,
    OutOfMemory,
}

/// Reads at most this many octets into the front of the buffer, and answers how many.
fn read_front<S: Source>(source: &mut S, buffer: &mut [u8], room: usize) -> Result<usize, Failed>
    requires some { 0 < room }
    requires fits { room ≤ length buffer.old }
    ensures count { IfOk result (λ n. n ≤ room) }
    ensures given { IfOk result
        (λ n. Gains (take n buffer.new) (S.given source.old) (S.given source.new)) }
    ensures end { IfOk result (λ n. n ≡ 0 → IsAtEnd (S.left source.new)) }
    ensures beside { S.beside source.new ≡ S.beside source.old }
    ensures cause { HasCause (S.faults source.old) (S.faults source.new) result }
{
    let (front, _) = buffer.split_at_mut(room);
    source.read(front)
}

/// Reads on until there are this many octets, or the source ends.
fn read_to<S: Source>(source: &mut S, octets: &mut Vec<u8>, want: usize) -> Result<(), ReadError>
    requires { length octets.old.items ≤ want }
    ensures read { OnOk result (ReadsOn want octets.old.items octets.new.items
        (S.given source.old) (S.given source.new) (S.left source.new)) }
    ensures beside { S.beside source.new ≡ S.beside source.old }
    ensures cause { HasCount (S.faults source.old) (S.faults source.new) result }
{
    let mut piece = [0; 4096];
    'pieces: while octets.len() < want {
        let room = piece.len().min(want - octets.len());
        match read_front(source, &mut piece, room) {
            Err(Failed) => return Err(ReadError::Fault),
            Ok(0) => return Ok(()),
            Ok(count) => {
                if octets.extend_from_slice(&piece[..count]).is_err() {
                    return Err(ReadError::OutOfMemory);
                }
            }
        }
    }
    Ok(())
}

/// Reads the next frame, with its length, and answers whether it is whole.
pub(crate) fn read_frame<S: Source>(source: &mut S, frame: &mut Vec<u8>) -> Result<bool, ReadError>
    ensures next { IfOk result (λ whole. IsNext whole frame.new.items (S.left source.new)) }
    ensures given { OnOk result (Gains frame.new.items (S.given source.old) (S.given source.new)) }
    ensures beside { S.beside source.new ≡ S.beside source.old }
    ensures cause { HasCount (S.faults source.old) (S.faults source.new) result }
{
    frame.clear();
    read_to(source, frame, LENGTH_OCTETS)?;
    if frame.len() < LENGTH_OCTETS {
        return Ok(false);
    }
    let end = LENGTH_OCTETS + number_of_two(frame) as usize;
    read_to(source, frame, end)?;
    Ok(frame.len() == end)
}
