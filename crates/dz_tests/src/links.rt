//! Links in memory that give octets, and the octets of `example.`.

ghost use Rattle.std.specs.Prelude.{◌≡◌, None, IfOk};

use dz_io::{MemoryDialer, Setup, Stream};
use std::alloc::{AllocError, Global};

/// A dialer whose one link gives these octets, with dials that are to fail, and calls on the link.
pub fn dialer(
    alloc: Global,
    octets: Vec<u8>,
    dials: &[u64],
    calls: &[u64],
) -> Result<MemoryDialer, AllocError>
    ensures { IfOk result (λ d. d.out ≡ None) }
{
    let mut streams = Vec::new(alloc);
    streams.push(Stream::new(octets, calls.to_vec(alloc)?))?;
    let setup = Setup::new(streams, dials.to_vec(alloc)?);
    Ok(MemoryDialer::new(alloc, setup))
}

/// `example.` with serial 5, whole, in three messages of 121, 39 and 77 octets, each after its length, with ID 2: 243
/// octets.
pub const STREAM: &[u8] =
    b"\0y\0\x02\x84\0\0\x01\0\x02\0\0\0\0\x07example\0\0\xfc\0\x01\x07example\0\0\x06\0\
    \x01\0\0\x0e\x10\0.\x02ns\x07invalid\0\x04host\x07invalid\0\0\0\0\x05\0\0\0d\0\0\0\
    <\0\0\x02X\0\0\0\x1e\x07example\0\0\x02\0\x01\0\0\x0e\x10\0\x0c\x02ns\x07invalid\0\
    \0'\0\x02\x84\0\0\0\0\x01\0\0\0\0\x03www\x07example\0\0\x01\0\x01\0\0\x0e\x10\0\x04\
    \xc0\0\x02P\0M\0\x02\x84\0\0\0\0\x01\0\0\0\0\x07example\0\0\x06\0\x01\0\0\x0e\x10\
    \0.\x02ns\x07invalid\0\x04host\x07invalid\0\0\0\0\x05\0\0\0d\0\0\0<\0\0\x02X\0\0\0\
    \x1e";
