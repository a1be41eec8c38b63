//! The text of a configuration.

ghost use Rattle.std.specs.Prelude.{IfOk};
ghost use Rattle.dz_io.specs.Device.{HasCauseOf};
ghost use Rattle.dz_serve.specs.Command.{IsText};

use dz_config::TEXT_OCTETS;
use dz_io::{Failed, Source};
use std::alloc::Global;

/// Why a text could not be read.
#[derive(Clone, Copy, Debug, PartialEq, Eq)]
pub(crate) enum TextError {
    /// The source failed.
    Read,
    /// No memory is left.
    OutOfMemory,
}

/// The octets of a source up to its end, or more than a configuration has.
///
/// # Errors
///
/// `Read` where the source failed, `OutOfMemory` where no memory is left.
pub(crate) fn read_text<S: Source>(alloc: Global, source: &mut S) -> Result<Vec<u8>, TextError>
    ensures text { IfOk result (λ v. IsText v.items (S.left source.old) (S.left source.new)) }
    ensures cause { HasCauseOf (S.faults source.old) (S.faults source.new) result TextError.Read }
{
    let mut text = Vec::new(alloc);
    let mut piece = [0; 4096];
    'pieces: while text.len() <= TEXT_OCTETS {
        match source.read(&mut piece) {
            Err(Failed) => return Err(TextError::Read),
            Ok(0) => return Ok(text),
            Ok(count) => {
                if text.extend_from_slice(&piece[..count]).is_err() {
                    return Err(TextError::OutOfMemory);
                }
            }
        }
    }
    Ok(text)
}
