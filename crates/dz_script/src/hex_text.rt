//! Octets in hex.

ghost use Rattle.std.specs.Prelude.{◌≡◌, ◌≤◌, IfOk, IfSome, Ok, length, option_map};
ghost use Rattle.hex.specs.Hex.{decode_of};
ghost use Rattle.dz_name.specs.declared.dns.TheConstants.{MESSAGE_OCTETS};
ghost use Rattle.dz_script.specs.Hex.{some_octets, message_octets, octets_in, taken_octets};

use dz_name::dns::MESSAGE_OCTETS;
use hex::FromHexError;
use std::alloc::{AllocError, Global};

/// The octets of a message in hex, at least one and no more than a message has; none where the text is of another form.
pub fn read_octets(alloc: Global, text: &[u8]) -> Result<Option<Vec<u8>>, AllocError>
    ensures octets { IfOk result (λ r. option_map (λ x. x.items) r ≡ octets_in text.now) }
    ensures short { IfOk result (λ r. IfSome r (λ x. length x.items ≤ MESSAGE_OCTETS)) }
{
    match hex::decode(alloc, text) {
        Err(FromHexError::OutOfMemory) => Err(AllocError),
        Err(_) => Ok(None),
        Ok(octets) => Ok(within_limit(octets)),
    }
}

/// The octets, where there is at least one and they are no more than a message has.
fn within_limit(octets: Vec<u8>) -> Option<Vec<u8>>
    ensures octets { option_map (λ x. x.items) result ≡ message_octets (Ok octets.items) }
    ensures short { IfSome result (λ x. length x.items ≤ MESSAGE_OCTETS) }
{
    if octets.is_empty() || octets.len() > MESSAGE_OCTETS {
        None
    } else {
        Some(octets)
    }
}

/// The octets that a job got, in hex, or `-` for none.
pub(crate) fn read_taken(alloc: Global, text: &[u8]) -> Result<Option<Vec<u8>>, AllocError>
    ensures { IfOk result (λ r. option_map (λ x. x.items) r ≡ taken_octets text.now) }
{
    if text == b"-".as_slice() {
        return Ok(Some(Vec::new(alloc)));
    }
    match hex::decode(alloc, text) {
        Err(FromHexError::OutOfMemory) => Err(AllocError),
        Err(_) => Ok(None),
        Ok(octets) => Ok(unless_empty(octets)),
    }
}

/// The octets, where there is at least one.
fn unless_empty(octets: Vec<u8>) -> Option<Vec<u8>>
    ensures { option_map (λ x. x.items) result ≡ some_octets (Ok octets.items) }
{
    if octets.is_empty() {
        None
    } else {
        Some(octets)
    }
}
