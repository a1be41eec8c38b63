//! Answers of several messages, each of which is signed (RFC 8945 section 5.3.1).

ghost use Rattle.std.specs.Prelude.{◌≡◌, ◌<◌, ◌≤◌, ◌++◌, [], true, IfOk, drop, is_ok, length, OnOk};
ghost use Rattle.dz_name.specs.Numbers.{number_of_two};
ghost use Rattle.dz_message.specs.Frame.{messages_in};
ghost use Rattle.dz_message.specs.Reading.{message_of};
ghost use Rattle.dz_settings.specs.Key.{IsKey};
ghost use Rattle.dz_tsig.specs.Signing.{mac_octets, with_tsig};
ghost use Rattle.dz_tsig.specs.Streams.{are_messages, is_message, next_mac, own_variables_or_timers, signed_messages};
ghost use Rattle.dz_tsig.specs.Answers.{IsSigned};
ghost use Rattle.dz_tsig.specs.declared.streams.SignError.TheVariants.{OutOfMemory};
ghost use Rattle.dz_tsig.specs.inner.Streams.{Appends};

use crate::check::start_after;
use crate::mac::MAC_OCTETS;
use crate::sign::{FUDGE, push_signed, put_own_variables, put_timers, tsig_size};
use dz_message::{MessageError, next_frame, read_message};
use dz_name::dns::{HEADER_OCTETS, MESSAGE_OCTETS};
use dz_name::numbers::two;
use dz_name::{Name, Octets};
use dz_settings::Key;
use std::alloc::{AllocError, Global};

/// Why a stream wasn't signed.
#[derive(Clone, Copy, Debug, PartialEq, Eq)]
pub enum SignError {
    /// The octets aren't whole frames of messages.
    BadFrames,
    /// A signed message would have more than 65,535 octets.
    TooLong,
    /// Out of memory.
    OutOfMemory,
}

impl From<AllocError> for SignError {
    ghost from_gives = { λ _ e. e ≡ OutOfMemory };

    /// Out of memory.
    fn from(_error: AllocError) -> SignError {
        SignError::OutOfMemory
    }
}

/// Signs each message of a stream, as the answer to a request with this MAC; each message is preceded by its length. A
/// message that has a TSIG gets another one.
///
/// # Errors
///
/// `BadFrames` exactly where the octets aren't whole frames of messages, and otherwise `TooLong` exactly where a signed
/// message would have more than 65,535 octets; `OutOfMemory` where memory runs out.
pub fn sign_stream(
    alloc: Global,
    key: &Key,
    request_mac: &[u8; MAC_OCTETS],
    octets: Octets,
    moment: u64,
) -> Result<Octets, SignError>
    requires { IsKey key.now }
    ensures { IsSigned key.now moment request_mac.now octets result }
{
    if !are_messages(alloc, &octets)? {
        return Err(SignError::BadFrames);
    }
    sign_messages(alloc, key, request_mac, &octets, moment)
}

/// Whether octets are whole frames of messages. `AllocError` where memory runs out.
fn are_messages(alloc: Global, octets: &Octets) -> Result<bool, AllocError>
    ensures { IfOk result (λ b. b ≡ are_messages octets.now) }
{
    let octets = octets.as_slice();
    let mut at = 0;
    'messages: while let Some((begin, end)) = next_frame(octets, at) {
        if !is_message(alloc, &octets[begin..end])? {
            return Ok(false);
        }
        at = end;
    }
    Ok(at == octets.len())
}

/// Whether octets are a message. `AllocError` where memory runs out.
fn is_message(alloc: Global, octets: &[u8]) -> Result<bool, AllocError>
    ensures { IfOk result (λ b. b ≡ is_message octets.now) }
{
    match read_message(alloc, octets) {
        Ok(_) => Ok(true),
        Err(MessageError::Fault(_)) => Ok(false),
        Err(MessageError::OutOfMemory) => Err(AllocError),
    }
}

/// The signed messages of octets that are whole frames of messages. `TooLong` or `OutOfMemory` as in [`sign_stream`].
fn sign_messages(
    alloc: Global,
    key: &Key,
    request_mac: &[u8; MAC_OCTETS],
    octets: &Octets,
    moment: u64,
) -> Result<Octets, SignError>
    requires key { IsKey key.now }
    requires messages { are_messages octets.now ≡ true }
    ensures { IsSigned key.now moment request_mac.now octets.now result }
{
    let octets = octets.as_slice();
    let mut out = Vec::new(alloc);
    let mut prior = *request_mac;
    let mut is_first = true;
    let mut at = 0;
    'messages: while let Some((begin, end)) = next_frame(octets, at) {
        let message = &octets[begin..end];
        prior = next_mac(key, &prior, message, moment, is_first);
        push_signed_frame(&key.name, moment, &prior, message, &mut out)?;
        is_first = false;
        at = end;
    }
    Ok(Octets::from_vec(out))
}

/// Appends the frame of a message with a TSIG. `TooLong` or `OutOfMemory` as in [`sign_stream`].
fn push_signed_frame(
    key: &Name,
    time: u64,
    mac: &[u8; MAC_OCTETS],
    message: &[u8],
    out: &mut Vec<u8>,
) -> Result<(), SignError>
    requires header { HEADER_OCTETS ≤ length message.now }
    requires room { number_of_two (drop 10 message.now) < 65535 }
    requires short { length message.now ≤ MESSAGE_OCTETS }
    ensures { Appends (with_tsig key.now time mac.now message.now)
        out.old.items out.new.items result }
{
    let size = message.len() + tsig_size(key);
    if size > MESSAGE_OCTETS {
        return Err(SignError::TooLong);
    }
    out.extend_from_slice(&two(size as u16))?;
    push_signed(key, time, mac, message, out)?;
    Ok(())
}

/// The MAC of a message that follows another MAC.
fn next_mac(
    key: &Key,
    prior: &[u8; MAC_OCTETS],
    message: &[u8],
    moment: u64,
    is_first: bool,
) -> [u8; MAC_OCTETS]
    requires { IsKey key.now }
    ensures { result ≡ next_mac key.now moment is_first prior.now message.now }
{
    let mut mac = start_after(key, prior);
    mac.put(message);
    if is_first {
        put_own_variables(&mut mac, &key.name, moment);
    } else {
        put_timers(&mut mac, moment, FUDGE);
    }
    mac.finish()
}
