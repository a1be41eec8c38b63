//! Whether the messages of a stream are signed with a key.

ghost use Rattle.std.specs.Prelude.{◌≡◌, ◌++◌, drop, is_none, ℕ, Option};
ghost use Rattle.dz_name.specs.Words.{Octets};
ghost use Rattle.dz_message.specs.Frame.{messages_in};
ghost use Rattle.dz_tsig.specs.Checking.{Tells, first_state, is_of_key, is_timely, none_follows, signed_step, step};
ghost use Rattle.dz_tsig.specs.Checking.{tsig_fault, unsigned_step};
ghost use Rattle.dz_tsig.specs.Hmac.{hmac};
ghost use Rattle.dz_settings.specs.Key.{IsKey};
ghost use Rattle.dz_tsig.specs.Signing.{mac_octets, variables, variables_or_timers, without_tsig};
ghost use Rattle.dz_tsig.specs.inner.Chains.{IsAt, Leads, state_of};
ghost use Rattle.dz_tsig.specs.inner.Hashing.{IsOf};
ghost use Rattle.dz_tsig.specs.inner.Places.{IsPlacedTsig};

use crate::fault::TsigFault;
use crate::mac::{MAC_OCTETS, MacHasher, is_mac};
use crate::sign::{algorithm, put_error, put_owner, put_timers};
use crate::signature::{Signature, signature_of};
use crate::tsig::Tsig;
use dz_message::next_frame;
use dz_name::Name;
use dz_name::dns::HEADER_OCTETS;
use dz_name::numbers::{number_of_two, two};
use dz_settings::Key;

/// How many messages in a row may have no TSIG (RFC 8945 section 5.3.1).
const UNSIGNED_MOST: u8 = 99;

/// Whether the messages of a stream, each preceded by its length, are signed with a key, as the answer to a request
/// with this MAC that came about this moment. One pass, which takes no memory.
///
/// Octets that follow the last whole message aren't looked at, and without a message there is no fault: what is known
/// to be signed is the whole messages alone.
///
/// # Errors
///
/// The first fault of the first message that has one.
pub fn check_stream(
    key: &Key,
    request_mac: &[u8; MAC_OCTETS],
    octets: &[u8],
    moment: u64,
) -> Result<(), TsigFault>
    requires { IsKey key.now }
    ensures { Tells result (tsig_fault key.now request_mac.now octets.now moment) }
{
    let mut chain = Chain::begin(key, request_mac);
    let mut at = 0;
    'messages: while let Some((begin, end)) = next_frame(octets, at) {
        chain = step(
            key,
            moment,
            is_last(octets, end),
            chain,
            &octets[begin..end],
        )?;
        at = end;
    }
    Ok(())
}

/// Whether no whole frame follows this offset.
fn is_last(octets: &[u8], at: usize) -> bool
    ensures { result ≡ none_follows (messages_in (drop at octets.now)) }
{
    next_frame(octets, at).is_none()
}

/// What is known before a message: the MAC of the octets so far, which are the previous MAC and the unsigned messages
/// since; how many these are; and the time of the previous TSIG, none before the first message.
#[derive(Drop)]
pub(crate) struct Chain {
    mac: MacHasher,
    unsigned: u8,
    time: Option<u64>,
}

impl Chain {
    /// The chain before the first message.
    fn begin(key: &Key, request_mac: &[u8; MAC_OCTETS]) -> Chain
        requires { IsKey key.now }
        ensures { IsAt key.now.secret (first_state request_mac.now) result }
    {
        Chain {
            mac: start_after(key, request_mac),
            unsigned: 0,
            time: None,
        }
    }
}

/// The hasher of a MAC that covers the length of another MAC, that MAC, and what will be put.
pub(crate) fn start_after(key: &Key, prior: &[u8; MAC_OCTETS]) -> MacHasher
    requires { IsKey key.now }
    ensures { IsOf result key.now.secret (mac_octets prior.now) }
{
    let mut mac = MacHasher::start(key.secret.as_slice());
    mac.put(&two(MAC_OCTETS as u16));
    mac.put(prior);
    mac
}

/// Judges one more message: what is known after it, or its fault.
fn step(
    key: &Key,
    moment: u64,
    is_last: bool,
    chain: Chain,
    message: &[u8],
) -> Result<Chain, TsigFault>
    requires { IsKey key.now }
    ensures { (digested : Octets) → IsOf chain.mac key.now.secret digested → Leads key.now.secret
        (step key.now moment is_last (state_of chain digested) message.now) result }
{
    match signature_of(message) {
        Signature::Absent => let_pass(is_last, chain, message),
        Signature::Malformed => Err(TsigFault::Form),
        Signature::Present(tsig) => verify(key, moment, chain, message, &tsig),
    }
}

/// Judges a message without a TSIG: `Missing` where it may not be without one.
fn let_pass(is_last: bool, chain: Chain, message: &[u8]) -> Result<Chain, TsigFault>
    ensures { (secret digested : Octets) → IsOf chain.mac secret digested → Leads secret
        (unsigned_step is_last (state_of chain digested) message.now) result }
{
    let Chain {
        mut mac,
        unsigned,
        time,
    } = chain;
    if time.is_none() || (is_last || UNSIGNED_MOST <= unsigned) {
        return Err(TsigFault::Missing);
    }
    mac.put(message);
    Ok(Chain {
        mac,
        unsigned: unsigned + 1,
        time,
    })
}

/// Judges a message with a TSIG. The errors are `Name`, `Mac`, `Time` and `Error`, in this order.
fn verify(
    key: &Key,
    moment: u64,
    chain: Chain,
    message: &[u8],
    tsig: &Tsig<'_>,
) -> Result<Chain, TsigFault>
    requires key { IsKey key.now }
    requires placed { IsPlacedTsig message.now tsig.now }
    ensures { (digested : Octets) → IsOf chain.mac key.now.secret digested → Leads key.now.secret
        (signed_step key.now moment (state_of chain digested) message.now tsig.now) result }
{
    if !is_of_key(key, tsig) {
        return Err(TsigFault::Name);
    }
    let Chain { mac, time, .. } = chain;
    let computed = mac_of(key, mac, time.is_none(), message, tsig);
    if !is_mac(tsig.mac, &computed) {
        return Err(TsigFault::Mac);
    }
    if !is_timely(moment, time, tsig) {
        return Err(TsigFault::Time);
    }
    if tsig.error != 0 {
        return Err(TsigFault::Error);
    }
    Ok(Chain {
        mac: start_after(key, &computed),
        unsigned: 0,
        time: Some(tsig.time),
    })
}

/// Whether the TSIG names the key, and HMAC-SHA-256.
fn is_of_key(key: &Key, tsig: &Tsig<'_>) -> bool
    ensures { result ≡ is_of_key key.now tsig.now }
{
    tsig.key.same(&key.name) && tsig.algorithm.same(&algorithm())
}

/// Whether the time is within the fudge of the moment, or not less than the previous time, where there is one.
fn is_timely(moment: u64, before: Option<u64>, tsig: &Tsig<'_>) -> bool
    ensures { result ≡ is_timely moment before tsig.now }
{
    match before {
        None => {
            moment.saturating_sub(tsig.time) <= tsig.fudge as u64
                && tsig.time.saturating_sub(moment) <= tsig.fudge as u64
        }
        Some(before) => before <= tsig.time,
    }
}

/// The MAC that a message with a TSIG must have, from a hasher of what was digested before it.
fn mac_of(
    key: &Key,
    before: MacHasher,
    is_first: bool,
    message: &[u8],
    tsig: &Tsig<'_>,
) -> [u8; MAC_OCTETS]
    requires { IsPlacedTsig message.now tsig.now }
    ensures { (digested : Octets) (time : Option ℕ) → IsOf before key.now.secret digested
        → is_first ≡ is_none time
        → result ≡ hmac key.now.secret (digested ++ without_tsig message.now tsig.now
        ++ variables_or_timers key.now.name time tsig.now) }
{
    let mut mac = before;
    put_without_tsig(&mut mac, message, tsig);
    if is_first {
        put_variables(&mut mac, &key.name, tsig);
    } else {
        put_timers(&mut mac, tsig.time, tsig.fudge);
    }
    mac.finish()
}

/// Puts a message without its TSIG.
fn put_without_tsig(mac: &mut MacHasher, message: &[u8], tsig: &Tsig<'_>)
    requires { IsPlacedTsig message.now tsig.now }
    ensures { (key text : Octets) → IsOf mac.old key text
        → IsOf mac.new key (text ++ without_tsig message.now tsig.now) }
{
    mac.put(&two(tsig.id));
    mac.put(message.split_at(2).1.split_at(8).0);
    mac.put(&two(number_of_two(message.split_at(10).1).saturating_sub(1)));
    mac.put(message.split_at(tsig.at).0.split_at(HEADER_OCTETS).1);
}

/// Puts the variables of a TSIG (RFC 8945 section 4.3.3).
fn put_variables(mac: &mut MacHasher, key: &Name, tsig: &Tsig<'_>)
    ensures { (secret text : Octets) → IsOf mac.old secret text → IsOf mac.new secret
        (text ++ variables key.now tsig.now.time tsig.now.fudge tsig.now.error tsig.now.other) }
{
    put_owner(mac, key);
    mac.put(algorithm().wire());
    put_timers(mac, tsig.time, tsig.fudge);
    put_error(mac, tsig.error, tsig.other);
}
