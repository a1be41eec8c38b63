//! Messages to which a TSIG is added.

ghost use Rattle.std.specs.Prelude.{◌≡◌, ◌<◌, ◌≤◌, ◌+◌, ◌^◌, ◌++◌, [], length, drop, IfOk, OnOk};
ghost use Rattle.dz_name.specs.Words.{Octets};
ghost use Rattle.dz_name.specs.Name.{wire_of};
ghost use Rattle.dz_name.specs.Numbers.{number_of_two};
ghost use Rattle.dz_settings.specs.Key.{IsKey};
ghost use Rattle.dz_tsig.specs.Signing.{error_other, id_error_other, mac_octets, owner_class_ttl, request_mac};
ghost use Rattle.dz_tsig.specs.Signing.{with_tsig, signed, timers, tsig_head, tsig_octets, tsig_rdata, variables};
ghost use Rattle.dz_tsig.specs.Tsig.{hmac_sha256};
ghost use Rattle.dz_tsig.specs.inner.Hashing.{IsOf};

use crate::mac::{MAC_OCTETS, MacHasher};
use crate::signature::{CLASS_ANY, TYPE_TSIG};
use crate::tsig::six;
use dz_header::HEAD_OCTETS;
use dz_name::dns::HEADER_OCTETS;
use dz_name::numbers::{four, number_of_two, two};
use dz_name::{Name, Octets};
use dz_settings::Key;
use std::alloc::{AllocError, Global};

/// The fudge of a TSIG that is written here: by how many seconds its time may differ from the reader's (RFC 8945
/// section 10).
pub const FUDGE: u16 = 300;

/// How many octets the RDATA of a TSIG written here has.
const RDATA_OCTETS: u16 = 61;

/// The algorithm's name, `hmac-sha256.` (RFC 8945 section 6).
pub(crate) fn algorithm() -> Name
    ensures { result ≡ hmac_sha256 }
{
    let mut name = Name::root();
    name.push_label(b"hmac-sha256");
    name
}

/// Puts the TSIG timers: time and fudge (RFC 8945 section 5.3.1).
pub(crate) fn put_timers(mac: &mut MacHasher, time: u64, fudge: u16)
    ensures { (key text : Octets) → IsOf mac.old key text
        → IsOf mac.new key (text ++ timers time fudge) }
{
    mac.put(&six(time));
    mac.put(&two(fudge));
}

/// Puts the variables of a TSIG that is written here (RFC 8945 section 4.3.3).
pub(crate) fn put_own_variables(mac: &mut MacHasher, key: &Name, moment: u64)
    ensures { (secret text : Octets) → IsOf mac.old secret text
        → IsOf mac.new secret (text ++ variables key.now moment FUDGE 0 []) }
{
    put_owner(mac, key);
    mac.put(algorithm().wire());
    put_timers(mac, moment, FUDGE);
    put_error(mac, 0, &[]);
}

/// Puts owner name, class and TTL.
pub(crate) fn put_owner(mac: &mut MacHasher, key: &Name)
    ensures { (secret text : Octets) → IsOf mac.old secret text
        → IsOf mac.new secret (text ++ owner_class_ttl key.now) }
{
    mac.put(key.wire());
    mac.put(&two(CLASS_ANY));
    mac.put(&four(0));
}

/// Puts error and other data.
pub(crate) fn put_error(mac: &mut MacHasher, error: u16, other: &[u8])
    requires { length other.now < 2 ^ 16 }
    ensures { (secret text : Octets) → IsOf mac.old secret text
        → IsOf mac.new secret (text ++ error_other error other.now) }
{
    mac.put(&two(error));
    mac.put(&two(other.len() as u16));
    mac.put(other);
}

/// The MAC with which a query is signed (RFC 8945 section 5.1). The MACs of its answer cover it too.
pub fn request_mac(key: &Key, query: &[u8], moment: u64) -> [u8; MAC_OCTETS]
    requires { IsKey key.now }
    ensures { result ≡ request_mac key.now query.now moment }
{
    let mut mac = MacHasher::start(key.secret.as_slice());
    mac.put(query);
    put_own_variables(&mut mac, &key.name, moment);
    mac.finish()
}

/// A query to which a TSIG is added, at most 326 octets longer: an owner name of at most 255, ten octets and 61 of
/// RDATA.
///
/// # Errors
///
/// `AllocError` where memory runs out.
pub fn sign_query(alloc: Global, key: &Key, query: &[u8], moment: u64) -> Result<Octets, AllocError>
    requires key { IsKey key.now }
    requires header { HEADER_OCTETS ≤ length query.now }
    requires room { number_of_two (drop 10 query.now) < 65535 }
    ensures octets { IfOk result (λ o. o ≡ signed key.now query.now moment) }
    ensures short { IfOk result (λ o. length o ≤ length query.now + 326) }
{
    let mac = request_mac(key, query, moment);
    let mut out = Vec::with_capacity(alloc, query.len() + tsig_size(&key.name))?;
    push_signed(&key.name, moment, &mac, query, &mut out)?;
    Ok(Octets::from_vec(out))
}

/// Appends a message with a TSIG. `AllocError` where memory runs out.
pub(crate) fn push_signed(
    key: &Name,
    time: u64,
    mac: &[u8; MAC_OCTETS],
    message: &[u8],
    out: &mut Vec<u8>,
) -> Result<(), AllocError>
    requires header { HEADER_OCTETS ≤ length message.now }
    requires room { number_of_two (drop 10 message.now) < 65535 }
    ensures { OnOk result
        (out.new.items ≡ out.old.items ++ with_tsig key.now time mac.now message.now) }
{
    out.extend_from_slice(message.split_at(10).0)?;
    out.extend_from_slice(&two(number_of_two(message.split_at(10).1) + 1))?;
    out.extend_from_slice(message.split_at(HEADER_OCTETS).1)?;
    push_tsig(key, time, mac, number_of_two(message), out)
}

/// How many octets a TSIG written here has.
pub(crate) fn tsig_size(key: &Name) -> usize
    ensures value { result ≡ length (wire_of key.now) + 71 }
    ensures short { result ≤ 326 }
{
    key.wire().len() + HEAD_OCTETS + RDATA_OCTETS as usize
}

/// Appends a TSIG record. `AllocError` where memory runs out.
fn push_tsig(
    key: &Name,
    time: u64,
    mac: &[u8; MAC_OCTETS],
    id: u16,
    out: &mut Vec<u8>,
) -> Result<(), AllocError>
    ensures { OnOk result (out.new.items ≡ out.old.items ++ tsig_octets key.now time mac.now id) }
{
    out.extend_from_slice(key.wire())?;
    push_head(RDATA_OCTETS, out)?;
    push_rdata(time, mac, id, out)?;
    Ok(())
}

/// Appends type, class, TTL and the length of RDATA. `AllocError` where memory runs out.
fn push_head(size: u16, out: &mut Vec<u8>) -> Result<(), AllocError>
    ensures { OnOk result (out.new.items ≡ out.old.items ++ tsig_head size) }
{
    out.extend_from_slice(&two(TYPE_TSIG))?;
    out.extend_from_slice(&two(CLASS_ANY))?;
    out.extend_from_slice(&four(0))?;
    out.extend_from_slice(&two(size))
}

/// Appends RDATA. `AllocError` where memory runs out.
fn push_rdata(
    time: u64,
    mac: &[u8; MAC_OCTETS],
    id: u16,
    out: &mut Vec<u8>,
) -> Result<(), AllocError>
    ensures { OnOk result (out.new.items ≡ out.old.items ++ tsig_rdata time mac.now id) }
{
    let algorithm = algorithm();
    out.extend_from_slice(algorithm.wire())?;
    push_timers(time, out)?;
    push_mac(mac, out)?;
    push_rest(id, out)
}

/// Appends the TSIG timers. `AllocError` where memory runs out.
fn push_timers(time: u64, out: &mut Vec<u8>) -> Result<(), AllocError>
    ensures { OnOk result (out.new.items ≡ out.old.items ++ timers time FUDGE) }
{
    out.extend_from_slice(&six(time))?;
    out.extend_from_slice(&two(FUDGE))
}

/// Appends the length of a MAC, and the MAC. `AllocError` where memory runs out.
fn push_mac(mac: &[u8; MAC_OCTETS], out: &mut Vec<u8>) -> Result<(), AllocError>
    ensures { OnOk result (out.new.items ≡ out.old.items ++ mac_octets mac.now) }
{
    out.extend_from_slice(&two(MAC_OCTETS as u16))?;
    out.extend_from_slice(mac)
}

/// Appends the original ID, the error 0 and no other data. `AllocError` where memory runs out.
fn push_rest(id: u16, out: &mut Vec<u8>) -> Result<(), AllocError>
    ensures { OnOk result (out.new.items ≡ out.old.items ++ id_error_other id) }
{
    out.extend_from_slice(&two(id))?;
    out.extend_from_slice(&two(0))?;
    out.extend_from_slice(&two(0))
}
