//! TSIG records.

ghost use Rattle.std.specs.Prelude.{◌≡◌, ◌≤◌, length, IfSome};
ghost use Rattle.dz_tsig.specs.Signature.{tsig_at};
ghost use Rattle.dz_tsig.specs.Numbers.{number_of_six, six};
ghost use Rattle.dz_tsig.specs.Tsig.{after_names};

use crate::signature::CLASS_ANY;
use dz_header::RecordHead;
use dz_name::Name;
use dz_name::numbers::number_of_two;
use std::marker::Model;

/// A TSIG record on the octets of its message (RFC 8945 section 4.2): where it begins, its owner name and its RDATA.
#[derive(Debug, Drop)]
pub(crate) struct Tsig<'m> {
    pub(crate) at: usize,
    pub(crate) key: Name,
    pub(crate) algorithm: Name,
    pub(crate) time: u64,
    pub(crate) fudge: u16,
    pub(crate) mac: &'m [u8],
    pub(crate) id: u16,
    pub(crate) error: u16,
    pub(crate) other: &'m [u8],
}

impl<'m> Model for Tsig<'m> {
    ghost use Rattle.std.specs.Prelude.{◌<◌, ◌^◌, length};
    ghost use Rattle.dz_tsig.specs.Tsig.{Tsig};

    ghost Value = { Tsig };

    ghost view = { λ t. record {
      at = t.at;
      key = t.key;
      algorithm = t.algorithm;
      time = t.time;
      fudge = t.fudge;
      mac = t.mac.now;
      id = t.id;
      error = t.error;
      other = t.other.now;
    } };

    ghost invariant = { λ t. length t.other.now < 2 ^ 16 };
}

/// The TSIG that begins at an offset of a message and ends it; none where class or TTL isn't a TSIG's, or where its
/// owner name or RDATA can't be read.
pub(crate) fn tsig_at<'m>(
    message: &'m [u8],
    at: usize,
    head: RecordHead,
    rdata: &[u8],
) -> Option<Tsig<'m>>
    requires { length rdata.now ≤ length message.now }
    ensures value { result ≡ tsig_at message.now at head rdata.now }
    ensures at { IfSome result (λ t. t.at ≡ at) }
{
    if !(head.class == CLASS_ANY && head.ttl == 0) {
        return None;
    }
    let key = match Name::read_at(message, at) {
        Ok((key, _)) => key,
        Err(_) => return None,
    };
    match Name::read_at(message, message.len() - rdata.len()) {
        Ok((algorithm, end)) => after_names(at, key, algorithm, message.split_at(end).1),
        Err(_) => None,
    }
}

/// The TSIG of these names, of the rest of its RDATA: time, fudge and MAC size in ten octets; the MAC; original ID,
/// error and other length in six; other data.
fn after_names(at: usize, key: Name, algorithm: Name, octets: &[u8]) -> Option<Tsig<'_>>
    ensures value { result ≡ after_names at key algorithm octets.now }
    ensures at { IfSome result (λ t. t.at ≡ at) }
{
    if octets.len() < 10 {
        return None;
    }
    let size = number_of_two(octets.split_at(8).1) as usize;
    let rest = octets.split_at(10).1;
    if rest.len() < size + 6 {
        return None;
    }
    if rest.len() != size + 6 + number_of_two(rest.split_at(size + 4).1) as usize {
        return None;
    }
    let (mac, after) = rest.split_at(size);
    Some(Tsig {
        at,
        key,
        algorithm,
        time: number_of_six(octets),
        fudge: number_of_two(octets.split_at(6).1),
        mac,
        id: number_of_two(after),
        error: number_of_two(rest.split_at(size + 2).1),
        other: rest.split_at(size + 6).1,
    })
}

/// The number in the first six octets.
fn number_of_six(octets: &[u8]) -> u64
    requires { 6 ≤ length octets.now }
    ensures { result ≡ number_of_six octets.now }
{
    u64::from_be_bytes([
        0, 0, octets[0], octets[1], octets[2], octets[3], octets[4], octets[5],
    ])
}

/// A number of six octets.
pub(crate) fn six(number: u64) -> [u8; 6]
    ensures { result ≡ six number }
{
    let [_, _, first, second, third, fourth, fifth, sixth] = number.to_be_bytes();
    [first, second, third, fourth, fifth, sixth]
}
