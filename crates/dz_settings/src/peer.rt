//! The texts of peers, policies and words.

ghost use Rattle.std.specs.Prelude.{◌≡◌, ◌==◌, ◌+◌, ◌<◌, IfOk, IfSome, option_map, length, drop, position};
ghost use Rattle.dz_name.specs.Decimal.{number_of};
ghost use Rattle.dz_settings.specs.Peer.{cut, numbers_of, address_of, port_of, host_of, peer_of, policy_of, word_of};

use crate::config::Policy;
use crate::limits::is_word;
use dz_io::Peer;
use dz_name::{Octets, read_number};
use std::alloc::{AllocError, Global};

/// The port of a peer without one: that of DNS (RFC 1035 section 4.2).
pub const DNS_PORT: u16 = 53;

/// A peer: `a.b.c.d` or `a.b.c.d:port`, numbers without leading zeros, a port from 1 to 65535, or 53 where it is
/// missing.
pub fn read_peer(text: &[u8]) -> Option<Peer>
    ensures { result ≡ peer_of text.now }
{
    match cut(b':', text) {
        None => read_host(text),
        Some((before, behind)) => {
            let address = read_address(before)?;
            let port = read_port(behind)?;
            Some(Peer { address, port })
        }
    }
}

/// A peer by its address alone, `a.b.c.d`: at port 53.
pub fn read_host(text: &[u8]) -> Option<Peer>
    ensures { result ≡ host_of text.now }
{
    let address = read_address(text)?;
    Some(Peer {
        address,
        port: DNS_PORT,
    })
}

/// A policy by its name: `off`, `present` or `require`.
pub fn read_policy(text: &[u8]) -> Option<Policy>
    ensures { result ≡ policy_of text.now }
{
    if text == b"off".as_slice() {
        Some(Policy::Off)
    } else if text == b"present".as_slice() {
        Some(Policy::Present)
    } else if text == b"require".as_slice() {
        Some(Policy::Require)
    } else {
        None
    }
}

/// A word of 1 to 255 octets of visible ASCII; none of other octets. The error is out of memory.
pub fn read_word(alloc: Global, text: &[u8]) -> Result<Option<Octets>, AllocError>
    ensures { IfOk result (λ word. word ≡ word_of text.now) }
{
    if !is_word(text) {
        return Ok(None);
    }
    let word = Vec::from_slice(alloc, text)?;
    Ok(Some(Octets::from_vec(word)))
}

/// What is before the first such octet, and after it; none where there is no such octet.
pub fn cut(octet: u8, text: &[u8]) -> Option<(&[u8], &[u8])>
    ensures { option_map (λ parts. (parts.0.now, parts.1.now)) result ≡ cut octet text.now }
{
    match place_of(octet, text) {
        None => None,
        Some(at) => Some((&text[..at], behind(at, text))),
    }
}

/// The place of the first such octet.
fn place_of(octet: u8, text: &[u8]) -> Option<usize>
    ensures place { result ≡ position (λ x. x == octet) text.now }
    ensures within { IfSome result (λ at. at < length text.now) }
{
    text.iter().position(|x| *x == octet)
}

/// What follows a place.
fn behind(at: usize, text: &[u8]) -> &[u8]
    requires { at < length text.now }
    ensures { result.now ≡ drop (at + 1) text.now }
{
    &text[at + 1..]
}

/// An IPv4 address; none where the text is no address.
fn read_address(text: &[u8]) -> Option<[u8; 4]>
    ensures { result ≡ address_of text.now }
{
    let (first, rest) = cut(b'.', text)?;
    let (second, rest) = cut(b'.', rest)?;
    let (third, fourth) = cut(b'.', rest)?;
    read_numbers(first, second, third, fourth)
}

/// The four numbers of an address; none where one of them is no number up to 255.
fn read_numbers(first: &[u8], second: &[u8], third: &[u8], fourth: &[u8]) -> Option<[u8; 4]>
    ensures { result ≡ numbers_of first.now second.now third.now fourth.now }
{
    match (
        read_octet(first),
        read_octet(second),
        read_octet(third),
        read_octet(fourth),
    ) {
        (Some(a), Some(b), Some(c), Some(d)) => Some([a, b, c, d]),
        _ => None,
    }
}

/// A number up to 255; none of other texts.
fn read_octet(text: &[u8]) -> Option<u8>
    ensures { result ≡ number_of 255 text.now }
{
    match read_number(255, text) {
        None => None,
        Some(number) => Some(number as u8),
    }
}

/// A port from 1 to 65535; none of other texts.
fn read_port(text: &[u8]) -> Option<u16>
    ensures { result ≡ port_of text.now }
{
    match read_number(65_535, text) {
        None => None,
        Some(number) => {
            if 1 <= number {
                Some(number as u16)
            } else {
                None
            }
        }
    }
}
