//! The head of a payload: what it has before the octets of a version.

ghost use Rattle.std.specs.Prelude.{◌≡◌, ◌≤◌, true, length, option_map};
ghost use Rattle.dz_store.specs.Kept.{number_of_eight};
ghost use Rattle.dz_store.specs.Payload.{after_names, first_name, forgotten_of, head_of, names_of, reads, whole_name};
ghost use Rattle.dz_store.specs.Payload.{zone_of};
ghost use Rattle.dz_store.specs.Store.{is_kept};

use dz_name::{Label, Name};
use std::marker::Model;

/// A kept zone before its version is read, and the octets of the version.
#[derive(Drop)]
pub(crate) struct Head<'a> {
    pub(crate) zone: Name,
    pub(crate) catalog: Name,
    pub(crate) label: Option<Label>,
    pub(crate) refreshed: u64,
    pub(crate) stream: &'a [u8],
}

impl<'a> Model for Head<'a> {
    ghost use Rattle.dz_store.specs.Payload.{Head};

    ghost Value = { Head };

    ghost view = { λ h. record {
      zone = h.zone;
      catalog = h.catalog;
      label = h.label;
      refreshed = h.refreshed;
      stream = h.stream.now;
    } };
}

/// The head of a payload.
pub(crate) fn head_of(payload: &[u8]) -> Option<Head<'_>>
    ensures { result ≡ head_of payload.now }
{
    match payload {
        [1, rest @ ..] => names_of(rest),
        _ => None,
    }
}

/// Both names, and what follows them.
fn names_of(octets: &[u8]) -> Option<Head<'_>>
    ensures { result ≡ names_of octets.now }
{
    match first_name(octets) {
        None => None,
        Some((zone, rest)) => match first_name(rest) {
            None => None,
            Some((catalog, rest)) => after_names(zone, catalog, rest),
        },
    }
}

/// What follows both names: a label preceded by its length, a moment in 8 octets, and the octets of the version.
fn after_names(zone: Name, catalog: Name, octets: &[u8]) -> Option<Head<'_>>
    ensures { result ≡ after_names zone catalog octets.now }
{
    let size = match octets {
        [size, ..] => *size as usize,
        [] => return None,
    };
    if octets.len() < size + 9 {
        return None;
    }
    Some(Head {
        zone,
        catalog,
        label: Label::new(&octets[1..size + 1]),
        refreshed: number_of_eight(&octets[size + 1..]),
        stream: &octets[size + 9..],
    })
}

/// The name at the beginning of some octets, and what follows it.
pub(crate) fn first_name(octets: &[u8]) -> Option<(Name, &[u8])>
    ensures { option_map (λ x. (x.0, x.1.now)) result ≡ first_name octets.now }
{
    match Name::read_at(octets, 0) {
        Ok((name, end)) => Some((name, &octets[end..])),
        Err(_) => None,
    }
}

/// The forgotten zone of which a payload is written.
pub(crate) fn forgotten_of(payload: &[u8]) -> Option<Name>
    ensures { result ≡ forgotten_of payload.now }
{
    match payload {
        [2, rest @ ..] => whole_name(rest),
        _ => None,
    }
}

/// The name of which some octets are the wire form.
fn whole_name(octets: &[u8]) -> Option<Name>
    ensures { result ≡ whole_name octets.now }
{
    match first_name(octets) {
        None => None,
        Some((zone, _)) => {
            if octets == zone.wire() {
                Some(zone)
            } else {
                None
            }
        }
    }
}

/// The zone that a payload is of, where it can be read: the name after its first octet.
pub(crate) fn zone_of(payload: &[u8]) -> Option<Name>
    requires { reads payload.now ≡ true }
    ensures { result ≡ zone_of payload.now }
{
    if payload.is_empty() {
        return None;
    }
    zone_first(&payload[1..])
}

/// The name at the beginning of some octets.
fn zone_first(octets: &[u8]) -> Option<Name>
    ensures { result ≡ option_map (λ x. x.0) (first_name octets.now) }
{
    match first_name(octets) {
        None => None,
        Some((zone, _)) => Some(zone),
    }
}

/// Whether a payload is of a kept zone, where it can be read: whether its first octet is 1.
pub(crate) fn is_kept(payload: &[u8]) -> bool
    requires { reads payload.now ≡ true }
    ensures { result ≡ is_kept payload.now }
{
    match payload {
        [kind, ..] => *kind == 1,
        [] => false,
    }
}

/// The number in the first eight octets.
fn number_of_eight(octets: &[u8]) -> u64
    requires { 8 ≤ length octets.now }
    ensures { result ≡ number_of_eight octets.now }
{
    u64::from_be_bytes([
        octets[0], octets[1], octets[2], octets[3], octets[4], octets[5], octets[6], octets[7],
    ])
}
