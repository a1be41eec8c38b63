//! What the authority section of a reply with records of DNSSEC has (RFC 4035 section 3.1).

ghost use Rattle.std.specs.Prelude.{◌≡◌, ◌+◌, ◌<◌, ◌≤◌, List, [], IfSome, length, true};
ghost use Rattle.dz_record.specs.Record.{Record};
ghost use Rattle.dz_reply.specs.inner.Alone.{IsAlone};
ghost use Rattle.dz_lookup.specs.Found.{meaning, found};
ghost use Rattle.dz_reply.specs.Secure.{gain_all, servers_of, wildcard_set, wildcard_proofs, first_wildcard};
ghost use Rattle.dz_reply.specs.Secure.{last_wildcard, authority_sets};

use crate::authority::Authority;
use crate::counted::{covering, proof};
use dz_lookup::{Chain, Found};
use dz_name::Name;
use dz_name::dns::TYPE_DNAME;
use dz_record::Rr;
use dz_zone::Version;

/// The RRsets of the authority section for what is found for the last name of a chain.
pub fn authority_of<'a>(
    version: &'a Version,
    chain: &Chain<'_>,
    kind: u16,
    last: &Found<'a>,
    name: &Name,
) -> Authority<'a>
    requires { meaning last.now
        ≡ found version.now.apex version.now.records name.now kind }
    ensures { result
        ≡ authority_sets version.now.records chain.now (meaning last.now) name.now }
{
    let near = chain.near();
    let mut authority = Authority::empty(near);
    authority.put(servers_in(last));
    put_wildcards(&mut authority, version, chain);
    authority.put(last_wildcard(version, last, name, near));
    let evidence = proof(version, name, kind, last, near);
    authority.put(evidence.first);
    authority.put(evidence.second);
    authority
}

/// The records that are found for the last name, where the authority section has none beside them: no chain leads to
/// the name, and it owns the records itself.
pub fn alone<'a>(chain: &Chain<'_>, last: &Found<'a>, name: &Name) -> Option<&'a [Rr]>
    ensures { IfSome result (λ rs. IsAlone chain.now (meaning last.now) name.now rs.now) }
{
    if chain.len() != 0 {
        return None;
    }
    match last {
        Found::Here(records) => {
            if is_own(records, name) {
                Some(records)
            } else {
                None
            }
        }
        _ => None,
    }
}

/// Whether records are owned by a name itself.
fn is_own(records: &[Rr], name: &Name) -> bool
    ensures { result ≡ true → (zone : List Record) → [] ≡ first_wildcard zone name.now records.now }
{
    match records {
        [] => false,
        [first, ..] => first.is_owned_by(name),
    }
}

/// The RRsets of the authority section of a chain that stopped.
pub fn authority_stopped<'a>(version: &'a Version, chain: &Chain<'_>) -> Authority<'a>
    ensures { result ≡ gain_all [] (wildcard_proofs version.now.records chain.now) }
{
    let mut authority = Authority::empty(chain.near());
    put_wildcards(&mut authority, version, chain);
    authority
}

/// The NS records of a zone cut, where the last name is at or below one.
fn servers_in<'a>(last: &Found<'a>) -> &'a [Rr]
    ensures { result.now ≡ servers_of (meaning last.now) }
{
    match last {
        Found::Referral(servers) => servers,
        Found::Here(_) => &[],
        Found::Alias(_) => &[],
        Found::NoData => &[],
        Found::NoName => &[],
        Found::Rename(_) => &[],
    }
}

/// For each name of a chain whose CNAME came from a wildcard, what proves that the name isn't there.
fn put_wildcards<'a>(authority: &mut Authority<'a>, version: &'a Version, chain: &Chain<'_>)
    requires { length authority.old < 4 }
    ensures gain { authority.new
        ≡ gain_all authority.old (wildcard_proofs version.now.records chain.now) }
    ensures more { length authority.new ≤ length authority.old + 16 }
{
    if chain.len() == 0 {
        return;
    }
    let near = chain.near();
    let mut name = chain.first();
    'trail: for number in 0..chain.len() {
        authority.put(wildcard_set(version, chain.record(number), &name, near));
        name = chain.target(number, &name);
    }
}

/// What proves that the name of a step isn't there, where its CNAME came from a wildcard.
fn wildcard_set<'a>(version: &'a Version, rr: &Rr, name: &Name, near: usize) -> &'a [Rr]
    ensures { result.now ≡ wildcard_set version.now.records (name.now, rr.now) }
{
    if rr.kind() == TYPE_DNAME || rr.is_owned_by(name) {
        &[]
    } else {
        covering(version, name, near)
    }
}

/// The proof that the last name isn't there, where its records came from a wildcard.
fn last_wildcard<'a>(version: &'a Version, last: &Found<'a>, name: &Name, near: usize) -> &'a [Rr]
    ensures { result.now ≡ last_wildcard version.now.records (meaning last.now) name.now }
{
    match last {
        Found::Here(records) => first_wildcard(version, records, name, near),
        Found::Alias(_) => &[],
        Found::NoData => &[],
        Found::NoName => &[],
        Found::Referral(_) => &[],
        Found::Rename(_) => &[],
    }
}

/// The same by the records that answer for the last name.
fn first_wildcard<'a>(version: &'a Version, records: &[Rr], name: &Name, near: usize) -> &'a [Rr]
    ensures { result.now ≡ first_wildcard version.now.records name.now records.now }
{
    match records {
        [] => &[],
        [first, ..] => {
            if first.is_owned_by(name) {
                &[]
            } else {
                covering(version, name, near)
            }
        }
    }
}
