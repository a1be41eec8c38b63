//! Catalogs and groups.

ghost use Rattle.std.specs.Prelude.{◌≡◌, IfOk};
ghost use Rattle.dz_settings.specs.Peer.{policy_of, word_of};
ghost use Rattle.dz_script.specs.Settings.{name_of, primaries_of, catalog_from, catalog_of, group_from, settings_of};
ghost use Rattle.dz_script.specs.Settings.{group_of};

use crate::fields::Fields;
use dz_name::Name;
use dz_settings::{
    CatalogSettings, GroupSettings, Groups, PRIMARIES, Peers, read_peer, read_policy, read_word,
};
use std::alloc::{AllocError, Global};

/// `<name> <policy> <primaries>`
pub(crate) fn read_catalog(
    alloc: Global,
    fields: Fields<'_>,
) -> Result<Option<CatalogSettings>, AllocError>
    ensures { IfOk result (λ settings. settings ≡ catalog_of fields.entry) }
{
    match fields.three() {
        None => Ok(None),
        Some((name, policy, primaries)) => read_catalog_from(alloc, name, policy, primaries),
    }
}

/// A catalog of these fields, without groups and without a key; none where a field is of another form.
fn read_catalog_from(
    alloc: Global,
    name: &[u8],
    policy: &[u8],
    primaries: &[u8],
) -> Result<Option<CatalogSettings>, AllocError>
    ensures { IfOk result (λ settings. settings ≡
        catalog_from (name_of name.now) (policy_of policy.now) (primaries_of primaries.now)) }
{
    let Some(name) = read_name(name) else {
        return Ok(None);
    };
    let Some(policy) = read_policy(policy) else {
        return Ok(None);
    };
    match read_primaries(alloc, primaries)? {
        None => Ok(None),
        Some(primaries) => Ok(Some(CatalogSettings {
            name,
            policy,
            primaries,
            groups: Groups::from_vec(Vec::new(alloc)),
            key: None,
        })),
    }
}

/// `<catalog> <word> <policy> <primaries>`
pub(crate) fn read_group(
    alloc: Global,
    fields: Fields<'_>,
) -> Result<Option<(Name, GroupSettings)>, AllocError>
    ensures { IfOk result (λ group. group ≡ group_of fields.entry) }
{
    let Some((catalog, fields)) = fields.split_first() else {
        return Ok(None);
    };
    let Some(catalog) = read_name(catalog) else {
        return Ok(None);
    };
    match read_group_settings(alloc, fields)? {
        None => Ok(None),
        Some(settings) => Ok(Some((catalog, settings))),
    }
}

/// `<word> <policy> <primaries>`
fn read_group_settings(
    alloc: Global,
    fields: Fields<'_>,
) -> Result<Option<GroupSettings>, AllocError>
    ensures { IfOk result (λ settings. settings ≡ settings_of fields.entry) }
{
    match fields.three() {
        None => Ok(None),
        Some((word, policy, primaries)) => read_group_from(alloc, word, policy, primaries),
    }
}

/// A group of these fields; none where a field is of another form.
fn read_group_from(
    alloc: Global,
    word: &[u8],
    policy: &[u8],
    primaries: &[u8],
) -> Result<Option<GroupSettings>, AllocError>
    ensures { IfOk result (λ settings. settings ≡
        group_from (word_of word.now) (policy_of policy.now) (primaries_of primaries.now)) }
{
    let Some(policy) = read_policy(policy) else {
        return Ok(None);
    };
    let Some(primaries) = read_primaries(alloc, primaries)? else {
        return Ok(None);
    };
    match read_word(alloc, word)? {
        None => Ok(None),
        Some(word) => Ok(Some(GroupSettings {
            word,
            policy,
            primaries,
        })),
    }
}

/// A name in master file form (RFC 1035 section 5.1).
fn read_name(text: &[u8]) -> Option<Name>
    ensures { result ≡ name_of text.now }
{
    Name::parse(text).ok()
}

/// 1 to 8 peers with commas between them.
fn read_primaries(alloc: Global, text: &[u8]) -> Result<Option<Peers>, AllocError>
    ensures { IfOk result (λ primaries. primaries ≡ primaries_of text.now) }
{
    let mut peers = Vec::new(alloc);
    let mut parts = Fields::of(text, b',');
    'parts: while let Some((part, rest)) = parts.split_first() {
        if peers.len() == PRIMARIES {
            return Ok(None);
        }
        match read_peer(part) {
            None => return Ok(None),
            Some(peer) => peers.push(peer)?,
        }
        parts = rest;
    }
    Ok(Some(Peers::from_vec(peers)))
}
