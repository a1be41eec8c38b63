//! The settings in a document's tables, or the least of the faults found in them. Where a function has two errors, the
//! outer one is out of memory and the inner one is the least fault; `BadName`, `UnknownPolicy` and `BadPeer` are the
//! faults of texts.

ghost use Rattle.std.specs.Prelude.{◌≡◌, IfOk, Some, [], map, codes};
ghost use Rattle.toml.specs.View.{view, table_view};
ghost use Rattle.dz_config.specs.Document.{text_at, name_from, policy_from, peer_from, primary_of, primaries_of};
ghost use Rattle.dz_config.specs.Document.{group_in, group_of, groups_of, secret_kept, secret_from, key_in, key_of};
ghost use Rattle.dz_config.specs.Document.{catalog_in, catalog_of, catalogs_of, host_from, downstream_host, hosts_of};
ghost use Rattle.dz_config.specs.Document.{settings_of};
ghost use Rattle.dz_config.specs.Reading.{both, made, read_in, gathered};

use crate::fault::ConfigFault;
use crate::keys::{Place, known};
use crate::least_fault::{both, more};
use crate::tree::{table_of, text_at, text_of, value_at, values_at};
use dz_io::Peer;
use dz_name::{Name, Octets};
use dz_settings::{
    CatalogSettings, Config, GroupSettings, Groups, Key, Peers, Policy, Secret, read_host,
    read_peer, read_policy,
};
use hex::FromHexError;
use std::alloc::{AllocError, Global};
use toml::{Table, Value};

/// The name of a text.
fn name_from(text: &str) -> Result<Name, ConfigFault>
    ensures { result ≡ name_from text.now }
{
    match Name::parse(text.as_bytes()) {
        Ok(name) => Ok(name),
        Err(_) => Err(ConfigFault::BadName),
    }
}

/// The name of a catalog.
fn name_at(table: &Table) -> Result<Name, ConfigFault>
    ensures { result ≡ read_in name_from (text_at (codes "name") (table_view table.now)) }
{
    name_from(text_at(table, "name")?)
}

/// The policy of a text.
fn policy_from(text: &str) -> Result<Policy, ConfigFault>
    ensures { result ≡ policy_from text.now }
{
    match read_policy(text.as_bytes()) {
        Some(policy) => Ok(policy),
        None => Err(ConfigFault::UnknownPolicy),
    }
}

/// The policy of a catalog or a group.
fn policy_at(table: &Table) -> Result<Policy, ConfigFault>
    ensures { result ≡ read_in policy_from (text_at (codes "policy") (table_view table.now)) }
{
    policy_from(text_at(table, "policy")?)
}

/// The peer of a text.
fn peer_from(text: &str) -> Result<Peer, ConfigFault>
    ensures { result ≡ peer_from text.now }
{
    match read_peer(text.as_bytes()) {
        Some(peer) => Ok(peer),
        None => Err(ConfigFault::BadPeer),
    }
}

/// Where the server listens.
fn listen_at(table: &Table) -> Result<Peer, ConfigFault>
    ensures { result ≡ read_in peer_from (text_at (codes "listen") (table_view table.now)) }
{
    peer_from(text_at(table, "listen")?)
}

/// One of the primaries.
fn primary_of(value: &Value) -> Result<Peer, ConfigFault>
    ensures { result ≡ primary_of (view value.now) }
{
    peer_from(text_of(value)?)
}

/// The primaries of these values.
fn primaries(alloc: Global, values: &[Value]) -> Result<Result<Vec<Peer>, ConfigFault>, AllocError>
    ensures { IfOk result (λ r. made (λ v. v.items) r
        ≡ gathered (map primary_of (map view values.now))) }
{
    let mut all = Ok(Vec::new(alloc));
    'values: for value in values {
        all = more(all, primary_of(value))?;
    }
    Ok(all)
}

/// The primaries of a catalog or a group.
fn primaries_at(alloc: Global, table: &Table) -> Result<Result<Peers, ConfigFault>, AllocError>
    ensures { IfOk result (λ r. r ≡ primaries_of (table_view table.now)) }
{
    match values_at(table, "primaries") {
        Err(fault) => Ok(Err(fault)),
        Ok(values) => match primaries(alloc, values)? {
            Ok(peers) => Ok(Ok(Peers::from_vec(peers))),
            Err(fault) => Ok(Err(fault)),
        },
    }
}

/// The word of a group, within its limits or not.
fn word_at(alloc: Global, table: &Table) -> Result<Result<Octets, ConfigFault>, AllocError>
    ensures { IfOk result (λ r. r ≡ text_at (codes "word") (table_view table.now)) }
{
    match text_at(table, "word") {
        Err(fault) => Ok(Err(fault)),
        Ok(text) => {
            let word = Vec::from_slice(alloc, text.as_bytes())?;
            Ok(Ok(Octets::from_vec(word)))
        }
    }
}

/// A group of its parts.
fn group_from(
    parts: Result<((), (Octets, (Policy, Peers))), ConfigFault>,
) -> Result<GroupSettings, ConfigFault>
    ensures { result ≡ made (λ p. record { word = p.1.0; policy = p.1.1.0; primaries = p.1.1.1 })
        parts }
{
    let ((), (word, (policy, primaries))) = parts?;
    Ok(GroupSettings {
        word,
        policy,
        primaries,
    })
}

/// The group of a table.
fn group_in(alloc: Global, table: &Table) -> Result<Result<GroupSettings, ConfigFault>, AllocError>
    ensures { IfOk result (λ r. r ≡ group_in (table_view table.now)) }
{
    let word = word_at(alloc, table)?;
    let primaries = primaries_at(alloc, table)?;
    let known = known(Place::Group, table);
    let fetched = both(policy_at(table), primaries);
    let parts = both(word, fetched);
    let all = both(known, parts);
    Ok(group_from(all))
}

/// The group that a value is.
fn group_of(alloc: Global, value: &Value) -> Result<Result<GroupSettings, ConfigFault>, AllocError>
    ensures { IfOk result (λ r. r ≡ group_of (view value.now)) }
{
    match table_of(value) {
        Ok(table) => group_in(alloc, table),
        Err(fault) => Ok(Err(fault)),
    }
}

/// The groups of these values.
fn groups(
    alloc: Global,
    values: &[Value],
) -> Result<Result<Vec<GroupSettings>, ConfigFault>, AllocError>
    ensures { IfOk result (λ r. made (λ v. v.items) r
        ≡ gathered (map group_of (map view values.now))) }
{
    let mut all = Ok(Vec::new(alloc));
    'values: for value in values {
        let group = group_of(alloc, value)?;
        all = more(all, group)?;
    }
    Ok(all)
}

/// The groups of a catalog; none where it doesn't have the key.
fn groups_at(alloc: Global, table: &Table) -> Result<Result<Groups, ConfigFault>, AllocError>
    ensures { IfOk result (λ r. r ≡ groups_of (table_view table.now)) }
{
    if value_at(table, "group").is_none() {
        return Ok(Ok(Groups::from_vec(Vec::new(alloc))));
    }
    match values_at(table, "group") {
        Err(fault) => Ok(Err(fault)),
        Ok(values) => match groups(alloc, values)? {
            Ok(groups) => Ok(Ok(Groups::from_vec(groups))),
            Err(fault) => Ok(Err(fault)),
        },
    }
}

/// The secret of no octets, which no key may have.
fn no_secret() -> Secret
    ensures { result ≡ [] }
{
    match Secret::from_slice(&[]) {
        Some(secret) => secret,
        None => unreachable!(),
    }
}

/// The secret of these octets; that of no octets where they are too many.
fn secret_kept(octets: &[u8]) -> Secret
    ensures { result ≡ secret_kept octets.now }
{
    match Secret::from_slice(octets) {
        Some(secret) => secret,
        None => no_secret(),
    }
}

/// The secret of a text in hex; that of no octets where the text isn't hex. The error is out of memory.
fn secret_from(alloc: Global, text: &str) -> Result<Secret, AllocError>
    ensures { IfOk result (λ o. o ≡ secret_from text.now) }
{
    match hex::decode(alloc, text.as_bytes()) {
        Ok(octets) => Ok(secret_kept(octets.as_slice())),
        Err(FromHexError::OutOfMemory) => Err(AllocError),
        Err(_) => Ok(no_secret()),
    }
}

/// The secret of a catalog.
fn secret_at(alloc: Global, table: &Table) -> Result<Result<Secret, ConfigFault>, AllocError>
    ensures { IfOk result (λ r. r
        ≡ made secret_from (text_at (codes "secret") (table_view table.now))) }
{
    match text_at(table, "secret") {
        Err(fault) => Ok(Err(fault)),
        Ok(text) => Ok(Ok(secret_from(alloc, text)?)),
    }
}

/// The name of a key.
fn key_name_at(table: &Table) -> Result<Name, ConfigFault>
    ensures { result ≡ read_in name_from (text_at (codes "key") (table_view table.now)) }
{
    name_from(text_at(table, "key")?)
}

/// A key of its parts.
fn key_from(parts: Result<(Name, Secret), ConfigFault>) -> Result<Option<Key>, ConfigFault>
    ensures { result ≡ made Some (made (λ p. record { name = p.0; secret = p.1 }) parts) }
{
    let (name, secret) = parts?;
    Ok(Some(Key { name, secret }))
}

/// The key of a table that has a name or a secret of one.
fn key_in(alloc: Global, table: &Table) -> Result<Result<Option<Key>, ConfigFault>, AllocError>
    ensures { IfOk result (λ r. r ≡ made Some (key_in (table_view table.now))) }
{
    let secret = secret_at(alloc, table)?;
    let parts = both(key_name_at(table), secret);
    Ok(key_from(parts))
}

/// The key of a catalog; none where it has neither a name nor a secret of one.
fn key_at(alloc: Global, table: &Table) -> Result<Result<Option<Key>, ConfigFault>, AllocError>
    ensures { IfOk result (λ r. r ≡ key_of (table_view table.now)) }
{
    if value_at(table, "key").is_none() && value_at(table, "secret").is_none() {
        return Ok(Ok(None));
    }
    key_in(alloc, table)
}

/// A catalog of its parts.
fn catalog_from(
    parts: Result<((), (Name, (Policy, (Peers, (Groups, Option<Key>))))), ConfigFault>,
) -> Result<CatalogSettings, ConfigFault>
    ensures { result ≡ made (λ p.
        record {
          name = p.1.0;
          policy = p.1.1.0;
          primaries = p.1.1.1.0;
          groups = p.1.1.1.1.0;
          key = p.1.1.1.1.1;
        })
        parts }
{
    let ((), (name, (policy, (primaries, (groups, key))))) = parts?;
    Ok(CatalogSettings {
        name,
        policy,
        primaries,
        groups,
        key,
    })
}

/// The catalog of a table.
fn catalog_in(
    alloc: Global,
    table: &Table,
) -> Result<Result<CatalogSettings, ConfigFault>, AllocError>
    ensures { IfOk result (λ r. r ≡ catalog_in (table_view table.now)) }
{
    let primaries = primaries_at(alloc, table)?;
    let groups = groups_at(alloc, table)?;
    let key = key_at(alloc, table)?;
    let known = known(Place::Catalog, table);
    let rest = both(groups, key);
    let hosts = both(primaries, rest);
    let fetched = both(policy_at(table), hosts);
    let parts = both(name_at(table), fetched);
    let all = both(known, parts);
    Ok(catalog_from(all))
}

/// The catalog that a value is.
fn catalog_of(
    alloc: Global,
    value: &Value,
) -> Result<Result<CatalogSettings, ConfigFault>, AllocError>
    ensures { IfOk result (λ r. r ≡ catalog_of (view value.now)) }
{
    match table_of(value) {
        Ok(table) => catalog_in(alloc, table),
        Err(fault) => Ok(Err(fault)),
    }
}

/// The catalogs of these values.
fn catalogs(
    alloc: Global,
    values: &[Value],
) -> Result<Result<Vec<CatalogSettings>, ConfigFault>, AllocError>
    ensures { IfOk result (λ r. made (λ v. v.items) r
        ≡ gathered (map catalog_of (map view values.now))) }
{
    let mut all = Ok(Vec::new(alloc));
    'values: for value in values {
        let catalog = catalog_of(alloc, value)?;
        all = more(all, catalog)?;
    }
    Ok(all)
}

/// The catalogs of a document.
fn catalogs_at(alloc: Global, table: &Table) -> Result<Result<Config, ConfigFault>, AllocError>
    ensures { IfOk result (λ r. r ≡ catalogs_of (table_view table.now)) }
{
    match values_at(table, "catalog") {
        Err(fault) => Ok(Err(fault)),
        Ok(values) => match catalogs(alloc, values)? {
            Ok(catalogs) => Ok(Ok(Config::from_vec(catalogs))),
            Err(fault) => Ok(Err(fault)),
        },
    }
}

/// A host by its address alone.
fn host_from(text: &str) -> Result<Peer, ConfigFault>
    ensures { result ≡ host_from text.now }
{
    match read_host(text.as_bytes()) {
        Some(host) => Ok(host),
        None => Err(ConfigFault::BadPeer),
    }
}

/// One of the hosts to which zones are sent.
fn downstream_host(value: &Value) -> Result<Peer, ConfigFault>
    ensures { result ≡ downstream_host (view value.now) }
{
    host_from(text_of(value)?)
}

/// The hosts of these values, however many.
fn hosts(alloc: Global, values: &[Value]) -> Result<Result<Vec<Peer>, ConfigFault>, AllocError>
    ensures { IfOk result (λ r. made (λ v. v.items) r
        ≡ gathered (map downstream_host (map view values.now))) }
{
    let mut all = Ok(Vec::new(alloc));
    'values: for value in values {
        all = more(all, downstream_host(value))?;
    }
    Ok(all)
}

/// The hosts to which zones are sent; none where the document doesn't have the key.
fn hosts_at(alloc: Global, table: &Table) -> Result<Result<Peers, ConfigFault>, AllocError>
    ensures { IfOk result (λ r. r ≡ hosts_of (table_view table.now)) }
{
    if value_at(table, "downstream").is_none() {
        return Ok(Ok(Peers::from_vec(Vec::new(alloc))));
    }
    match values_at(table, "downstream") {
        Err(fault) => Ok(Err(fault)),
        Ok(values) => match hosts(alloc, values)? {
            Ok(hosts) => Ok(Ok(Peers::from_vec(hosts))),
            Err(fault) => Ok(Err(fault)),
        },
    }
}

/// The catalogs of a document, and the hosts to which zones are sent.
fn lists_at(
    alloc: Global,
    table: &Table,
) -> Result<Result<(Config, Peers), ConfigFault>, AllocError>
    ensures { IfOk result (λ r. r ≡
        both (catalogs_of (table_view table.now)) (hosts_of (table_view table.now))) }
{
    let catalogs = catalogs_at(alloc, table)?;
    let hosts = hosts_at(alloc, table)?;
    Ok(both(catalogs, hosts))
}

/// The settings of a document, within their limits or not.
pub(crate) fn settings(
    alloc: Global,
    table: &Table,
) -> Result<Result<(Peer, (Config, Peers)), ConfigFault>, AllocError>
    ensures { IfOk result (λ r. r ≡ settings_of (table_view table.now)) }
{
    let lists = lists_at(alloc, table)?;
    let known = known(Place::Document, table);
    match both(known, both(listen_at(table), lists)) {
        Ok(((), settings)) => Ok(Ok(settings)),
        Err(fault) => Ok(Err(fault)),
    }
}
