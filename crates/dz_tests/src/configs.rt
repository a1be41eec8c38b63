//! Configurations of catalogs.

ghost use Rattle.std.specs.Prelude.{IfOk};
ghost use Rattle.dz_settings.specs.Config.{IsAllowed};

use crate::names::{name, peer};
use dz_settings::{CatalogSettings, Config, Groups, Key, Peers, Policy, Secret};
use std::alloc::{AllocError, Global};
use std::process::Abort;

/// The configuration of one catalog, with policy `off`, no group, the one primary 192.0.2.1 and no key.
pub fn config(rt: &impl Abort, alloc: Global, catalog: &str) -> Result<Config, AllocError>
    ensures { IfOk result (λ config. IsAllowed config) }
{
    allowed(rt, vec![in alloc; settings(rt, alloc, catalog, None)?]?)
}

/// The configuration of such catalogs, each with a key of the same name and this secret.
pub fn signed_config(
    rt: &impl Abort,
    alloc: Global,
    catalogs: &[(&str, &[u8])],
) -> Result<Config, AllocError>
    ensures { IfOk result (λ config. IsAllowed config) }
{
    let mut all = Vec::new(alloc);
    'catalogs: for (catalog, secret) in catalogs {
        let key = Some(key(rt, secret));
        all.push(settings(rt, alloc, catalog, key)?)?;
    }
    allowed(rt, all)
}

/// A key named `key.example.` with this secret.
fn key(rt: &impl Abort, secret: &[u8]) -> Key {
    match Secret::from_slice(secret) {
        None => panic!(rt; "no secret"),
        Some(secret) => Key {
            name: name(rt, "key.example."),
            secret,
        },
    }
}

/// A catalog of this name with this key, policy `off`, the primary 192.0.2.1 and no group.
fn settings(
    rt: &impl Abort,
    alloc: Global,
    catalog: &str,
    key: Option<Key>,
) -> Result<CatalogSettings, AllocError> {
    Ok(CatalogSettings {
        name: name(rt, catalog),
        policy: Policy::Off,
        primaries: Peers::from_vec(vec![in alloc; peer(1)]?),
        groups: Groups::from_vec(Vec::new(alloc)),
        key,
    })
}

/// The configuration of these catalogs, which is allowed.
fn allowed(rt: &impl Abort, catalogs: Vec<CatalogSettings>) -> Result<Config, AllocError>
    ensures { IfOk result (λ config. IsAllowed config) }
{
    let config = Config::from_vec(catalogs);
    assert!(rt; config.is_allowed());
    Ok(config)
}
