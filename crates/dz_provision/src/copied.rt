//! A configuration once more.

ghost use Rattle.std.specs.Prelude.{◌≡◌, IfOk};

use dz_io::Peer;
use dz_name::Octets;
use dz_settings::{CatalogSettings, Config, GroupSettings, Groups, Peers};
use std::alloc::{AllocError, Global};

/// The same configuration.
pub(crate) fn copied(alloc: Global, config: &Config) -> Result<Config, AllocError>
    ensures { IfOk result (λ c. c ≡ config.now) }
{
    let mut catalogs = Vec::with_capacity(alloc, config.catalogs().len())?;
    'catalogs: for settings in config.catalogs() {
        catalogs.push(copied_catalog(alloc, settings)?)?;
    }
    Ok(Config::from_vec(catalogs))
}

fn copied_catalog(alloc: Global, settings: &CatalogSettings) -> Result<CatalogSettings, AllocError>
    ensures { IfOk result (λ c. c ≡ settings.now) }
{
    Ok(CatalogSettings {
        name: settings.name,
        policy: settings.policy,
        primaries: copied_peers(alloc, settings.primaries.as_slice())?,
        groups: copied_groups(alloc, settings.groups.as_slice())?,
        key: settings.key,
    })
}

fn copied_groups(alloc: Global, groups: &[GroupSettings]) -> Result<Groups, AllocError>
    ensures { IfOk result (λ g. g ≡ groups.now) }
{
    let mut copies = Vec::with_capacity(alloc, groups.len())?;
    'groups: for group in groups {
        copies.push(copied_group(alloc, group)?)?;
    }
    Ok(Groups::from_vec(copies))
}

fn copied_group(alloc: Global, group: &GroupSettings) -> Result<GroupSettings, AllocError>
    ensures { IfOk result (λ g. g ≡ group.now) }
{
    Ok(GroupSettings {
        word: Octets::from_vec(Vec::from_slice(alloc, group.word.as_slice())?),
        policy: group.policy,
        primaries: copied_peers(alloc, group.primaries.as_slice())?,
    })
}

fn copied_peers(alloc: Global, peers: &[Peer]) -> Result<Peers, AllocError>
    ensures { IfOk result (λ p. p ≡ peers.now) }
{
    Ok(Peers::from_vec(Vec::from_slice(alloc, peers)?))
}
