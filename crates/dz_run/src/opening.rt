//! The lines of a configuration.

ghost use Rattle.std.specs.Prelude.{◌≡◌, ◌==◌, ◌<◌, ◌++◌, false, [], ◌∷◌, length, slice_set, IfOk, OnOk};
ghost use Rattle.std.specs.List.{position};
ghost use Rattle.dz_name.specs.Name.{same_name};
ghost use Rattle.dz_settings.specs.Config.{IsAllowed, is_allowed};
ghost use Rattle.dz_run.specs.Replaying.{with_group, grouped, at_place};
ghost use Rattle.dz_run.specs.Phase.{IsPut, IsGrouped};

use dz_name::Name;
use dz_settings::{CatalogSettings, Config, GroupSettings, Groups};
use std::alloc::{AllocError, Global};
use std::marker::Model;
use std::mem::replace;

/// The configuration that was read so far: none, or one that is within the limits and names nothing twice.
#[derive(Drop)]
pub struct Opening {
    config: Config,
}

impl Model for Opening {
    ghost use Rattle.std.specs.Prelude.{List};
    ghost use Rattle.dz_settings.specs.declared.config.CatalogSettings.{CatalogSettings};
    ghost use Rattle.dz_run.specs.Phase.{IsOpening};

    ghost Value = { List CatalogSettings };

    ghost view = { λ o. o.config };

    ghost invariant = { λ o. IsOpening o.config };
}

impl Opening {
    /// Nothing was read.
    pub fn new(alloc: Global) -> Opening
        ensures { result ≡ [] }
    {
        Opening {
            config: Config::from_vec(Vec::new(alloc)),
        }
    }

    /// Whether no catalog was read.
    pub fn is_empty(&self) -> bool
        ensures { result ≡ (length self.now == 0) }
    {
        self.config.catalogs().is_empty()
    }

    /// The configuration. Nothing is left.
    pub fn take(&mut self, alloc: Global) -> Config
        ensures config { result ≡ self.old }
        ensures allowed { (length self.old == 0) ≡ false → IsAllowed result }
        ensures left { self.new ≡ [] }
    {
        replace(&mut self.config, Config::from_vec(Vec::new(alloc)))
    }

    /// Adds a catalog: whether the configuration is still allowed. If it isn't, nothing is left.
    pub fn add_catalog(
        &mut self,
        alloc: Global,
        settings: CatalogSettings,
    ) -> Result<bool, AllocError>
        ensures { IfOk result (λ done. IsPut (self.old ++ settings ∷ []) done self.new) }
    {
        let mut catalogs = self.take(alloc).into_vec();
        catalogs.push(settings)?;
        Ok(self.put(Config::from_vec(catalogs)))
    }

    /// Adds a group to its catalog: whether the catalog is there, and the configuration is still allowed. If not,
    /// nothing is left.
    pub fn add_group(
        &mut self,
        alloc: Global,
        name: &Name,
        group: GroupSettings,
    ) -> Result<bool, AllocError>
        ensures { IfOk result (λ done. IsGrouped (grouped self.old name.now group) done self.new) }
    {
        let mut catalogs = self.take(alloc).into_vec();
        match place_of(catalogs.as_slice(), name) {
            None => Ok(false),
            Some(place) => {
                add_at(alloc, &mut catalogs, place, group)?;
                Ok(self.put(Config::from_vec(catalogs)))
            }
        }
    }

    /// Keeps a configuration, if it is allowed.
    fn put(&mut self, config: Config) -> bool
        requires { self.old ≡ [] }
        ensures { IsPut config result self.new }
    {
        let allowed = config.is_allowed();
        if allowed {
            self.config = config;
        }
        allowed
    }
}

/// The place of the catalog of this name.
fn place_of(catalogs: &[CatalogSettings], name: &Name) -> Option<usize>
    ensures { result ≡ position (λ c. same_name c.name name.now) catalogs.now }
{
    catalogs.iter().position(|catalog| catalog.name.same(name))
}

/// Adds a group to the catalog at a place.
fn add_at(
    alloc: Global,
    catalogs: &mut Vec<CatalogSettings>,
    place: usize,
    group: GroupSettings,
) -> Result<(), AllocError>
    requires { place < length catalogs.old.items }
    ensures { OnOk result (catalogs.new.items
        ≡ at_place (with_group group) place catalogs.old.items) }
{
    add_to(alloc, &mut catalogs[place], group)?;
    Ok(())
}

/// Adds a group to a catalog.
fn add_to(
    alloc: Global,
    catalog: &mut CatalogSettings,
    group: GroupSettings,
) -> Result<(), AllocError>
    ensures { OnOk result (catalog.new ≡ with_group group catalog.old) }
{
    let groups = replace(&mut catalog.groups, Groups::from_vec(Vec::new(alloc)));
    let mut groups = groups.into_vec();
    groups.push(group)?;
    catalog.groups = Groups::from_vec(groups);
    Ok(())
}
