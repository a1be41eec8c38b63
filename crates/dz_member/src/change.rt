//! What a listing changes.

ghost use Rattle.std.specs.Prelude.{◌≡◌, ◌<◌, length, map, slice_get, Some, All};
ghost use Rattle.std.specs.Option.{ForSome};
ghost use Rattle.dz_member.specs.Membership.{settings_at};
ghost use Rattle.dz_member.specs.inner.Happened.{what_of, change_of, IsConfigured};

use dz_name::{KeptName, Name};
use dz_settings::{CatalogSettings, Config};
use std::iter::Iterator;
use std::marker::Model;
use std::sync::Arc;

/// What happened to a zone, with the names of the catalogs that it is about.
#[derive(Clone, Copy, Debug, PartialEq, Eq)]
pub enum What {
    /// This catalog lists the zone, and nobody held it.
    Added(Name),
    /// This catalog no longer lists its member.
    Removed(Name),
    /// This catalog lists its member under another label: all state goes (RFC 9432 section 5.4).
    Reset(Name),
    /// The zone went from the first catalog to the second, with its state (RFC 9432 section 4.3.1).
    Moved(Name, Name),
    /// It did so under another label, without its state.
    MovedReset(Name, Name),
    /// The zone is listed and stays as it is: this other catalog holds it, or it is itself a configured catalog (RFC
    /// 9432 section 5.2).
    Clash(Option<Name>),
    /// The member of this catalog belongs to another group than before.
    Regrouped(Name),
}

/// What happened to one zone.
#[derive(Clone, Copy, Debug, PartialEq, Eq)]
pub struct Change {
    pub zone: Name,
    pub what: What,
}

/// What happened to a zone, with the numbers of the catalogs that it is about.
#[derive(Clone, Copy, Debug)]
pub(crate) enum Happened {
    Added(u8),
    Removed(u8),
    Reset(u8),
    Moved(u8, u8),
    MovedReset(u8, u8),
    Clash(Option<u8>),
    Regrouped(u8),
}

/// A zone, and what happened to it.
#[derive(Debug, Drop)]
pub(crate) struct Happening {
    pub(crate) zone: KeptName,
    pub(crate) what: Happened,
}

const _: () = prove!(size_of::<Happening>() == 56);

/// What happened, at most once to each zone, in the canonical order of the zones.
#[derive(Debug, Drop)]
pub struct Changes {
    config: Arc<Config>,
    items: Vec<Happening>,
}

impl Model for Changes {
    ghost use Rattle.std.specs.Prelude.{List, map, All};
    ghost use Rattle.dz_member.specs.declared.change.Change.{Change};
    ghost use Rattle.dz_member.specs.inner.Happened.{change_of, IsConfigured};

    ghost Value = { List Change };

    ghost view = { λ c. map (change_of c.config.value) c.items.items };

    ghost invariant = { λ c. All (λ h. IsConfigured c.config.value h.what) c.items.items };
}

impl Changes {
    /// What happened to the zones of catalogs of a configuration.
    pub(crate) fn new(config: Arc<Config>, items: Vec<Happening>) -> Changes
        requires { All (λ h. IsConfigured config.value h.what) items.items }
        ensures { result ≡ map (change_of config.value) items.items }
    {
        Changes { config, items }
    }

    /// How many there are.
    pub fn len(&self) -> usize
        ensures { result ≡ length self.now }
    {
        self.items.len()
    }

    /// The change at a place, from 0.
    pub fn at(&self, place: usize) -> Change
        requires { place < length self.now }
        ensures { slice_get self.now place ≡ Some result }
    {
        named(self.config.catalogs(), &self.items[place])
    }

    /// The changes, one by one.
    pub fn iter(&self) -> Told<'_>
        ensures { result ≡ self.now }
    {
        Told {
            catalogs: self.config.catalogs(),
            items: &self.items,
        }
    }
}

/// Changes one by one, in the canonical order of their zones. Contracts see those that are left.
#[derive(Drop)]
pub struct Told<'a> {
    catalogs: &'a [CatalogSettings],
    items: &'a [Happening],
}

impl<'a> Model for Told<'a> {
    ghost use Rattle.std.specs.Prelude.{List, map};
    ghost use Rattle.std.specs.List.{AllByRecursion};
    ghost use Rattle.dz_member.specs.declared.change.Change.{Change};
    ghost use Rattle.dz_member.specs.inner.Happened.{change_of, IsConfigured};

    ghost Value = { List Change };

    ghost view = { λ t. map (change_of t.catalogs.now) t.items.now };

    ghost invariant = { λ t. AllByRecursion (λ h. IsConfigured t.catalogs.now h.what) t.items.now };
}

impl<'a> Iterator for Told<'a> {
    type Item = Change;

    ghost use Rattle.std.specs.Iterator.{YieldsFirstBy, item_count};

    ghost next_gives = { YieldsFirstBy (λ change. change) (λ left. left) };

    ghost remaining = { item_count (λ left. left) };

    /// The next change; none after the last.
    fn next(&mut self) -> Option<Change> {
        let (first, rest) = self.items.split_first()?;
        self.items = rest;
        Some(named(self.catalogs, first))
    }
}

/// The name of the catalog of a number.
fn name_at(catalogs: &[CatalogSettings], number: u8) -> Name
    requires { number < length catalogs.now }
    ensures { result ≡ (settings_at catalogs.now number).name }
{
    catalogs[number as usize].name
}

/// What happened to a zone, with names in place of numbers.
fn named(catalogs: &[CatalogSettings], happening: &Happening) -> Change
    requires { IsConfigured catalogs.now happening.now.what }
    ensures { result ≡ change_of catalogs.now happening.now }
{
    Change {
        zone: happening.zone.as_ref().to_name(),
        what: what_of(catalogs, happening.what),
    }
}

/// What happened, with names in place of numbers.
fn what_of(catalogs: &[CatalogSettings], what: Happened) -> What
    requires { IsConfigured catalogs.now what }
    ensures { result ≡ what_of catalogs.now what }
{
    match what {
        Happened::Added(number) => What::Added(name_at(catalogs, number)),
        Happened::Removed(number) => What::Removed(name_at(catalogs, number)),
        Happened::Reset(number) => What::Reset(name_at(catalogs, number)),
        Happened::Moved(from, to) => What::Moved(name_at(catalogs, from), name_at(catalogs, to)),
        Happened::MovedReset(from, to) => {
            What::MovedReset(name_at(catalogs, from), name_at(catalogs, to))
        }
        Happened::Clash(None) => What::Clash(None),
        Happened::Clash(Some(holder)) => What::Clash(Some(name_at(catalogs, holder))),
        Happened::Regrouped(number) => What::Regrouped(name_at(catalogs, number)),
    }
}
