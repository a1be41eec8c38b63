//! Memberships as folds share them.

ghost use Rattle.std.specs.Prelude.{◌≡◌, ◌<◌, ◌^◌, [], length, map, drop, position, slice_get, IfOk, option_map};
ghost use Rattle.std.specs.Prelude.{Some, None, if◌then◌else◌};
ghost use Rattle.std.specs.List.{find, AllByRecursion};
ghost use Rattle.dz_name.specs.Words.{Name as NameOf};
ghost use Rattle.std.specs.List.Sorted.{IsStrictlySortedBy};
ghost use Rattle.dz_name.specs.Name.{canonical_order, same_name};
ghost use Rattle.dz_member.specs.inner.Members.{entries_of, members_of, IsOwn};

use crate::membership::Membership;
use dz_chunks::{Entry, Ranked, Walk};
use dz_keys::ZoneKey;
use dz_name::Name;
use std::alloc::{AllocError, Global};
use std::iter::Iterator;
use std::marker::Model;

/// A membership that folds share.
#[derive(Drop)]
pub(crate) struct Shared {
    entry: Entry<ZoneKey, Membership>,
}

impl Model for Shared {
    ghost use Rattle.std.specs.Prelude.{◌≡◌};
    ghost use Rattle.dz_member.specs.declared.membership.Membership.{Membership};

    ghost Value = { Membership };

    ghost view = { λ s. s.entry.1 };

    ghost invariant = { λ s. s.entry.0 ≡ s.entry.1.zone };
}

impl Shared {
    /// A membership that no fold has yet. The error is out of memory.
    pub(crate) fn new(alloc: Global, membership: Membership) -> Result<Shared, AllocError>
        ensures { IfOk result (λ shared. shared ≡ membership) }
    {
        Ok(Shared {
            entry: Entry::new(alloc, membership)?,
        })
    }

    /// The entry of a map.
    fn into_entry(self) -> Entry<ZoneKey, Membership>
        ensures { result ≡ (self.zone, self) }
    {
        self.entry
    }
}

/// The memberships of a fold that a walk over them hasn't passed, which another fold can share: the first, and those
/// after it.
#[derive(Drop)]
pub(crate) struct Held<'a> {
    first: Option<&'a Entry<ZoneKey, Membership>>,
    behind: Walk<'a, ZoneKey, Membership>,
}

impl<'a> Model for Held<'a> {
    ghost use Rattle.std.specs.Prelude.{List, ◌++◌, option_map};
    ghost use Rattle.std.specs.Option.{option_to_list};
    ghost use Rattle.std.specs.List.{AllByRecursion};
    ghost use Rattle.dz_member.specs.declared.membership.Membership.{Membership};
    ghost use Rattle.dz_member.specs.inner.Members.{members_of, IsOwn, AreBehind};

    ghost Value = { List Membership };

    ghost view = { λ h. members_of (option_to_list (option_map (λ r. r.now) h.first) ++ h.behind) };

    ghost invariant = { λ h. AreBehind (option_map (λ r. r.now) h.first) h.behind
        × AllByRecursion IsOwn (option_to_list (option_map (λ r. r.now) h.first) ++ h.behind) };
}

impl<'a> Held<'a> {
    /// All memberships of a walk.
    fn of(mut behind: Walk<'a, ZoneKey, Membership>) -> Held<'a>
        requires { AllByRecursion IsOwn behind }
        ensures { result ≡ members_of behind.entry }
    {
        let first = behind.next_entry();
        Held { first, behind }
    }

    /// The first membership.
    pub(crate) fn first(&self) -> Option<&'a Membership>
        ensures { option_map (λ r. r.now) result ≡ slice_get self.now 0 }
    {
        match self.first {
            None => None,
            Some(entry) => Some(entry.value()),
        }
    }

    /// The first membership, for another fold. The error is out of memory.
    pub(crate) fn share_first(&self) -> Result<Option<Shared>, AllocError>
        ensures { IfOk result (λ shared. shared ≡ slice_get self.now 0) }
    {
        match self.first {
            None => Ok(None),
            Some(entry) => Ok(Some(Shared {
                entry: entry.share()?,
            })),
        }
    }

    /// Passes the first membership.
    pub(crate) fn step(&mut self)
        ensures { self.new ≡ drop 1 self.old }
    {
        self.first = self.behind.next_entry();
    }
}

/// Memberships in the canonical order of their zones, one at most for each zone. Others that are made from them share
/// all that is the same.
#[derive(Drop)]
pub(crate) struct Members {
    entries: Ranked<ZoneKey, Membership>,
}

impl Model for Members {
    ghost use Rattle.std.specs.Prelude.{List};
    ghost use Rattle.dz_member.specs.declared.membership.Membership.{Membership};
    ghost use Rattle.dz_member.specs.inner.Members.{members_of, AreMembers};

    ghost Value = { List Membership };

    ghost view = { λ m. members_of m.entries };

    ghost invariant = { λ m. AreMembers m.entries };
}

impl Members {
    /// No membership. It takes no memory.
    pub(crate) fn empty(alloc: Global) -> Members
        ensures { result ≡ [] }
    {
        Members {
            entries: Ranked::empty(alloc),
        }
    }

    /// These memberships. The error is out of memory.
    pub(crate) fn from_shared(
        alloc: Global,
        memberships: Vec<Shared>,
    ) -> Result<Members, AllocError>
        requires { IsStrictlySortedBy canonical_order (map (λ m. m.zone) memberships.items) }
        ensures members { IfOk result (λ m. m ≡ memberships.items) }
        ensures few { IfOk result (λ m. length m < 2 ^ 63) }
    {
        let entries = entries_of(alloc, memberships)?;
        let entries = Ranked::from_entries(alloc, entries)?;
        Ok(Members { entries })
    }

    /// How many there are.
    pub(crate) fn len(&self) -> usize
        ensures { result ≡ length self.now }
    {
        self.entries.len()
    }

    /// The membership at a place, from 0.
    pub(crate) fn at(&self, place: usize) -> Option<&Membership>
        ensures { option_map (λ r. r.now) result ≡ slice_get self.now place }
    {
        self.entries.at(place)
    }

    /// The place of the membership of a zone.
    pub(crate) fn place_of(&self, zone: &Name) -> Option<usize>
        ensures { result ≡ position (λ m. same_name m.zone zone.now) self.now }
    {
        self.entries.seat(&ZoneKey::of(zone))
    }

    /// The membership of a zone.
    pub(crate) fn find(&self, zone: &Name) -> Option<&Membership>
        ensures { option_map (λ r. r.now) result
            ≡ find (λ m. same_name m.zone zone.now) self.now }
    {
        self.entries.find(&ZoneKey::of(zone))
    }

    /// The memberships with one at its zone, in place of the one that is there. The error is out of memory.
    pub(crate) fn with(&self, alloc: Global, membership: Membership) -> Result<Members, AllocError>
        ensures order { IfOk result
            (λ changed. IsStrictlySortedBy canonical_order (map (λ m. m.zone) changed)) }
        ensures each { IfOk result (λ changed. (zone : NameOf)
            → find (λ m. same_name m.zone zone) changed ≡ (if same_name membership.zone zone
            then Some membership else find (λ m. same_name m.zone zone) self.now)) }
    {
        let entries = self.entries.put(alloc, membership)?;
        Ok(Members { entries })
    }

    /// The memberships without that of a zone. The error is out of memory.
    pub(crate) fn without(&self, alloc: Global, zone: &Name) -> Result<Members, AllocError>
        ensures order { IfOk result
            (λ changed. IsStrictlySortedBy canonical_order (map (λ m. m.zone) changed)) }
        ensures each { IfOk result (λ changed. (other : NameOf)
            → find (λ m. same_name m.zone other) changed ≡ (if same_name zone.now other
            then None else find (λ m. same_name m.zone other) self.now)) }
    {
        let entries = self.entries.remove(alloc, &ZoneKey::of(zone))?;
        Ok(Members { entries })
    }

    /// The memberships, in the canonical order of their zones.
    pub(crate) fn walk(&self) -> Memberships<'_>
        ensures members { result ≡ self.now }
        ensures order { IsStrictlySortedBy canonical_order (map (λ m. m.zone) self.now) }
    {
        Memberships {
            walk: self.entries.walk(),
        }
    }

    /// The memberships, as they can be shared.
    pub(crate) fn held(&self) -> Held<'_>
        ensures members { result ≡ self.now }
        ensures order { IsStrictlySortedBy canonical_order (map (λ m. m.zone) self.now) }
    {
        Held::of(self.entries.walk())
    }
}

/// Memberships as the entries of a map. The error is out of memory.
fn entries_of(
    alloc: Global,
    memberships: Vec<Shared>,
) -> Result<Vec<Entry<ZoneKey, Membership>>, AllocError>
    ensures { IfOk result (λ entries. entries.items ≡ entries_of memberships.items) }
{
    let mut entries = Vec::with_capacity(alloc, memberships.len())?;
    'memberships: for membership in memberships {
        entries.push(membership.into_entry())?;
    }
    Ok(entries)
}

/// Memberships one by one, in the canonical order of their zones. Contracts see those that are left.
#[derive(Drop)]
pub struct Memberships<'a> {
    walk: Walk<'a, ZoneKey, Membership>,
}

impl<'a> Model for Memberships<'a> {
    ghost use Rattle.std.specs.Prelude.{List};
    ghost use Rattle.dz_member.specs.declared.membership.Membership.{Membership};
    ghost use Rattle.dz_member.specs.inner.Members.{members_of};

    ghost Value = { List Membership };

    ghost view = { λ m. members_of m.walk };
}

impl<'a> Iterator for Memberships<'a> {
    type Item = &'a Membership;

    ghost use Rattle.std.specs.Iterator.{YieldsFirstBy, item_count};

    ghost next_gives = { YieldsFirstBy (λ membership. membership.now) (λ left. left) };

    ghost remaining = { item_count (λ left. left) };

    /// The next membership; none after the last.
    fn next(&mut self) -> Option<&'a Membership> {
        self.walk.next()
    }
}
