//! The calls of dz_secure, and the search of the table, each counted in a ledger of its own. A number in the index says where
//! those of dz_secure look first.

ghost use Rattle.std.specs.Prelude.{◌≡◌, IfSome, option_map};
ghost use Rattle.dz_name.specs.Name.{IsWithin};
ghost use Rattle.dz_table.specs.Table.{closest_for};
ghost use Rattle.dz_lookup.specs.Found.{meaning, found};
ghost use Rattle.dz_secure.specs.Secure.{signatures, covering, proof};

use dz_lookup::Found;
use dz_name::{Name, NameRef};
use dz_record::Rr;
use dz_secure::Evidence;
use dz_steps::Steps;
use dz_table::{Slot, Table};
use dz_zone::Version;
use std::marker::Brand;
use std::sync::ledger::{Blank, Ledger};

/// The slot of a table that answers for a name and a type.
pub fn closest<'a>(table: &'a Table, name: &Name, kind: u16) -> Option<&'a Slot>
    ensures value { option_map (λ r. r.now) result ≡ closest_for table.now name.now kind }
    ensures encloses { IfSome result (λ slot. IsWithin name.now slot.now.zone) }
{
    count_closest::<Brand>(Blank::new(1), table, name, kind)
}

/// The same, counted in a ledger that is still blank.
fn count_closest<'a, L: Ledger>(
    blank: Blank,
    table: &'a Table,
    name: &Name,
    kind: u16,
) -> Option<&'a Slot>
    requires name { blank.name ≡ L.name }
    requires parts { blank.parts ≡ L.parts }
    requires whole { blank.parts ≡ 1 }
    ensures value { option_map (λ r. r.now) result ≡ closest_for table.now name.now kind }
    ensures encloses { IfSome result (λ slot. IsWithin name.now slot.now.zone) }
{
    let mut steps = Steps::<L>::new(blank);
    table.closest(name, kind, &mut steps)
}

/// The RRSIG records of an owner that cover a type.
pub fn signatures<'a>(version: &'a Version, owner: &NameRef, kind: u16, near: usize) -> &'a [Rr]
    ensures { result.now ≡ signatures version.now.records owner.now kind }
{
    count_signatures::<Brand>(Blank::new(1), version, owner, kind, near)
}

/// The same, counted in a ledger that is still blank.
fn count_signatures<'a, L: Ledger>(
    blank: Blank,
    version: &'a Version,
    owner: &NameRef,
    kind: u16,
    near: usize,
) -> &'a [Rr]
    requires name { blank.name ≡ L.name }
    requires parts { blank.parts ≡ L.parts }
    requires whole { blank.parts ≡ 1 }
    ensures { result.now ≡ signatures version.now.records owner.now kind }
{
    let mut steps = Steps::<L>::new(blank);
    dz_secure::signatures(version, owner, kind, near, &mut steps)
}

/// The NSEC RRset that covers a name.
pub fn covering<'a>(version: &'a Version, name: &Name, near: usize) -> &'a [Rr]
    ensures { result.now ≡ covering version.now.records name.now }
{
    count_covering::<Brand>(Blank::new(1), version, name, near)
}

/// The same, counted in a ledger that is still blank.
fn count_covering<'a, L: Ledger>(
    blank: Blank,
    version: &'a Version,
    name: &Name,
    near: usize,
) -> &'a [Rr]
    requires name { blank.name ≡ L.name }
    requires parts { blank.parts ≡ L.parts }
    requires whole { blank.parts ≡ 1 }
    ensures { result.now ≡ covering version.now.records name.now }
{
    let mut steps = Steps::<L>::new(blank);
    dz_secure::covering(version, name, near, &mut steps)
}

/// What proves the last case of a lookup.
pub fn proof<'a>(
    version: &'a Version,
    name: &Name,
    kind: u16,
    last: &Found<'a>,
    near: usize,
) -> Evidence<'a>
    requires { meaning last.now
        ≡ found version.now.apex version.now.records name.now kind }
    ensures first { result.first.now
        ≡ (proof version.now.records name.now (meaning last.now)).0 }
    ensures second { result.second.now
        ≡ (proof version.now.records name.now (meaning last.now)).1 }
{
    count_proof::<Brand>(Blank::new(1), version, name, kind, last, near)
}

/// The same, counted in a ledger that is still blank.
fn count_proof<'a, L: Ledger>(
    blank: Blank,
    version: &'a Version,
    name: &Name,
    kind: u16,
    last: &Found<'a>,
    near: usize,
) -> Evidence<'a>
    requires name { blank.name ≡ L.name }
    requires parts { blank.parts ≡ L.parts }
    requires whole { blank.parts ≡ 1 }
    requires found { meaning last.now
        ≡ found version.now.apex version.now.records name.now kind }
    ensures first { result.first.now
        ≡ (proof version.now.records name.now (meaning last.now)).0 }
    ensures second { result.second.now
        ≡ (proof version.now.records name.now (meaning last.now)).1 }
{
    let mut steps = Steps::<L>::new(blank);
    dz_secure::proof(version, name, kind, last, near, &mut steps)
}
