//! What the owners beside the place of a name tell of the names above it.

ghost use Rattle.std.specs.Prelude.{◌≡◌, ℕ, ◌&&◌, ◌+◌, ◌≤◌, length, drop, nat_lt, nat_le, slice_index_or};
ghost use Rattle.std.specs.List.Sorted.{IsStrictlySortedBy};
ghost use Rattle.dz_name.specs.Name.{is_within};
ghost use Rattle.dz_record.specs.Record.{Record, record_order};
ghost use Rattle.dz_runs.specs.Node.{from_owner, IsBegin, IsNodeOf};
ghost use Rattle.dz_lookup.specs.inner.Places.{IsMissing};

use dz_index::labels_apart;
use dz_name::NameRef;
use dz_name::dns::NAME_OCTETS;
use dz_record::Rr;
use dz_runs::Node;
use dz_steps::Steps;
use dz_zone::Version;
use std::marker::Brand;
use std::sync::ledger::{Blank, Ledger};

/// How many first labels a name has more than the longest name that exists at it or above it: none where it exists
/// itself, and more than it has where no name above it exists either. It takes no search, and two looks at most;
/// none where the name owns records.
pub(crate) fn missing_labels(version: &Version, name: &NameRef, node: &Node<'_>) -> usize
    requires { IsNodeOf version.now.records name.now node.now.place node.now.records.now }
    ensures { IsMissing version.now.records name.now result }
{
    let records = version.records();
    if !node.records.is_empty() {
        return 0;
    }
    counted_missing::<Brand>(Blank::new(1), records, node.place, name)
}

/// The same by the place of a name among records, counted in a ledger that is still blank.
pub(crate) fn counted_missing<L: Ledger>(
    blank: Blank,
    records: &[Rr],
    place: usize,
    name: &NameRef,
) -> usize
    requires name { blank.name ≡ L.name }
    requires parts { blank.parts ≡ L.parts }
    requires whole { blank.parts ≡ 1 }
    requires sorted { IsStrictlySortedBy record_order records.now }
    requires room { place ≤ length records.now }
    requires point { IsBegin (from_owner name.now) records.now place }
    ensures { IsMissing records.now name.now result }
{
    let mut looks = Steps::<L>::new(blank);
    missing_beside(records, place, name, &mut looks)
}

/// The same, in two looks at most: of the names within a name above, one is beside the place. Where the name differs in
/// one label from the owner at its place, no other owner has more in common with it.
fn missing_beside<L: Ledger>(
    records: &[Rr],
    place: usize,
    name: &NameRef,
    looks: &mut Steps<L>,
) -> usize
    requires sorted { IsStrictlySortedBy record_order records.now }
    requires room { place ≤ length records.now }
    requires point { IsBegin (from_owner name.now) records.now place }
    ensures missing { IsMissing records.now name.now result }
    ensures cost { looks.new ≤ looks.old + 2 }
{
    let here = labels_apart_at(records, place, name, looks);
    if here <= 1 || place == 0 {
        return here;
    }
    here.min(labels_apart_at(records, place - 1, name, looks))
}

/// How many first labels a name has before the longest name that encloses it and the owner of the record at a place, and
/// more than it has where there is no record. It is a look.
fn labels_apart_at<L: Ledger>(
    records: &[Rr],
    place: usize,
    name: &NameRef,
    looks: &mut Steps<L>,
) -> usize
    ensures apart { (d : Record) (k : ℕ) → k ≤ length name.now → nat_le result k
        ≡ (nat_lt place (length records.now)
        && is_within (slice_index_or records.now place d).owner (drop k name.now)) }
    ensures cost { looks.new ≤ looks.old + 1 }
{
    looks.tick();
    if place < records.len() {
        labels_apart(name, &records[place].owner_ref())
    } else {
        prove!(name.wire().len() <= NAME_OCTETS);
        NAME_OCTETS
    }
}
