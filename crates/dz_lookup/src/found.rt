//! What is found for a name and a type.

ghost use Rattle.std.specs.Prelude.{◌≡◌, ◌<◌, ◌≤◌, ◌-◌, ◌||◌, List, length, true, false, None, option_map};
ghost use Rattle.std.specs.List.Sorted.{IsStrictlySortedBy, IsNonDecreasingBy};
ghost use Rattle.dz_name.specs.Name.{is_within, wildcard_of, wire_of};
ghost use Rattle.dz_record.specs.Record.{Record, record_order};
ghost use Rattle.dz_zone.specs.Version.{IsValid, has_cuts, has_dnames};
ghost use Rattle.dz_runs.specs.Counted.{TakesSearches};
ghost use Rattle.dz_lookup.specs.Counted.{IsLookup};
ghost use Rattle.dz_runs.specs.Runs.{exists, records_of, IsPlaceOf};
ghost use Rattle.dz_lookup.specs.Found.{encloser, cut_for, dname, source, at_node, at_source, barrier, found, meaning};
ghost use Rattle.dz_lookup.specs.Found.{leading, referral, rename, HasRecords};
ghost use Rattle.dz_runs.specs.Node.{IsNodeOf};
ghost use Rattle.dz_lookup.specs.inner.Places.{IsMissing, if_exists, renamer_at};

use crate::beside::{counted_missing, missing_labels};
use dz_name::dns::{NAME_OCTETS, TYPE_ANY, TYPE_CNAME, TYPE_DNAME, TYPE_DS, TYPE_NS};
use dz_name::{Name, NameRef};
use dz_record::Rr;
use dz_runs::{
    APEX, NEAR, Node, node_above, node_at_or_of, node_near, node_of, node_of_wildcard, of_type,
};
use dz_steps::Steps;
use dz_zone::Version;
use std::marker::Brand;
use std::sync::ledger::{Blank, Ledger};

/// What a zone says of a name and a type (RFC 1034 section 4.3.2).
#[derive(Clone, Copy, Debug)]
pub enum Found<'a> {
    /// The records that answer, in the order of type and RDATA: at least one.
    Here(&'a [Rr]),
    /// A CNAME leads on.
    Alias(&'a Rr),
    /// The name exists without such records.
    NoData,
    /// Neither the name nor a wildcard for it exists.
    NoName,
    /// The NS records of the zone cut that the name is at or below.
    Referral(&'a [Rr]),
    /// The DNAME of a name above gives it another name (RFC 6672).
    Rename(&'a Rr),
}

/// What is found, and near which owner more of it may be.
#[derive(Clone, Copy)]
pub(crate) struct Finding<'a> {
    pub(crate) found: Found<'a>,
    /// A number in the index: of the owner that follows a zone cut, or else of the name or of the owner that follows
    /// it.
    pub(crate) near: usize,
}

impl<'a> Finding<'a> {
    /// A zone cut with these servers, found at the owner of a number.
    fn at_cut(servers: &'a [Rr], number: usize) -> Finding<'a>
        ensures { meaning result.found ≡ referral servers.now }
    {
        Finding {
            found: Found::Referral(servers),
            near: number.saturating_add(1),
        }
    }

    /// What is found near the owner of a number.
    fn beside(found: Found<'a>, near: usize) -> Finding<'a>
        ensures { meaning result.found ≡ meaning found.entry }
    {
        Finding { found, near }
    }
}

impl<'a> Found<'a> {
    /// The CNAME or the DNAME that leads on, if one does.
    pub fn leading(&self) -> Option<&'a Rr>
        ensures { option_map (λ r. r.now) result ≡ leading (meaning self.now) }
    {
        match self {
            Found::Alias(alias) => Some(alias),
            Found::Rename(renamer) => Some(renamer),
            _ => None,
        }
    }
}

/// What a zone says of a name within its apex and a type (RFC 1034 section 4.3.2, RFC 4592, RFC 6672); the type ANY
/// asks for all records. The name is searched once. So is each name between it and the apex where the zone has a cut or
/// a DNAME, and a wildcard where the name doesn't exist, but for those that are found near the name.
pub fn find<'a, L: Ledger>(
    version: &'a Version,
    name: &Name,
    kind: u16,
    steps: &mut Steps<L>,
) -> Found<'a>
    requires within { is_within name.now version.now.apex ≡ true }
    ensures found { meaning result ≡ found version.now.apex version.now.records name.now kind }
    ensures some { HasRecords (meaning result) }
    ensures cost { IsLookup (length name.now) (length version.now.records) (steps.new - steps.old) }
    ensures counted { steps.old ≤ steps.new }
{
    find_near(version, name, kind, steps).found
}

/// The same, and near which owner more of it may be.
pub(crate) fn find_near<'a, L: Ledger>(
    version: &'a Version,
    name: &Name,
    kind: u16,
    steps: &mut Steps<L>,
) -> Finding<'a>
    requires within { is_within name.now version.now.apex ≡ true }
    ensures found { meaning result.found
        ≡ found version.now.apex version.now.records name.now kind }
    ensures some { HasRecords (meaning result.found) }
    ensures cost { IsLookup (length name.now) (length version.now.records) (steps.new - steps.old) }
    ensures counted { steps.old ≤ steps.new }
{
    let sought = seek(version, name, steps);
    match barrier(version, name, &sought, kind, steps) {
        Some(finding) => finding,
        None => Finding::beside(
            at_source(version, name, &sought, kind, steps),
            sought.node.number,
        ),
    }
}

/// The node of a name, and how many of its first labels are missing.
#[derive(Clone, Copy)]
struct Sought<'a> {
    node: Node<'a>,
    missing: usize,
}

/// What is at a name, by one search.
fn seek<'a, L: Ledger>(version: &'a Version, name: &Name, steps: &mut Steps<L>) -> Sought<'a>
    ensures node { IsNodeOf version.now.records name.now result.node.place
        result.node.records.now }
    ensures missing { IsMissing version.now.records name.now result.missing }
    ensures rises { IsStrictlySortedBy record_order version.now.records }
    ensures cost { TakesSearches 1 (length version.now.records) (steps.new - steps.old) }
    ensures counted { steps.old ≤ steps.new }
{
    let node = node_of(version, &name.as_ref(), steps);
    let missing = missing_labels(version, &name.as_ref(), &node);
    Sought { node, missing }
}

/// What the node that answers for a name gives: the name's own, or else a wildcard's.
fn at_source<'a, L: Ledger>(
    version: &'a Version,
    name: &Name,
    sought: &Sought<'a>,
    kind: u16,
    steps: &mut Steps<L>,
) -> Found<'a>
    requires node { IsNodeOf version.now.records name.now sought.now.node.place
        sought.now.node.records.now }
    requires missing { IsMissing version.now.records name.now sought.now.missing }
    ensures found { meaning result
        ≡ at_source version.now.records kind (source version.now.records name.now) }
    ensures cost { TakesSearches 1 (length version.now.records) (steps.new - steps.old) }
    ensures counted { steps.old ≤ steps.new }
{
    if sought.missing == 0 {
        return at_node(sought.node.records, kind);
    }
    match wildcard_above(name, sought.missing) {
        Some(wildcard) => at_wildcard(version, &wildcard, sought.node.number, kind, steps),
        None => Found::NoName,
    }
}

/// What a wildcard gives, where it exists (RFC 4592 section 3.3.1). It may be at the owner of a number in the index, or
/// before that one.
fn at_wildcard<'a, L: Ledger>(
    version: &'a Version,
    wildcard: &Name,
    number: usize,
    kind: u16,
    steps: &mut Steps<L>,
) -> Found<'a>
    ensures found { meaning result
        ≡ at_source version.now.records kind (if_exists version.now.records wildcard.now) }
    ensures cost { TakesSearches 1 (length version.now.records) (steps.new - steps.old) }
    ensures counted { steps.old ≤ steps.new }
{
    let node = node_of_wildcard(version, &wildcard.as_ref(), number, steps);
    if missing_labels(version, &wildcard.as_ref(), &node) == 0 {
        at_node(node.records, kind)
    } else {
        Found::NoName
    }
}

/// The records of a node that answer, or its CNAME, or no data.
fn at_node<'a>(node: &'a [Rr], kind: u16) -> Found<'a>
    requires { IsNonDecreasingBy (λ r. r.kind) node.now }
    ensures { meaning result ≡ at_node kind node.now }
{
    let answers = if kind == TYPE_ANY {
        node
    } else {
        of_type(node, kind)
    };
    if !answers.is_empty() {
        return Found::Here(answers);
    }
    match of_type(node, TYPE_CNAME).first() {
        Some(alias) => Found::Alias(alias),
        None => Found::NoData,
    }
}

/// The zone cut that the name is at or below, or the DNAME of a name above it, whichever is nearer the apex.
fn barrier<'a, L: Ledger>(
    version: &'a Version,
    name: &Name,
    sought: &Sought<'a>,
    kind: u16,
    steps: &mut Steps<L>,
) -> Option<Finding<'a>>
    requires within { is_within name.now version.now.apex ≡ true }
    requires node { IsNodeOf version.now.records name.now sought.now.node.place
        sought.now.node.records.now }
    requires missing { IsMissing version.now.records name.now sought.now.missing }
    ensures barrier { option_map (λ f. meaning f.found) result
        ≡ barrier version.now.records (cut_for version.now.apex version.now.records kind name.now)
        (dname version.now.records name.now) }
    ensures cost { TakesSearches (length name.now) (length version.now.records)
        (steps.new - steps.old) }
    ensures counted { steps.old ≤ steps.new }
{
    if !has_barriers(version) {
        return None;
    }
    let labels = name.label_count() - version.apex().label_count();
    if labels == 0 {
        return None;
    }
    match apex_renamer(version, steps) {
        Some(renamer) => Some(Finding::beside(Found::Rename(renamer), APEX)),
        None => barrier_below(version, name, sought, kind, labels, steps),
    }
}

/// Whether there is a zone cut or a DNAME.
fn has_barriers(version: &Version) -> bool
    ensures barriers { result ≡ (has_cuts version.now || has_dnames version.now) }
    ensures valid { IsValid version.now }
{
    version.has_cuts() || version.has_dnames()
}

/// The DNAME of the apex, if it owns one.
fn apex_renamer<'a, L: Ledger>(version: &'a Version, steps: &mut Steps<L>) -> Option<&'a Rr>
    ensures renamer { option_map (λ r. r.now) result
        ≡ renamer_at version.now.records version.now.apex }
    ensures cost { TakesSearches 1 (length version.now.records) (steps.new - steps.old) }
    ensures counted { steps.old ≤ steps.new }
{
    if !version.has_dnames() {
        return None;
    }
    let apex = version.apex();
    let near = node_near(version, &apex, APEX, 1, steps);
    renamer_of(version, &apex, near.records)
}

/// The DNAME among the records of an owner, if there is one.
fn renamer_of<'a>(version: &Version, owner: &NameRef, records: &'a [Rr]) -> Option<&'a Rr>
    requires records { records.now ≡ records_of version.now.records owner.now }
    requires kinds { IsNonDecreasingBy (λ r. r.kind) records.now }
    ensures { option_map (λ r. r.now) result ≡ renamer_at version.now.records owner.now }
{
    if version.has_dnames() {
        of_type(records, TYPE_DNAME).first()
    } else {
        None
    }
}

/// The same as `barrier` where the apex owns no DNAME and the name has this many labels more than it. Only the names
/// below the apex are looked at, longer and longer, as far as they exist.
fn barrier_below<'a, L: Ledger>(
    version: &'a Version,
    name: &Name,
    sought: &Sought<'a>,
    kind: u16,
    labels: usize,
    steps: &mut Steps<L>,
) -> Option<Finding<'a>>
    requires within { is_within name.now version.now.apex ≡ true }
    requires node { IsNodeOf version.now.records name.now sought.now.node.place
        sought.now.node.records.now }
    requires missing { IsMissing version.now.records name.now sought.now.missing }
    requires some { 0 < labels }
    requires labels { labels ≡ length name.now - length version.now.apex }
    requires apex { renamer_at version.now.records version.now.apex ≡ None }
    requires valid { IsValid version.now }
    ensures barrier { option_map (λ f. meaning f.found) result
        ≡ barrier version.now.records (cut_for version.now.apex version.now.records kind name.now)
        (dname version.now.records name.now) }
    ensures cost { TakesSearches (labels - 1) (length version.now.records)
        (steps.new - steps.old) }
    ensures counted { steps.old ≤ steps.new }
{
    let mut skip = labels;
    'labels: while 1 < skip {
        skip -= 1;
        if skip < sought.missing {
            return None;
        }
        let above = name.ancestor_ref(skip);
        let near = node_above(version, &above, sought.node.number, steps);
        let servers = of_type(near.records, TYPE_NS);
        if !servers.is_empty() {
            return Some(Finding::at_cut(servers, near.number));
        }
        if let Some(renamer) = renamer_of(version, &above, near.records) {
            return Some(Finding::beside(Found::Rename(renamer), near.number));
        }
    }
    // a DS belongs to the zone above the cut (RFC 4035 section 3.1.4.1)
    if kind == TYPE_DS {
        return None;
    }
    let servers = of_type(sought.node.records, TYPE_NS);
    if servers.is_empty() {
        None
    } else {
        Some(Finding::at_cut(servers, sought.node.number))
    }
}

/// The wildcard below the closest encloser of a name, of which so many first labels are missing (RFC 4592 section 3.3.1);
/// none where no name above it exists.
fn wildcard_above(name: &Name, missing: usize) -> Option<Name>
    requires some { 0 < missing }
    ensures { (zone : List Record) → IsMissing zone name.now missing
        → result ≡ option_map wildcard_of (encloser zone name.now) }
{
    let encloser = name.as_ref().above(missing)?;
    prove!(name.wire().len() <= NAME_OCTETS);
    Some(encloser.wildcard())
}

/// Where the answer for a name comes from: the name itself, or else the wildcard below its closest encloser; none where
/// neither exists (RFC 4592 section 3.3.1). Each of the two is first looked for near the owner of a number in the
/// index, and searched where it isn't there. Any number gives the same answer.
pub fn source<L: Ledger>(
    version: &Version,
    name: &Name,
    number: usize,
    steps: &mut Steps<L>,
) -> Option<Name>
    ensures source { result ≡ source version.now.records name.now }
    ensures cost { TakesSearches 2 (length version.now.records) (steps.new - steps.old) }
    ensures counted { steps.old ≤ steps.new }
{
    let node = node_at_or_of(version, &name.as_ref(), number, steps);
    let missing = missing_labels(version, &name.as_ref(), &node);
    if missing == 0 {
        return Some(*name);
    }
    let wildcard = match wildcard_above(name, missing) {
        None => return None,
        Some(wildcard) => wildcard,
    };
    let there = node_of_wildcard(version, &wildcard.as_ref(), number, steps);
    if missing_labels(version, &wildcard.as_ref(), &there) == 0 {
        Some(wildcard)
    } else {
        None
    }
}

/// The wildcard below the closest encloser of a name that doesn't exist, whether the wildcard exists or not (RFC 4592
/// section 3.3.1). `place` is how many records precede those of the name. It takes no search.
pub fn wildcard_of(version: &Version, name: &Name, place: usize) -> Option<Name>
    requires missing { exists version.now.records name.now ≡ false }
    requires room { place ≤ length version.now.records }
    requires place { IsPlaceOf name.now version.now.records place }
    ensures { result ≡ option_map wildcard_of (encloser version.now.records name.now) }
{
    let records = version.records();
    let missing = counted_missing::<Brand>(Blank::new(1), records, place, &name.as_ref());
    wildcard_above(name, missing)
}
