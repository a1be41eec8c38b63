//! Records by their shape alone.

ghost use Rattle.std.specs.Prelude.{◌≡◌, ◌+◌, ◌<◌, ◌≤◌, length, take, drop, option_map, IfSome};
ghost use Rattle.dz_header.specs.Shape.{behind_owner, behind_head, shape_of, behind_records};

use crate::record_head::{HEAD_OCTETS, RecordHead, read_head};
use dz_name::dns::LABEL_OCTETS;
use dz_steps::Steps;
use std::marker::Brand;
use std::sync::ledger::{Blank, Ledger};

/// The least first octet of a pointer: its two top bits are 11 (RFC 1035 section 4.1.4).
pub(crate) const POINTER: usize = 192;

/// What a record shows without its owner name and RDATA being read.
#[derive(Clone, Copy, Debug, PartialEq, Eq)]
pub struct Shape {
    /// Whether the owner name is the single zero octet, the root.
    pub root: bool,
    /// Type, class, TTL and the length of the RDATA.
    pub head: RecordHead,
}

/// The shape of the record at the beginning of some octets, its RDATA as it is there, and what follows the record. None
/// where it isn't complete, or its owner name is neither labels and a zero octet nor labels and a pointer.
pub fn read_shape(octets: &[u8]) -> Option<(Shape, &[u8], &[u8])>
    ensures { option_map (λ x. (x.0, x.1.now, x.2.now)) result ≡ shape_of octets.now }
{
    shape_from::<Brand>(Blank::new(1), octets)
}

/// The same as [`read_shape`], counted in a ledger that is still blank.
fn shape_from<'a, L: Ledger>(blank: Blank, octets: &'a [u8]) -> Option<(Shape, &'a [u8], &'a [u8])>
    requires name { blank.name ≡ L.name }
    requires parts { blank.parts ≡ L.parts }
    requires whole { blank.parts ≡ 1 }
    ensures { option_map (λ x. (x.0, x.1.now, x.2.now)) result ≡ shape_of octets.now }
{
    let mut steps = Steps::<L>::new(blank);
    counted_shape(octets, &mut steps)
}

/// The same as [`read_shape`]. A step is one look at a length octet of the owner name, or at its pointer.
fn counted_shape<'a, L: Ledger>(
    octets: &'a [u8],
    steps: &mut Steps<L>,
) -> Option<(Shape, &'a [u8], &'a [u8])>
    ensures shape { option_map (λ x. (x.0, x.1.now, x.2.now)) result ≡ shape_of octets.now }
    ensures counted { steps.old ≤ steps.new }
    ensures most { steps.new ≤ steps.old + length octets.now }
    ensures used { IfSome result
        (λ x. steps.new + length x.2.now ≤ steps.old + length octets.now) }
    ensures least { IfSome result (λ _. steps.old < steps.new) }
{
    let rest = behind_owner(octets, steps)?;
    behind_head(octets.is_empty() || octets[0] == 0, rest)
}

/// What follows the given number of records; none where one of them has no shape.
pub fn skip_records(octets: &[u8], count: u32) -> Option<&[u8]>
    ensures { option_map (λ rest. rest.now) result ≡ behind_records count octets.now }
{
    skip_from::<Brand>(Blank::new(1), octets, count)
}

/// The same as [`skip_records`], counted in a ledger that is still blank.
fn skip_from<L: Ledger>(blank: Blank, octets: &[u8], count: u32) -> Option<&[u8]>
    requires name { blank.name ≡ L.name }
    requires parts { blank.parts ≡ L.parts }
    requires whole { blank.parts ≡ 1 }
    ensures { option_map (λ rest. rest.now) result ≡ behind_records count octets.now }
{
    let mut steps = Steps::<L>::new(blank);
    counted_skip(octets, count, &mut steps)
}

/// The same as [`skip_records`]. A step is one look at a length octet of an owner name, or at its pointer: no more than
/// the octets that are passed over, or than there are, and at least one for each record.
#[tactic(auto, using(crate::proofs::ShapeLemmas::skipped_step, crate::proofs::ShapeLemmas::skipped_done))]
pub fn counted_skip<'a, L: Ledger>(
    octets: &'a [u8],
    count: u32,
    steps: &mut Steps<L>,
) -> Option<&'a [u8]>
    ensures rest { option_map (λ rest. rest.now) result ≡ behind_records count octets.now }
    ensures counted { steps.old ≤ steps.new }
    ensures most { steps.new ≤ steps.old + length octets.now }
    ensures used { IfSome result
        (λ rest. steps.new + length rest.now ≤ steps.old + length octets.now) }
    ensures least { IfSome result (λ _. steps.old + count ≤ steps.new) }
{
    let mut rest = octets;
    'records: for _ in 0..count {
        let (_, _, behind) = counted_shape(rest, steps)?;
        rest = behind;
    }
    Some(rest)
}

/// The fields after an owner name, the RDATA, and what follows the record; none where they aren't complete.
fn behind_head(root: bool, octets: &[u8]) -> Option<(Shape, &[u8], &[u8])>
    ensures head { option_map (λ x. (x.0, x.1.now, x.2.now)) result ≡ behind_head root octets.now }
    ensures rest { IfSome result (λ x. length x.2.now ≤ length octets.now) }
{
    let head = read_head(octets)?;
    let rest = behind(octets, HEAD_OCTETS);
    let size = head.size as usize;
    if rest.len() < size {
        return None;
    }
    let (rdata, behind) = rest.split_at(size);
    Some((Shape { root, head }, rdata, behind))
}

/// What follows the owner name of a record; none where it isn't complete or has a bad length octet. Each length octet
/// and each pointer that is looked at is one step.
#[tactic(auto, using(crate::proofs::ShapeLemmas::owner_none, crate::proofs::ShapeLemmas::owner_ends, crate::proofs::ShapeLemmas::owner_label, crate::proofs::ShapeLemmas::owner_cut, crate::proofs::ShapeLemmas::owner_bad, crate::proofs::ShapeLemmas::owner_half, crate::proofs::ShapeLemmas::owner_points))]
fn behind_owner<'a, L: Ledger>(octets: &'a [u8], steps: &mut Steps<L>) -> Option<&'a [u8]>
    ensures rest { option_map (λ rest. rest.now) result ≡ behind_owner 0 octets.now }
    ensures counted { steps.old ≤ steps.new }
    ensures most { steps.new ≤ steps.old + length octets.now }
    ensures used { IfSome result
        (λ rest. steps.new + length rest.now ≤ steps.old + length octets.now) }
    ensures least { IfSome result (λ _. steps.old < steps.new) }
{
    let mut rest = octets;
    'labels: while !rest.is_empty() {
        steps.tick();
        let size = rest[0] as usize;
        if size == 0 {
            return Some(behind(rest, 1));
        }
        if size <= LABEL_OCTETS {
            if rest.len() <= size {
                return None;
            }
            rest = behind(rest, size + 1);
        } else if size < POINTER {
            return None;
        } else if rest.len() == 1 {
            return None;
        } else {
            return Some(behind(rest, 2));
        }
    }
    None
}

/// What follows the given number of octets.
fn behind(octets: &[u8], count: usize) -> &[u8]
    requires { count ≤ length octets.now }
    ensures { result.now ≡ drop count octets.now }
{
    octets.split_at(count).1
}
