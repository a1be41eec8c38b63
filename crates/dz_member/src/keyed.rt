//! Nodes that are compared by their zones.

ghost use Rattle.std.specs.Prelude.{◌≡◌, drop};
ghost use Rattle.std.specs.Cmp.Lexicographic.{slice_cmp};
ghost use Rattle.std.specs.Ordering.{nat_cmp};
ghost use Rattle.dz_name.specs.Name.{canonical_order};
ghost use Rattle.dz_index.specs.SortKey.{key_of};
ghost use Rattle.dz_index.specs.Lead.{lead_of};
ghost use Rattle.std.specs.declared.cmp.Ordering.TheVariants.{Equal};

use crate::listing::Node;
use dz_index::{LEAD, SortKey, lead_of};
use std::cmp::Ordering;
use std::marker::Model;

/// A node after the first 32 octets of its zone's sort key, which tell most zones apart, so that few comparisons read the
/// node itself.
#[derive(Drop)]
pub(crate) struct Keyed<'a> {
    first: [u8; LEAD],
    second: [u8; LEAD],
    node: &'a Node,
}

impl<'a> Model for Keyed<'a> {
    ghost use Rattle.std.specs.Prelude.{◌≡◌, drop};
    ghost use Rattle.dz_index.specs.SortKey.{key_of};
    ghost use Rattle.dz_member.specs.declared.listing.Node.{Node};
    ghost use Rattle.dz_index.specs.Lead.{lead_of};

    ghost Value = { Node };

    ghost view = { λ k. k.node.now };

    ghost invariant = { λ k. (k.first ≡ lead_of 16 (key_of k.node.now.zone))
        × (k.second ≡ lead_of 16 (drop 16 (key_of k.node.now.zone))) };
}

impl<'a> Keyed<'a> {
    /// A node with the key of its zone.
    pub(crate) fn of(node: &'a Node) -> Keyed<'a>
        ensures { result ≡ node.now }
    {
        let key = SortKey::of(&node.zone.as_ref());
        let octets = key.octets();
        Keyed {
            first: lead_of(octets),
            second: lead_of(behind(octets)),
            node,
        }
    }

    /// The canonical order of the zones.
    pub(crate) fn zone_cmp(&self, other: &Keyed) -> Ordering
        ensures { result ≡ canonical_order self.now.zone other.now.zone }
    {
        match compare_leads(&self.first, &other.first) {
            Ordering::Equal => self.cmp_behind(other),
            order => order,
        }
    }

    /// The same where the first 16 octets of the keys are the same.
    fn cmp_behind(&self, other: &Keyed) -> Ordering
        requires { slice_cmp nat_cmp (lead_of 16 (key_of self.now.zone))
            (lead_of 16 (key_of other.now.zone)) ≡ Equal }
        ensures { result ≡ canonical_order self.now.zone other.now.zone }
    {
        match compare_leads(&self.second, &other.second) {
            Ordering::Equal => self.node.zone.canonical_cmp(&other.node.zone),
            order => order,
        }
    }
}

/// How octets compare with others. They are compared as numbers, without a branch for each octet.
fn compare_leads(left: &[u8; LEAD], right: &[u8; LEAD]) -> Ordering
    ensures { result ≡ slice_cmp nat_cmp left.now right.now }
{
    u128::from_be_bytes(*left).cmp(&u128::from_be_bytes(*right))
}

/// The octets after the first 16.
fn behind(octets: &[u8]) -> &[u8]
    ensures { result.now ≡ drop 16 octets.now }
{
    &octets[octets.len().min(LEAD)..]
}
