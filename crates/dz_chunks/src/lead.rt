//! Keys with first octets.

ghost use Rattle.std.specs.Prelude.{◌≡◌, ◌≢◌, ◌+◌, ℕ, List};
ghost use Rattle.std.specs.Cmp.Lexicographic.{slice_cmp};
ghost use Rattle.std.specs.Ordering.{nat_cmp};
ghost use Rattle.std.specs.declared.cmp.Ordering.TheVariants.{Equal};

use dz_steps::Steps;
use std::cmp::Ordering;
use std::sync::ledger::Ledger;

/// A key with first octets, which are beside it in a map and tell most keys apart, so that few searches read keys.
pub trait Lead: Ord {
    /// The first octets.
    ghost lead: { Self → List ℕ };

    /// The first octets.
    fn lead(&self) -> [u8; 16]
        ensures { result ≡ lead self.now };

    /// Where the first octets of two keys differ, the keys compare as these do.
    ghost decides: { (a b : Self) → slice_cmp nat_cmp (lead a) (lead b) ≢ Equal
        → Self.Ord.cmp a b ≡ slice_cmp nat_cmp (lead a) (lead b) };

    /// Keys that tie are one.
    ghost one: { (a b : Self) → Self.Ord.cmp a b ≡ Equal → a ≡ b };
}

/// How first octets compare with those of a key. It is one step, unless they are alike: then they tell nothing of the keys,
/// and what compares the keys counts ([`Keyed::compare`](crate::keyed::Keyed::compare)).
#[inline(always)]
pub(crate) fn compare_lead<K: Lead, L: Ledger>(
    lead: &[u8; 16],
    key: &K,
    steps: &mut Steps<L>,
) -> Ordering
    ensures value { result ≡ slice_cmp nat_cmp lead.now (K.lead key.now) }
    ensures apart { result ≢ Equal → steps.new ≡ steps.old + 1 }
    ensures alike { result ≡ Equal → steps.new ≡ steps.old }
{
    match compare_leads(lead, &key.lead()) {
        Ordering::Equal => Ordering::Equal,
        order => {
            steps.tick();
            order
        }
    }
}

/// How first octets compare with others. They are compared as numbers, so that a search has no branch for each octet.
fn compare_leads(left: &[u8; 16], right: &[u8; 16]) -> Ordering
    ensures { result ≡ slice_cmp nat_cmp left.now right.now }
{
    u128::from_be_bytes(*left).cmp(&u128::from_be_bytes(*right))
}
