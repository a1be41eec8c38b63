//! The order of octets.

ghost use Rattle.std.specs.Prelude.{◌≡◌, ◌≤◌, length, take, drop};
ghost use Rattle.std.specs.Int.{w64, from_be_bytes};
ghost use Rattle.dz_index.specs.Rows.{compared};

use std::cmp::Ordering;

/// How many octets are compared at once.
const GROUP: usize = 8;

/// How octets compare with others, octet by octet. Eight are compared at once, as one number.
#[inline(always)]
pub(crate) fn compare_octets(left: &[u8], right: &[u8]) -> Ordering
    ensures { result ≡ compared left.now right.now }
{
    let mut mine = left;
    let mut theirs = right;
    'groups: while GROUP <= mine.len() && GROUP <= theirs.len() {
        let order = compare_group(mine, theirs);
        if order != Ordering::Equal {
            return order;
        }
        mine = behind_group(mine);
        theirs = behind_group(theirs);
    }
    mine.cmp(theirs)
}

/// How the first eight octets compare.
fn compare_group(left: &[u8], right: &[u8]) -> Ordering
    requires left { 8 ≤ length left.now }
    requires right { 8 ≤ length right.now }
    ensures { result ≡ compared (take 8 left.now) (take 8 right.now) }
{
    number_of_group(left).cmp(&number_of_group(right))
}

/// The first eight octets as a number, the first the greatest.
fn number_of_group(octets: &[u8]) -> u64
    requires { 8 ≤ length octets.now }
    ensures { result ≡ from_be_bytes w64 (take 8 octets.now) }
{
    match octets.first_chunk::<GROUP>() {
        Some(group) => u64::from_be_bytes(*group),
        None => 0,
    }
}

/// What follows the first eight octets.
fn behind_group(octets: &[u8]) -> &[u8]
    requires { 8 ≤ length octets.now }
    ensures { result.now ≡ drop 8 octets.now }
{
    &octets[GROUP..]
}
