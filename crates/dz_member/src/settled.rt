//! Which catalogs are settled: the last unbroken listing of such a catalog, processed again, would tell nothing.

ghost use Rattle.std.specs.Prelude.{◌≡◌, ◌<◌, length, map, IfOk};
ghost use Rattle.std.specs.List.{list_any, range_with_len};
ghost use Rattle.dz_member.specs.inner.Happened.{clashes, leaves, is_settled_after};

use crate::change::{Happened, Happening};
use std::alloc::{AllocError, Global};

/// Whether it is a clash.
fn clashes(what: &Happened) -> bool
    ensures { result ≡ clashes what.now }
{
    match what {
        Happened::Clash(_) => true,
        _ => false,
    }
}

/// Whether it is a move from the catalog of a number.
fn leaves(number: usize, what: &Happened) -> bool
    ensures { result ≡ leaves number what.now }
{
    match what {
        Happened::Moved(from, _) => *from as usize == number,
        Happened::MovedReset(from, _) => *from as usize == number,
        _ => false,
    }
}

/// Whether there is a clash.
fn any_clash(changes: &[Happening]) -> bool
    ensures { result ≡ list_any (λ h. clashes h.what) changes.now }
{
    changes.iter().any(|h| clashes(&h.what))
}

/// Whether a zone leaves the catalog of a number.
fn any_leaves(changes: &[Happening], number: usize) -> bool
    ensures { result ≡ list_any (λ h. leaves number h.what) changes.now }
{
    changes.iter().any(|h| leaves(number, &h.what))
}

/// Whether the catalog of a number is settled after these changes by the listing of one.
fn is_settled_after(settled: &[bool], listed: usize, changes: &[Happening], number: usize) -> bool
    requires { number < length settled.now }
    ensures { result ≡ is_settled_after settled.now listed changes.now number }
{
    if number == listed {
        !any_clash(changes)
    } else {
        settled[number] && !any_leaves(changes, number)
    }
}

/// Which catalogs are settled after these changes by the listing of one. The error is out of memory.
pub(crate) fn settled_after(
    alloc: Global,
    settled: &[bool],
    listed: usize,
    changes: &[Happening],
) -> Result<Vec<bool>, AllocError>
    ensures { IfOk result (λ marks. marks.items
        ≡ map (is_settled_after settled.now listed changes.now)
        (range_with_len 0 (length settled.now))) }
{
    let mut marks = Vec::with_capacity(alloc, settled.len())?;
    'catalogs: for number in 0..settled.len() {
        marks.push(is_settled_after(settled, listed, changes, number))?;
    }
    Ok(marks)
}
