//! Distinct records in canonical order.

ghost use Rattle.std.specs.Prelude.{◌≡◌, ◌↔◌, IsTrue, MatchResult, OnOk};
ghost use Rattle.std.specs.Ordering.{is_lt};
ghost use Rattle.std.specs.List.Sorted.{IsStrictlySortedBy};
ghost use Rattle.dz_name.specs.Name.{canonical_order};
ghost use Rattle.dz_record.specs.Record.{record_order};
ghost use Rattle.dz_record.specs.Records.{distinct, in_order};

use dz_record::Rr;
use std::alloc::AllocError;
use std::cmp::Ordering;

/// Whether each record comes before the next.
fn rises(records: &[Rr]) -> bool
    ensures { IsTrue result ↔ IsStrictlySortedBy record_order records.now }
{
    records.is_sorted_by(|a, b| precedes(a, b))
}

/// Whether a record comes before another.
fn precedes(a: &Rr, b: &Rr) -> bool
    ensures { result ≡ is_lt (record_order a.now b.now) }
{
    comes_before(a.owner_ref().canonical_cmp(&b.owner_ref()), a, b)
}

/// Whether a record comes before another, by the order of their owners. Types and RDATA are compared only where the
/// owners are the same.
pub(crate) fn comes_before(owners: Ordering, a: &Rr, b: &Rr) -> bool
    requires { owners ≡ canonical_order a.now.owner b.now.owner }
    ensures { result ≡ is_lt (record_order a.now b.now) }
{
    match owners {
        Ordering::Less => true,
        Ordering::Greater => false,
        Ordering::Equal => a
            .kind()
            .cmp(&b.kind())
            .then(a.rdata().cmp(b.rdata()))
            .is_lt(),
    }
}

/// Puts the records in canonical order, and of those that are the same keeps the first. Records that rise already stay
/// as they are, at the cost of one pass. The error is out of memory: the records then stay as they were.
pub(crate) fn tidy(records: &mut Vec<Rr>) -> Result<(), AllocError>
    ensures rises { OnOk result (IsStrictlySortedBy record_order records.new.items) }
    ensures value { MatchResult result
        (λ _. records.new.items ≡ in_order (distinct records.old.items))
        (λ _. records.new.items ≡ records.old.items) }
{
    if rises(records) {
        return Ok(());
    }
    match records.sort_by(|a, b| a.record_cmp(b)) {
        Ok(()) => {
            records.dedup_by(|later, kept| later.same(kept));
            Ok(())
        }
        Err(_) => Err(AllocError),
    }
}
