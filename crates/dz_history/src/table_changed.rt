//! The table after few changes of a listing.

ghost use Rattle.std.specs.Prelude.{◌≡◌, fold, IfOk};
ghost use Rattle.dz_history.specs.inner.Changed.{after_change};

use dz_member::{Change, Changes, What};
use dz_table::{Slot, Table};
use std::alloc::{AllocError, Global};
use std::sync::Arc;

/// The table with the slots that changes put in or take out, one after another. `AllocError` where memory runs out.
pub(crate) fn table_changed(
    alloc: Global,
    before: &Arc<Table>,
    changes: &Changes,
) -> Result<Arc<Table>, AllocError>
    ensures { IfOk result (λ t. t.value ≡ fold after_change before.now.value changes.now) }
{
    let mut table = Arc::try_clone(before)?;
    'changes: for change in changes.iter() {
        table = with_change(alloc, table, &change)?;
    }
    Ok(table)
}

/// The table after one change: a zone that begins has a fresh slot, and one that was removed has none. Nothing else that
/// happens to a zone concerns its slot. `AllocError` where memory runs out.
fn with_change(alloc: Global, table: Arc<Table>, change: &Change) -> Result<Arc<Table>, AllocError>
    ensures { IfOk result (λ t. t.value ≡ after_change table.value change.now) }
{
    match change.what {
        What::Added(_) | What::Reset(_) | What::MovedReset(_, _) => {
            let slot = Slot::new(alloc, &change.zone, 0, None)?;
            Ok(Arc::new(alloc, table.with_slot(alloc, slot)?)?)
        }
        What::Removed(_) => Ok(Arc::new(alloc, table.without_slot(alloc, &change.zone)?)?),
        What::Moved(_, _) | What::Clash(_) | What::Regrouped(_) => Ok(table),
    }
}
