//! The one search by halves, whatever it asks of items.

ghost use Rattle.std.specs.Prelude.{◌≡◌, ◌+◌, ◌-◌, ◌≤◌, Bool, true, false, length};
ghost use Rattle.std.specs.List.Sorted.{IsPartitionPoint, IsPartitionedBy};
ghost use Rattle.dz_chunks.specs.Search.{IsSearch};

use dz_steps::Steps;
use std::sync::ledger::Ledger;

/// What a search asks of items, which holds of the first of them alone.
pub(crate) trait Question<T> {
    /// Whether it holds of an item.
    ghost holds: { Self → T → Bool };

    /// Whether it holds of an item. It is one step.
    fn ask<L: Ledger>(&self, item: &T, steps: &mut Steps<L>) -> bool
        ensures value { result ≡ holds self.now item.now }
        ensures counted { steps.new ≡ steps.old + 1 };
}

/// Of how many items a question holds, where it holds of the first of them alone.
pub(crate) fn count_of<T, Q: Question<T>, L: Ledger>(
    items: &[T],
    question: &Q,
    steps: &mut Steps<L>,
) -> usize
    ensures within { result ≤ length items.now }
    ensures point { IsPartitionedBy (Q.holds question.now) items.now
        → IsPartitionPoint (λ item. Q.holds question.now item ≡ true)
        (λ item. Q.holds question.now item ≡ false) items.now result }
    ensures cost { IsSearch (length items.now) (steps.new - steps.old) }
{
    let mut low = 0;
    let mut high = items.len();
    'search: while low < high {
        let middle = low + (high - low) / 2;
        if question.ask(&items[middle], steps) {
            low = middle + 1;
        } else {
            high = middle;
        }
    }
    low
}
