//! Transfers that were weighed.

ghost use Rattle.std.specs.Prelude.{◌≡◌, Some, false, is_some, IfSome, IfOk, option_map};
ghost use Rattle.std.specs.Arc.{arc_value};
ghost use Rattle.dz_fleet.specs.Weighing.{Weighing};
ghost use Rattle.dz_fleet.specs.inner.Renewing.{renewed_by, written_by, IsStep};

use crate::waiting::Waiting;
use dz_history::{Entry, Holdings, Step};
use dz_job::Verdict;
use dz_table::Table;
use std::alloc::AllocError;
use std::marker::Model;
use std::snapshot::Snapshot;
use std::sync::Arc;

/// What holds afterwards, completed when the transfer was weighed: the same; other holdings; or other holdings and what
/// their zones wait for.
#[derive(Drop)]
pub(crate) enum Renewal {
    Same,
    Taken(Holdings),
    Relisted(Holdings, Waiting),
}

/// A transfer that was weighed: its verdict, and all the memory that its taking needs.
#[derive(Drop)]
pub struct Weighed {
    pub(crate) step: Option<Step>,
    pub(crate) entry: Snapshot<Entry>,
    pub(crate) moment: u64,
    pub(crate) verdict: Verdict,
    pub(crate) renewal: Renewal,
}

impl Model for Weighed {
    ghost use Rattle.std.specs.Prelude.{is_some};
    ghost use Rattle.dz_fleet.specs.Weighing.{Weighing};
    ghost use Rattle.dz_fleet.specs.inner.Renewing.{renewed_by, written_by, IsStep};

    ghost Value = { Weighing };

    ghost view = { λ w. record {
      entry = w.entry.value;
      moment = w.moment;
      verdict = w.verdict;
      renewed = renewed_by w.renewal;
      values = written_by w.renewal;
      is_there = is_some w.step;
    } };

    ghost invariant = { λ w. IsStep w.step w.entry.value (renewed_by w.renewal) };
}

impl Weighed {
    /// What was weighed, with the step that takes it where something is renewed.
    pub(crate) fn new(
        entry: Entry,
        moment: u64,
        verdict: Verdict,
        renewal: Renewal,
    ) -> Result<Weighed, AllocError>
        ensures { IfOk result (λ w. w ≡ record {
          entry = entry;
          moment = moment;
          verdict = verdict;
          renewed = renewed_by renewal;
          values = written_by renewal;
          is_there = is_some (renewed_by renewal);
        }) }
    {
        let kept = Snapshot::of(&entry);
        let step = match table_of(&renewal)? {
            None => None,
            Some(table) => Some(Step { entry, table }),
        };
        Ok(Weighed {
            step,
            entry: kept,
            moment,
            verdict,
            renewal,
        })
    }

    /// The verdict.
    pub fn verdict(&self) -> &Verdict
        ensures { result.now ≡ self.now.verdict }
    {
        &self.verdict
    }

    /// Hands out the step, once: it is there where the transfer is taken.
    pub fn take_step(&mut self) -> Option<Step>
        ensures there { is_some result ≡ self.old.is_there }
        ensures entry { IfSome result (λ step. step.entry ≡ self.old.entry) }
        ensures table { IfSome result
            (λ step. option_map (λ r. r.state.table) self.old.renewed
            ≡ Some (arc_value step.table)) }
        ensures rest { self.new ≡ record self.old { is_there = false } }
    {
        self.step.take()
    }

    /// The entry, the moment of its end in seconds, the verdict, and what holds afterwards.
    pub(crate) fn into_parts(self) -> (Snapshot<Entry>, u64, Verdict, Renewal)
        ensures entry { result.0.value ≡ self.entry }
        ensures moment { result.1 ≡ self.moment }
        ensures verdict { result.2 ≡ self.verdict }
        ensures renewed { renewed_by result.3 ≡ self.renewed }
        ensures values { written_by result.3 ≡ self.values }
    {
        (self.entry, self.moment, self.verdict, self.renewal)
    }
}

/// The table afterwards, shared; none where it is the same. `AllocError` where memory runs out.
fn table_of(renewal: &Renewal) -> Result<Option<Arc<Table>>, AllocError>
    ensures { IfOk result (λ table. option_map arc_value table
        ≡ option_map (λ r. r.state.table) (renewed_by renewal.now)) }
{
    match renewal {
        Renewal::Same => Ok(None),
        Renewal::Taken(holdings) => Ok(Some(Arc::try_clone(holdings.table())?)),
        Renewal::Relisted(holdings, _) => Ok(Some(Arc::try_clone(holdings.table())?)),
    }
}
