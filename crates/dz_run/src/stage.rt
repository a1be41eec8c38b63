//! How far a replay has come.

ghost use Rattle.std.specs.Prelude.{◌≡◌, [], Some, option_map};
ghost use Rattle.dz_run.specs.Kept.{IsKept, IsReading, IsResting, core_in, written_in, faults_in};
ghost use Rattle.dz_run.specs.Phase.{state_in};

use crate::book::EmptyBook;
use crate::ends::Ends;
use crate::events::Running;
use dz_fleet::Fleet;
use dz_io::Sink;
use dz_provision::Naming;
use std::snapshot::Snapshot;

/// How far a replay has come, and what it has there.
pub(crate) enum Stage<K: Sink, J: Naming> {
    /// No event came yet: the ends and the ledger are what the provisioner will begin with.
    Reading(Ends<K>, EmptyBook<J>),
    /// The provisioner takes the events.
    Running(Running<K, J>),
    /// It has ended: the ends came back, beside what contracts see of the last core, if there was one.
    Over(Ends<K>, Option<Snapshot<Fleet>>),
}

impl<K: Sink, J: Naming> Stage<K, J> {
    /// What the provisioner begins with.
    pub(crate) fn into_start(self) -> (Ends<K>, EmptyBook<J>)
        requires { IsReading self }
        ensures { Stage.Reading result.0 result.1 ≡ self }
    {
        match self {
            Stage::Reading(ends, starved) => (ends, starved),
            Stage::Running(_running) => unreachable!(),
            Stage::Over(_ends, _) => unreachable!(),
        }
    }

    /// Closes the jobs that are left, and gives back the ends, and what contracts see of the last core.
    pub(crate) fn close(self) -> (Ends<K>, Option<Snapshot<Fleet>>)
        requires { IsKept J.publisher K.held K.faults (Some self) }
        ensures core { option_map (λ s. s.value) result.1 ≡ core_in (Some self) }
        ensures written { K.held result.0.output ≡ written_in K.held (Some self) }
        ensures faults { K.faults result.0.output ≡ faults_in K.faults (Some self) }
        ensures ends { IsResting J.publisher (state_in [] (core_in (Some self)))
            result.0.publisher result.0.reading }
    {
        match self {
            Stage::Reading(ends, _) => (ends, None),
            Stage::Running(running) => {
                let (fleet, ends) = running.close();
                (ends, Some(Snapshot::of(&fleet)))
            }
            Stage::Over(ends, last) => (ends, last),
        }
    }
}
