//! The command `rehearse`.
ghost use Rattle.std.specs.Prelude.{◌≡◌, ◌≢◌, ◌≤◌, []};
ghost use mathlib.Core.List.{IsPrefix};
ghost use Rattle.dz_gen.specs.Script.{script};
ghost use Rattle.dz_run.specs.Rehearsing.{SumsUp, Rehearses};
ghost use Rattle.dz_run.specs.Replaying.{opening, replay_rules};
ghost use Rattle.dz_run.specs.Running.{HasCauseIn, IsNewDesk, IsBack, list_of_script};
ghost use Rattle.dz_run.specs.declared.answering.End.{End};
ghost use Rattle.dz_script.specs.Run.{said_of};

use crate::commands::{Ended, run_replay};
use crate::status::Status;
use dz_desk::Desk;
use dz_gen::{ZONES, generate, sum_up};
use dz_io::{MemorySink, MemorySource, Sink};
use std::alloc::Global;
use std::sync::Wait;

/// Runs `rehearse` over a desk: `replay` of the script with this many zones, whose text is summed up in nine lines.
pub(crate) fn rehearse<R: Wait, K: Sink>(
    rt: &R,
    alloc: Global,
    number: u16,
    output: K,
    desk: Desk,
) -> Ended<K>
    requires some { 1 ≤ number }
    requires number { number ≤ ZONES }
    requires desk { IsNewDesk desk.publisher desk.readings.items }
    ensures rehearses { Rehearses number result.status (K.held output) (K.held result.output) }
    ensures ended { (said_of replay_rules (opening []) (script number)).ending ≡ End.Done }
    ensures published { result.status ≢ Status.NoMemory
        → result.desk.publisher.list ≡ list_of_script (script number) }
    ensures begins { IsPrefix result.desk.publisher.list (list_of_script (script number)) }
    ensures back { IsBack desk.publisher.book result.desk.publisher result.desk.readings.items }
    ensures other { (result.status ≢ Status.Usage) × (result.status ≢ Status.PortFault) }
    ensures read { result.status ≢ Status.ReadFault }
    ensures write_cause { HasCauseIn (K.faults output)
        (K.faults result.output) result.status Status.WriteFault }
{
    let Ok(script) = generate(alloc, number) else {
        return Ended {
            status: Status::NoMemory,
            output,
            desk,
        };
    };
    let mut source = MemorySource::new(script.into_vec(), Vec::new(alloc));
    let sink = MemorySink::new(alloc, Vec::new(alloc));
    let Ended {
        status,
        output: sink,
        desk,
    } = run_replay(rt, alloc, &mut source, sink, desk);
    let mut output = output;
    let status = match status {
        Status::Done => tell(alloc, sink.written(), &mut output),
        // no line of the script is bad
        Status::BadInput => unreachable!(),
        // the source and the sink are in memory
        _ => Status::NoMemory,
    };
    Ended {
        status,
        output,
        desk,
    }
}

/// Writes the summary of a text.
fn tell<K: Sink>(alloc: Global, text: &[u8], output: &mut K) -> Status
    ensures sums_up { SumsUp text.now result (K.held output.old) (K.held output.new) }
    ensures ways { (result ≢ Status.Usage) × (result ≢ Status.PortFault)
        × (result ≢ Status.ReadFault) }
    ensures cause { HasCauseIn (K.faults output.old)
        (K.faults output.new) result Status.WriteFault }
{
    match sum_up(alloc, text) {
        Err(_) => Status::NoMemory,
        Ok(lines) => match output.write(lines.as_slice()) {
            Ok(()) => Status::Done,
            Err(_) => Status::WriteFault,
        },
    }
}
