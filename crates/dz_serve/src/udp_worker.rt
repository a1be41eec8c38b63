//! A worker over datagrams.

ghost use Rattle.std.specs.Prelude.{◌≡◌};
ghost use Rattle.std.specs.Mem.{manually_drop_value};
ghost use Rattle.dz_serve.specs.Workers.{IsSeated, ShowsListening};

use crate::clocks::ClockAndBuffer;
use crate::together::{Work, held};
use dz_desk::{Ear, Reading};
use dz_header::ReplyBuffer;
use dz_io::{Clock, Datagrams};
use dz_provision::Jobs;
use dz_query::{SessionEnd, serve_datagrams};
use std::mem::ManuallyDrop;
use std::sync::Wait;

/// What a datagram worker works with.
#[derive(Drop)]
pub(crate) struct Listening<D, C> {
    pub reading: Reading,
    pub device: ManuallyDrop<D>,
    pub clock: C,
    pub buffer: ReplyBuffer,
}

impl<D, C> Listening<D, C> {
    /// A datagram worker of these, with this clock and buffer.
    pub fn new(reading: Reading, device: D, own: ClockAndBuffer<C>) -> Listening<D, C>
        ensures reading { result.reading ≡ reading }
        ensures device { manually_drop_value result.device ≡ device }
        ensures clock { result.clock ≡ own.clock }
    {
        let ClockAndBuffer { clock, buffer } = own;
        Listening {
            reading,
            device: held(device),
            clock,
            buffer,
        }
    }
}

/// What a datagram worker hands on.
#[derive(Drop)]
pub(crate) struct Listened<D, C> {
    pub reading: Reading,
    pub device: ManuallyDrop<D>,
    pub clock: C,
    pub end: SessionEnd,
}

impl<E: Ear, D: Datagrams, C: Clock> Work<E, Listened<D, C>> for Listening<D, C> {
    ghost use Rattle.std.specs.Mem.{manually_drop_value};
    ghost use Rattle.dz_serve.specs.Workers.{ShowsListening};

    ghost shows = { λ w d. ShowsListening D.Datagrams C.Clock E.may_fail
        (manually_drop_value w.device) w.reading w.clock d };
}

/// Serves the device to its end.
pub(crate) fn listen<B: Jobs, D: Datagrams, C: Clock, R: Wait>(
    rt: &R,
    jobs: &B,
    work: Listening<D, C>,
) -> Listened<D, C>
    requires { IsSeated B.publisher work.reading }
    ensures { ShowsListening D.Datagrams C.Clock B.may_fail
        (manually_drop_value work.device) work.reading work.clock result }
{
    let Listening {
        mut reading,
        device,
        mut clock,
        mut buffer,
    } = work;
    let mut device = ManuallyDrop::into_inner(device);
    let end = serve_datagrams(rt, jobs, &mut reading, &mut device, &mut clock, &mut buffer);
    Listened {
        reading,
        device: held(device),
        clock,
        end,
    }
}
