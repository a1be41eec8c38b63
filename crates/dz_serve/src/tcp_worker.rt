//! A worker over links that are accepted.

ghost use Rattle.std.specs.Prelude.{◌≡◌, None};
ghost use Rattle.std.specs.Mem.{manually_drop_value};
ghost use Rattle.dz_serve.specs.Workers.{IsSeated, ShowsLinking};

use crate::clocks::ClockAndBuffer;
use crate::together::{Work, held};
use dz_config::Downstream;
use dz_desk::{Ear, Reading};
use dz_header::ReplyBuffer;
use dz_io::{Acceptor, Clock};
use dz_provision::Jobs;
use dz_query::{LinksEnd, serve_links};
use std::mem::ManuallyDrop;
use std::sync::Wait;

/// What a link worker works with; zones are sent to these addresses.
#[derive(Drop)]
pub(crate) struct Linking<A, C> {
    pub reading: Reading,
    pub acceptor: ManuallyDrop<A>,
    pub clock: C,
    pub buffer: ReplyBuffer,
    pub downstream: Downstream,
}

impl<A, C> Linking<A, C> {
    /// A link worker of these, with this clock and buffer.
    pub fn new(
        reading: Reading,
        acceptor: A,
        own: ClockAndBuffer<C>,
        downstream: Downstream,
    ) -> Linking<A, C>
        ensures reading { result.reading ≡ reading }
        ensures acceptor { manually_drop_value result.acceptor ≡ acceptor }
        ensures clock { result.clock ≡ own.clock }
        ensures downstream { result.downstream ≡ downstream }
    {
        let ClockAndBuffer { clock, buffer } = own;
        Linking {
            reading,
            acceptor: held(acceptor),
            clock,
            buffer,
            downstream,
        }
    }
}

/// What a link worker hands on.
#[derive(Drop)]
pub(crate) struct Linked<A, C> {
    pub reading: Reading,
    pub acceptor: ManuallyDrop<A>,
    pub clock: C,
    pub end: LinksEnd,
}

impl<E: Ear, A: Acceptor, C: Clock> Work<E, Linked<A, C>> for Linking<A, C> {
    ghost use Rattle.std.specs.Mem.{manually_drop_value};
    ghost use Rattle.dz_serve.specs.Workers.{ShowsLinking};

    ghost shows = { λ w d. ShowsLinking A.Acceptor C.Clock E.may_fail w.downstream
        (manually_drop_value w.acceptor) w.reading w.clock d };
}

/// Serves the acceptor's links to its end.
pub(crate) fn link<B: Jobs, A: Acceptor, C: Clock, R: Wait>(
    rt: &R,
    jobs: &B,
    work: Linking<A, C>,
) -> Linked<A, C>
    requires seated { IsSeated B.publisher work.reading }
    requires none { A.out (manually_drop_value work.acceptor) ≡ None }
    ensures { ShowsLinking A.Acceptor C.Clock B.may_fail work.downstream
        (manually_drop_value work.acceptor) work.reading work.clock result }
{
    let Linking {
        mut reading,
        acceptor,
        mut clock,
        mut buffer,
        downstream,
    } = work;
    let mut acceptor = ManuallyDrop::into_inner(acceptor);
    let end = serve_links(
        rt,
        jobs,
        &mut reading,
        &mut acceptor,
        &mut clock,
        downstream.as_slice(),
        &mut buffer,
    );
    Linked {
        reading,
        acceptor: held(acceptor),
        clock,
        end,
    }
}
