//! A worker over a dialer.

ghost use Rattle.std.specs.Prelude.{◌≡◌, ◌<◌, None};
ghost use Rattle.std.specs.Mem.{manually_drop_value};
ghost use Rattle.dz_serve.specs.Workers.{IsSeated, ShowsTransferring};

use crate::together::{Work, held};
use dz_desk::Reading;
use dz_io::{Clock, Dialer};
use dz_provision::Jobs;
use dz_transfer::{Transfers, serve_transfers};
use std::alloc::Global;
use std::mem::ManuallyDrop;
use std::sync::Wait;
use std::sync::ledger::{Ledger, Share};

/// What a transfer worker works with. Its share counts the lines of want of memory.
#[derive(Drop)]
pub(crate) struct Transferring<D, C, N: Ledger> {
    pub reading: Reading,
    pub dialer: ManuallyDrop<D>,
    pub clock: C,
    pub share: Share<N>,
}

impl<D, C, N: Ledger> Transferring<D, C, N> {
    /// A transfer worker of these.
    pub fn new(reading: Reading, dialer: D, clock: C, share: Share<N>) -> Transferring<D, C, N>
        ensures reading { result.reading ≡ reading }
        ensures dialer { manually_drop_value result.dialer ≡ dialer }
        ensures clock { result.clock ≡ clock }
        ensures share { result.share ≡ share }
    {
        Transferring {
            reading,
            dialer: held(dialer),
            clock,
            share,
        }
    }
}

/// What a transfer worker hands on.
#[derive(Drop)]
pub(crate) struct Transferred<D, N: Ledger> {
    pub reading: Reading,
    pub dialer: ManuallyDrop<D>,
    pub share: Share<N>,
    pub transfers: Transfers,
}

impl<B, D: Dialer, C: Clock, N: Ledger> Work<B, Transferred<D, N>> for Transferring<D, C, N> {
    ghost use Rattle.std.specs.Mem.{manually_drop_value};
    ghost use Rattle.dz_serve.specs.Workers.{ShowsTransferring};

    ghost shows = { λ w d. ShowsTransferring D.Dialer C.Clock
        (manually_drop_value w.dialer) w.reading w.clock w.share.parts d };
}

/// Makes transfers to the end.
pub(crate) fn transfer<B: Jobs, D: Dialer, C: Clock + Drop, R: Wait>(
    rt: &R,
    alloc: Global,
    jobs: &B,
    work: Transferring<D, C, B::Counted>,
) -> Transferred<D, B::Counted>
    requires seated { IsSeated B.publisher work.reading }
    requires none { D.out (manually_drop_value work.dialer) ≡ None }
    requires share { (work.share.amount ≡ 0) × (0 < work.share.parts) }
    ensures { ShowsTransferring D.Dialer C.Clock
        (manually_drop_value work.dialer) work.reading work.clock work.share.parts result }
{
    let Transferring {
        mut reading,
        dialer,
        mut clock,
        mut share,
    } = work;
    let mut dialer = ManuallyDrop::into_inner(dialer);
    let transfers = serve_transfers(
        rt,
        alloc,
        jobs,
        &mut reading,
        &mut share,
        &mut dialer,
        &mut clock,
    );
    Transferred {
        reading,
        dialer: held(dialer),
        share,
        transfers,
    }
}
