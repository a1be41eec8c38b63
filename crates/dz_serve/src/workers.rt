//! All workers, over one lock.

ghost use Rattle.std.specs.Prelude.{◌≡◌, ◌<◌, None, MatchBool};
ghost use Rattle.std.specs.Mem.{manually_drop_value};
ghost use mathlib.Core.List.{IsPrefix};
ghost use Rattle.dz_io.specs.Counts.{HasRisen};
ghost use Rattle.dz_history.specs.Legal.{IsLegal};
ghost use Rattle.dz_provision.specs.Log.{IsLogged};
ghost use Rattle.dz_serve.specs.Workers.{AreSeated, IsMadeOf, IsSeated, ShowsListening, ShowsLinking};
ghost use Rattle.dz_serve.specs.Workers.{ShowsTransferring};

use crate::clocks::{ClockAndBuffer, ClocksAndBuffers};
use crate::devices::Devices;
use crate::pair::Pair;
use crate::tcp_worker::{Linked, Linking, link};
use crate::together::{Workers, run_together};
use crate::transfer_worker::{Transferred, Transferring, transfer};
use crate::udp_worker::{Listened, Listening, listen};
use dz_config::Downstream;
use dz_desk::{Publisher, Reading};
use dz_io::{Acceptor, Clock, Datagrams, Dialer, Sink};
use dz_provision::{Jobs, Naming, Parts, Provisioner, Shared};
use std::alloc::Global;
use std::sync::Wait;
use std::sync::ledger::{Ledger, Share};
use std::thread::Threads;

/// A reading for each worker.
#[derive(Drop)]
pub(crate) struct Seats {
    pub listening: Pair<Reading>,
    pub linking: Pair<Reading>,
    pub transferring: Pair<Reading>,
}

/// What all workers are given: a reading, a device and a clock each, and a buffer to each that answers. Link workers send
/// zones to the addresses of `downstream`. The share of the ledger is for the transfer workers.
pub(crate) struct WorkerInputs<D, A, L, C, N: Ledger> {
    pub seats: Seats,
    pub devices: Devices<D, A, L>,
    pub clocks: ClocksAndBuffers<C>,
    pub downstream: Downstream,
    pub share: Share<N>,
}

impl<D, A, L, C, N: Ledger> WorkerInputs<D, A, L, C, N> {
    /// The inputs of these parts.
    pub fn new(
        seats: Seats,
        devices: Devices<D, A, L>,
        clocks: ClocksAndBuffers<C>,
        downstream: Downstream,
        share: Share<N>,
    ) -> WorkerInputs<D, A, L, C, N>
        ensures seats { result.seats ≡ seats }
        ensures devices { result.devices ≡ devices }
        ensures clocks { result.clocks ≡ clocks }
        ensures downstream { result.downstream ≡ downstream }
        ensures share { result.share ≡ share }
    {
        WorkerInputs {
            seats,
            devices,
            clocks,
            downstream,
            share,
        }
    }
}

impl<D, A, L, C: Drop, N: Ledger> WorkerInputs<D, A, L, C, N> {
    /// The seats, the devices and the share, where no worker was started.
    pub fn unused(self) -> (Seats, Devices<D, A, L>, Share<N>)
        ensures seats { result.0 ≡ self.seats }
        ensures devices { result.1 ≡ self.devices }
        ensures share { result.2 ≡ self.share }
    {
        let WorkerInputs {
            seats,
            devices,
            clocks: _,
            downstream: _,
            share,
        } = self;
        (seats, devices, share)
    }
}

/// Shows all readings the list of a provisioner.
pub(crate) fn teach_all<K: Sink, J: Naming, R: Wait>(
    rt: &R,
    provisioner: &Provisioner<K, J>,
    seats: &mut Seats,
)
    requires { AreSeated J.publisher seats.old.listening.first seats.old.listening.second
        seats.old.linking.first seats.old.linking.second
        seats.old.transferring.first seats.old.transferring.second }
    ensures seated { AreSeated J.publisher seats.new.listening.first seats.new.listening.second
        seats.new.linking.first seats.new.linking.second
        seats.new.transferring.first seats.new.transferring.second }
    ensures listening_one { IsPrefix provisioner.now.core.list seats.new.listening.first.list }
    ensures listening_two { IsPrefix provisioner.now.core.list seats.new.listening.second.list }
    ensures linking_one { IsPrefix provisioner.now.core.list seats.new.linking.first.list }
    ensures linking_two { IsPrefix provisioner.now.core.list seats.new.linking.second.list }
    ensures transferring_one { IsPrefix provisioner.now.core.list
        seats.new.transferring.first.list }
    ensures transferring_two { IsPrefix provisioner.now.core.list
        seats.new.transferring.second.list }
{
    teach(rt, provisioner, &mut seats.listening);
    teach(rt, provisioner, &mut seats.linking);
    teach(rt, provisioner, &mut seats.transferring);
}

/// Shows two readings the list of a provisioner.
fn teach<K: Sink, J: Naming, R: Wait>(
    rt: &R,
    provisioner: &Provisioner<K, J>,
    pair: &mut Pair<Reading>,
)
    requires first { IsSeated J.publisher pair.old.first }
    requires second { IsSeated J.publisher pair.old.second }
    ensures first { IsSeated J.publisher pair.new.first }
    ensures second { IsSeated J.publisher pair.new.second }
    ensures first_seen { IsPrefix provisioner.now.core.list pair.new.first.list }
    ensures second_seen { IsPrefix provisioner.now.core.list pair.new.second.list }
{
    pair.first.learn(rt, provisioner.tell());
    pair.second.learn(rt, provisioner.tell());
}

/// Runs a worker over each device, to its end.
pub(crate) fn run_workers<
    B: Jobs + Sync,
    D: Datagrams + Send,
    A: Acceptor + Send,
    L: Dialer + Send,
    C: Clock + Send + Drop,
    R: Threads + Wait + Sync,
>(
    rt: &R,
    alloc: Global,
    jobs: &B,
    inputs: WorkerInputs<D, A, L, C, B::Counted>,
) -> Workers<Listened<D, C>, Linked<A, C>, Transferred<L, B::Counted>>
where
    B::Witness: Send,
    B::Counted: Send,
    A::L: Send,
    L::L: Send,
    requires listening_one { IsSeated B.publisher inputs.seats.listening.first }
    requires listening_two { IsSeated B.publisher inputs.seats.listening.second }
    requires linking_one { IsSeated B.publisher inputs.seats.linking.first }
    requires linking_two { IsSeated B.publisher inputs.seats.linking.second }
    requires transferring_one { IsSeated B.publisher inputs.seats.transferring.first }
    requires transferring_two { IsSeated B.publisher inputs.seats.transferring.second }
    requires acceptor_one { A.out inputs.devices.acceptors.first ≡ None }
    requires acceptor_two { A.out inputs.devices.acceptors.second ≡ None }
    requires dialer_one { L.out inputs.devices.dialers.first ≡ None }
    requires dialer_two { L.out inputs.devices.dialers.second ≡ None }
    requires share { (inputs.share.parts ≡ 2) × (inputs.share.amount ≡ 0) }
    ensures listening_one { ShowsListening D.Datagrams C.Clock B.may_fail
        inputs.devices.datagrams.first inputs.seats.listening.first
        inputs.clocks.listening.first.clock result.datagrams.first }
    ensures listening_two { ShowsListening D.Datagrams C.Clock B.may_fail
        inputs.devices.datagrams.second inputs.seats.listening.second
        inputs.clocks.listening.second.clock result.datagrams.second }
    ensures linking_one { ShowsLinking A.Acceptor C.Clock B.may_fail inputs.downstream
        inputs.devices.acceptors.first inputs.seats.linking.first
        inputs.clocks.linking.first.clock result.links.first }
    ensures linking_two { ShowsLinking A.Acceptor C.Clock B.may_fail inputs.downstream
        inputs.devices.acceptors.second inputs.seats.linking.second
        inputs.clocks.linking.second.clock result.links.second }
    ensures transferring_one { ShowsTransferring L.Dialer C.Clock
        inputs.devices.dialers.first inputs.seats.transferring.first
        inputs.clocks.transferring.first 1 result.transfers.first }
    ensures transferring_two { ShowsTransferring L.Dialer C.Clock
        inputs.devices.dialers.second inputs.seats.transferring.second
        inputs.clocks.transferring.second 1 result.transfers.second }
{
    let works = works_of(inputs);
    run_together::<B, _, _, _, _, _, _, _, _, _, _>(
        rt,
        works,
        &|work: Listening<D, C>| -> Listened<D, C> { listen(rt, jobs, work) },
        &|work: Linking<A, C>| -> Linked<A, C>
            requires seated { IsSeated B.publisher work.reading }
            requires none { A.out (manually_drop_value work.acceptor) ≡ None }
        { link(rt, jobs, work) },
        &|work: Transferring<L, C, B::Counted>| -> Transferred<L, B::Counted>
            requires seated { IsSeated B.publisher work.reading }
            requires none { L.out (manually_drop_value work.dialer) ≡ None }
            requires share { (work.share.amount ≡ 0) × (0 < work.share.parts) }
        { transfer(rt, alloc, jobs, work) },
    )
}

/// What each worker works with.
fn works_of<D, A, L, C, N: Ledger>(
    inputs: WorkerInputs<D, A, L, C, N>,
) -> Workers<Listening<D, C>, Linking<A, C>, Transferring<L, C, N>>
    requires share { (inputs.share.parts ≡ 2) × (inputs.share.amount ≡ 0) }
    ensures listening_one { IsMadeOf inputs.seats.listening.first inputs.devices.datagrams.first
        inputs.clocks.listening.first.clock result.datagrams.first.reading
        (manually_drop_value result.datagrams.first.device) result.datagrams.first.clock }
    ensures listening_two { IsMadeOf inputs.seats.listening.second inputs.devices.datagrams.second
        inputs.clocks.listening.second.clock result.datagrams.second.reading
        (manually_drop_value result.datagrams.second.device) result.datagrams.second.clock }
    ensures linking_one { IsMadeOf inputs.seats.linking.first inputs.devices.acceptors.first
        inputs.clocks.linking.first.clock result.links.first.reading
        (manually_drop_value result.links.first.acceptor) result.links.first.clock }
    ensures downstream_one { result.links.first.downstream ≡ inputs.downstream }
    ensures linking_two { IsMadeOf inputs.seats.linking.second inputs.devices.acceptors.second
        inputs.clocks.linking.second.clock result.links.second.reading
        (manually_drop_value result.links.second.acceptor) result.links.second.clock }
    ensures downstream_two { result.links.second.downstream ≡ inputs.downstream }
    ensures transferring_one { IsMadeOf inputs.seats.transferring.first inputs.devices.dialers.first
        inputs.clocks.transferring.first result.transfers.first.reading
        (manually_drop_value result.transfers.first.dialer) result.transfers.first.clock }
    ensures transferring_two { IsMadeOf inputs.seats.transferring.second
        inputs.devices.dialers.second
        inputs.clocks.transferring.second result.transfers.second.reading
        (manually_drop_value result.transfers.second.dialer) result.transfers.second.clock }
    ensures share_one { (result.transfers.first.share.parts ≡ 1)
        × (result.transfers.first.share.amount ≡ 0) }
    ensures share_two { (result.transfers.second.share.parts ≡ 1)
        × (result.transfers.second.share.amount ≡ 0) }
{
    let WorkerInputs {
        seats,
        devices,
        clocks,
        downstream,
        share,
    } = inputs;
    let Devices {
        datagrams,
        acceptors,
        dialers,
    } = devices;
    Workers {
        datagrams: seat_listeners(seats.listening, datagrams, clocks.listening),
        links: seat_linkers(seats.linking, acceptors, clocks.linking, downstream),
        transfers: seat_transferrers(seats.transferring, dialers, clocks.transferring, share),
    }
}

/// Two datagram workers, each with a reading, a device, a clock and a buffer of its own.
fn seat_listeners<D, C>(
    seats: Pair<Reading>,
    devices: Pair<D>,
    clocks: Pair<ClockAndBuffer<C>>,
) -> Pair<Listening<D, C>>
    ensures first { IsMadeOf seats.first devices.first clocks.first.clock
        result.first.reading (manually_drop_value result.first.device) result.first.clock }
    ensures second { IsMadeOf seats.second devices.second clocks.second.clock
        result.second.reading (manually_drop_value result.second.device) result.second.clock }
{
    let Pair { first, second } = devices;
    Pair {
        first: Listening::new(seats.first, first, clocks.first),
        second: Listening::new(seats.second, second, clocks.second),
    }
}

/// Two link workers, each with a reading, an acceptor, a clock and a buffer of its own; both send zones to the same addresses.
fn seat_linkers<A, C>(
    seats: Pair<Reading>,
    acceptors: Pair<A>,
    clocks: Pair<ClockAndBuffer<C>>,
    downstream: Downstream,
) -> Pair<Linking<A, C>>
    ensures first { IsMadeOf seats.first acceptors.first clocks.first.clock
        result.first.reading (manually_drop_value result.first.acceptor) result.first.clock }
    ensures first_downstream { result.first.downstream ≡ downstream }
    ensures second { IsMadeOf seats.second acceptors.second clocks.second.clock
        result.second.reading (manually_drop_value result.second.acceptor) result.second.clock }
    ensures second_downstream { result.second.downstream ≡ downstream }
{
    let Pair { first, second } = acceptors;
    Pair {
        first: Linking::new(seats.first, first, clocks.first, downstream.copied()),
        second: Linking::new(seats.second, second, clocks.second, downstream),
    }
}

/// Two transfer workers, each with a reading, a dialer, a clock and one part of the ledger of its own.
fn seat_transferrers<L, C, N: Ledger>(
    seats: Pair<Reading>,
    dialers: Pair<L>,
    clocks: Pair<C>,
    share: Share<N>,
) -> Pair<Transferring<L, C, N>>
    requires share { (share.parts ≡ 2) × (share.amount ≡ 0) }
    ensures first { IsMadeOf seats.first dialers.first clocks.first
        result.first.reading (manually_drop_value result.first.dialer) result.first.clock }
    ensures first_share { (result.first.share.parts ≡ 1) × (result.first.share.amount ≡ 0) }
    ensures second { IsMadeOf seats.second dialers.second clocks.second
        result.second.reading (manually_drop_value result.second.dialer) result.second.clock }
    ensures second_share { (result.second.share.parts ≡ 1) × (result.second.share.amount ≡ 0) }
{
    let Pair { first, second } = dialers;
    let mut rest = share;
    let part = rest.split_off(1, 0);
    Pair {
        first: Transferring::new(seats.first, first, clocks.first, part),
        second: Transferring::new(seats.second, second, clocks.second, rest),
    }
}

/// Takes the provisioner out of its lock, and compares its list with what each worker has seen, until it has all of it.
pub(crate) fn end_workers<K: Sink, J: Naming, D, A, L, C, R: Wait>(
    rt: &R,
    shared: Shared<K, J>,
    ended: &Workers<Listened<D, C>, Linked<A, C>, Transferred<L, J>>,
) -> Parts<K, J>
    requires listening_one { ended.now.datagrams.first.reading.book ≡ J.publisher }
    requires listening_two { ended.now.datagrams.second.reading.book ≡ J.publisher }
    requires linking_one { ended.now.links.first.reading.book ≡ J.publisher }
    requires linking_two { ended.now.links.second.reading.book ≡ J.publisher }
    requires transferring_one { ended.now.transfers.first.reading.book ≡ J.publisher }
    requires transferring_two { ended.now.transfers.second.reading.book ≡ J.publisher }
    ensures publisher { (result.publisher.staged ≡ None) × (result.publisher.book ≡ J.publisher) }
    ensures legal { IsLegal result.publisher.list }
    ensures logged { IsLogged result.publisher.list result.starved.total (K.held result.output)
        result.log_failed }
    ensures cause { MatchBool result.log_failed (HasRisen 0 (K.faults result.output))
        (K.faults result.output ≡ 0) }
    ensures listening_one { IsPrefix ended.now.datagrams.first.reading.list result.publisher.list }
    ensures listening_two { IsPrefix ended.now.datagrams.second.reading.list result.publisher.list }
    ensures linking_one { IsPrefix ended.now.links.first.reading.list result.publisher.list }
    ensures linking_two { IsPrefix ended.now.links.second.reading.list result.publisher.list }
    ensures transferring_one { IsPrefix ended.now.transfers.first.reading.list
        result.publisher.list }
    ensures transferring_two { IsPrefix ended.now.transfers.second.reading.list
        result.publisher.list }
{
    let parts = shared.close().close();
    see_within(rt, &parts.publisher, &ended.datagrams.first.reading);
    see_within(rt, &parts.publisher, &ended.datagrams.second.reading);
    see_within(rt, &parts.publisher, &ended.links.first.reading);
    see_within(rt, &parts.publisher, &ended.links.second.reading);
    see_within(rt, &parts.publisher, &ended.transfers.first.reading);
    see_within(rt, &parts.publisher, &ended.transfers.second.reading);
    parts
}

/// Compares what a reading has seen with the published list, until that has all of it.
fn see_within<R: Wait>(rt: &R, publisher: &Publisher, reading: &Reading)
    requires { publisher.now.book ≡ reading.now.book }
    ensures within { IsPrefix reading.now.list publisher.now.list }
    ensures legal { IsLegal publisher.now.list }
{
    'notes: for _ in rt.forever() {
        if reading.is_within(&publisher.tell()) {
            return;
        }
    }
    unreachable!()
}
