//! A server, from its devices' opening to their end.

ghost use Rattle.std.specs.Prelude.{◌≡◌, ◌≢◌, ◌≤◌, ◌<◌, ◌+◌, ◌-◌, [], ◌∷◌, ◌++◌, length, vec_len, vec_capacity};
ghost use Rattle.std.specs.Prelude.{ℕ, is_none, is_some, None, Some, true, List, slice_get, IfSome, MatchBool, All};
ghost use Rattle.std.specs.Mem.{manually_drop_value};
ghost use mathlib.Core.List.{IsPrefix};
ghost use Rattle.dz_io.specs.Counts.{HasRisen};
ghost use Rattle.dz_io.specs.Ports.{exchange, accepts, dials, IsFreshExchange, IsFreshAccepts, IsFreshDials};
ghost use Rattle.dz_settings.specs.Config.{IsAllowed};
ghost use Rattle.dz_settings.specs.declared.config.CatalogSettings.{CatalogSettings};
ghost use Rattle.dz_desk.specs.Seen.{IsAtRest};
ghost use Rattle.dz_history.specs.Legal.{IsLegal};
ghost use Rattle.dz_history.specs.declared.entry.Entry.TheVariants.{Setup};
ghost use Rattle.dz_provision.specs.Log.{IsLogged};
ghost use Rattle.dz_serve.specs.Ends.{is_write_fault};
ghost use Rattle.dz_serve.specs.Rows.{Rows, AreUnused, both_at, both_back, both_made, rows};
ghost use Rattle.dz_serve.specs.Runs.{IsRun, HasRunLogged, IsListOf};
ghost use Rattle.dz_serve.specs.Workers.{IsSeated, AreSeated, AreBack};

use crate::begin::begin;
use crate::clocks::make_clocks;
use crate::close::{close_acceptors, close_datagrams, close_dialers};
use crate::devices::{Devices, open_devices};
use crate::pair::Pair;
use crate::sending::publishers_may_be_sent;
use crate::status::{ServeEnd, judge};
use crate::tcp_worker::Linked;
use crate::together::Workers;
use crate::transfer_worker::Transferred;
use crate::udp_worker::Listened;
use crate::workers::{Seats, WorkerInputs, end_workers, run_workers, teach_all};
use dz_config::Downstream;
use dz_desk::{Desk, Reading};
use dz_disk::Disk;
use dz_io::{Clock, Peer, Ports, Sink};
use dz_provision::{Keeping, Naming, Parts, Provisioner, Shared, Unstarted};
use dz_settings::Config;
use dz_store::Store;
use std::alloc::Global;
use std::mem::ManuallyDrop;
use std::sync::ledger::{Blank, Ledger, Share};
use std::sync::{Mutex, Wait};
use std::thread::Threads;

/// Where a server listens, what it serves, and the addresses to which it sends zones.
#[derive(Drop)]
pub struct ServerConfig {
    pub listen: Peer,
    pub config: Config,
    pub downstream: Downstream,
}

/// How serving ended, with the output and the desk.
pub struct Served<K> {
    pub end: ServeEnd,
    pub output: K,
    pub desk: Desk,
}

/// Opens two datagram devices, two acceptors and two dialers, serves each by a worker in a thread of its own, and gives
/// the devices back. What is taken is published at the desk, whose list is empty and which has six readings. The log is
/// written to the output, to which nothing was written; its lines of want of memory are counted in the ledger. Where there
/// is a disk, zones are kept on it: those that are kept are given back before a worker starts.
pub fn serve<
    K: Sink + Send,
    J: Naming + Send + Sync,
    P: Ports,
    C: Clock + Send + Drop,
    D: Disk + Send + Drop,
    R: Threads + Wait + Sync,
>(
    rt: &R,
    alloc: Global,
    server: ServerConfig,
    output: K,
    desk: Desk,
    ports: &mut P,
    clock: &C,
    disk: Option<&mut D>,
    ledger: Blank,
) -> Served<K>
    requires config { IsAllowed server.config }
    requires written { IfSome (K.held output) (λ text. text ≡ []) }
    requires faultless { K.faults output ≡ 0 }
    requires publisher { (desk.publisher.list ≡ []) × (desk.publisher.staged ≡ None)
        × (desk.publisher.book ≡ J.publisher) }
    requires readings { All (IsAtRest J.publisher) desk.readings.items }
    requires six { length desk.readings.items ≡ 6 }
    requires name { ledger.name ≡ J.name }
    requires parts { (ledger.parts ≡ J.parts) × (ledger.parts ≡ 2) }
    ensures publisher { (result.desk.publisher.staged ≡ None)
        × (result.desk.publisher.book ≡ desk.publisher.book) }
    ensures back { AreBack J.publisher result.desk.readings.items }
    ensures served { result.desk.publisher.list ≢ []
        → IsListOf server.config result.desk.publisher.list
        × HasRunLogged (is_some disk.entry) result.end server.downstream
        ((k : K) × HasRisen 0 (K.faults k)) (C.may_give clock.now) (K.held result.output)
        result.desk.publisher.list server.listen
        (rows (P.datagrams ports.old) (P.acceptors ports.old) (P.dialers ports.old))
        (rows (P.datagrams ports.new) (P.acceptors ports.new) (P.dialers ports.new)) }
    ensures unserved { result.desk.publisher.list ≡ [] → (result.output ≡ output)
        × AreUnused (rows (P.datagrams ports.old) (P.acceptors ports.old) (P.dialers ports.old))
        (rows (P.datagrams ports.new) (P.acceptors ports.new) (P.dialers ports.new)) }
    ensures input { (result.end ≢ ServeEnd.BadInput) × (result.end ≢ ServeEnd.ReadFault) }
    ensures done { result.end ≡ ServeEnd.Done →
        (result.desk.publisher.list ≢ []) × (C.may_stop clock.now ≡ true) }
    ensures write { MatchBool (is_write_fault result.end) (HasRisen 0 (K.faults result.output))
        (K.faults result.output ≡ 0) }
    ensures port { result.end ≡ ServeEnd.PortFault
        → HasRisen (P.faults ports.old) (P.faults ports.new) }
    ensures later { P.faults ports.old ≤ P.faults ports.new }
{
    let Ok(clocks) = make_clocks(alloc, clock) else {
        return unserved(ServeEnd::NoMemory, output, desk);
    };
    let Ok(devices) = open_devices(ports, &server.listen) else {
        return unserved(ServeEnd::PortFault, output, desk);
    };
    let Desk {
        publisher,
        readings,
    } = desk;
    let (book, share) = ledger.open::<J>();
    match Provisioner::start(rt, alloc, server.config, publisher, output, book) {
        Err(unstarted) => not_started(ports, devices, unstarted, readings),
        Ok(begun) => {
            let (seats, readings) = seat_all::<J>(readings);
            let inputs = WorkerInputs::new(seats, devices, clocks, server.downstream, share);
            begin_over(rt, alloc, begun, inputs, readings, ports, clock, disk)
        }
    }
}

/// Gives the zones of a provisioner that has begun back what a disk keeps, where there is one, and runs all workers over it.
fn begin_over<
    K: Sink + Send,
    J: Naming + Send + Sync,
    P: Ports,
    C: Clock + Send + Drop,
    D: Disk + Send + Drop,
    R: Threads + Wait + Sync,
>(
    rt: &R,
    alloc: Global,
    provisioner: Provisioner<K, J>,
    inputs: WorkerInputs<P::D, P::A, P::L, C, J>,
    readings: Vec<Reading>,
    ports: &mut P,
    clock: &C,
    disk: Option<&mut D>,
) -> Served<K>
    requires seated { AreSeated J.publisher
        inputs.seats.listening.first inputs.seats.listening.second
        inputs.seats.linking.first inputs.seats.linking.second
        inputs.seats.transferring.first inputs.seats.transferring.second }
    requires empty { length readings.items ≡ 0 }
    requires room { 6 ≤ vec_capacity readings }
    requires out { (2 ≤ (P.datagrams ports.old).out) × (2 ≤ (P.acceptors ports.old).out)
        × (2 ≤ (P.dialers ports.old).out) }
    requires datagrams_one { IsFreshExchange
        (exchange (P.D.received inputs.devices.datagrams.first)
        (P.D.sent inputs.devices.datagrams.first)
        (P.D.is_closed inputs.devices.datagrams.first)
        (P.D.faults inputs.devices.datagrams.first)) }
    requires datagrams_two { IsFreshExchange
        (exchange (P.D.received inputs.devices.datagrams.second)
        (P.D.sent inputs.devices.datagrams.second)
        (P.D.is_closed inputs.devices.datagrams.second)
        (P.D.faults inputs.devices.datagrams.second)) }
    requires acceptors_one { IsFreshAccepts
        (accepts (P.A.links inputs.devices.acceptors.first)
        (P.A.out inputs.devices.acceptors.first)
        (P.A.is_closed inputs.devices.acceptors.first)
        (P.A.faults inputs.devices.acceptors.first)) }
    requires acceptors_two { IsFreshAccepts
        (accepts (P.A.links inputs.devices.acceptors.second)
        (P.A.out inputs.devices.acceptors.second)
        (P.A.is_closed inputs.devices.acceptors.second)
        (P.A.faults inputs.devices.acceptors.second)) }
    requires dialers_one { IsFreshDials
        (dials (P.L.links inputs.devices.dialers.first) (P.L.out inputs.devices.dialers.first)
        (P.L.faults inputs.devices.dialers.first)) }
    requires dialers_two { IsFreshDials
        (dials (P.L.links inputs.devices.dialers.second) (P.L.out inputs.devices.dialers.second)
        (P.L.faults inputs.devices.dialers.second)) }
    requires listening_one { C.may_give inputs.clocks.listening.first.clock
        ≡ C.may_give clock.now }
    requires listening_two { C.may_give inputs.clocks.listening.second.clock
        ≡ C.may_give clock.now }
    requires linking_one { C.may_give inputs.clocks.linking.first.clock ≡ C.may_give clock.now }
    requires linking_two { C.may_give inputs.clocks.linking.second.clock ≡ C.may_give clock.now }
    requires transferring_one { C.may_stop inputs.clocks.transferring.first
        ≡ C.may_stop clock.now }
    requires transferring_two { C.may_stop inputs.clocks.transferring.second
        ≡ C.may_stop clock.now }
    requires gives_one { C.may_give inputs.clocks.transferring.first ≡ C.may_give clock.now }
    requires gives_two { C.may_give inputs.clocks.transferring.second ≡ C.may_give clock.now }
    requires share { (inputs.share.parts ≡ J.parts) × (inputs.share.parts ≡ 2)
        × (inputs.share.amount ≡ 0) }
    ensures publisher { (result.desk.publisher.staged ≡ None)
        × (result.desk.publisher.book ≡ J.publisher) }
    ensures back { AreBack J.publisher result.desk.readings.items }
    ensures begun { (config : List CatalogSettings)
        → slice_get provisioner.core.list 0 ≡ Some (Setup config)
        → IsListOf config result.desk.publisher.list }
    ensures served { (config : List CatalogSettings) (listen : Peer) (before : Rows)
        → slice_get provisioner.core.list 0 ≡ Some (Setup config)
        → P.datagrams ports.old ≡ both_at listen before.datagrams
        → P.acceptors ports.old ≡ both_at listen before.acceptors
        → P.dialers ports.old ≡ both_made before.dialers
        → HasRunLogged (is_some disk.entry) result.end inputs.downstream
        ((k : K) × HasRisen 0 (K.faults k)) (C.may_give clock.now) (K.held result.output)
        result.desk.publisher.list listen before
        (rows (P.datagrams ports.new) (P.acceptors ports.new) (P.dialers ports.new)) }
    ensures input { (result.end ≢ ServeEnd.BadInput) × (result.end ≢ ServeEnd.ReadFault) }
    ensures done { result.end ≡ ServeEnd.Done → C.may_stop clock.now ≡ true }
    ensures write { MatchBool (is_write_fault result.end) (HasRisen 0 (K.faults result.output))
        (K.faults result.output ≡ 0) }
    ensures port { result.end ≡ ServeEnd.PortFault
        → HasRisen (P.faults ports.old) (P.faults ports.new) }
    ensures later { P.faults ports.old ≤ P.faults ports.new }
{
    let mut provisioner = provisioner;
    let mut inputs = inputs;
    let reading = &mut inputs.seats.transferring.first;
    match begin(rt, alloc, &mut provisioner, reading, disk) {
        Err(end) => {
            let (seats, devices, share) = inputs.unused();
            close_devices(ports, devices);
            halted(end, provisioner, seats, readings, share)
        }
        Ok(store) => serve_over(
            rt,
            alloc,
            provisioner,
            store,
            inputs,
            readings,
            ports,
            clock,
        ),
    }
}

/// Memory ran out before the list began. All devices are given back.
fn not_started<K, P: Ports>(
    ports: &mut P,
    devices: Devices<P::D, P::A, P::L>,
    unstarted: Unstarted<K>,
    readings: Vec<Reading>,
) -> Served<K>
    requires out { (2 ≤ (P.datagrams ports.old).out) × (2 ≤ (P.acceptors ports.old).out)
        × (2 ≤ (P.dialers ports.old).out) }
    ensures end { result.end ≡ ServeEnd.NoMemory }
    ensures output { result.output ≡ unstarted.output }
    ensures publisher { result.desk.publisher ≡ unstarted.publisher }
    ensures readings { result.desk.readings ≡ readings }
    ensures datagrams { P.datagrams ports.new ≡ both_back
        (exchange (P.D.received devices.datagrams.first) (P.D.sent devices.datagrams.first)
        (P.D.is_closed devices.datagrams.first) (P.D.faults devices.datagrams.first))
        (exchange (P.D.received devices.datagrams.second) (P.D.sent devices.datagrams.second)
        (P.D.is_closed devices.datagrams.second) (P.D.faults devices.datagrams.second))
        (P.datagrams ports.old) }
    ensures acceptors { P.acceptors ports.new ≡ both_back
        (accepts (P.A.links devices.acceptors.first) (P.A.out devices.acceptors.first)
        (P.A.is_closed devices.acceptors.first) (P.A.faults devices.acceptors.first))
        (accepts (P.A.links devices.acceptors.second) (P.A.out devices.acceptors.second)
        (P.A.is_closed devices.acceptors.second) (P.A.faults devices.acceptors.second))
        (P.acceptors ports.old) }
    ensures dialers { P.dialers ports.new ≡ both_back
        (dials (P.L.links devices.dialers.first) (P.L.out devices.dialers.first)
        (P.L.faults devices.dialers.first))
        (dials (P.L.links devices.dialers.second) (P.L.out devices.dialers.second)
        (P.L.faults devices.dialers.second))
        (P.dialers ports.old) }
    ensures later { P.faults ports.old ≤ P.faults ports.new }
{
    close_devices(ports, devices);
    let Unstarted { publisher, output } = unstarted;
    let desk = Desk {
        publisher,
        readings,
    };
    unserved(ServeEnd::NoMemory, output, desk)
}

/// The list has begun, and no worker was started. The share is all of the ledger.
fn halted<K: Sink, J: Naming>(
    end: ServeEnd,
    provisioner: Provisioner<K, J>,
    seats: Seats,
    readings: Vec<Reading>,
    share: Share<J>,
) -> Served<K>
    requires write { is_write_fault end ≡ provisioner.failed }
    requires share { share.parts ≡ J.parts }
    requires seated { AreSeated J.publisher seats.listening.first seats.listening.second
        seats.linking.first seats.linking.second
        seats.transferring.first seats.transferring.second }
    requires empty { length readings.items ≡ 0 }
    requires room { 6 ≤ vec_capacity readings }
    ensures end { result.end ≡ end }
    ensures back { AreBack J.publisher result.desk.readings.items }
    ensures publisher { (result.desk.publisher.staged ≡ None)
        × (result.desk.publisher.book ≡ J.publisher) }
    ensures list { result.desk.publisher.list ≡ provisioner.core.list }
    ensures logged { IsLogged result.desk.publisher.list share.amount (K.held result.output)
        (is_write_fault end) }
    ensures write { MatchBool (is_write_fault end) (HasRisen 0 (K.faults result.output))
        (K.faults result.output ≡ 0) }
{
    let parts = provisioner.close();
    closed(end, parts, unseated(seats, readings), share)
}

/// What is left of a provisioner and of the readings. The share is all of the ledger, and so has counted each line of want
/// of memory in the log.
fn closed<K: Sink, J: Naming>(
    end: ServeEnd,
    parts: Parts<K, J>,
    readings: Vec<Reading>,
    share: Share<J>,
) -> Served<K>
    requires logged { IsLogged parts.publisher.list parts.starved.total (K.held parts.output)
        (is_write_fault end) }
    requires share { share.parts ≡ J.parts }
    ensures end { result.end ≡ end }
    ensures output { result.output ≡ parts.output }
    ensures publisher { result.desk.publisher ≡ parts.publisher }
    ensures readings { result.desk.readings ≡ readings }
    ensures logged { IsLogged result.desk.publisher.list share.amount (K.held result.output)
        (is_write_fault end) }
{
    let mut share = share;
    let Parts {
        fleet: _,
        publisher,
        output,
        log_failed: _,
        mut starved,
    } = parts;
    starved.audit(&mut share);
    let desk = Desk {
        publisher,
        readings,
    };
    Served { end, output, desk }
}

/// No worker was started.
pub(crate) fn unserved<K>(end: ServeEnd, output: K, desk: Desk) -> Served<K>
    ensures end { result.end ≡ end }
    ensures output { result.output ≡ output }
    ensures desk { result.desk ≡ desk }
{
    Served { end, output, desk }
}

/// Runs all workers over a provisioner that has begun, and gives the devices back. What is taken is kept in the store, where
/// there is one. The readings go where there is room for them.
fn serve_over<
    K: Sink + Send,
    J: Naming + Send + Sync,
    P: Ports,
    C: Clock + Send + Drop,
    D: Disk + Send + Drop,
    R: Threads + Wait + Sync,
>(
    rt: &R,
    alloc: Global,
    provisioner: Provisioner<K, J>,
    store: Option<Store<D>>,
    inputs: WorkerInputs<P::D, P::A, P::L, C, J>,
    readings: Vec<Reading>,
    ports: &mut P,
    clock: &C,
) -> Served<K>
    requires seated { AreSeated J.publisher
        inputs.seats.listening.first inputs.seats.listening.second
        inputs.seats.linking.first inputs.seats.linking.second
        inputs.seats.transferring.first inputs.seats.transferring.second }
    requires empty { length readings.items ≡ 0 }
    requires room { 6 ≤ vec_capacity readings }
    requires out { (2 ≤ (P.datagrams ports.old).out) × (2 ≤ (P.acceptors ports.old).out)
        × (2 ≤ (P.dialers ports.old).out) }
    requires datagrams_one { IsFreshExchange
        (exchange (P.D.received inputs.devices.datagrams.first)
        (P.D.sent inputs.devices.datagrams.first)
        (P.D.is_closed inputs.devices.datagrams.first)
        (P.D.faults inputs.devices.datagrams.first)) }
    requires datagrams_two { IsFreshExchange
        (exchange (P.D.received inputs.devices.datagrams.second)
        (P.D.sent inputs.devices.datagrams.second)
        (P.D.is_closed inputs.devices.datagrams.second)
        (P.D.faults inputs.devices.datagrams.second)) }
    requires acceptors_one { IsFreshAccepts
        (accepts (P.A.links inputs.devices.acceptors.first)
        (P.A.out inputs.devices.acceptors.first)
        (P.A.is_closed inputs.devices.acceptors.first)
        (P.A.faults inputs.devices.acceptors.first)) }
    requires acceptors_two { IsFreshAccepts
        (accepts (P.A.links inputs.devices.acceptors.second)
        (P.A.out inputs.devices.acceptors.second)
        (P.A.is_closed inputs.devices.acceptors.second)
        (P.A.faults inputs.devices.acceptors.second)) }
    requires dialers_one { IsFreshDials
        (dials (P.L.links inputs.devices.dialers.first) (P.L.out inputs.devices.dialers.first)
        (P.L.faults inputs.devices.dialers.first)) }
    requires dialers_two { IsFreshDials
        (dials (P.L.links inputs.devices.dialers.second) (P.L.out inputs.devices.dialers.second)
        (P.L.faults inputs.devices.dialers.second)) }
    requires listening_one { C.may_give inputs.clocks.listening.first.clock
        ≡ C.may_give clock.now }
    requires listening_two { C.may_give inputs.clocks.listening.second.clock
        ≡ C.may_give clock.now }
    requires linking_one { C.may_give inputs.clocks.linking.first.clock ≡ C.may_give clock.now }
    requires linking_two { C.may_give inputs.clocks.linking.second.clock ≡ C.may_give clock.now }
    requires transferring_one { C.may_stop inputs.clocks.transferring.first
        ≡ C.may_stop clock.now }
    requires transferring_two { C.may_stop inputs.clocks.transferring.second
        ≡ C.may_stop clock.now }
    requires gives_one { C.may_give inputs.clocks.transferring.first ≡ C.may_give clock.now }
    requires gives_two { C.may_give inputs.clocks.transferring.second ≡ C.may_give clock.now }
    requires share { (inputs.share.parts ≡ J.parts) × (inputs.share.parts ≡ 2)
        × (inputs.share.amount ≡ 0) }
    ensures publisher { (result.desk.publisher.staged ≡ None)
        × (result.desk.publisher.book ≡ J.publisher) }
    ensures back { AreBack J.publisher result.desk.readings.items }
    ensures begins { IsPrefix provisioner.core.list result.desk.publisher.list }
    ensures legal { IsLegal result.desk.publisher.list }
    ensures served { 0 < length provisioner.core.list → (lines : ℕ)
        × IsRun (is_none store) result.end inputs.downstream ((k : K) × HasRisen 0 (K.faults k))
        (C.may_give clock.now) lines result.desk.publisher.list
        (rows (P.datagrams ports.old) (P.acceptors ports.old) (P.dialers ports.old))
        (rows (P.datagrams ports.new) (P.acceptors ports.new) (P.dialers ports.new))
        × IsLogged result.desk.publisher.list lines (K.held result.output)
        (is_write_fault result.end) }
    ensures input { (result.end ≢ ServeEnd.BadInput) × (result.end ≢ ServeEnd.ReadFault) }
    ensures done { result.end ≡ ServeEnd.Done → C.may_stop clock.now ≡ true }
    ensures write { MatchBool (is_write_fault result.end) (HasRisen 0 (K.faults result.output))
        (K.faults result.output ≡ 0) }
    ensures port { result.end ≡ ServeEnd.PortFault
        → HasRisen (P.faults ports.old) (P.faults ports.new) }
    ensures later { P.faults ports.old ≤ P.faults ports.new }
{
    let mut inputs = inputs;
    let must_dial = store.is_none();
    teach_all(rt, &provisioner, &mut inputs.seats);
    // what the lock guards may be shared
    publishers_may_be_sent();
    let shared = Shared::over(provisioner);
    let store = store.map(|store| Mutex::new(store));
    let ended = run_workers(rt, alloc, &Keeping::over(&shared, store.as_ref()), inputs);
    let parts = end_workers(rt, shared, &ended);
    let end = judge(parts.log_failed, &ended, must_dial);
    let (readings, share) = give_back(ports, ended, readings);
    closed(end, parts, readings, share)
}

/// Gives all devices of workers back, and puts their readings and their shares together.
fn give_back<P: Ports, C: Drop, N: Ledger>(
    ports: &mut P,
    ended: Workers<Listened<P::D, C>, Linked<P::A, C>, Transferred<P::L, N>>,
    readings: Vec<Reading>,
) -> (Vec<Reading>, Share<N>)
    requires out { (2 ≤ (P.datagrams ports.old).out) × (2 ≤ (P.acceptors ports.old).out)
        × (2 ≤ (P.dialers ports.old).out) }
    requires empty { length readings.items ≡ 0 }
    requires room { 6 ≤ vec_capacity readings }
    ensures readings { result.0.items ≡ ended.datagrams.first.reading
        ∷ ended.datagrams.second.reading ∷ ended.links.first.reading ∷ ended.links.second.reading
        ∷ ended.transfers.first.reading ∷ ended.transfers.second.reading ∷ [] }
    ensures parts { result.1.parts
        ≡ ended.transfers.first.share.parts + ended.transfers.second.share.parts }
    ensures amount { result.1.amount
        ≡ ended.transfers.first.share.amount + ended.transfers.second.share.amount }
    ensures datagrams { P.datagrams ports.new ≡ both_back
        (exchange (P.D.received (manually_drop_value ended.datagrams.first.device))
        (P.D.sent (manually_drop_value ended.datagrams.first.device))
        (P.D.is_closed (manually_drop_value ended.datagrams.first.device))
        (P.D.faults (manually_drop_value ended.datagrams.first.device)))
        (exchange (P.D.received (manually_drop_value ended.datagrams.second.device))
        (P.D.sent (manually_drop_value ended.datagrams.second.device))
        (P.D.is_closed (manually_drop_value ended.datagrams.second.device))
        (P.D.faults (manually_drop_value ended.datagrams.second.device)))
        (P.datagrams ports.old) }
    ensures acceptors { P.acceptors ports.new ≡ both_back
        (accepts (P.A.links (manually_drop_value ended.links.first.acceptor))
        (P.A.out (manually_drop_value ended.links.first.acceptor))
        (P.A.is_closed (manually_drop_value ended.links.first.acceptor))
        (P.A.faults (manually_drop_value ended.links.first.acceptor)))
        (accepts (P.A.links (manually_drop_value ended.links.second.acceptor))
        (P.A.out (manually_drop_value ended.links.second.acceptor))
        (P.A.is_closed (manually_drop_value ended.links.second.acceptor))
        (P.A.faults (manually_drop_value ended.links.second.acceptor)))
        (P.acceptors ports.old) }
    ensures dialers { P.dialers ports.new ≡ both_back
        (dials (P.L.links (manually_drop_value ended.transfers.first.dialer))
        (P.L.out (manually_drop_value ended.transfers.first.dialer))
        (P.L.faults (manually_drop_value ended.transfers.first.dialer)))
        (dials (P.L.links (manually_drop_value ended.transfers.second.dialer))
        (P.L.out (manually_drop_value ended.transfers.second.dialer))
        (P.L.faults (manually_drop_value ended.transfers.second.dialer)))
        (P.dialers ports.old) }
    ensures later { P.faults ports.old ≤ P.faults ports.new }
    ensures datagram_one { HasRisen 0
        (P.D.faults (manually_drop_value ended.datagrams.first.device))
        → HasRisen (P.faults ports.old) (P.faults ports.new) }
    ensures datagram_two { HasRisen 0
        (P.D.faults (manually_drop_value ended.datagrams.second.device))
        → HasRisen (P.faults ports.old) (P.faults ports.new) }
    ensures acceptor_one { HasRisen 0 (P.A.faults (manually_drop_value ended.links.first.acceptor))
        → HasRisen (P.faults ports.old) (P.faults ports.new) }
    ensures acceptor_two { HasRisen 0 (P.A.faults (manually_drop_value ended.links.second.acceptor))
        → HasRisen (P.faults ports.old) (P.faults ports.new) }
{
    let Workers {
        datagrams,
        links,
        transfers,
    } = ended;
    let (datagrams, listening) = part_listened(datagrams);
    let (acceptors, linking) = part_linked(links);
    let (dialers, transferring, share) = part_transferred(transfers);
    close_datagrams(ports, datagrams);
    close_acceptors(ports, acceptors);
    close_dialers(ports, dialers);
    let seats = Seats {
        listening,
        linking,
        transferring,
    };
    (unseated(seats, readings), share)
}

/// A seat for each worker, and what is left of the readings.
fn seat_all<J: Naming>(readings: Vec<Reading>) -> (Seats, Vec<Reading>)
    requires rest { All (IsAtRest J.publisher) readings.items }
    requires six { length readings.items ≡ 6 }
    ensures seated { AreSeated J.publisher result.0.listening.first result.0.listening.second
        result.0.linking.first result.0.linking.second
        result.0.transferring.first result.0.transferring.second }
    ensures empty { length result.1.items ≡ 0 }
    ensures room { 6 ≤ vec_capacity result.1 }
{
    let mut readings = readings;
    let seats = Seats {
        listening: take_pair::<J>(&mut readings),
        linking: take_pair::<J>(&mut readings),
        transferring: take_pair::<J>(&mut readings),
    };
    (seats, readings)
}

/// The readings of all seats.
fn unseated(seats: Seats, readings: Vec<Reading>) -> Vec<Reading>
    requires empty { length readings.items ≡ 0 }
    requires room { 6 ≤ vec_capacity readings }
    ensures { result.items ≡ seats.listening.first ∷ seats.listening.second
        ∷ seats.linking.first ∷ seats.linking.second
        ∷ seats.transferring.first ∷ seats.transferring.second ∷ [] }
{
    let mut readings = readings;
    let Seats {
        listening,
        linking,
        transferring,
    } = seats;
    give_both(&mut readings, listening);
    give_both(&mut readings, linking);
    give_both(&mut readings, transferring);
    readings
}

/// Puts two readings after the others, where there is room for them.
fn give_both(readings: &mut Vec<Reading>, pair: Pair<Reading>)
    requires { vec_len readings.old + 2 ≤ vec_capacity readings.old }
    ensures items { readings.new.items ≡ readings.old.items ++ pair.first ∷ pair.second ∷ [] }
    ensures count { vec_len readings.new ≡ vec_len readings.old + 2 }
    ensures room { vec_capacity readings.new ≡ vec_capacity readings.old }
{
    let Pair { first, second } = pair;
    readings.push_reserved(first);
    readings.push_reserved(second);
}

/// The last two readings.
fn take_pair<J: Naming>(readings: &mut Vec<Reading>) -> Pair<Reading>
    requires rest { All (IsAtRest J.publisher) readings.old.items }
    requires two { 2 ≤ length readings.old.items }
    ensures first { IsSeated J.publisher result.first }
    ensures second { IsSeated J.publisher result.second }
    ensures rest { All (IsAtRest J.publisher) readings.new.items }
    ensures count { length readings.new.items ≡ length readings.old.items - 2 }
    ensures room { vec_capacity readings.new ≡ vec_capacity readings.old }
{
    let Some(first) = readings.pop() else {
        unreachable!()
    };
    let Some(second) = readings.pop() else {
        unreachable!()
    };
    Pair { first, second }
}

/// The devices of datagram workers, and their readings.
fn part_listened<D, C: Drop>(pair: Pair<Listened<D, C>>) -> (Pair<D>, Pair<Reading>)
    ensures first { result.0.first ≡ manually_drop_value pair.first.device }
    ensures second { result.0.second ≡ manually_drop_value pair.second.device }
    ensures readings { (result.1.first ≡ pair.first.reading)
        × (result.1.second ≡ pair.second.reading) }
{
    let Pair { first, second } = pair;
    let devices = Pair {
        first: ManuallyDrop::into_inner(first.device),
        second: ManuallyDrop::into_inner(second.device),
    };
    let readings = Pair {
        first: first.reading,
        second: second.reading,
    };
    (devices, readings)
}

/// The same of link workers.
fn part_linked<A, C: Drop>(pair: Pair<Linked<A, C>>) -> (Pair<A>, Pair<Reading>)
    ensures first { result.0.first ≡ manually_drop_value pair.first.acceptor }
    ensures second { result.0.second ≡ manually_drop_value pair.second.acceptor }
    ensures readings { (result.1.first ≡ pair.first.reading)
        × (result.1.second ≡ pair.second.reading) }
{
    let Pair { first, second } = pair;
    let acceptors = Pair {
        first: ManuallyDrop::into_inner(first.acceptor),
        second: ManuallyDrop::into_inner(second.acceptor),
    };
    let readings = Pair {
        first: first.reading,
        second: second.reading,
    };
    (acceptors, readings)
}

/// The same of transfer workers, and their shares as one.
fn part_transferred<L, N: Ledger>(
    pair: Pair<Transferred<L, N>>,
) -> (Pair<L>, Pair<Reading>, Share<N>)
    ensures first { result.0.first ≡ manually_drop_value pair.first.dialer }
    ensures second { result.0.second ≡ manually_drop_value pair.second.dialer }
    ensures readings { (result.1.first ≡ pair.first.reading)
        × (result.1.second ≡ pair.second.reading) }
    ensures parts { result.2.parts ≡ pair.first.share.parts + pair.second.share.parts }
    ensures amount { result.2.amount ≡ pair.first.share.amount + pair.second.share.amount }
{
    let Pair { first, second } = pair;
    let dialers = Pair {
        first: ManuallyDrop::into_inner(first.dialer),
        second: ManuallyDrop::into_inner(second.dialer),
    };
    let readings = Pair {
        first: first.reading,
        second: second.reading,
    };
    let mut share = first.share;
    share.merge(second.share);
    (dialers, readings, share)
}

/// Gives all devices back.
fn close_devices<P: Ports>(ports: &mut P, devices: Devices<P::D, P::A, P::L>)
    requires out { (2 ≤ (P.datagrams ports.old).out) × (2 ≤ (P.acceptors ports.old).out)
        × (2 ≤ (P.dialers ports.old).out) }
    ensures datagrams { P.datagrams ports.new ≡ both_back
        (exchange (P.D.received devices.datagrams.first) (P.D.sent devices.datagrams.first)
        (P.D.is_closed devices.datagrams.first) (P.D.faults devices.datagrams.first))
        (exchange (P.D.received devices.datagrams.second) (P.D.sent devices.datagrams.second)
        (P.D.is_closed devices.datagrams.second) (P.D.faults devices.datagrams.second))
        (P.datagrams ports.old) }
    ensures acceptors { P.acceptors ports.new ≡ both_back
        (accepts (P.A.links devices.acceptors.first) (P.A.out devices.acceptors.first)
        (P.A.is_closed devices.acceptors.first) (P.A.faults devices.acceptors.first))
        (accepts (P.A.links devices.acceptors.second) (P.A.out devices.acceptors.second)
        (P.A.is_closed devices.acceptors.second) (P.A.faults devices.acceptors.second))
        (P.acceptors ports.old) }
    ensures dialers { P.dialers ports.new ≡ both_back
        (dials (P.L.links devices.dialers.first) (P.L.out devices.dialers.first)
        (P.L.faults devices.dialers.first))
        (dials (P.L.links devices.dialers.second) (P.L.out devices.dialers.second)
        (P.L.faults devices.dialers.second))
        (P.dialers ports.old) }
    ensures later { P.faults ports.old ≤ P.faults ports.new }
{
    let Devices {
        datagrams,
        acceptors,
        dialers,
    } = devices;
    close_datagrams(ports, datagrams);
    close_acceptors(ports, acceptors);
    close_dialers(ports, dialers);
}
