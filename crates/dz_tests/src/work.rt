//! A transfer worker: jobs that are asked for, fetched over a link, and ended.

ghost use Rattle.std.specs.Prelude.{◌≡◌, ◌<◌, false, [], None, IfOk};
ghost use Rattle.dz_desk.specs.Seen.{IsFresh};

use crate::configs::config;
use crate::desks::open_one;
use crate::links::{STREAM, dialer};
use crate::messages::push_framed;
use crate::names::peer;
use crate::transfers::{CATALOG, listing_message};
use dz_desk::{Publisher, Reading};
use dz_io::{MemoryClock, MemoryDialer, MemorySink};
use dz_provision::{Locked, Naming, Parts, Provisioner, Shared};
use dz_transfer::{Report, TransferEnd, Transfers, serve_transfers, work_one};
use std::alloc::{AllocError, Global};
use std::marker::Brand;
use std::process::Abort;
use std::sync::Wait;
use std::sync::ledger::{Blank, Book, Share};
use std::test::*;

/// The query for all of cat1.example., with ID 1, after its length (RFC 5936 section 2.1).
const QUERY: &[u8] = b"\0\x1e\0\x01\0\0\0\x01\0\0\0\0\0\0\x04cat1\x07example\0\0\xfc\0\x01";

/// What is written once the catalog was taken, and then the job of its member fails.
const FAILED: &[u8] = b"job 1 cat1.example. axfr id 1 at 192.0.2.1:53\n\
    published 1 cat1.example. 1\n\
    added example. cat1.example.\n\
    job 2 example. axfr id 2 at 192.0.2.1:53\n\
    failed example.\n";

/// A provisioner of one catalog, in a lock.
pub fn begin<R: Abort + Wait, J: Naming>(
    rt: &R,
    alloc: Global,
    publisher: Publisher,
    starved: Book<J>,
) -> Shared<MemorySink, J>
    requires publisher { (publisher.list ≡ []) × (publisher.staged ≡ None)
        × (publisher.book ≡ J.publisher) }
    requires starved { starved.total ≡ 0 }
{
    let Ok(config) = config(rt, alloc, CATALOG) else {
        panic!(rt; "out of memory");
    };
    let output = MemorySink::new(alloc, Vec::new(alloc));
    match Provisioner::start(rt, alloc, config, publisher, output, starved) {
        Ok(provisioner) => Locked::over(provisioner),
        Err(_) => panic!(rt; "out of memory"),
    }
}

/// Ends the provisioner and its publisher: what was written.
pub fn written<R: Wait, J: Naming>(rt: &R, shared: Shared<MemorySink, J>) -> MemorySink {
    let Parts {
        fleet: _,
        publisher,
        output,
        log_failed: _,
        starved: _,
    } = shared.close().close();
    publisher.close(rt);
    output
}

/// A dialer whose one link gives the listing.
fn listing_dialer(rt: &impl Abort, alloc: Global) -> Result<MemoryDialer, AllocError>
    ensures { IfOk result (λ d. d.out ≡ None) }
{
    let mut octets = Vec::new(alloc);
    let message = listing_message(rt, alloc, 1)?;
    push_framed(rt, &mut octets, message.as_slice())?;
    dialer(alloc, octets, &[], &[])
}

/// A clock that gives the moment 1000 again and again, and stops a worker after this many rests.
fn clock(alloc: Global, rests: u64) -> MemoryClock {
    MemoryClock::new(Vec::new(alloc), 1000, rests)
}

/// One call of a worker.
fn work<R: Abort + Wait, J: Naming>(
    rt: &R,
    alloc: Global,
    shared: &Shared<MemorySink, J>,
    reading: &mut Reading,
    share: &mut Share<J>,
    dialer: &mut MemoryDialer,
) -> Report
    requires reading { (reading.old.is_out ≡ false) × (reading.old.book ≡ J.publisher) }
    requires part { 0 < share.old.parts }
    requires dialer { dialer.old.out ≡ None }
    ensures same { reading.new ≡ record reading.old { list = reading.new.list } }
    ensures parts { share.new.parts ≡ share.old.parts }
    ensures back { dialer.new.out ≡ None }
{
    let mut clock = clock(alloc, 0);
    work_one(rt, alloc, shared, reading, share, dialer, &mut clock).report
}

/// That the catalog is published, and that its one link came back of its primary, which was asked for it.
fn expect_published(rt: &impl Abort, report: &Report, dialer: &MemoryDialer) {
    assert!(rt; matches!(report, Report::Published(1)) && dialer.back().len() == 1);
    'links: for back in dialer.back() {
        assert!(rt; back.peer() == peer(1) && back.link().written() == QUERY);
    }
}

/// That a link failed, after which nothing is due, and that the list has no entry of it.
fn expect_failed(rt: &impl Abort, reports: (&Report, &Report), entries: u64, faults: u64) {
    let (failed, idle) = reports;
    assert!(rt; matches!(failed, Report::LinkFault) && matches!(idle, Report::Idle(_)));
    assert_eq!(rt; (entries, faults), (2, 1));
}

/// The catalog is published over the first dialer, and the link of the other fails.
fn fail<R: Abort + Wait, J: Naming>(
    rt: &R,
    alloc: Global,
    desk: (Publisher, Reading),
    ledger: Blank,
    one: &mut MemoryDialer,
    other: &mut MemoryDialer,
) -> MemorySink
    requires publisher { (desk.0.list ≡ []) × (desk.0.staged ≡ None)
        × (desk.0.book ≡ J.publisher) }
    requires reading { IsFresh J.publisher desk.1 }
    requires ledger { (ledger.name ≡ J.name) × (ledger.parts ≡ J.parts)
        × (0 < ledger.parts) }
    requires dialers { (one.old.out ≡ None) × (other.old.out ≡ None) }
{
    let (publisher, mut reading) = desk;
    let (starved, mut share) = ledger.open::<J>();
    let shared: Shared<MemorySink, J> = begin(rt, alloc, publisher, starved);
    let published = work(rt, alloc, &shared, &mut reading, &mut share, one);
    expect_published(rt, &published, one);
    let failed = work(rt, alloc, &shared, &mut reading, &mut share, other);
    let idle = work(rt, alloc, &shared, &mut reading, &mut share, other);
    expect_failed(rt, (&failed, &idle), reading.count(), other.faults());
    written(rt, shared)
}

/// Dials and calls of a link that fail: the dial, the write of the query, the first read, and a read within a message.
const FAULTS: &[(&[u64], &[u64])] = &[(&[0], &[]), (&[], &[0]), (&[], &[1]), (&[], &[4])];

/// That a link that fails makes no entry, and is told by a line.
fn expect_fault<R: Abort + Wait>(
    rt: &R,
    alloc: Global,
    row: &(&[u64], &[u64]),
) -> Result<(), AllocError> {
    let mut one = listing_dialer(rt, alloc)?;
    let mut other = dialer(alloc, STREAM.to_vec(alloc)?, row.0, row.1)?;
    let desk = open_one(rt, alloc);
    let output = fail::<R, Brand>(rt, alloc, desk, Blank::new(1), &mut one, &mut other);
    assert_eq!(rt; output.written(), FAILED, "{row:?}");
    Ok(())
}

#[test]
fn a_link_that_fails_is_told_and_makes_no_entry(rt: HostRuntime) -> Result<(), AllocError> {
    for row in FAULTS {
        expect_fault(&rt, rt.alloc(), row)?;
    }
    Ok(())
}

/// A worker whose clock lets it rest once.
fn serve<R: Abort + Wait, J: Naming>(
    rt: &R,
    alloc: Global,
    desk: (Publisher, Reading),
    ledger: Blank,
    dialer: &mut MemoryDialer,
) -> (Transfers, MemorySink)
    requires publisher { (desk.0.list ≡ []) × (desk.0.staged ≡ None)
        × (desk.0.book ≡ J.publisher) }
    requires reading { IsFresh J.publisher desk.1 }
    requires ledger { (ledger.name ≡ J.name) × (ledger.parts ≡ J.parts)
        × (0 < ledger.parts) }
    requires dialer { dialer.old.out ≡ None }
{
    let (publisher, mut reading) = desk;
    let (starved, mut share) = ledger.open::<J>();
    let mut clock = clock(alloc, 1);
    let shared: Shared<MemorySink, J> = begin(rt, alloc, publisher, starved);
    let done = serve_transfers(
        rt,
        alloc,
        &shared,
        &mut reading,
        &mut share,
        dialer,
        &mut clock,
    );
    (done, written(rt, shared))
}

/// That a worker has dialled, and goes on until its clock stops it.
fn expect_stopped(rt: &impl Abort, done: &Transfers, dialer: &MemoryDialer) {
    assert!(rt; done.dialed && done.end == TransferEnd::Stopped);
    assert_eq!(rt; (dialer.back().len(), dialer.faults()), (1, 1));
}

/// It publishes the catalog, and finds the zone of its member, whose dial fails.
#[test]
fn a_worker_goes_on_until_its_clock_stops_it(rt: HostRuntime) -> Result<(), AllocError> {
    let alloc = rt.alloc();
    let mut dialer = listing_dialer(&rt, alloc)?;
    let desk = open_one(&rt, alloc);
    let (done, output) = serve::<HostRuntime, Brand>(&rt, alloc, desk, Blank::new(1), &mut dialer);
    expect_stopped(&rt, &done, &dialer);
    assert_eq!(&rt; output.written(), FAILED);
    Ok(())
}
