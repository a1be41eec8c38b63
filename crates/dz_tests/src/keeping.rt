//! A transfer worker that keeps what is taken.

ghost use Rattle.std.specs.Prelude.{◌≡◌, ◌<◌, ◌^◌, false, [], None, IfOk};
ghost use mathlib.Core.List.{IsPrefix};
ghost use Rattle.dz_desk.specs.Seen.{IsFresh};
ghost use Rattle.dz_fleet.specs.Sound.{IsGiven};

use crate::desks::open_one;
use crate::links::dialer;
use crate::messages::{GOOD, message, push_framed};
use crate::records::Rdata::{Octets, Target};
use crate::records::{Row, soa};
use crate::store;
use crate::transfers::{CATALOG, MEMBER, listing_message};
use crate::work::{begin, written};
use dz_desk::{Publisher, Reading};
use dz_disk::MemoryDisk;
use dz_fleet::{Due, Job};
use dz_io::{MemoryClock, MemoryDialer, MemorySink};
use dz_name::dns::{CLASS_IN, TYPE_IXFR, TYPE_NS, TYPE_PTR, TYPE_TXT};
use dz_provision::{Jobs, Naming, Shared};
use dz_store::Store;
use dz_transfer::{Report, work_and_keep};
use std::alloc::{AllocError, Global};
use std::marker::Brand;
use std::process::Abort;
use std::sync::ledger::{Blank, Share};
use std::sync::{Mutex, Wait};
use std::test::*;

const WRITTEN: &[u8] = b"job 1 cat1.example. axfr id 1 at 192.0.2.1:53\n\
    published 1 cat1.example. 1\n\
    added example. cat1.example.\n\
    job 2 example. axfr id 2 at 192.0.2.1:53\n\
    job 3 cat1.example. ixfr 1 id 3 at 192.0.2.1:53\n\
    published 2 cat1.example. 2\n\
    reset example. cat1.example.\n\
    stale example. 2\n";

/// Serial 2 of the catalog as the whole answer to the query of job 3 (RFC 1995 section 4): its member is at another
/// label, so that its state goes (RFC 9432 section 5.4).
fn relisting_message(rt: &impl Abort, alloc: Global) -> Result<Vec<u8>, AllocError> {
    let ends = soa(CATALOG, 2);
    let rows: [Row; 5] = [
        ends,
        (CATALOG, TYPE_NS, 3600, Target("invalid.")),
        ("version.cat1.example.", TYPE_TXT, 0, Octets(b"\x012")),
        ("m2.zones.cat1.example.", TYPE_PTR, 3600, Target(MEMBER)),
        ends,
    ];
    message(
        rt,
        alloc,
        (3, GOOD),
        &[(CATALOG, TYPE_IXFR, CLASS_IN)],
        &rows,
    )
}

/// A dialer whose one link gives this message.
fn giving(rt: &impl Abort, alloc: Global, message: &[u8]) -> Result<MemoryDialer, AllocError>
    ensures { IfOk result (λ d. d.out ≡ None) }
{
    let mut octets = Vec::new(alloc);
    push_framed(rt, &mut octets, message)?;
    dialer(alloc, octets, &[], &[])
}

/// One call of a worker at a moment, over a link that gives this message.
fn work_at<R: Abort + Wait, J: Naming>(
    rt: &R,
    alloc: Global,
    shared: &Shared<MemorySink, J>,
    reading: &mut Reading,
    share: &mut Share<J>,
    store: &Mutex<Store<MemoryDisk>>,
    moment: u64,
    message: &[u8],
) -> Report
    requires moment { moment < 2 ^ 40 }
    requires reading { (reading.old.is_out ≡ false) × (reading.old.book ≡ J.publisher) }
    requires part { 0 < share.old.parts }
    ensures parts { share.new.parts ≡ share.old.parts }
    ensures same { reading.new ≡ record reading.old { list = reading.new.list } }
    ensures seen { IsPrefix reading.old.list reading.new.list }
{
    let mut dialer = match giving(rt, alloc, message) {
        Ok(dialer) => dialer,
        Err(_) => panic!(rt; "out of memory"),
    };
    let mut clock = MemoryClock::new(Vec::new(alloc), moment, 0);
    work_and_keep(
        rt,
        alloc,
        shared,
        reading,
        share,
        &mut dialer,
        &mut clock,
        store,
    )
    .report
}

/// The job of the member, which is due at once.
fn member_job<R: Abort + Wait, J: Naming>(
    rt: &R,
    shared: &Shared<MemorySink, J>,
    reading: &mut Reading,
) -> Job
    requires reading { (reading.old.is_out ≡ false) × (reading.old.book ≡ J.publisher) }
    ensures same { reading.new ≡ record reading.old { list = reading.new.list } }
    ensures given { IsGiven reading.new.list result }
{
    match shared.hand_out(rt, reading, 1000) {
        Ok(Due::Job(job)) => job,
        _ => panic!(rt; "no job"),
    }
}

/// The catalog lists `example.`, whose job is under way when the catalog lists it anew.
fn reset<R: Abort + Wait, J: Naming>(
    rt: &R,
    alloc: Global,
    publisher: Publisher,
    reading: Reading,
    ledger: Blank,
    store: &Mutex<Store<MemoryDisk>>,
    messages: (&[u8], &[u8]),
) -> MemorySink
    requires publisher { (publisher.list ≡ []) × (publisher.staged ≡ None)
        × (publisher.book ≡ J.publisher) }
    requires reading { IsFresh J.publisher reading }
    requires ledger { (ledger.name ≡ J.name) × (ledger.parts ≡ J.parts)
        × (0 < ledger.parts) }
{
    let (listing, relisting) = messages;
    let mut reading = reading;
    let (starved, mut share) = ledger.open::<J>();
    let shared: Shared<MemorySink, J> = begin(rt, alloc, publisher, starved);
    let report = work_at(
        rt,
        alloc,
        &shared,
        &mut reading,
        &mut share,
        store,
        1000,
        listing,
    );
    assert!(rt; matches!(report, Report::Published(1)));
    let job = member_job(rt, &shared, &mut reading);
    let report = work_at(
        rt,
        alloc,
        &shared,
        &mut reading,
        &mut share,
        store,
        1100,
        relisting,
    );
    assert!(rt; matches!(report, Report::Published(2)));
    assert!(rt; shared.fail(rt, &mut reading, job, 1100).answer.is_ok());
    written(rt, shared)
}

#[test]
fn a_member_that_is_reset_is_forgotten_and_its_catalog_is_kept(
    rt: HostRuntime,
) -> Result<(), AllocError> {
    let alloc = rt.alloc();
    let disk = store::disk(alloc, Vec::new(alloc), 100)?;
    let mut kept = store::open(&rt, alloc, disk);
    assert!(&rt; store::save(&rt, alloc, &mut kept, "example.", 5)?);
    assert_eq!(&rt; store::latest(&rt, alloc, &mut kept, "example."), 5);
    let kept = Mutex::new(kept);
    let listing = listing_message(&rt, alloc, 1)?;
    let relisting = relisting_message(&rt, alloc)?;
    let messages = (listing.as_slice(), relisting.as_slice());
    let (publisher, reading) = open_one(&rt, alloc);
    let ledger = Blank::new(1);
    let output = reset::<HostRuntime, Brand>(
        &rt, alloc, publisher, reading, ledger, &kept, messages,
    );
    assert_eq!(&rt; output.written(), WRITTEN);
    let mut kept = kept.into_inner();
    assert_eq!(&rt; store::latest(&rt, alloc, &mut kept, "example."), 0);
    assert_eq!(&rt; store::latest(&rt, alloc, &mut kept, CATALOG), 2);
    Ok(())
}
