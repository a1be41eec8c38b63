//! Transfers of catalogs that have keys: what is signed is taken, and of the rest the fault is told (RFC 8945).

ghost use Rattle.std.specs.Prelude.{◌≡◌, ◌<◌, [], None, IfOk};
ghost use mathlib.Core.List.{IsPrefix};
ghost use Rattle.dz_settings.specs.Config.{IsAllowed};
ghost use Rattle.dz_desk.specs.Seen.{IsAtRest};
ghost use Rattle.dz_fleet.specs.Sound.{IsGiven};

use crate::configs::signed_config;
use crate::desks::open_one;
use crate::messages::{Asked, GOOD, message, push_framed};
use crate::records::Rdata::{Octets as Data, Soa, Target};
use crate::records::Row;
use crate::transfers::{CATALOG, MEMBER};
use dz_desk::{Publisher, Reading};
use dz_fleet::{Due, Job};
use dz_io::MemorySink;
use dz_job::take_stream;
use dz_name::Octets;
use dz_name::dns::{CLASS_IN, TYPE_A, TYPE_AXFR, TYPE_NS, TYPE_PTR, TYPE_SOA, TYPE_TXT};
use dz_provision::{Jobs, Locked, Naming, Parts, Provisioner, Shared};
use dz_settings::Config;
use dz_tsig::{request_mac, sign_stream};
use std::alloc::{AllocError, Global};
use std::marker::Brand;
use std::process::Abort;
use std::sync::Wait;
use std::sync::ledger::{Blank, Book, Share};
use std::test::*;

/// The records of each message of an answer.
type Messages = &'static [&'static [Row]];

const OTHER: &str = "cat2.example.";

/// The catalog, which lists the member at the label `m1` and lets the other catalog have it (RFC 9432 section 4.3.1).
const LISTED: Messages = &[&[
    (CATALOG, TYPE_SOA, 3600, Soa(1)),
    (CATALOG, TYPE_NS, 3600, Target("invalid.")),
    ("version.cat1.example.", TYPE_TXT, 0, Data(b"\x012")),
    ("m1.zones.cat1.example.", TYPE_PTR, 0, Target(MEMBER)),
    ("coo.m1.zones.cat1.example.", TYPE_PTR, 0, Target(OTHER)),
    (CATALOG, TYPE_SOA, 3600, Soa(1)),
]];

/// The other catalog, which lists the member at the same label.
const MOVED: Messages = &[&[
    (OTHER, TYPE_SOA, 3600, Soa(1)),
    (OTHER, TYPE_NS, 3600, Target("invalid.")),
    ("version.cat2.example.", TYPE_TXT, 0, Data(b"\x012")),
    ("m1.zones.cat2.example.", TYPE_PTR, 0, Target(MEMBER)),
    (OTHER, TYPE_SOA, 3600, Soa(1)),
]];

/// The member, in three messages.
const ZONE: Messages = &[
    &[
        (MEMBER, TYPE_SOA, 3600, Soa(5)),
        (MEMBER, TYPE_NS, 3600, Target("ns.invalid.")),
    ],
    &[("www.example.", TYPE_A, 3600, Data(b"\xc0\0\x02\x50"))],
    &[(MEMBER, TYPE_SOA, 3600, Soa(5))],
];

/// What is done to an answer.
#[derive(Clone, Copy, PartialEq, Eq)]
enum Change {
    Nothing,
    /// It isn't signed.
    Unsigned,
    /// One bit of the last MAC is turned.
    OtherMac,
    /// It is signed this many seconds after the query.
    Later(u64),
}

/// What is done to the answer that gives the member, and the last line of the log.
const CASES: &[(Change, &[u8])] = &[
    (Change::Nothing, b"\npublished 2 example. 5\n"),
    (Change::Later(300), b"\npublished 2 example. 5\n"),
    (Change::Unsigned, b"\nrefused example. tsig 1\n"),
    (Change::OtherMac, b"\nrefused example. tsig 4\n"),
    (Change::Later(301), b"\nrefused example. tsig 5\n"),
];

/// Messages that answer a job's query for all of a zone, each after its length.
fn octets_of(
    rt: &impl Abort,
    alloc: Global,
    job: &Job,
    zone: &'static str,
    messages: Messages,
) -> Result<Vec<u8>, AllocError> {
    let asked = [(zone, TYPE_AXFR, CLASS_IN)];
    let mut questions: &[Asked] = &asked;
    let mut octets = Vec::new(alloc);
    'messages: for rows in messages {
        let message = message(rt, alloc, (job.id(), GOOD), questions, rows)?;
        push_framed(rt, &mut octets, message.as_slice())?;
        questions = &[];
    }
    Ok(octets)
}

/// These messages, signed as the answer to a job.
fn signed(
    rt: &impl Abort,
    alloc: Global,
    job: &Job,
    messages: Vec<u8>,
    later: u64,
) -> Result<Vec<u8>, AllocError> {
    let query = job.query(alloc)?;
    let Some(key) = job.key() else {
        panic!(rt; "the job has no key");
    };
    let mac = request_mac(key, query.as_slice(), job.moment());
    let moment = job.moment().saturating_add(later);
    match sign_stream(alloc, key, &mac, Octets::from_vec(messages), moment) {
        Ok(octets) => Vec::from_slice(alloc, octets.as_slice()),
        Err(error) => panic!(rt; "{error:?}"),
    }
}

/// Turns a bit of the last MAC, after which come the original ID, the error and the length of no other data.
fn turn(octets: &mut Vec<u8>) {
    let place = octets.len().saturating_sub(7);
    if let Some(octet) = octets.get_mut(place) {
        *octet ^= 1;
    }
}

/// What answers a job: these messages, signed and changed.
fn answer(
    rt: &impl Abort,
    alloc: Global,
    job: &Job,
    messages: Vec<u8>,
    change: Change,
) -> Result<Vec<u8>, AllocError> {
    match change {
        Change::Unsigned => Ok(messages),
        Change::Nothing => signed(rt, alloc, job, messages, 0),
        Change::Later(seconds) => signed(rt, alloc, job, messages, seconds),
        Change::OtherMac => {
            let mut octets = signed(rt, alloc, job, messages, 0)?;
            turn(&mut octets);
            Ok(octets)
        }
    }
}

/// A provisioner with its lock, and a reading of its publisher's.
struct Provisioned<J: Naming> {
    shared: Shared<MemorySink, J>,
    reading: Reading,
}

/// The job that is due.
fn due<R: Abort + Wait, J: Naming>(rt: &R, provisioned: &mut Provisioned<J>) -> Job
    requires reading { IsAtRest J.publisher provisioned.old.reading }
    ensures reading { IsAtRest J.publisher provisioned.new.reading }
    ensures seen { IsPrefix provisioned.old.reading.list provisioned.new.reading.list }
    ensures given { IsGiven provisioned.new.reading.list result }
{
    let Provisioned { shared, reading } = provisioned;
    match shared.hand_out(rt, reading, 1000) {
        Ok(Due::Job(job)) => job,
        _ => panic!(rt; "no job"),
    }
}

/// Ends a job by an answer of these octets, signed and changed.
fn end<R: Abort + Wait, J: Naming>(
    rt: &R,
    alloc: Global,
    provisioned: &mut Provisioned<J>,
    share: &mut Share<J>,
    job: Job,
    answer: Result<Vec<u8>, AllocError>,
)
    requires reading { IsAtRest J.publisher provisioned.old.reading }
    requires part { 0 < share.old.parts }
    requires given { IsGiven provisioned.old.reading.list job }
    ensures reading { IsAtRest J.publisher provisioned.new.reading }
    ensures seen { IsPrefix provisioned.old.reading.list provisioned.new.reading.list }
    ensures parts { share.new.parts ≡ share.old.parts }
{
    let Ok(octets) = answer else {
        panic!(rt; "out of memory");
    };
    let Ok(finished) = take_stream(alloc, &job, octets.as_slice()) else {
        panic!(rt; "out of memory");
    };
    let Provisioned { shared, reading } = provisioned;
    let ended = shared.settle(rt, alloc, reading, share, job, finished, 1000);
    assert!(rt; ended.answer.is_ok());
}

/// What answers a job for all of a zone.
fn answered(
    rt: &impl Abort,
    alloc: Global,
    job: &Job,
    zone: (&'static str, Messages),
    change: Change,
) -> Result<Vec<u8>, AllocError> {
    let (name, messages) = zone;
    let octets = octets_of(rt, alloc, job, name, messages)?;
    answer(rt, alloc, job, octets, change)
}

/// A provisioner of a configuration.
fn begin<R: Abort + Wait, J: Naming>(
    rt: &R,
    alloc: Global,
    config: Result<Config, AllocError>,
    desk: (Publisher, Reading),
    starved: Book<J>,
) -> Provisioned<J>
    requires config { IfOk config (λ c. IsAllowed c) }
    requires publisher { (desk.0.list ≡ []) × (desk.0.staged ≡ None)
        × (desk.0.book ≡ J.publisher) }
    requires reading { IsAtRest J.publisher desk.1 }
    requires starved { starved.total ≡ 0 }
    ensures { IsAtRest J.publisher result.reading }
{
    let (publisher, reading) = desk;
    let Ok(config) = config else {
        panic!(rt; "out of memory");
    };
    let output = MemorySink::new(alloc, Vec::new(alloc));
    match Provisioner::start(rt, alloc, config, publisher, output, starved) {
        Ok(provisioner) => Provisioned {
            shared: Locked::over(provisioner),
            reading,
        },
        Err(_) => panic!(rt; "out of memory"),
    }
}

/// Ends a provisioner and its publisher: what was written.
fn written<R: Wait, J: Naming>(rt: &R, provisioned: Provisioned<J>) -> MemorySink {
    let Provisioned { shared, reading } = provisioned;
    drop(reading);
    let Parts {
        fleet: _,
        publisher,
        output,
        log_failed: _,
        starved: _,
    } = shared.close().close();
    publisher.close(rt);
    output
}

/// The catalog is taken, signed, and then its member is given.
fn play<R: Abort + Wait, J: Naming>(
    rt: &R,
    alloc: Global,
    desk: (Publisher, Reading),
    ledger: Blank,
    change: Change,
) -> MemorySink
    requires publisher { (desk.0.list ≡ []) × (desk.0.staged ≡ None)
        × (desk.0.book ≡ J.publisher) }
    requires reading { IsAtRest J.publisher desk.1 }
    requires ledger { (ledger.name ≡ J.name) × (ledger.parts ≡ J.parts)
        × (0 < ledger.parts) }
{
    let (starved, mut share) = ledger.open::<J>();
    let config = signed_config(rt, alloc, &[(CATALOG, b"a secret")]);
    let mut provisioned: Provisioned<J> = begin(rt, alloc, config, desk, starved);
    let catalog = due(rt, &mut provisioned);
    let listed = answered(rt, alloc, &catalog, (CATALOG, LISTED), Change::Nothing);
    end(rt, alloc, &mut provisioned, &mut share, catalog, listed);
    let member = due(rt, &mut provisioned);
    let zone = answered(rt, alloc, &member, (MEMBER, ZONE), change);
    end(rt, alloc, &mut provisioned, &mut share, member, zone);
    written(rt, provisioned)
}

/// While the member's transfer is under way, it moves to the other catalog, which has another key.
fn play_move<R: Abort + Wait, J: Naming>(
    rt: &R,
    alloc: Global,
    desk: (Publisher, Reading),
    ledger: Blank,
) -> MemorySink
    requires publisher { (desk.0.list ≡ []) × (desk.0.staged ≡ None)
        × (desk.0.book ≡ J.publisher) }
    requires reading { IsAtRest J.publisher desk.1 }
    requires ledger { (ledger.name ≡ J.name) × (ledger.parts ≡ J.parts)
        × (0 < ledger.parts) }
{
    let (starved, mut share) = ledger.open::<J>();
    let config = signed_config(rt, alloc, &[(CATALOG, b"a secret"), (OTHER, b"another")]);
    let mut provisioned: Provisioned<J> = begin(rt, alloc, config, desk, starved);
    let catalog = due(rt, &mut provisioned);
    let listed = answered(rt, alloc, &catalog, (CATALOG, LISTED), Change::Nothing);
    end(rt, alloc, &mut provisioned, &mut share, catalog, listed);
    let other = due(rt, &mut provisioned);
    let member = due(rt, &mut provisioned);
    let zone = answered(rt, alloc, &member, (MEMBER, ZONE), Change::Nothing);
    let moved = answered(rt, alloc, &other, (OTHER, MOVED), Change::Nothing);
    end(rt, alloc, &mut provisioned, &mut share, other, moved);
    end(rt, alloc, &mut provisioned, &mut share, member, zone);
    written(rt, provisioned)
}

#[test]
fn what_is_signed_is_taken_and_of_the_rest_the_fault_is_told(rt: HostRuntime) {
    let alloc = rt.alloc();
    'cases: for (change, want) in CASES {
        let desk = open_one(&rt, alloc);
        let output = play::<HostRuntime, Brand>(&rt, alloc, desk, Blank::new(1), *change);
        assert!(rt; output.written().ends_with(want));
    }
}

#[test]
fn a_member_that_moved_to_another_key_is_refused_once(rt: HostRuntime) {
    let alloc = rt.alloc();
    let desk = open_one(&rt, alloc);
    let output = play_move::<HostRuntime, Brand>(&rt, alloc, desk, Blank::new(1));
    assert!(rt;
        output.written().ends_with(
            b"\nmoved example. cat1.example. cat2.example.\nrefused example. tsig 4\n"
        )
    );
}
