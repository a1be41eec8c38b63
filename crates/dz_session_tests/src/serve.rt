//! A whole server over devices in memory: what is answered while a transfer is under way, and each fault of a device.
//! A query, a transfer and a log that go on side by side are on the stage of `dz_test_devices`.

ghost use Rattle.std.specs.Prelude.{◌≡◌, [], IfSome};

use crate::desks::{end, open};
use dz_disk::MemoryDisk;
use dz_io::{
    Caller, Clock, Datagram, MemoryClock, MemoryPorts, MemorySink, MemorySource, Peer, Ports,
    Setup, Sink, Stream,
};
use dz_serve::{ServeEnd, Served, serve_input};
use dz_test_devices::{Play, Stage, StageClock, StageLog, StagePorts};
use std::alloc::{AllocError, Global};
use std::marker::Brand;
use std::process::Abort;
use std::sync::Wait;
use std::sync::ledger::Blank;
use std::test::*;
use std::thread::Threads;

pub const CONFIG: &[u8] = b"listen = \"192.0.2.10:53\"\n\
    [[catalog]]\n\
    name = \"cat1.example.\"\n\
    policy = \"off\"\n\
    primaries = [\"192.0.2.1\"]\n";

/// The same without a place to listen.
const UNLISTED: &[u8] = b"[[catalog]]\n\
    name = \"cat1.example.\"\n\
    policy = \"off\"\n\
    primaries = [\"192.0.2.1\"]\n";

/// The SOA record of example. is asked for.
pub const QUERY: &[u8] = b"\x00\x91\x00\x00\x00\x01\x00\x00\x00\x00\x00\x00\
    \x07example\x00\x00\x06\x00\x01";

/// The same after its length.
const FRAMED_QUERY: &[u8] = b"\x00\x19\x00\x91\x00\x00\x00\x01\x00\x00\x00\x00\x00\x00\
    \x07example\x00\x00\x06\x00\x01";

pub const CLIENT: Peer = Peer {
    address: [198, 51, 100, 9],
    port: 53,
};

/// Serves the configuration of a text: how it ended, and the output.
fn play<K: Sink + Send, P: Ports, C: Clock + Send + Drop, R: Abort + Threads + Wait + Sync>(
    rt: &R,
    alloc: Global,
    text: Vec<u8>,
    output: K,
    ports: &mut P,
    clock: &C,
) -> (ServeEnd, K)
    requires written { IfSome (K.held output) (λ text. text ≡ []) }
    requires faultless { K.faults output ≡ 0 }
{
    let mut input = MemorySource::new(text, Vec::new(alloc));
    let desk = open(rt, alloc);
    let none: Option<&mut MemoryDisk> = None;
    let Served {
        end: how,
        output,
        desk,
    } = serve_input::<MemorySource, K, Brand, P, C, MemoryDisk, R>(
        rt,
        alloc,
        &mut input,
        output,
        desk,
        ports,
        clock,
        none,
        Blank::new(2),
    );
    end(rt, desk);
    (how, output)
}

/// A clock at moment 1000, which stops a worker after a rest.
fn clock(alloc: Global) -> MemoryClock {
    MemoryClock::new(Vec::new(alloc), 1000, 1)
}

/// The first query with ID 1, and the second with ID 2.
fn query(alloc: Global, id: u8) -> Result<Datagram, AllocError> {
    let mut octets = QUERY.to_vec(alloc)?;
    if let Some(octet) = octets.get_mut(1) {
        *octet = id;
    }
    Ok(Datagram::new(octets, CLIENT))
}

/// A server over devices in memory: which of their calls fail, counted from 0 at each device, and what comes of it.
#[derive(Clone, Copy)]
struct Case {
    what: &'static str,
    /// The configuration.
    text: &'static [u8],
    /// Openings, over all kinds.
    openings: &'static [u64],
    /// Calls of the first datagram device, to which two queries come.
    packets: &'static [u64],
    /// Calls of the first acceptor, to which one link comes, and calls of that link, over which a query comes.
    accepts: &'static [u64],
    link: &'static [u64],
    /// Dials of the first dialer, and writes of the log.
    dials: &'static [u64],
    writes: &'static [u64],
    end: ServeEnd,
    /// The IDs of the replies that the first datagram device sends.
    replies: &'static [u8],
    /// Whether the link gets a reply.
    has_written: bool,
    /// What the log begins with.
    log: &'static [u8],
}

/// The line of the first job.
const JOB: &[u8] = b"job 1 cat1.example. axfr id 1 at 192.0.2.1:53\n";

/// Nothing fails.
const FAULTLESS: Case = Case {
    what: "nothing",
    text: CONFIG,
    openings: &[],
    packets: &[],
    accepts: &[],
    link: &[],
    dials: &[],
    writes: &[],
    end: ServeEnd::Done,
    replies: &[1, 2],
    has_written: true,
    log: JOB,
};

/// An opening, counted over all kinds, is refused: nothing is written, and no worker is started.
const REFUSED: Case = Case {
    end: ServeEnd::PortFault,
    replies: &[],
    has_written: false,
    log: &[],
    ..FAULTLESS
};

/// Calls of the first datagram device fail.
const UNHEARD: Case = Case {
    end: ServeEnd::PortFault,
    ..FAULTLESS
};

const CASES: &[Case] = &[
    FAULTLESS,
    Case {
        what: "the first datagram device",
        openings: &[0],
        ..REFUSED
    },
    Case {
        what: "the second datagram device",
        openings: &[1],
        ..REFUSED
    },
    Case {
        what: "the first acceptor",
        openings: &[2],
        ..REFUSED
    },
    Case {
        what: "the second acceptor",
        openings: &[3],
        ..REFUSED
    },
    Case {
        what: "the first dialer",
        openings: &[4],
        ..REFUSED
    },
    Case {
        what: "the second dialer",
        openings: &[5],
        ..REFUSED
    },
    Case {
        what: "the first receive",
        packets: &[0],
        replies: &[],
        ..UNHEARD
    },
    Case {
        what: "the second receive",
        packets: &[2],
        replies: &[1],
        ..UNHEARD
    },
    Case {
        what: "the first send of two",
        packets: &[1],
        replies: &[2],
        ..UNHEARD
    },
    Case {
        what: "the first accept",
        accepts: &[0],
        end: ServeEnd::PortFault,
        has_written: false,
        ..FAULTLESS
    },
    // a fault of a link or of a dialer changes no status
    Case {
        what: "the first read of a link",
        link: &[0],
        has_written: false,
        ..FAULTLESS
    },
    Case {
        what: "a dial",
        dials: &[0],
        ..FAULTLESS
    },
    // a fault of the log comes before other faults
    Case {
        what: "the first write of the log",
        writes: &[0],
        end: ServeEnd::WriteFault,
        log: &[],
        ..FAULTLESS
    },
    Case {
        what: "the log and the second receive",
        packets: &[2],
        writes: &[0],
        end: ServeEnd::WriteFault,
        replies: &[1],
        log: &[],
        ..FAULTLESS
    },
    Case {
        what: "no place to listen",
        text: UNLISTED,
        end: ServeEnd::BadInput,
        replies: &[],
        has_written: false,
        log: b"bad config 3\n",
        ..FAULTLESS
    },
];

/// Ports at which two queries come to the first datagram device and one over a link to the first acceptor.
fn ports(alloc: Global, case: &Case) -> Result<MemoryPorts, AllocError> {
    let mut queries = Vec::new(alloc);
    queries.push(query(alloc, 1)?)?;
    queries.push(query(alloc, 2)?)?;
    let mut datagrams = Vec::new(alloc);
    datagrams.push(Setup::new(queries, case.packets.to_vec(alloc)?))?;
    datagrams.push(Setup::new(Vec::new(alloc), Vec::new(alloc)))?;
    let stream = Stream::new(FRAMED_QUERY.to_vec(alloc)?, case.link.to_vec(alloc)?);
    let mut callers: Vec<Caller> = Vec::new(alloc);
    callers.push(Caller::new(CLIENT, stream))?;
    let mut acceptors: Vec<Setup<Caller>> = Vec::new(alloc);
    acceptors.push(Setup::new(callers, case.accepts.to_vec(alloc)?))?;
    acceptors.push(Setup::new(Vec::new(alloc), Vec::new(alloc)))?;
    let mut dialers: Vec<Setup<Stream>> = Vec::new(alloc);
    dialers.push(Setup::new(Vec::new(alloc), case.dials.to_vec(alloc)?))?;
    dialers.push(Setup::new(Vec::new(alloc), Vec::new(alloc)))?;
    Ok(MemoryPorts::new(
        alloc,
        datagrams,
        acceptors,
        dialers,
        case.openings.to_vec(alloc)?,
    ))
}

/// Whether replies with these IDs were sent by the datagram devices that came back, in this order, and no others.
fn has_replied(ports: &MemoryPorts, ids: &[u8]) -> bool {
    let mut count = 0_usize;
    let mut all = true;
    'devices: for device in ports.datagrams() {
        'replies: for reply in device.sent() {
            all = all && reply.octets().get(1) == ids.get(count);
            count = count.saturating_add(1);
        }
    }
    all && count == ids.len()
}

/// Whether something was written over a link that came back.
fn has_written(ports: &MemoryPorts) -> bool {
    ports.acceptors().iter().any(|acceptor| {
        acceptor
            .back()
            .iter()
            .any(|returned| !returned.link().written().is_empty())
    })
}

/// That what came of a case is what it says.
fn expect_seen(rt: &impl Abort, case: &Case, end: ServeEnd, ports: &MemoryPorts, log: &[u8]) {
    let replied = has_replied(ports, case.replies) && has_written(ports) == case.has_written;
    assert!(rt; end == case.end && replied, "{}", case.what);
    let logged = log.starts_with(case.log) && log.is_empty() == case.log.is_empty();
    assert!(rt; logged, "{}", case.what);
}

/// Serves as a case says, and holds what comes of it to what is expected.
fn expect<R: Abort + Threads + Wait + Sync>(
    rt: &R,
    alloc: Global,
    case: &Case,
) -> Result<(), AllocError> {
    let mut ports = ports(alloc, case)?;
    let sink = MemorySink::new(alloc, case.writes.to_vec(alloc)?);
    let text = case.text.to_vec(alloc)?;
    let (end, output) = play(rt, alloc, text, sink, &mut ports, &clock(alloc));
    expect_seen(rt, case, end, &ports, output.written());
    Ok(())
}

#[test]
fn a_device_that_fails_ends_its_worker_alone(rt: HostRuntime) -> Result<(), AllocError> {
    for case in CASES {
        expect(&rt, rt.alloc(), case)?;
    }
    Ok(())
}

/// What a stage plays, what the log begins with, the least and the greatest serial in each reply, and how many calls fail.
type Staged = (Play, &'static [u8], &'static [(u8, u8)], u64);

/// A query is answered while a read of a transfer waits for that, and while a worker that writes a line has the lock. A job
/// whose dial fails is made again.
const STAGED: &[Staged] = &[
    (Play::ReadWaits, b"job 1 ", &[(5, 5), (6, 6)], 0),
    (Play::LogWaits, b"job 1 ", &[(5, 6), (6, 6)], 0),
    (Play::DialFails, AGAIN, &[], 1),
];

/// A job whose dial fails, and the next job.
const AGAIN: &[u8] = b"job 1 cat1.example. axfr id 1 at 192.0.2.1:53\n\
    failed cat1.example.\n\
    job 2 cat1.example. axfr id 2 at 192.0.2.1:53\n";

/// The last octet of the serial of the SOA record that ends a reply; 0 where there is none.
fn serial_in(reply: &Datagram) -> u8 {
    let place = reply.octets().len().saturating_sub(17);
    reply.octets().get(place).copied().unwrap_or(0)
}

/// Whether the serials of replies are in these ranges.
fn have_serials(replies: &[Datagram], serials: &[(u8, u8)]) -> bool {
    let mut all = replies.len() == serials.len();
    'replies: for (reply, (least, most)) in replies.iter().zip(serials) {
        let serial = serial_in(reply);
        all = all && *least <= serial && serial <= *most;
    }
    all
}

/// How many jobs a log tells.
fn jobs_in(log: &[u8]) -> u64 {
    let mut count = 0_u64;
    'lines: for line in log.split(|octet| *octet == b'\n') {
        if line.starts_with(b"job ") {
            count = count.saturating_add(1);
        }
    }
    count
}

/// That a server ended well, that the stage saw what its row says, and that each job was dialled: its link came back, or the
/// dial failed.
fn expect_staged(rt: &impl Abort, row: &Staged, end: ServeEnd, ports: &StagePorts, log: &[u8]) {
    let (play, front, serials, faults) = *row;
    assert!(rt; end == ServeEnd::Done && log.starts_with(front), "{play:?}");
    let dialled = (ports.links() as u64).saturating_add(faults);
    let is_whole = ports.are_all_back() && ports.all_faults() == faults && jobs_in(log) == dialled;
    assert!(rt;
        is_whole && have_serials(ports.replies(), serials),
        "{play:?}"
    );
}

/// Serves on a stage, and holds what comes of it to what is expected.
fn play_staged<R: Abort + Threads + Wait + Sync>(
    rt: &R,
    alloc: Global,
    row: &Staged,
) -> Result<(), AllocError> {
    let stage = Stage::new(row.0);
    let mut ports = StagePorts::new(alloc, &stage);
    let clock = StageClock::new(&stage);
    let log = StageLog::new(alloc, &stage);
    let text = CONFIG.to_vec(alloc)?;
    let (end, log) = play(rt, alloc, text, log, &mut ports, &clock);
    expect_staged(rt, row, end, &ports, log.written());
    assert!(rt; !stage.is_late());
    Ok(())
}

#[test]
fn queries_are_answered_while_a_transfer_is_under_way(rt: HostRuntime) -> Result<(), AllocError> {
    for row in STAGED {
        play_staged(&rt, rt.alloc(), row)?;
    }
    Ok(())
}
