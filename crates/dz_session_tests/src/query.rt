//! Sessions over devices in memory, at a desk that has published nothing, so that no zone is served. Of the calls of a device
//! each fails in turn, and a link is cut at each octet of its second message.

ghost use Rattle.std.specs.Prelude.{◌≡◌, ⊤, false, None, IfOk};

use crate::desks::open_one;
use dz_desk::{Ear, Hearing, Publisher, Reading};
use dz_header::ReplyBuffer;
use dz_io::{
    Caller, Clock, Datagram, MemoryAcceptor, MemoryClock, MemoryDatagrams, MemoryLink, Peer,
    Returned, Setup, Stream,
};
use dz_name::Name;
use dz_notify::Heard;
use dz_query::{
    LinksEnd, SessionEnd, StreamEnd, serve_datagrams, serve_links, serve_stream,
    serve_stream_outward,
};
use std::alloc::{AllocError, Global};
use std::marker::{Brand, PhantomData};
use std::process::Abort;
use std::sync::Wait;
use std::test::*;

/// Names the desk of a test.
trait OfDesk {
    ghost use Rattle.dz_desk.specs.Seen.{Book};

    ghost book: { Book };
}

impl OfDesk for Brand {
    ghost book = { record { number = 0; log_name = 0; cells_name = 0 } };
}

/// An ear of a desk that has published nothing, so that no zone is served. Where something was, its log fails.
#[derive(Drop)]
struct Early<J> {
    of: PhantomData<J>,
}

impl<J: OfDesk> Ear for Early<J> {
    ghost publisher = { J.book };

    ghost may_fail = { ⊤ };

    type Witness = ();

    ghost witnesses = { λ witness list peer zone heard. ⊤ };

    /// Answers that the zone isn't served, while the reading has seen nothing.
    fn hear<R: Wait>(
        &self,
        _rt: &R,
        _peer: &Peer,
        _zone: &Name,
        reading: &mut Reading,
    ) -> Hearing<()> {
        if reading.count() == 0 {
            Hearing::Heard(Heard::NotOurs, ())
        } else {
            Hearing::LogFault
        }
    }
}

/// An ear whose log fails.
#[derive(Drop)]
struct Deaf<J> {
    of: PhantomData<J>,
}

impl<J: OfDesk> Ear for Deaf<J> {
    ghost publisher = { J.book };

    ghost may_fail = { ⊤ };

    type Witness = ();

    ghost witnesses = { λ witness list peer zone heard. ⊤ };

    /// Answers that the log failed.
    fn hear<R: Wait>(
        &self,
        _rt: &R,
        _peer: &Peer,
        _zone: &Name,
        _reading: &mut Reading,
    ) -> Hearing<()> {
        Hearing::LogFault
    }
}

/// The peer 192.0.2.N at port 53.
fn peer(last: u8) -> Peer {
    Peer {
        address: [192, 0, 2, last],
        port: 53,
    }
}

/// Queries with the IDs 1 and 2, for the address of example.
const QUERY_1: &[u8] = b"\0\x01\0\0\0\x01\0\0\0\0\0\0\x07example\0\0\x01\0\x01";

const QUERY_2: &[u8] = b"\0\x02\0\0\0\x01\0\0\0\0\0\0\x07example\0\0\x01\0\x01";

/// Their replies where no zone is served: REFUSED (RFC 1035 section 4.1.1).
const REPLY_1: &[u8] = b"\0\x01\x80\x05\0\x01\0\0\0\0\0\0\x07example\0\0\x01\0\x01";

const REPLY_2: &[u8] = b"\0\x02\x80\x05\0\x01\0\0\0\0\0\0\x07example\0\0\x01\0\x01";

/// A NOTIFY for example. with ID 80, and its reply where the zone isn't served: NOTAUTH (RFC 1996 section 3.10).
const NOTIFY: &[u8] = b"\0\x50\x24\0\0\x01\0\0\0\0\0\0\x07example\0\0\x06\0\x01";

const NOT_OURS: &[u8] = b"\0\x50\xa0\x09\0\x01\0\0\0\0\0\0\x07example\0\0\x06\0\x01";

/// The queries, each after its length (RFC 1035 section 4.2.2).
const QUERIES: &[u8] = b"\0\x19\0\x01\0\0\0\x01\0\0\0\0\0\0\x07example\0\0\x01\0\x01\
    \0\x19\0\x02\0\0\0\x01\0\0\0\0\0\0\x07example\0\0\x01\0\x01";

/// Their replies.
const REPLIES: &[u8] = b"\0\x19\0\x01\x80\x05\0\x01\0\0\0\0\0\0\x07example\0\0\x01\0\x01\
    \0\x19\0\x02\x80\x05\0\x01\0\0\0\0\0\0\x07example\0\0\x01\0\x01";

/// What a worker has, at a desk that has published nothing. Its clock gives 7, 5 and then 9 again and again.
#[derive(Drop)]
struct Worker {
    reading: Reading,
    clock: MemoryClock,
    buffer: ReplyBuffer,
}

/// A worker at a desk of its own, which stays open.
fn open<R: Abort + Wait>(rt: &R, alloc: Global) -> (Publisher, Worker)
    ensures { result.1.reading.is_out ≡ false }
{
    let (publisher, reading) = open_one(rt, alloc);
    match make(alloc, reading) {
        Ok(worker) => (publisher, worker),
        Err(_) => panic!(rt; "out of memory"),
    }
}

/// A worker with this reading.
fn make(alloc: Global, reading: Reading) -> Result<Worker, AllocError>
    ensures { IfOk result (λ worker. worker.reading ≡ reading) }
{
    Ok(Worker {
        reading,
        clock: MemoryClock::new([7, 5].to_vec(alloc)?, 9, 1),
        buffer: ReplyBuffer::make(alloc)?,
    })
}

/// Two packets, of the peers 1 and 2: what they show, whether the ear's log fails, the calls of the device that fail, how
/// the session ends, and what is sent to which peer.
#[derive(Clone, Copy, Debug)]
struct Packets {
    what: &'static str,
    packets: [&'static [u8]; 2],
    deaf: bool,
    failing: &'static [u64],
    end: SessionEnd,
    sent: &'static [(&'static [u8], u8)],
}

/// Two queries that are answered.
const ANSWERED: Packets = Packets {
    what: "nothing fails",
    packets: [QUERY_1, QUERY_2],
    deaf: false,
    failing: &[],
    end: SessionEnd::Closed {
        lost: false,
        unheard: false,
    },
    sent: &[(REPLY_1, 1), (REPLY_2, 2)],
};

const PACKETS: &[Packets] = &[
    ANSWERED,
    Packets {
        what: "the first send",
        failing: &[1],
        end: SessionEnd::Closed {
            lost: true,
            unheard: false,
        },
        sent: &[(REPLY_2, 2)],
        ..ANSWERED
    },
    Packets {
        what: "the second receive",
        failing: &[2],
        end: SessionEnd::Failed,
        sent: &[(REPLY_1, 1)],
        ..ANSWERED
    },
    Packets {
        what: "a NOTIFY is heard",
        packets: [NOTIFY, QUERY_2],
        sent: &[(NOT_OURS, 1), (REPLY_2, 2)],
        ..ANSWERED
    },
    Packets {
        what: "the log",
        packets: [NOTIFY, QUERY_2],
        deaf: true,
        end: SessionEnd::Closed {
            lost: false,
            unheard: true,
        },
        sent: &[(REPLY_2, 2)],
        ..ANSWERED
    },
    Packets {
        what: "no request comes",
        packets: [b"\0\x01", REPLY_2],
        sent: &[],
        ..ANSWERED
    },
];

/// Serves a device, with an ear whose log fails or not.
fn serve_by<R: Wait, J: OfDesk>(
    rt: &R,
    worker: &mut Worker,
    device: &mut MemoryDatagrams,
    deaf: bool,
) -> SessionEnd
    requires { (worker.old.reading.is_out ≡ false) × (worker.old.reading.book ≡ J.book) }
{
    let Worker {
        reading,
        clock,
        buffer,
    } = worker;
    if deaf {
        let ear = Deaf::<J> { of: PhantomData };
        serve_datagrams(rt, &ear, reading, device, clock, buffer)
    } else {
        let ear = Early::<J> { of: PhantomData };
        serve_datagrams(rt, &ear, reading, device, clock, buffer)
    }
}

/// A device to which the packets come.
fn device(alloc: Global, row: &Packets) -> Result<MemoryDatagrams, AllocError> {
    let mut coming = Vec::new(alloc);
    coming.push(Datagram::new(row.packets[0].to_vec(alloc)?, peer(1)))?;
    coming.push(Datagram::new(row.packets[1].to_vec(alloc)?, peer(2)))?;
    let setup = Setup::new(coming, row.failing.to_vec(alloc)?);
    Ok(MemoryDatagrams::new(alloc, setup))
}

/// Serves a device: how the session ended.
fn play<R: Abort + Wait>(
    rt: &R,
    alloc: Global,
    device: &mut MemoryDatagrams,
    deaf: bool,
) -> SessionEnd {
    let (publisher, mut worker) = open(rt, alloc);
    let end = serve_by::<R, Brand>(rt, &mut worker, device, deaf);
    publisher.close(rt);
    end
}

/// That these packets were sent.
fn expect_sent(rt: &impl Abort, sent: &[Datagram], row: &Packets) {
    assert_eq!(rt; sent.len(), row.sent.len(), "{row:?}");
    'packets: for (packet, (octets, last)) in sent.iter().zip(row.sent) {
        assert!(rt;
            packet.octets() == *octets && packet.peer() == peer(*last),
            "{row:?}"
        );
    }
}

/// That a session is as its row says.
fn expect_packets<R: Abort + Wait>(rt: &R, alloc: Global, row: &Packets) -> Result<(), AllocError> {
    let mut device = device(alloc, row)?;
    let end = play(rt, alloc, &mut device, row.deaf);
    assert_eq!(rt; end, row.end, "{row:?}");
    expect_sent(rt, device.sent(), row);
    Ok(())
}

#[test]
fn packets_get_replies_in_their_order(rt: HostRuntime) -> Result<(), AllocError> {
    for row in PACKETS {
        expect_packets(&rt, rt.alloc(), row)?;
    }
    Ok(())
}

/// Serves a link of peer 1.
fn serve_stream_by<R: Wait, J: OfDesk>(
    rt: &R,
    worker: &mut Worker,
    link: &mut MemoryLink,
) -> StreamEnd
    requires { (worker.old.reading.is_out ≡ false) × (worker.old.reading.book ≡ J.book) }
{
    let Worker {
        reading,
        clock,
        buffer,
    } = worker;
    let ear = Early::<J> { of: PhantomData };
    serve_stream(rt, &ear, reading, link, clock, &peer(1), buffer).end
}

/// Serves a link: how the session ended.
fn play_stream<R: Abort + Wait>(rt: &R, alloc: Global, link: &mut MemoryLink) -> StreamEnd {
    let (publisher, mut worker) = open(rt, alloc);
    let end = serve_stream_by::<R, Brand>(rt, &mut worker, link);
    publisher.close(rt);
    end
}

/// How many octets of the two queries a link gives, which of its calls fail, how the session ends, and how many octets of
/// the two replies it gets.
type Cut = (usize, &'static [u64], StreamEnd, usize);

/// The calls are two reads and a write for each message, and a read at the end.
const CUTS: &[Cut] = &[
    (54, &[], StreamEnd::Ended, 54),
    (54, &[0], StreamEnd::Failed, 0),
    (54, &[1], StreamEnd::Failed, 0),
    (54, &[2], StreamEnd::Failed, 0),
    (54, &[3], StreamEnd::Failed, 27),
    (54, &[4], StreamEnd::Failed, 27),
    (54, &[5], StreamEnd::Failed, 27),
    (54, &[6], StreamEnd::Failed, 54),
];

/// That a session over a link is as its row says.
fn expect_stream<R: Abort + Wait>(rt: &R, alloc: Global, row: &Cut) -> Result<(), AllocError> {
    let (given, failing, end, written) = *row;
    let octets = QUERIES.split_at(given.min(54)).0.to_vec(alloc)?;
    let mut link = MemoryLink::new(alloc, octets, failing.to_vec(alloc)?);
    assert_eq!(rt; play_stream(rt, alloc, &mut link), end, "{row:?}");
    assert!(rt;
        link.written() == REPLIES.split_at(written.min(54)).0,
        "{row:?}"
    );
    Ok(())
}

#[test]
fn messages_of_a_link_get_replies_behind_their_lengths(rt: HostRuntime) -> Result<(), AllocError> {
    for row in CUTS {
        expect_stream(&rt, rt.alloc(), row)?;
    }
    Ok(())
}

#[test]
fn a_message_that_is_cut_gets_no_reply(rt: HostRuntime) -> Result<(), AllocError> {
    for given in 27..54 {
        expect_stream(&rt, rt.alloc(), &(given, &[], StreamEnd::Ended, 27))?;
    }
    Ok(())
}

/// A request for the whole zone example. with ID 90, and a query, each after its length.
const TRANSFER: &[u8] = b"\0\x19\0\x90\0\0\0\x01\0\0\0\0\0\0\x07example\0\0\xfc\0\x01\
    \0\x19\0\x01\0\0\0\x01\0\0\0\0\0\0\x07example\0\0\x01\0\x01";

/// The replies where the zone isn't served to an address that is listed: NOTAUTH (RFC 5936 section 2.2.1).
const NOT_AUTH: &[u8] = b"\0\x19\0\x90\x80\x09\0\x01\0\0\0\0\0\0\x07example\0\0\xfc\0\x01\
    \0\x19\0\x01\x80\x05\0\x01\0\0\0\0\0\0\x07example\0\0\x01\0\x01";

/// The replies to an address that isn't listed: NOTIMP.
const NOT_IMP: &[u8] = b"\0\x19\0\x90\x80\x04\0\x01\0\0\0\0\0\0\x07example\0\0\xfc\0\x01\
    \0\x19\0\x01\x80\x05\0\x01\0\0\0\0\0\0\x07example\0\0\x01\0\x01";

/// The addresses of peers 2 and 1.
const LISTED: &[[u8; 4]] = &[[192, 0, 2, 2], [192, 0, 2, 1]];

/// Serves a link of peer 1, where these addresses are listed.
fn serve_outward_by<R: Wait, J: OfDesk>(
    rt: &R,
    worker: &mut Worker,
    link: &mut MemoryLink,
    downstream: &[[u8; 4]],
) -> StreamEnd
    requires { (worker.old.reading.is_out ≡ false) × (worker.old.reading.book ≡ J.book) }
{
    let Worker {
        reading,
        clock,
        buffer,
    } = worker;
    let ear = Early::<J> { of: PhantomData };
    serve_stream_outward(rt, &ear, reading, link, clock, &peer(1), downstream, buffer).end
}

/// Serves a link, where these addresses are listed.
fn play_outward<R: Abort + Wait>(
    rt: &R,
    alloc: Global,
    link: &mut MemoryLink,
    downstream: &[[u8; 4]],
) -> StreamEnd {
    let (publisher, mut worker) = open(rt, alloc);
    let end = serve_outward_by::<R, Brand>(rt, &mut worker, link, downstream);
    publisher.close(rt);
    end
}

/// That a link that asks for a zone and then for an address gets these replies, where these addresses are listed.
fn expect_outward<R: Abort + Wait>(
    rt: &R,
    alloc: Global,
    downstream: &[[u8; 4]],
    replies: &[u8],
) -> Result<(), AllocError> {
    let mut link = MemoryLink::new(alloc, TRANSFER.to_vec(alloc)?, Vec::new(alloc));
    let end = play_outward(rt, alloc, &mut link, downstream);
    assert_eq!(rt; (end, link.written()), (StreamEnd::Ended, replies));
    Ok(())
}

#[test]
fn a_zone_is_refused_by_whether_the_address_is_listed(rt: HostRuntime) -> Result<(), AllocError> {
    expect_outward(&rt, rt.alloc(), LISTED, NOT_AUTH)?;
    expect_outward(&rt, rt.alloc(), &[], NOT_IMP)
}

/// Serves the links of an acceptor.
fn serve_links_by<R: Wait, J: OfDesk>(
    rt: &R,
    worker: &mut Worker,
    acceptor: &mut MemoryAcceptor,
) -> LinksEnd
    requires desk { (worker.old.reading.is_out ≡ false) × (worker.old.reading.book ≡ J.book) }
    requires none { acceptor.old.out ≡ None }
{
    let Worker {
        reading,
        clock,
        buffer,
    } = worker;
    let ear = Early::<J> { of: PhantomData };
    serve_links(rt, &ear, reading, acceptor, clock, &[], buffer)
}

/// An acceptor of two links, of peers 1 and 2, that give both queries; calls of these numbers fail, and of the first link
/// these.
fn acceptor(alloc: Global, failing: &[u64], first: &[u64]) -> Result<MemoryAcceptor, AllocError>
    ensures { IfOk result (λ acceptor. acceptor.out ≡ None) }
{
    let mut coming = Vec::new(alloc);
    let one = Stream::new(QUERIES.to_vec(alloc)?, first.to_vec(alloc)?);
    coming.push(Caller::new(peer(1), one))?;
    let two = Stream::new(QUERIES.to_vec(alloc)?, Vec::new(alloc));
    coming.push(Caller::new(peer(2), two))?;
    Ok(MemoryAcceptor::new(alloc, Setup::new(coming, failing.to_vec(alloc)?)))
}

/// Serves the links of an acceptor: how that ended.
fn play_links<R: Abort + Wait>(rt: &R, alloc: Global, acceptor: &mut MemoryAcceptor) -> LinksEnd
    requires { acceptor.old.out ≡ None }
{
    let (publisher, mut worker) = open(rt, alloc);
    let end = serve_links_by::<R, Brand>(rt, &mut worker, acceptor);
    publisher.close(rt);
    end
}

/// Which calls of an acceptor fail, which of its first link, how the service ends, and how many octets of the replies each
/// link gets that comes back.
type Links = (&'static [u64], &'static [u64], LinksEnd, &'static [usize]);

const LINKS: &[Links] = &[
    (
        &[],
        &[],
        LinksEnd::Closed {
            starved: false,
            unheard: false,
        },
        &[54, 54],
    ),
    (
        &[],
        &[0],
        LinksEnd::Closed {
            starved: false,
            unheard: false,
        },
        &[0, 54],
    ),
    (
        &[1],
        &[],
        LinksEnd::Failed {
            starved: false,
            unheard: false,
        },
        &[54],
    ),
];

/// That links came back, in their order, with this many octets of the replies.
fn expect_back(rt: &impl Abort, back: &[Returned], row: &Links) {
    assert_eq!(rt; back.len(), row.3.len(), "{row:?}");
    'links: for (link, written) in back.iter().zip(row.3) {
        let wanted = REPLIES.split_at((*written).min(54)).0;
        assert!(rt; link.link().written() == wanted, "{row:?}");
    }
}

/// That links are served as their row says.
fn expect_links<R: Abort + Wait>(rt: &R, alloc: Global, row: &Links) -> Result<(), AllocError> {
    let mut acceptor = acceptor(alloc, row.0, row.1)?;
    let end = play_links(rt, alloc, &mut acceptor);
    assert_eq!(rt; end, row.2, "{row:?}");
    expect_back(rt, acceptor.back(), row);
    Ok(())
}

#[test]
fn links_are_served_one_after_the_other(rt: HostRuntime) -> Result<(), AllocError> {
    for row in LINKS {
        expect_links(&rt, rt.alloc(), row)?;
    }
    Ok(())
}
