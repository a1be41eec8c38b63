ghost use Rattle.std.specs.Prelude.{◌≡◌, ◌≤◌, IsSome, None, length};

use crate::expiries::Expiries;
use crate::figures::Numbers;
use crate::frames::{asks_for_zone, takes_notify, turn_frames};
use crate::glimpse::Glimpse;
use crate::pacing::Pacing;
use crate::stop::mask_of;
use crate::tally::{Guests, Tally};
use crate::tcp_dialer::leaves_from;
use crate::tcp_link::is_too_slow;
use crate::tell::{period_of, resident_in};
use crate::waiting::{WAITING_OCTETS, Waiting};
use crate::{Bell, HostClock, HostPorts, TcpAcceptor, Turn, UdpDatagrams};
use dz_io::{
    Accepted, Acceptor, Clock, Datagrams, Dialer, Failed, Peer, Ports, Received, Rest, Sink, Source,
};
use std::alloc::AllocError;
use std::fs::{File, Files};
use std::io::{Eprint, Read, Write};
use std::net::{Net, Shutdown, SocketAddr, TcpStream};
use std::process::Abort;
use std::sync::Wait;
use std::test::*;
use std::time::Duration;

/// A port of this host that the system chooses.
const ANY: Peer = Peer {
    address: [127, 0, 0, 1],
    port: 0,
};

/// The reply to a NOTIFY that was taken: its front, which no question follows.
const TAKEN: &[u8] = b"\x12\x34\xa4\x00";

/// The IPv4 peer at this address.
fn port_of<R: Abort>(rt: &R, address: std::io::Result<SocketAddr>) -> Peer {
    match address {
        Ok(address) => Peer {
            address: [127, 0, 0, 1],
            port: address.port(),
        },
        Err(error) => panic!(rt; "{error}"),
    }
}

/// Whether what one device sends to this address comes to the other.
fn passes<R: std::time::Clock + Eprint + Files<File = File> + Wait>(
    one: &mut UdpDatagrams<'_, R>,
    other: &mut UdpDatagrams<'_, R>,
    at: &Peer,
    packet: &[u8],
    buffer: &mut [u8],
) -> bool
    requires { 65535 ≤ length buffer.old }
{
    if one.send(at, packet).is_err() {
        return false;
    }
    match other.receive(buffer) {
        Ok(Received::Packet { length, peer }) => {
            peer == *at && buffer.get(..length).unwrap_or(&[]) == packet
        }
        _ => false,
    }
}

#[test]
fn a_datagram_comes_to_the_socket_that_sent_it(rt: HostRuntime) -> Result<(), AllocError> {
    let bell = Bell::new(rt.alloc());
    let mut ports = HostPorts::new(&rt, rt.alloc(), &bell);
    let mut buffer = vec![in rt.alloc(); 0_u8; 65_535]?;
    let Ok(mut one) = ports.open_datagrams(&ANY, 0) else {
        panic!(rt; "not opened");
    };
    let Ok(mut other) = ports.open_datagrams(&ANY, 1) else {
        panic!(rt; "not opened");
    };
    let here = port_of(&rt, one.socket.local_addr());
    assert_eq!(rt; port_of(&rt, other.socket.local_addr()), here);
    assert!(rt; passes(&mut one, &mut other, &here, b"one packet", &mut buffer));
    assert_eq!(rt; bell.count(&rt), 0);
    assert!(rt; passes(&mut one, &mut other, &here, TAKEN, &mut buffer));
    assert_eq!(rt; bell.count(&rt), 1);
    bell.stop(&rt);
    assert_eq!(rt; one.receive(&mut buffer), Ok(Received::Closed));
    ports.close_datagrams(one);
    ports.close_datagrams(other);
    Ok(())
}

/// Whether the next packet that a device receives is this one.
fn comes<R: std::time::Clock + Eprint + Files<File = File> + Wait>(
    device: &mut UdpDatagrams<'_, R>,
    packet: &[u8],
    buffer: &mut [u8],
) -> bool
    requires { 65535 ≤ length buffer.old }
{
    match device.receive(buffer) {
        Ok(Received::Packet { length, peer: _ }) => {
            buffer.get(..length).unwrap_or(&[]) == packet
        }
        _ => false,
    }
}

/// Two NOTIFYs by their fronts (RFC 1996 section 3.7).
const NOTIFY: &[u8] = b"\x12\x34\x24\x00";

const LATER: &[u8] = b"\x12\x35\x24\x00";

/// A peer with this address.
fn peer_at(address: [u8; 4]) -> Peer {
    Peer {
        address,
        port: 5300,
    }
}

/// A NOTIFY for a zone of one label, of two octets (RFC 1996 section 3.7).
fn notify_of(label: [u8; 2]) -> [u8; 20] {
    let mut packet = *b"\x12\x34\x24\0\0\x01\0\0\0\0\0\0\x02--\0\0\x06\0\x01";
    packet[13..15].copy_from_slice(&label);
    packet
}

#[test]
fn of_one_question_one_notify_a_second_is_delivered(rt: HostRuntime) {
    let mut pacing = Pacing::new(rt.alloc());
    let peer = peer_at([192, 0, 2, 1]);
    pacing.know(u32::from_be_bytes(peer.address));
    let Some(place) = pacing.place_of(&peer, &notify_of(*b"aa")) else {
        panic!(rt; "no place");
    };
    assert!(rt; pacing.is_open(place, 7));
    pacing.deliver(place, 7);
    assert!(rt; !pacing.is_open(place, 1006));
    assert_eq!(rt; pacing.hold(place, &peer, b"one"), 1007);
    assert_eq!(rt; pacing.hold(place, &peer, b"another"), 1007);
    assert_eq!(rt; pacing.next(1006), Err(1007));
    assert_eq!(rt; pacing.next(1007), Ok(place));
    let mut buffer = [0; 16];
    assert_eq!(rt; pacing.take(place, 1007, &mut buffer), Some((7, peer)));
    assert_eq!(rt; &buffer[..7], b"another".as_slice());
    assert_eq!(rt; pacing.next(9000), Err(u64::MAX));
    // The letters of a name are of either case (RFC 4343), and another question has another place.
    assert_eq!(rt; pacing.place_of(&peer, &notify_of(*b"AA")), Some(place));
    assert_eq!(rt; pacing.place_of(&peer, &notify_of(*b"ab")), Some(1));
}

/// How many NOTIFYs of a peer, each for another zone, are delivered in the second that begins at this moment, of 200.
fn delivered(pacing: &mut Pacing, peer: &Peer, now: u64) -> u32 {
    let mut count = 0_u32;
    'labels: for label in 0..200_u8 {
        if let Some(place) = pacing.place_of(peer, &notify_of([b'a', label])) {
            if pacing.is_open(place, now) {
                pacing.deliver(place, now);
                count = count.saturating_add(1);
            }
        }
    }
    count
}

#[test]
fn a_known_source_has_more_than_all_strangers(rt: HostRuntime) {
    let mut pacing = Pacing::new(rt.alloc());
    let known = peer_at([192, 0, 2, 1]);
    pacing.know(u32::from_be_bytes(known.address));
    assert_eq!(rt; delivered(&mut pacing, &known, 5000), 100);
    assert_eq!(rt; delivered(&mut pacing, &peer_at([192, 0, 2, 2]), 5000), 16);
    assert_eq!(rt; delivered(&mut pacing, &peer_at([192, 0, 2, 3]), 5999), 0);
    assert_eq!(rt; delivered(&mut pacing, &peer_at([192, 0, 2, 3]), 6000), 16);
    assert_eq!(rt; delivered(&mut pacing, &known, 6000), 100);
}

/// A query for the whole zone `a.`, and a reply that begins with an SOA of which EXPIRE is 3, each preceded by its
/// length.
const ASKED: &[u8] = b"\x00\x13\0\x01\0\0\0\x01\0\0\0\0\0\0\x01a\0\0\xfc\0\x01";

const CAME: &[u8] = b"\x00\x37\0\x01\x84\0\0\x01\0\x01\0\0\0\0\x01a\0\0\xfc\0\x01\
    \xc0\x0c\0\x06\0\x01\0\0\x0e\x10\0\x18\xc0\x0c\xc0\x0c\
    \0\0\0\x05\0\0\0\x01\0\0\0\x02\0\0\0\x03\0\0\0\x04";

#[test]
fn a_version_that_expires_is_told_once(rt: HostRuntime) {
    let mut glimpse = Glimpse::nothing();
    glimpse.ask(ASKED);
    glimpse.add(&CAME[..20]);
    glimpse.add(&CAME[20..]);
    let Some((zone, span)) = glimpse.expire() else {
        panic!(rt; "no SOA");
    };
    assert_eq!(rt; span, 3);
    let expiries = Expiries::new(rt.alloc());
    expiries.note(&rt, &zone, span);
    assert_eq!(rt; expiries.expired(&rt, 1000).len(), 0);
    expiries.read(&rt, 10, b"published 7 a. 5\nadded b. a.\n");
    assert_eq!(rt; expiries.expired(&rt, 13).len(), 0);
    assert_eq!(rt; told(&rt, &expiries, 14), 1);
    assert_eq!(rt; told(&rt, &expiries, 15), 0);
    expiries.read(&rt, 20, b"confirmed 8 a. 5\n");
    expiries.read(&rt, 21, b"removed a. c.\n");
    assert_eq!(rt; told(&rt, &expiries, 30), 0);
}

/// How many zones have expired before a second, each of them `a.`.
fn told<R: Abort + Wait>(rt: &R, expiries: &Expiries, second: u64) -> usize {
    let texts = expiries.expired(rt, second);
    'texts: for text in &texts {
        assert_eq!(rt; text.as_slice(), b"a.".as_slice());
    }
    texts.len()
}

#[test]
fn the_oldest_of_4096_questions_goes(rt: HostRuntime) {
    let mut pacing = Pacing::new(rt.alloc());
    'sources: for number in 0..4097_u32 {
        let place = pacing.place_of(&peer_at(number.to_be_bytes()), &notify_of(*b"aa"));
        assert_eq!(rt; place, Some(number as usize % 4096));
    }
    // The first has gone, and has the place of the second from now on; the third is still there.
    assert_eq!(rt;
        pacing.place_of(&peer_at([0; 4]), &notify_of(*b"aa")),
        Some(1)
    );
    assert_eq!(rt;
        pacing.place_of(&peer_at([0, 0, 0, 2]), &notify_of(*b"aa")),
        Some(2)
    );
}

#[test]
fn a_turn_takes_a_notify_or_a_request_for_a_zone_only_first(rt: HostRuntime) {
    let query = b"\0\x0c\0\x90\0\0\0\x01\0\0\0\0\0\0";
    let notify = b"\0\x0c\0\x90\x24\0\0\x01\0\0\0\0\0\0";
    let mut octets = [0; 44];
    octets[..14].copy_from_slice(notify);
    octets[14..28].copy_from_slice(query);
    octets[28..42].copy_from_slice(notify);
    let found = turn_frames(&octets);
    assert_eq!(rt; (found.end, found.is_alive), (28, true));
    // Of empty frames a turn takes 256, and none of them is a sign of life.
    let found = turn_frames(&[0; 600]);
    assert_eq!(rt; (found.end, found.is_alive), (512, false));
    let found = turn_frames(&octets[..13]);
    assert_eq!(rt; (found.end, found.is_alive), (0, false));
}

#[test]
fn a_dial_leaves_from_the_address_that_is_listened_on(rt: HostRuntime) {
    let far = peer_at([192, 0, 2, 1]);
    let near = peer_at([127, 0, 0, 1]);
    assert_eq!(rt;
        leaves_from(Some([192, 0, 2, 10]), &far),
        Some([192, 0, 2, 10])
    );
    assert_eq!(rt;
        leaves_from(Some([127, 0, 0, 5]), &near),
        Some([127, 0, 0, 5])
    );
    assert_eq!(rt; leaves_from(Some([127, 0, 0, 5]), &far), None);
    assert_eq!(rt; leaves_from(Some([0; 4]), &far), None);
    assert_eq!(rt; leaves_from(None, &far), None);
}

#[test]
fn a_slow_link_has_half_a_minute_and_its_octets(rt: HostRuntime) {
    assert!(rt; !is_too_slow(30_000, 0));
    assert!(rt; is_too_slow(30_001, 0));
    assert!(rt; !is_too_slow(31_000, 8_000));
    assert!(rt; is_too_slow(31_001, 8_000));
}

/// A packet comes before a NOTIFY that was sent before it, since another NOTIFY has its session.
fn expect_packet_first<R: std::time::Clock + Eprint + Files<File = File> + Abort + Wait>(
    rt: &R,
    one: &mut UdpDatagrams<'_, R>,
    other: &mut UdpDatagrams<'_, R>,
    here: &Peer,
    buffer: &mut [u8],
)
    requires { 65535 ≤ length buffer.old }
{
    assert!(rt; passes(one, other, here, NOTIFY, buffer));
    let sent = one.send(here, LATER).is_ok() && one.send(here, b"one packet").is_ok();
    assert!(rt; sent && comes(one, b"one packet", buffer));
}

#[test]
fn a_notify_waits_while_another_has_its_session(rt: HostRuntime) -> Result<(), AllocError> {
    let bell = Bell::new(rt.alloc());
    let mut ports = HostPorts::new(&rt, rt.alloc(), &bell);
    let mut buffer = vec![in rt.alloc(); 0_u8; 65_535]?;
    let Ok(mut one) = ports.open_datagrams(&ANY, 0) else {
        panic!(rt; "not opened");
    };
    let Ok(mut other) = ports.open_datagrams(&ANY, 1) else {
        panic!(rt; "not opened");
    };
    let here = port_of(&rt, one.socket.local_addr());
    bell.notifies.know(&rt, here.address);
    expect_packet_first(&rt, &mut one, &mut other, &here, &mut buffer);
    assert!(rt; comes(&mut other, LATER, &mut buffer));
    ports.close_datagrams(one);
    ports.close_datagrams(other);
    Ok(())
}

#[test]
fn a_host_that_nobody_listens_at_is_a_fault(rt: HostRuntime) -> Result<(), AllocError> {
    let bell = Bell::new(rt.alloc());
    let mut ports = HostPorts::new(&rt, rt.alloc(), &bell);
    let Ok(mut dialer) = ports.dialer(0) else {
        panic!(rt; "not made");
    };
    assert!(rt; dialer.dial(&ANY).is_err());
    ports.close_dialer(dialer);
    Ok(())
}

#[test]
fn a_primary_that_says_nothing_holds_up_no_stop(rt: HostRuntime) -> Result<(), AllocError> {
    let bell = Bell::new(rt.alloc());
    let mut ports = HostPorts::new(&rt, rt.alloc(), &bell);
    let Ok(acceptor) = ports.open_acceptor(&ANY, 0) else {
        panic!(rt; "not opened");
    };
    let Ok(mut dialer) = ports.dialer(0) else {
        panic!(rt; "not made");
    };
    let here = port_of(&rt, acceptor.turns.listener.local_addr());
    let Ok(mut link) = dialer.dial(&here) else {
        panic!(rt; "not dialled");
    };
    bell.stop(&rt);
    assert_eq!(rt; link.write(b"\x00\x01a"), Ok(()));
    assert_eq!(rt; link.read(&mut [0; 2]), Err(Failed));
    dialer.done(link);
    ports.close_dialer(dialer);
    ports.close_acceptor(acceptor);
    Ok(())
}

/// A thread may take the value.
fn is_send<T: Send>(_value: &T) {}

#[test]
fn a_clock_stops_once_it_is_to(rt: HostRuntime) -> Result<(), AllocError> {
    let bell = Bell::new(rt.alloc());
    let mut clock = HostClock::new(&rt, &bell).twin(rt.alloc())?;
    is_send(&clock);
    // The first day of 2024.
    assert!(rt; clock.now() > 1_704_067_200);
    assert_eq!(rt; clock.rest(false), Rest::Go);
    assert_eq!(rt; bell.count(&rt), 1);
    assert_eq!(rt; clock.rest(true), Rest::Go);
    bell.stop(&rt);
    assert_eq!(rt; clock.rest(true), Rest::Stop);
    Ok(())
}

#[test]
fn a_bell_that_rang_ends_a_wait(rt: HostRuntime) {
    let bell = Bell::new(rt.alloc());
    let day = Duration::from_secs(86_400);
    assert_eq!(rt; bell.wait(&rt, 0, Duration::from_millis(1)), 0);
    assert_eq!(rt; bell.ring(&rt), 1);
    assert_eq!(rt; bell.wait(&rt, 0, day), 1);
}

#[test]
fn a_notify_is_taken_by_a_reply_with_no_error(rt: HostRuntime) {
    assert!(rt; takes_notify(TAKEN));
    // A NOTIFY, a reply with an error, and the reply to a query.
    assert!(rt; !takes_notify(b"\x12\x34\x24\x00"));
    assert!(rt; !takes_notify(b"\x12\x34\xa4\x05"));
    assert!(rt; !takes_notify(b"\x12\x34\x84\x00"));
    assert!(rt; !takes_notify(b"\x12\x34\xa4"));
}

#[test]
fn a_request_for_a_zone_is_told_by_its_type(rt: HostRuntime) {
    let zone = b"\x00\x13\0\x90\0\0\0\x01\0\0\0\0\0\0\x01a\0\0\xfc\0\x01";
    assert!(rt; asks_for_zone(zone));
    // The same for an SOA, and without its type.
    let soa = b"\x00\x13\0\x90\0\0\0\x01\0\0\0\0\0\0\x01a\0\0\x06\0\x01";
    assert!(rt; !asks_for_zone(soa));
    assert!(rt; !asks_for_zone(b"\x00\x0f\0\x90\0\0\0\x01\0\0\0\0\0\0\x01a\0"));
}

#[test]
fn the_mask_of_pending_signals_is_read(rt: HostRuntime) {
    let status = b"Name:\tcatzd\nShdPnd:\t0000000000004001\nSigBlk:\tffffffffffffffff\n";
    assert_eq!(rt; mask_of(status), Some(0x4001));
    assert_eq!(rt; mask_of(b"Name:\tcatzd\n"), None);
    // The line is cut.
    assert_eq!(rt; mask_of(b"ShdPnd:\t00000000"), None);
}

#[test]
fn an_answer_is_counted_by_its_code_and_its_tc(rt: HostRuntime) {
    let mut tally = Tally::new();
    tally.ask();
    // A response with TC and the code 3, a name error (RFC 1035 section 4.1.1).
    tally.answer(b"\x12\x34\x82\x03");
    assert_eq!(rt;
        (tally.requests, tally.nxdomain, tally.truncated),
        (1, 1, 1)
    );
}

#[test]
fn of_an_answer_the_first_message_counts(rt: HostRuntime) {
    let mut tally = Tally::new();
    tally.ask();
    tally.answer(b"\x12\x34\x84\x05");
    tally.answer(b"\x12\x34\x84\x00");
    assert_eq!(rt; (tally.noerror, tally.refused, tally.truncated), (0, 1, 0));
}

/// Messages, each of another number.
fn some_messages() -> Tally {
    let mut tally = Tally::new();
    tally.requests = 9;
    tally.noerror = 10;
    tally.nxdomain = 11;
    tally.servfail = 12;
    tally.refused = 13;
    tally.formerr = 14;
    tally.notimp = 15;
    tally.other = 16;
    tally.truncated = 17;
    tally
}

/// Figures, each of another number, with five open connections.
fn some_figures() -> Numbers {
    Numbers {
        uptime: 1,
        udp: 2,
        tally: some_messages(),
        guests: Guests {
            taken: 25,
            ended: 20,
            idle: 21,
            crowded: 22,
            address: 23,
            unread: 24,
        },
        notifies: 30,
        paced: 31,
        dropped: 32,
        dials: 33,
        failed: 34,
        memory: 35,
    }
}

/// The line of them.
const FIGURES: &str =
    "figures, uptime 1 s, udp 2 tcp 7, noerror 10 nxdomain 11 servfail 12 refused 13 formerr 14 notimp 15 \
    other 16, truncated 17, connections 5 taken 25 idle 21 crowded 22 address 23 unread 24, notifies 30 paced 31 \
    dropped 32, dials 33 failed 34, memory 35 kB";

#[test]
fn the_line_of_figures_has_each_number(rt: HostRuntime) -> Result<(), AllocError> {
    let numbers = some_figures();
    let line = format!(in rt.alloc(); "{numbers}")?;
    assert_eq!(rt; line.as_str(), FIGURES);
    Ok(())
}

#[test]
fn a_period_of_figures_has_a_second_to_a_day(rt: HostRuntime) {
    assert_eq!(rt;
        (period_of("1"), period_of("86400")),
        (Some(1), Some(86_400))
    );
    assert_eq!(rt;
        (period_of("0"), period_of("86401"), period_of("1s")),
        (None, None, None)
    );
}

#[test]
fn the_second_number_of_statm_is_what_is_resident(rt: HostRuntime) {
    assert_eq!(rt; resident_in(b"9012 345 67 8 0 9 0\n"), 345);
}

/// The most octets of a frame in these tests.
const FRAME: usize = 64;

/// A client of an acceptor.
fn client<R: Net<Stream = TcpStream> + Abort>(rt: &R, here: &Peer) -> TcpStream {
    let address = SocketAddr::from((here.address, here.port));
    match TcpStream::connect(rt, address) {
        Ok(stream) => stream,
        Err(error) => panic!(rt; "{error}"),
    }
}

/// Writes octets to a connection.
fn write<R: Abort>(rt: &R, stream: &mut TcpStream, octets: &[u8]) {
    assert!(rt; stream.set_nodelay(true).is_ok());
    assert!(rt; stream.write_all(octets).is_ok());
}

/// Whether these octets come next.
fn come_next(stream: &mut TcpStream, octets: &[u8]) -> bool {
    let mut buffer = [0; FRAME];
    let Some(room) = buffer.get_mut(..octets.len()) else {
        return false;
    };
    stream.read_exact(room).is_ok() && *room == *octets
}

/// The next turn, in which these octets come, and then no more.
fn turn<'a, R: std::time::Clock + Eprint + Files<File = File> + Wait + Abort>(
    rt: &R,
    acceptor: &mut TcpAcceptor<'a, R>,
    octets: &[u8],
) -> Turn
    requires { acceptor.old.out ≡ None }
    ensures { IsSome acceptor.new.out }
{
    let Ok(Accepted::One(mut turn, _)) = acceptor.accept() else {
        panic!(rt; "no turn");
    };
    let mut buffer = [0; FRAME];
    let mut came = 0_usize;
    'reads: for _ in 0..FRAME {
        let room = buffer.get_mut(came..).unwrap_or(&mut []);
        if room.is_empty() {
            break;
        }
        match turn.read(room) {
            Ok(0) => break,
            Ok(count) => came = came.saturating_add(count),
            Err(error) => panic!(rt; "{error:?}"),
        }
    }
    assert_eq!(rt; buffer.get(..came).unwrap_or(&[]), octets);
    turn
}

/// A client whose frame is cut, and one beside it.
#[derive(Drop)]
struct Clients {
    cut: TcpStream,
    whole: TcpStream,
}

/// The client beside has its turn while the other's frame is cut here, and that has its own once the rest has come.
fn serve_both<'a, R: std::time::Clock + Eprint + Files<File = File> + Wait + Abort>(
    rt: &R,
    acceptor: &mut TcpAcceptor<'a, R>,
    clients: &mut Clients,
    at: usize,
)
    requires { acceptor.old.out ≡ None }
    ensures { acceptor.new.out ≡ None }
{
    let frame = b"\x00\x03abc".as_slice();
    write(rt, &mut clients.cut, frame.get(..at).unwrap_or(&[]));
    write(rt, &mut clients.whole, b"\x00\x01x\x00\x00");
    let mut beside = turn(rt, acceptor, b"\x00\x01x\x00\x00");
    assert_eq!(rt; beside.write(b"\x00\x01y"), Ok(()));
    acceptor.done(beside);
    assert!(rt; come_next(&mut clients.whole, b"\x00\x01y"));
    write(rt, &mut clients.cut, frame.get(at..).unwrap_or(&[]));
    let whole = turn(rt, acceptor, frame);
    acceptor.done(whole);
}

#[test]
fn a_frame_that_is_cut_waits_and_holds_up_nobody(rt: HostRuntime) -> Result<(), AllocError> {
    let bell = Bell::new(rt.alloc());
    let mut ports = HostPorts::new(&rt, rt.alloc(), &bell);
    let Ok(mut acceptor) = ports.open_acceptor(&ANY, 0) else {
        panic!(rt; "not opened");
    };
    let here = port_of(&rt, acceptor.turns.listener.local_addr());
    let mut clients = Clients {
        cut: client(&rt, &here),
        whole: client(&rt, &here),
    };
    serve_both(&rt, &mut acceptor, &mut clients, 0);
    serve_both(&rt, &mut acceptor, &mut clients, 1);
    serve_both(&rt, &mut acceptor, &mut clients, 2);
    serve_both(&rt, &mut acceptor, &mut clients, 4);
    ports.close_acceptor(acceptor);
    Ok(())
}

#[test]
fn a_client_that_sends_no_more_gets_its_replies(rt: HostRuntime) -> Result<(), AllocError> {
    let bell = Bell::new(rt.alloc());
    let mut ports = HostPorts::new(&rt, rt.alloc(), &bell);
    let Ok(mut acceptor) = ports.open_acceptor(&ANY, 0) else {
        panic!(rt; "not opened");
    };
    let here = port_of(&rt, acceptor.turns.listener.local_addr());
    let mut caller = client(&rt, &here);
    write(&rt, &mut caller, b"\x00\x01a\x00\x01b\x00");
    assert!(rt; caller.shutdown(Shutdown::Write).is_ok());
    let mut link = turn(&rt, &mut acceptor, b"\x00\x01a\x00\x01b");
    assert_eq!(rt; link.write(b"\x00\x01c"), Ok(()));
    assert_eq!(rt; link.write(b"\x00\x01d"), Ok(()));
    acceptor.done(link);
    assert!(rt; come_next(&mut caller, b"\x00\x01c\x00\x01d"));
    bell.stop(&rt);
    assert!(rt; matches!(acceptor.accept(), Ok(Accepted::Closed)));
    ports.close_acceptor(acceptor);
    Ok(())
}

#[test]
fn the_reply_to_a_notify_rings(rt: HostRuntime) -> Result<(), AllocError> {
    let bell = Bell::new(rt.alloc());
    let mut ports = HostPorts::new(&rt, rt.alloc(), &bell);
    let Ok(acceptor) = ports.open_acceptor(&ANY, 0) else {
        panic!(rt; "not opened");
    };
    let Ok(mut other) = ports.open_acceptor(&ANY, 1) else {
        panic!(rt; "not opened");
    };
    let here = port_of(&rt, acceptor.turns.listener.local_addr());
    let mut caller = client(&rt, &here);
    write(&rt, &mut caller, b"\x00\x01n");
    let mut link = turn(&rt, &mut other, b"\x00\x01n");
    let mut reply = [0; 6];
    reply[1] = 4;
    reply[2..].copy_from_slice(TAKEN);
    assert_eq!(rt; link.write(&reply), Ok(()));
    assert_eq!(rt; bell.count(&rt), 0);
    other.done(link);
    assert_eq!(rt; bell.count(&rt), 1);
    assert!(rt; come_next(&mut caller, &reply));
    ports.close_acceptor(other);
    ports.close_acceptor(acceptor);
    Ok(())
}

/// A turn of the client, in which it has an answer.
fn serve<'a, R: std::time::Clock + Eprint + Files<File = File> + Wait + Abort>(
    rt: &R,
    acceptor: &mut TcpAcceptor<'a, R>,
    client: &mut TcpStream,
)
    requires { acceptor.old.out ≡ None }
    ensures { acceptor.new.out ≡ None }
{
    write(rt, client, b"\x00\x01q");
    let mut link = turn(rt, acceptor, b"\x00\x01q");
    assert_eq!(rt; link.write(b"\x00\x01a"), Ok(()));
    acceptor.done(link);
    assert!(rt; come_next(client, b"\x00\x01a"));
}

#[test]
fn replies_past_what_may_wait_end_their_connection_alone(
    rt: HostRuntime,
) -> Result<(), AllocError> {
    let bell = Bell::new(rt.alloc());
    let mut ports = HostPorts::new(&rt, rt.alloc(), &bell);
    let Ok(mut acceptor) = ports.open_acceptor(&ANY, 0) else {
        panic!(rt; "not opened");
    };
    let here = port_of(&rt, acceptor.turns.listener.local_addr());
    let mut greedy = client(&rt, &here);
    let mut other = client(&rt, &here);
    write(&rt, &mut greedy, b"\x00\x01z");
    let mut link = turn(&rt, &mut acceptor, b"\x00\x01z");
    let mut beside = Waiting::new();
    beside.add(WAITING_OCTETS - 3);
    link.buffers.replies.begin(beside);
    assert_eq!(rt; link.write(b"\x00\x01a"), Ok(()));
    assert_eq!(rt; link.write(b"\x00\x01b"), Err(Failed));
    acceptor.done(link);
    assert!(rt; matches!(greedy.read(&mut [0; 1]), Ok(0)));
    serve(&rt, &mut acceptor, &mut other);
    ports.close_acceptor(acceptor);
    Ok(())
}

/// A client that doesn't read at first, and one beside it.
#[derive(Drop)]
struct Readers {
    slow: TcpStream,
    other: TcpStream,
}

/// Whether these octets come to the slow client, while the other is served.
fn comes_beside<'a, R: std::time::Clock + Eprint + Files<File = File> + Wait + Abort>(
    rt: &R,
    acceptor: &mut TcpAcceptor<'a, R>,
    clients: &mut Readers,
    octets: &[u8],
    buffer: &mut [u8],
) -> bool
    requires { acceptor.old.out ≡ None }
    ensures { acceptor.new.out ≡ None }
{
    let mut rest = octets;
    'reads: for _ in 0..octets.len() {
        if rest.is_empty() {
            break;
        }
        serve(rt, acceptor, &mut clients.other);
        let count = clients.slow.read(buffer).unwrap_or(0);
        match rest.strip_prefix(buffer.get(..count).unwrap_or(&[])) {
            Some(left) if count > 0 => rest = left,
            _ => return false,
        }
    }
    rest.is_empty()
}

#[test]
fn what_a_reader_does_not_take_waits_and_comes_whole(rt: HostRuntime) -> Result<(), AllocError> {
    let bell = Bell::new(rt.alloc());
    let mut ports = HostPorts::new(&rt, rt.alloc(), &bell);
    let Ok(mut acceptor) = ports.open_acceptor(&ANY, 0) else {
        panic!(rt; "not opened");
    };
    let here = port_of(&rt, acceptor.turns.listener.local_addr());
    let mut clients = Readers {
        slow: client(&rt, &here),
        other: client(&rt, &here),
    };
    let mut octets = Vec::new(rt.alloc());
    'marks: for mark in 0..=255_u8 {
        octets.extend_from_slice(&[mark; 32_768])?;
    }
    write(&rt, &mut clients.slow, b"\x00\x01z");
    let mut link = turn(&rt, &mut acceptor, b"\x00\x01z");
    assert_eq!(rt; link.write(&octets), Ok(()));
    acceptor.done(link);
    assert!(rt; !acceptor.turns.crowd.waiting().has_room(WAITING_OCTETS));
    let mut buffer = vec![in rt.alloc(); 0_u8; 65_536]?;
    assert!(rt; comes_beside(&rt, &mut acceptor, &mut clients, &octets, &mut buffer));
    assert!(rt; acceptor.turns.crowd.waiting().has_room(WAITING_OCTETS));
    ports.close_acceptor(acceptor);
    Ok(())
}
