//! A job's transfer over a link, which fails or is cut at each place.

ghost use Rattle.std.specs.Prelude.{◌≡◌, None};

use crate::links::{STREAM, dialer};
use crate::names::{name, peer};
use dz_fetch::{Fetched, fetch};
use dz_io::MemoryDialer;
use dz_job::{Flight, Job};
use dz_take::{Ask, Outcome, TakeFault};
use std::alloc::{AllocError, Global};
use std::process::Abort;
use std::test::*;

/// The query with ID 2 for all of `example.`, after its length (RFC 5936 section 2.1).
const QUERY: &[u8] = b"\0\x19\0\x02\0\0\0\x01\0\0\0\0\0\0\x07example\0\0\xfc\0\x01";

/// The job that asks a primary for all of `example.`, with ID 2.
fn job(rt: &impl Abort) -> Job {
    let flight = Flight {
        ticket: 2,
        zone: name(rt, "example."),
        incarnation: 1,
        ask: Ask::Axfr,
        id: 2,
        primary: peer(1),
        moment: 1000,
        entries: 1,
    };
    Job::new(flight, None, None)
}

/// What the job fetches over the dialer.
fn fetch_over(rt: &impl Abort, alloc: Global, dialer: &mut MemoryDialer) -> Fetched
    requires { dialer.old.out ≡ None }
    ensures { dialer.new.out ≡ None }
{
    let job = job(rt);
    let fetched = fetch(alloc, dialer, &job);
    job.close();
    fetched
}

/// What a fetch comes to: a serial, a transfer that ends too early, or a fault of the link.
#[derive(Clone, Copy, Debug, PartialEq)]
enum Came {
    Serial(u32),
    Incomplete,
    LinkFault,
    Other,
}

/// What a fetch came to.
fn came_of(fetched: &Fetched) -> Came {
    match fetched {
        Fetched::Finished(finished) => match finished.outcome() {
            Outcome::New(version) => Came::Serial(version.soa().serial),
            Outcome::Refused(TakeFault::Incomplete) => Came::Incomplete,
            _ => Came::Other,
        },
        Fetched::LinkFault => Came::LinkFault,
        Fetched::OutOfMemory => Came::Other,
    }
}

/// Octets after the stream, dials and calls that fail, what the fetch comes to, and how many links come back.
type Row = (&'static [u8], &'static [u64], &'static [u64], Came, usize);

/// After the write there are six reads, of a length and a message each; a seventh would fail.
const ROWS: &[Row] = &[
    (b"\0\x01\0", &[], &[7], Came::Serial(5), 1),
    (b"", &[0], &[], Came::LinkFault, 0),
    (b"", &[], &[0], Came::LinkFault, 1),
    (b"", &[], &[1], Came::LinkFault, 1),
    (b"", &[], &[4], Came::LinkFault, 1),
];

/// That the links that came back are this many, each of the peer of the job, which was asked for the zone where its calls
/// don't fail.
fn expect_back(rt: &impl Abort, dialer: &MemoryDialer, row: &Row) {
    assert_eq!(rt; dialer.back().len(), row.4, "{row:?}");
    'links: for back in dialer.back() {
        let is_asked = back.link().written() == QUERY || row.2.starts_with(&[0]);
        assert!(rt; back.peer() == peer(1) && is_asked, "{row:?}");
    }
}

/// That a fetch is as its row says.
fn expect_row(rt: &impl Abort, alloc: Global, row: &Row) -> Result<(), AllocError> {
    let mut octets = STREAM.to_vec(alloc)?;
    octets.extend_from_slice(row.0)?;
    let mut dialer = dialer(alloc, octets, row.1, row.2)?;
    let fetched = fetch_over(rt, alloc, &mut dialer);
    assert_eq!(rt; came_of(&fetched), row.3, "{row:?}");
    expect_back(rt, &dialer, row);
    Ok(())
}

#[test]
fn each_call_that_fails_is_a_fault_of_the_link(rt: HostRuntime) -> Result<(), AllocError> {
    for row in ROWS {
        expect_row(&rt, rt.alloc(), row)?;
    }
    Ok(())
}

/// That a link that ends after this many octets gives an incomplete transfer, and no fault.
fn expect_cut(rt: &impl Abort, alloc: Global, count: usize) -> Result<(), AllocError> {
    let mut octets = STREAM.to_vec(alloc)?;
    octets.truncate(count);
    let mut dialer = dialer(alloc, octets, &[], &[])?;
    let fetched = fetch_over(rt, alloc, &mut dialer);
    let seen = (came_of(&fetched), dialer.faults());
    assert_eq!(rt; seen, (Came::Incomplete, 0), "{count}");
    Ok(())
}

#[test]
fn a_link_that_ends_too_early_gives_an_incomplete_transfer(
    rt: HostRuntime,
) -> Result<(), AllocError> {
    for count in 0..243 {
        expect_cut(&rt, rt.alloc(), count)?;
    }
    Ok(())
}
