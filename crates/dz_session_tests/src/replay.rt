//! `replay` over texts in memory: bad lines, a source and a sink that fail, a stream that is cut, and what a reading shows
//! of it. What else `replay` writes is in the stored run of `dz_stories`.

use crate::desks::{end, open};
use dz_desk::Desk;
use dz_header::{ReplyBuffer, Transport};
use dz_io::{MemorySink, MemorySource};
use dz_query::{Turn, answer_one};
use dz_run::{Ended, Ends, Played, Status, replay, run_replay};
use std::alloc::{AllocError, Global};
use std::marker::Brand;
use std::process::Abort;
use std::sync::Wait;
use std::sync::ledger::Blank;
use std::test::*;

/// A catalog lists `example.`, whose version 5 is held; its TTL and another address then come by differences.
const SCRIPT: &[&[u8]] = &[
    b"catalog cat1.example. off 192.0.2.1",
    b"1000 job",
    b"1000 take 1 01170001840000010005000000000463617431076578616d706c650000fc00010463617431076578616d706c65000006000100000e10002e026e7307696e76616c69640004686f737407696e76616c69640000000001000000640000003c000002580000001e0463617431076578616d706c65000002000100000e10000907696e76616c6964000776657273696f6e0463617431076578616d706c6500001000010000000000020132026d31057a6f6e65730463617431076578616d706c6500000c000100000e100009076578616d706c65000463617431076578616d706c65000006000100000e10002e026e7307696e76616c69640004686f737407696e76616c69640000000001000000640000003c000002580000001e",
    b"1000 job",
    b"1000 take 2 00d5000284000001000400000000076578616d706c650000fc0001076578616d706c65000006000100000e10002e026e7307696e76616c69640004686f737407696e76616c69640000000005000000640000003c000002580000001e076578616d706c65000002000100000e10000c026e7307696e76616c69640003777777076578616d706c65000001000100000e100004c0000250076578616d706c65000006000100000e10002e026e7307696e76616c69640004686f737407696e76616c69640000000005000000640000003c000002580000001e",
    b"1100 job",
    b"1100 job",
    b"1100 take 4 01f1000484000001000900000000076578616d706c650000fb0001076578616d706c65000006000100000e10002e026e7307696e76616c69640004686f737407696e76616c69640000000007000000640000003c000002580000001e076578616d706c65000006000100000e10002e026e7307696e76616c69640004686f737407696e76616c69640000000005000000640000003c000002580000001e03777777076578616d706c65000001000100000e100004c0000250076578616d706c65000006000100000e10002e026e7307696e76616c69640004686f737407696e76616c69640000000006000000640000003c000002580000001e03777777076578616d706c6500000100010000003c0004c0000250076578616d706c65000006000100000e10002e026e7307696e76616c69640004686f737407696e76616c69640000000006000000640000003c000002580000001e076578616d706c65000006000100000e10002e026e7307696e76616c69640004686f737407696e76616c69640000000007000000640000003c000002580000001e046d61696c076578616d706c65000001000100000e100004c0000219076578616d706c65000006000100000e10002e026e7307696e76616c69640004686f737407696e76616c69640000000007000000640000003c000002580000001e",
];

/// A catalog that is refreshed after 1,000,000 seconds lists `example.`.
const LISTING: &[&[u8]] = &[
    b"catalog cat1.example. off 192.0.2.1",
    b"1000 job",
    b"1000 take 1 01170001840000010005000000000463617431076578616d706c650000fc00010463617431076578616d706c65000006000100000e10002e026e7307696e76616c69640004686f737407696e76616c69640000000001000f42400000003c000002580000001e0463617431076578616d706c65000002000100000e10000907696e76616c6964000776657273696f6e0463617431076578616d706c6500001000010000000000020132026d31057a6f6e65730463617431076578616d706c6500000c000100000e100009076578616d706c65000463617431076578616d706c65000006000100000e10002e026e7307696e76616c69640004686f737407696e76616c69640000000001000f42400000003c000002580000001e",
];

/// ID 0030: the address of `www.example.`.
const QUERY: &[u8] =
    b"\x00\x30\x00\x00\x00\x01\x00\x00\x00\x00\x00\x00\x03www\x07example\x00\x00\x01\x00\x01";

/// Its reply, in hex.
const REPLY: &[u8] =
    b"00308400000100010000000003777777076578616d706c650000010001c00c000100010000003c0004c0000250";

/// What the catalog's first transfer writes.
const LISTED: &[u8] = b"job 1 cat1.example. axfr id 1 at 192.0.2.1:53\n\
    published 1 cat1.example. 1\n\
    added example. cat1.example.\n";

/// What it shows, a line after the listing, the calls of the source and of the sink that fail, the status,
/// and what is written after the lines of the listing; none where nothing is written.
type Case = (
    &'static str,
    &'static [u8],
    (&'static [u64], &'static [u64]),
    Status,
    Option<&'static [u8]>,
);

const CASES: &[Case] = &[
    ("no event", b"", (&[], &[]), Status::Done, Some(b"")),
    (
        "a word",
        b"1000 jump",
        (&[], &[]),
        Status::BadInput,
        Some(b"bad 4\n"),
    ),
    (
        "an odd number of digits",
        b"1000 udp 192.0.2.1 abc",
        (&[], &[]),
        Status::BadInput,
        Some(b"bad 4\n"),
    ),
    (
        "a ticket that is spent",
        b"1000 fail 1",
        (&[], &[]),
        Status::BadInput,
        Some(b"bad 4\n"),
    ),
    ("the first read", b"", (&[0], &[]), Status::ReadFault, None),
    (
        "the first write",
        b"",
        (&[], &[0]),
        Status::WriteFault,
        None,
    ),
];

/// Replays a text, of whose calls these fail: how it ended, and the output.
fn play<R: Abort + Wait>(
    rt: &R,
    alloc: Global,
    text: Vec<u8>,
    failing: (&[u64], &[u64]),
) -> Result<(Status, MemorySink), AllocError> {
    let mut source = MemorySource::new(text, failing.0.to_vec(alloc)?);
    let sink = MemorySink::new(alloc, failing.1.to_vec(alloc)?);
    let desk = open(rt, alloc);
    let Ended {
        status,
        output,
        desk,
    } = run_replay(rt, alloc, &mut source, sink, desk);
    end(rt, desk);
    Ok((status, output))
}

/// That a run ended so, and wrote this.
fn expect_text(rt: &impl Abort, case: &str, found: (Status, &[u8]), wanted: (Status, &[u8])) {
    assert_eq!(rt; found.0, wanted.0, "{case}");
    assert!(rt; found.1 == wanted.1, "{case}");
}

/// The lines, each with its newline.
fn text_of(alloc: Global, lines: &[&[u8]]) -> Result<Vec<u8>, AllocError> {
    let mut text = Vec::new(alloc);
    'lines: for line in lines {
        text.extend_from_slice(line)?;
        text.push(b'\n')?;
    }
    Ok(text)
}

/// The lines that list `example.`, and then this.
fn listing_and(alloc: Global, more: &[u8]) -> Result<Vec<u8>, AllocError> {
    let mut text = text_of(alloc, LISTING)?;
    text.extend_from_slice(more)?;
    Ok(text)
}

/// That a case ends as it says.
fn expect_case<R: Abort + Wait>(rt: &R, alloc: Global, case: &Case) -> Result<(), AllocError> {
    let (what, line, failing, status, written) = *case;
    let (found, output) = play(rt, alloc, listing_and(alloc, line)?, failing)?;
    let mut wanted = Vec::new(alloc);
    if let Some(more) = written {
        wanted.extend_from_slice(LISTED)?;
        wanted.extend_from_slice(more)?;
    }
    expect_text(rt, what, (found, output.written()), (status, &wanted));
    Ok(())
}

#[test]
fn bad_lines_and_failed_calls_end_a_replay(rt: HostRuntime) -> Result<(), AllocError> {
    let alloc = rt.alloc();
    for case in CASES {
        expect_case(&rt, alloc, case)?;
    }
    let (status, output) = play(&rt, alloc, Vec::new(alloc), (&[], &[]))?;
    expect_text(
        &rt,
        "empty",
        (status, output.written()),
        (Status::BadInput, b"bad 1\n"),
    );
    Ok(())
}

/// `example.` with serial 5 in three messages of 121, 39 and 77 octets, each after its length, with ID 0.
const STREAM: &[u8] =
    b"\0y\0\0\x84\0\0\x01\0\x02\0\0\0\0\x07example\0\0\xfc\0\x01\x07example\0\0\x06\0\x01\
    \0\0\x0e\x10\0.\x02ns\x07invalid\0\x04host\x07invalid\0\0\0\0\x05\0\0\0d\0\0\0<\0\
    \0\x02X\0\0\0\x1e\x07example\0\0\x02\0\x01\0\0\x0e\x10\0\x0c\x02ns\x07invalid\0\0\
    '\0\0\x84\0\0\0\0\x01\0\0\0\0\x03www\x07example\0\0\x01\0\x01\0\0\x0e\x10\0\x04\xc0\
    \0\x02P\0M\0\0\x84\0\0\0\0\x01\0\0\0\0\x07example\0\0\x06\0\x01\0\0\x0e\x10\0.\x02\
    ns\x07invalid\0\x04host\x07invalid\0\0\0\0\x05\0\0\0d\0\0\0<\0\0\x02X\0\0\0\x1e";

/// Where the last octets of its IDs are.
const IDS: [usize; 3] = [3, 126, 167];

/// The first octets of the stream, with this ID, in hex.
fn cut(alloc: Global, count: usize, id: u8) -> Result<String, AllocError> {
    let mut octets = STREAM.to_vec(alloc)?;
    'messages: for at in IDS {
        if let Some(octet) = octets.get_mut(at) {
            *octet = id;
        }
    }
    octets.truncate(count);
    if octets.is_empty() {
        return String::from_str(alloc, "-");
    }
    hex::encode(alloc, octets.as_slice())
}

/// A job and its stream cut after this many octets, a minute for each: the lines, and what they write.
fn push_cut(
    alloc: Global,
    script: &mut Vec<u8>,
    wanted: &mut Vec<u8>,
    count: u8,
) -> Result<(), AllocError> {
    let moment = 1000 + 60 * u64::from(count);
    let ticket = 2 + u64::from(count);
    let octets = cut(alloc, usize::from(count), count.wrapping_add(2))?;
    let lines = format!(in alloc; "{moment} job\n{moment} take {ticket} {octets}\n")?;
    script.extend_from_slice(lines.as_bytes())?;
    let job = format!(in alloc; "job {ticket} example. axfr id {ticket} at 192.0.2.1:53\n")?;
    wanted.extend_from_slice(job.as_bytes())?;
    wanted.extend_from_slice(b"refused example. incomplete\n")
}

#[test]
fn each_beginning_of_a_stream_is_incomplete(rt: HostRuntime) -> Result<(), AllocError> {
    let alloc = rt.alloc();
    let mut script = listing_and(alloc, b"")?;
    let mut wanted = Vec::from_slice(alloc, LISTED)?;
    for count in 0..243 {
        push_cut(alloc, &mut script, &mut wanted, count)?;
    }
    let (status, output) = play(&rt, alloc, script, (&[], &[]))?;
    expect_text(
        &rt,
        "cut",
        (status, output.written()),
        (Status::Done, &wanted),
    );
    Ok(())
}

/// What the reply to the query is, in hex, and what the reading shows then: entries, sights and refusals.
fn expect_reply(
    rt: &impl Abort,
    alloc: Global,
    reply: &[u8],
    seen: (u64, u64, u64),
) -> Result<(), AllocError> {
    let line = hex::encode(alloc, reply)?;
    assert_eq!(rt; (line.as_bytes(), seen), (REPLY, (4, 1, 0)));
    Ok(())
}

#[test]
fn a_reading_that_was_told_nothing_answers_by_what_replay_published(
    rt: HostRuntime,
) -> Result<(), AllocError> {
    let alloc = rt.alloc();
    let mut source = MemorySource::new(text_of(alloc, SCRIPT)?, Vec::new(alloc));
    let output = MemorySink::new(alloc, Vec::new(alloc));
    let mut buffer = ReplyBuffer::make(alloc)?;
    let Desk {
        publisher,
        mut readings,
    } = open(&rt, alloc);
    let (Some(reading), Some(mut other)) = (readings.pop(), readings.pop()) else {
        panic!(&rt; "no reading");
    };
    let ends = Ends {
        publisher,
        reading,
        output,
    };
    let Played { status: _, ends } = replay::<_, _, _, Brand>(
        &rt,
        alloc,
        &mut source,
        ends,
        Blank::new(1),
    );
    let turn = answer_one(&mut other, QUERY, 1100, Transport::Udp, &mut buffer);
    let Ends {
        publisher,
        reading: _,
        output: _,
    } = ends;
    publisher.close(&rt);
    let seen = (other.count(), other.sights(), other.refusals());
    let Some(Turn::Written(count)) = turn else {
        panic!(&rt; "no reply");
    };
    expect_reply(&rt, alloc, buffer.reply(count), seen)
}
