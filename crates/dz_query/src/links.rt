//! The sessions over the links of an acceptor.

ghost use Rattle.std.specs.Prelude.{◌≡◌, ◌≤◌, ◌||◌, false, None, length};
ghost use mathlib.Core.List.{IsPrefix};
ghost use Rattle.dz_query.specs.Links.{links_told, has_starved, starved_at, unheard_at, AreVisits, AcceptsUntil};
ghost use Rattle.dz_query.specs.Served.{excused};

use crate::stream::{StreamEnd, serve_stream_outward};
use dz_desk::{Ear, Reading};
use dz_header::ReplyBuffer;
use dz_io::{Accepted, Acceptor, Clock, Failed};
use std::sync::Wait;

/// Why no further link is served.
#[derive(Clone, Copy, Debug, PartialEq, Eq)]
pub enum LinksEnd {
    /// The acceptor said that no further link comes; `starved` tells whether a link ran out of memory, and `unheard`
    /// whether a NOTIFY got no reply since the log could not be written.
    Closed { starved: bool, unheard: bool },
    /// The acceptor failed; `starved` and `unheard` tell the same.
    Failed { starved: bool, unheard: bool },
}

/// Serves the links of an acceptor, one after the other, until it closes or fails. Each is served as by
/// `serve_stream_outward`, and then given back. It takes no other memory, and may wait forever. The publisher has to
/// stay open.
#[tactic(auto, using(crate::proofs::LinkLemmas::none_yet, dz_desk::proofs::PrefixLemmas::prefix_self))]
pub fn serve_links<E: Ear, A: Acceptor, C: Clock, R: Wait>(
    rt: &R,
    ear: &E,
    reading: &mut Reading,
    acceptor: &mut A,
    clock: &mut C,
    downstream: &[[u8; 4]],
    buffer: &mut ReplyBuffer,
) -> LinksEnd
    requires out { reading.old.is_out ≡ false }
    requires own { reading.old.book ≡ E.publisher }
    requires none { A.out acceptor.old ≡ None }
    ensures seen { IsPrefix reading.old.list reading.new.list }
    ensures same { (reading.new.is_out ≡ false) × (reading.new.book ≡ reading.old.book) }
    ensures back { A.out acceptor.new ≡ None }
    ensures visits { AreVisits (starved_at result) downstream.now
        (excused (unheard_at result) E.may_fail) (C.may_give clock.old)
        (length reading.old.list) reading.new.list
        (links_told (A.links acceptor.old) reading.old.sights (C.given clock.old))
        (links_told (A.links acceptor.new) reading.new.sights (C.given clock.new)) }
    ensures until { AcceptsUntil result (A.is_closed acceptor.new) (A.faults acceptor.old)
        (A.faults acceptor.new) }
    ensures later { A.faults acceptor.old ≤ A.faults acceptor.new }
    ensures give { C.may_give clock.new ≡ C.may_give clock.old }
    ensures stop { C.may_stop clock.new ≡ C.may_stop clock.old }
{
    let mut starved = false;
    let mut unheard = false;
    'links: for _ in rt.forever() {
        match acceptor.accept() {
            Err(Failed) => return LinksEnd::Failed { starved, unheard },
            Ok(Accepted::Closed) => return LinksEnd::Closed { starved, unheard },
            Ok(Accepted::One(link, peer)) => {
                let mut link = link;
                let session = serve_stream_outward(
                    rt, ear, reading, &mut link, clock, &peer, downstream, buffer,
                );
                starved = some_starved(starved, session.end);
                unheard = either(unheard, session.unheard);
                acceptor.done(link);
            }
        }
    }
    unreachable!()
}

/// Whether one of two is so.
fn either(one: bool, other: bool) -> bool
    ensures { result ≡ (one || other) }
{
    one || other
}

/// Whether this session ran out of memory, or one before it.
fn some_starved(before: bool, end: StreamEnd) -> bool
    ensures { result ≡ (before || has_starved end) }
{
    before || has_starved(end)
}

/// Whether a session ran out of memory.
fn has_starved(end: StreamEnd) -> bool
    ensures { result ≡ has_starved end }
{
    match end {
        StreamEnd::Ended | StreamEnd::Failed => false,
        StreamEnd::OutOfMemory => true,
    }
}
