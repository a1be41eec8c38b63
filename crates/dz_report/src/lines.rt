//! Lines of one event.

ghost use Rattle.std.specs.Prelude.{◌≡◌, ◌≤◌, ◌+◌, length, codes, decimal, option_map};
ghost use Rattle.dz_job.specs.Job.{serial_in};
ghost use Rattle.dz_report.specs.Lines.{also, ask_text, peer_text, job_line, failure_line, notify_line, heard_word};

use crate::line::LogLine;
use dz_io::Peer;
use dz_job::{Failure, Job};
use dz_name::Name;
use dz_notify::Heard;
use dz_take::Ask;
use dz_zone::Version;
use itoa::Buffer;
use std::sync::Arc;

/// `job <ticket> <zone> axfr id <id> at <peer>`, and for differences `ixfr <serial>`, that of the version that is held.
pub fn job_line(job: &Job) -> LogLine
    ensures { result ≡ job_line job.now }
{
    let mut line = LogLine::begin(b"job");
    line.also_number(job.ticket());
    line.also_name(job.zone());
    put_ask(&mut line, job);
    line.also(b"id");
    put_id(&mut line, job.id());
    line.also(b"at");
    put_peer(&mut line, job.primary());
    line.end();
    line
}

/// `failed <zone>`, or `stale <zone> <position>`.
pub fn failure_line(zone: &Name, failure: &Failure) -> LogLine
    ensures { result ≡ failure_line zone.now failure.now }
{
    let mut line = match failure {
        Failure::Failed => LogLine::begin(b"failed"),
        Failure::Stale(_) => LogLine::begin(b"stale"),
    };
    line.also_name(zone);
    if let Failure::Stale(position) = failure {
        line.also_number(*position);
    }
    line.end();
    line
}

/// `notify <zone>` and how it is heard: `taken`, `stranger` or `not-ours`.
pub fn notify_line(zone: &Name, heard: &Heard) -> LogLine
    ensures { result ≡ notify_line zone.now heard.now }
{
    let mut line = LogLine::begin(b"notify");
    line.also_name(zone);
    line.also(heard_word(*heard));
    line.end();
    line
}

/// The word for how a NOTIFY is heard.
fn heard_word(heard: Heard) -> &'static [u8]
    ensures word { result.now ≡ heard_word heard }
    ensures short { length result.now ≤ 8 }
{
    match heard {
        Heard::Taken => b"taken",
        Heard::Stranger => b"stranger",
        Heard::NotOurs => b"not-ours",
    }
}

/// Puts what is asked for.
fn put_ask(line: &mut LogLine, job: &Job)
    requires { length line.old ≤ 1049 }
    ensures line { line.new ≡ also line.old (ask_text job.now.flight.ask job.now.held) }
    ensures size { length line.new ≤ length line.old + 16 }
{
    match job.ask() {
        Ask::Axfr => line.also(b"axfr"),
        Ask::Ixfr => put_serial(line, serial_of(job.held())),
    }
}

/// Puts the words for differences from a serial.
fn put_serial(line: &mut LogLine, serial: u32)
    requires { length line.old ≤ 1049 }
    ensures line { line.new ≡ also line.old (also (codes "ixfr") (decimal serial)) }
    ensures size { length line.new ≤ length line.old + 16 }
{
    let mut digits = Buffer::new();
    line.also(b"ixfr");
    line.also(digits.format(serial).as_bytes());
}

/// The serial of a version that is held.
fn serial_of(held: Option<&Arc<Version>>) -> u32
    ensures { result ≡ serial_in (option_map (λ r. r.now.value) held.entry) }
{
    match held {
        None => 0,
        Some(version) => version.soa().serial,
    }
}

/// Puts the ID of a query.
fn put_id(line: &mut LogLine, id: u16)
    requires { length line.old ≤ 1068 }
    ensures line { line.new ≡ also line.old (decimal id) }
    ensures size { length line.new ≤ length line.old + 6 }
{
    let mut digits = Buffer::new();
    line.also(digits.format(id).as_bytes());
}

/// Puts a peer.
fn put_peer(line: &mut LogLine, peer: &Peer)
    requires { length line.old ≤ 1077 }
    ensures line { line.new ≡ also line.old (peer_text peer.now) }
    ensures size { length line.new ≤ length line.old + 22 }
{
    let text = peer_text(peer);
    line.also(text.as_slice());
}

/// `a.b.c.d:port`.
fn peer_text(peer: &Peer) -> LogLine
    ensures text { result ≡ peer_text peer.now }
    ensures size { length result ≤ 21 }
{
    let mut digits = Buffer::new();
    let mut text = LogLine::begin(digits.format(peer.address[0]).as_bytes());
    text.octet(peer.address[1]);
    text.octet(peer.address[2]);
    text.octet(peer.address[3]);
    text.behind(b':', peer.port);
    text
}
