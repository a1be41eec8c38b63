//! The lines on standard error that tell what a server does: its figures, which versions expired, where it can't
//! listen, which device has failed, and that it stops.
use crate::Bell;
use crate::address::socket_address;
use crate::figures::Numbers;
use crate::kind::Kind;
use crate::work::has_errors_room;
use dz_io::Peer;
use std::alloc::Alloc;
use std::env::{Env, VarError};
use std::fs::{File, Files};
use std::io::Eprint;
use std::os::unix::fs::FileExt;
use std::sync::Wait;
use std::time::{Clock, Duration};
use std::{env, io, str};

/// The variable of the environment with the seconds between two lines of figures.
const STATS: &str = "CATZD_STATS";

/// The most of such seconds: a day.
const DAY: u64 = 86_400;

/// What is told where that variable has another value.
const NO_STATS: &str = "catzd: CATZD_STATS: no number of seconds from 1 to 86400, so no figures";

/// How many octets of /proc/self/statm are read: seven numbers of at most 20 digits.
const STATM_OCTETS: usize = 160;

/// How many units of 1,024 octets a page of memory has.
const PAGE_KILOS: u64 = 4;

impl Bell {
    /// Has figures written as often as the environment asks for, from now on. Where it asks for them by another value
    /// than a number of seconds from 1 to 86,400, that is told, and none are written.
    pub fn begin_figures<R: Env + Alloc + Eprint + Clock>(&self, rt: &R) {
        let period = match env::var(rt, STATS) {
            Ok(value) => period_of(value.as_str()),
            Err(VarError::NotPresent) => return,
            Err(_) => None,
        };
        match period {
            Some(period) => self.figures.begin(second_of(rt), period),
            None => {
                let _ = rt.eprintln(NO_STATS);
            }
        }
    }
}

/// The seconds between two lines that a value asks for; none where it is wrong.
pub(crate) fn period_of(value: &str) -> Option<u64> {
    match value.parse::<u64>() {
        Ok(seconds) if seconds > 0 && seconds <= DAY => Some(seconds),
        _ => None,
    }
}

/// The second since the host began; zero where it doesn't tell.
fn second_of<R: Clock>(rt: &R) -> u64 {
    rt.monotonic().unwrap_or(Duration::ZERO).as_secs()
}

/// Writes the line of figures, where one is due in this second. It is left out where standard error has no room for it.
pub(crate) fn tell_figures<R: Eprint + Files<File = File>>(rt: &R, bell: &Bell, second: u64) {
    if bell.figures.is_due(second) && has_errors_room() {
        let numbers = numbers_of(rt, bell, second);
        let _ = rt.eprintln(format_args!("catzd: {numbers}"));
    }
}

/// Tells of zones whose versions have expired before this second, once each. It is put off where standard error has no
/// room.
pub(crate) fn tell_expired<R: Eprint + Wait>(rt: &R, bell: &Bell, second: u64) {
    if !has_errors_room() {
        return;
    }
    'zones: for text in bell.expiries.expired(rt, second) {
        if let Ok(zone) = str::from_utf8(&text) {
            let _ = rt.eprintln(format_args!("catzd: {zone}: expired"));
        }
    }
}

/// What was opened at an address; none where the system has refused it, which is told.
pub(crate) fn tell_refused<R: Eprint, T: Drop>(
    rt: &R,
    name: &str,
    listen: &Peer,
    opened: io::Result<T>,
) -> Option<T> {
    match opened {
        Ok(device) => Some(device),
        Err(error) => {
            let at = socket_address(listen);
            let _ = rt.eprintln(format_args!("catzd: {name}: can't listen at {at}: {error}"));
            None
        }
    }
}

/// Tells that a device of a kind has failed for good, and whether it was the last.
pub(crate) fn tell_lost<R: Eprint>(rt: &R, kind: &Kind, is_last: bool) {
    let name = kind.name;
    let left = if is_last { ", none is left" } else { "" };
    let _ = rt.eprintln(format_args!("catzd: {name}: a socket has failed for good{left}"));
}

/// Tells once that the server stops.
pub(crate) fn tell_stop<R: Eprint>(rt: &R, bell: &Bell) {
    if bell.figures.may_tell_stop() && has_errors_room() {
        let _ = rt.eprintln("catzd: stopping");
    }
}

/// All numbers of a line.
fn numbers_of<R: Files<File = File>>(rt: &R, bell: &Bell, second: u64) -> Numbers {
    let mut numbers = bell.figures.numbers(second);
    bell.notifies.fates.put_in(&mut numbers);
    numbers.memory = memory(rt);
    numbers
}

/// The resident memory of this process, in units of 1,024 octets; zero where the system doesn't tell.
fn memory<R: Files<File = File>>(rt: &R) -> u64 {
    let mut buffer = [0; STATM_OCTETS];
    let Ok(file) = File::open(rt, "/proc/self/statm") else {
        return 0;
    };
    match file.read_at(&mut buffer, 0) {
        Ok(count) => resident_in(buffer.get(..count).unwrap_or(&[])).saturating_mul(PAGE_KILOS),
        Err(_) => 0,
    }
}

/// The second number of a line, which is how many pages are resident (proc(5)); the only one, or zero, where there are
/// fewer.
pub(crate) fn resident_in(line: &[u8]) -> u64 {
    let mut words = 0_u64;
    let mut number = 0_u64;
    'octets: for octet in line {
        match octet {
            b'0'..=b'9' => {
                number = number
                    .saturating_mul(10)
                    .saturating_add((octet - b'0') as u64);
            }
            _ if words > 0 => break,
            _ => {
                words = 1;
                number = 0;
            }
        }
    }
    number
}
