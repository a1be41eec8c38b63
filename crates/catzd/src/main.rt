//! A catalog-zone DNS secondary: the program's commands over standard input and output, sockets and the host's clock.
#![tactic(auto)]

use dz_config::{ConfigError, Kept, TEXT_OCTETS, advise, read_config};
use dz_desk::{Desk, open_desk};
use dz_edge::{Bell, HostClock, HostDisk, HostPorts, LogWriter, ReadSource, WriteSink};
use dz_io::Source;
use dz_run::{Ended, Status, exit_code, run_kept};
use dz_words::{Command, Words, read_words};
use std::alloc::{Alloc, AllocError, Global};
use std::env;
use std::env::Env;
use std::fs::{File, Files};
use std::io::{Eprint, ErrorKind, Print};
use std::process::ExitCode;
use std::sync::Wait;
use std::time::Clock;

/// How many readings the desk has: two for each kind of worker.
const READINGS: u8 = 6;

/// The file in the working folder in which `serve` keeps zones.
const STORE: &str = "catzd.store";

/// The file beside it in which it is written anew.
const NEW_STORE: &str = "catzd.store.new";

/// The variable of the environment which, where it is `1`, has `serve` check its configuration alone.
const CHECK: &str = "CATZD_CHECK";

/// The version of the program.
const VERSION: &str = "catzd 0.1";

/// Runs the command that the words ask for, and ends with its status. Where `serve` was refused its configuration,
/// advice goes to standard error, and where the words are no command, the version.
fn main(rt: HostRuntime) -> ExitCode {
    let alloc = rt.alloc();
    let Ok(words) = words_of(&rt, alloc) else {
        return exit_code(Ok(Status::NoMemory));
    };
    let is_serve = read_words(&words) == Ok(Command::Serve);
    let mut input = input_of(alloc, ReadSource::new(rt.stdin()), is_serve);
    if is_serve && is_check(&rt) {
        return exit_code(Ok(check(&rt, alloc, &mut input)));
    }
    let desk = match open_desk(&rt, alloc, READINGS) {
        Ok(desk) => desk,
        Err(error) => return exit_code(Err(error)),
    };
    let bell = bell_of(&rt, alloc, is_serve);
    let output = WriteSink::new(LogWriter::new(&rt, &bell, rt.stdout()));
    let mut ports = HostPorts::new(&rt, alloc, &bell);
    let clock = HostClock::new(&rt, &bell);
    let mut disk = disk_of(&rt, alloc, &bell, is_serve);
    let Ended {
        status,
        output: _,
        desk,
    } = run_kept(
        &rt, alloc, &words, &mut input, output, desk, &mut ports, &clock, &mut disk,
    );
    end(&rt, desk);
    match status {
        Status::Usage => tell_version(&rt),
        Status::BadInput if is_serve => tell_advice(&rt, alloc, input.text()),
        _ => {}
    }
    exit_code(Ok(status))
}

/// The words that the program was called with. Those that aren't UTF-8 are no command.
///
/// # Errors
///
/// `AllocError` if memory runs out.
fn words_of<R: Env + Alloc<A = Global>>(rt: &R, alloc: Global) -> Result<Words, AllocError> {
    let list = match env::args(rt) {
        Ok(mut args) => {
            let _program = args.next();
            args.collect(alloc)
        }
        Err(error) if error.kind() == ErrorKind::OutOfMemory => Err(AllocError),
        Err(_) => Ok(Vec::new(alloc)),
    };
    Ok(Words { list: list? })
}

/// The input, of which a configuration is kept for advice, and nothing of what other commands read.
fn input_of<S: Source + Drop>(alloc: Global, source: S, is_serve: bool) -> Kept<S> {
    if is_serve {
        Kept::new(alloc, source)
    } else {
        Kept::passing(alloc, source)
    }
}

/// Whether the environment asks for a check of the configuration alone.
fn is_check<R: Env + Alloc>(rt: &R) -> bool {
    match env::var(rt, CHECK) {
        Ok(value) => value.as_str() == "1",
        Err(_) => false,
    }
}

/// Judges the configuration, as `serve` does, without opening anything: the status, and what is wrong.
fn check<R: Print + Eprint, S: Source + Drop>(
    rt: &R,
    alloc: Global,
    input: &mut Kept<S>,
) -> Status {
    let mut count = 0_usize;
    let mut buffer = [0; 4096];
    'pieces: for _ in 0..=TEXT_OCTETS {
        match input.read(&mut buffer) {
            Ok(0) => break,
            Ok(more) => count = count.saturating_add(more),
            Err(_) => return Status::ReadFault,
        }
        if count > TEXT_OCTETS {
            break;
        }
    }
    if input.text().is_empty() && count > 0 {
        return Status::NoMemory;
    }
    match read_config(alloc, input.text()) {
        Ok(_) => Status::Done,
        Err(ConfigError::OutOfMemory) => Status::NoMemory,
        Err(ConfigError::Fault(fault)) => {
            let number = fault.number();
            let told = rt.println(format_args!("bad config {number}"));
            tell_advice(rt, alloc, input.text());
            if told.is_ok() {
                Status::BadInput
            } else {
                Status::WriteFault
            }
        }
    }
}

/// Tells on standard error what to correct in a configuration.
fn tell_advice<R: Eprint>(rt: &R, alloc: Global, text: &[u8]) {
    if let Some(advice) = advise(alloc, text) {
        let _ = rt.eprintln(format_args!("catzd: configuration, {advice}"));
    }
}

/// Tells the version on standard error.
fn tell_version<R: Eprint>(rt: &R) {
    let _ = rt.eprintln(VERSION);
}

/// The bell that all share. Where the program is to serve, it tells its version, and has figures written as the
/// environment asks.
fn bell_of<R: Env + Alloc + Eprint + Clock>(rt: &R, alloc: Global, is_server: bool) -> Bell {
    let bell = Bell::new(alloc);
    if is_server {
        tell_version(rt);
        bell.begin_figures(rt);
    }
    bell
}

/// The file in which zones are kept. Where it is to be used, it is written anew if most of it no longer counts.
fn disk_of<'a, R: Clock + Files<File = File>>(
    rt: &'a R,
    alloc: Global,
    bell: &'a Bell,
    is_used: bool,
) -> HostDisk<'a, R> {
    let mut disk = HostDisk::new(rt, bell, STORE);
    if is_used {
        disk.renew(alloc, NEW_STORE);
    }
    disk
}

/// Ends a desk.
fn end<R: Wait>(rt: &R, desk: Desk) {
    let Desk {
        publisher,
        readings: _,
    } = desk;
    publisher.close(rt);
}
