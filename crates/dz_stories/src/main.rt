//! A program for tests: `replay` over standard input and output. Its stored run has the stories and the exchanges.
#![tactic(auto)]

use dz_desk::{Desk, open_desk};
use dz_edge::{ReadSource, WriteSink};
use dz_run::{Ended, exit_code, run_replay};
use std::process::ExitCode;

/// How many readings the desk has, as that of `catzd`.
const READINGS: u8 = 6;

/// Runs `replay` and ends with its status; the desk is closed before.
fn main(rt: HostRuntime) -> ExitCode {
    let alloc = rt.alloc();
    let desk = match open_desk(&rt, alloc, READINGS) {
        Ok(desk) => desk,
        Err(error) => return exit_code(Err(error)),
    };
    let mut input = ReadSource::new(rt.stdin());
    let output = WriteSink::new(rt.stdout());
    let Ended {
        status,
        output: _,
        desk,
    } = run_replay(&rt, alloc, &mut input, output, desk);
    let Desk {
        publisher,
        readings: _,
    } = desk;
    publisher.close(&rt);
    exit_code(Ok(status))
}
