//! The limit of a stream. What else comes of the messages of a transfer is in the stored run of `catzd`.

ghost use Rattle.std.specs.Prelude.{◌≡◌, None, OnOk};
ghost use Rattle.dz_message.specs.Frame.{messages_in};
ghost use Rattle.dz_take.specs.Outcome.{decided};

use crate::messages::{Asked, GOOD, message, push_record};
use crate::names::name;
use crate::records::soa;
use dz_name::dns::{CLASS_IN, TYPE_AXFR};
use dz_take::{Ask, Finished, Outcome, Progress, TakeFault, Taking};
use std::alloc::{AllocError, Global};
use std::process::Abort;

const AXFR: &[Asked] = &[("example.", TYPE_AXFR, CLASS_IN)];

/// That a transfer is refused for this fault.
fn expect_fault(rt: &impl Abort, case: &str, finished: &Finished, fault: TakeFault) {
    match finished.outcome() {
        Outcome::Refused(found) => assert_eq!(rt; *found, fault, "{case}"),
        other => panic!(rt; "{case}: {other:?} and not {fault:?}"),
    }
}

/// An AXFR with ID 2 and nothing held.
fn whole(rt: &impl Abort, alloc: Global) -> Taking
    ensures { decided result.transfer (messages_in result.octets) ≡ None }
{
    Taking::start(alloc, name(rt, "example."), Ask::Axfr, 2, None)
}

/// A message of 65,535 octets: one record that fills it.
fn long_message(rt: &impl Abort, alloc: Global) -> Result<Vec<u8>, AllocError> {
    // 12 octets of header and 11 before the RDATA leave room for 65,512
    let mut octets = Vec::from_slice(alloc, b"\0\x02\x84\0\0\0\0\x01\0\0\0\0")?;
    let rdata = vec![in alloc; 0u8; 65_512]?;
    push_record(rt, &mut octets, (b"\0", 65_280, 0), rdata.as_slice())?;
    assert!(rt; octets.len() == 65_535);
    Ok(octets)
}

/// Feeds the message this many times, and more is to come each time.
fn feed_times(
    rt: &impl Abort,
    taking: &mut Taking,
    message: &[u8],
    count: u32,
) -> Result<(), AllocError>
    requires { decided taking.old.transfer (messages_in taking.old.octets) ≡ None }
    ensures { OnOk result (decided taking.new.transfer (messages_in taking.new.octets) ≡ None) }
{
    assert!(rt; message.len() <= 65_535);
    'messages: for _ in 0..count {
        match taking.feed(message)? {
            Progress::More => {}
            Progress::Ended => panic!(rt; "ended"),
        }
    }
    Ok(())
}

/// That the message after what was read makes the stream too long.
fn expect_too_long(rt: &impl Abort, mut taking: Taking, message: &[u8]) -> Result<(), AllocError>
    requires { decided taking.transfer (messages_in taking.octets) ≡ None }
{
    assert!(rt; message.len() <= 65_535);
    assert!(rt; taking.feed(message)? == Progress::Ended);
    expect_fault(rt, "too long", &taking.finish()?, TakeFault::TooLong);
    Ok(())
}

#[test]
fn a_stream_has_at_most_67108864_octets(rt: HostRuntime) -> Result<(), AllocError> {
    let alloc = rt.alloc();
    let first = message(&rt, alloc, (2, GOOD), AXFR, &[soa("example.", 5)])?;
    let long = long_message(&rt, alloc)?;
    let mut taking = whole(&rt, alloc);
    feed_times(&rt, &mut taking, first.as_slice(), 1)?;
    feed_times(&rt, &mut taking, long.as_slice(), 1023)?;
    expect_too_long(&rt, taking, long.as_slice())
}
