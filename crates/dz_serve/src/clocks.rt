//! The clocks of workers, and the buffers of those that answer.

ghost use Rattle.std.specs.Prelude.{◌≡◌, IfOk};

use crate::pair::Pair;
use dz_header::ReplyBuffer;
use dz_io::Clock;
use std::alloc::{AllocError, Global};

/// A clock for each worker, and a reply buffer for each that answers.
#[derive(Drop)]
pub(crate) struct ClocksAndBuffers<C> {
    pub listening: Pair<ClockAndBuffer<C>>,
    pub linking: Pair<ClockAndBuffer<C>>,
    pub transferring: Pair<C>,
}

/// A clock and a reply buffer.
#[derive(Drop)]
pub(crate) struct ClockAndBuffer<C> {
    pub clock: C,
    pub buffer: ReplyBuffer,
}

/// Makes the clocks and the buffers of all workers. Each clock is a twin of this one.
///
/// # Errors
///
/// `AllocError` where memory runs out.
pub(crate) fn make_clocks<C: Clock + Drop>(
    alloc: Global,
    clock: &C,
) -> Result<ClocksAndBuffers<C>, AllocError>
    ensures listening_one { IfOk result
        (λ m. C.may_give m.listening.first.clock ≡ C.may_give clock.now) }
    ensures listening_two { IfOk result
        (λ m. C.may_give m.listening.second.clock ≡ C.may_give clock.now) }
    ensures linking_one { IfOk result
        (λ m. C.may_give m.linking.first.clock ≡ C.may_give clock.now) }
    ensures linking_two { IfOk result
        (λ m. C.may_give m.linking.second.clock ≡ C.may_give clock.now) }
    ensures transferring_one { IfOk result
        (λ m. C.may_stop m.transferring.first ≡ C.may_stop clock.now) }
    ensures transferring_two { IfOk result
        (λ m. C.may_stop m.transferring.second ≡ C.may_stop clock.now) }
    ensures gives_one { IfOk result
        (λ m. C.may_give m.transferring.first ≡ C.may_give clock.now) }
    ensures gives_two { IfOk result
        (λ m. C.may_give m.transferring.second ≡ C.may_give clock.now) }
{
    let listening = Pair {
        first: make_clock(alloc, clock)?,
        second: make_clock(alloc, clock)?,
    };
    let linking = Pair {
        first: make_clock(alloc, clock)?,
        second: make_clock(alloc, clock)?,
    };
    let transferring = Pair {
        first: clock.twin(alloc)?,
        second: clock.twin(alloc)?,
    };
    Ok(ClocksAndBuffers {
        listening,
        linking,
        transferring,
    })
}

/// A clock and a buffer for one worker.
fn make_clock<C: Clock + Drop>(alloc: Global, clock: &C) -> Result<ClockAndBuffer<C>, AllocError>
    ensures { IfOk result (λ m. C.may_give m.clock ≡ C.may_give clock.now) }
{
    Ok(ClockAndBuffer {
        clock: clock.twin(alloc)?,
        buffer: ReplyBuffer::make(alloc)?,
    })
}
