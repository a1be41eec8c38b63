//! A dialer in memory, with a list of the calls that fail.
ghost use Rattle.std.specs.Prelude.{◌≡◌, ◌++◌, [], ◌∷◌, None, Some, is_err, IsErr, IsSome, IsTrue, IfSome, IfOk, OnOk};
ghost use Rattle.std.specs.Prelude.{OnErr};
ghost use Rattle.dz_io.specs.Counts.{Covers};
ghost use Rattle.dz_io.specs.Device.{HasCause};
ghost use Rattle.dz_io.specs.Memory.{is_to_fail, after_call};
ghost use Rattle.dz_io.specs.MemoryDevices.{StreamOf, covering, fresh_dialer, fresh_link, told_link};

use crate::plan::Plan;
use crate::{Dialer, Failed, MemoryLink, Peer, Returned, Setup, Stream};
use std::alloc::Global;
use std::collections::VecDeque;
use std::marker::Model;

/// A dialer whose links give the streams that it was made with, whichever peer is dialled. It keeps the links that come
/// back. After its last stream there is no answer, and each call fails.
#[derive(Drop)]
pub struct MemoryDialer {
    streams: VecDeque<Stream>,
    back: Vec<Returned>,
    out: Option<Peer>,
    plan: Plan,
    alloc: Global,
}

impl Model for MemoryDialer {
    ghost use Rattle.std.specs.Prelude.{◌<◌, IsSome, vec_len, vec_capacity};
    ghost use Rattle.dz_io.specs.MemoryDevices.{DialerOf};

    ghost Value = { DialerOf };

    ghost view = { λ d. record {
      coming = d.streams.items;
      back = d.back.items;
      out = d.out;
      calls = d.plan;
    } };

    ghost invariant = { λ d. IsSome d.out → vec_len d.back < vec_capacity d.back };
}

impl MemoryDialer {
    /// A dialer whose links give these streams.
    pub fn new(alloc: Global, setup: Setup<Stream>) -> MemoryDialer
        ensures { result ≡ fresh_dialer setup }
    {
        let Setup { coming, failing } = setup;
        MemoryDialer {
            streams: VecDeque::from_vec(coming),
            back: Vec::new(alloc),
            out: None,
            plan: Plan::new(failing),
            alloc,
        }
    }

    /// The links that came back.
    pub fn back(&self) -> &[Returned]
        ensures { result.now ≡ self.now.back }
    {
        &self.back
    }

    /// How many calls failed, together with the faults of the links that came back.
    pub fn faults(&self) -> u64
        ensures { result ≡ self.now.calls.faults }
    {
        self.plan.faults()
    }
}

impl Dialer for MemoryDialer {
    type L = MemoryLink;

    ghost links = { λ d. Some d.back };

    ghost out = { λ d. d.out };

    ghost faults = { λ d. d.calls.faults };

    /// Fails where the call is to fail, where no stream is left, or where memory runs out.
    fn dial(&mut self, peer: &Peer) -> Result<MemoryLink, Failed>
        requires { self.old.out ≡ None }
        ensures planned { IsTrue (is_to_fail self.old.calls.count self.old.calls.failing)
            → IsErr result }
        ensures link { IfOk result (λ link. (stream : StreamOf)
            × (self.old.coming ≡ stream ∷ self.new.coming)
            × (link ≡ fresh_link stream)) }
        ensures out { OnOk result (self.new.out ≡ Some peer.now) }
        ensures err { OnErr result (self.new ≡ record self.old { calls = self.new.calls }) }
        ensures back { self.new.back ≡ self.old.back }
        ensures calls { self.new.calls ≡ after_call self.old.calls (is_err result) }
        ensures cause { HasCause self.old.calls.faults self.new.calls.faults result }
    {
        self.plan.next()?;
        if self.back.reserve(1).is_err() {
            return Err(self.plan.fail());
        }
        match self.streams.pop_front() {
            None => Err(self.plan.fail()),
            Some(stream) => {
                self.out = Some(*peer);
                Ok(stream.open(self.alloc))
            }
        }
    }

    /// Keeps the link that comes back, and adds its faults.
    fn done(&mut self, link: MemoryLink)
        requires { IsSome self.old.out }
        ensures out { self.new.out ≡ None }
        ensures coming { self.new.coming ≡ self.old.coming }
        ensures back { IfSome self.old.out
            (λ peer. self.new.back ≡ self.old.back ++ told_link peer link ∷ []) }
        ensures calls { self.new.calls ≡ covering link.calls.faults self.old.calls }
        ensures covers { Covers link.calls.faults self.old.calls.faults self.new.calls.faults }
    {
        if let Some(peer) = self.out.take() {
            self.plan.cover(link.faults());
            self.back.push_reserved(Returned::new(peer, link));
        }
    }
}
