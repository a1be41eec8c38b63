//! An acceptor in memory, with a list of the calls that fail.
ghost use Rattle.std.specs.Prelude.{◌≡◌, ◌++◌, [], ◌∷◌, None, Some, is_err, IsErr, IsSome, IsTrue, IfSome, IfOk};
ghost use Rattle.std.specs.Prelude.{OnErr};
ghost use Rattle.dz_io.specs.Device.{HasCause};
ghost use Rattle.dz_io.specs.Links.{IsAccepted, ClosesTo};
ghost use Rattle.dz_io.specs.Memory.{is_to_fail, after_call};
ghost use Rattle.dz_io.specs.MemoryDevices.{CallerOf, fresh_acceptor, fresh_link, told_link};

use crate::plan::Plan;
use crate::{Accepted, Acceptor, Caller, Failed, MemoryLink, Peer, Returned, Setup};
use std::alloc::Global;
use std::collections::VecDeque;
use std::marker::Model;

/// An acceptor that gives the links of the callers that it was made with, and keeps those that come back. After its
/// last caller it is closed.
#[derive(Drop)]
pub struct MemoryAcceptor {
    callers: VecDeque<Caller>,
    back: Vec<Returned>,
    out: Option<Peer>,
    is_closed: bool,
    plan: Plan,
    alloc: Global,
}

impl Model for MemoryAcceptor {
    ghost use Rattle.std.specs.Prelude.{◌<◌, IsSome, vec_len, vec_capacity};
    ghost use Rattle.dz_io.specs.MemoryDevices.{AcceptorOf};

    ghost Value = { AcceptorOf };

    ghost view = { λ a. record {
      coming = a.callers.items;
      back = a.back.items;
      out = a.out;
      is_closed = a.is_closed;
      calls = a.plan;
    } };

    ghost invariant = { λ a. IsSome a.out → vec_len a.back < vec_capacity a.back };
}

impl MemoryAcceptor {
    /// An acceptor to which these peers connect.
    pub fn new(alloc: Global, setup: Setup<Caller>) -> MemoryAcceptor
        ensures { result ≡ fresh_acceptor setup }
    {
        let Setup { coming, failing } = setup;
        MemoryAcceptor {
            callers: VecDeque::from_vec(coming),
            back: Vec::new(alloc),
            out: None,
            is_closed: false,
            plan: Plan::new(failing),
            alloc,
        }
    }

    /// The links that came back.
    pub fn back(&self) -> &[Returned]
        ensures { result.now ≡ self.now.back }
    {
        &self.back
    }

    /// How many calls failed.
    pub fn faults(&self) -> u64
        ensures { result ≡ self.now.calls.faults }
    {
        self.plan.faults()
    }
}

impl Acceptor for MemoryAcceptor {
    type L = MemoryLink;

    ghost links = { λ a. Some a.back };

    ghost out = { λ a. a.out };

    ghost is_closed = { λ a. a.is_closed };

    ghost faults = { λ a. a.calls.faults };

    /// Fails where the call is to fail or memory runs out, and is closed where no further peer connects.
    fn accept(&mut self) -> Result<Accepted<MemoryLink>, Failed>
        requires { self.old.out ≡ None }
        ensures planned { IsTrue (is_to_fail self.old.calls.count self.old.calls.failing)
            → IsErr result }
        ensures given { IfOk result (λ a. IsAccepted a
            (λ link peer. (caller : CallerOf)
            × (self.old.coming ≡ caller ∷ self.new.coming)
            × (link ≡ fresh_link caller.stream)
            × (peer ≡ caller.peer)
            × (self.new.out ≡ Some peer))
            ((self.old.coming ≡ []) × (self.new.coming ≡ []) × (self.new.out ≡ None))) }
        ensures closed { IfOk result (λ a. ClosesTo a self.old.is_closed self.new.is_closed) }
        ensures err { OnErr result (self.new ≡ record self.old { calls = self.new.calls }) }
        ensures back { self.new.back ≡ self.old.back }
        ensures calls { self.new.calls ≡ after_call self.old.calls (is_err result) }
        ensures cause { HasCause self.old.calls.faults self.new.calls.faults result }
    {
        self.plan.next()?;
        if self.back.reserve(1).is_err() {
            return Err(self.plan.fail());
        }
        match self.callers.pop_front() {
            None => {
                self.is_closed = true;
                Ok(Accepted::Closed)
            }
            Some(caller) => {
                let (link, peer) = caller.open(self.alloc);
                self.out = Some(peer);
                Ok(Accepted::One(link, peer))
            }
        }
    }

    /// Keeps the link that comes back.
    fn done(&mut self, link: MemoryLink)
        requires { IsSome self.old.out }
        ensures same { self.new ≡ record self.old { out = None; back = self.new.back } }
        ensures back { IfSome self.old.out
            (λ peer. self.new.back ≡ self.old.back ++ told_link peer link ∷ []) }
    {
        if let Some(peer) = self.out.take() {
            self.back.push_reserved(Returned::new(peer, link));
        }
    }
}
