//! What accepts the links that peers open.
ghost use Rattle.std.specs.Prelude.{◌≡◌, Bool, List, [], ◌∷◌, Option, None, Some, IsSome, IfSome, IfOk, OnErr};
ghost use Rattle.dz_io.specs.Device.{Gains, HasCause};
ghost use Rattle.dz_io.specs.Links.{dialled, IsFreshLink, IsAccepted, ClosesTo};

use crate::{Failed, Link, Peer};

/// What an acceptor gives.
#[derive(Drop)]
pub enum Accepted<L> {
    /// A link, and the peer that opened it.
    One(L, Peer),
    /// There are no further links.
    Closed,
}

/// What gives the links that peers open, one at a time: each is given back before the next.
pub trait Acceptor {
    ghost use Rattle.std.specs.Prelude.{ℕ};
    ghost use Rattle.dz_io.specs.Links.{Dialled};
    ghost use Rattle.dz_io.specs.declared.peer.Peer.{Peer};

    /// The links that it gives.
    type L: Link + Send;

    /// The links that were given back, in order, where the acceptor reports them.
    ghost links: { Self → Option (List Dialled) };

    /// The peer of the link that is out: given, and not given back.
    ghost out: { Self → Option Peer };

    /// Whether it has returned `Closed`.
    ghost is_closed: { Self → Bool };

    /// How often the acceptor itself has failed; faults of links aren't counted. The count never falls, and at 2^64 - 1
    /// it says nothing more.
    ghost faults: { Self → ℕ };

    /// Gives the next link, from which nothing was read and to which nothing was written. `Failed` where the acceptor
    /// failed.
    fn accept(&mut self) -> Result<Accepted<Self::L>, Failed>
        requires { out self.old ≡ None }
        ensures given { IfOk result (λ a. IsAccepted a
            (λ link peer. (out self.new ≡ Some peer)
            × IsFreshLink (Self.L.given link) (Self.L.held link) (Self.L.Source.faults link))
            (out self.new ≡ None)) }
        ensures closed { IfOk result (λ a. ClosesTo a (is_closed self.old) (is_closed self.new)) }
        ensures err { OnErr result
            ((out self.new ≡ None) × (is_closed self.new ≡ is_closed self.old)) }
        ensures links { links self.new ≡ links self.old }
        ensures cause { HasCause (faults self.old) (faults self.new) result };

    /// Takes back the link that is out.
    fn done(&mut self, link: Self::L)
        requires { IsSome (out self.old) }
        ensures out { out self.new ≡ None }
        ensures links { IfSome (out self.old)
            (λ peer. Gains (dialled peer (Self.L.given link) (Self.L.left link)
            (Self.L.held link) (Self.L.Source.faults link) ∷ []) (links self.old)
            (links self.new)) }
        ensures closed { is_closed self.new ≡ is_closed self.old }
        ensures faults { faults self.new ≡ faults self.old };
}
