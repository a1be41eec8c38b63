//! What opens links to peers.
ghost use Rattle.std.specs.Prelude.{◌≡◌, List, [], ◌∷◌, Option, None, Some, IsSome, IfSome, IfOk, OnOk, OnErr};
ghost use Rattle.dz_io.specs.Counts.{Covers};
ghost use Rattle.dz_io.specs.Device.{Gains, HasCause};
ghost use Rattle.dz_io.specs.Links.{dialled, IsFreshLink};

use crate::{Failed, Link, Peer};

/// What opens links to peers, one at a time: each is given back before the next.
pub trait Dialer {
    ghost use Rattle.std.specs.Prelude.{ℕ};
    ghost use Rattle.dz_io.specs.Links.{Dialled};
    ghost use Rattle.dz_io.specs.declared.peer.Peer.{Peer};

    /// The links that it gives.
    type L: Link + Send;

    /// The links that were given back, in order, where the dialer reports them.
    ghost links: { Self → Option (List Dialled) };

    /// The peer of the link that is out: given, and not given back.
    ghost out: { Self → Option Peer };

    /// How often the dialer or a link that was given back has failed. The count never falls, and at 2^64 - 1 it says
    /// nothing more.
    ghost faults: { Self → ℕ };

    /// Opens a link to a peer, from which nothing was read and to which nothing was written. `Failed` where it can't.
    fn dial(&mut self, peer: &Peer) -> Result<Self::L, Failed>
        requires { out self.old ≡ None }
        ensures out { OnOk result (out self.new ≡ Some peer.now) }
        ensures fresh { IfOk result (λ link.
            IsFreshLink (Self.L.given link) (Self.L.held link) (Self.L.Source.faults link)) }
        ensures err { OnErr result (out self.new ≡ None) }
        ensures links { links self.new ≡ links self.old }
        ensures cause { HasCause (faults self.old) (faults self.new) result };

    /// Takes back the link that is out. The dialer's count of faults covers that of the link: it rises where the link
    /// has failed.
    fn done(&mut self, link: Self::L)
        requires { IsSome (out self.old) }
        ensures out { out self.new ≡ None }
        ensures links { IfSome (out self.old)
            (λ peer. Gains (dialled peer (Self.L.given link) (Self.L.left link)
            (Self.L.held link) (Self.L.Source.faults link) ∷ []) (links self.old)
            (links self.new)) }
        ensures covers { Covers (Self.L.Source.faults link) (faults self.old) (faults self.new) };
}
