//! Links in memory that came back.
ghost use Rattle.std.specs.Prelude.{◌≡◌};
ghost use Rattle.dz_io.specs.MemoryDevices.{told_link};

use crate::{MemoryLink, Peer};
use std::marker::Model;

/// A link that came back to a dialer or an acceptor in memory, and the peer at its other end.
#[derive(Drop)]
pub struct Returned {
    peer: Peer,
    link: MemoryLink,
}

impl Model for Returned {
    ghost use Rattle.dz_io.specs.Links.{Dialled};
    ghost use Rattle.dz_io.specs.MemoryDevices.{told_link};

    ghost Value = { Dialled };

    ghost view = { λ r. told_link r.peer r.link };
}

impl Returned {
    /// The link, and the peer at its other end.
    pub(crate) fn new(peer: Peer, link: MemoryLink) -> Returned
        ensures { result ≡ told_link peer link }
    {
        Returned { peer, link }
    }

    /// The peer at the other end of the link.
    pub fn peer(&self) -> Peer
        ensures { result ≡ self.now.peer }
    {
        self.peer
    }

    /// The link, as it came back.
    pub fn link(&self) -> &MemoryLink
        ensures { told_link self.now.peer result.now ≡ self.now }
    {
        &self.link
    }
}
