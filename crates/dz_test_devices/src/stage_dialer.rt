//! The dialer of a stage.
ghost use Rattle.std.specs.Prelude.{◌≡◌, [], None, Some};
ghost use Rattle.dz_io.specs.Links.{dialled};
ghost use Rattle.dz_io.specs.Ports.{dials};

use crate::{Stage, StageLink};
use dz_io::{Dialer, Failed, Peer};
use std::alloc::Global;
use std::marker::Model;

/// A link that came back, and the peer that was dialled.
#[derive(Drop)]
pub(crate) struct Came<'a> {
    peer: Peer,
    link: StageLink<'a>,
}

impl<'a> Model for Came<'a> {
    ghost use Rattle.std.specs.Prelude.{None, Some};
    ghost use Rattle.dz_io.specs.Links.{Dialled, dialled};

    ghost Value = { Dialled };

    ghost view = { λ c. dialled c.peer (Some c.link.given.items) None (Some c.link.query.items)
        c.link.faults };
}

/// A dialer whose links give what is asked of them, whichever peer is dialled. It reports the links that came back.
#[derive(Drop)]
pub struct StageDialer<'a> {
    stage: &'a Stage,
    alloc: Global,
    back: Vec<Came<'a>>,
    out: Option<Peer>,
    faults: u64,
}

impl<'a> Model for StageDialer<'a> {
    ghost use Rattle.std.specs.Prelude.{◌<◌, IsSome, Some, vec_len, vec_capacity};
    ghost use Rattle.dz_io.specs.Ports.{Dials, dials};

    ghost Value = { Dials };

    ghost view = { λ d. dials (Some d.back.items) d.out d.faults };

    ghost invariant = { λ d. IsSome d.out → vec_len d.back < vec_capacity d.back };
}

impl<'a> StageDialer<'a> {
    /// A dialer that has opened no link.
    pub(crate) fn new(alloc: Global, stage: &'a Stage) -> StageDialer<'a>
        ensures { result ≡ dials (Some []) None 0 }
    {
        StageDialer {
            stage,
            alloc,
            back: Vec::new(alloc),
            out: None,
            faults: 0,
        }
    }

    /// How many links came back.
    pub(crate) fn links(&self) -> usize {
        self.back.len()
    }

    /// How many dials failed, and links that came back with a fault.
    pub(crate) fn faults(&self) -> u64
        ensures { result ≡ self.now.faults }
    {
        self.faults
    }
}

impl<'a> Dialer for StageDialer<'a> {
    type L = StageLink<'a>;

    ghost links = { λ dialer. dialer.links };

    ghost out = { λ dialer. dialer.out };

    ghost faults = { λ dialer. dialer.faults };

    /// Opens a link; fails where the stage says so, or where memory runs out.
    fn dial(&mut self, peer: &Peer) -> Result<StageLink<'a>, Failed> {
        if self.stage.fails_dial() || self.back.reserve(1).is_err() {
            self.faults = self.faults.saturating_add(1);
            return Err(Failed);
        }
        self.out = Some(*peer);
        Ok(StageLink::new(self.alloc, self.stage))
    }

    /// Keeps the link that comes back, and counts a fault where it had any.
    fn done(&mut self, link: StageLink<'a>) {
        if let Some(peer) = self.out.take() {
            if link.faults > 0 {
                self.faults = self.faults.saturating_add(1);
            }
            self.back.push_reserved(Came { peer, link });
        }
    }
}
