//! The datagram device of a stage.
ghost use Rattle.std.specs.Prelude.{◌≡◌, [], false, Some, IfOk};

use crate::Stage;
use crate::streams::SOA_QUERY;
use dz_io::{Datagram, Datagrams, Failed, MemoryDatagrams, Peer, Received, Setup};
use std::alloc::{AllocError, Global};

/// The peer that sends the queries.
const ASKER: Peer = Peer {
    address: [198, 51, 100, 9],
    port: 53,
};

/// A device in memory that gives each query only once something has happened, or gives none. It reports its packets.
#[derive(Drop)]
pub struct StageDatagrams<'a> {
    stage: &'a Stage,
    packets: MemoryDatagrams,
    given: u64,
    pub(crate) asks: bool,
}

impl<'a> StageDatagrams<'a> {
    /// A device that gives two queries, or none. `AllocError` where memory runs out.
    pub(crate) fn new(
        alloc: Global,
        stage: &'a Stage,
        asks: bool,
    ) -> Result<StageDatagrams<'a>, AllocError>
        ensures received { IfOk result (λ device. device.packets.received ≡ []) }
        ensures sent { IfOk result (λ device. device.packets.sent ≡ []) }
        ensures closed { IfOk result (λ device. device.packets.is_closed ≡ false) }
        ensures faults { IfOk result (λ device. device.packets.calls.faults ≡ 0) }
    {
        let mut queries = Vec::new(alloc);
        if asks {
            queries.push(Datagram::new(SOA_QUERY.to_vec(alloc)?, ASKER))?;
            queries.push(Datagram::new(SOA_QUERY.to_vec(alloc)?, ASKER))?;
        }
        Ok(StageDatagrams {
            stage,
            packets: MemoryDatagrams::new(alloc, Setup::new(queries, Vec::new(alloc))),
            given: 0,
            asks,
        })
    }

    /// The packets that were sent.
    pub fn sent(&self) -> &[Datagram]
        ensures { result.now ≡ self.now.packets.sent }
    {
        self.packets.sent()
    }

    /// How many calls failed.
    pub fn faults(&self) -> u64
        ensures { result ≡ self.now.packets.calls.faults }
    {
        self.packets.faults()
    }
}

impl<'a> Datagrams for StageDatagrams<'a> {
    ghost received = { λ device. Some device.packets.received };

    ghost sent = { λ device. Some device.packets.sent };

    ghost is_closed = { λ device. device.packets.is_closed };

    ghost faults = { λ device. device.packets.calls.faults };

    /// Gives the next query. Before the first it waits for a read or a write that is held, and before the second for
    /// the second version of the zone in the log. It fails only as [`MemoryDatagrams`] does.
    fn receive(&mut self, buffer: &mut [u8]) -> Result<Received, Failed> {
        if self.asks {
            match self.given {
                0 => self.stage.wait_for_hold(),
                1 => self.stage.wait_for_second(),
                _ => {}
            }
            self.given = self.given.saturating_add(1);
        }
        self.packets.receive(buffer)
    }

    /// Sends a packet, and notes the reply on the stage. `Failed` where memory runs out or the packet is too long.
    fn send(&mut self, peer: &Peer, piece: &[u8]) -> Result<(), Failed> {
        let result = self.packets.send(peer, piece);
        if result.is_ok() {
            self.stage.see_reply();
        }
        result
    }
}
