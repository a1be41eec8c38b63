//! The ports of a stage.
ghost use Rattle.std.specs.Prelude.{◌≡◌, [], Some, None};

use crate::shelf::Shelf;
use crate::{Play, Stage, StageDatagrams, StageDialer};
use dz_io::{Datagram, Failed, MemoryAcceptor, Peer, Ports, Setup};
use std::alloc::Global;

/// Ports that open the devices of a stage, whatever the address. The datagram device of worker 0 gives the queries; an
/// acceptor gets no links. They report the dialers that came back, and neither where they opened devices nor the others.
#[derive(Drop)]
pub struct StagePorts<'a> {
    stage: &'a Stage,
    alloc: Global,
    asked: Option<StageDatagrams<'a>>,
    datagrams_out: u64,
    acceptors_out: u64,
    dialers: Shelf<StageDialer<'a>>,
    faults: u64,
}

impl<'a> StagePorts<'a> {
    /// Ports that have opened nothing.
    pub fn new(alloc: Global, stage: &'a Stage) -> StagePorts<'a>
        ensures datagrams { result.datagrams_out ≡ 0 }
        ensures acceptors { result.acceptors_out ≡ 0 }
        ensures dialers { result.dialers ≡ record { opened = None; out = 0; back = Some [] } }
        ensures faults { result.faults ≡ 0 }
    {
        StagePorts {
            stage,
            alloc,
            asked: None,
            datagrams_out: 0,
            acceptors_out: 0,
            dialers: Shelf::new(alloc),
            faults: 0,
        }
    }

    /// The replies that the device with the queries had sent when it came back.
    pub fn replies(&self) -> &[Datagram] {
        match &self.asked {
            Some(device) => device.sent(),
            None => &[],
        }
    }

    /// Whether every device that was opened came back.
    pub fn are_all_back(&self) -> bool {
        self.datagrams_out == 0 && self.acceptors_out == 0 && self.dialers.is_whole()
    }

    /// How many openings, or devices that came back, failed, including dialers.
    pub fn all_faults(&self) -> u64 {
        self.dialers
            .back()
            .iter()
            .fold(self.faults, |count: u64, dialer| {
                count.saturating_add(dialer.faults())
            })
    }

    /// How many links of the dialers that came back were dialled and came back.
    pub fn links(&self) -> usize {
        self.dialers.back().iter().fold(0, |count: usize, dialer| {
            count.saturating_add(dialer.links())
        })
    }
}

impl<'a> Ports for StagePorts<'a> {
    type D = StageDatagrams<'a>;

    type A = MemoryAcceptor;

    type L = StageDialer<'a>;

    ghost datagrams = { λ ports. record { opened = None; out = ports.datagrams_out; back = None } };

    ghost acceptors = { λ ports. record { opened = None; out = ports.acceptors_out; back = None } };

    ghost dialers = { λ ports. record {
      opened = None;
      out = ports.dialers.out;
      back = ports.dialers.back;
    } };

    ghost faults = { λ ports. ports.faults };

    /// Opens a datagram device; that of worker 0 gives the queries, unless a dial fails. It fails where memory runs
    /// out.
    fn open_datagrams(&mut self, _listen: &Peer, worker: u8) -> Result<StageDatagrams<'a>, Failed> {
        let asks = worker == 0 && self.stage.play() != Play::DialFails;
        let device = StageDatagrams::new(self.alloc, self.stage, asks);
        match (device, self.datagrams_out.checked_add(1)) {
            (Ok(device), Some(out)) => {
                self.datagrams_out = out;
                Ok(device)
            }
            _ => {
                self.faults = self.faults.saturating_add(1);
                Err(Failed)
            }
        }
    }

    /// Opens an acceptor that gets no links. `Failed` where too many are out.
    fn open_acceptor(&mut self, _listen: &Peer, _worker: u8) -> Result<MemoryAcceptor, Failed> {
        let setup = Setup::new(Vec::new(self.alloc), Vec::new(self.alloc));
        match self.acceptors_out.checked_add(1) {
            Some(out) => {
                self.acceptors_out = out;
                Ok(MemoryAcceptor::new(self.alloc, setup))
            }
            None => {
                self.faults = self.faults.saturating_add(1);
                Err(Failed)
            }
        }
    }

    /// Makes a dialer of the stage. `Failed` where memory runs out.
    fn dialer(&mut self, _worker: u8) -> Result<StageDialer<'a>, Failed> {
        if self.dialers.open() {
            return Ok(StageDialer::new(self.alloc, self.stage));
        }
        self.faults = self.faults.saturating_add(1);
        Err(Failed)
    }

    /// Takes a datagram device back, keeps its replies, and counts a fault where it had any.
    fn close_datagrams(&mut self, device: StageDatagrams<'a>) {
        self.datagrams_out -= 1;
        if device.faults() > 0 {
            self.faults = self.faults.saturating_add(1);
        }
        if device.asks {
            self.asked = Some(device);
        }
    }

    /// Takes an acceptor back, and counts a fault where it had any.
    fn close_acceptor(&mut self, device: MemoryAcceptor) {
        self.acceptors_out -= 1;
        if device.faults() > 0 {
            self.faults = self.faults.saturating_add(1);
        }
    }

    /// Keeps the dialer that comes back.
    fn close_dialer(&mut self, device: StageDialer<'a>) {
        self.dialers.close(device);
    }
}
