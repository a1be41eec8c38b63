//! What `catzd` reads from and writes to: sources, sinks, links, ports and clocks as traits, and devices in memory.
#![tactic(auto)]

mod acceptor;
mod clock;
mod datagram;
mod datagrams;
mod device;
mod dialer;
mod laws;
mod memory;
mod memory_acceptor;
mod memory_clock;
mod memory_datagrams;
mod memory_dialer;
mod memory_ports;
mod peer;
mod plan;
mod ports;
mod returned;
mod setup;
mod shelf;
mod sure;
mod tape;

pub use acceptor::{Accepted, Acceptor};
pub use clock::{Clock, Rest};
pub use datagram::{Datagram, PACKET_OCTETS};
pub use datagrams::{Datagrams, Received};
pub use device::{Failed, Link, Sink, Source};
pub use dialer::Dialer;
pub use laws::{rises_add_up, rises_last};
pub use memory::{MemoryLink, MemorySink, MemorySource};
pub use memory_acceptor::MemoryAcceptor;
pub use memory_clock::MemoryClock;
pub use memory_datagrams::MemoryDatagrams;
pub use memory_dialer::MemoryDialer;
pub use memory_ports::MemoryPorts;
pub use peer::Peer;
pub use ports::{Place, Ports};
pub use returned::Returned;
pub use setup::{Caller, Setup, Stream};
pub use sure::{SureLink, SureSink, SureSource};
