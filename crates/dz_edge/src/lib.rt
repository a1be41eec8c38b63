//! The devices of a running server: standard input and output, UDP and TCP sockets of IPv4, the host's clock, and a
//! file as a disk.
#![tactic(auto)]

mod address;
mod bell;
mod buffers;
mod calls;
mod connection;
mod crowd;
mod errors;
mod expiries;
mod figures;
mod frames;
mod glimpse;
mod host_clock;
mod host_disk;
mod host_ports;
mod kind;
mod notifies;
mod paced;
mod pacing;
mod quota;
mod renew;
mod replies;
mod standard;
mod stop;
mod survey;
mod tally;
mod tcp_acceptor;
mod tcp_dialer;
mod tcp_link;
mod tell;
#[cfg(test)]
mod tests;
mod turn;
mod turns;
mod udp_datagrams;
mod waiting;
mod watch;
mod work;

pub use bell::Bell;
pub use host_clock::HostClock;
pub use host_disk::HostDisk;
pub use host_ports::HostPorts;
pub use standard::{ReadSource, WriteSink};
pub use tcp_acceptor::TcpAcceptor;
pub use tcp_dialer::TcpDialer;
pub use tcp_link::TcpLink;
pub use turn::Turn;
pub use udp_datagrams::UdpDatagrams;
pub use waiting::WAITING_OCTETS;
pub use work::LogWriter;
