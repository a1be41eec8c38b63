//! Devices in memory for a test of a whole server. It is a library for tests only: no program is built on it.
//!
//! The devices of one `Stage` follow what happens, so that the test passes only where a query is answered while a
//! transfer is under way.
//! 1. At moment 1000 the dialer gives a catalog, cat1.example. with the member example., and the zone example. with
//!    serial 5.
//! 2. Once the log has a line that ends with `example. 5`, the moment is 1100. The dialer then gives the same catalog
//!    and example. with serial 6. The second read of that zone's link waits for a reply.
//! 3. While it waits, the datagram device of worker 0 gives a query for the SOA record of example.
//! 4. Once the log has a line that ends with `example. 6`, it gives the same query again, and is closed after it.
//! 5. Once the second reply was sent, the clock returns `Stop`.
//!
//! This is the play in which a read waits (`Play::ReadWaits`). Where the log waits (`Play::LogWaits`), no read does.
//! The write of the line of serial 6 waits instead, and the first query comes meanwhile. Where a dial fails
//! (`Play::DialFails`), it is the very first one, and no query comes. The moment is then 1060 once the log has a line
//! of that failure, and the clock returns `Stop` once the log has a line that ends with `example. 5`.
//!
//! Each wait has a limit, after which the test goes on, and `Stage::is_late` reports it.
#![tactic(auto)]

mod shelf;
mod stage;
mod stage_clock;
mod stage_datagrams;
mod stage_dialer;
mod stage_link;
mod stage_log;
mod stage_ports;
mod streams;

pub use stage::{Play, Stage};
pub use stage_clock::StageClock;
pub use stage_datagrams::StageDatagrams;
pub use stage_dialer::StageDialer;
pub use stage_link::StageLink;
pub use stage_log::StageLog;
pub use stage_ports::StagePorts;
