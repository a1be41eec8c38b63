//! A disk, and a list of records on it that stays whole in a crash at any moment.
#![tactic(auto)]

mod disk;
mod gate;
mod laws;
mod memory_disk;
mod prepared;
mod record_error;
mod record_index;
mod record_log;
mod scan;
mod several;

pub use disk::Disk;
pub use laws::{one_joins, several_join};
pub use memory_disk::{DiskAct, Leaving, MemoryDisk};
pub use prepared::prepare;
pub use record_error::RecordError;
pub use record_index::RecordIndex;
pub use record_log::RecordLog;
pub use several::append_each;
