//! Zones kept on a disk: their versions, one record after another.
#![tactic(auto)]

mod copy;
mod count;
mod fault;
mod head;
mod kept;
mod laws;
mod payload;
mod places;
mod read;
mod store;
mod written;

pub use fault::StoreFault;
pub use kept::Kept;
pub use laws::{crash_keeps, forgotten_is_gone, reads_strictly, saved_is_kept, written_reads};
pub use store::Store;
