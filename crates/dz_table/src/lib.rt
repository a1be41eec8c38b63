//! The table of zones: what is held of each, and which zone answers for a name (RFC 1034 section 4.3.2).
#![tactic(auto)]

mod ahead;
mod shared_slot;
mod slot;
mod slots;
mod table;

pub use ahead::Ahead;
pub use shared_slot::SharedSlot;
pub use slot::Slot;
pub use slots::Slots;
pub use table::Table;
