//! Published lists of taken transfers: one publisher, and readings that look without a lock. The list that a reading
//! has seen begins the published list, and never gets shorter.
#![tactic(auto)]

mod board;
mod ear;
mod edition;
mod laws;
mod ledger;
mod open;
mod publisher;
mod reading;
mod show;
mod told;

pub use ear::{Ear, Hearing};
pub use laws::{each_keeps, steps_keep};
pub use open::{Desk, DeskError, open_desk};
pub use publisher::Publisher;
pub use reading::{Reading, Sight};
pub use told::Told;
