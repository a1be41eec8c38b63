//! A finite map in shared chunks: a changed map shares all but a few chunks with the map that it was made from.
#![tactic(auto)]

mod among;
mod block;
mod chunk;
mod chunks;
mod copies;
mod cut;
mod ends;
mod entries;
mod entry;
mod joins;
mod keyed;
mod laws;
mod lead;
mod ranked;
mod search;
mod share;
mod uncounted;
mod walk;

pub use chunks::Chunks;
pub use copies::Copies;
pub use entry::Entry;
pub use keyed::Keyed;
pub use laws::few_chunks;
pub use lead::Lead;
pub use ranked::Ranked;
pub use share::Share;
pub use walk::Walk;
