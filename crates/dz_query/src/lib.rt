//! Queries, answered from the list that a reading sees, without memory and without a lock: one, or all that come to a
//! device or over links. To a listed address a whole zone goes out.
#![tactic(auto)]

mod answer;
mod answered;
mod came;
mod datagrams;
mod fate;
mod incoming;
mod laws;
mod links;
mod outward;
mod sending;
mod stream;

pub use answer::answer_one;
pub use datagrams::{SessionEnd, serve_datagrams};
pub use dz_header::Transport;
pub use dz_reply::Turn;
pub use fate::Fate;
pub use laws::sent_zones_come_back;
pub use links::{LinksEnd, serve_links};
pub use stream::{StreamEnd, StreamSession, serve_stream, serve_stream_outward};
