//! Messages, read and written (RFC 1035 section 4.1).
#![tactic(auto)]

mod fault;
mod frame;
mod laws;
mod message;
mod packed;
mod piece;
mod query;
mod read;
mod tally;
mod write;

pub use dz_header::{Header, Question};
pub use fault::{MessageError, MessageFault, WriteError};
pub use frame::{next_frame, push_frame};
pub use laws::{comes_back, each_is_cut};
pub use message::Message;
pub use packed::pack;
pub use piece::{ANSWER_FLAGS, PIECE_OCTETS, Piece};
pub use query::write_query;
pub use read::{LOOKS, counted_read, read_message};
pub use tally::Tally;
pub use write::write_message;
