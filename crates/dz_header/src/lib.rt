//! The parts of a message outside its records (RFC 1035 section 4.1): header, question, and records by their shape; and
//! the memory in which a request is read and its reply written.
#![tactic(auto)]

mod buffer;
mod code;
mod edns;
mod flags;
mod header;
mod question;
mod record_head;
mod shape;
mod transport;
mod writer;

pub use buffer::ReplyBuffer;
pub use code::ResponseCode;
pub use edns::{Edns, edns_of, opt_count, put_opt};
pub use flags::Flags;
pub use header::{Header, read_header, write_header};
pub use question::{QUESTION_OCTETS, Question, counted_question, read_question};
pub use record_head::{HEAD_OCTETS, RecordHead, read_head};
pub use shape::{Shape, counted_skip, read_shape, skip_records};
pub use transport::Transport;
pub use writer::{BUFFER_OCTETS, Writer};
