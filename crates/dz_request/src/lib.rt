//! Requests: what the octets received on a socket ask for, judged from left to right (RFC 1035 section 4.1, RFC 1996
//! section 3, RFC 6891 section 6.1), and what surrounds the records of a reply. Nothing here allocates.
#![tactic(auto)]

mod frame;
mod request;

pub use frame::{Frame, Heading, reply_curt};
pub use request::{Asked, Request, read_request};
