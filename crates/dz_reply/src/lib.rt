//! Replies to requests: what a zone says of a question, and the octets of the reply within a limit, with nothing
//! allocated (RFC 1035 section 4.1, RFC 1034 section 4.3.2, RFC 6891).
#![tactic(auto)]

mod answer;
mod authority;
mod counted;
mod evidence;
mod glue;
mod layout;
mod reply;
mod secure;
mod signed;

pub use dz_header::Transport;
pub use reply::{Turn, reply_into, reply_to};
