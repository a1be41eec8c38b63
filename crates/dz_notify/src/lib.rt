//! NOTIFY (RFC 1996): the zone that a request is about, how it is received, and its reply. Nothing here allocates.
#![tactic(auto)]

mod notify;
mod reply;

pub use notify::{Heard, read_notify};
pub use reply::{notify_reply_to, write_notify_reply};
