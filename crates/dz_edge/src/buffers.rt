//! What a worker reads its connections into.

use crate::frames::FRAME_OCTETS;
use crate::replies::{REPLY_OCTETS, Replies};
use std::alloc::{AllocError, Global};

/// How many octets of a connection are read before a turn of it: the longest frame, and some more.
const ROOM_OCTETS: usize = FRAME_OCTETS + REPLY_OCTETS;

/// The buffers of a worker: the octets of the connection whose turn it is, and the replies to them.
#[derive(Drop)]
pub(crate) struct Buffers {
    pub room: Vec<u8>,
    pub replies: Replies,
}

impl Buffers {
    /// Room for the frames of a turn, and for their replies.
    pub fn new(alloc: Global) -> Result<Buffers, AllocError> {
        Ok(Buffers {
            room: vec![in alloc; 0; ROOM_OCTETS]?,
            replies: Replies::new(alloc)?,
        })
    }
}
