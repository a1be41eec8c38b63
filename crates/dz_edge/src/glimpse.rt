//! What a link to a primary shows of its transfer.
use dz_name::Name;
use dz_name::dns::{HEADER_OCTETS, LENGTH_OCTETS, TYPE_SOA};
use dz_name::numbers::{number_of_four, number_of_two};

/// How many octets the type and the class of a question have (RFC 1035 section 4.1.2).
const QUESTION_OCTETS: usize = 4;

/// How many octets precede the RDATA of a record after its owner (RFC 1035 section 4.1.3).
const HEAD_OCTETS: usize = 10;

/// How many octets of an SOA's RDATA precede EXPIRE after its two names (RFC 1035 section 3.3.13).
const BEFORE_EXPIRE: usize = 12;

/// As many octets of a reply as its first record can end in, if that is an SOA: a length, a header, a question with a
/// name of 255 octets, and a record with three such names.
const GLIMPSE_OCTETS: usize = 1_068;

/// What a link has shown: the zone that was asked for, and the first octets of the reply.
#[derive(Drop)]
pub(crate) struct Glimpse {
    /// The root before a zone was asked for.
    zone: Name,
    is_asked: bool,
    octets: [u8; GLIMPSE_OCTETS],
    count: usize,
}

impl Glimpse {
    /// Nothing was asked, and nothing came.
    pub fn nothing() -> Glimpse {
        Glimpse {
            zone: Name::root(),
            is_asked: false,
            octets: [0; GLIMPSE_OCTETS],
            count: 0,
        }
    }

    /// A query is written, preceded by its length. The first counts.
    pub fn ask(&mut self, frame: &[u8]) {
        if !self.is_asked {
            let query = frame.get(LENGTH_OCTETS..).unwrap_or(&[]);
            if let Ok((zone, _)) = Name::read_at(query, HEADER_OCTETS) {
                self.zone = zone;
                self.is_asked = true;
            }
        }
    }

    /// More of the reply came. It answers whether some of it was kept.
    pub fn add(&mut self, octets: &[u8]) -> bool {
        let before = self.count;
        if let Some(room) = self.octets.get_mut(self.count..) {
            'octets: for (to, from) in room.iter_mut().zip(octets) {
                *to = *from;
            }
        }
        let count = self.count.saturating_add(octets.len());
        self.count = count.min(GLIMPSE_OCTETS);
        self.count > before
    }

    /// The zone, and EXPIRE of the first record of the reply, in seconds. None where that isn't an SOA.
    pub fn expire(&self) -> Option<(Name, u32)> {
        let reply = self.octets.get(LENGTH_OCTETS..self.count)?;
        let span = expire_in(reply)?;
        if self.is_asked {
            Some((self.zone, span))
        } else {
            None
        }
    }
}

/// EXPIRE of the first answer record of a message with one question; none where that isn't an SOA.
fn expire_in(message: &[u8]) -> Option<u32> {
    let question = end_of_name(message, HEADER_OCTETS)?;
    let owner = end_of_name(message, question.saturating_add(QUESTION_OCTETS))?;
    let head = message.get(owner..)?;
    if head.len() < HEAD_OCTETS || number_of_two(head) != TYPE_SOA {
        return None;
    }
    let server = end_of_name(message, owner + HEAD_OCTETS)?;
    let mailbox = end_of_name(message, server)?;
    let expire = message.get(mailbox.saturating_add(BEFORE_EXPIRE)..)?;
    if expire.len() < 4 {
        return None;
    }
    Some(number_of_four(expire))
}

/// The offset after the name at an offset of a message.
fn end_of_name(message: &[u8], at: usize) -> Option<usize> {
    match Name::read_at(message, at) {
        Ok((_, end)) => Some(end),
        Err(_) => None,
    }
}
