//! What a worker counts for itself, of the messages and connections that pass it.

/// TC, in the third octet of a message (RFC 1035 section 4.1.1).
const TRUNCATED: u8 = 0x02;

/// The response code, in the fourth octet of a message.
const CODE: u8 = 0x0f;

/// How many messages came and were answered, by the response codes of RFC 1035 section 4.1.1. Of a request the first
/// message of its answer counts, so the stream of a zone is one answer.
#[derive(Clone, Copy)]
pub(crate) struct Tally {
    pub requests: u64,
    pub noerror: u64,
    pub formerr: u64,
    pub servfail: u64,
    pub nxdomain: u64,
    pub notimp: u64,
    pub refused: u64,
    /// Answers with another code.
    pub other: u64,
    /// Answers with TC.
    pub truncated: u64,
    /// The last request has its answer.
    is_answered: bool,
}

impl Tally {
    /// None came.
    pub fn new() -> Tally {
        Tally {
            requests: 0,
            noerror: 0,
            formerr: 0,
            servfail: 0,
            nxdomain: 0,
            notimp: 0,
            refused: 0,
            other: 0,
            truncated: 0,
            is_answered: false,
        }
    }

    /// A request came.
    pub fn ask(&mut self) {
        self.requests = self.requests.saturating_add(1);
        self.is_answered = false;
    }

    /// A message was made in answer to the last request. One without the first four octets of a header isn't counted.
    pub fn answer(&mut self, reply: &[u8]) {
        if self.is_answered {
            return;
        }
        if let [_, _, kind, code, ..] = reply {
            self.is_answered = true;
            if kind & TRUNCATED != 0 {
                self.truncated = self.truncated.saturating_add(1);
            }
            self.answer_with(code & CODE);
        }
    }

    /// An answer has this code.
    fn answer_with(&mut self, code: u8) {
        match code {
            0 => self.noerror = self.noerror.saturating_add(1),
            1 => self.formerr = self.formerr.saturating_add(1),
            2 => self.servfail = self.servfail.saturating_add(1),
            3 => self.nxdomain = self.nxdomain.saturating_add(1),
            4 => self.notimp = self.notimp.saturating_add(1),
            5 => self.refused = self.refused.saturating_add(1),
            _ => self.other = self.other.saturating_add(1),
        }
    }
}

/// How many connections were taken, and how many were closed by which limit.
#[derive(Clone, Copy)]
pub(crate) struct Guests {
    pub taken: u64,
    /// All that ended, also those that their client closed.
    pub ended: u64,
    /// Nothing happened on them for too long.
    pub idle: u64,
    /// There were too many in all, or too few descriptors.
    pub crowded: u64,
    /// There were too many of one address.
    pub address: u64,
    /// Too many replies waited.
    pub unread: u64,
}

impl Guests {
    /// None was taken.
    pub fn new() -> Guests {
        Guests {
            taken: 0,
            ended: 0,
            idle: 0,
            crowded: 0,
            address: 0,
            unread: 0,
        }
    }
}

/// Counts one more, where this is so.
pub(crate) fn count(number: &mut u64, is_so: bool) {
    if is_so {
        *number = number.saturating_add(1);
    }
}
