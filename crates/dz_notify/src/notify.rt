//! NOTIFY requests.

ghost use Rattle.std.specs.Prelude.{◌≡◌};
ghost use Rattle.dz_notify.specs.Notify.{notify_zone_in};

use dz_name::Name;
use dz_request::{Request, read_request};

/// How a NOTIFY is received (RFC 1996 section 3).
#[derive(Clone, Copy, Debug, PartialEq, Eq)]
pub enum Heard {
    /// It came from one of the zone's primaries: the zone is checked soon.
    Taken,
    /// It came from another host, and gets no reply.
    Stranger,
    /// The zone is not served here.
    NotOurs,
}

/// The zone that a NOTIFY request is about: the name in its question. None where the request isn't a readable NOTIFY of
/// class IN and type SOA (RFC 1996 section 3.7).
pub fn read_notify(request: &[u8]) -> Option<Name>
    ensures { result ≡ notify_zone_in request.now }
{
    match read_request(request) {
        Request::Notify(asked) => Some(asked.question.name),
        _ => None,
    }
}
