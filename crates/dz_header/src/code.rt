//! Response codes.

ghost use Rattle.std.specs.Prelude.{◌≡◌, ◌<◌};
ghost use Rattle.dz_header.specs.Code.{number_of};

/// A response code (RFC 1035 section 4.1.1, RFC 2136 section 2.2, RFC 6891 section 9).
#[derive(Clone, Copy, Debug, PartialEq, Eq)]
pub enum ResponseCode {
    NoError,
    FormErr,
    ServFail,
    NxDomain,
    NotImp,
    Refused,
    YxDomain,
    NotAuth,
    BadVers,
}

impl ResponseCode {
    /// The number of the code, of at most twelve bits.
    pub fn number(self) -> u16
        ensures value { result ≡ number_of self }
        ensures small { result < 4096 }
    {
        match self {
            ResponseCode::NoError => 0,
            ResponseCode::FormErr => 1,
            ResponseCode::ServFail => 2,
            ResponseCode::NxDomain => 3,
            ResponseCode::NotImp => 4,
            ResponseCode::Refused => 5,
            ResponseCode::YxDomain => 6,
            ResponseCode::NotAuth => 9,
            ResponseCode::BadVers => 16,
        }
    }
}
