//! The schemes and the hash algorithms of ZONEMD records.

ghost use Rattle.std.specs.Prelude.{◌≡◌};
ghost use Rattle.dz_zonemd.specs.Zonemd.{number_of, size_of, is_by, known_algorithm};

use dz_record::Rr;

/// SIMPLE: the digest is of the whole zone (RFC 8976 section 5.2).
pub const SCHEME_SIMPLE: u8 = 1;
/// SHA-384 (RFC 8976 section 5.3).
pub const ALGORITHM_SHA384: u8 = 1;
/// SHA-512 (RFC 8976 section 5.3).
pub const ALGORITHM_SHA512: u8 = 2;
/// How many octets come before the digest: serial, scheme and algorithm (RFC 8976 section 2.2).
pub const HEAD_OCTETS: usize = 6;

/// A hash algorithm that is known here.
#[derive(Clone, Copy, Debug, PartialEq, Eq)]
pub enum Algorithm {
    Sha384,
    Sha512,
}

impl Algorithm {
    /// The algorithm's number (RFC 8976 section 5.3).
    pub fn number(self) -> u8
        ensures { result ≡ number_of self }
    {
        match self {
            Algorithm::Sha384 => ALGORITHM_SHA384,
            Algorithm::Sha512 => ALGORITHM_SHA512,
        }
    }

    /// How many octets a digest has.
    pub fn size(self) -> usize
        ensures { result ≡ size_of self }
    {
        match self {
            Algorithm::Sha384 => 48,
            Algorithm::Sha512 => 64,
        }
    }

    /// Whether a ZONEMD record is of scheme SIMPLE and this algorithm.
    pub(crate) fn is_of(self, rr: &Rr) -> bool
        ensures { result ≡ is_by self rr.now }
    {
        let rdata = rr.rdata();
        rdata.len() >= HEAD_OCTETS && rdata[4] == SCHEME_SIMPLE && rdata[5] == self.number()
    }

    /// The algorithm of a ZONEMD record of scheme SIMPLE; none where scheme or algorithm isn't known.
    pub fn of(rr: &Rr) -> Option<Algorithm>
        ensures { result ≡ known_algorithm rr.now }
    {
        if Algorithm::Sha384.is_of(rr) {
            Some(Algorithm::Sha384)
        } else if Algorithm::Sha512.is_of(rr) {
            Some(Algorithm::Sha512)
        } else {
            None
        }
    }
}
