//! Which form of a transfer is asked for.

ghost use Rattle.std.specs.Prelude.{◌≡◌};
ghost use Rattle.dz_take.specs.Transfer.{kind_of};

use dz_name::dns::{TYPE_AXFR, TYPE_IXFR};

/// What a transfer's query asks for.
#[derive(Clone, Copy, Debug, PartialEq, Eq)]
pub enum Ask {
    /// The whole zone (RFC 5936).
    Axfr,
    /// The differences from the version that is held (RFC 1995).
    Ixfr,
}

impl Ask {
    /// The type of the query's question (RFC 5936 section 2.1, RFC 1995 section 3).
    pub fn kind(self) -> u16
        ensures { result ≡ kind_of self }
    {
        match self {
            Ask::Axfr => TYPE_AXFR,
            Ask::Ixfr => TYPE_IXFR,
        }
    }
}
