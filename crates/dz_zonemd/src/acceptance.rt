//! What the ZONEMD records of a zone can say of it, and which of these verdicts a policy accepts.

ghost use Rattle.std.specs.Prelude.{◌≡◌};
ghost use Rattle.dz_zonemd.specs.Acceptance.{accepts};

use dz_settings::Policy;

/// What the ZONEMD records of a zone say of it (RFC 8976 section 4).
#[derive(Clone, Copy, Debug, PartialEq, Eq)]
pub enum Standing {
    /// The apex has no ZONEMD record.
    Absent,
    /// It has some, and none is supported: of scheme SIMPLE, of an algorithm that is known here, and of its length.
    Unsupported,
    /// One verifies the zone.
    Good,
    /// Some are supported, and none verifies the zone.
    Bad,
}

/// Whether a policy accepts a new version with this verdict: `Off` accepts each, `Present` each but `Bad`, and
/// `Require` accepts `Good` alone.
pub fn accepts(policy: Policy, standing: Standing) -> bool
    ensures { result ≡ accepts policy standing }
{
    match policy {
        Policy::Off => true,
        Policy::Present => !matches!(standing, Standing::Bad),
        Policy::Require => matches!(standing, Standing::Good),
    }
}
