//! Secrets.

ghost use Rattle.std.specs.Prelude.{◌≡◌, ◌≤◌, ◌++◌, length, drop, Some, None, nat_le, if◌then◌else◌};

use crate::limits::SECRET_OCTETS;
use std::fmt;
use std::marker::Model;

/// The octets that two hosts share: up to 64, which are kept in place, so that a copy takes no memory. They are never
/// wiped.
#[derive(Clone, Copy)]
pub struct Secret {
    octets: [u8; SECRET_OCTETS],
    len: u8,
}

impl Model for Secret {
    ghost use Rattle.std.specs.Prelude.{length, take};
    ghost use Rattle.dz_name.specs.Words.{Octets};
    ghost use Rattle.dz_settings.specs.inner.Secrets.{IsSecretKept, secret_padded};

    ghost Value = { Octets };

    ghost view = { λ s. take s.len s.octets };

    ghost invariant = { λ s. IsSecretKept s.octets s.len };

    ghost inverse = { λ secret. record { octets = secret_padded secret; len = length secret } };

    ghost inverse_ok = { λ a h. λ i. record { octets = h.padded i; len = h.len_is i } };
}

impl Secret {
    /// The secret of these octets, unless they are more than 64.
    pub fn from_slice(octets: &[u8]) -> Option<Secret>
        ensures { result
            ≡ if nat_le (length octets.now) SECRET_OCTETS then Some octets.now else None }
    {
        if octets.len() <= SECRET_OCTETS {
            Some(Secret::of(octets))
        } else {
            None
        }
    }

    /// The secret of up to 64 octets.
    fn of(octets: &[u8]) -> Secret
        requires { length octets.now ≤ SECRET_OCTETS }
        ensures { result ≡ octets.now }
    {
        let mut kept = [0; SECRET_OCTETS];
        put_front(&mut kept, octets);
        Secret {
            octets: kept,
            len: octets.len() as u8,
        }
    }

    /// Its octets.
    pub fn as_slice(&self) -> &[u8]
        ensures octets { result.now ≡ self.now }
        ensures short { length self.now ≤ SECRET_OCTETS }
    {
        &self.octets[..self.len as usize]
    }
}

/// Shows that there is a secret, and nothing of it.
impl fmt::Debug for Secret {
    /// Writes the word `Secret` alone.
    fn fmt<W: fmt::Write>(&self, f: &mut fmt::Formatter<W>) -> fmt::Result {
        f.write_str("Secret")
    }
}

/// Copies octets to the beginning of the 64.
fn put_front(kept: &mut [u8; SECRET_OCTETS], octets: &[u8])
    requires { length octets.now ≤ SECRET_OCTETS }
    ensures { kept.new ≡ octets.now ++ drop (length octets.now) kept.old }
{
    kept[..octets.len()].copy_from_slice(octets);
}
