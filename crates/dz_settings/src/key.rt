//! Keys that a catalog's primaries share with the server.

use crate::secret::Secret;
use dz_name::Name;

/// A key: the name that both hosts know it by, and the secret that they share (RFC 8945 section 4.2).
#[derive(Clone, Copy, Debug)]
pub struct Key {
    pub name: Name,
    /// Of 1 to 64 octets, where the key is used.
    pub secret: Secret,
}
