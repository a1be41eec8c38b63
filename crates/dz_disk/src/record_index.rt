//! What is kept in memory of a list of records, and which payloads can be read.

ghost use Rattle.std.specs.Prelude.{◌≡◌, ◌≤◌, [], ◌∷◌, ◌++◌, ℕ, List, Bool, true, length, IfOk, OnOk, OnErr};
ghost use Rattle.dz_disk.specs.RecordLog.{limit, log};

use std::alloc::{AllocError, Global};

/// What is kept in memory of a list of payloads.
pub trait RecordIndex: Sized + Drop {
    /// Whether a payload can be read.
    ghost reads: { List ℕ → Bool };

    /// The greatest number of octets of a readable payload.
    ghost most: { ℕ };

    /// Whether this is kept of a list of payloads.
    ghost is_of: { Self → List (List ℕ) → Type 0 };

    /// The index of no payload.
    fn empty(alloc: Global) -> Self
        ensures { is_of result [] };

    /// The greatest number of octets of a readable payload, at most 2^40.
    fn longest() -> u64
        ensures most { result ≡ most }
        ensures few { result ≤ limit };

    /// Whether a payload can be read.
    ///
    /// # Errors
    ///
    /// `AllocError` where memory runs out.
    fn is_payload(alloc: Global, payload: &[u8]) -> Result<bool, AllocError>
        ensures { IfOk result (λ b. b ≡ reads payload.now) };

    /// Adds one more payload, whose record has its gate at offset `at`. The index may keep the offset.
    ///
    /// # Errors
    ///
    /// `AllocError` where memory runs out; the index is then of the same list as before.
    fn add(&mut self, alloc: Global, payload: &[u8], at: u64) -> Result<(), AllocError>
        requires { reads payload.now ≡ true }
        ensures ok { OnOk result ((list : List (List ℕ)) → is_of self.old list
            → at ≡ length (log list) → is_of self.new (list ++ payload.now ∷ [])) }
        ensures err { OnErr result ((list : List (List ℕ)) → is_of self.old list
            → is_of self.new list) };

    /// No longer payload can be read.
    ghost is_most: { (payload : List ℕ) → reads payload ≡ true → length payload ≤ most };
}
