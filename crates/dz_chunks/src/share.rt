//! Values that can be shared.

ghost use Rattle.std.specs.Prelude.{◌≡◌, IfOk};

use std::alloc::AllocError;

/// A value of which there can be one more, as by one more reference to it.
pub trait Share: Sized {
    /// One more, which contracts see as equal. The error is want of memory.
    fn share(&self) -> Result<Self, AllocError>
        ensures { IfOk result (λ shared. shared ≡ self.now) };
}
