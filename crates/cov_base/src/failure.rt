//! What a call that allocates answers in place of its value.

ghost use Rattle.std.specs.Prelude.{◌≡◌};
ghost use Rattle.cov_base.specs.declared.failure.Failure.TheVariants.{WantOfMemory};

use std::alloc::{AllocError, AllocFailed};

/// Why a call has no value: a named fault of what it was given, or want of memory, which is merged
/// with nothing.
#[derive(Clone, Copy)]
pub enum Failure<F> {
    /// The fault.
    Fault(F),
    /// Memory was refused.
    WantOfMemory,
}

impl<F> From<AllocError> for Failure<F> {
    ghost from_gives = { λ _ failure. failure ≡ WantOfMemory };

    fn from(_refused: AllocError) -> Self {
        Failure::WantOfMemory
    }
}

impl<T: Drop, F> From<AllocFailed<T>> for Failure<F> {
    ghost from_gives = { λ _ failure. failure ≡ WantOfMemory };

    fn from(_refused: AllocFailed<T>) -> Self {
        Failure::WantOfMemory
    }
}
