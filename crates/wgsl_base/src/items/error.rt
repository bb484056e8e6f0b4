//! An error of a call that may also run out of memory.

use std::alloc::{AllocError, AllocFailed};

/// What went wrong: an error that says something of the input, or that memory was refused, which says nothing of it.
#[derive(Clone, Copy, Debug, Drop, PartialEq, Eq)]
pub enum OrOutOfMemory<E> {
    Error(E),
    /// Memory was refused.
    OutOfMemory,
}

impl<E> From<AllocError> for OrOutOfMemory<E> {
    ghost use Rattle.std.specs.Prelude.{◌≡◌};
    ghost use Rattle.wgsl_base.specs.declared.items.error.OrOutOfMemory.TheVariants.{OutOfMemory};

    ghost from_gives = { λ _ e. e ≡ OutOfMemory };

    fn from(_: AllocError) -> OrOutOfMemory<E> {
        OrOutOfMemory::OutOfMemory
    }
}

impl<E, T: Drop> From<AllocFailed<T>> for OrOutOfMemory<E> {
    ghost use Rattle.std.specs.Prelude.{◌≡◌};
    ghost use Rattle.wgsl_base.specs.declared.items.error.OrOutOfMemory.TheVariants.{OutOfMemory};

    ghost from_gives = { λ _ e. e ≡ OutOfMemory };

    fn from(_: AllocFailed<T>) -> OrOutOfMemory<E> {
        OrOutOfMemory::OutOfMemory
    }
}
