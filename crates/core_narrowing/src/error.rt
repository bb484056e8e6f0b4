//! Why a module is not narrowed.

use std::alloc::AllocError;

/// Why a module is not narrowed.
#[derive(Clone, Copy, Debug)]
pub enum NarrowError {
    /// It uses what no unit has.
    Unsupported,
    /// Memory was refused. This says nothing of the module.
    OutOfMemory,
}

impl From<AllocError> for NarrowError {
    ghost use Rattle.std.specs.Prelude.{◌≡◌};
    ghost use Rattle.core_narrowing.specs.declared.error.NarrowError.TheVariants.{OutOfMemory};

    ghost from_gives = { λ _ error. error ≡ OutOfMemory };

    fn from(_error: AllocError) -> NarrowError {
        NarrowError::OutOfMemory
    }
}
