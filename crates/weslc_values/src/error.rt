//! Why JSON is no value.

use std::alloc::{AllocError, AllocFailed};

/// Why what stands in JSON is not what is asked for.
#[derive(Clone, Copy)]
pub enum ValueError {
    /// It is something else.
    Unexpected,
    /// Memory was refused. This says nothing of the JSON.
    OutOfMemory,
}

impl From<AllocError> for ValueError {
    ghost use Rattle.std.specs.Prelude.{◌≡◌};
    ghost use Rattle.weslc_values.specs.declared.error.ValueError.TheVariants.{OutOfMemory};

    ghost from_gives = { λ _ e. e ≡ OutOfMemory };

    fn from(_: AllocError) -> ValueError {
        ValueError::OutOfMemory
    }
}

impl<T: Drop> From<AllocFailed<T>> for ValueError {
    ghost use Rattle.std.specs.Prelude.{◌≡◌};
    ghost use Rattle.weslc_values.specs.declared.error.ValueError.TheVariants.{OutOfMemory};

    ghost from_gives = { λ _ e. e ≡ OutOfMemory };

    fn from(_: AllocFailed<T>) -> ValueError {
        ValueError::OutOfMemory
    }
}
