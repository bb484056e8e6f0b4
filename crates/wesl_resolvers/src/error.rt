//! Why a resolver gives no module.

use std::alloc::AllocError;
use thiserror::Error as Message;
use wesl_conditions::CondCompError;
use wgsl_path::ModulePath;
use wgsl_token::fault::{Error, Refusal};

/// Why a resolver gives no module for a path.
#[derive(Debug, Drop, Message)]
pub enum ResolveError {
    #[error("there is no module at {0}")]
    ModuleNotFound(ModulePath),
    /// The fault of the module's text.
    #[error("in {0}: {1}")]
    Syntax(ModulePath, Error),
    /// The parser gave up on the module's text, as where it is nested too deep. This says nothing else of the module.
    #[error("in {0}: {1}")]
    GaveUp(ModulePath, Refusal),
    /// The first error of the module's conditions. It is never `CondCompError::OutOfMemory`.
    #[error("in {0}: {1}")]
    Condition(ModulePath, CondCompError),
    /// A condition of the module is not decided.
    #[error("a condition is left in {0}")]
    ConditionLeft(ModulePath),
    /// Memory was refused. This says nothing of the module.
    #[error("out of memory")]
    OutOfMemory,
}

impl From<AllocError> for ResolveError {
    ghost use Rattle.std.specs.Prelude.{◌≡◌};
    ghost use Rattle.wesl_resolvers.specs.declared.error.ResolveError.TheVariants.{OutOfMemory};

    ghost from_gives = { λ _ e. e ≡ OutOfMemory };

    fn from(_: AllocError) -> ResolveError {
        ResolveError::OutOfMemory
    }
}
