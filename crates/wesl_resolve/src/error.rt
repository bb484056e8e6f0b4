//! Why a resolver gives no module.

use std::alloc::AllocError;
use thiserror::Error as Message;
use wgsl_path::ModulePath;
use wgsl_token::fault::{Error, Refusal};

/// Why a resolver gives no module for a path.
#[derive(Debug, Drop, Message)]
pub enum ResolveError {
    #[error("there is no module at {0}")]
    ModuleNotFound(ModulePath),
    #[error("in {0}: {1}")]
    Syntax(ModulePath, Error),
    /// The module uses what is not supported yet.
    #[error("{0} uses what is not supported yet")]
    Unsupported(ModulePath),
    /// The parser gave up on the module's text, which is nested too deep. This says nothing else of the module.
    #[error("in {0}: {1}")]
    GaveUp(ModulePath, Refusal),
    /// Memory was refused. This says nothing of the module.
    #[error("out of memory")]
    OutOfMemory,
}

impl From<AllocError> for ResolveError {
    ghost use Rattle.std.specs.Prelude.{◌≡◌};
    ghost use Rattle.wesl_resolve.specs.declared.error.ResolveError.TheVariants.{OutOfMemory};

    ghost from_gives = { λ _ e. e ≡ OutOfMemory };

    fn from(_: AllocError) -> ResolveError {
        ResolveError::OutOfMemory
    }
}
