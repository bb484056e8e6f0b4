//! What linking is refused for.

use core_link_spec::ResolveError;
use std::alloc::{AllocError, AllocFailed};
use thiserror::Error as Message;
use wgsl_base::Text;
use wgsl_path::ModulePath;

/// Why modules are not linked.
#[derive(Debug, Drop, Message)]
pub enum ImportError {
    /// The module would be one more than are allowed.
    #[error("{0} is one module too many")]
    TooManyModules(ModulePath),
    #[error("{0}")]
    Resolve(ResolveError),
    /// Two declarations or imports of one name in a module.
    #[error("{0} declares {1} twice")]
    DuplicateSymbol(ModulePath, Text),
    /// A name that is sought in a module is neither declared nor imported there.
    #[error("{0} does not declare {1}")]
    MissingDecl(ModulePath, Text),
    /// A name that is sought in a module is only imported there.
    #[error("{0} only imports {1}")]
    Private(ModulePath, Text),
    /// Memory was refused. This says nothing of the modules.
    #[error("out of memory")]
    OutOfMemory,
}

impl From<AllocError> for ImportError {
    ghost use Rattle.std.specs.Prelude.{◌≡◌};
    ghost use Rattle.core_scopes.specs.declared.error.ImportError.TheVariants.{OutOfMemory};

    ghost from_gives = { λ _ e. e ≡ OutOfMemory };

    fn from(_: AllocError) -> ImportError {
        ImportError::OutOfMemory
    }
}

impl<T: Drop> From<AllocFailed<T>> for ImportError {
    ghost use Rattle.std.specs.Prelude.{◌≡◌};
    ghost use Rattle.core_scopes.specs.declared.error.ImportError.TheVariants.{OutOfMemory};

    ghost from_gives = { λ _ e. e ≡ OutOfMemory };

    fn from(_: AllocFailed<T>) -> ImportError {
        ImportError::OutOfMemory
    }
}

impl From<ResolveError> for ImportError {
    ghost use Rattle.core_scopes.specs.Meanings.{GivesError};

    ghost from_gives = { λ error e. GivesError error e };

    fn from(error: ResolveError) -> ImportError {
        match error {
            ResolveError::OutOfMemory => ImportError::OutOfMemory,
            error => ImportError::Resolve(error),
        }
    }
}
