//! What linking is refused for.

use std::alloc::{AllocError, AllocFailed};
use thiserror::Error as Message;
use wesl_resolvers::ResolveError;
use wgsl_base::Text;
use wgsl_path::ModulePath;

/// Why modules are not linked.
#[derive(Debug, Drop, Message)]
pub enum ImportError {
    /// Two declarations or imports of one name in a module.
    #[error("{0} declares {1} twice")]
    DuplicateSymbol(ModulePath, Text),
    /// A name that is sought in a module is neither declared nor imported there, or what it is imported from never ends.
    #[error("{0} does not declare {1}")]
    MissingDecl(ModulePath, Text),
    /// A name that is sought in a module is only imported there, and not published.
    #[error("{0} only imports {1}")]
    Private(ModulePath, Text),
    /// The resolver has no module at a path. It is never `ResolveError::OutOfMemory`.
    #[error("{0}")]
    Resolve(ResolveError),
    /// The module would be one more than are allowed.
    #[error("{0} is one module too many")]
    TooManyModules(ModulePath),
    /// Memory was refused. This says nothing of the modules.
    #[error("out of memory")]
    OutOfMemory,
}

impl From<AllocError> for ImportError {
    ghost use Rattle.std.specs.Prelude.{◌≡◌};
    ghost use Rattle.wesl_module_index.specs.declared.error.ImportError.TheVariants.{OutOfMemory};

    ghost from_gives = { λ _ e. e ≡ OutOfMemory };

    fn from(_: AllocError) -> ImportError {
        ImportError::OutOfMemory
    }
}

impl<T: Drop> From<AllocFailed<T>> for ImportError {
    ghost use Rattle.std.specs.Prelude.{◌≡◌};
    ghost use Rattle.wesl_module_index.specs.declared.error.ImportError.TheVariants.{OutOfMemory};

    ghost from_gives = { λ _ e. e ≡ OutOfMemory };

    fn from(_: AllocFailed<T>) -> ImportError {
        ImportError::OutOfMemory
    }
}

impl From<ResolveError> for ImportError {
    fn from(error: ResolveError) -> ImportError {
        match error {
            ResolveError::OutOfMemory => ImportError::OutOfMemory,
            error => ImportError::Resolve(error),
        }
    }
}
