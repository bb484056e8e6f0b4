//! What is done with each module that is resolved.

ghost use Rattle.wgsl_declarations.specs.Tree.{UnitTree};
ghost use Rattle.wgsl_declarations.specs.View.{unit_tree};
ghost use Rattle.wesl_resolvers.specs.Found.{Answer};
ghost use Rattle.wesl_resolve_fn.specs.Applying.{TellsApplied};

use std::alloc::{AllocError, Global};
use thiserror::Error as Message;
use wesl_conditions::CondCompError;
use wgsl_declarations::TranslationUnit;

/// Why nothing is made of a module.
#[derive(Debug, Drop, Message)]
pub enum ApplyError {
    /// The first error of the module's conditions. It is never `CondCompError::OutOfMemory`.
    #[error("{0}")]
    Condition(CondCompError),
    /// A condition is not decided.
    #[error("a condition is left")]
    Left,
    /// Memory was refused. This says nothing of the module.
    #[error("out of memory")]
    OutOfMemory,
}

impl From<AllocError> for ApplyError {
    ghost use Rattle.std.specs.Prelude.{◌≡◌};
    ghost use Rattle.wesl_resolve_fn.specs.declared.resolve_fn.ApplyError.TheVariants.{OutOfMemory};

    ghost from_gives = { λ _ e. e ≡ OutOfMemory };

    fn from(_: AllocError) -> ApplyError {
        ApplyError::OutOfMemory
    }
}

/// Makes a module of each module, or refuses it: a fixed function of the module.
pub trait ResolveFn: Drop {
    /// What is made of a module, or why it is refused. It is a module, an error of its conditions, or that a condition is left.
    ghost applied: { Self → UnitTree → Answer };

    /// Changes a module in place. Where it is refused the module may be changed too.
    fn apply(&self, alloc: Global, unit: &mut TranslationUnit) -> Result<(), ApplyError>
        ensures { TellsApplied (applied self.now (unit_tree unit.old)) (unit_tree unit.new) result };
}
