//! What validation refuses.

ghost use Rattle.std.specs.Prelude.{◌≡◌, IfOk};
ghost use Rattle.wgsl_base.specs.Memory.{UnlessOutOfMemory};
ghost use Rattle.core_validate.specs.Faults.{fault};

use std::alloc::{AllocError, Global};
use thiserror::Error as Message;
use wgsl_base::{OrOutOfMemory, Text};

/// What kind of fault a unit has.
#[derive(Clone, Copy, Debug, Message)]
pub enum ValidateError {
    /// A name that nothing declares.
    #[error("undefined symbol")]
    UndefinedSymbol,
    /// A call that has not one argument for each parameter.
    #[error("wrong number of arguments")]
    ParamCount,
    /// A call of what is no function.
    #[error("not callable")]
    NotCallable,
    /// The second of two locals of one name in one scope.
    #[error("duplicate declaration")]
    Duplicate,
    /// A declaration that leads back to itself.
    #[error("cyclic declaration")]
    Cycle,
}

/// The fault of a unit: the declaration that holds its place, and the name concerned.
#[derive(Debug, Drop, Message)]
#[error("{kind}: `{name}` in `{declaration}`")]
pub struct ValidateFault {
    pub kind: ValidateError,
    pub declaration: Text,
    pub name: Text,
}

fn copied_fault(
    alloc: Global,
    kind: ValidateError,
    declaration: &str,
    name: &str,
) -> Result<ValidateFault, AllocError>
    ensures { IfOk result (λ made. made ≡ fault kind declaration.now name.now) }
{
    Ok(ValidateFault {
        kind,
        declaration: Text::from_str(alloc, declaration)?,
        name: Text::from_str(alloc, name)?,
    })
}

/// This fault as an error, or that memory was refused.
pub(crate) fn refused(
    alloc: Global,
    kind: ValidateError,
    declaration: &str,
    name: &str,
) -> OrOutOfMemory<ValidateFault>
    ensures { UnlessOutOfMemory (λ made. made ≡ fault kind declaration.now name.now) result }
{
    match copied_fault(alloc, kind, declaration, name) {
        Ok(made) => OrOutOfMemory::Error(made),
        Err(_) => OrOutOfMemory::OutOfMemory,
    }
}
