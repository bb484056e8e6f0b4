//! What validation refuses.

use std::alloc::{AllocError, Global};
use thiserror::Error as Message;
use wgsl_base::{OrOutOfMemory, Text};

/// What kind of fault a unit has.
#[derive(Clone, Copy, Debug, PartialEq, Eq, Message)]
pub enum ValidateError {
    /// A name that nothing declares.
    #[error("undefined symbol")]
    UndefinedSymbol,
    /// A call that has not one argument for each parameter, or of a structure neither none nor one for each member.
    #[error("wrong number of arguments")]
    ParamCount,
    /// A call of a local or of a value.
    #[error("not callable")]
    NotCallable,
    /// The second of two locals of one name in one scope, or of two members of one name.
    #[error("duplicate declaration")]
    Duplicate,
    /// A declaration that leads back to itself.
    #[error("cyclic declaration")]
    Cycle,
}

/// The fault of a unit: the number of the directive or declaration that holds its place, directives first and `;` counted, and the name
/// concerned.
#[derive(Debug, Drop, PartialEq, Message)]
#[error("{kind}: `{name}`")]
pub struct ValidateFault {
    pub kind: ValidateError,
    pub place: usize,
    pub name: Text,
}

/// A fault as it is found: the name is still a number of the list of marks.
#[derive(Clone, Copy)]
pub(crate) struct Found {
    pub kind: ValidateError,
    pub place: usize,
    pub name: u32,
}

/// A fault with the text of its name, or that memory was refused.
pub(crate) fn refused(alloc: Global, found: Found, name: &str) -> OrOutOfMemory<ValidateFault> {
    match Text::from_str(alloc, name) {
        Ok(name) => OrOutOfMemory::Error(ValidateFault {
            kind: found.kind,
            place: found.place,
            name,
        }),
        Err(AllocError) => OrOutOfMemory::OutOfMemory,
    }
}
