//! Why an evaluation gives no value.

ghost use Rattle.core_meaning.specs.Outcome as spec;
ghost use Rattle.core_eval.specs.Ends.{Ends, IsFault};
ghost use Rattle.core_eval.specs.Refusals.{IsRefusal};

use core_meaning::{Fault, NameFault, operation_fault};
use std::alloc::Global;
use wgsl_base::{CloneIn, OrOutOfMemory, Text};
use wgsl_shader_type::Error;

/// Why an evaluation gives no value: the fault of the expression, or that memory was refused.
pub type EvalError = OrOutOfMemory<Fault>;

/// The fault of a name.
pub(crate) fn named(alloc: Global, fault: NameFault, name: &Text) -> EvalError
    ensures { IsFault (Fault.Name fault name.now) result }
{
    match name.clone_in(alloc) {
        Ok(name) => OrOutOfMemory::Error(Fault::Name(fault, name)),
        Err(_) => OrOutOfMemory::OutOfMemory,
    }
}

/// What an operation gives, with its error as the fault.
#[inline(never)]
pub fn computed<T>(alloc: Global, operation: Result<T, Error>) -> Result<T, EvalError>
    ensures { Ends (spec.computed operation) result }
{
    match operation {
        Ok(value) => Ok(value),
        Err(error) => Err(operation_fault(alloc, error)),
    }
}

/// The fault of a declaration.
#[derive(Debug, Drop)]
pub struct DeclarationFault {
    /// The name of the declaration whose value is sought, or that is rewritten.
    pub declaration: Text,
    pub fault: Fault,
}

/// Why a unit is refused, or that memory was.
pub type UnitError = OrOutOfMemory<DeclarationFault>;

/// The refusal of a declaration for a fault.
pub fn refused(alloc: Global, declaration: &Text, error: EvalError) -> UnitError
    ensures { IsRefusal declaration.now error result }
{
    match error {
        OrOutOfMemory::OutOfMemory => OrOutOfMemory::OutOfMemory,
        OrOutOfMemory::Error(fault) => match declaration.clone_in(alloc) {
            Ok(declaration) => OrOutOfMemory::Error(DeclarationFault { declaration, fault }),
            Err(_) => OrOutOfMemory::OutOfMemory,
        },
    }
}
