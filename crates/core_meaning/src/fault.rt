//! Why an evaluation goes wrong.

ghost use Rattle.core_meaning.specs.Values as spec;

use std::alloc::Global;
use wgsl_base::{Boxed, OrOutOfMemory, Text};
use wgsl_shader_type::{Error, ShaderType};

/// Why a program or an evaluation goes wrong. It says nothing of memory.
#[derive(Debug, Drop, PartialEq)]
pub enum Fault {
    /// No step is left: a step is the call of a user's function, or a loop's body that is entered.
    StepLimit,
    /// Of an operation on values, an operator, a conversion or a constructor, or of the shader's memory.
    Operation(Boxed<Error>),
    /// A value of this type is used that isn't known yet.
    Deferred(Boxed<ShaderType>),
    /// A number of an attribute is below 0.
    NegativeAttr(i64),
    /// Of what a name stands for.
    Name(NameFault, Text),
}

/// An operation's error as the fault of an evaluation, or that memory was refused: to the operation, or here.
pub fn operation_fault(alloc: Global, error: Error) -> OrOutOfMemory<Fault>
    ensures { spec.IsOperationFault error result }
{
    if matches!(error, Error::OutOfMemory) {
        drop(error);
        return OrOutOfMemory::OutOfMemory;
    }
    match Boxed::new(alloc, error) {
        Ok(error) => OrOutOfMemory::Error(Fault::Operation(error)),
        Err(_) => OrOutOfMemory::OutOfMemory,
    }
}

/// The fault of what a name stands for.
#[derive(Debug, Drop, PartialEq)]
pub enum NameFault {
    /// No value is declared under this name.
    UnknownDecl,
    /// There is such a value, but not at this stage.
    NotAccessible,
    /// There is such a function, but not at the const stage.
    NotConst,
    /// The const is asked for while its own value is sought.
    CyclicDecl,
    /// This project doesn't evaluate it yet.
    Todo,
    /// It is no type.
    NotType,
    /// It can't be called.
    NotCallable,
    /// A const without a value.
    UninitConst,
    /// It takes no template arguments.
    UnexpectedTemplate,
    /// A constructor that takes no such arguments.
    Signature,
    /// The function has the first number of parameters, and is given the second.
    ParamCount(usize, usize),
    /// A function without a value, called for one.
    Void,
    /// A function of this type returns nothing.
    NoReturn(Boxed<ShaderType>),
    /// A function without a type returns a value of this type.
    UnexpectedReturn(Boxed<ShaderType>),
    /// The function returns the first type, which doesn't convert to its own, the second.
    ReturnType(Boxed<ShaderType>, Boxed<ShaderType>),
    /// The function has no stage.
    NotEntrypoint,
    /// A parameter of an entry point without a location.
    InvalidEntrypointParam,
    /// Nothing is handed in for this parameter's location.
    MissingUserInput(u32),
}
