//! Refusals of the evaluator.

use crate::faults::kinds::{
    BuiltinFault, NameFault, PairFault, PlainFault, ResourceFault, ReturnFault, TypeFault,
};
use crate::faults::operation::{operation_kind, operation_name};
use std::alloc::{AllocError, AllocFailed};
use wgsl_base::{Boxed, OrOutOfMemory, Text};
use wgsl_shader_type::{Error, Type};
use wgsl_words::{AddressSpace, BuiltinValue, ShaderStage};

/// What the evaluator refuses. Memory apart, each refusal of it is one of these.
#[derive(Debug, Drop)]
pub enum Fault {
    /// By the rules of types and operators.
    Operation(Boxed<Error>),
    Plain(PlainFault),
    Name(NameFault, Text),
    Type(TypeFault, Type),
    Types(PairFault, Type, Type),
    /// A value of a module that has none at this stage.
    NotAccessible(Text, ShaderStage),
    /// What a function of a name returned doesn't convert to its type: the type returned, then the function's.
    ReturnType(Text, Type, Type),
    Return(ReturnFault, Text, Type),
    Builtin(BuiltinFault, BuiltinValue),
    /// No input for a parameter of this name.
    MissingBuiltinInput(BuiltinValue, Text),
    /// No input at this location for a parameter of this name.
    MissingUserInput(Text, u32),
    Resource(ResourceFault, u32, u32),
    /// An initializer of a variable in an address space that takes none.
    ForbiddenInitializer(AddressSpace),
    /// A variable in an address space, or with an access mode, that isn't allowed where it stands.
    ForbiddenDecl,
    NegativeAttr(i64),
    InvalidBlendSrc(u32),
}

impl Fault {
    /// The word of the kind.
    pub fn kind(&self) -> &'static str {
        match self {
            Fault::Operation(error) => operation_kind(error.get()),
            Fault::Plain(kind) => kind.kind(),
            Fault::Name(kind, _) => kind.kind(),
            Fault::Type(kind, _) => kind.kind(),
            Fault::Types(kind, _, _) => kind.kind(),
            Fault::NotAccessible(_, _) => "NotAccessible",
            Fault::ReturnType(_, _, _) => "ReturnType",
            Fault::Return(kind, _, _) => kind.kind(),
            Fault::Builtin(kind, _) => kind.kind(),
            Fault::MissingBuiltinInput(_, _) => "MissingBuiltinInput",
            Fault::MissingUserInput(_, _) => "MissingUserInput",
            Fault::Resource(kind, _, _) => kind.kind(),
            Fault::ForbiddenInitializer(_) => "ForbiddenInitializer",
            Fault::ForbiddenDecl => "ForbiddenDecl",
            Fault::NegativeAttr(_) => "NegativeAttr",
            Fault::InvalidBlendSrc(_) => "InvalidBlendSrc",
        }
    }

    /// The name that the refusal concerns, if it concerns one.
    pub fn name(&self) -> Option<&str> {
        match self {
            Fault::Operation(error) => operation_name(error.get()),
            Fault::Name(_, name)
            | Fault::NotAccessible(name, _)
            | Fault::ReturnType(name, _, _)
            | Fault::Return(_, name, _)
            | Fault::MissingBuiltinInput(_, name)
            | Fault::MissingUserInput(name, _) => Some(name.as_str()),
            _ => None,
        }
    }
}

/// A refusal of the evaluator, or for want of memory.
pub type EvalError = OrOutOfMemory<Fault>;

/// Why the machine stopped before its end.
#[derive(Clone, Copy)]
pub enum Stop {
    /// A fault, which the machine keeps.
    Fault,
    /// Memory was refused.
    OutOfMemory,
}

impl From<AllocError> for Stop {
    fn from(_error: AllocError) -> Stop {
        Stop::OutOfMemory
    }
}

impl<T: Drop> From<AllocFailed<T>> for Stop {
    fn from(_error: AllocFailed<T>) -> Stop {
        Stop::OutOfMemory
    }
}
