//! What the rules of types and operators refuse.

ghost use Rattle.std.specs.Prelude.{◌≡◌, IfOk};
ghost use Rattle.wgsl_shader_type.specs.declared.error.Error.TheVariants as error;

use crate::literal::{CallSignature, LiteralInstance};
use crate::tree::Type;
use std::alloc::{AllocError, AllocFailed, Global};
use thiserror::Error;
use wgsl_base::{CloneIn, Text};
use wgsl_words::{BinaryOperator, UnaryOperator};

/// A refusal by a rule of types, values or operators, or for want of memory.
#[derive(Debug, Drop, PartialEq, Error)]
pub enum Error {
    #[error("not supported here: `{0}`")]
    Todo(Text),
    #[error("expected a scalar type, got `{0}`")]
    NotScalar(Type),
    #[error("the type `{0}` is not constructible")]
    NotConstructible(Type),
    #[error("unknown type `{0}`")]
    UnknownType(Text),
    #[error("the type `{0}` takes no template arguments")]
    UnexpectedTemplate(Text),
    #[error("missing template arguments for `{0}`")]
    MissingTemplate(&'static str),
    #[error("cannot write a `{0}` to a reference to `{1}`")]
    WriteRefType(Type, Type),
    #[error("attempt to write to a reference without write access")]
    NotWrite,
    #[error("attempt to read from a reference without read access")]
    NotRead,
    #[error("reference is not accessible for both reading and writing")]
    NotReadWrite,
    #[error("cannot create a pointer into the `handle` address space")]
    PtrHandle,
    #[error("cannot create a pointer to a vector component")]
    PtrVecComp,
    #[error("cannot convert from `{0}` to `{1}`")]
    Conversion(Type, Type),
    #[error("overflow in the conversion of `{0}` to `{1}`")]
    ConvOverflow(LiteralInstance, Type),
    #[error("`{0}` has no component `{1}`")]
    Component(Type, Text),
    #[error("`{0}` cannot be indexed")]
    NotIndexable(Type),
    #[error("index `{0}` is out of bounds of a `{1}` of {2} elements")]
    OutOfBounds(i64, Type, usize),
    #[error("cannot use the operator `{0}` on an operand of type `{1}`")]
    Unary(UnaryOperator, Type),
    #[error("cannot use the operator `{0}` on operands of types `{1}` and `{2}`")]
    Binary(BinaryOperator, Type, Type),
    #[error("cannot apply a component-wise operator to `{0}` and `{1}`")]
    CompwiseBinary(Type, Type),
    #[error("attempt to add with overflow")]
    AddOverflow,
    #[error("attempt to subtract with overflow")]
    SubOverflow,
    #[error("attempt to multiply with overflow")]
    MulOverflow,
    #[error("attempt to divide by zero")]
    DivByZero,
    #[error("attempt to take a remainder with a divisor of zero")]
    RemZeroDiv,
    #[error("attempt to shift `{1}` left by `{0}`, which overflows")]
    ShlOverflow(u32, LiteralInstance),
    #[error("attempt to shift `{1}` right by `{0}`, which overflows")]
    ShrOverflow(u32, LiteralInstance),
    #[error("no such call of `{}`", .0.name)]
    Signature(CallSignature),
    #[error("{0}")]
    Builtin(&'static str),
    #[error("invalid template arguments of `{0}`")]
    TemplateArgs(&'static str),
    #[error("incorrect number of arguments to `{0}`: expected {1}, got {2}")]
    ParamCount(Text, usize, usize),
    #[error("invalid parameter type: expected `{0}`, got `{1}`")]
    ParamType(Type, Type),
    #[error("out of memory")]
    OutOfMemory,
}

/// Copies of two types in fresh memory.
fn copied_pair(alloc: Global, first: &Type, second: &Type) -> Result<(Type, Type), AllocError>
    ensures { IfOk result (λ pair. pair ≡ (first.now, second.now)) }
{
    let first = first.clone(alloc)?;
    let second = second.clone(alloc)?;
    Ok((first, second))
}

/// The refusal of a component, its parts copied in fresh memory.
fn copied_component(alloc: Global, ty: &Type, name: &Text) -> Result<Error, AllocError>
    ensures { IfOk result (λ copy. copy ≡ error.Component ty.now name.now) }
{
    let ty = ty.clone(alloc)?;
    let name = name.clone_in(alloc)?;
    Ok(Error::Component(ty, name))
}

impl Error {
    /// A copy in fresh memory.
    pub fn clone(&self, alloc: Global) -> Result<Error, AllocError>
        ensures { IfOk result (λ copy. copy ≡ self.now) }
    {
        match self {
            Error::Todo(name) => Ok(Error::Todo(name.clone_in(alloc)?)),
            Error::NotScalar(ty) => Ok(Error::NotScalar(ty.clone(alloc)?)),
            Error::NotConstructible(ty) => Ok(Error::NotConstructible(ty.clone(alloc)?)),
            Error::UnknownType(name) => Ok(Error::UnknownType(name.clone_in(alloc)?)),
            Error::UnexpectedTemplate(name) => Ok(Error::UnexpectedTemplate(name.clone_in(alloc)?)),
            Error::MissingTemplate(what) => Ok(Error::MissingTemplate(*what)),
            Error::WriteRefType(written, stored) => {
                let (written, stored) = copied_pair(alloc, written, stored)?;
                Ok(Error::WriteRefType(written, stored))
            }
            Error::NotWrite => Ok(Error::NotWrite),
            Error::NotRead => Ok(Error::NotRead),
            Error::NotReadWrite => Ok(Error::NotReadWrite),
            Error::PtrHandle => Ok(Error::PtrHandle),
            Error::PtrVecComp => Ok(Error::PtrVecComp),
            Error::Conversion(from, to) => {
                let (from, to) = copied_pair(alloc, from, to)?;
                Ok(Error::Conversion(from, to))
            }
            Error::ConvOverflow(literal, ty) => Ok(Error::ConvOverflow(*literal, ty.clone(alloc)?)),
            Error::Component(ty, name) => copied_component(alloc, ty, name),
            Error::NotIndexable(ty) => Ok(Error::NotIndexable(ty.clone(alloc)?)),
            Error::OutOfBounds(index, ty, count) => Ok(Error::OutOfBounds(
                *index,
                ty.clone(alloc)?,
                *count,
            )),
            Error::Unary(operator, ty) => Ok(Error::Unary(*operator, ty.clone(alloc)?)),
            Error::Binary(operator, left, right) => {
                let (left, right) = copied_pair(alloc, left, right)?;
                Ok(Error::Binary(*operator, left, right))
            }
            Error::CompwiseBinary(left, right) => {
                let (left, right) = copied_pair(alloc, left, right)?;
                Ok(Error::CompwiseBinary(left, right))
            }
            Error::AddOverflow => Ok(Error::AddOverflow),
            Error::SubOverflow => Ok(Error::SubOverflow),
            Error::MulOverflow => Ok(Error::MulOverflow),
            Error::DivByZero => Ok(Error::DivByZero),
            Error::RemZeroDiv => Ok(Error::RemZeroDiv),
            Error::ShlOverflow(amount, literal) => Ok(Error::ShlOverflow(*amount, *literal)),
            Error::ShrOverflow(amount, literal) => Ok(Error::ShrOverflow(*amount, *literal)),
            Error::Signature(call) => Ok(Error::Signature(call.clone(alloc)?)),
            Error::Builtin(what) => Ok(Error::Builtin(*what)),
            Error::TemplateArgs(what) => Ok(Error::TemplateArgs(*what)),
            Error::ParamCount(name, expected, given) => Ok(Error::ParamCount(
                name.clone_in(alloc)?,
                *expected,
                *given,
            )),
            Error::ParamType(expected, given) => {
                let (expected, given) = copied_pair(alloc, expected, given)?;
                Ok(Error::ParamType(expected, given))
            }
            Error::OutOfMemory => Ok(Error::OutOfMemory),
        }
    }
}

impl CloneIn for Error {
    fn clone_in(&self, alloc: Global) -> Result<Error, AllocError> {
        self.clone(alloc)
    }
}

impl From<AllocError> for Error {
    ghost use Rattle.std.specs.Prelude.{◌≡◌};
    ghost use Rattle.wgsl_shader_type.specs.declared.error.Error.TheVariants.{OutOfMemory};

    ghost from_gives = { λ _ error. error ≡ OutOfMemory };

    fn from(_error: AllocError) -> Error {
        Error::OutOfMemory
    }
}

impl<T: Drop> From<AllocFailed<T>> for Error {
    ghost use Rattle.std.specs.Prelude.{◌≡◌};
    ghost use Rattle.wgsl_shader_type.specs.declared.error.Error.TheVariants.{OutOfMemory};

    ghost from_gives = { λ _ error. error ≡ OutOfMemory };

    fn from(_error: AllocFailed<T>) -> Error {
        Error::OutOfMemory
    }
}
