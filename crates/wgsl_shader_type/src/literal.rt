//! Literals, and the arguments of templates.

ghost use Rattle.std.specs.Prelude.{◌≡◌, ◌⊎◌, Some, None, IfOk, MatchResult};
ghost use Rattle.wgsl_shader_type.specs.Literal.{zero_of, zero_fault};

use crate::error::Error;
use crate::tree::Type;
use std::alloc::{AllocError, Global};
use std::fmt;
use wgsl_base::{CloneIn, Items, Text};
use wgsl_words::Enumerant;

/// The value of a scalar.
#[derive(Clone, Copy, Debug, PartialEq, Eq)]
pub enum LiteralInstance {
    Bool(bool),
    AbstractInt(i64),
    I32(i32),
    U32(u32),
}

impl fmt::Display for LiteralInstance {
    ghost use Rattle.std.specs.Prelude.{Some};
    ghost use Rattle.wgsl_shader_type.specs.Literal.{literal_text};

    ghost output = { λ literal. Some (literal_text literal) };

    fn fmt<W: fmt::Write>(&self, f: &mut fmt::Formatter<W>) -> fmt::Result {
        match self {
            LiteralInstance::Bool(value) => write!(f, "{value}"),
            LiteralInstance::AbstractInt(value) => write!(f, "{value}"),
            LiteralInstance::I32(value) => write!(f, "{value}i"),
            LiteralInstance::U32(value) => write!(f, "{value}u"),
        }
    }
}

impl LiteralInstance {
    /// The zero value of a scalar type. A floating type is `Todo` with its text, what is no scalar `NotScalar`.
    pub fn zero_value(alloc: Global, ty: &Type) -> Result<LiteralInstance, Error>
        ensures { MatchResult result
            (λ zero. zero_of ty.now ≡ Some zero)
            (λ error. (error ≡ Error.OutOfMemory) ⊎ ((zero_of ty.now ≡ None) × (error ≡ zero_fault ty.now))) }
    {
        match ty {
            Type::Bool => Ok(LiteralInstance::Bool(false)),
            Type::AbstractInt => Ok(LiteralInstance::AbstractInt(0)),
            Type::I32 => Ok(LiteralInstance::I32(0)),
            Type::U32 => Ok(LiteralInstance::U32(0)),
            Type::AbstractFloat => Err(left_out(alloc, "AbstractFloat")?),
            Type::F32 => Err(left_out(alloc, "f32")?),
            Type::F16 => Err(left_out(alloc, "f16")?),
            _ => {
                let ty = ty.clone(alloc)?;
                Err(Error::NotScalar(ty))
            }
        }
    }
}

/// The refusal of a type that isn't supported.
fn left_out(alloc: Global, text: &str) -> Result<Error, AllocError>
    ensures { IfOk result (λ error. error ≡ Error.Todo text.now) }
{
    let name = Text::from_str(alloc, text)?;
    Ok(Error::Todo(name))
}

/// An argument of a template: a type, a value, or a word for a choice.
#[derive(Debug, Drop, PartialEq)]
pub enum TpltParam {
    Ty(Type),
    Instance(LiteralInstance),
    Enumerant(Enumerant),
}

/// How a function was called: its name, the arguments of its template, if it had any, and the types of its arguments.
#[derive(Debug, Drop, PartialEq)]
pub struct CallSignature {
    pub name: Text,
    pub tplt: Option<Items<TpltParam>>,
    pub args: Items<Type>,
}

impl TpltParam {
    /// A copy in fresh memory.
    pub fn clone(&self, alloc: Global) -> Result<TpltParam, AllocError>
        ensures { IfOk result (λ copy. copy ≡ self.now) }
    {
        match self {
            TpltParam::Ty(ty) => {
                let ty = ty.clone(alloc)?;
                Ok(TpltParam::Ty(ty))
            }
            TpltParam::Instance(literal) => Ok(TpltParam::Instance(*literal)),
            TpltParam::Enumerant(word) => Ok(TpltParam::Enumerant(*word)),
        }
    }
}

impl CloneIn for TpltParam {
    fn clone_in(&self, alloc: Global) -> Result<TpltParam, AllocError> {
        self.clone(alloc)
    }
}

impl CallSignature {
    /// A copy in fresh memory.
    pub fn clone(&self, alloc: Global) -> Result<CallSignature, AllocError>
        ensures { IfOk result (λ copy. copy ≡ self.now) }
    {
        Ok(CallSignature {
            name: self.name.clone_in(alloc)?,
            tplt: self.tplt.clone_in(alloc)?,
            args: self.args.clone_in(alloc)?,
        })
    }
}

impl CloneIn for CallSignature {
    fn clone_in(&self, alloc: Global) -> Result<CallSignature, AllocError> {
        self.clone(alloc)
    }
}
