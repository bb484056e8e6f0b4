//! What an answer is.

use std::alloc::{AllocError, Global};
use wgsl_base::Items;
use wgsl_instance::Instance;
use wgsl_shader_type::{Error, LiteralInstance};

/// What may be a scalar.
pub trait Scalar {
    fn is(&self, wanted: LiteralInstance) -> bool;
}

impl Scalar for Instance {
    fn is(&self, wanted: LiteralInstance) -> bool {
        match self {
            Instance::Literal(value) => *value == wanted,
            _ => false,
        }
    }
}

/// Whether an answer is a value, and this scalar. Over any types of both, since to prove the drop of errors is dear.
pub fn gives<T: Scalar + Drop, E: Drop>(answer: Result<T, E>, wanted: LiteralInstance) -> bool {
    match answer {
        Ok(value) => value.is(wanted),
        Err(_) => false,
    }
}

/// These scalars as values.
pub fn instances(
    alloc: Global,
    scalars: &[LiteralInstance],
) -> Result<Items<Instance>, AllocError> {
    let mut values = Items::new(alloc);
    for scalar in scalars {
        values.push(Instance::Literal(*scalar))?;
    }
    Ok(values)
}

/// The errors that are told apart here.
#[derive(Clone, Copy, PartialEq, Eq)]
pub enum Kind {
    /// There is none.
    Absent,
    AddOverflow,
    DivByZero,
    NotWrite,
    /// By this amount.
    ShlOverflow(u32),
    /// Of this many elements.
    OutOfBounds(usize),
    ConvOverflow,
    Todo,
    Signature,
    Another,
}

/// What has a kind.
pub trait Known {
    fn kind(&self) -> Kind;
}

impl Known for Error {
    fn kind(&self) -> Kind {
        match self {
            Error::AddOverflow => Kind::AddOverflow,
            Error::DivByZero => Kind::DivByZero,
            Error::NotWrite => Kind::NotWrite,
            Error::ShlOverflow(amount, _) => Kind::ShlOverflow(*amount),
            Error::OutOfBounds(_, _, count) => Kind::OutOfBounds(*count),
            Error::ConvOverflow(_, _) => Kind::ConvOverflow,
            Error::Todo(_) => Kind::Todo,
            Error::Signature(_) => Kind::Signature,
            _ => Kind::Another,
        }
    }
}

/// Which error there is, if any.
pub fn error_kind<T: Drop, E: Known + Drop>(answer: Result<T, E>) -> Kind {
    match answer {
        Ok(_) => Kind::Absent,
        Err(error) => error.kind(),
    }
}
