//! The types of scalars, their numbers and ranges (WGSL, "Boolean Type", "Integer Types").

ghost use Rattle.std.specs.Prelude.{◌≡◌, ◌^◌, Some, None, if◌then◌else◌, ℤ, pos, FitsSigned, unsigned_abs};
ghost use Rattle.std.specs.Int.{int_wrap, int_rem_euclid, w32, w64};
ghost use Rattle.wgsl_scalar.specs.Scalars as spec;

use wgsl_type_operators::{LiteralInstance, Type};

/// 2^32, the modulus of integers of 32 bits.
const MODULUS: i128 = 4294967296;

/// A type of integers.
#[derive(Clone, Copy, Debug, PartialEq, Eq)]
pub enum IntegerType {
    /// From -2^63 to 2^63 - 1; no text names it.
    AbstractInt,
    /// `i32`
    I32,
    /// `u32`
    U32,
}

/// A type of scalars that has values here.
#[derive(Clone, Copy, Debug, PartialEq, Eq)]
pub enum ScalarType {
    /// `bool`
    Bool,
    Integer(IntegerType),
}

impl IntegerType {
    /// The same as a type.
    pub fn ty(self) -> Type
        ensures { result ≡ spec.integer_type self }
    {
        match self {
            IntegerType::AbstractInt => Type::AbstractInt,
            IntegerType::I32 => Type::I32,
            IntegerType::U32 => Type::U32,
        }
    }

    /// How many bits an integer has.
    pub fn width(self) -> u32
        ensures { result ≡ spec.width self }
    {
        match self {
            IntegerType::AbstractInt => 64,
            IntegerType::I32 | IntegerType::U32 => 32,
        }
    }
}

impl ScalarType {
    /// The same as a type.
    pub fn ty(self) -> Type
        ensures { result ≡ spec.scalar_type self }
    {
        match self {
            ScalarType::Bool => Type::Bool,
            ScalarType::Integer(ty) => ty.ty(),
        }
    }
}

/// The type of a scalar.
pub fn type_of(value: LiteralInstance) -> ScalarType
    ensures { result ≡ spec.type_of value }
{
    match value {
        LiteralInstance::Bool(_) => ScalarType::Bool,
        LiteralInstance::AbstractInt(_) => ScalarType::Integer(IntegerType::AbstractInt),
        LiteralInstance::I32(_) => ScalarType::Integer(IntegerType::I32),
        LiteralInstance::U32(_) => ScalarType::Integer(IntegerType::U32),
    }
}

/// The number, without its type. True is 1, false is 0.
pub(crate) fn number(value: LiteralInstance) -> i128
    ensures value { result ≡ spec.number value }
    ensures range { FitsSigned w64 result }
{
    match value {
        LiteralInstance::Bool(true) => 1,
        LiteralInstance::Bool(false) => 0,
        LiteralInstance::AbstractInt(z) => z as i128,
        LiteralInstance::I32(z) => z as i128,
        LiteralInstance::U32(n) => n as i128,
    }
}

/// The value of a type with this number, if it is in the type's range.
pub(crate) fn value_at(ty: IntegerType, z: i128) -> Option<LiteralInstance>
    ensures { result ≡ (if spec.fits ty z then Some (spec.value_at ty z) else None) }
{
    match ty {
        IntegerType::AbstractInt => i64::try_from(z).ok().map(LiteralInstance::AbstractInt),
        IntegerType::I32 => i32::try_from(z).ok().map(LiteralInstance::I32),
        IntegerType::U32 => u32::try_from(z).ok().map(LiteralInstance::U32),
    }
}

pub(crate) fn wrapped_unsigned(z: i128) -> u32
    ensures { result ≡ unsigned_abs (int_rem_euclid z (pos (2 ^ 32))) }
{
    z.rem_euclid(MODULUS) as u32
}

pub(crate) fn wrapped_signed(z: i128) -> i32
    ensures { result ≡ int_wrap w32 z }
{
    wrapped_unsigned(z).cast_signed()
}
