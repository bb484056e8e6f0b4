//! Conversions of scalars (WGSL, "Conversion Rank", "Value Constructor Built-in Functions").

ghost use Rattle.std.specs.Prelude.{◌≡◌};
ghost use Rattle.wgsl_scalar.specs.Conversions as spec;

use crate::scalar::{IntegerType, ScalarType, type_of, value_at};
use wgsl_type_operators::{Error, LiteralInstance};

fn from_abstract(ty: IntegerType, z: i64) -> Result<LiteralInstance, Error>
    ensures { result ≡ spec.from_abstract ty z }
{
    match value_at(ty, z as i128) {
        Some(value) => Ok(value),
        None => Err(Error::ConvOverflow(LiteralInstance::AbstractInt(z), ty.ty())),
    }
}

/// The implicit conversion to an integer type. An AbstractInt out of the type's range is `ConvOverflow`; types that
/// don't convert are `Conversion`.
pub(crate) fn to_integer(ty: IntegerType, value: LiteralInstance) -> Result<LiteralInstance, Error>
    ensures { result ≡ spec.to_integer ty value }
{
    match (value, ty) {
        (LiteralInstance::AbstractInt(z), _) => from_abstract(ty, z),
        (LiteralInstance::I32(z), IntegerType::I32) => Ok(LiteralInstance::I32(z)),
        (LiteralInstance::U32(n), IntegerType::U32) => Ok(LiteralInstance::U32(n)),
        _ => Err(Error::Conversion(type_of(value).ty(), ty.ty())),
    }
}

/// The implicit conversion of a scalar to a type. An AbstractInt out of the type's range is `ConvOverflow`; types that
/// don't convert are `Conversion`, with the value's type first.
pub fn convert_scalar(ty: ScalarType, value: LiteralInstance) -> Result<LiteralInstance, Error>
    ensures { result ≡ spec.converted ty value }
{
    match (ty, value) {
        (ScalarType::Bool, LiteralInstance::Bool(b)) => Ok(LiteralInstance::Bool(b)),
        (ScalarType::Integer(ty), _) => to_integer(ty, value),
        _ => Err(Error::Conversion(type_of(value).ty(), ty.ty())),
    }
}

fn to_bool(value: LiteralInstance) -> LiteralInstance
    ensures { result ≡ spec.to_bool value }
{
    match value {
        LiteralInstance::Bool(b) => LiteralInstance::Bool(b),
        LiteralInstance::AbstractInt(z) => LiteralInstance::Bool(z != 0),
        LiteralInstance::I32(z) => LiteralInstance::Bool(z != 0),
        LiteralInstance::U32(n) => LiteralInstance::Bool(n != 0),
    }
}

fn from_bool(ty: IntegerType, b: bool) -> LiteralInstance
    ensures { result ≡ spec.of_truth ty b }
{
    match ty {
        IntegerType::AbstractInt => LiteralInstance::AbstractInt(if b { 1 } else { 0 }),
        IntegerType::I32 => LiteralInstance::I32(if b { 1 } else { 0 }),
        IntegerType::U32 => LiteralInstance::U32(if b { 1 } else { 0 }),
    }
}

/// The constructor of a type at one scalar, as `u32(-1i)`: a Bool becomes 1 or 0, a number that isn't 0 becomes true, and
/// between I32 and U32 the bits stay. An AbstractInt out of the type's range is `ConvOverflow`.
pub fn construct_scalar(ty: ScalarType, value: LiteralInstance) -> Result<LiteralInstance, Error>
    ensures { result ≡ spec.constructed ty value }
{
    let ScalarType::Integer(ty) = ty else {
        return Ok(to_bool(value));
    };
    match (value, ty) {
        (LiteralInstance::Bool(b), _) => Ok(from_bool(ty, b)),
        (LiteralInstance::AbstractInt(z), _) => from_abstract(ty, z),
        (LiteralInstance::I32(z), IntegerType::AbstractInt) => Ok(LiteralInstance::AbstractInt(
            z as i64,
        )),
        (LiteralInstance::U32(n), IntegerType::AbstractInt) => Ok(LiteralInstance::AbstractInt(
            n as i64,
        )),
        (LiteralInstance::I32(z), IntegerType::I32) => Ok(LiteralInstance::I32(z)),
        (LiteralInstance::U32(n), IntegerType::I32) => Ok(LiteralInstance::I32(n.cast_signed())),
        (LiteralInstance::I32(z), IntegerType::U32) => Ok(LiteralInstance::U32(z.cast_unsigned())),
        (LiteralInstance::U32(n), IntegerType::U32) => Ok(LiteralInstance::U32(n)),
    }
}
