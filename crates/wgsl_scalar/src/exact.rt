//! Exact results, and what stands for one that doesn't fit.

ghost use Rattle.std.specs.Prelude.{◌≡◌};
ghost use Rattle.wgsl_scalar.specs.Operators as spec;

use crate::scalar::{IntegerType, value_at, wrapped_signed, wrapped_unsigned};
use wgsl_type_operators::{Error, LiteralInstance};
use wgsl_words::ShaderStage;

/// Whether a result may be another than the exact one: when the shader runs, and only of 32 bits.
pub(crate) fn is_lenient(stage: ShaderStage, ty: IntegerType) -> bool
    ensures { result ≡ spec.is_lenient stage ty }
{
    matches!(
        (stage, ty),
        (ShaderStage::Exec, IntegerType::I32 | IntegerType::U32)
    )
}

/// This value when the shader runs, else none.
pub(crate) fn at_exec(
    stage: ShaderStage,
    ty: IntegerType,
    value: Option<LiteralInstance>,
) -> Option<LiteralInstance>
    ensures { result ≡ spec.at_exec stage ty value }
{
    if is_lenient(stage, ty) { value } else { None }
}

/// An exact result: the value where it fits. Else it wraps when the shader runs, but for AbstractInt.
pub(crate) fn exact(stage: ShaderStage, ty: IntegerType, z: i128) -> Option<LiteralInstance>
    ensures { result ≡ spec.exact stage ty z }
{
    match value_at(ty, z) {
        Some(value) => Some(value),
        None => match (stage, ty) {
            (ShaderStage::Exec, IntegerType::I32) => Some(LiteralInstance::I32(wrapped_signed(z))),
            (ShaderStage::Exec, IntegerType::U32) => Some(LiteralInstance::U32(wrapped_unsigned(
                z,
            ))),
            _ => None,
        },
    }
}

/// The value, or this error where there is none.
pub(crate) fn or_error(
    value: Option<LiteralInstance>,
    error: Error,
) -> Result<LiteralInstance, Error>
    ensures { result ≡ spec.or_error value error }
{
    value.ok_or(error)
}
