//! Shifts of integers (WGSL, "Bit Expressions").

ghost use Rattle.std.specs.Prelude.{◌≡◌, ◌<◌, IfSome};
ghost use Rattle.wgsl_scalar.specs.Scalars as scalars;
ghost use Rattle.wgsl_scalar.specs.Operators as spec;

use crate::exact::{exact, is_lenient, or_error};
use crate::scalar::{IntegerType, number};
use wgsl_type_operators::{Error, LiteralInstance};
use wgsl_words::{BinaryOperator, ShaderStage};

/// By how many bits a value of a type is shifted, if the stage takes the amount.
fn shift_amount(stage: ShaderStage, ty: IntegerType, amount: u32) -> Option<u32>
    ensures amount { result ≡ spec.shift_amount stage ty amount }
    ensures below { IfSome result (λ k. k < scalars.width ty) }
{
    if amount < ty.width() || is_lenient(stage, ty) {
        Some(amount % ty.width())
    } else {
        None
    }
}

/// A value divided by 2 to the power of so many bits, rounded down.
fn right_quotient(value: LiteralInstance, bits: u32) -> i128
    requires { bits < 64 }
    ensures { result ≡ spec.right_quotient value bits }
{
    number(value) >> bits
}

/// A value times 2 to the power of so many bits.
fn left_product(value: LiteralInstance, bits: u32) -> i128
    requires { bits < 64 }
    ensures { result ≡ spec.left_product value bits }
{
    number(value) * ((1u64 << bits) as i128)
}

/// A value of a type, shifted by an amount. An amount of as many bits as the value has, or more, and a product that doesn't
/// fit are errors, unless the shader runs.
pub(crate) fn shifted(
    stage: ShaderStage,
    operator: BinaryOperator,
    ty: IntegerType,
    value: LiteralInstance,
    amount: u32,
) -> Result<LiteralInstance, Error>
    ensures { result ≡ spec.shifted stage operator ty value amount }
{
    match (operator, shift_amount(stage, ty, amount)) {
        (BinaryOperator::ShiftLeft, Some(bits)) => {
            let shifted = exact(stage, ty, left_product(value, bits));
            or_error(shifted, Error::ShlOverflow(amount, value))
        }
        (BinaryOperator::ShiftLeft, None) => Err(Error::ShlOverflow(amount, value)),
        (_, Some(bits)) => {
            let shifted = exact(stage, ty, right_quotient(value, bits));
            or_error(shifted, Error::ShrOverflow(amount, value))
        }
        (_, None) => Err(Error::ShrOverflow(amount, value)),
    }
}
