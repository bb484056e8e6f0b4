//! Operators between two scalars (WGSL, "Arithmetic Expressions", "Comparison Expressions", "Logical Expressions", "Bit Expressions").

ghost use Rattle.std.specs.Prelude.{◌≡◌, FitsSigned};
ghost use Rattle.std.specs.Int.{w32, w64};
ghost use Rattle.wgsl_type_operators.specs.Operator.{is_shift as shifts};
ghost use Rattle.wgsl_scalar.specs.Operators as spec;

use crate::conversion::{convert_scalar, to_integer};
use crate::exact::{at_exec, exact, or_error};
use crate::scalar::{IntegerType, ScalarType, type_of, value_at};
use crate::shift::shifted;
use wgsl_type_operators::{Error, LiteralInstance};
use wgsl_words::{BinaryOperator, ShaderStage};

// Whether the divisor isn't 0 and the quotient, toward zero, is in the range.
fn divides(ty: IntegerType, a: i128, b: i128) -> bool
    requires a_in { FitsSigned w64 a }
    requires b_in { FitsSigned w64 b }
    ensures { result ≡ spec.divides ty a b }
{
    b != 0 && value_at(ty, a / b).is_some()
}

fn divided(stage: ShaderStage, ty: IntegerType, a: i128, b: i128) -> Option<LiteralInstance>
    requires a_in { FitsSigned w64 a }
    requires b_in { FitsSigned w64 b }
    ensures { result ≡ spec.divided stage ty a b }
{
    if divides(ty, a, b) {
        exact(stage, ty, a / b)
    } else {
        at_exec(stage, ty, exact(stage, ty, a))
    }
}

fn remainder(stage: ShaderStage, ty: IntegerType, a: i128, b: i128) -> Option<LiteralInstance>
    requires a_in { FitsSigned w64 a }
    requires b_in { FitsSigned w64 b }
    ensures { result ≡ spec.remainder stage ty a b }
{
    if divides(ty, a, b) {
        exact(stage, ty, a % b)
    } else {
        at_exec(stage, ty, exact(stage, ty, 0))
    }
}

/// Arithmetic and comparisons, on two numbers of one type.
fn of_numbers(
    stage: ShaderStage,
    operator: BinaryOperator,
    ty: IntegerType,
    a: i128,
    b: i128,
) -> Result<LiteralInstance, Error>
    requires a_in { FitsSigned w64 a }
    requires b_in { FitsSigned w64 b }
    ensures { result ≡ spec.of_numbers stage operator ty a b }
{
    match operator {
        BinaryOperator::Addition => or_error(exact(stage, ty, a + b), Error::AddOverflow),
        BinaryOperator::Subtraction => or_error(exact(stage, ty, a - b), Error::SubOverflow),
        BinaryOperator::Multiplication => or_error(exact(stage, ty, a * b), Error::MulOverflow),
        BinaryOperator::Division => or_error(divided(stage, ty, a, b), Error::DivByZero),
        BinaryOperator::Remainder => or_error(remainder(stage, ty, a, b), Error::RemZeroDiv),
        BinaryOperator::Equality => Ok(LiteralInstance::Bool(a == b)),
        BinaryOperator::Inequality => Ok(LiteralInstance::Bool(a != b)),
        BinaryOperator::LessThan => Ok(LiteralInstance::Bool(a < b)),
        BinaryOperator::LessThanEqual => Ok(LiteralInstance::Bool(a <= b)),
        BinaryOperator::GreaterThan => Ok(LiteralInstance::Bool(a > b)),
        BinaryOperator::GreaterThanEqual => Ok(LiteralInstance::Bool(a >= b)),
        _ => Err(Error::Binary(operator, ty.ty(), ty.ty())),
    }
}

fn is_bitwise(operator: BinaryOperator) -> bool
    ensures { result ≡ spec.is_bitwise operator }
{
    matches!(
        operator,
        BinaryOperator::BitwiseOr | BinaryOperator::BitwiseAnd | BinaryOperator::BitwiseXor
    )
}

fn abstract_bits(operator: BinaryOperator, a: i64, b: i64) -> i64
    ensures { result ≡ spec.signed_bits operator w64 a b }
{
    match operator {
        BinaryOperator::BitwiseOr => a | b,
        BinaryOperator::BitwiseAnd => a & b,
        _ => a ^ b,
    }
}

fn signed_bits(operator: BinaryOperator, a: i32, b: i32) -> i32
    ensures { result ≡ spec.signed_bits operator w32 a b }
{
    match operator {
        BinaryOperator::BitwiseOr => a | b,
        BinaryOperator::BitwiseAnd => a & b,
        _ => a ^ b,
    }
}

fn unsigned_bits(operator: BinaryOperator, a: u32, b: u32) -> u32
    ensures { result ≡ spec.unsigned_bits operator a b }
{
    match operator {
        BinaryOperator::BitwiseOr => a | b,
        BinaryOperator::BitwiseAnd => a & b,
        _ => a ^ b,
    }
}

fn of_truths(operator: BinaryOperator, a: bool, b: bool) -> Result<LiteralInstance, Error>
    ensures { result ≡ spec.of_truths operator a b }
{
    match operator {
        BinaryOperator::Equality => Ok(LiteralInstance::Bool(a == b)),
        BinaryOperator::Inequality => Ok(LiteralInstance::Bool(a != b)),
        BinaryOperator::BitwiseOr | BinaryOperator::ShortCircuitOr => {
            Ok(LiteralInstance::Bool(a || b))
        }
        BinaryOperator::BitwiseAnd | BinaryOperator::ShortCircuitAnd => {
            Ok(LiteralInstance::Bool(a && b))
        }
        _ => Err(Error::Binary(operator, ScalarType::Bool.ty(), ScalarType::Bool.ty())),
    }
}

/// Every operator but shifts, on two values of one type.
fn of_alike(
    stage: ShaderStage,
    operator: BinaryOperator,
    left: LiteralInstance,
    right: LiteralInstance,
) -> Result<LiteralInstance, Error>
    ensures { result ≡ spec.of_alike stage operator left right }
{
    match (left, right) {
        (LiteralInstance::Bool(a), LiteralInstance::Bool(b)) => of_truths(operator, a, b),
        (LiteralInstance::AbstractInt(a), LiteralInstance::AbstractInt(b)) => {
            if is_bitwise(operator) {
                return Ok(LiteralInstance::AbstractInt(abstract_bits(operator, a, b)));
            }
            of_numbers(
                stage,
                operator,
                IntegerType::AbstractInt,
                a as i128,
                b as i128,
            )
        }
        (LiteralInstance::I32(a), LiteralInstance::I32(b)) => {
            if is_bitwise(operator) {
                return Ok(LiteralInstance::I32(signed_bits(operator, a, b)));
            }
            of_numbers(stage, operator, IntegerType::I32, a as i128, b as i128)
        }
        (LiteralInstance::U32(a), LiteralInstance::U32(b)) => {
            if is_bitwise(operator) {
                return Ok(LiteralInstance::U32(unsigned_bits(operator, a, b)));
            }
            of_numbers(stage, operator, IntegerType::U32, a as i128, b as i128)
        }
        _ => Err(Error::Binary(operator, type_of(left).ty(), type_of(right).ty())),
    }
}

/// The type of two operands to which the other converts.
pub(crate) fn common(left: ScalarType, right: ScalarType) -> Option<ScalarType>
    ensures { result ≡ spec.common left right }
{
    match (left, right) {
        (ScalarType::Integer(IntegerType::AbstractInt), ScalarType::Integer(_)) => Some(right),
        (ScalarType::Integer(_), ScalarType::Integer(IntegerType::AbstractInt)) => Some(left),
        (ScalarType::Bool, ScalarType::Bool)
        | (ScalarType::Integer(IntegerType::I32), ScalarType::Integer(IntegerType::I32))
        | (ScalarType::Integer(IntegerType::U32), ScalarType::Integer(IntegerType::U32)) => Some(
            left,
        ),
        _ => None,
    }
}

/// Whether an operator, no shift, takes two truth values.
fn takes_truths(operator: BinaryOperator) -> bool
    ensures { result ≡ spec.takes_truths operator }
{
    matches!(
        operator,
        BinaryOperator::ShortCircuitOr
            | BinaryOperator::ShortCircuitAnd
            | BinaryOperator::Equality
            | BinaryOperator::Inequality
            | BinaryOperator::BitwiseOr
            | BinaryOperator::BitwiseAnd
    )
}

/// Whether an operator, no shift, takes two integers of one type.
fn takes_integers(operator: BinaryOperator) -> bool
    ensures { result ≡ spec.takes_integers operator }
{
    !matches!(
        operator,
        BinaryOperator::ShortCircuitOr
            | BinaryOperator::ShortCircuitAnd
            | BinaryOperator::ShiftLeft
            | BinaryOperator::ShiftRight
    )
}

pub(crate) fn takes(operator: BinaryOperator, ty: ScalarType) -> bool
    ensures { result ≡ spec.takes operator ty }
{
    match ty {
        ScalarType::Bool => takes_truths(operator),
        ScalarType::Integer(_) => takes_integers(operator),
    }
}

pub(crate) fn is_amount(ty: ScalarType) -> bool
    ensures { result ≡ spec.is_amount ty }
{
    matches!(
        ty,
        ScalarType::Integer(IntegerType::AbstractInt) | ScalarType::Integer(IntegerType::U32)
    )
}

pub(crate) fn is_shift(operator: BinaryOperator) -> bool
    ensures { result ≡ shifts operator }
{
    matches!(
        operator,
        BinaryOperator::ShiftLeft | BinaryOperator::ShiftRight
    )
}

fn no_candidate(
    operator: BinaryOperator,
    left: LiteralInstance,
    right: LiteralInstance,
) -> Result<LiteralInstance, Error>
    ensures { result ≡ spec.no_candidate operator left right }
{
    Err(Error::Binary(operator, type_of(left).ty(), type_of(right).ty()))
}

fn at_common(
    stage: ShaderStage,
    operator: BinaryOperator,
    left: LiteralInstance,
    right: LiteralInstance,
    common: Option<ScalarType>,
) -> Result<LiteralInstance, Error>
    ensures { result ≡ spec.at_common stage operator left right common }
{
    let Some(ty) = common else {
        return no_candidate(operator, left, right);
    };
    if !takes(operator, ty) {
        return no_candidate(operator, left, right);
    }
    let a = convert_scalar(ty, left)?;
    let b = convert_scalar(ty, right)?;
    of_alike(stage, operator, a, b)
}

fn at_left(
    stage: ShaderStage,
    operator: BinaryOperator,
    left: LiteralInstance,
    right: LiteralInstance,
    ty: ScalarType,
) -> Result<LiteralInstance, Error>
    ensures { result ≡ spec.at_left stage operator left right ty }
{
    let ScalarType::Integer(ty) = ty else {
        return no_candidate(operator, left, right);
    };
    if !is_amount(type_of(right)) {
        return no_candidate(operator, left, right);
    }
    match to_integer(IntegerType::U32, right)? {
        LiteralInstance::U32(amount) => shifted(stage, operator, ty, left, amount),
        other => Err(Error::Binary(operator, ty.ty(), type_of(other).ty())),
    }
}

/// The value of an operator between two scalars. Operands that the operator doesn't take are `Binary`, with their types; an
/// AbstractInt that doesn't fit the other operand's type is `ConvOverflow`, the left one first. At exec, integers of 32 bits wrap,
/// `x / 0` is `x`, `x % 0` is 0, and shift amounts are taken modulo 32; before, and of AbstractInt always, each of these is
/// an error.
pub fn binary_scalar_op(
    operator: BinaryOperator,
    left: LiteralInstance,
    right: LiteralInstance,
    stage: ShaderStage,
) -> Result<LiteralInstance, Error>
    ensures { result ≡ spec.binary_value stage operator left right }
{
    if is_shift(operator) {
        at_left(stage, operator, left, right, type_of(left))
    } else {
        let common = common(type_of(left), type_of(right));
        at_common(stage, operator, left, right, common)
    }
}
