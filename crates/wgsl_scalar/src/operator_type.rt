//! The types of operators on scalars (WGSL, "Overload Resolution").

ghost use Rattle.std.specs.Prelude.{◌≡◌};
ghost use Rattle.wgsl_type_operators.specs.Operator.{is_comparison as compares};
ghost use Rattle.wgsl_scalar.specs.OperatorTypes as spec;

use crate::binary::{common, is_amount, is_shift, takes};
use crate::scalar::{IntegerType, ScalarType};
use wgsl_type_operators::Error;
use wgsl_words::{BinaryOperator, UnaryOperator};

fn type_in_front(operator: UnaryOperator, ty: ScalarType) -> Option<ScalarType>
    ensures { result ≡ spec.type_in_front operator ty }
{
    match (operator, ty) {
        (UnaryOperator::LogicalNegation, ScalarType::Bool)
        | (
            UnaryOperator::Negation,
            ScalarType::Integer(IntegerType::AbstractInt | IntegerType::I32),
        )
        | (UnaryOperator::BitwiseComplement, ScalarType::Integer(_)) => Some(ty),
        _ => None,
    }
}

/// The type of an operator in front of an operand: the operand's. An operand that the operator doesn't take is `Unary`.
pub fn scalar_unary_type(operator: UnaryOperator, ty: ScalarType) -> Result<ScalarType, Error>
    ensures { result ≡ spec.unary_type operator ty }
{
    match type_in_front(operator, ty) {
        Some(ty) => Ok(ty),
        None => Err(Error::Unary(operator, ty.ty())),
    }
}

/// Of two operands of one type.
fn type_at(operator: BinaryOperator, common: Option<ScalarType>) -> Option<ScalarType>
    ensures { result ≡ spec.type_at operator common }
{
    let ty = common?;
    if !takes(operator, ty) {
        None
    } else if is_comparison(operator) {
        Some(ScalarType::Bool)
    } else {
        Some(ty)
    }
}

fn is_comparison(operator: BinaryOperator) -> bool
    ensures { result ≡ compares operator }
{
    matches!(
        operator,
        BinaryOperator::Equality
            | BinaryOperator::Inequality
            | BinaryOperator::LessThan
            | BinaryOperator::LessThanEqual
            | BinaryOperator::GreaterThan
            | BinaryOperator::GreaterThanEqual
    )
}

fn shift_type(left: ScalarType, right: ScalarType) -> Option<ScalarType>
    ensures { result ≡ spec.shift_type left right }
{
    match left {
        ScalarType::Integer(_) if is_amount(right) => Some(left),
        _ => None,
    }
}

fn type_between(operator: BinaryOperator, left: ScalarType, right: ScalarType) -> Option<ScalarType>
    ensures { result ≡ spec.type_between operator left right }
{
    if is_shift(operator) {
        shift_type(left, right)
    } else {
        type_at(operator, common(left, right))
    }
}

/// The type of an operator between two operands: Bool for a comparison, the left operand's for a shift, and else the type to
/// which both convert. Operands that the operator doesn't take are `Binary`, with their types.
pub fn scalar_binary_type(
    operator: BinaryOperator,
    left: ScalarType,
    right: ScalarType,
) -> Result<ScalarType, Error>
    ensures { result ≡ spec.binary_type operator left right }
{
    match type_between(operator, left, right) {
        Some(ty) => Ok(ty),
        None => Err(Error::Binary(operator, left.ty(), right.ty())),
    }
}
