//! Operators in front of a scalar (WGSL, "Unary Expressions").

ghost use Rattle.std.specs.Prelude.{◌≡◌};
ghost use Rattle.wgsl_scalar.specs.Operators as spec;

use crate::exact::{exact, or_error};
use crate::scalar::{IntegerType, type_of};
use wgsl_type_operators::{Error, LiteralInstance};
use wgsl_words::{ShaderStage, UnaryOperator};

fn negated(stage: ShaderStage, value: LiteralInstance) -> Result<LiteralInstance, Error>
    ensures { result ≡ spec.negated stage value }
{
    match value {
        LiteralInstance::AbstractInt(z) => {
            let negative = exact(stage, IntegerType::AbstractInt, -(z as i128));
            or_error(negative, Error::SubOverflow)
        }
        LiteralInstance::I32(z) => {
            let negative = exact(ShaderStage::Exec, IntegerType::I32, -(z as i128));
            or_error(negative, Error::SubOverflow)
        }
        _ => Err(Error::Unary(UnaryOperator::Negation, type_of(value).ty())),
    }
}

fn complement(value: LiteralInstance) -> Result<LiteralInstance, Error>
    ensures { result ≡ spec.complement value }
{
    match value {
        LiteralInstance::AbstractInt(z) => Ok(LiteralInstance::AbstractInt(!z)),
        LiteralInstance::I32(z) => Ok(LiteralInstance::I32(!z)),
        LiteralInstance::U32(n) => Ok(LiteralInstance::U32(!n)),
        LiteralInstance::Bool(_) => Err(Error::Unary(
            UnaryOperator::BitwiseComplement,
            type_of(value).ty(),
        )),
    }
}

fn logical_not(value: LiteralInstance) -> Result<LiteralInstance, Error>
    ensures { result ≡ spec.logical_not value }
{
    match value {
        LiteralInstance::Bool(b) => Ok(LiteralInstance::Bool(!b)),
        _ => Err(Error::Unary(UnaryOperator::LogicalNegation, type_of(value).ty())),
    }
}

/// The value of an operator in front of a scalar. An operand that the operator doesn't take is `Unary`. The negative of the
/// least AbstractInt is `SubOverflow`; of the least I32 it is that number, at every stage.
pub fn unary_scalar_op(
    operator: UnaryOperator,
    operand: LiteralInstance,
    stage: ShaderStage,
) -> Result<LiteralInstance, Error>
    ensures { result ≡ spec.unary_value stage operator operand }
{
    match operator {
        UnaryOperator::Negation => negated(stage, operand),
        UnaryOperator::BitwiseComplement => complement(operand),
        UnaryOperator::LogicalNegation => logical_not(operand),
        UnaryOperator::AddressOf | UnaryOperator::Indirection => {
            Err(Error::Unary(operator, type_of(operand).ty()))
        }
    }
}
