//! Each operator by its name. `op_ref` and `op_deref` are methods of `Instance`.

ghost use Rattle.wgsl_words.specs.declared.operators.BinaryOperator.TheVariants as binary;
ghost use Rattle.wgsl_words.specs.declared.operators.UnaryOperator.TheVariants as unary;
ghost use Rattle.wgsl_instance_operators.specs.Operators as spec;

use crate::binary::call_binary_op;
use crate::unary::call_unary_op;
use std::alloc::Global;
use wgsl_instance::Instance;
use wgsl_shader_type::Error;
use wgsl_words::{BinaryOperator, ShaderStage, UnaryOperator};

/// What `!` gives, as `call_unary_op` does.
pub fn op_not(alloc: Global, operand: &Instance, stage: ShaderStage) -> Result<Instance, Error>
    ensures { spec.AnswersUnaryValue stage unary.LogicalNegation operand.now result }
{
    call_unary_op(alloc, UnaryOperator::LogicalNegation, operand, stage)
}

/// What `-` gives, as `call_unary_op` does.
pub fn op_neg(alloc: Global, operand: &Instance, stage: ShaderStage) -> Result<Instance, Error>
    ensures { spec.AnswersUnaryValue stage unary.Negation operand.now result }
{
    call_unary_op(alloc, UnaryOperator::Negation, operand, stage)
}

/// What `~` gives, as `call_unary_op` does.
pub fn op_bitnot(alloc: Global, operand: &Instance, stage: ShaderStage) -> Result<Instance, Error>
    ensures { spec.AnswersUnaryValue stage unary.BitwiseComplement operand.now result }
{
    call_unary_op(alloc, UnaryOperator::BitwiseComplement, operand, stage)
}

/// What `||` gives, as `call_binary_op` does. Both operands have values: that the right one is only evaluated where it is needed is up to the caller.
pub fn op_or(
    alloc: Global,
    left: &Instance,
    right: &Instance,
    stage: ShaderStage,
) -> Result<Instance, Error>
    ensures { spec.AnswersBinaryValue stage binary.ShortCircuitOr left.now right.now result }
{
    call_binary_op(alloc, BinaryOperator::ShortCircuitOr, left, right, stage)
}

/// What `&&` gives, as `call_binary_op` does. Both operands have values: that the right one is only evaluated where it is needed is up to the caller.
pub fn op_and(
    alloc: Global,
    left: &Instance,
    right: &Instance,
    stage: ShaderStage,
) -> Result<Instance, Error>
    ensures { spec.AnswersBinaryValue stage binary.ShortCircuitAnd left.now right.now result }
{
    call_binary_op(alloc, BinaryOperator::ShortCircuitAnd, left, right, stage)
}

/// What `+` gives, as `call_binary_op` does.
pub fn op_add(
    alloc: Global,
    left: &Instance,
    right: &Instance,
    stage: ShaderStage,
) -> Result<Instance, Error>
    ensures { spec.AnswersBinaryValue stage binary.Addition left.now right.now result }
{
    call_binary_op(alloc, BinaryOperator::Addition, left, right, stage)
}

/// What `-` gives, as `call_binary_op` does.
pub fn op_sub(
    alloc: Global,
    left: &Instance,
    right: &Instance,
    stage: ShaderStage,
) -> Result<Instance, Error>
    ensures { spec.AnswersBinaryValue stage binary.Subtraction left.now right.now result }
{
    call_binary_op(alloc, BinaryOperator::Subtraction, left, right, stage)
}

/// What `*` gives, as `call_binary_op` does.
pub fn op_mul(
    alloc: Global,
    left: &Instance,
    right: &Instance,
    stage: ShaderStage,
) -> Result<Instance, Error>
    ensures { spec.AnswersBinaryValue stage binary.Multiplication left.now right.now result }
{
    call_binary_op(alloc, BinaryOperator::Multiplication, left, right, stage)
}

/// What `/` gives, as `call_binary_op` does.
pub fn op_div(
    alloc: Global,
    left: &Instance,
    right: &Instance,
    stage: ShaderStage,
) -> Result<Instance, Error>
    ensures { spec.AnswersBinaryValue stage binary.Division left.now right.now result }
{
    call_binary_op(alloc, BinaryOperator::Division, left, right, stage)
}

/// What `%` gives, as `call_binary_op` does.
pub fn op_rem(
    alloc: Global,
    left: &Instance,
    right: &Instance,
    stage: ShaderStage,
) -> Result<Instance, Error>
    ensures { spec.AnswersBinaryValue stage binary.Remainder left.now right.now result }
{
    call_binary_op(alloc, BinaryOperator::Remainder, left, right, stage)
}

/// What `==` gives, as `call_binary_op` does.
pub fn op_eq(
    alloc: Global,
    left: &Instance,
    right: &Instance,
    stage: ShaderStage,
) -> Result<Instance, Error>
    ensures { spec.AnswersBinaryValue stage binary.Equality left.now right.now result }
{
    call_binary_op(alloc, BinaryOperator::Equality, left, right, stage)
}

/// What `!=` gives, as `call_binary_op` does.
pub fn op_ne(
    alloc: Global,
    left: &Instance,
    right: &Instance,
    stage: ShaderStage,
) -> Result<Instance, Error>
    ensures { spec.AnswersBinaryValue stage binary.Inequality left.now right.now result }
{
    call_binary_op(alloc, BinaryOperator::Inequality, left, right, stage)
}

/// What `<` gives, as `call_binary_op` does.
pub fn op_lt(
    alloc: Global,
    left: &Instance,
    right: &Instance,
    stage: ShaderStage,
) -> Result<Instance, Error>
    ensures { spec.AnswersBinaryValue stage binary.LessThan left.now right.now result }
{
    call_binary_op(alloc, BinaryOperator::LessThan, left, right, stage)
}

/// What `<=` gives, as `call_binary_op` does.
pub fn op_le(
    alloc: Global,
    left: &Instance,
    right: &Instance,
    stage: ShaderStage,
) -> Result<Instance, Error>
    ensures { spec.AnswersBinaryValue stage binary.LessThanEqual left.now right.now result }
{
    call_binary_op(alloc, BinaryOperator::LessThanEqual, left, right, stage)
}

/// What `>` gives, as `call_binary_op` does.
pub fn op_gt(
    alloc: Global,
    left: &Instance,
    right: &Instance,
    stage: ShaderStage,
) -> Result<Instance, Error>
    ensures { spec.AnswersBinaryValue stage binary.GreaterThan left.now right.now result }
{
    call_binary_op(alloc, BinaryOperator::GreaterThan, left, right, stage)
}

/// What `>=` gives, as `call_binary_op` does.
pub fn op_ge(
    alloc: Global,
    left: &Instance,
    right: &Instance,
    stage: ShaderStage,
) -> Result<Instance, Error>
    ensures { spec.AnswersBinaryValue stage binary.GreaterThanEqual left.now right.now result }
{
    call_binary_op(alloc, BinaryOperator::GreaterThanEqual, left, right, stage)
}

/// What `|` gives, as `call_binary_op` does.
pub fn op_bitor(
    alloc: Global,
    left: &Instance,
    right: &Instance,
    stage: ShaderStage,
) -> Result<Instance, Error>
    ensures { spec.AnswersBinaryValue stage binary.BitwiseOr left.now right.now result }
{
    call_binary_op(alloc, BinaryOperator::BitwiseOr, left, right, stage)
}

/// What `&` gives, as `call_binary_op` does.
pub fn op_bitand(
    alloc: Global,
    left: &Instance,
    right: &Instance,
    stage: ShaderStage,
) -> Result<Instance, Error>
    ensures { spec.AnswersBinaryValue stage binary.BitwiseAnd left.now right.now result }
{
    call_binary_op(alloc, BinaryOperator::BitwiseAnd, left, right, stage)
}

/// What `^` gives, as `call_binary_op` does.
pub fn op_bitxor(
    alloc: Global,
    left: &Instance,
    right: &Instance,
    stage: ShaderStage,
) -> Result<Instance, Error>
    ensures { spec.AnswersBinaryValue stage binary.BitwiseXor left.now right.now result }
{
    call_binary_op(alloc, BinaryOperator::BitwiseXor, left, right, stage)
}

/// What `<<` gives, as `call_binary_op` does.
pub fn op_shl(
    alloc: Global,
    left: &Instance,
    right: &Instance,
    stage: ShaderStage,
) -> Result<Instance, Error>
    ensures { spec.AnswersBinaryValue stage binary.ShiftLeft left.now right.now result }
{
    call_binary_op(alloc, BinaryOperator::ShiftLeft, left, right, stage)
}

/// What `>>` gives, as `call_binary_op` does.
pub fn op_shr(
    alloc: Global,
    left: &Instance,
    right: &Instance,
    stage: ShaderStage,
) -> Result<Instance, Error>
    ensures { spec.AnswersBinaryValue stage binary.ShiftRight left.now right.now result }
{
    call_binary_op(alloc, BinaryOperator::ShiftRight, left, right, stage)
}
