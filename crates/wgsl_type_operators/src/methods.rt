//! The operators as methods of types: what each gives, by the candidate of the least sum of conversion ranks.

ghost use Rattle.std.specs.Prelude.{◌≡◌};
ghost use Rattle.wgsl_words.specs.declared.operators.BinaryOperator.TheVariants as binary;
ghost use Rattle.wgsl_words.specs.declared.operators.UnaryOperator.TheVariants as unary;
ghost use Rattle.wgsl_type_operators.specs.Answer.{AnswersBinary, AnswersUnary};

use crate::operator::{type_binary_op, type_unary_op};
use std::alloc::Global;
use wgsl_shader_type::{Error, ShaderType};
use wgsl_words::{BinaryOperator, UnaryOperator};

/// What the operators take: a type, or what stands for one.
pub trait TypeOperators {
    ghost use Rattle.wgsl_shader_type.specs.declared.tree.ShaderType.{ShaderType};

    /// The type that it stands for.
    ghost stands_for: { Self → ShaderType };

    /// The type that it stands for.
    fn as_type(&self) -> &ShaderType
        ensures { result.now ≡ stands_for self.now };

    /// The type that `!` gives.
    fn op_not(&self, alloc: Global) -> Result<ShaderType, Error>
        ensures { AnswersUnary unary.LogicalNegation (stands_for self.now) result }
    {
        type_unary_op(alloc, UnaryOperator::LogicalNegation, self.as_type())
    }

    /// The type that `||` gives.
    fn op_or(&self, alloc: Global, right: &ShaderType) -> Result<ShaderType, Error>
        ensures { AnswersBinary binary.ShortCircuitOr (stands_for self.now) right.now result }
    {
        type_binary_op(alloc, BinaryOperator::ShortCircuitOr, self.as_type(), right)
    }

    /// The type that `&&` gives.
    fn op_and(&self, alloc: Global, right: &ShaderType) -> Result<ShaderType, Error>
        ensures { AnswersBinary binary.ShortCircuitAnd (stands_for self.now) right.now result }
    {
        type_binary_op(
            alloc,
            BinaryOperator::ShortCircuitAnd,
            self.as_type(),
            right,
        )
    }

    /// The type that `-` gives.
    fn op_neg(&self, alloc: Global) -> Result<ShaderType, Error>
        ensures { AnswersUnary unary.Negation (stands_for self.now) result }
    {
        type_unary_op(alloc, UnaryOperator::Negation, self.as_type())
    }

    /// The type that `+` gives.
    fn op_add(&self, alloc: Global, right: &ShaderType) -> Result<ShaderType, Error>
        ensures { AnswersBinary binary.Addition (stands_for self.now) right.now result }
    {
        type_binary_op(alloc, BinaryOperator::Addition, self.as_type(), right)
    }

    /// The type that `-` gives.
    fn op_sub(&self, alloc: Global, right: &ShaderType) -> Result<ShaderType, Error>
        ensures { AnswersBinary binary.Subtraction (stands_for self.now) right.now result }
    {
        type_binary_op(alloc, BinaryOperator::Subtraction, self.as_type(), right)
    }

    /// The type that `*` gives.
    fn op_mul(&self, alloc: Global, right: &ShaderType) -> Result<ShaderType, Error>
        ensures { AnswersBinary binary.Multiplication (stands_for self.now) right.now result }
    {
        type_binary_op(alloc, BinaryOperator::Multiplication, self.as_type(), right)
    }

    /// The type that `/` gives.
    fn op_div(&self, alloc: Global, right: &ShaderType) -> Result<ShaderType, Error>
        ensures { AnswersBinary binary.Division (stands_for self.now) right.now result }
    {
        type_binary_op(alloc, BinaryOperator::Division, self.as_type(), right)
    }

    /// The type that `%` gives.
    fn op_rem(&self, alloc: Global, right: &ShaderType) -> Result<ShaderType, Error>
        ensures { AnswersBinary binary.Remainder (stands_for self.now) right.now result }
    {
        type_binary_op(alloc, BinaryOperator::Remainder, self.as_type(), right)
    }

    /// The type that `==` gives.
    fn op_eq(&self, alloc: Global, right: &ShaderType) -> Result<ShaderType, Error>
        ensures { AnswersBinary binary.Equality (stands_for self.now) right.now result }
    {
        type_binary_op(alloc, BinaryOperator::Equality, self.as_type(), right)
    }

    /// The type that `!=` gives.
    fn op_ne(&self, alloc: Global, right: &ShaderType) -> Result<ShaderType, Error>
        ensures { AnswersBinary binary.Inequality (stands_for self.now) right.now result }
    {
        type_binary_op(alloc, BinaryOperator::Inequality, self.as_type(), right)
    }

    /// The type that `<` gives.
    fn op_lt(&self, alloc: Global, right: &ShaderType) -> Result<ShaderType, Error>
        ensures { AnswersBinary binary.LessThan (stands_for self.now) right.now result }
    {
        type_binary_op(alloc, BinaryOperator::LessThan, self.as_type(), right)
    }

    /// The type that `<=` gives.
    fn op_le(&self, alloc: Global, right: &ShaderType) -> Result<ShaderType, Error>
        ensures { AnswersBinary binary.LessThanEqual (stands_for self.now) right.now result }
    {
        type_binary_op(alloc, BinaryOperator::LessThanEqual, self.as_type(), right)
    }

    /// The type that `>` gives.
    fn op_gt(&self, alloc: Global, right: &ShaderType) -> Result<ShaderType, Error>
        ensures { AnswersBinary binary.GreaterThan (stands_for self.now) right.now result }
    {
        type_binary_op(alloc, BinaryOperator::GreaterThan, self.as_type(), right)
    }

    /// The type that `>=` gives.
    fn op_ge(&self, alloc: Global, right: &ShaderType) -> Result<ShaderType, Error>
        ensures { AnswersBinary binary.GreaterThanEqual (stands_for self.now) right.now result }
    {
        type_binary_op(
            alloc,
            BinaryOperator::GreaterThanEqual,
            self.as_type(),
            right,
        )
    }

    /// The type that `~` gives.
    fn op_bitnot(&self, alloc: Global) -> Result<ShaderType, Error>
        ensures { AnswersUnary unary.BitwiseComplement (stands_for self.now) result }
    {
        type_unary_op(alloc, UnaryOperator::BitwiseComplement, self.as_type())
    }

    /// The type that `|` gives.
    fn op_bitor(&self, alloc: Global, right: &ShaderType) -> Result<ShaderType, Error>
        ensures { AnswersBinary binary.BitwiseOr (stands_for self.now) right.now result }
    {
        type_binary_op(alloc, BinaryOperator::BitwiseOr, self.as_type(), right)
    }

    /// The type that `&` gives.
    fn op_bitand(&self, alloc: Global, right: &ShaderType) -> Result<ShaderType, Error>
        ensures { AnswersBinary binary.BitwiseAnd (stands_for self.now) right.now result }
    {
        type_binary_op(alloc, BinaryOperator::BitwiseAnd, self.as_type(), right)
    }

    /// The type that `^` gives.
    fn op_bitxor(&self, alloc: Global, right: &ShaderType) -> Result<ShaderType, Error>
        ensures { AnswersBinary binary.BitwiseXor (stands_for self.now) right.now result }
    {
        type_binary_op(alloc, BinaryOperator::BitwiseXor, self.as_type(), right)
    }

    /// The type that `<<` gives.
    fn op_shl(&self, alloc: Global, right: &ShaderType) -> Result<ShaderType, Error>
        ensures { AnswersBinary binary.ShiftLeft (stands_for self.now) right.now result }
    {
        type_binary_op(alloc, BinaryOperator::ShiftLeft, self.as_type(), right)
    }

    /// The type that `>>` gives.
    fn op_shr(&self, alloc: Global, right: &ShaderType) -> Result<ShaderType, Error>
        ensures { AnswersBinary binary.ShiftRight (stands_for self.now) right.now result }
    {
        type_binary_op(alloc, BinaryOperator::ShiftRight, self.as_type(), right)
    }

    /// The type that `&` gives.
    fn op_ref(&self, alloc: Global) -> Result<ShaderType, Error>
        ensures { AnswersUnary unary.AddressOf (stands_for self.now) result }
    {
        type_unary_op(alloc, UnaryOperator::AddressOf, self.as_type())
    }

    /// The type that `*` gives.
    fn op_deref(&self, alloc: Global) -> Result<ShaderType, Error>
        ensures { AnswersUnary unary.Indirection (stands_for self.now) result }
    {
        type_unary_op(alloc, UnaryOperator::Indirection, self.as_type())
    }
}

impl TypeOperators for ShaderType {
    ghost stands_for = { λ t. t };

    fn as_type(&self) -> &ShaderType {
        self
    }
}
