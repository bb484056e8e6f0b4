//! Scalars as expressions. No literal is negative: a negative number is the negation of one, in parentheses. The least numbers are
//! no negations of literals: `i32(-2147483648)` and `(-9223372036854775807 - 1)` stand for them.

ghost use Rattle.std.specs.Prelude.{◌≡◌, IfOk, pos};
ghost use Rattle.wgsl_expressions.specs.Tree as T;
ghost use Rattle.wgsl_expressions.specs.View.{tree};
ghost use Rattle.wgsl_shader_type.specs.declared.literal.LiteralInstance.TheVariants as V;
ghost use Rattle.wgsl_to_expr.specs.Written.{negated, least_abstract, least_signed, literal_exp};

use crate::call::{call, push_node};
use std::alloc::{AllocError, Global};
use wgsl_expressions::{
    BinaryExpression, BinaryOperator, Expression, FromIn, Items, LiteralExpression,
    ParenthesizedExpression, Spanned, UnaryExpression, UnaryOperator,
};
use wgsl_shader_type::LiteralInstance;

fn parenthesized(alloc: Global, expression: Expression) -> Result<Expression, AllocError>
    ensures { IfOk result (λ e. tree e ≡ T.parenthesized (tree expression)) }
{
    let expression = Spanned::from_in(alloc, expression)?;
    Ok(Expression::Parenthesized(ParenthesizedExpression { expression }))
}

fn negation(alloc: Global, number: LiteralExpression) -> Result<Expression, AllocError>
    ensures { IfOk result (λ e. tree e ≡ negated number) }
{
    let operand = Spanned::from_in(alloc, Expression::Literal(number))?;
    Ok(Expression::Unary(UnaryExpression {
        operator: UnaryOperator::Negation,
        operand,
    }))
}

// `(-number)`
fn negative(alloc: Global, number: LiteralExpression) -> Result<Expression, AllocError>
    ensures { IfOk result (λ e. tree e ≡ T.parenthesized (negated number)) }
{
    let negation = negation(alloc, number)?;
    parenthesized(alloc, negation)
}

// `left - 1`
fn one_less(alloc: Global, left: Expression) -> Result<Expression, AllocError>
    ensures { IfOk result (λ e. tree e ≡ T.binary BinaryOperator.Subtraction (tree left) (T.literal (LiteralExpression.AbstractInt (pos 1)))) }
{
    let left = Spanned::from_in(alloc, left)?;
    let one = Expression::Literal(LiteralExpression::AbstractInt(1));
    let right = Spanned::from_in(alloc, one)?;
    Ok(Expression::Binary(BinaryExpression {
        operator: BinaryOperator::Subtraction,
        left,
        right,
    }))
}

// `(-9223372036854775807 - 1)`
fn least_abstract(alloc: Global) -> Result<Expression, AllocError>
    ensures { IfOk result (λ e. tree e ≡ least_abstract) }
{
    let greatest = negation(alloc, LiteralExpression::AbstractInt(i64::MAX))?;
    let difference = one_less(alloc, greatest)?;
    parenthesized(alloc, difference)
}

// `i32(-2147483648)`
fn least_signed(alloc: Global) -> Result<Expression, AllocError>
    ensures { IfOk result (λ e. tree e ≡ least_signed) }
{
    let argument = negation(alloc, LiteralExpression::AbstractInt(2_147_483_648))?;
    let mut arguments = Items::new(alloc);
    push_node(alloc, &mut arguments, argument)?;
    call(alloc, "i32", arguments)
}

fn abstract_to_expr(alloc: Global, number: i64) -> Result<Expression, AllocError>
    ensures { IfOk result (λ e. tree e ≡ literal_exp (V.AbstractInt number)) }
{
    if number >= 0 {
        Ok(Expression::Literal(LiteralExpression::AbstractInt(number)))
    } else if number == i64::MIN {
        least_abstract(alloc)
    } else {
        negative(alloc, LiteralExpression::AbstractInt(-number))
    }
}

fn signed_to_expr(alloc: Global, number: i32) -> Result<Expression, AllocError>
    ensures { IfOk result (λ e. tree e ≡ literal_exp (V.I32 number)) }
{
    if number >= 0 {
        Ok(Expression::Literal(LiteralExpression::I32(number)))
    } else if number == i32::MIN {
        least_signed(alloc)
    } else {
        negative(alloc, LiteralExpression::I32(-number))
    }
}

/// The expression that is written for a scalar. Its nodes have no places in a text.
pub fn literal_to_expr(alloc: Global, value: LiteralInstance) -> Result<Expression, AllocError>
    ensures { IfOk result (λ e. tree e ≡ literal_exp value) }
{
    match value {
        LiteralInstance::Bool(truth) => Ok(Expression::Literal(LiteralExpression::Bool(truth))),
        LiteralInstance::AbstractInt(number) => abstract_to_expr(alloc, number),
        LiteralInstance::I32(number) => signed_to_expr(alloc, number),
        LiteralInstance::U32(number) => Ok(Expression::Literal(LiteralExpression::U32(number))),
    }
}
