//! Values as expressions.

ghost use Rattle.std.specs.Prelude.{◌≡◌, IfOk, ◌<ℤ◌, ◌≤ℤ◌, pos, neg_ℤ};
ghost use Rattle.core_syntax.specs.Tree as T;
ghost use Rattle.core_syntax.specs.View.{tree};
ghost use Rattle.core_meaning.specs.Written.{written, negative, least_abstract, least_signed, equals_zero};
ghost use Rattle.wgsl_shader_type.specs.declared.literal.LiteralInstance.TheVariants as V;

use core_syntax::{
    BinaryExpression, BinaryOperator, Expression, FunctionCall, Ident, LiteralExpression,
    ParenthesizedExpression, Span, Spanned, TypeExpression, UnaryExpression, UnaryOperator,
};
use std::alloc::{AllocError, Global};
use wgsl_base::{Boxed, Items, Text};
use wgsl_shader_type::LiteralInstance;

#[tactic(auto, using(core_syntax::proofs::Trees::tree_of_parenthesized))]
fn parenthesized(
    alloc: Global,
    expression: Expression,
    span: Span,
) -> Result<Expression, AllocError>
    ensures { IfOk result (λ e. tree e ≡ T.parenthesized (tree expression)) }
{
    let expression = Spanned::new(alloc, expression, span)?;
    Ok(Expression::Parenthesized(ParenthesizedExpression { expression }))
}

#[tactic(auto, using(core_syntax::proofs::Trees::tree_of_unary))]
fn negation(alloc: Global, expression: Expression, span: Span) -> Result<Expression, AllocError>
    ensures { IfOk result (λ e. tree e ≡ T.unary UnaryOperator.Negation (tree expression)) }
{
    let operand = Spanned::new(alloc, expression, span)?;
    Ok(Expression::Unary(UnaryExpression {
        operator: UnaryOperator::Negation,
        operand,
    }))
}

fn abstract_literal(z: i64) -> Expression
    ensures { tree result ≡ T.literal (LiteralExpression.AbstractInt z) }
{
    Expression::Literal(LiteralExpression::AbstractInt(z))
}

// `(-9223372036854775807 - 1)`
#[tactic(auto, using(core_syntax::proofs::Trees::tree_of_binary))]
fn least_abstract(alloc: Global, span: Span) -> Result<Expression, AllocError>
    ensures { IfOk result (λ e. tree e ≡ least_abstract) }
{
    let greatest = negation(alloc, abstract_literal(i64::MAX), span)?;
    let left = Spanned::new(alloc, greatest, span)?;
    let right = Spanned::new(alloc, abstract_literal(1), span)?;
    let difference = Expression::Binary(BinaryExpression {
        operator: BinaryOperator::Subtraction,
        left,
        right,
    });
    parenthesized(alloc, difference, span)
}

// `i32(-2147483648)`
#[tactic(auto, using(core_syntax::proofs::Trees::tree_of_call))]
fn least_signed(alloc: Global, span: Span) -> Result<Expression, AllocError>
    ensures { IfOk result (λ e. tree e ≡ least_signed) }
{
    let argument = negation(alloc, abstract_literal(2147483648), span)?;
    let mut arguments = Items::new(alloc);
    arguments.push(Spanned::new(alloc, argument, span)?)?;
    let ident = Ident::new(Text::from_str(alloc, "i32")?);
    let ty = TypeExpression {
        path: None,
        ident,
        template_args: None,
    };
    let call = Boxed::new(alloc, FunctionCall { ty, arguments })?;
    Ok(Expression::FunctionCall(call))
}

fn written_abstract(alloc: Global, z: i64, span: Span) -> Result<Expression, AllocError>
    ensures { IfOk result (λ e. tree e ≡ written (V.AbstractInt z)) }
{
    if z >= 0 {
        Ok(abstract_literal(z))
    } else if z == i64::MIN {
        least_abstract(alloc, span)
    } else {
        let minus = negation(alloc, abstract_literal(-z), span)?;
        parenthesized(alloc, minus, span)
    }
}

fn written_signed(alloc: Global, z: i32, span: Span) -> Result<Expression, AllocError>
    ensures { IfOk result (λ e. tree e ≡ written (V.I32 z)) }
{
    if z >= 0 {
        Ok(Expression::Literal(LiteralExpression::I32(z)))
    } else if z == i32::MIN {
        least_signed(alloc, span)
    } else {
        let minus = negation(alloc, Expression::Literal(LiteralExpression::I32(-z)), span)?;
        parenthesized(alloc, minus, span)
    }
}

// `(0 == number)`
#[tactic(auto, using(core_syntax::proofs::Trees::tree_of_binary))]
fn equals_zero(alloc: Global, number: Expression, span: Span) -> Result<Expression, AllocError>
    ensures { IfOk result (λ e. tree e ≡ equals_zero (tree number)) }
{
    let right = Spanned::new(alloc, number, span)?;
    let left = Spanned::new(alloc, abstract_literal(0), span)?;
    let comparison = Expression::Binary(BinaryExpression {
        operator: BinaryOperator::Equality,
        left,
        right,
    });
    parenthesized(alloc, comparison, span)
}

/// The expression that is written for a value: a literal, or in parentheses where the number is negative. Trees have no literals
/// of truth values yet: those are a comparison of literals. Each node gets the place.
pub fn to_expr(alloc: Global, value: LiteralInstance, span: Span) -> Result<Expression, AllocError>
    ensures { IfOk result (λ e. tree e ≡ written value) }
{
    match value {
        LiteralInstance::AbstractInt(z) => written_abstract(alloc, z, span),
        LiteralInstance::I32(z) => written_signed(alloc, z, span),
        LiteralInstance::U32(n) => Ok(Expression::Literal(LiteralExpression::U32(n))),
        LiteralInstance::Bool(true) => equals_zero(alloc, abstract_literal(0), span),
        LiteralInstance::Bool(false) => equals_zero(alloc, abstract_literal(1), span),
    }
}
