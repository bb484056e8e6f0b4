//! Expressions that are built in code. A part is handed on as it was made or refused.

use std::alloc::{AllocError, Global};
use std::fmt::Display;
use std::test::Fail;
use wgsl_base::{Indent, both};
use wgsl_expressions::{
    Expression, ExpressionNode, Ident, LiteralExpression, NamedComponentExpression, Text,
    TypeExpression, UnaryExpression, UnaryOperator,
};
use wgsl_simple_statements::{converted, converted_in};

pub fn ident(alloc: Global, name: &str) -> Result<Ident, AllocError> {
    Ok(Ident::new(Text::from_str(alloc, name)?))
}

/// An expression at no place.
pub fn node(
    alloc: Global,
    expression: Result<Expression, AllocError>,
) -> Result<ExpressionNode, AllocError> {
    converted_in(expression, alloc)
}

/// A name alone.
pub fn named(alloc: Global, name: &str) -> Result<ExpressionNode, AllocError> {
    let ty: Result<TypeExpression, AllocError> = converted(ident(alloc, name));
    node(alloc, converted(ty))
}

pub fn literal(alloc: Global, x: LiteralExpression) -> Result<ExpressionNode, AllocError> {
    node(alloc, Ok(Expression::from(x)))
}

fn signed(
    operator: UnaryOperator,
    operand: Result<ExpressionNode, AllocError>,
) -> Result<Expression, AllocError> {
    let operand = operand?;
    Ok(Expression::from(UnaryExpression { operator, operand }))
}

/// A sign twice before a name.
fn twice(alloc: Global, operator: UnaryOperator, name: &str) -> Result<Expression, AllocError> {
    signed(operator, node(alloc, signed(operator, named(alloc, name))))
}

/// A member of the number 1.
fn member_of_one(alloc: Global, name: &str) -> Result<Expression, AllocError> {
    let one = literal(alloc, LiteralExpression::AbstractInt(1));
    let (base, component) = both(one, ident(alloc, name))?;
    Ok(Expression::from(NamedComponentExpression { base, component }))
}

/// Whether a tree was made, and is printed so.
pub fn prints<T: Display + Drop>(
    alloc: Global,
    tree: Result<T, AllocError>,
    wanted: &str,
) -> Result<bool, AllocError> {
    let tree = tree?;
    let printed = format!(in alloc; "{tree}")?;
    Ok(printed.as_str() == wanted)
}

/// The same with four spaces before each line.
fn prints_indented<T: Display + Drop>(
    alloc: Global,
    tree: Result<T, AllocError>,
    wanted: &str,
) -> Result<bool, AllocError> {
    prints(alloc, Ok(Indent(tree?)), wanted)
}

#[test]
fn signs_stay_apart(rt: HostRuntime) -> Result<(), Fail> {
    let alloc = rt.alloc();
    let minus = UnaryOperator::Negation;
    assert!(rt; prints(alloc, twice(alloc, minus, "x"), "- -x")?);
    let and = UnaryOperator::AddressOf;
    assert!(rt; prints(alloc, twice(alloc, and, "x"), "& &x")?);
    let not = UnaryOperator::LogicalNegation;
    assert!(rt; prints(alloc, twice(alloc, not, "x"), "!!x")?);
    Ok(())
}

#[test]
fn a_number_stays_apart_from_its_member(rt: HostRuntime) -> Result<(), Fail> {
    let alloc = rt.alloc();
    assert!(rt; prints(alloc, member_of_one(alloc, "x"), "1 .x")?);
    assert!(rt; prints_indented(alloc, member_of_one(alloc, "x"), "    1 .x")?);
    Ok(())
}
