//! Places of assignments.

use crate::folding::expressions::fold;
use wgsl_eval::{Evaluator, PlainFault, Stop};
use wgsl_expressions::{Expression, ExpressionNode, IndexingExpression};

/// Stops where a place, or what it is built on, has a const value.
fn check_place(evaluator: &mut Evaluator<'_>, node: &ExpressionNode) -> Result<(), Stop> {
    if let Some(value) = evaluator.const_value(node)? {
        drop(value);
        return evaluator.refuse_plain(PlainFault::NotRef);
    }
    match node.node() {
        Expression::Unary(x) => check_place(evaluator, &x.operand),
        Expression::Parenthesized(x) => check_place(evaluator, &x.expression),
        Expression::NamedComponent(x) => check_place(evaluator, &x.base),
        Expression::Indexing(x) => check_place(evaluator, &x.base),
        Expression::Literal(_) => Ok(()),
        Expression::Binary(_) => Ok(()),
        Expression::FunctionCall(_) => Ok(()),
        Expression::TypeOrIdentifier(_) => Ok(()),
    }
}

/// The indices in a place.
#[cycle(place)]
fn fold_indices(evaluator: &mut Evaluator<'_>, node: &mut ExpressionNode) -> Result<(), Stop> {
    match node.node_mut() {
        Expression::Unary(x) => fold_indices(evaluator, &mut x.operand),
        Expression::Parenthesized(x) => fold_indices(evaluator, &mut x.expression),
        Expression::NamedComponent(x) => fold_indices(evaluator, &mut x.base),
        Expression::Indexing(x) => fold_index(evaluator, x),
        Expression::Literal(_) => Ok(()),
        Expression::Binary(_) => Ok(()),
        Expression::FunctionCall(_) => Ok(()),
        Expression::TypeOrIdentifier(_) => Ok(()),
    }
}

#[cycle(place)]
fn fold_index(evaluator: &mut Evaluator<'_>, x: &mut IndexingExpression) -> Result<(), Stop> {
    fold_indices(evaluator, &mut x.base)?;
    fold(evaluator, &mut x.index)
}

/// A place. Where it has a const value, or is built on one that has, it is no place. Its indices are tried.
pub fn fold_place(evaluator: &mut Evaluator<'_>, node: &mut ExpressionNode) -> Result<(), Stop> {
    check_place(evaluator, node)?;
    fold_indices(evaluator, node)
}
