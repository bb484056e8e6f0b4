//! How far down an expression without a const value its parts have none either. Where what is evaluated first of an expression stops, the
//! expression stops in the same way. So an expression need not be evaluated where that has no value.

use wgsl_eval::{Evaluator, Stop};
use wgsl_expressions::{Expression, ExpressionNode, FunctionCall};

/// The argument of a call that is evaluated first of all. There is none where template arguments are evaluated before it.
fn first_argument<'n>(
    evaluator: &mut Evaluator<'_>,
    call: &'n FunctionCall,
) -> Result<Option<&'n ExpressionNode>, Stop> {
    let target = evaluator.target(&call.ty)?;
    if target.ty.template_args.is_some() {
        return Ok(None);
    }
    Ok(call.arguments.as_slice().first())
}

/// The part of an expression that is evaluated first. A literal or a name counts as no part: it is quickly evaluated, and its value, of
/// which a copy would be made, may be large.
fn first_part<'n>(
    evaluator: &mut Evaluator<'_>,
    node: &'n ExpressionNode,
) -> Result<Option<&'n ExpressionNode>, Stop> {
    let part = match node.node() {
        Expression::Literal(_) => None,
        Expression::TypeOrIdentifier(_) => None,
        Expression::Parenthesized(x) => Some(&x.expression),
        Expression::NamedComponent(x) => Some(&x.base),
        Expression::Indexing(x) => Some(&x.base),
        Expression::Unary(x) => Some(&x.operand),
        Expression::Binary(x) => Some(&x.left),
        Expression::FunctionCall(x) => first_argument(evaluator, x.get())?,
    };
    match part {
        Some(part) => match part.node() {
            Expression::Literal(_) => Ok(None),
            Expression::TypeOrIdentifier(_) => Ok(None),
            _ => Ok(Some(part)),
        },
        None => Ok(None),
    }
}

/// The part that is so many levels below an expression, each the first one of the level above, if there are so many and it has no const
/// value.
fn open_part<'n>(
    evaluator: &mut Evaluator<'_>,
    node: &'n ExpressionNode,
    levels: usize,
) -> Result<Option<&'n ExpressionNode>, Stop> {
    let mut last = node;
    for _ in 0..levels {
        match first_part(evaluator, last)? {
            Some(part) => last = part,
            None => return Ok(None),
        }
    }
    match evaluator.const_value(last)? {
        Some(value) => {
            drop(value);
            Ok(None)
        }
        None => Ok(Some(last)),
    }
}

/// How many levels, from an expression without a const value downwards, are known to have none: the expression, the part of it that is
/// evaluated first, the one of that, and so on. They are found by few evaluations, and the last few may be missed.
pub(crate) fn non_const_depth(
    evaluator: &mut Evaluator<'_>,
    node: &ExpressionNode,
) -> Result<usize, Stop> {
    let mut last = node;
    let mut levels = 1usize;
    let mut step = 4usize;
    let mut is_growing = true;
    for _ in 0..128 {
        if step < 2 {
            return Ok(levels);
        }
        if let Some(part) = open_part(evaluator, last, step)? {
            last = part;
            levels = levels.saturating_add(step);
        } else {
            is_growing = false;
        }
        step = if is_growing {
            step.saturating_mul(2)
        } else {
            step / 2
        };
    }
    Ok(levels)
}
