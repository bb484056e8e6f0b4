//! Expressions: what has a const value is written as that value, and of what has none the parts are tried.

use crate::folding::conversions::argument_conversions;
use crate::folding::spines::non_const_depth;
use crate::folding::types::{fold_type, written_type};
use crate::replacing::{put_expression, rename_type, wrap_in_call};
use wgsl_base::{Boxed, Items, Text};
use wgsl_eval::{Evaluator, Stop};
use wgsl_expressions::{
    BinaryExpression, Expression, ExpressionNode, FunctionCall, IndexingExpression, TypeExpression,
};
use wgsl_instance::Instance;
use wgsl_shader_type::Type;
use wgsl_to_expr::instance_to_expr;

/// A value is written in the place of an expression.
#[inline(never)]
fn write_value(
    evaluator: &mut Evaluator<'_>,
    node: &mut ExpressionNode,
    value: Boxed<Instance>,
) -> Result<(), Stop> {
    let written = instance_to_expr(evaluator.alloc(), value.get());
    drop(value);
    let written = evaluator.answered(written)?;
    put_expression(node, written);
    Ok(())
}

/// What is known of an expression before it is folded.
#[derive(Clone, Copy)]
struct Known {
    /// So many levels have no const value: the expression, the part of it that is evaluated first, the one of that, and so on.
    open: usize,
    /// Whether the types of it and of all its parts were found.
    is_typed: bool,
}

const NOTHING: Known = Known {
    open: 0,
    is_typed: false,
};

/// An expression with a const value becomes that value, as it is written. Else its parts are tried, left to right.
pub fn fold(evaluator: &mut Evaluator<'_>, node: &mut ExpressionNode) -> Result<(), Stop> {
    fold_known(evaluator, node, NOTHING)?;
    Ok(())
}

/// An expression that may be absent.
pub fn fold_maybe(
    evaluator: &mut Evaluator<'_>,
    node: &mut Option<ExpressionNode>,
) -> Result<(), Stop> {
    match node {
        None => Ok(()),
        Some(node) => fold(evaluator, node),
    }
}

/// The const value of an expression, unless it is known to have none. It is boxed, so that little of the call stack is kept where the parts of
/// an expression are folded.
#[inline(never)]
fn value_unless_open(
    evaluator: &mut Evaluator<'_>,
    node: &ExpressionNode,
    known: Known,
) -> Result<Option<Boxed<Instance>>, Stop> {
    if known.open > 0 {
        return Ok(None);
    }
    match evaluator.const_value(node)? {
        Some(value) => Ok(Some(Boxed::new(evaluator.alloc(), value)?)),
        None => Ok(None),
    }
}

/// An expression of which something is known. Whether it has no const value is the answer.
#[cycle(fold)]
fn fold_known(
    evaluator: &mut Evaluator<'_>,
    node: &mut ExpressionNode,
    known: Known,
) -> Result<bool, Stop> {
    match value_unless_open(evaluator, node, known)? {
        Some(value) => {
            write_value(evaluator, node, value)?;
            Ok(false)
        }
        None => {
            fold_open(evaluator, node, known)?;
            Ok(true)
        }
    }
}

/// What is known of the part that is evaluated first, of an expression that has no const value.
#[inline(never)]
fn below(
    evaluator: &mut Evaluator<'_>,
    node: &ExpressionNode,
    known: Known,
) -> Result<Known, Stop> {
    let open = if known.open > 0 {
        known.open
    } else {
        non_const_depth(evaluator, node)?
    };
    Ok(Known {
        open: open.saturating_sub(1),
        is_typed: known.is_typed,
    })
}

/// An expression that has no const value.
#[cycle(fold)]
fn fold_open(
    evaluator: &mut Evaluator<'_>,
    node: &mut ExpressionNode,
    known: Known,
) -> Result<(), Stop> {
    let known = below(evaluator, node, known)?;
    fold_parts(evaluator, node, known)
}

/// The parts of an expression that has no const value, where this is known of the first one. An only part has none either.
#[cycle(fold)]
fn fold_parts(
    evaluator: &mut Evaluator<'_>,
    node: &mut ExpressionNode,
    known: Known,
) -> Result<(), Stop> {
    match node.node_mut() {
        Expression::Literal(_) => Ok(()),
        Expression::TypeOrIdentifier(_) => Ok(()),
        Expression::Parenthesized(x) => fold_open(evaluator, &mut x.expression, known),
        Expression::NamedComponent(x) => fold_open(evaluator, &mut x.base, known),
        Expression::Indexing(x) => fold_indexing(evaluator, x, known),
        Expression::Unary(x) => fold_open(evaluator, &mut x.operand, known),
        Expression::Binary(x) => fold_binary(evaluator, x, known),
        Expression::FunctionCall(x) => fold_known_call(evaluator, x.get_mut(), known),
    }
}

/// The second of two parts of an expression that has no const value. Where the first has one, it has none.
#[cycle(fold)]
fn fold_second(
    evaluator: &mut Evaluator<'_>,
    node: &mut ExpressionNode,
    is_typed: bool,
    is_first_open: bool,
) -> Result<(), Stop> {
    let known = Known { open: 0, is_typed };
    if is_first_open {
        fold_known(evaluator, node, known)?;
        Ok(())
    } else {
        fold_open(evaluator, node, known)
    }
}

#[cycle(fold)]
fn fold_indexing(
    evaluator: &mut Evaluator<'_>,
    x: &mut IndexingExpression,
    known: Known,
) -> Result<(), Stop> {
    let is_open = fold_known(evaluator, &mut x.base, known)?;
    fold_second(evaluator, &mut x.index, known.is_typed, is_open)
}

#[cycle(fold)]
fn fold_binary(
    evaluator: &mut Evaluator<'_>,
    x: &mut BinaryExpression,
    known: Known,
) -> Result<(), Stop> {
    let is_open = fold_known(evaluator, &mut x.left, known)?;
    fold_second(evaluator, &mut x.right, known.is_typed, is_open)
}

/// The parts of a call: the conversions of arguments of a function come first, then the arguments, then what is called.
pub fn fold_call(evaluator: &mut Evaluator<'_>, call: &mut FunctionCall) -> Result<(), Stop> {
    fold_known_call(evaluator, call, NOTHING)
}

/// The parts of a call, where something is known of its first argument.
#[cycle(fold)]
fn fold_known_call(
    evaluator: &mut Evaluator<'_>,
    call: &mut FunctionCall,
    known: Known,
) -> Result<(), Stop> {
    let conversions = argument_conversions(evaluator, call, known.is_typed)?;
    let folded = fold_arguments(
        evaluator,
        &mut call.arguments,
        conversions.as_slice(),
        known,
    );
    drop(conversions);
    folded?;
    fold_callee(evaluator, &mut call.ty)
}

/// The conversion of an argument, if there is one, and what is known of the argument. One of a function's parameters has a type.
fn argument_at(
    conversions: &[Option<Type>],
    at: usize,
    open: usize,
    is_typed: bool,
) -> (Option<&Type>, Known) {
    match conversions.get(at) {
        Some(conversion) => {
            let is_typed = true;
            (conversion.as_ref(), Known { open, is_typed })
        }
        None => (None, Known { open, is_typed }),
    }
}

#[cycle(fold)]
fn fold_arguments(
    evaluator: &mut Evaluator<'_>,
    arguments: &mut Items<ExpressionNode>,
    conversions: &[Option<Type>],
    known: Known,
) -> Result<(), Stop> {
    for i in 0..arguments.len() {
        let open = if i == 0 { known.open } else { 0 };
        let (conversion, of_argument) = argument_at(conversions, i, open, known.is_typed);
        fold_argument(evaluator, arguments.get_mut(i), conversion, of_argument)?;
    }
    Ok(())
}

/// An expression that is converted to a type, or as it is.
pub fn fold_as(
    evaluator: &mut Evaluator<'_>,
    node: &mut ExpressionNode,
    ty: Option<&Type>,
) -> Result<(), Stop> {
    fold_argument(evaluator, node, ty, NOTHING)
}

#[cycle(fold)]
fn fold_argument(
    evaluator: &mut Evaluator<'_>,
    node: &mut ExpressionNode,
    ty: Option<&Type>,
    known: Known,
) -> Result<(), Stop> {
    match ty {
        None => {
            fold_known(evaluator, node, known)?;
            Ok(())
        }
        Some(ty) => fold_converted(evaluator, node, ty, known),
    }
}

/// A value, converted to a type, is written in the place of an expression.
#[inline(never)]
fn write_converted(
    evaluator: &mut Evaluator<'_>,
    node: &mut ExpressionNode,
    ty: &Type,
    value: Boxed<Instance>,
) -> Result<(), Stop> {
    let alloc = evaluator.alloc();
    let converted = value.get().convert_to(alloc, ty);
    drop(value);
    let converted = evaluator.answered(converted)?;
    write_value(evaluator, node, Boxed::new(alloc, converted)?)
}

/// A call of a type's constructor with an expression stands in its place.
#[inline(never)]
fn wrap_in_type(
    evaluator: &mut Evaluator<'_>,
    node: &mut ExpressionNode,
    ty: &Type,
) -> Result<(), Stop> {
    let ty = written_type(evaluator, ty)?;
    Ok(wrap_in_call(evaluator.alloc(), node, ty)?)
}

/// The const value of a call of a type's constructor with an expression, or that call, the expression's parts tried.
#[cycle(fold)]
fn fold_converted(
    evaluator: &mut Evaluator<'_>,
    node: &mut ExpressionNode,
    ty: &Type,
    known: Known,
) -> Result<(), Stop> {
    match value_unless_open(evaluator, node, known)? {
        Some(value) => write_converted(evaluator, node, ty, value),
        None => {
            fold_open(evaluator, node, known)?;
            wrap_in_type(evaluator, node, ty)
        }
    }
}

/// What a callee becomes.
#[derive(Drop)]
pub(crate) enum Callee {
    Same,
    /// The name that it stands for.
    Renamed(Text),
    /// The type that it means.
    Written,
}

/// What a callee becomes. What an alias stands for is named, and a type with template arguments is written in full.
pub(crate) fn callee_of(
    evaluator: &mut Evaluator<'_>,
    ty: &TypeExpression,
) -> Result<Callee, Stop> {
    let alloc = evaluator.alloc();
    let target = evaluator.target(ty)?;
    if target.ty.template_args.is_some() {
        Ok(Callee::Written)
    } else if target.is_aliased {
        Ok(Callee::Renamed(Text::from_str(alloc, target.ty.ident.name())?))
    } else {
        Ok(Callee::Same)
    }
}

#[inline(never)]
fn fold_callee(evaluator: &mut Evaluator<'_>, ty: &mut TypeExpression) -> Result<(), Stop> {
    match callee_of(evaluator, ty)? {
        Callee::Same => Ok(()),
        Callee::Renamed(name) => Ok(rename_type(evaluator.alloc(), ty, name.as_str())?),
        Callee::Written => fold_type(evaluator, ty),
    }
}
