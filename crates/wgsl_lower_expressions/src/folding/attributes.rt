//! Attributes. In custom ones nothing is refused: what has no const value and means no type stays as it is.

use crate::folding::expressions::{Callee, callee_of, fold, fold_maybe};
use crate::folding::types::written_type;
use crate::replacing::{put_expression, put_type, rename_type};
use wgsl_base::{Items, OrOutOfMemory};
use wgsl_eval::{Evaluator, Stop};
use wgsl_expressions::{
    Attribute, Attributes, BinaryExpression, CustomAttribute, Expression, ExpressionNode,
    FunctionCall, IndexingExpression, TemplateArgs, TypeExpression, WorkgroupSizeAttribute,
};
use wgsl_instance::Instance;
use wgsl_to_expr::written_instance;

/// The arguments of attributes are tried, in order.
pub fn fold_attributes(
    evaluator: &mut Evaluator<'_>,
    attributes: &mut Attributes,
) -> Result<(), Stop> {
    for i in 0..attributes.len() {
        fold_attribute(evaluator, attributes.get_mut(i).node_mut())?;
    }
    Ok(())
}

fn fold_attribute(evaluator: &mut Evaluator<'_>, attribute: &mut Attribute) -> Result<(), Stop> {
    match attribute {
        Attribute::Align(x)
        | Attribute::Binding(x)
        | Attribute::BlendSrc(x)
        | Attribute::Group(x)
        | Attribute::Id(x)
        | Attribute::Location(x)
        | Attribute::Size(x)
        | Attribute::If(x)
        | Attribute::Elif(x) => fold(evaluator, x),
        Attribute::WorkgroupSize(x) => fold_sizes(evaluator, x.get_mut()),
        Attribute::Custom(x) => fold_custom_attribute(evaluator, x.get_mut()),
        _ => Ok(()),
    }
}

fn fold_sizes(
    evaluator: &mut Evaluator<'_>,
    sizes: &mut WorkgroupSizeAttribute,
) -> Result<(), Stop> {
    fold(evaluator, &mut sizes.x)?;
    fold_maybe(evaluator, &mut sizes.y)?;
    fold_maybe(evaluator, &mut sizes.z)
}

fn fold_custom_attribute(
    evaluator: &mut Evaluator<'_>,
    x: &mut CustomAttribute,
) -> Result<(), Stop> {
    match &mut x.arguments {
        None => Ok(()),
        Some(arguments) => fold_customs(evaluator, arguments),
    }
}

/// The expression that is written for a value, if there is one.
fn written_value(evaluator: &Evaluator<'_>, value: &Instance) -> Result<Option<Expression>, Stop> {
    match written_instance(evaluator.alloc(), value) {
        Ok(written) => Ok(Some(written)),
        Err(OrOutOfMemory::Error(_)) => Ok(None),
        Err(OrOutOfMemory::OutOfMemory) => Err(Stop::OutOfMemory),
    }
}

/// The expression that is written for the const value of another, if it has a value and one is written for it.
fn written_const(
    evaluator: &mut Evaluator<'_>,
    node: &ExpressionNode,
) -> Result<Option<Expression>, Stop> {
    let Some(value) = evaluator.any_value(node)? else {
        return Ok(None);
    };
    let written = written_value(evaluator, &value);
    drop(value);
    written
}

/// The type expression that is written for the type that another means, if it means one and one is written for it.
fn written_meaning(
    evaluator: &mut Evaluator<'_>,
    ty: &TypeExpression,
) -> Result<Option<TypeExpression>, Stop> {
    let Some(meant) = evaluator.any_type(ty)? else {
        return Ok(None);
    };
    let made = written_type(evaluator, &meant);
    drop(meant);
    evaluator.forgiven(made, true)
}

/// An argument of a custom attribute: its const value, else the type that it means, else its parts.
#[cycle(custom)]
pub fn fold_custom(evaluator: &mut Evaluator<'_>, node: &mut ExpressionNode) -> Result<(), Stop> {
    match written_const(evaluator, node)? {
        Some(written) => {
            put_expression(node, written);
            Ok(())
        }
        None => fold_custom_parts(evaluator, node),
    }
}

/// The parts of an argument of a custom attribute that has no const value.
#[cycle(custom)]
fn fold_custom_parts(evaluator: &mut Evaluator<'_>, node: &mut ExpressionNode) -> Result<(), Stop> {
    match node.node_mut() {
        Expression::Literal(_) => Ok(()),
        Expression::TypeOrIdentifier(x) => fold_custom_type(evaluator, x),
        Expression::Parenthesized(x) => fold_custom(evaluator, &mut x.expression),
        Expression::NamedComponent(x) => fold_custom(evaluator, &mut x.base),
        Expression::Indexing(x) => fold_custom_indexing(evaluator, x),
        Expression::Unary(x) => fold_custom(evaluator, &mut x.operand),
        Expression::Binary(x) => fold_custom_binary(evaluator, x),
        Expression::FunctionCall(x) => fold_custom_call(evaluator, x.get_mut()),
    }
}

#[cycle(custom)]
fn fold_custom_indexing(
    evaluator: &mut Evaluator<'_>,
    x: &mut IndexingExpression,
) -> Result<(), Stop> {
    fold_custom(evaluator, &mut x.base)?;
    fold_custom(evaluator, &mut x.index)
}

#[cycle(custom)]
fn fold_custom_binary(evaluator: &mut Evaluator<'_>, x: &mut BinaryExpression) -> Result<(), Stop> {
    fold_custom(evaluator, &mut x.left)?;
    fold_custom(evaluator, &mut x.right)
}

#[cycle(custom)]
fn fold_customs(
    evaluator: &mut Evaluator<'_>,
    nodes: &mut Items<ExpressionNode>,
) -> Result<(), Stop> {
    for i in 0..nodes.len() {
        fold_custom(evaluator, nodes.get_mut(i))?;
    }
    Ok(())
}

#[cycle(custom)]
fn fold_custom_call(evaluator: &mut Evaluator<'_>, call: &mut FunctionCall) -> Result<(), Stop> {
    fold_customs(evaluator, &mut call.arguments)?;
    match custom_callee(evaluator, &call.ty)? {
        Callee::Same => Ok(()),
        Callee::Renamed(name) => Ok(rename_type(evaluator.alloc(), &mut call.ty, name.as_str())?),
        Callee::Written => fold_custom_type(evaluator, &mut call.ty),
    }
}

/// What a callee becomes. A ring of aliases stays as it is.
fn custom_callee(evaluator: &mut Evaluator<'_>, ty: &TypeExpression) -> Result<Callee, Stop> {
    let made = callee_of(evaluator, ty);
    match evaluator.forgiven(made, true)? {
        Some(callee) => Ok(callee),
        None => Ok(Callee::Same),
    }
}

#[cycle(custom)]
fn fold_custom_type(evaluator: &mut Evaluator<'_>, ty: &mut TypeExpression) -> Result<(), Stop> {
    match written_meaning(evaluator, ty)? {
        Some(written) => {
            put_type(ty, written);
            Ok(())
        }
        None => fold_custom_template(evaluator, &mut ty.template_args),
    }
}

#[cycle(custom)]
fn fold_custom_template(
    evaluator: &mut Evaluator<'_>,
    arguments: &mut TemplateArgs,
) -> Result<(), Stop> {
    let Some(arguments) = arguments else {
        return Ok(());
    };
    let arguments = arguments.get_mut();
    for i in 0..arguments.len() {
        fold_custom(evaluator, &mut arguments.get_mut(i).expression)?;
    }
    Ok(())
}
