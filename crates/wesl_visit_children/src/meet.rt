//! What is done at attributes, expressions and types.

ghost use Rattle.wesl_visit_children.specs.Turns.{CalledInTurn};
ghost use Rattle.wesl_visit_children.specs.Parts.{in_attribute, in_attributes, in_expression, in_option, in_ty, in_optional_type, in_arguments, in_call};

use crate::read_parts::ReadParts;
use wgsl_expressions::{AttributeNode, ExpressionNode, FunctionCall, TypeExpression};

/// Meets an attribute.
fn meet_attribute<W: ReadParts>(attribute: &AttributeNode, w: &mut W) -> Result<(), W::Refusal>
    requires { W.ready w.old }
    ensures met { CalledInTurn W.at w.old (in_attribute attribute.now) result w.new }
    ensures ready { W.ready w.new }
{
    w.attribute(attribute)
}

/// Meets attributes, one by one.
pub(crate) fn meet_attributes<W: ReadParts>(
    attributes: &[AttributeNode],
    w: &mut W,
) -> Result<(), W::Refusal>
    requires { W.ready w.old }
    ensures met { CalledInTurn W.at w.old (in_attributes attributes.now) result w.new }
    ensures ready { W.ready w.new }
{
    for attribute in attributes {
        meet_attribute(attribute, w)?;
    }
    Ok(())
}

/// Meets an expression.
pub(crate) fn meet_expression<W: ReadParts>(
    expression: &ExpressionNode,
    w: &mut W,
) -> Result<(), W::Refusal>
    requires { W.ready w.old }
    ensures met { CalledInTurn W.at w.old (in_expression expression.now) result w.new }
    ensures ready { W.ready w.new }
{
    w.expression(expression)
}

/// Meets an expression, where there is one.
pub(crate) fn meet_option<W: ReadParts>(
    expression: &Option<ExpressionNode>,
    w: &mut W,
) -> Result<(), W::Refusal>
    requires { W.ready w.old }
    ensures met { CalledInTurn W.at w.old (in_option expression.now) result w.new }
    ensures ready { W.ready w.new }
{
    match expression {
        None => Ok(()),
        Some(expression) => meet_expression(expression, w),
    }
}

/// Meets a type.
pub(crate) fn meet_type<W: ReadParts>(ty: &TypeExpression, w: &mut W) -> Result<(), W::Refusal>
    requires { W.ready w.old }
    ensures met { CalledInTurn W.at w.old (in_ty ty.now) result w.new }
    ensures ready { W.ready w.new }
{
    w.ty(ty)
}

/// Meets a type, where there is one.
pub(crate) fn meet_optional_type<W: ReadParts>(
    ty: &Option<TypeExpression>,
    w: &mut W,
) -> Result<(), W::Refusal>
    requires { W.ready w.old }
    ensures met { CalledInTurn W.at w.old (in_optional_type ty.now) result w.new }
    ensures ready { W.ready w.new }
{
    match ty {
        None => Ok(()),
        Some(ty) => meet_type(ty, w),
    }
}

/// Meets arguments, one by one.
fn meet_arguments<W: ReadParts>(arguments: &[ExpressionNode], w: &mut W) -> Result<(), W::Refusal>
    requires { W.ready w.old }
    ensures met { CalledInTurn W.at w.old (in_arguments arguments.now) result w.new }
    ensures ready { W.ready w.new }
{
    for argument in arguments {
        meet_expression(argument, w)?;
    }
    Ok(())
}

/// Meets what is called, and the arguments.
pub(crate) fn meet_call<W: ReadParts>(x: &FunctionCall, w: &mut W) -> Result<(), W::Refusal>
    requires { W.ready w.old }
    ensures met { CalledInTurn W.at w.old (in_call x.now) result w.new }
    ensures ready { W.ready w.new }
{
    meet_type(&x.ty, w)?;
    meet_arguments(x.arguments.as_slice(), w)
}
