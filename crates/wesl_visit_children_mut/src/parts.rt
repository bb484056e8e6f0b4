//! What is done at attributes, expressions and types, which it may change.

ghost use Rattle.std.specs.Prelude.{◌≡◌, map};
ghost use Rattle.std.specs.Option.{option_map};
ghost use Rattle.wesl_visit_children.specs.Turns.{ChangedInTurn};
ghost use Rattle.wesl_visit_children.specs.Parts.{in_attribute, in_attributes, in_expression, in_option, in_ty, in_optional_type, in_arguments, in_call};
ghost use Rattle.wesl_visit_children.specs.Rest.{around_attributes, around_arguments, around_call};

use crate::write_parts::WriteParts;
use wgsl_base::Items;
use wgsl_expressions::{AttributeNode, ExpressionNode, FunctionCall, TypeExpression};

/// Meets an attribute.
fn change_attribute<W: WriteParts>(
    attribute: &mut AttributeNode,
    w: &mut W,
) -> Result<(), W::Refusal>
    requires { W.ready w.old }
    ensures changed { ChangedInTurn W.at w.old (in_attribute attribute.old) result w.new (in_attribute attribute.new) }
    ensures rest { W.rest.attribute attribute.new ≡ W.rest.attribute attribute.old }
    ensures ready { W.ready w.new }
{
    w.attribute(attribute)
}

/// Meets attributes, one by one.
pub(crate) fn change_attributes<W: WriteParts>(
    attributes: &mut Items<AttributeNode>,
    w: &mut W,
) -> Result<(), W::Refusal>
    requires { W.ready w.old }
    ensures changed { ChangedInTurn W.at w.old (in_attributes attributes.old) result w.new (in_attributes attributes.new) }
    ensures rest { around_attributes W.rest attributes.new ≡ around_attributes W.rest attributes.old }
    ensures ready { W.ready w.new }
{
    for i in 0..attributes.len() {
        change_attribute(attributes.get_mut(i), w)?;
    }
    Ok(())
}

/// Meets an expression.
pub(crate) fn change_expression<W: WriteParts>(
    expression: &mut ExpressionNode,
    w: &mut W,
) -> Result<(), W::Refusal>
    requires { W.ready w.old }
    ensures changed { ChangedInTurn W.at w.old (in_expression expression.old) result w.new (in_expression expression.new) }
    ensures rest { W.rest.expression expression.new ≡ W.rest.expression expression.old }
    ensures ready { W.ready w.new }
{
    w.expression(expression)
}

/// Meets an expression, where there is one.
pub(crate) fn change_option<W: WriteParts>(
    expression: &mut Option<ExpressionNode>,
    w: &mut W,
) -> Result<(), W::Refusal>
    requires { W.ready w.old }
    ensures changed { ChangedInTurn W.at w.old (in_option expression.old) result w.new (in_option expression.new) }
    ensures rest { option_map W.rest.expression expression.new ≡ option_map W.rest.expression expression.old }
    ensures ready { W.ready w.new }
{
    match expression {
        None => Ok(()),
        Some(expression) => change_expression(expression, w),
    }
}

/// Meets a type.
pub(crate) fn change_type<W: WriteParts>(
    ty: &mut TypeExpression,
    w: &mut W,
) -> Result<(), W::Refusal>
    requires { W.ready w.old }
    ensures changed { ChangedInTurn W.at w.old (in_ty ty.old) result w.new (in_ty ty.new) }
    ensures rest { W.rest.ty ty.new ≡ W.rest.ty ty.old }
    ensures ready { W.ready w.new }
{
    w.ty(ty)
}

/// Meets a type, where there is one.
pub(crate) fn change_optional_type<W: WriteParts>(
    ty: &mut Option<TypeExpression>,
    w: &mut W,
) -> Result<(), W::Refusal>
    requires { W.ready w.old }
    ensures changed { ChangedInTurn W.at w.old (in_optional_type ty.old) result w.new (in_optional_type ty.new) }
    ensures rest { option_map W.rest.ty ty.new ≡ option_map W.rest.ty ty.old }
    ensures ready { W.ready w.new }
{
    match ty {
        None => Ok(()),
        Some(ty) => change_type(ty, w),
    }
}

/// Meets arguments, one by one.
fn change_arguments<W: WriteParts>(
    arguments: &mut Items<ExpressionNode>,
    w: &mut W,
) -> Result<(), W::Refusal>
    requires { W.ready w.old }
    ensures changed { ChangedInTurn W.at w.old (in_arguments arguments.old) result w.new (in_arguments arguments.new) }
    ensures rest { around_arguments W.rest arguments.new ≡ around_arguments W.rest arguments.old }
    ensures ready { W.ready w.new }
{
    for i in 0..arguments.len() {
        change_expression(arguments.get_mut(i), w)?;
    }
    Ok(())
}

/// Meets what is called, and the arguments.
pub(crate) fn change_call<W: WriteParts>(x: &mut FunctionCall, w: &mut W) -> Result<(), W::Refusal>
    requires { W.ready w.old }
    ensures changed { ChangedInTurn W.at w.old (in_call x.old) result w.new (in_call x.new) }
    ensures rest { around_call W.rest x.new ≡ around_call W.rest x.old }
    ensures ready { W.ready w.new }
{
    change_type(&mut x.ty, w)?;
    change_arguments(&mut x.arguments, w)
}
