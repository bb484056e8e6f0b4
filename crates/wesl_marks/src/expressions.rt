//! The marks of expressions, types and attributes.

ghost use Rattle.std.specs.Prelude.{◌≡◌, ◌++◌, map, OnOk};
ghost use Rattle.std.specs.List.{flat_map};
ghost use Rattle.std.specs.Option.{option_map};
ghost use Rattle.wgsl_expressions.specs.Tree.{exps};
ghost use Rattle.wgsl_expressions.specs.View.{node_tree, type_tree};
ghost use Rattle.wgsl_expressions.specs.AttributesView.{attribute_tree, attributes_tree};
ghost use Rattle.wesl_mark.specs.Lists.{flats, OnlyGrows};
ghost use Rattle.wesl_marks.specs.Laid.{if_exp, if_typ, in_attr, in_attrs, in_exp, in_exps, in_typ};

use std::alloc::AllocError;
use wesl_mark::MarkList;
use wgsl_expressions::{
    Attribute, AttributeNode, Expression, ExpressionNode, FunctionCall, TypeExpression,
};

/// Marks an expression.
#[cycle(expressions)]
pub(crate) fn mark_expression(
    node: &ExpressionNode,
    is_custom: bool,
    list: &mut MarkList,
) -> Result<(), AllocError>
    ensures flats { OnOk result (flats list.new ≡ flats list.old ++ in_exp (node_tree node.now)) }
    ensures grows { OnOk result (OnlyGrows list.old list.new) }
{
    match node.node() {
        Expression::Literal(_) => Ok(()),
        Expression::Parenthesized(x) => mark_expression(&x.expression, is_custom, list),
        Expression::NamedComponent(x) => mark_expression(&x.base, is_custom, list),
        Expression::Indexing(x) => {
            mark_expression(&x.base, is_custom, list)?;
            mark_expression(&x.index, is_custom, list)
        }
        Expression::Unary(x) => mark_expression(&x.operand, is_custom, list),
        Expression::Binary(x) => {
            mark_expression(&x.left, is_custom, list)?;
            mark_expression(&x.right, is_custom, list)
        }
        Expression::FunctionCall(x) => mark_call(x.get(), is_custom, list),
        Expression::TypeOrIdentifier(x) => mark_type(x, None, is_custom, list),
    }
}

/// Marks expressions, one by one.
#[cycle(expressions)]
fn mark_expressions(
    nodes: &[ExpressionNode],
    is_custom: bool,
    list: &mut MarkList,
) -> Result<(), AllocError>
    ensures flats { OnOk result (flats list.new ≡ flats list.old ++ in_exps (exps (map node_tree nodes.now))) }
    ensures grows { OnOk result (OnlyGrows list.old list.new) }
{
    for node in nodes {
        mark_expression(node, is_custom, list)?;
    }
    Ok(())
}

/// Marks a call.
#[cycle(expressions)]
pub(crate) fn mark_call(
    x: &FunctionCall,
    is_custom: bool,
    list: &mut MarkList,
) -> Result<(), AllocError>
    ensures flats { OnOk result (flats list.new ≡ flats list.old ++ (in_typ (type_tree x.now.ty) ++ in_exps (exps (map node_tree x.now.arguments)))) }
    ensures grows { OnOk result (OnlyGrows list.old list.new) }
{
    mark_type(&x.ty, Some(x.arguments.len()), is_custom, list)?;
    mark_expressions(x.arguments.as_slice(), is_custom, list)
}

/// Marks a type or a name, where it is called with so many arguments.
#[cycle(expressions)]
pub(crate) fn mark_type(
    ty: &TypeExpression,
    arguments: Option<usize>,
    is_custom: bool,
    list: &mut MarkList,
) -> Result<(), AllocError>
    ensures flats { OnOk result (flats list.new ≡ flats list.old ++ in_typ (type_tree ty.now)) }
    ensures grows { OnOk result (OnlyGrows list.old list.new) }
{
    match &ty.template_args {
        None => {
            if ty.path.is_none() && ty.ident.as_str() == "_" {
                return Ok(());
            }
            list.occurs(&ty.path, &ty.ident, arguments, is_custom, false)
        }
        Some(inside) => {
            list.occurs(&ty.path, &ty.ident, arguments, is_custom, true)?;
            for argument in inside.get().as_slice() {
                mark_expression(&argument.expression, is_custom, list)?;
            }
            Ok(())
        }
    }
}

/// Marks an expression, where there is one.
pub(crate) fn mark_optional(
    node: &Option<ExpressionNode>,
    list: &mut MarkList,
) -> Result<(), AllocError>
    ensures flats { OnOk result (flats list.new ≡ flats list.old ++ if_exp (option_map node_tree node.now)) }
    ensures grows { OnOk result (OnlyGrows list.old list.new) }
{
    match node {
        None => Ok(()),
        Some(node) => mark_expression(node, false, list),
    }
}

/// Marks a type, where there is one.
pub(crate) fn mark_optional_type(
    ty: &Option<TypeExpression>,
    list: &mut MarkList,
) -> Result<(), AllocError>
    ensures flats { OnOk result (flats list.new ≡ flats list.old ++ if_typ (option_map type_tree ty.now)) }
    ensures grows { OnOk result (OnlyGrows list.old list.new) }
{
    match ty {
        None => Ok(()),
        Some(ty) => mark_type(ty, None, false, list),
    }
}

/// Marks an attribute.
fn mark_attribute(attribute: &Attribute, list: &mut MarkList) -> Result<(), AllocError>
    ensures flats { OnOk result (flats list.new ≡ flats list.old ++ in_attr (attribute_tree attribute.now)) }
    ensures grows { OnOk result (OnlyGrows list.old list.new) }
{
    match attribute {
        Attribute::Align(x) => mark_expression(x, false, list),
        Attribute::Binding(x) => mark_expression(x, false, list),
        Attribute::BlendSrc(x) => mark_expression(x, false, list),
        Attribute::Group(x) => mark_expression(x, false, list),
        Attribute::Id(x) => mark_expression(x, false, list),
        Attribute::Location(x) => mark_expression(x, false, list),
        Attribute::Size(x) => mark_expression(x, false, list),
        Attribute::WorkgroupSize(x) => {
            let x = x.get();
            mark_expression(&x.x, false, list)?;
            mark_optional(&x.y, list)?;
            mark_optional(&x.z, list)
        }
        Attribute::Custom(x) => match &x.get().arguments {
            None => Ok(()),
            Some(arguments) => mark_each(arguments.as_slice(), list),
        },
        Attribute::If(_) => Ok(()),
        Attribute::Elif(_) => Ok(()),
        Attribute::Builtin(_) => Ok(()),
        Attribute::Diagnostic(_) => Ok(()),
        Attribute::Interpolate(_) => Ok(()),
        Attribute::Const => Ok(()),
        Attribute::Invariant => Ok(()),
        Attribute::MustUse => Ok(()),
        Attribute::Vertex => Ok(()),
        Attribute::Fragment => Ok(()),
        Attribute::Compute => Ok(()),
        Attribute::Publish => Ok(()),
        Attribute::Else => Ok(()),
    }
}

/// Marks the arguments of a custom attribute, one by one.
fn mark_each(nodes: &[ExpressionNode], list: &mut MarkList) -> Result<(), AllocError>
    ensures flats { OnOk result (flats list.new ≡ flats list.old ++ flat_map in_exp (map node_tree nodes.now)) }
    ensures grows { OnOk result (OnlyGrows list.old list.new) }
{
    for node in nodes {
        mark_expression(node, true, list)?;
    }
    Ok(())
}

/// Marks attributes, one by one.
pub fn mark_attributes(attributes: &[AttributeNode], list: &mut MarkList) -> Result<(), AllocError>
    ensures flats { OnOk result (flats list.new ≡ flats list.old ++ in_attrs (attributes_tree attributes.now)) }
    ensures grows { OnOk result (OnlyGrows list.old list.new) }
{
    for attribute in attributes {
        mark_attribute(attribute.node(), list)?;
    }
    Ok(())
}
