//! The nodes in expressions, types and attributes.

ghost use Rattle.std.specs.Prelude.{◌≡◌, ◌++◌, map, OnOk};
ghost use Rattle.wgsl_expressions.specs.Tree.{exps, indexed};
ghost use Rattle.wgsl_expressions.specs.View.{call_layer, tree, node_tree, type_tree};
ghost use Rattle.wgsl_expressions.specs.AttributesView.{attribute_tree, attributes_tree, workgroup_tree, custom_tree};
ghost use Rattle.std.specs.List.{flat_map};
ghost use Rattle.std.specs.Option.{option_map};
ghost use Rattle.wgsl_nodes_in_order.specs.Nodes.{in_attr, in_attrs, in_exp, in_exps, in_option, in_typ, inside_attr, inside_exp, inside_typ};
ghost use Rattle.wgsl_nodes_in_order.specs.Found.{nodes};

use crate::node::NodeRef;
use std::alloc::AllocError;
use wgsl_expressions::{
    Attribute, AttributeNode, BinaryExpression, CustomAttribute, Expression, ExpressionNode,
    FunctionCall, IndexingExpression, TemplateArg, TypeExpression, WorkgroupSizeAttribute,
};

/// Lists the nodes inside an expression.
#[cycle(expressions)]
fn find_inside<'a>(
    expression: &'a Expression,
    found: &mut Vec<NodeRef<'a>>,
) -> Result<(), AllocError>
    ensures { OnOk result (nodes found.new.items ≡ nodes found.old.items ++ inside_exp (tree expression.now)) }
{
    match expression {
        Expression::Literal(_) => Ok(()),
        Expression::Parenthesized(x) => find_expression(&x.expression, found),
        Expression::NamedComponent(x) => find_expression(&x.base, found),
        Expression::Indexing(x) => find_indexing(x, found),
        Expression::Unary(x) => find_expression(&x.operand, found),
        Expression::Binary(x) => find_binary(x, found),
        Expression::FunctionCall(x) => find_call(x.get(), found),
        Expression::TypeOrIdentifier(x) => find_type(x, found),
    }
}

/// Lists the nodes of an expression.
#[cycle(expressions)]
pub(crate) fn find_expression<'a>(
    node: &'a ExpressionNode,
    found: &mut Vec<NodeRef<'a>>,
) -> Result<(), AllocError>
    ensures { OnOk result (nodes found.new.items ≡ nodes found.old.items ++ in_exp (node_tree node.now)) }
{
    find_inside(node.node(), found)?;
    found.push(NodeRef::Expression(node.node()))?;
    Ok(())
}

/// Lists the nodes of a base and its index.
#[cycle(expressions)]
fn find_indexing<'a>(
    x: &'a IndexingExpression,
    found: &mut Vec<NodeRef<'a>>,
) -> Result<(), AllocError>
    ensures { OnOk result (nodes found.new.items ≡ nodes found.old.items ++ (in_exp (node_tree x.now.base) ++ in_exp (node_tree x.now.index))) }
{
    find_expression(&x.base, found)?;
    find_expression(&x.index, found)
}

/// Lists the nodes of two operands.
#[cycle(expressions)]
fn find_binary<'a>(x: &'a BinaryExpression, found: &mut Vec<NodeRef<'a>>) -> Result<(), AllocError>
    ensures { OnOk result (nodes found.new.items ≡ nodes found.old.items ++ (in_exp (node_tree x.now.left) ++ in_exp (node_tree x.now.right))) }
{
    find_expression(&x.left, found)?;
    find_expression(&x.right, found)
}

/// Lists the nodes inside a call.
#[cycle(expressions)]
pub(crate) fn find_call<'a>(
    x: &'a FunctionCall,
    found: &mut Vec<NodeRef<'a>>,
) -> Result<(), AllocError>
    ensures { OnOk result (nodes found.new.items ≡ nodes found.old.items ++ (in_typ (type_tree x.now.ty) ++ in_exps (exps (map node_tree x.now.arguments)))) }
{
    find_type(&x.ty, found)?;
    find_expressions(&x.arguments.as_slice(), found)
}

/// Lists the nodes of expressions, one by one.
#[cycle(expressions)]
fn find_expressions<'a>(
    expressions: &'a [ExpressionNode],
    found: &mut Vec<NodeRef<'a>>,
) -> Result<(), AllocError>
    ensures { OnOk result (nodes found.new.items ≡ nodes found.old.items ++ in_exps (exps (map node_tree expressions.now))) }
{
    for expression in expressions {
        find_expression(expression, found)?;
    }
    Ok(())
}

/// Lists the nodes of a type.
#[cycle(expressions)]
pub(crate) fn find_type<'a>(
    ty: &'a TypeExpression,
    found: &mut Vec<NodeRef<'a>>,
) -> Result<(), AllocError>
    ensures { OnOk result (nodes found.new.items ≡ nodes found.old.items ++ in_typ (type_tree ty.now)) }
{
    find_inside_type(ty, found)?;
    found.push(NodeRef::Type(ty))?;
    Ok(())
}

/// Lists the nodes inside a type.
#[cycle(expressions)]
fn find_inside_type<'a>(
    ty: &'a TypeExpression,
    found: &mut Vec<NodeRef<'a>>,
) -> Result<(), AllocError>
    ensures { OnOk result (nodes found.new.items ≡ nodes found.old.items ++ inside_typ (type_tree ty.now)) }
{
    match &ty.template_args {
        None => Ok(()),
        Some(arguments) => find_arguments(arguments.get().as_slice(), found),
    }
}

/// Lists the nodes of template arguments, one by one.
#[cycle(expressions)]
fn find_arguments<'a>(
    arguments: &'a [TemplateArg],
    found: &mut Vec<NodeRef<'a>>,
) -> Result<(), AllocError>
    ensures { OnOk result (nodes found.new.items ≡ nodes found.old.items ++ in_exps (exps (map (λ a. node_tree a.expression) arguments.now))) }
{
    for argument in arguments {
        find_expression(&argument.expression, found)?;
    }
    Ok(())
}

/// Lists the nodes of an expression, where there is one.
pub(crate) fn find_optional<'a>(
    node: &'a Option<ExpressionNode>,
    found: &mut Vec<NodeRef<'a>>,
) -> Result<(), AllocError>
    ensures { OnOk result (nodes found.new.items ≡ nodes found.old.items ++ in_option in_exp (option_map node_tree node.now)) }
{
    match node {
        None => Ok(()),
        Some(node) => find_expression(node, found),
    }
}

/// Lists the nodes of a type, where there is one.
pub(crate) fn find_optional_type<'a>(
    ty: &'a Option<TypeExpression>,
    found: &mut Vec<NodeRef<'a>>,
) -> Result<(), AllocError>
    ensures { OnOk result (nodes found.new.items ≡ nodes found.old.items ++ in_option in_typ (option_map type_tree ty.now)) }
{
    match ty {
        None => Ok(()),
        Some(ty) => find_type(ty, found),
    }
}

/// Lists the nodes inside `@workgroup_size`.
fn find_sizes<'a>(
    x: &'a WorkgroupSizeAttribute,
    found: &mut Vec<NodeRef<'a>>,
) -> Result<(), AllocError>
    ensures { OnOk result (nodes found.new.items ≡ nodes found.old.items ++ inside_attr (workgroup_tree x.now)) }
{
    find_expression(&x.x, found)?;
    find_optional(&x.y, found)?;
    find_optional(&x.z, found)
}

/// Lists the nodes of the arguments of a custom attribute, one by one.
fn find_each<'a>(
    expressions: &'a [ExpressionNode],
    found: &mut Vec<NodeRef<'a>>,
) -> Result<(), AllocError>
    ensures { OnOk result (nodes found.new.items ≡ nodes found.old.items ++ flat_map in_exp (map node_tree expressions.now)) }
{
    for expression in expressions {
        find_expression(expression, found)?;
    }
    Ok(())
}

/// Lists the nodes inside a custom attribute.
fn find_custom<'a>(x: &'a CustomAttribute, found: &mut Vec<NodeRef<'a>>) -> Result<(), AllocError>
    ensures { OnOk result (nodes found.new.items ≡ nodes found.old.items ++ inside_attr (custom_tree x.now)) }
{
    match &x.arguments {
        None => Ok(()),
        Some(arguments) => find_each(arguments.as_slice(), found),
    }
}

/// Lists the nodes inside an attribute.
fn find_inside_attribute<'a>(
    attribute: &'a Attribute,
    found: &mut Vec<NodeRef<'a>>,
) -> Result<(), AllocError>
    ensures { OnOk result (nodes found.new.items ≡ nodes found.old.items ++ inside_attr (attribute_tree attribute.now)) }
{
    match attribute {
        Attribute::Align(x) => find_expression(x, found),
        Attribute::Binding(x) => find_expression(x, found),
        Attribute::BlendSrc(x) => find_expression(x, found),
        Attribute::Group(x) => find_expression(x, found),
        Attribute::Id(x) => find_expression(x, found),
        Attribute::Location(x) => find_expression(x, found),
        Attribute::Size(x) => find_expression(x, found),
        Attribute::If(x) => find_expression(x, found),
        Attribute::Elif(x) => find_expression(x, found),
        Attribute::WorkgroupSize(x) => find_sizes(x.get(), found),
        Attribute::Custom(x) => find_custom(x.get(), found),
        Attribute::Builtin(_) => Ok(()),
        Attribute::Diagnostic(_) => Ok(()),
        Attribute::Interpolate(_) => Ok(()),
        Attribute::Const => Ok(()),
        Attribute::Invariant => Ok(()),
        Attribute::MustUse => Ok(()),
        Attribute::Vertex => Ok(()),
        Attribute::Fragment => Ok(()),
        Attribute::Compute => Ok(()),
        Attribute::Publish => Ok(()),
        Attribute::Else => Ok(()),
    }
}

/// Lists the nodes of an attribute.
fn find_attribute<'a>(
    attribute: &'a Attribute,
    found: &mut Vec<NodeRef<'a>>,
) -> Result<(), AllocError>
    ensures { OnOk result (nodes found.new.items ≡ nodes found.old.items ++ in_attr (attribute_tree attribute.now)) }
{
    find_inside_attribute(attribute, found)?;
    found.push(NodeRef::Attribute(attribute))?;
    Ok(())
}

/// Lists the nodes of attributes, one by one.
pub(crate) fn find_attributes<'a>(
    attributes: &'a [AttributeNode],
    found: &mut Vec<NodeRef<'a>>,
) -> Result<(), AllocError>
    ensures { OnOk result (nodes found.new.items ≡ nodes found.old.items ++ in_attrs (attributes_tree attributes.now)) }
{
    for attribute in attributes {
        find_attribute(attribute.node(), found)?;
    }
    Ok(())
}
