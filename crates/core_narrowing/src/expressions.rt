//! Expressions, types and attributes of units.

ghost use Rattle.std.specs.Prelude.{◌≡◌, map, flat_map, IfOk};
ghost use Rattle.std.specs.Option.{option_map};
ghost use Rattle.wgsl_expressions.specs.Tree as exp;
ghost use Rattle.wgsl_expressions.specs.View as whole;
ghost use Rattle.wgsl_expressions.specs.AttributesView as whole_attributes;
ghost use Rattle.core_syntax.specs.Tree.{exps};
ghost use Rattle.core_syntax.specs.View.{tree, node_tree, type_tree, type_layer, call_layer, attribute_tree, attributes_tree};
ghost use Rattle.core_narrowing.specs.Narrowing.{Answers, narrow_literal, narrow_exp, narrow_exps, narrow_typ, narrow_attr, narrow_attrs, maybe};
ghost use Rattle.core_narrowing.specs.Places as part;
ghost use Rattle.core_narrowing.specs.ModulePlaces as places;
ghost use Rattle.core_narrowing.specs.Trees.{binary_tree, call_tree, nodes_tree, arguments_tree};

use crate::error::NarrowError;
use core_syntax::{
    Attribute, Attributes, BinaryExpression, Expression, ExpressionNode, FunctionCall,
    LiteralExpression, ParenthesizedExpression, TemplateArg, TypeExpression, UnaryExpression,
};
use std::alloc::Global;
use wgsl_base::{Boxed, CloneIn, Items};
use wgsl_expressions as whole_attributes;
use wgsl_expressions as whole;
use wgsl_path::Spanned;

fn narrow_number(literal: &whole::LiteralExpression) -> Result<LiteralExpression, NarrowError>
    ensures { Answers (λ x. x) (narrow_literal literal.now) result }
{
    match literal {
        whole::LiteralExpression::AbstractInt(n) => Ok(LiteralExpression::AbstractInt(*n)),
        whole::LiteralExpression::I32(n) => Ok(LiteralExpression::I32(*n)),
        whole::LiteralExpression::U32(n) => Ok(LiteralExpression::U32(*n)),
        _ => Err(NarrowError::Unsupported),
    }
}

#[cycle(narrow)]
fn narrow_expression(
    alloc: Global,
    expression: &whole::Expression,
) -> Result<Expression, NarrowError>
    ensures tree { Answers tree (narrow_exp (whole.tree expression.now)) result }
    ensures places { IfOk result (λ x. part.in_expression x ≡ places.in_expression expression.now) }
{
    match expression {
        whole::Expression::Literal(x) => Ok(Expression::Literal(narrow_number(x)?)),
        whole::Expression::Parenthesized(x) => {
            let expression = narrow_node(alloc, &x.expression)?;
            Ok(Expression::Parenthesized(ParenthesizedExpression { expression }))
        }
        whole::Expression::NamedComponent(_) => Err(NarrowError::Unsupported),
        whole::Expression::Indexing(_) => Err(NarrowError::Unsupported),
        whole::Expression::Unary(x) => {
            let operand = narrow_node(alloc, &x.operand)?;
            Ok(Expression::Unary(UnaryExpression {
                operator: x.operator,
                operand,
            }))
        }
        whole::Expression::Binary(x) => Ok(Expression::Binary(narrow_binary(alloc, x)?)),
        whole::Expression::FunctionCall(x) => {
            let call = narrow_call(alloc, x.get())?;
            Ok(Expression::FunctionCall(Boxed::new(alloc, call)?))
        }
        whole::Expression::TypeOrIdentifier(x) => {
            Ok(Expression::TypeOrIdentifier(narrow_type(alloc, x)?))
        }
    }
}

#[cycle(narrow)]
pub(crate) fn narrow_node(
    alloc: Global,
    node: &whole::ExpressionNode,
) -> Result<ExpressionNode, NarrowError>
    ensures tree { Answers node_tree (narrow_exp (whole.node_tree node.now)) result }
    ensures places { IfOk result (λ x. part.in_node x ≡ places.in_node node.now) }
{
    let expression = narrow_expression(alloc, node.node())?;
    Ok(Spanned::new(alloc, expression, node.span)?)
}

#[cycle(narrow)]
fn narrow_binary(
    alloc: Global,
    x: &whole::BinaryExpression,
) -> Result<BinaryExpression, NarrowError>
    ensures tree { Answers binary_tree (narrow_exp (exp.binary x.now.operator (whole.node_tree x.now.left) (whole.node_tree x.now.right))) result }
    ensures places { IfOk result (λ y. part.binary_layer part.in_expression y ≡ places.binary_layer places.in_expression x.now) }
{
    let left = narrow_node(alloc, &x.left)?;
    let right = narrow_node(alloc, &x.right)?;
    Ok(BinaryExpression {
        operator: x.operator,
        left,
        right,
    })
}

#[cycle(narrow)]
fn narrow_call(alloc: Global, x: &whole::FunctionCall) -> Result<FunctionCall, NarrowError>
    ensures tree { Answers call_tree (narrow_exp (whole.call_layer whole.tree x.now)) result }
    ensures places { IfOk result (λ y. part.call_layer part.in_expression y ≡ places.call_layer places.in_expression x.now) }
{
    let ty = narrow_type(alloc, &x.ty)?;
    let arguments = narrow_nodes(alloc, x.arguments.as_slice())?;
    Ok(FunctionCall { ty, arguments })
}

#[cycle(narrow)]
fn narrow_nodes(
    alloc: Global,
    nodes: &[whole::ExpressionNode],
) -> Result<Items<ExpressionNode>, NarrowError>
    ensures tree { Answers nodes_tree (narrow_exps (exp.exps (map whole.node_tree nodes.now))) result }
    ensures places { IfOk result (λ x. flat_map part.in_node x ≡ flat_map places.in_node nodes.now) }
{
    let mut narrowed = Items::new(alloc);
    for node in nodes {
        narrowed.push(narrow_node(alloc, node)?)?;
    }
    Ok(narrowed)
}

#[cycle(narrow)]
pub(crate) fn narrow_type(
    alloc: Global,
    ty: &whole::TypeExpression,
) -> Result<TypeExpression, NarrowError>
    ensures tree { Answers type_tree (narrow_typ (whole.type_tree ty.now)) result }
    ensures places { IfOk result (λ x. part.in_type x ≡ places.in_type ty.now) }
{
    let template_args = match &ty.template_args {
        None => None,
        Some(arguments) => {
            let narrowed = narrow_arguments(alloc, arguments.get().as_slice())?;
            Some(Boxed::new(alloc, narrowed)?)
        }
    };
    Ok(TypeExpression {
        path: ty.path.clone_in(alloc)?,
        ident: ty.ident.clone_in(alloc)?,
        template_args,
    })
}

#[cycle(narrow)]
fn narrow_arguments(
    alloc: Global,
    arguments: &[whole::TemplateArg],
) -> Result<Items<TemplateArg>, NarrowError>
    ensures tree { Answers arguments_tree (narrow_exps (exp.exps (map (λ a. whole.node_tree a.expression) arguments.now))) result }
    ensures places { IfOk result (λ x. flat_map (part.in_argument part.in_expression) x ≡ flat_map (places.in_argument places.in_expression) arguments.now) }
{
    let mut narrowed = Items::new(alloc);
    for argument in arguments {
        let expression = narrow_node(alloc, &argument.expression)?;
        narrowed.push(TemplateArg { expression })?;
    }
    Ok(narrowed)
}

pub(crate) fn narrow_optional(
    alloc: Global,
    node: &Option<whole::ExpressionNode>,
) -> Result<Option<ExpressionNode>, NarrowError>
    ensures tree { Answers (option_map node_tree) (maybe narrow_exp (option_map whole.node_tree node.now)) result }
    ensures places { IfOk result (λ x. part.in_optional part.in_node x ≡ part.in_optional places.in_node node.now) }
{
    match node {
        None => Ok(None),
        Some(node) => Ok(Some(narrow_node(alloc, node)?)),
    }
}

pub(crate) fn narrow_optional_type(
    alloc: Global,
    ty: &Option<whole::TypeExpression>,
) -> Result<Option<TypeExpression>, NarrowError>
    ensures tree { Answers (option_map type_tree) (maybe narrow_typ (option_map whole.type_tree ty.now)) result }
    ensures places { IfOk result (λ x. part.in_optional part.in_type x ≡ part.in_optional places.in_type ty.now) }
{
    match ty {
        None => Ok(None),
        Some(ty) => Ok(Some(narrow_type(alloc, ty)?)),
    }
}

fn narrow_attribute(
    alloc: Global,
    attribute: &whole_attributes::Attribute,
) -> Result<Attribute, NarrowError>
    ensures tree { Answers attribute_tree (narrow_attr (whole_attributes.attribute_tree attribute.now)) result }
    ensures places { IfOk result (λ x. part.in_attribute x ≡ places.in_attribute attribute.now) }
{
    match attribute {
        whole_attributes::Attribute::Fragment => Ok(Attribute::Fragment),
        whole_attributes::Attribute::Location(x) => {
            Ok(Attribute::Location(narrow_node(alloc, x)?))
        }
        _ => Err(NarrowError::Unsupported),
    }
}

pub(crate) fn narrow_attributes(
    alloc: Global,
    attributes: &[whole_attributes::AttributeNode],
) -> Result<Attributes, NarrowError>
    ensures tree { Answers attributes_tree (narrow_attrs (whole_attributes.attributes_tree attributes.now)) result }
    ensures places { IfOk result (λ x. part.in_attributes x ≡ places.in_attributes attributes.now) }
{
    let mut narrowed = Items::new(alloc);
    for attribute in attributes {
        let node = narrow_attribute(alloc, attribute.node())?;
        narrowed.push(Spanned::new(alloc, node, attribute.span)?)?;
    }
    Ok(narrowed)
}
