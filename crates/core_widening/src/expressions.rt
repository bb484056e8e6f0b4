//! Expressions, types and attributes of units as those of the whole language.

ghost use Rattle.std.specs.Prelude.{◌≡◌, map, IfOk};
ghost use Rattle.std.specs.Option.{option_map};
ghost use Rattle.wgsl_expressions.specs.View as whole;
ghost use Rattle.wgsl_expressions.specs.AttributesView as whole_attributes;
ghost use Rattle.core_syntax.specs.View.{tree, node_tree, type_tree, attribute_tree, attributes_tree};
ghost use Rattle.core_narrowing.specs.Trees.{binary_tree, call_tree};
ghost use Rattle.core_narrowing.specs.Widening.{widen_literal, widen_exp, widen_typ, widen_attr, widen_attrs};

use core_syntax::{
    Attribute, AttributeNode, BinaryExpression, Expression, ExpressionNode, FunctionCall,
    LiteralExpression, TemplateArg, TypeExpression,
};
use std::alloc::{AllocError, Global};
use wgsl_base::{Boxed, CloneIn, Items, both};
use wgsl_expressions as whole_attributes;
use wgsl_expressions as whole;
use wgsl_path::Spanned;

fn widen_number(literal: LiteralExpression) -> whole::LiteralExpression
    ensures { result ≡ widen_literal literal }
{
    match literal {
        LiteralExpression::AbstractInt(n) => whole::LiteralExpression::AbstractInt(n),
        LiteralExpression::I32(n) => whole::LiteralExpression::I32(n),
        LiteralExpression::U32(n) => whole::LiteralExpression::U32(n),
    }
}

#[cycle(widen)]
#[tactic(auto, using(wgsl_expressions::proofs::Trees::tree_of_literal, wgsl_expressions::proofs::Trees::tree_of_parenthesized, wgsl_expressions::proofs::Trees::tree_of_unary, wgsl_expressions::proofs::Trees::tree_of_binary, wgsl_expressions::proofs::Trees::tree_of_call, wgsl_expressions::proofs::Trees::tree_of_named, core_syntax::proofs::Trees::tree_of_literal, core_syntax::proofs::Trees::tree_of_parenthesized, core_syntax::proofs::Trees::tree_of_unary, core_syntax::proofs::Trees::tree_of_binary, core_syntax::proofs::Trees::tree_of_call, core_syntax::proofs::Trees::tree_of_named))]
fn widen_expression(alloc: Global, expression: &Expression) -> Result<whole::Expression, AllocError>
    ensures { IfOk result (λ w. whole.tree w ≡ widen_exp (tree expression.now)) }
{
    match expression {
        Expression::Literal(x) => Ok(whole::Expression::Literal(widen_number(*x))),
        Expression::Parenthesized(x) => {
            let expression = widen_node(alloc, &x.expression)?;
            Ok(whole::Expression::Parenthesized(whole::ParenthesizedExpression { expression }))
        }
        Expression::Unary(x) => {
            let operand = widen_node(alloc, &x.operand)?;
            Ok(whole::Expression::Unary(whole::UnaryExpression {
                operator: x.operator,
                operand,
            }))
        }
        Expression::Binary(x) => Ok(whole::Expression::Binary(widen_binary(alloc, x)?)),
        Expression::FunctionCall(x) => {
            let call = widen_call(alloc, x.get())?;
            Ok(whole::Expression::FunctionCall(Boxed::new(alloc, call)?))
        }
        Expression::TypeOrIdentifier(x) => {
            Ok(whole::Expression::TypeOrIdentifier(widen_type(alloc, x)?))
        }
    }
}

#[cycle(widen)]
pub(crate) fn widen_node(
    alloc: Global,
    node: &ExpressionNode,
) -> Result<whole::ExpressionNode, AllocError>
    ensures { IfOk result (λ w. whole.node_tree w ≡ widen_exp (node_tree node.now)) }
{
    Spanned::new(alloc, widen_expression(alloc, node.node())?, node.span)
}

#[cycle(widen)]
fn widen_binary(alloc: Global, x: &BinaryExpression) -> Result<whole::BinaryExpression, AllocError>
    ensures operator { IfOk result (λ w. w.operator ≡ x.now.operator) }
    ensures left { IfOk result (λ w. whole.node_tree w.left ≡ widen_exp (node_tree x.now.left)) }
    ensures right { IfOk result (λ w. whole.node_tree w.right ≡ widen_exp (node_tree x.now.right)) }
{
    let (left, right) = both(widen_node(alloc, &x.left), widen_node(alloc, &x.right))?;
    Ok(whole::BinaryExpression {
        operator: x.operator,
        left,
        right,
    })
}

#[cycle(widen)]
fn widen_call(alloc: Global, x: &FunctionCall) -> Result<whole::FunctionCall, AllocError>
    ensures { IfOk result (λ w. whole.call_layer whole.tree w ≡ widen_exp (call_tree x.now)) }
{
    let ty = widen_type(alloc, &x.ty);
    let (ty, arguments) = both(ty, widen_nodes(alloc, x.arguments.as_slice()))?;
    Ok(whole::FunctionCall { ty, arguments })
}

#[cycle(widen)]
fn widen_nodes(
    alloc: Global,
    nodes: &[ExpressionNode],
) -> Result<Items<whole::ExpressionNode>, AllocError>
    ensures { IfOk result (λ w. map whole.node_tree w ≡ map (λ n. widen_exp (node_tree n)) nodes.now) }
{
    let mut widened = Items::new(alloc);
    for node in nodes {
        widened.push(widen_node(alloc, node)?)?;
    }
    Ok(widened)
}

#[cycle(widen)]
pub(crate) fn widen_type(
    alloc: Global,
    ty: &TypeExpression,
) -> Result<whole::TypeExpression, AllocError>
    ensures { IfOk result (λ w. whole.type_tree w ≡ widen_typ (type_tree ty.now)) }
{
    let template_args = match &ty.template_args {
        None => None,
        Some(arguments) => {
            let widened = widen_arguments(alloc, arguments.get().as_slice())?;
            Some(Boxed::new(alloc, widened)?)
        }
    };
    Ok(whole::TypeExpression {
        path: ty.path.clone_in(alloc)?,
        ident: ty.ident.clone_in(alloc)?,
        template_args,
    })
}

#[cycle(widen)]
fn widen_arguments(
    alloc: Global,
    arguments: &[TemplateArg],
) -> Result<Items<whole::TemplateArg>, AllocError>
    ensures { IfOk result (λ w. map (λ a. whole.node_tree a.expression) w ≡ map (λ a. widen_exp (node_tree a.expression)) arguments.now) }
{
    let mut widened = Items::new(alloc);
    for argument in arguments {
        let expression = widen_node(alloc, &argument.expression)?;
        widened.push(whole::TemplateArg { expression })?;
    }
    Ok(widened)
}

pub(crate) fn widen_optional(
    alloc: Global,
    node: &Option<ExpressionNode>,
) -> Result<Option<whole::ExpressionNode>, AllocError>
    ensures { IfOk result (λ w. option_map whole.node_tree w ≡ option_map widen_exp (option_map node_tree node.now)) }
{
    match node {
        None => Ok(None),
        Some(node) => Ok(Some(widen_node(alloc, node)?)),
    }
}

pub(crate) fn widen_optional_type(
    alloc: Global,
    ty: &Option<TypeExpression>,
) -> Result<Option<whole::TypeExpression>, AllocError>
    ensures { IfOk result (λ w. option_map whole.type_tree w ≡ option_map widen_typ (option_map type_tree ty.now)) }
{
    match ty {
        None => Ok(None),
        Some(ty) => Ok(Some(widen_type(alloc, ty)?)),
    }
}

fn widen_attribute(
    alloc: Global,
    attribute: &Attribute,
) -> Result<whole_attributes::Attribute, AllocError>
    ensures { IfOk result (λ w. whole_attributes.attribute_tree w ≡ widen_attr (attribute_tree attribute.now)) }
{
    match attribute {
        Attribute::Fragment => Ok(whole_attributes::Attribute::Fragment),
        Attribute::Location(x) => {
            Ok(whole_attributes::Attribute::Location(widen_node(alloc, x)?))
        }
    }
}

pub(crate) fn widen_attributes(
    alloc: Global,
    attributes: &[AttributeNode],
) -> Result<whole_attributes::Attributes, AllocError>
    ensures { IfOk result (λ w. whole_attributes.attributes_tree w ≡ widen_attrs (attributes_tree attributes.now)) }
{
    let mut widened = Items::new(alloc);
    for attribute in attributes {
        let node = widen_attribute(alloc, attribute.node())?;
        widened.push(Spanned::new(alloc, node, attribute.span)?)?;
    }
    Ok(widened)
}
