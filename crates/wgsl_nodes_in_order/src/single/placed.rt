//! Nodes in declarations that hold them alone.

ghost use Rattle.std.specs.Prelude.{◌≡◌, ◌∷◌, [], Some, None, codes, IfOk};
ghost use Rattle.wgsl_expressions.specs.AttributesView.{attribute_tree};
ghost use Rattle.wgsl_expressions.specs.View.{tree, type_tree};
ghost use Rattle.wgsl_nodes_in_order.specs.StatementsView.{statement_tree, stms};
ghost use Rattle.wgsl_nodes_in_order.specs.DeclarationsView.{declaration_tree, member_tree, parameter_tree};
ghost use Rattle.wgsl_nodes_in_order.specs.Nodes.{attribute_node, expression_node, type_node, statement_node, member_node, parameter_node};
ghost use Rattle.wgsl_nodes_in_order.specs.Found.{node_of};
ghost use Rattle.wgsl_nodes_in_order.specs.Placed.{empty_function, holding};

use crate::{
    FormalParameter, Function, GlobalDeclaration, NodeRef, Statement, Struct, StructMember,
    TypeAlias,
};
use std::alloc::{AllocError, Global};
use wgsl_base::{CloneIn, FromIn, Items, Text};
use wgsl_expressions::{Attribute, Expression, TypeExpression};
use wgsl_path::{Ident, Spanned};
use wgsl_simple_statements::ConstAssert;

fn function(alloc: Global) -> Result<Function, AllocError>
    ensures { IfOk result (λ made. made ≡ empty_function) }
{
    Ok(Function::new(alloc, Ident::new(Text::from_str(alloc, "f")?)))
}

fn with_attribute(alloc: Global, attribute: &Attribute) -> Result<GlobalDeclaration, AllocError>
    ensures { IfOk result (λ made. declaration_tree made ≡ Some (holding (attribute_node (attribute_tree attribute.now)))) }
{
    let mut attributes = Items::new(alloc);
    attributes.push(Spanned::from_in(alloc, attribute.clone_in(alloc)?)?)?;
    let mut holder = function(alloc)?;
    holder.attributes = attributes;
    Ok(GlobalDeclaration::Function(holder))
}

fn with_expression(alloc: Global, expression: &Expression) -> Result<GlobalDeclaration, AllocError>
    ensures { IfOk result (λ made. declaration_tree made ≡ Some (holding (expression_node (tree expression.now)))) }
{
    let holder = ConstAssert::new(alloc, expression.clone_in(alloc)?)?;
    Ok(GlobalDeclaration::ConstAssert(holder))
}

fn with_type(alloc: Global, ty: &TypeExpression) -> Result<GlobalDeclaration, AllocError>
    ensures { IfOk result (λ made. declaration_tree made ≡ Some (holding (type_node (type_tree ty.now)))) }
{
    let ident = Ident::new(Text::from_str(alloc, "t")?);
    Ok(GlobalDeclaration::TypeAlias(TypeAlias::new(alloc, ident, ty.clone_in(alloc)?)))
}

fn with_statement(alloc: Global, statement: &Statement) -> Result<GlobalDeclaration, AllocError>
    ensures { IfOk result (λ made. declaration_tree made ≡ Some (holding (statement_node (stms (statement_tree statement.now ∷ []))))) }
{
    let mut statements = Items::new(alloc);
    statements.push(Spanned::from_in(alloc, statement.clone_in(alloc)?)?)?;
    let mut holder = function(alloc)?;
    holder.body.statements = statements;
    Ok(GlobalDeclaration::Function(holder))
}

fn with_member(alloc: Global, member: &StructMember) -> Result<GlobalDeclaration, AllocError>
    ensures { IfOk result (λ made. declaration_tree made ≡ Some (holding (member_node (member_tree member.now)))) }
{
    let mut members = Items::new(alloc);
    members.push(Spanned::from_in(alloc, member.clone_in(alloc)?)?)?;
    let mut holder = Struct::new(alloc, Ident::new(Text::from_str(alloc, "s")?));
    holder.members = members;
    Ok(GlobalDeclaration::Struct(holder))
}

fn with_parameter(
    alloc: Global,
    parameter: &FormalParameter,
) -> Result<GlobalDeclaration, AllocError>
    ensures { IfOk result (λ made. declaration_tree made ≡ Some (holding (parameter_node (parameter_tree parameter.now)))) }
{
    let mut parameters = Items::new(alloc);
    parameters.push(parameter.clone_in(alloc)?)?;
    let mut holder = function(alloc)?;
    holder.parameters = parameters;
    Ok(GlobalDeclaration::Function(holder))
}

/// A declaration that holds a copy of a node alone.
pub(crate) fn placed(alloc: Global, node: NodeRef) -> Result<GlobalDeclaration, AllocError>
    ensures { IfOk result (λ made. declaration_tree made ≡ Some (holding (node_of node.entry))) }
{
    match node {
        NodeRef::Attribute(x) => with_attribute(alloc, x),
        NodeRef::Expression(x) => with_expression(alloc, x),
        NodeRef::Type(x) => with_type(alloc, x),
        NodeRef::Statement(x) => with_statement(alloc, x),
        NodeRef::Member(x) => with_member(alloc, x),
        NodeRef::Parameter(x) => with_parameter(alloc, x),
    }
}
