//! The nodes in declarations.

ghost use Rattle.std.specs.Prelude.{◌≡◌, ◌++◌, map, IfOk, OnOk};
ghost use Rattle.std.specs.List.{flat_map};
ghost use Rattle.wgsl_expressions.specs.View.{type_tree};
ghost use Rattle.wgsl_expressions.specs.AttributesView.{attributes_tree};
ghost use Rattle.wgsl_declarations.specs.View.{alias_tree, declaration_tree, function_tree, member_tree, members_tree, parameter_tree, structure_tree};
ghost use Rattle.wgsl_nodes_in_order.specs.Nodes.{in_attrs, in_decl, in_member, in_optional_decl, in_param, in_typ};
ghost use Rattle.wgsl_nodes_in_order.specs.Found.{nodes};

use crate::find::{find_attributes, find_optional_type, find_type};
use crate::find_statements::{find_assertion, find_block, find_value};
use crate::node::NodeRef;
use std::alloc::{AllocError, Global};
use wgsl_declarations::{
    FormalParameter, Function, GlobalDeclaration, Struct, StructMember, StructMemberNode, TypeAlias,
};
use wgsl_expressions::{AttributeNode, TypeExpression};

/// Lists the nodes of attributes, and of the type behind them.
fn find_typed<'a>(
    attributes: &'a [AttributeNode],
    ty: &'a TypeExpression,
    found: &mut Vec<NodeRef<'a>>,
) -> Result<(), AllocError>
    ensures { OnOk result (nodes found.new.items ≡ nodes found.old.items ++ (in_attrs (attributes_tree attributes.now) ++ in_typ (type_tree ty.now))) }
{
    find_attributes(attributes, found)?;
    find_type(ty, found)
}

/// Lists the nodes inside `alias`.
fn find_alias<'a>(x: &'a TypeAlias, found: &mut Vec<NodeRef<'a>>) -> Result<(), AllocError>
    ensures { OnOk result (nodes found.new.items ≡ nodes found.old.items ++ in_decl (alias_tree x.now)) }
{
    find_typed(&x.attributes.as_slice(), &x.ty, found)
}

/// Lists the nodes of a member.
fn find_member<'a>(x: &'a StructMember, found: &mut Vec<NodeRef<'a>>) -> Result<(), AllocError>
    ensures { OnOk result (nodes found.new.items ≡ nodes found.old.items ++ in_member (member_tree x.now)) }
{
    find_typed(&x.attributes.as_slice(), &x.ty, found)?;
    found.push(NodeRef::Member(x))?;
    Ok(())
}

/// Lists the nodes of members, one by one.
fn find_members<'a>(
    members: &'a [StructMemberNode],
    found: &mut Vec<NodeRef<'a>>,
) -> Result<(), AllocError>
    ensures { OnOk result (nodes found.new.items ≡ nodes found.old.items ++ flat_map in_member (members_tree members.now)) }
{
    for member in members {
        find_member(member.node(), found)?;
    }
    Ok(())
}

/// Lists the nodes inside a structure.
fn find_struct<'a>(x: &'a Struct, found: &mut Vec<NodeRef<'a>>) -> Result<(), AllocError>
    ensures { OnOk result (nodes found.new.items ≡ nodes found.old.items ++ in_decl (structure_tree x.now)) }
{
    find_attributes(&x.attributes.as_slice(), found)?;
    find_members(&x.members.as_slice(), found)
}

/// Lists the nodes of a parameter.
fn find_parameter<'a>(
    x: &'a FormalParameter,
    found: &mut Vec<NodeRef<'a>>,
) -> Result<(), AllocError>
    ensures { OnOk result (nodes found.new.items ≡ nodes found.old.items ++ in_param (parameter_tree x.now)) }
{
    find_typed(&x.attributes.as_slice(), &x.ty, found)?;
    found.push(NodeRef::Parameter(x))?;
    Ok(())
}

/// Lists the nodes of parameters, one by one.
fn find_parameters<'a>(
    parameters: &'a [FormalParameter],
    found: &mut Vec<NodeRef<'a>>,
) -> Result<(), AllocError>
    ensures { OnOk result (nodes found.new.items ≡ nodes found.old.items ++ flat_map in_param (map parameter_tree parameters.now)) }
{
    for parameter in parameters {
        find_parameter(parameter, found)?;
    }
    Ok(())
}

/// Lists the nodes inside a function.
fn find_function<'a>(x: &'a Function, found: &mut Vec<NodeRef<'a>>) -> Result<(), AllocError>
    ensures { OnOk result (nodes found.new.items ≡ nodes found.old.items ++ in_decl (function_tree x.now)) }
{
    find_attributes(&x.attributes.as_slice(), found)?;
    find_parameters(&x.parameters.as_slice(), found)?;
    find_attributes(&x.return_attributes.as_slice(), found)?;
    find_optional_type(&x.return_type, found)?;
    find_block(&x.body, found)
}

/// Lists the nodes inside a declaration.
fn find_declaration<'a>(
    declaration: &'a GlobalDeclaration,
    found: &mut Vec<NodeRef<'a>>,
) -> Result<(), AllocError>
    ensures { OnOk result (nodes found.new.items ≡ nodes found.old.items ++ in_optional_decl (declaration_tree declaration.now)) }
{
    match declaration {
        GlobalDeclaration::Void => Ok(()),
        GlobalDeclaration::Declaration(x) => find_value(x, found),
        GlobalDeclaration::TypeAlias(x) => find_alias(x, found),
        GlobalDeclaration::Struct(x) => find_struct(x, found),
        GlobalDeclaration::Function(x) => find_function(x, found),
        GlobalDeclaration::ConstAssert(x) => find_assertion(x, found),
    }
}

/// The attributes, expressions, types, statements, members and parameters of a declaration, in the order in which they end in its text: each
/// stands behind those inside it. A `;` is no statement, and the place `_` of an assignment is no expression.
pub fn find_nodes<'a>(
    alloc: Global,
    declaration: &'a GlobalDeclaration,
) -> Result<Vec<NodeRef<'a>>, AllocError>
    ensures { IfOk result (λ found. nodes found.items ≡ in_optional_decl (declaration_tree declaration.now)) }
{
    let mut found = Vec::new(alloc);
    find_declaration(declaration, &mut found)?;
    Ok(found)
}
