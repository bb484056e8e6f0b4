//! The marks of declarations.

ghost use Rattle.std.specs.Prelude.{◌≡◌, ◌++◌, map, OnOk};
ghost use Rattle.std.specs.List.{flat_map};
ghost use Rattle.std.specs.Option.{option_map};
ghost use Rattle.wgsl_expressions.specs.View.{type_tree};
ghost use Rattle.wgsl_expressions.specs.AttributesView.{attributes_tree};
ghost use Rattle.wgsl_declarations.specs.View.{alias_tree, declaration_tree, function_tree, members_tree, parameter_tree, structure_tree, variable_tree};
ghost use Rattle.wesl_mark.specs.Flats.{declares};
ghost use Rattle.wesl_mark.specs.Lists.{flats, OnlyGrows};
ghost use Rattle.wesl_marks.specs.Laid.{in_decl, in_member, in_param, in_signature};
ghost use Rattle.wesl_marks.specs.Units.{declaration_flats};

use crate::expressions::{mark_attributes, mark_optional, mark_optional_type, mark_type};
use crate::statements::{mark_assertion, mark_statements};
use std::alloc::AllocError;
use wesl_mark::MarkList;
use wgsl_declarations::{
    FormalParameter, Function, GlobalDeclaration, Struct, StructMemberNode, TypeAlias,
};
use wgsl_simple_statements::Declaration;

/// Marks a declaration of a value.
fn mark_variable(x: &Declaration, list: &mut MarkList) -> Result<(), AllocError>
    ensures flats { OnOk result (flats list.new ≡ flats list.old ++ in_decl (variable_tree x.now)) }
    ensures grows { OnOk result (OnlyGrows list.old list.new) }
{
    mark_attributes(x.attributes.as_slice(), list)?;
    list.declared(&x.ident)?;
    mark_optional_type(&x.ty, list)?;
    mark_optional(&x.initializer, list)
}

/// Marks `alias`.
fn mark_alias(x: &TypeAlias, list: &mut MarkList) -> Result<(), AllocError>
    ensures flats { OnOk result (flats list.new ≡ flats list.old ++ in_decl (alias_tree x.now)) }
    ensures grows { OnOk result (OnlyGrows list.old list.new) }
{
    mark_attributes(x.attributes.as_slice(), list)?;
    list.declared(&x.ident)?;
    mark_type(&x.ty, None, false, list)
}

/// Marks members, one by one.
fn mark_members(members: &[StructMemberNode], list: &mut MarkList) -> Result<(), AllocError>
    ensures flats { OnOk result (flats list.new ≡ flats list.old ++ flat_map in_member (members_tree members.now)) }
    ensures grows { OnOk result (OnlyGrows list.old list.new) }
{
    for member in members {
        let x = member.node();
        mark_attributes(x.attributes.as_slice(), list)?;
        mark_type(&x.ty, None, false, list)?;
        list.member(&x.ident)?;
    }
    Ok(())
}

/// Marks a structure.
fn mark_struct(x: &Struct, list: &mut MarkList) -> Result<(), AllocError>
    ensures flats { OnOk result (flats list.new ≡ flats list.old ++ in_decl (structure_tree x.now)) }
    ensures grows { OnOk result (OnlyGrows list.old list.new) }
{
    mark_attributes(x.attributes.as_slice(), list)?;
    list.declared(&x.ident)?;
    mark_members(x.members.as_slice(), list)
}

/// Marks the attributes and types of parameters, one by one.
fn mark_parameters(parameters: &[FormalParameter], list: &mut MarkList) -> Result<(), AllocError>
    ensures flats { OnOk result (flats list.new ≡ flats list.old ++ flat_map in_param (map parameter_tree parameters.now)) }
    ensures grows { OnOk result (OnlyGrows list.old list.new) }
{
    for x in parameters {
        mark_attributes(x.attributes.as_slice(), list)?;
        mark_type(&x.ty, None, false, list)?;
    }
    Ok(())
}

/// Marks the names of parameters, one by one.
fn mark_locals(parameters: &[FormalParameter], list: &mut MarkList) -> Result<(), AllocError>
    ensures flats { OnOk result (flats list.new ≡ flats list.old ++ map (λ p. declares p.name) (map parameter_tree parameters.now)) }
    ensures grows { OnOk result (OnlyGrows list.old list.new) }
{
    for x in parameters {
        list.local(&x.ident)?;
    }
    Ok(())
}

/// Marks what stands in front of the body of a function.
#[tactic(auto, unfolding(crate::specs::Laid::in_signature))]
fn mark_signature(x: &Function, list: &mut MarkList) -> Result<(), AllocError>
    ensures flats { OnOk result (flats list.new ≡ flats list.old ++ in_signature (attributes_tree x.now.attributes) (map parameter_tree x.now.parameters) (attributes_tree x.now.return_attributes) (option_map type_tree x.now.return_type)) }
    ensures grows { OnOk result (OnlyGrows list.old list.new) }
{
    mark_attributes(x.attributes.as_slice(), list)?;
    list.declared(&x.ident)?;
    mark_parameters(x.parameters.as_slice(), list)?;
    mark_attributes(x.return_attributes.as_slice(), list)?;
    mark_optional_type(&x.return_type, list)
}

/// Marks a function.
fn mark_function(x: &Function, list: &mut MarkList) -> Result<(), AllocError>
    ensures flats { OnOk result (flats list.new ≡ flats list.old ++ in_decl (function_tree x.now)) }
    ensures grows { OnOk result (OnlyGrows list.old list.new) }
{
    mark_signature(x, list)?;
    mark_attributes(x.body.attributes.as_slice(), list)?;
    list.enter()?;
    mark_locals(x.parameters.as_slice(), list)?;
    mark_statements(x.body.statements.as_slice(), list)?;
    list.leave()
}

/// Marks a declaration. A `;` has no marks.
#[tactic(auto, using(crate::proofs::Spots::laid_declaration))]
pub fn mark_declaration(
    declaration: &GlobalDeclaration,
    list: &mut MarkList,
) -> Result<(), AllocError>
    ensures flats { OnOk result (flats list.new ≡ flats list.old ++ declaration_flats (declaration_tree declaration.now)) }
    ensures grows { OnOk result (OnlyGrows list.old list.new) }
{
    match declaration {
        GlobalDeclaration::Void => Ok(()),
        GlobalDeclaration::Declaration(x) => mark_variable(x, list),
        GlobalDeclaration::TypeAlias(x) => mark_alias(x, list),
        GlobalDeclaration::Struct(x) => mark_struct(x, list),
        GlobalDeclaration::Function(x) => mark_function(x, list),
        GlobalDeclaration::ConstAssert(x) => mark_assertion(x, list),
    }
}
