//! What is done at the parts of declarations and modules, which it may change.

ghost use Rattle.std.specs.Prelude.{◌≡◌, map};
ghost use Rattle.std.specs.List.{flat_map};
ghost use Rattle.wesl_visit_children.specs.Turns.{ChangedInTurn};
ghost use Rattle.wesl_visit_children.specs.Parts.{in_alias, in_declaration_node, in_diagnostic, in_directive, in_enable, in_function, in_import, in_member, in_member_node, in_parameter, in_requires, in_struct, in_typed, parts_in_declaration, parts_in_unit};
ghost use Rattle.wesl_visit_children.specs.Rest.{around_alias, around_attributes, around_declaration_node, around_diagnostic, around_directive, around_enable, around_function, around_import, around_member, around_member_node, around_parameter, around_parts_in_declaration, around_parts_in_unit, around_requires, around_struct};

use crate::parts::{change_attributes, change_optional_type, change_type};
use crate::statements::{change_block, change_const_assert, change_declared};
use crate::write_parts::WriteParts;
use wgsl_base::Items;
use wgsl_declarations::{
    DiagnosticDirective, EnableDirective, FormalParameter, Function, GlobalDeclaration,
    GlobalDeclarationNode, GlobalDirective, ImportStatement, RequiresDirective, Struct,
    StructMember, StructMemberNode, TranslationUnit, TypeAlias,
};
use wgsl_expressions::{AttributeNode, TypeExpression};

/// Meets the parts of attributes and in the type behind them.
fn change_typed<W: WriteParts>(
    attributes: &mut Items<AttributeNode>,
    ty: &mut TypeExpression,
    w: &mut W,
) -> Result<(), W::Refusal>
    requires { W.ready w.old }
    ensures changed { ChangedInTurn W.at w.old (in_typed attributes.old ty.old) result w.new (in_typed attributes.new ty.new) }
    ensures rest { around_attributes W.rest attributes.new ≡ around_attributes W.rest attributes.old }
    ensures rest_ty { W.rest.ty ty.new ≡ W.rest.ty ty.old }
    ensures ready { W.ready w.new }
{
    change_attributes(attributes, w)?;
    change_type(ty, w)
}

/// Meets the parts of `alias`.
fn change_alias<W: WriteParts>(x: &mut TypeAlias, w: &mut W) -> Result<(), W::Refusal>
    requires { W.ready w.old }
    ensures changed { ChangedInTurn W.at w.old (in_alias x.old) result w.new (in_alias x.new) }
    ensures rest { around_alias W.rest x.new ≡ around_alias W.rest x.old }
    ensures ready { W.ready w.new }
{
    change_typed(&mut x.attributes, &mut x.ty, w)
}

/// Meets the parts of a member.
fn change_member<W: WriteParts>(x: &mut StructMember, w: &mut W) -> Result<(), W::Refusal>
    requires { W.ready w.old }
    ensures changed { ChangedInTurn W.at w.old (in_member x.old) result w.new (in_member x.new) }
    ensures rest { around_member W.rest x.new ≡ around_member W.rest x.old }
    ensures ready { W.ready w.new }
{
    change_typed(&mut x.attributes, &mut x.ty, w)
}

/// Meets the parts of members, one by one.
fn change_members<W: WriteParts>(
    members: &mut Items<StructMemberNode>,
    w: &mut W,
) -> Result<(), W::Refusal>
    requires { W.ready w.old }
    ensures changed { ChangedInTurn W.at w.old (flat_map in_member_node members.old) result w.new (flat_map in_member_node members.new) }
    ensures rest { map (around_member_node W.rest) members.new ≡ map (around_member_node W.rest) members.old }
    ensures ready { W.ready w.new }
{
    for i in 0..members.len() {
        change_member(members.get_mut(i).node_mut(), w)?;
    }
    Ok(())
}

/// Meets the parts of a structure.
fn change_struct<W: WriteParts>(x: &mut Struct, w: &mut W) -> Result<(), W::Refusal>
    requires { W.ready w.old }
    ensures changed { ChangedInTurn W.at w.old (in_struct x.old) result w.new (in_struct x.new) }
    ensures rest { around_struct W.rest x.new ≡ around_struct W.rest x.old }
    ensures ready { W.ready w.new }
{
    change_attributes(&mut x.attributes, w)?;
    change_members(&mut x.members, w)
}

/// Meets the parts of a parameter.
fn change_parameter<W: WriteParts>(x: &mut FormalParameter, w: &mut W) -> Result<(), W::Refusal>
    requires { W.ready w.old }
    ensures changed { ChangedInTurn W.at w.old (in_parameter x.old) result w.new (in_parameter x.new) }
    ensures rest { around_parameter W.rest x.new ≡ around_parameter W.rest x.old }
    ensures ready { W.ready w.new }
{
    change_typed(&mut x.attributes, &mut x.ty, w)
}

/// Meets the parts of parameters, one by one.
fn change_parameters<W: WriteParts>(
    parameters: &mut Items<FormalParameter>,
    w: &mut W,
) -> Result<(), W::Refusal>
    requires { W.ready w.old }
    ensures changed { ChangedInTurn W.at w.old (flat_map in_parameter parameters.old) result w.new (flat_map in_parameter parameters.new) }
    ensures rest { map (around_parameter W.rest) parameters.new ≡ map (around_parameter W.rest) parameters.old }
    ensures ready { W.ready w.new }
{
    for i in 0..parameters.len() {
        change_parameter(parameters.get_mut(i), w)?;
    }
    Ok(())
}

/// Meets the parts of a function.
fn change_function<W: WriteParts>(x: &mut Function, w: &mut W) -> Result<(), W::Refusal>
    requires { W.ready w.old }
    ensures changed { ChangedInTurn W.at w.old (in_function x.old) result w.new (in_function x.new) }
    ensures rest { around_function W.rest x.new ≡ around_function W.rest x.old }
    ensures ready { W.ready w.new }
{
    change_attributes(&mut x.attributes, w)?;
    change_parameters(&mut x.parameters, w)?;
    change_attributes(&mut x.return_attributes, w)?;
    change_optional_type(&mut x.return_type, w)?;
    change_block(&mut x.body, w)
}

/// Meets the parts of a declaration.
pub fn change_declaration<W: WriteParts>(
    declaration: &mut GlobalDeclaration,
    w: &mut W,
) -> Result<(), W::Refusal>
    requires { W.ready w.old }
    ensures changed { ChangedInTurn W.at w.old (parts_in_declaration declaration.old) result w.new (parts_in_declaration declaration.new) }
    ensures rest { around_parts_in_declaration W.rest declaration.new ≡ around_parts_in_declaration W.rest declaration.old }
    ensures ready { W.ready w.new }
{
    match declaration {
        GlobalDeclaration::Void => Ok(()),
        GlobalDeclaration::Declaration(x) => change_declared(x, w),
        GlobalDeclaration::TypeAlias(x) => change_alias(x, w),
        GlobalDeclaration::Struct(x) => change_struct(x, w),
        GlobalDeclaration::Function(x) => change_function(x, w),
        GlobalDeclaration::ConstAssert(x) => change_const_assert(x, w),
    }
}

/// Meets the parts of declarations, one by one.
fn change_declarations<W: WriteParts>(
    declarations: &mut Items<GlobalDeclarationNode>,
    w: &mut W,
) -> Result<(), W::Refusal>
    requires { W.ready w.old }
    ensures changed { ChangedInTurn W.at w.old (flat_map in_declaration_node declarations.old) result w.new (flat_map in_declaration_node declarations.new) }
    ensures rest { map (around_declaration_node W.rest) declarations.new ≡ map (around_declaration_node W.rest) declarations.old }
    ensures ready { W.ready w.new }
{
    for i in 0..declarations.len() {
        change_declaration(declarations.get_mut(i).node_mut(), w)?;
    }
    Ok(())
}

/// Meets the parts of the attributes of an import.
fn change_import<W: WriteParts>(x: &mut ImportStatement, w: &mut W) -> Result<(), W::Refusal>
    requires { W.ready w.old }
    ensures changed { ChangedInTurn W.at w.old (in_import x.old) result w.new (in_import x.new) }
    ensures rest { around_import W.rest x.new ≡ around_import W.rest x.old }
    ensures ready { W.ready w.new }
{
    change_attributes(&mut x.attributes, w)
}

/// Meets the parts of imports, one by one.
fn change_imports<W: WriteParts>(
    imports: &mut Items<ImportStatement>,
    w: &mut W,
) -> Result<(), W::Refusal>
    requires { W.ready w.old }
    ensures changed { ChangedInTurn W.at w.old (flat_map in_import imports.old) result w.new (flat_map in_import imports.new) }
    ensures rest { map (around_import W.rest) imports.new ≡ map (around_import W.rest) imports.old }
    ensures ready { W.ready w.new }
{
    for i in 0..imports.len() {
        change_import(imports.get_mut(i), w)?;
    }
    Ok(())
}

/// Meets the parts of the attributes of `diagnostic`.
fn change_diagnostic<W: WriteParts>(
    x: &mut DiagnosticDirective,
    w: &mut W,
) -> Result<(), W::Refusal>
    requires { W.ready w.old }
    ensures changed { ChangedInTurn W.at w.old (in_diagnostic x.old) result w.new (in_diagnostic x.new) }
    ensures rest { around_diagnostic W.rest x.new ≡ around_diagnostic W.rest x.old }
    ensures ready { W.ready w.new }
{
    change_attributes(&mut x.attributes, w)
}

/// Meets the parts of the attributes of `enable`.
fn change_enable<W: WriteParts>(x: &mut EnableDirective, w: &mut W) -> Result<(), W::Refusal>
    requires { W.ready w.old }
    ensures changed { ChangedInTurn W.at w.old (in_enable x.old) result w.new (in_enable x.new) }
    ensures rest { around_enable W.rest x.new ≡ around_enable W.rest x.old }
    ensures ready { W.ready w.new }
{
    change_attributes(&mut x.attributes, w)
}

/// Meets the parts of the attributes of `requires`.
fn change_requires<W: WriteParts>(x: &mut RequiresDirective, w: &mut W) -> Result<(), W::Refusal>
    requires { W.ready w.old }
    ensures changed { ChangedInTurn W.at w.old (in_requires x.old) result w.new (in_requires x.new) }
    ensures rest { around_requires W.rest x.new ≡ around_requires W.rest x.old }
    ensures ready { W.ready w.new }
{
    change_attributes(&mut x.attributes, w)
}

/// Meets the parts of the attributes of a directive.
fn change_directive<W: WriteParts>(
    directive: &mut GlobalDirective,
    w: &mut W,
) -> Result<(), W::Refusal>
    requires { W.ready w.old }
    ensures changed { ChangedInTurn W.at w.old (in_directive directive.old) result w.new (in_directive directive.new) }
    ensures rest { around_directive W.rest directive.new ≡ around_directive W.rest directive.old }
    ensures ready { W.ready w.new }
{
    match directive {
        GlobalDirective::Diagnostic(x) => change_diagnostic(x, w),
        GlobalDirective::Enable(x) => change_enable(x, w),
        GlobalDirective::Requires(x) => change_requires(x, w),
    }
}

/// Meets the parts of directives, one by one.
fn change_directives<W: WriteParts>(
    directives: &mut Items<GlobalDirective>,
    w: &mut W,
) -> Result<(), W::Refusal>
    requires { W.ready w.old }
    ensures changed { ChangedInTurn W.at w.old (flat_map in_directive directives.old) result w.new (flat_map in_directive directives.new) }
    ensures rest { map (around_directive W.rest) directives.new ≡ map (around_directive W.rest) directives.old }
    ensures ready { W.ready w.new }
{
    for i in 0..directives.len() {
        change_directive(directives.get_mut(i), w)?;
    }
    Ok(())
}

/// Meets the parts of a module.
pub fn change_unit<W: WriteParts>(unit: &mut TranslationUnit, w: &mut W) -> Result<(), W::Refusal>
    requires { W.ready w.old }
    ensures changed { ChangedInTurn W.at w.old (parts_in_unit unit.old) result w.new (parts_in_unit unit.new) }
    ensures rest { around_parts_in_unit W.rest unit.new ≡ around_parts_in_unit W.rest unit.old }
    ensures ready { W.ready w.new }
{
    change_imports(&mut unit.imports, w)?;
    change_directives(&mut unit.global_directives, w)?;
    change_declarations(&mut unit.global_declarations, w)
}
