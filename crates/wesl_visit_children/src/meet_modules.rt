//! What is done at the parts of declarations and modules.

ghost use Rattle.std.specs.List.{flat_map};
ghost use Rattle.wesl_visit_children.specs.Turns.{CalledInTurn};
ghost use Rattle.wesl_visit_children.specs.Parts.{in_alias, in_declaration_node, in_directive, in_function, in_import, in_member, in_member_node, in_parameter, in_struct, in_typed, parts_in_declaration, parts_in_unit};

use crate::meet::{meet_attributes, meet_optional_type, meet_type};
use crate::meet_statements::{meet_block, meet_const_assert, meet_declared};
use crate::read_parts::ReadParts;
use wgsl_declarations::{
    FormalParameter, Function, GlobalDeclaration, GlobalDeclarationNode, GlobalDirective,
    ImportStatement, Struct, StructMember, StructMemberNode, TranslationUnit, TypeAlias,
};
use wgsl_expressions::{AttributeNode, TypeExpression};

/// Meets the parts of attributes and in the type behind them.
fn meet_typed<W: ReadParts>(
    attributes: &[AttributeNode],
    ty: &TypeExpression,
    w: &mut W,
) -> Result<(), W::Refusal>
    requires { W.ready w.old }
    ensures met { CalledInTurn W.at w.old (in_typed attributes.now ty.now) result w.new }
    ensures ready { W.ready w.new }
{
    meet_attributes(attributes, w)?;
    meet_type(ty, w)
}

/// Meets the parts of `alias`.
fn meet_alias<W: ReadParts>(x: &TypeAlias, w: &mut W) -> Result<(), W::Refusal>
    requires { W.ready w.old }
    ensures met { CalledInTurn W.at w.old (in_alias x.now) result w.new }
    ensures ready { W.ready w.new }
{
    meet_typed(&x.attributes.as_slice(), &x.ty, w)
}

/// Meets the parts of a member.
fn meet_member<W: ReadParts>(x: &StructMember, w: &mut W) -> Result<(), W::Refusal>
    requires { W.ready w.old }
    ensures met { CalledInTurn W.at w.old (in_member x.now) result w.new }
    ensures ready { W.ready w.new }
{
    meet_typed(&x.attributes.as_slice(), &x.ty, w)
}

/// Meets the parts of members, one by one.
fn meet_members<W: ReadParts>(members: &[StructMemberNode], w: &mut W) -> Result<(), W::Refusal>
    requires { W.ready w.old }
    ensures met { CalledInTurn W.at w.old (flat_map in_member_node members.now) result w.new }
    ensures ready { W.ready w.new }
{
    for member in members {
        meet_member(member.node(), w)?;
    }
    Ok(())
}

/// Meets the parts of a structure.
fn meet_struct<W: ReadParts>(x: &Struct, w: &mut W) -> Result<(), W::Refusal>
    requires { W.ready w.old }
    ensures met { CalledInTurn W.at w.old (in_struct x.now) result w.new }
    ensures ready { W.ready w.new }
{
    meet_attributes(&x.attributes.as_slice(), w)?;
    meet_members(&x.members.as_slice(), w)
}

/// Meets the parts of a parameter.
fn meet_parameter<W: ReadParts>(x: &FormalParameter, w: &mut W) -> Result<(), W::Refusal>
    requires { W.ready w.old }
    ensures met { CalledInTurn W.at w.old (in_parameter x.now) result w.new }
    ensures ready { W.ready w.new }
{
    meet_typed(&x.attributes.as_slice(), &x.ty, w)
}

/// Meets the parts of parameters, one by one.
fn meet_parameters<W: ReadParts>(
    parameters: &[FormalParameter],
    w: &mut W,
) -> Result<(), W::Refusal>
    requires { W.ready w.old }
    ensures met { CalledInTurn W.at w.old (flat_map in_parameter parameters.now) result w.new }
    ensures ready { W.ready w.new }
{
    for parameter in parameters {
        meet_parameter(parameter, w)?;
    }
    Ok(())
}

/// Meets the parts of a function.
fn meet_function<W: ReadParts>(x: &Function, w: &mut W) -> Result<(), W::Refusal>
    requires { W.ready w.old }
    ensures met { CalledInTurn W.at w.old (in_function x.now) result w.new }
    ensures ready { W.ready w.new }
{
    meet_attributes(&x.attributes.as_slice(), w)?;
    meet_parameters(&x.parameters.as_slice(), w)?;
    meet_attributes(&x.return_attributes.as_slice(), w)?;
    meet_optional_type(&x.return_type, w)?;
    meet_block(&x.body, w)
}

/// Meets the parts of a declaration.
pub fn meet_declaration<W: ReadParts>(
    declaration: &GlobalDeclaration,
    w: &mut W,
) -> Result<(), W::Refusal>
    requires { W.ready w.old }
    ensures met { CalledInTurn W.at w.old (parts_in_declaration declaration.now) result w.new }
    ensures ready { W.ready w.new }
{
    match declaration {
        GlobalDeclaration::Void => Ok(()),
        GlobalDeclaration::Declaration(x) => meet_declared(x, w),
        GlobalDeclaration::TypeAlias(x) => meet_alias(x, w),
        GlobalDeclaration::Struct(x) => meet_struct(x, w),
        GlobalDeclaration::Function(x) => meet_function(x, w),
        GlobalDeclaration::ConstAssert(x) => meet_const_assert(x, w),
    }
}

/// Meets the parts of declarations, one by one.
fn meet_declarations<W: ReadParts>(
    declarations: &[GlobalDeclarationNode],
    w: &mut W,
) -> Result<(), W::Refusal>
    requires { W.ready w.old }
    ensures met { CalledInTurn W.at w.old (flat_map in_declaration_node declarations.now) result w.new }
    ensures ready { W.ready w.new }
{
    for declaration in declarations {
        meet_declaration(declaration.node(), w)?;
    }
    Ok(())
}

/// Meets the parts of the attributes of an import.
fn meet_import<W: ReadParts>(x: &ImportStatement, w: &mut W) -> Result<(), W::Refusal>
    requires { W.ready w.old }
    ensures met { CalledInTurn W.at w.old (in_import x.now) result w.new }
    ensures ready { W.ready w.new }
{
    meet_attributes(&x.attributes.as_slice(), w)
}

/// Meets the parts of imports, one by one.
fn meet_imports<W: ReadParts>(imports: &[ImportStatement], w: &mut W) -> Result<(), W::Refusal>
    requires { W.ready w.old }
    ensures met { CalledInTurn W.at w.old (flat_map in_import imports.now) result w.new }
    ensures ready { W.ready w.new }
{
    for import in imports {
        meet_import(import, w)?;
    }
    Ok(())
}

/// Meets the parts of the attributes of a directive.
fn meet_directive<W: ReadParts>(directive: &GlobalDirective, w: &mut W) -> Result<(), W::Refusal>
    requires { W.ready w.old }
    ensures met { CalledInTurn W.at w.old (in_directive directive.now) result w.new }
    ensures ready { W.ready w.new }
{
    match directive {
        GlobalDirective::Diagnostic(x) => meet_attributes(&x.attributes.as_slice(), w),
        GlobalDirective::Enable(x) => meet_attributes(&x.attributes.as_slice(), w),
        GlobalDirective::Requires(x) => meet_attributes(&x.attributes.as_slice(), w),
    }
}

/// Meets the parts of directives, one by one.
fn meet_directives<W: ReadParts>(
    directives: &[GlobalDirective],
    w: &mut W,
) -> Result<(), W::Refusal>
    requires { W.ready w.old }
    ensures met { CalledInTurn W.at w.old (flat_map in_directive directives.now) result w.new }
    ensures ready { W.ready w.new }
{
    for directive in directives {
        meet_directive(directive, w)?;
    }
    Ok(())
}

/// Meets the parts of a module.
pub fn meet_unit<W: ReadParts>(unit: &TranslationUnit, w: &mut W) -> Result<(), W::Refusal>
    requires { W.ready w.old }
    ensures met { CalledInTurn W.at w.old (parts_in_unit unit.now) result w.new }
    ensures ready { W.ready w.new }
{
    meet_imports(&unit.imports.as_slice(), w)?;
    meet_directives(&unit.global_directives.as_slice(), w)?;
    meet_declarations(&unit.global_declarations.as_slice(), w)
}
