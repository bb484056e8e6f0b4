//! Lists of the parts of declarations and modules.

ghost use Rattle.std.specs.Prelude.{◌≡◌, ◌++◌, OnOk};
ghost use Rattle.std.specs.List.{flat_map};
ghost use Rattle.wesl_visit_children.specs.Parts.{in_alias, in_declaration_node, in_directive, in_function, in_import, in_member, in_member_node, in_parameter, in_struct, in_typed, parts_in_declaration, parts_in_unit};
ghost use Rattle.wesl_visit_children.specs.Listed.{parts};

use crate::find::{find_attributes, find_optional_type, find_type};
use crate::find_statements::{find_block, find_const_assert, find_declared};
use crate::part::PartRef;
use std::alloc::AllocError;
use wgsl_declarations::{
    FormalParameter, Function, GlobalDeclaration, GlobalDeclarationNode, GlobalDirective,
    ImportStatement, Struct, StructMember, StructMemberNode, TranslationUnit, TypeAlias,
};
use wgsl_expressions::{AttributeNode, TypeExpression};

/// Lists the parts of attributes and in the type behind them.
fn find_typed<'a>(
    attributes: &'a [AttributeNode],
    ty: &'a TypeExpression,
    found: &mut Vec<PartRef<'a>>,
) -> Result<(), AllocError>
    ensures { OnOk result (parts found.new.items ≡ parts found.old.items ++ (in_typed attributes.now ty.now)) }
{
    find_attributes(attributes, found)?;
    find_type(ty, found)
}

/// Lists the parts of `alias`.
fn find_alias<'a>(x: &'a TypeAlias, found: &mut Vec<PartRef<'a>>) -> Result<(), AllocError>
    ensures { OnOk result (parts found.new.items ≡ parts found.old.items ++ (in_alias x.now)) }
{
    find_typed(&x.attributes.as_slice(), &x.ty, found)
}

/// Lists the parts of a member.
fn find_member<'a>(x: &'a StructMember, found: &mut Vec<PartRef<'a>>) -> Result<(), AllocError>
    ensures { OnOk result (parts found.new.items ≡ parts found.old.items ++ (in_member x.now)) }
{
    find_typed(&x.attributes.as_slice(), &x.ty, found)
}

/// Lists the parts of members, one by one.
fn find_members<'a>(
    members: &'a [StructMemberNode],
    found: &mut Vec<PartRef<'a>>,
) -> Result<(), AllocError>
    ensures { OnOk result (parts found.new.items ≡ parts found.old.items ++ (flat_map in_member_node members.now)) }
{
    for member in members {
        find_member(member.node(), found)?;
    }
    Ok(())
}

/// Lists the parts of a structure.
fn find_struct<'a>(x: &'a Struct, found: &mut Vec<PartRef<'a>>) -> Result<(), AllocError>
    ensures { OnOk result (parts found.new.items ≡ parts found.old.items ++ (in_struct x.now)) }
{
    find_attributes(&x.attributes.as_slice(), found)?;
    find_members(&x.members.as_slice(), found)
}

/// Lists the parts of a parameter.
fn find_parameter<'a>(
    x: &'a FormalParameter,
    found: &mut Vec<PartRef<'a>>,
) -> Result<(), AllocError>
    ensures { OnOk result (parts found.new.items ≡ parts found.old.items ++ (in_parameter x.now)) }
{
    find_typed(&x.attributes.as_slice(), &x.ty, found)
}

/// Lists the parts of parameters, one by one.
fn find_parameters<'a>(
    parameters: &'a [FormalParameter],
    found: &mut Vec<PartRef<'a>>,
) -> Result<(), AllocError>
    ensures { OnOk result (parts found.new.items ≡ parts found.old.items ++ (flat_map in_parameter parameters.now)) }
{
    for parameter in parameters {
        find_parameter(parameter, found)?;
    }
    Ok(())
}

/// Lists the parts of a function.
fn find_function<'a>(x: &'a Function, found: &mut Vec<PartRef<'a>>) -> Result<(), AllocError>
    ensures { OnOk result (parts found.new.items ≡ parts found.old.items ++ (in_function x.now)) }
{
    find_attributes(&x.attributes.as_slice(), found)?;
    find_parameters(&x.parameters.as_slice(), found)?;
    find_attributes(&x.return_attributes.as_slice(), found)?;
    find_optional_type(&x.return_type, found)?;
    find_block(&x.body, found)
}

/// Lists the parts of a declaration.
pub fn find_declaration<'a>(
    declaration: &'a GlobalDeclaration,
    found: &mut Vec<PartRef<'a>>,
) -> Result<(), AllocError>
    ensures { OnOk result (parts found.new.items ≡ parts found.old.items ++ (parts_in_declaration declaration.now)) }
{
    match declaration {
        GlobalDeclaration::Void => Ok(()),
        GlobalDeclaration::Declaration(x) => find_declared(x, found),
        GlobalDeclaration::TypeAlias(x) => find_alias(x, found),
        GlobalDeclaration::Struct(x) => find_struct(x, found),
        GlobalDeclaration::Function(x) => find_function(x, found),
        GlobalDeclaration::ConstAssert(x) => find_const_assert(x, found),
    }
}

/// Lists the parts of declarations, one by one.
fn find_declarations<'a>(
    declarations: &'a [GlobalDeclarationNode],
    found: &mut Vec<PartRef<'a>>,
) -> Result<(), AllocError>
    ensures { OnOk result (parts found.new.items ≡ parts found.old.items ++ (flat_map in_declaration_node declarations.now)) }
{
    for declaration in declarations {
        find_declaration(declaration.node(), found)?;
    }
    Ok(())
}

/// Lists the parts of the attributes of an import.
fn find_import<'a>(x: &'a ImportStatement, found: &mut Vec<PartRef<'a>>) -> Result<(), AllocError>
    ensures { OnOk result (parts found.new.items ≡ parts found.old.items ++ (in_import x.now)) }
{
    find_attributes(&x.attributes.as_slice(), found)
}

/// Lists the parts of imports, one by one.
fn find_imports<'a>(
    imports: &'a [ImportStatement],
    found: &mut Vec<PartRef<'a>>,
) -> Result<(), AllocError>
    ensures { OnOk result (parts found.new.items ≡ parts found.old.items ++ (flat_map in_import imports.now)) }
{
    for import in imports {
        find_import(import, found)?;
    }
    Ok(())
}

/// Lists the parts of the attributes of a directive.
fn find_directive<'a>(
    directive: &'a GlobalDirective,
    found: &mut Vec<PartRef<'a>>,
) -> Result<(), AllocError>
    ensures { OnOk result (parts found.new.items ≡ parts found.old.items ++ (in_directive directive.now)) }
{
    match directive {
        GlobalDirective::Diagnostic(x) => find_attributes(&x.attributes.as_slice(), found),
        GlobalDirective::Enable(x) => find_attributes(&x.attributes.as_slice(), found),
        GlobalDirective::Requires(x) => find_attributes(&x.attributes.as_slice(), found),
    }
}

/// Lists the parts of directives, one by one.
fn find_directives<'a>(
    directives: &'a [GlobalDirective],
    found: &mut Vec<PartRef<'a>>,
) -> Result<(), AllocError>
    ensures { OnOk result (parts found.new.items ≡ parts found.old.items ++ (flat_map in_directive directives.now)) }
{
    for directive in directives {
        find_directive(directive, found)?;
    }
    Ok(())
}

/// Lists the parts of a module.
pub fn find_unit<'a>(
    unit: &'a TranslationUnit,
    found: &mut Vec<PartRef<'a>>,
) -> Result<(), AllocError>
    ensures { OnOk result (parts found.new.items ≡ parts found.old.items ++ (parts_in_unit unit.now)) }
{
    find_imports(&unit.imports.as_slice(), found)?;
    find_directives(&unit.global_directives.as_slice(), found)?;
    find_declarations(&unit.global_declarations.as_slice(), found)
}
