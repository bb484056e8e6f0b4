//! What is told of a module that no text derives.

ghost use Rattle.std.specs.Prelude.{◌≡◌, IfOk};
ghost use Rattle.std.specs.Option.{option_copied, option_and_then};
ghost use Rattle.wgsl_declarations.specs.View.{declaration_tree, declarations_tree, unit_tree};
ghost use Rattle.wgsl_check_unit.specs.Names.{decl_name};
ghost use Rattle.wgsl_check_unit.specs.Telling.{IsTold, IsToldIn, IsToldOf};

use crate::named::named;
use std::alloc::Global;
use wgsl_base::Text;
use wgsl_declarations::{GlobalDeclaration, GlobalDeclarationNode, TranslationUnit};
use wgsl_read_back::{find_directive_nodes, find_nodes, is_declaration_derivable};
use wgsl_token::fault::Refusal;

/// The name of a declaration.
fn name(declaration: &GlobalDeclaration) -> Option<&str>
    ensures { option_copied result ≡ option_and_then decl_name (declaration_tree declaration.now) }
{
    match declaration {
        GlobalDeclaration::Void => None,
        GlobalDeclaration::Declaration(x) => Some(x.ident.as_str()),
        GlobalDeclaration::TypeAlias(x) => Some(x.ident.as_str()),
        GlobalDeclaration::Struct(x) => Some(x.ident.as_str()),
        GlobalDeclaration::Function(x) => Some(x.ident.as_str()),
        GlobalDeclaration::ConstAssert(_) => None,
    }
}

/// The name of the first node of a declaration that no text derives, else the declaration's.
fn told_in(alloc: Global, declaration: &GlobalDeclaration) -> Result<Option<Text>, Refusal>
    ensures { IfOk result (IsToldIn (declaration_tree declaration.now)) }
{
    let nodes = find_nodes(alloc, declaration)?;
    let name = name(declaration);
    named(alloc, nodes.as_slice(), name, name)
}

/// The name of the first node that no text derives, in the first declaration that no text derives.
fn told(alloc: Global, declarations: &[GlobalDeclarationNode]) -> Result<Option<Text>, Refusal>
    ensures { IfOk result (λ name. IsTold (declarations_tree declarations.now) name) }
{
    for declaration in declarations {
        if !is_declaration_derivable(alloc, declaration.node())? {
            return told_in(alloc, declaration.node());
        }
    }
    Ok(None)
}

/// A name, lent.
fn lent(name: &Option<Text>) -> Option<&str>
    ensures { option_copied result ≡ name.now }
{
    match name {
        Some(name) => Some(name.as_str()),
        None => None,
    }
}

/// The name of the first node that no text derives: in the attributes of directives, else in the first declaration that no text derives.
pub(crate) fn told_of(alloc: Global, unit: &TranslationUnit) -> Result<Option<Text>, Refusal>
    ensures { IfOk result (IsToldOf (unit_tree unit.now)) }
{
    let rest = told(alloc, unit.global_declarations.as_slice())?;
    let nodes = find_directive_nodes(alloc, unit.global_directives.as_slice())?;
    named(alloc, nodes.as_slice(), None, lent(&rest))
}
