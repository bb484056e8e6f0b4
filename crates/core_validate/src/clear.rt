//! Names that the printed unit would blur.

ghost use Rattle.std.specs.Prelude.{◌≡◌, IfOk, is_some, filter};
ghost use Rattle.std.specs.List.{flat_map};
ghost use Rattle.std.specs.Option.{option_copied};
ghost use Rattle.core_syntax.specs.View.{declaration_tree, unit_tree};
ghost use Rattle.core_validate.specs.First.{first};
ghost use Rattle.core_validate.specs.Scopes.{Name, parameters_of};
ghost use Rattle.core_validate.specs.Lookups.{lookup, local_names, texts, trees, declared};
ghost use Rattle.core_validate.specs.Clearness.{is_repeated_by, is_declared_by, unclear_by, unclear_from, unclear};

use crate::index::first_positions;
use crate::place::Index;
use core_syntax::{FormalParameter, GlobalDeclaration, GlobalDeclarationNode, TranslationUnit};
use std::alloc::{AllocError, Global};
use wgsl_base::Text;
use wgsl_words::is_known;

fn is_repeated(index: &Index<'_>, names: &[&str], position: usize, name: &str) -> bool
    ensures { result ≡ is_repeated_by (lookup index.now) (texts names.now) position name.now }
{
    if is_known(name, names) {
        return true;
    }
    match index.get(name) {
        Some(first) => *first < position,
        None => false,
    }
}

fn is_declared(index: &Index<'_>, names: &[&str], name: &str) -> bool
    ensures { result ≡ is_declared_by (lookup index.now) (texts names.now) name.now }
{
    is_known(name, names) || index.contains_key(name)
}

fn unclear_parameter<'a>(
    index: &Index<'_>,
    names: &[&str],
    parameters: &'a [FormalParameter],
) -> Option<&'a str>
    ensures { option_copied result ≡ first (filter (is_declared_by (lookup index.now) (texts names.now)) (local_names parameters.now)) }
{
    for parameter in parameters {
        let name = parameter.ident.as_str();
        if is_declared(index, names, name) {
            return Some(name);
        }
    }
    None
}

fn unclear_local<'a>(
    index: &Index<'_>,
    names: &[&str],
    declaration: &'a GlobalDeclaration,
) -> Option<&'a str>
    ensures { option_copied result ≡ first (filter (is_declared_by (lookup index.now) (texts names.now)) (parameters_of (declaration_tree declaration.now))) }
{
    match declaration {
        GlobalDeclaration::Declaration(_) => None,
        GlobalDeclaration::Function(x) => unclear_parameter(index, names, x.parameters.as_slice()),
    }
}

fn unclear_inside<'a>(
    index: &Index<'_>,
    names: &[&str],
    position: usize,
    declaration: &'a GlobalDeclaration,
) -> Option<&'a str>
    ensures { option_copied result ≡ first (unclear_by (lookup index.now) (texts names.now) position (declaration_tree declaration.now)) }
{
    let name = declaration.declared_name();
    if is_repeated(index, names, position, name) {
        return Some(name);
    }
    unclear_local(index, names, declaration)
}

fn first_unclear<'a>(
    index: &Index<'_>,
    names: &[&str],
    declarations: &'a [GlobalDeclarationNode],
) -> Option<&'a str>
    ensures { option_copied result ≡ first (unclear_from (lookup index.now) (texts names.now) 0 (trees declarations.now)) }
{
    for (position, declaration) in declarations.iter().enumerate() {
        let found = unclear_inside(index, names, position, declaration.node());
        if found.is_some() {
            return found;
        }
    }
    None
}

/// The first name, in text order, of a declaration or a parameter that the printed unit would blur: of a declaration, where
/// an earlier one has it or the table of WGSL's names; of a parameter, where a declaration has it or the table.
pub fn unclear_name(
    alloc: Global,
    unit: &TranslationUnit,
    names: &[&str],
) -> Result<Option<Text>, AllocError>
    ensures { IfOk result (λ found. found ≡ first (unclear (unit_tree unit.now) (texts names.now))) }
{
    let declarations = unit.global_declarations.as_slice();
    let index = first_positions(alloc, declarations)?;
    match first_unclear(&index, names, declarations) {
        None => Ok(None),
        Some(name) => Ok(Some(Text::from_str(alloc, name)?)),
    }
}
