//! The first error of the conditions of a module.

ghost use Rattle.std.specs.Prelude.{◌≡◌, map};
ghost use Rattle.std.specs.Option.{option_or};
ghost use Rattle.wgsl_declarations.specs.View.{declaration_tree, members_tree, parameter_tree, unit_tree};
ghost use Rattle.wgsl_statements.specs.View.{block_tree};
ghost use Rattle.wesl_conditions.specs.Trees.{of_members, of_parameters};
ghost use Rattle.wesl_conditions.specs.Faults.{flat_fault, block_fault, unit_fault};
ghost use Rattle.wesl_conditions.specs.Told.{TellsFault};
ghost use Rattle.wesl_cond.specs.Declarations.{inside_declaration};

use crate::list::check_list;
use crate::statements::check_block;
use std::alloc::Global;
use wesl_conditions::{CondCompError, Features};
use wgsl_declarations::{Function, GlobalDeclaration, Struct, TranslationUnit};

/// The first error inside a declaration.
pub(crate) fn check_declaration(
    alloc: Global,
    declaration: &GlobalDeclaration,
    features: &Features,
) -> Result<(), CondCompError>
    ensures { TellsFault (inside_declaration features.now (declaration_tree declaration.now)) result }
{
    match declaration {
        GlobalDeclaration::Struct(x) => check_struct(alloc, x, features),
        GlobalDeclaration::Function(x) => check_function(alloc, x, features),
        GlobalDeclaration::Void => Ok(()),
        GlobalDeclaration::Declaration(_) => Ok(()),
        GlobalDeclaration::TypeAlias(_) => Ok(()),
        GlobalDeclaration::ConstAssert(_) => Ok(()),
    }
}

#[tactic(auto, using(crate::proofs::Flat::members))]
fn check_struct(alloc: Global, x: &Struct, features: &Features) -> Result<(), CondCompError>
    ensures { TellsFault (flat_fault of_members features.now (members_tree x.now.members)) result }
{
    check_list(alloc, x.members.as_slice(), features)
}

#[tactic(auto, using(crate::proofs::Flat::parameters))]
fn check_function(alloc: Global, x: &Function, features: &Features) -> Result<(), CondCompError>
    ensures { TellsFault (option_or (flat_fault of_parameters features.now (map parameter_tree x.now.parameters)) (block_fault features.now (block_tree x.now.body))) result }
{
    check_list(alloc, x.parameters.as_slice(), features)?;
    check_block(alloc, &x.body, features)
}

/// The first error of a module: imports, directives, declarations.
#[tactic(auto, using(crate::proofs::Flat::imports, crate::proofs::Flat::directives))]
pub(crate) fn check_unit(
    alloc: Global,
    unit: &TranslationUnit,
    features: &Features,
) -> Result<(), CondCompError>
    ensures { TellsFault (unit_fault features.now (unit_tree unit.now)) result }
{
    check_list(alloc, unit.imports.as_slice(), features)?;
    check_list(alloc, unit.global_directives.as_slice(), features)?;
    check_list(alloc, unit.global_declarations.as_slice(), features)
}
