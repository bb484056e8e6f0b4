//! Where names are declared, and parameters of one name.

ghost use Rattle.std.specs.Prelude.{◌≡◌, [], position, IfOk};
ghost use Rattle.std.specs.List.{flat_map};
ghost use Rattle.std.specs.Str.{bytes_eq};
ghost use Rattle.core_syntax.specs.View.{declaration_tree};
ghost use Rattle.core_syntax.specs.Names.{declared_name};
ghost use Rattle.core_validate.specs.Scopes.{Name, parameters_of};
ghost use Rattle.core_validate.specs.Lookups.{lookup, local_names, trees, declared};
ghost use Rattle.core_validate.specs.Faults.{again, repeats, duplicates_in, Finds};

use crate::error::{ValidateError, ValidateFault, refused};
use crate::place::{Index, is_local};
use core_syntax::{FormalParameter, GlobalDeclaration, GlobalDeclarationNode};
use std::alloc::{AllocError, Global};
use std::collections::HashMap;
use wgsl_base::OrOutOfMemory;

/// The position of the first declaration of each name.
pub fn first_positions<'a>(
    alloc: Global,
    declarations: &'a [GlobalDeclarationNode],
) -> Result<Index<'a>, AllocError>
    ensures { IfOk result (λ index. (x : Name) → lookup index x ≡ position (bytes_eq x) (declared declarations.now)) }
{
    let mut index = HashMap::new(alloc);
    for (position, declaration) in declarations.iter().enumerate() {
        let name = declaration.node().declared_name();
        if index.contains_key(name) {
            continue;
        }
        index.insert(name, position)?;
    }
    Ok(index)
}

fn check_parameters(
    alloc: Global,
    holder: &str,
    parameters: &[FormalParameter],
) -> Result<(), OrOutOfMemory<ValidateFault>>
    ensures { Finds (repeats holder.now [] (local_names parameters.now)) result }
{
    for (at, parameter) in parameters.iter().enumerate() {
        let name = parameter.ident.as_str();
        if is_local(name, &parameters[..at]) {
            return Err(refused(alloc, ValidateError::Duplicate, holder, name));
        }
    }
    Ok(())
}

fn check_inside(
    alloc: Global,
    declaration: &GlobalDeclaration,
) -> Result<(), OrOutOfMemory<ValidateFault>>
    ensures { Finds (duplicates_in (declaration_tree declaration.now)) result }
{
    match declaration {
        GlobalDeclaration::Declaration(_) => Ok(()),
        GlobalDeclaration::Function(x) => check_parameters(
            alloc,
            x.ident.as_str(),
            x.parameters.as_slice(),
        ),
    }
}

/// Refuses the first parameter whose name an earlier parameter of its function has.
pub fn check_duplicates(
    alloc: Global,
    declarations: &[GlobalDeclarationNode],
) -> Result<(), OrOutOfMemory<ValidateFault>>
    ensures { Finds (flat_map duplicates_in (trees declarations.now)) result }
{
    for declaration in declarations {
        check_inside(alloc, declaration.node())?;
    }
    Ok(())
}
