//! The table of a module's names.

ghost use Rattle.std.specs.Prelude.{◌≡◌, Some, IfOk, OnOk, if◌then◌else◌};
ghost use Rattle.std.specs.HashMap.{get_by_text};
ghost use Rattle.std.specs.Str.{bytes_eq};
ghost use Rattle.core_link_spec.specs.Occurrences.{Name};
ghost use Rattle.core_syntax.specs.View.{unit_tree, import_tree};
ghost use Rattle.core_link_spec.specs.Modules as spec;
ghost use Rattle.core_scopes.specs.Meanings.{Adds, Tabulates, known_of, import_known};

use crate::error::ImportError;
use crate::target::{Meaning, Target};
use core_syntax::{ImportContent, ImportStatement, TranslationUnit};
use std::alloc::{AllocError, Global};
use std::collections::HashMap;
use wgsl_base::{CloneIn, Text};
use wgsl_path::ModulePath;

/// What each name of a module means. It is refused where a name is declared or imported twice.
pub fn meanings_of(
    alloc: Global,
    path: &ModulePath,
    unit: &TranslationUnit,
) -> Result<HashMap<String, Meaning>, ImportError>
    ensures { Tabulates path.now (unit_tree unit.now) result }
{
    let mut meanings = HashMap::new(alloc);
    for import in unit.imports.as_slice() {
        let meaning = import_meaning(alloc, import)?;
        add_meaning(alloc, path, &mut meanings, local_name(import), meaning)?;
    }
    for (place, declaration) in unit.global_declarations.as_slice().iter().enumerate() {
        let name = declaration.node().declared_name();
        add_meaning(alloc, path, &mut meanings, name, Meaning::Declared(place))?;
    }
    Ok(meanings)
}

fn add_meaning(
    alloc: Global,
    path: &ModulePath,
    meanings: &mut HashMap<String, Meaning>,
    name: &str,
    meaning: Meaning,
) -> Result<(), ImportError>
    ensures { Adds path.now meanings.old name.now (known_of meaning) result meanings.new }
{
    if meanings.contains_key(name) {
        drop(meaning);
        let name = Text::from_str(alloc, name)?;
        return Err(ImportError::DuplicateSymbol(path.clone_in(alloc)?, name));
    }
    put(alloc, meanings, name, meaning)?;
    Ok(())
}

/// Puts a value under a name.
fn put<V: Drop>(
    alloc: Global,
    table: &mut HashMap<String, V>,
    name: &str,
    value: V,
) -> Result<(), AllocError>
    ensures { OnOk result ((x : Name) → get_by_text table.new x ≡ (if bytes_eq name.now x then Some value else get_by_text table.old x)) }
{
    table.insert(String::from_str(alloc, name)?, value)?;
    Ok(())
}

/// The name that an import brings into scope.
fn local_name(import: &ImportStatement) -> &str
    ensures { result.now ≡ spec.local_name (import_tree import.now) }
{
    match &import.content {
        ImportContent::Item(item) => match &item.rename {
            Some(name) => name.as_str(),
            None => item.ident.as_str(),
        },
    }
}

/// What an import names.
fn import_meaning(alloc: Global, import: &ImportStatement) -> Result<Meaning, AllocError>
    ensures { IfOk result (λ meaning. known_of meaning ≡ import_known (import_tree import.now).path (import_tree import.now).item) }
{
    match &import.content {
        ImportContent::Item(item) => match &import.path {
            Some(module) => Ok(Meaning::Imported(Target::new(
                alloc,
                module.get(),
                &item.ident.name,
            )?)),
            None => Ok(Meaning::Bare(item.ident.name.clone_in(alloc)?)),
        },
    }
}
