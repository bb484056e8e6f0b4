//! The first reached occurrence that denotes nothing.

ghost use Rattle.std.specs.Prelude.{◌≡◌, ℕ, Some, None, IfOk};
ghost use Rattle.std.specs.Option.{IsSome};
ghost use Rattle.core_link_spec.specs.Modules.{Path};
ghost use Rattle.core_scopes.specs.Outcomes.{loaded, home_of, outcome};
ghost use Rattle.core_reach.specs.Closing.{held_at};
ghost use Rattle.core_reach.specs.Following.{ArePresent};
ghost use Rattle.core_reach.specs.Missing.{FindsMissing, TellsWhy, held_in, held_alone};

use crate::linking::HeldNames;
use core_rename::occurrences;
use core_scopes::{Denoted, ImportError, Module, Modules, Symbol, denotation};
use std::alloc::{AllocError, Global};
use std::collections::BTreeMap;
use wgsl_base::{CloneIn, Text};

/// The first occurrence in what is held that denotes nothing, by printed path of the module and then place.
pub fn first_missing(
    alloc: Global,
    modules: &Modules,
    held: &HeldNames,
) -> Result<Option<ImportError>, AllocError>
    ensures present { IfOk result (λ found. found ≡ None → (m : Path) (place : ℕ) → IsSome (held_at held.now m place) → ArePresent (loaded modules.now) m place) }
    ensures first { IfOk result (λ found. FindsMissing (loaded modules.now) (held_at held.now) found) }
{
    for (text, places) in held {
        if let Some(error) = missing_among(alloc, modules, text.as_str(), places)? {
            return Ok(Some(error));
        }
    }
    Ok(None)
}

/// The first occurrence in the declarations at these places of a module that denotes nothing.
fn missing_among(
    alloc: Global,
    modules: &Modules,
    text: &str,
    places: &BTreeMap<usize, Text>,
) -> Result<Option<ImportError>, AllocError>
    ensures { IfOk result (λ found. FindsMissing (loaded modules.now) (held_in text.now places.now) found) }
{
    for place in places.keys() {
        if let Some(error) = missing_at(alloc, modules, text, *place)? {
            return Ok(Some(error));
        }
    }
    Ok(None)
}

/// The first occurrence in the declaration at a place of a module that denotes nothing.
fn missing_at(
    alloc: Global,
    modules: &Modules,
    text: &str,
    place: usize,
) -> Result<Option<ImportError>, AllocError>
    ensures { IfOk result (λ found. FindsMissing (loaded modules.now) (held_alone text.now place) found) }
{
    match modules.get(text) {
        None => Ok(None),
        Some(module) => {
            let found = missing_in(alloc, modules, text, Symbol { module, place })?;
            Ok(found)
        }
    }
}

/// The first occurrence in the declaration of a symbol of the module at a printed path that denotes nothing.
fn missing_in(
    alloc: Global,
    modules: &Modules,
    text: &str,
    symbol: Symbol<'_>,
) -> Result<Option<ImportError>, AllocError>
    requires { loaded modules.now text.now ≡ Some (home_of symbol.«module».now) }
    ensures { IfOk result (λ found. FindsMissing (loaded modules.now) (held_alone text.now symbol.entry.place) found) }
{
    match symbol.module.declaration(symbol.place) {
        None => Ok(None),
        Some(declaration) => {
            let names = occurrences(alloc, declaration)?;
            for name in names.as_slice() {
                if let Some(error) = missing_name(alloc, modules, symbol.module, name)? {
                    return Ok(Some(error));
                }
            }
            Ok(None)
        }
    }
}

/// Why a name of a module denotes nothing, if it doesn't.
fn missing_name(
    alloc: Global,
    modules: &Modules,
    module: &Module,
    name: &str,
) -> Result<Option<ImportError>, AllocError>
    ensures { IfOk result (λ found. TellsWhy (outcome (loaded modules.now) (home_of «module».now) name.now) found) }
{
    match denotation(modules, module, name) {
        Denoted::Missing(path, item) => {
            let path = path.clone_in(alloc)?;
            Ok(Some(ImportError::MissingDecl(path, item.clone_in(alloc)?)))
        }
        Denoted::Private(path, item) => {
            let path = path.clone_in(alloc)?;
            Ok(Some(ImportError::Private(path, item.clone_in(alloc)?)))
        }
        Denoted::Declared(_) | Denoted::Unloaded(_) | Denoted::Free => Ok(None),
    }
}
