//! The calls on loaded modules, as methods.

ghost use Rattle.std.specs.Prelude.{◌≡◌};

use std::alloc::{AllocError, Global};
use wesl_assemble::{Numbering, number_held};
use wesl_load::{Resolutions, resolve_eager};
use wesl_mangle::Mangler;
use wesl_module_index::{DeclarationId, ImportError, Module, Modules};
use wesl_resolvers::NoResolver;
use wgsl_base::Text;
use wgsl_declarations::TranslationUnit;
use wgsl_path::ModulePath;

/// The symbols of a linked unit, and the name of each in its text, by number.
#[derive(Drop)]
pub struct SymbolNames {
    pub numbering: Numbering,
    pub names: Vec<Text>,
}

/// What is done with loaded modules: symbols are numbered and named, and then the linked unit is put together.
pub trait Linking: Sized {
    ghost use Rattle.std.specs.Prelude.{◌≡◌, [], IfOk};

    /// The root at this path alone, with nothing in it.
    fn new_uninit(alloc: Global, root: &ModulePath) -> Result<Self, ImportError>;

    /// The symbols of what is held, with their names in the linked text: the root's keep theirs, and those of other modules have the name
    /// that the mangler gives them.
    fn mangle<M: Mangler>(&self, alloc: Global, mangler: &mut M) -> Result<SymbolNames, AllocError>
        ensures same_names { M.names mangler.new ≡ M.names mangler.old }
        ensures same_reference { M.holds mangler.new ≡ M.holds mangler.old };

    /// Puts the linked unit together under these names: the directives of all loaded modules, equal ones once, and the held declarations
    /// without imports, the root's first, then those of the other modules in byte order of their printed paths. The trees are moved out of
    /// the modules.
    fn assemble(
        &mut self,
        alloc: Global,
        symbols: &SymbolNames,
    ) -> Result<TranslationUnit, AllocError>
        ensures { IfOk result (λ unit. unit.imports ≡ []) };
}

impl Linking for Resolutions {
    fn new_uninit(alloc: Global, root: &ModulePath) -> Result<Resolutions, ImportError> {
        let unit = TranslationUnit::new(alloc);
        resolve_eager(alloc, unit, root, &mut NoResolver, 1)
    }

    fn mangle<M: Mangler>(
        &self,
        alloc: Global,
        mangler: &mut M,
    ) -> Result<SymbolNames, AllocError> {
        let numbering = number_held(alloc, self)?;
        let names = names_of(alloc, &self.modules, numbering.spots(), mangler)?;
        Ok(SymbolNames { numbering, names })
    }

    fn assemble(
        &mut self,
        alloc: Global,
        symbols: &SymbolNames,
    ) -> Result<TranslationUnit, AllocError> {
        let mut origins = Vec::new(alloc);
        wesl_assemble::assemble(
            alloc,
            self,
            &symbols.numbering,
            symbols.names.as_slice(),
            &mut origins,
        )
    }
}

/// The name in the linked text of each of these declarations.
fn names_of<M: Mangler>(
    alloc: Global,
    modules: &Modules,
    spots: &[DeclarationId],
    mangler: &mut M,
) -> Result<Vec<Text>, AllocError>
    ensures same_names { M.names mangler.new ≡ M.names mangler.old }
    ensures same_reference { M.holds mangler.new ≡ M.holds mangler.old }
{
    let mut names = Vec::new(alloc);
    for spot in spots {
        let name = name_of(alloc, modules.get(spot.module), *spot, mangler)?;
        names.push(name)?;
    }
    Ok(names)
}

fn name_of<M: Mangler>(
    alloc: Global,
    module: Option<&Module>,
    spot: DeclarationId,
    mangler: &mut M,
) -> Result<Text, AllocError>
    ensures same_names { M.names mangler.new ≡ M.names mangler.old }
    ensures same_reference { M.holds mangler.new ≡ M.holds mangler.old }
{
    let Some(module) = module else {
        return Ok(Text::new(alloc));
    };
    match module.name_at(spot.place) {
        None => Ok(Text::new(alloc)),
        Some(name) if spot.module == 0 => Text::from_str(alloc, name),
        Some(name) => mangler.mangle(alloc, &module.target.path, name),
    }
}
