//! The units of the part that a resolver's modules are.

ghost use Rattle.wgsl_path.specs.Reading.{parts, path_of};
ghost use Rattle.wgsl_path.specs.Paths.{path_text};
ghost use Rattle.wgsl_declarations.specs.View as whole_views;
ghost use Rattle.std.specs.Prelude.{◌≡◌, Ok, IfOk};
ghost use Rattle.core_resolver.specs.Found.{TellsCore, TellsRefused, IsUnsupportedAt};

use crate::narrowing::narrowed;
use core_narrowing::NarrowError;
use core_syntax::TranslationUnit;
use std::alloc::{AllocError, Global};
use std::mem;
use wesl_load::HeldUnit;
use wesl_resolve::ResolveError;
use wesl_resolvers as whole;
use wgsl_base::{CloneIn, Text};
use wgsl_declarations as declarations;
use wgsl_declarations::let_go;
use wgsl_path::{ModulePath, ModulePathParseError};

/// A module beyond the part, and its path.
#[derive(Drop)]
pub struct BeyondCore {
    pub path: ModulePath,
    pub unit: HeldUnit,
}

/// A resolver of whole modules as one of the part: it answers the unit of the part that a module is, and refuses a module that is none,
/// or whose conditions are at fault, as unsupported. Paths that print alike are one path.
#[derive(Drop)]
pub struct NarrowingResolver<R> {
    pub resolver: R,
    /// The module that was last refused as unsupported, so that nobody has to parse it again.
    pub beyond: Option<BeyondCore>,
}

impl<R: whole::Resolver> NarrowingResolver<R> {
    pub fn new(resolver: R) -> NarrowingResolver<R>
        ensures { result.resolver ≡ resolver }
    {
        NarrowingResolver {
            resolver,
            beyond: None,
        }
    }

    /// The module that was last refused as unsupported.
    pub fn into_beyond(self) -> Option<BeyondCore> {
        let NarrowingResolver { resolver, beyond } = self;
        drop(resolver);
        beyond
    }
}

/// Keeps a module beyond the part, and refuses it as unsupported.
fn refuse(
    alloc: Global,
    beyond: &mut Option<BeyondCore>,
    path: &ModulePath,
    unit: HeldUnit,
) -> ResolveError
    ensures { IsUnsupportedAt path.now result }
{
    let Ok(same) = path.clone_in(alloc) else {
        return ResolveError::OutOfMemory;
    };
    let Ok(path) = path.clone_in(alloc) else {
        return ResolveError::OutOfMemory;
    };
    drop(mem::replace(beyond, Some(BeyondCore { path, unit })));
    ResolveError::Unsupported(same)
}

/// The unit of the part that the module at a path is. A module that is none is kept.
#[tactic(auto, using(crate::proofs::Telling::part_told, crate::proofs::Telling::beyond_told))]
fn part_of(
    alloc: Global,
    beyond: &mut Option<BeyondCore>,
    path: &ModulePath,
    unit: declarations::TranslationUnit,
) -> Result<TranslationUnit, ResolveError>
    ensures { TellsCore (whole_views.unit_tree unit) path.now result }
{
    match narrowed(alloc, &unit) {
        Ok(part) => {
            let_go(unit);
            Ok(part)
        }
        Err(NarrowError::Unsupported) => Err(refuse(alloc, beyond, path, HeldUnit::new(unit))),
        Err(NarrowError::OutOfMemory) => {
            let_go(unit);
            Err(ResolveError::OutOfMemory)
        }
    }
}

/// The path that a path's text is read as. A text that is no path is out of memory: no module names another by such a path.
fn read_again(alloc: Global, path: &ModulePath) -> Result<ModulePath, AllocError>
    ensures read { IfOk result (λ own. path_of (parts (path_text path.now)) ≡ Ok own) }
    ensures text { IfOk result (λ own. path_text own ≡ path_text path.now) }
{
    let text = path.to_string(alloc)?;
    match ModulePath::from_str(alloc, text.as_str()) {
        Ok(path) => Ok(path),
        Err(ModulePathParseError::OutOfMemory) => Err(AllocError),
        Err(_) => Err(AllocError),
    }
}

/// The refusal of the module at a path, as one of the part.
fn refused(alloc: Global, path: &ModulePath, error: whole::ResolveError) -> ResolveError
    ensures { TellsRefused error path.now result }
{
    let Ok(path) = path.clone_in(alloc) else {
        return ResolveError::OutOfMemory;
    };
    match error {
        whole::ResolveError::ModuleNotFound(_) => ResolveError::ModuleNotFound(path),
        whole::ResolveError::Syntax(_, error) => ResolveError::Syntax(path, error),
        whole::ResolveError::GaveUp(_, refusal) => ResolveError::GaveUp(path, refusal),
        whole::ResolveError::Condition(..) | whole::ResolveError::ConditionLeft(_) => {
            ResolveError::Unsupported(path)
        }
        whole::ResolveError::OutOfMemory => ResolveError::OutOfMemory,
    }
}

impl<R: whole::Resolver> wesl_resolve::Resolver for NarrowingResolver<R> {
    ghost use Rattle.std.specs.Option.{option_map};
    ghost use Rattle.std.specs.Prelude.{map};
    ghost use Rattle.wgsl_path.specs.Paths.{path_text};
    ghost use Rattle.core_resolver.specs.Found.{at_text, part_found, part_names};
    ghost use Rattle.core_resolver.specs.Laws.{one_part_answer, one_part_text, text_of_part};

    ghost answers = { λ r. part_found (R.answers r.resolver) };

    ghost texts = { λ r. at_text (R.texts r.resolver) };

    ghost display_names = { λ r. part_names (R.display_names r.resolver) };

    ghost asked = { λ r. option_map (map path_text) (R.asked r.resolver) };

    ghost holds = { λ r. R.holds r.resolver };

    #[tactic(auto, using(crate::proofs::Telling::text_told, crate::proofs::Telling::text_refused, crate::proofs::Telling::same_part_texts, crate::proofs::Telling::same_part_names))]
    fn resolve_source(&mut self, alloc: Global, path: &ModulePath) -> Result<Text, ResolveError> {
        let own = read_again(alloc, path)?;
        match self.resolver.resolve_source(alloc, &own) {
            Ok(text) => Ok(text),
            Err(error) => Err(refused(alloc, path, error)),
        }
    }

    #[tactic(auto, using(crate::proofs::Telling::same_part_texts, crate::proofs::Telling::same_part_names))]
    fn resolve_module(
        &mut self,
        alloc: Global,
        path: &ModulePath,
    ) -> Result<TranslationUnit, ResolveError> {
        let own = read_again(alloc, path)?;
        match self.resolver.resolve_module(alloc, &own) {
            Ok(unit) => part_of(alloc, &mut self.beyond, path, unit),
            Err(error) => Err(refused(alloc, path, error)),
        }
    }

    #[tactic(auto, using(crate::proofs::Telling::name_told, crate::proofs::Telling::same_part_texts, crate::proofs::Telling::same_part_names))]
    fn display_name(
        &mut self,
        alloc: Global,
        path: &ModulePath,
    ) -> Result<Option<Text>, AllocError> {
        let own = read_again(alloc, path)?;
        let name = self.resolver.display_name(alloc, &own)?;
        Ok(name)
    }

    ghost one_answer = { λ r. one_part_answer (R.answers r.resolver) (R.one_answer r.resolver) };

    ghost one_text = { λ r. one_part_text (R.texts r.resolver) (R.one_text r.resolver) };

    ghost text_of_unit = { λ r. text_of_part (R.answers r.resolver) (R.texts r.resolver) (R.text_of_unit r.resolver) };
}
