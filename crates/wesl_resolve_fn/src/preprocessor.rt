//! A resolver whose modules are changed.

ghost use Rattle.std.specs.Prelude.{◌≡◌};
ghost use Rattle.wgsl_declarations.specs.View.{unit_tree};
ghost use Rattle.wesl_resolve_fn.specs.Applying.{TellsMade, RefusedAs};

use crate::resolve_fn::{ApplyError, ResolveFn};
use std::alloc::{AllocError, Global};
use wesl_resolvers::{ResolveError, Resolver};
use wgsl_base::{CloneIn, Text};
use wgsl_declarations::{TranslationUnit, let_go};
use wgsl_path::ModulePath;

/// A resolver, and what is done with each module that it finds. Texts and display names stay.
#[derive(Debug, Drop)]
pub struct Preprocessor<R, P> {
    pub resolver: R,
    pub preprocess: P,
}

impl<R: Resolver, P: ResolveFn> Preprocessor<R, P> {
    pub fn new(resolver: R, preprocess: P) -> Preprocessor<R, P>
        ensures { result ≡ record { resolver = resolver; preprocess = preprocess } }
    {
        Preprocessor {
            resolver,
            preprocess,
        }
    }
}

/// Why the module at a path is refused.
fn refused(alloc: Global, path: &ModulePath, error: ApplyError) -> ResolveError
    ensures { RefusedAs path.now error result }
{
    match error {
        ApplyError::Condition(error) => match path.clone_in(alloc) {
            Ok(path) => ResolveError::Condition(path, error),
            Err(AllocError) => ResolveError::OutOfMemory,
        },
        ApplyError::Left => match path.clone_in(alloc) {
            Ok(path) => ResolveError::ConditionLeft(path),
            Err(AllocError) => ResolveError::OutOfMemory,
        },
        ApplyError::OutOfMemory => ResolveError::OutOfMemory,
    }
}

/// What is made of a module that was found at a path.
#[tactic(auto, using(crate::proofs::Making::made_refused))]
fn made<P: ResolveFn>(
    alloc: Global,
    path: &ModulePath,
    unit: TranslationUnit,
    preprocess: &P,
) -> Result<TranslationUnit, ResolveError>
    ensures { TellsMade (P.applied preprocess.now (unit_tree unit)) path.now result }
{
    let mut unit = unit;
    match preprocess.apply(alloc, &mut unit) {
        Ok(()) => Ok(unit),
        Err(error) => {
            let_go(unit);
            Err(refused(alloc, path, error))
        }
    }
}

impl<R: Resolver, P: ResolveFn> Resolver for Preprocessor<R, P> {
    ghost use Rattle.wesl_resolve_fn.specs.Applying.{IsMadeOf, one_made, text_of_made};

    ghost answers = { λ r p a. IsMadeOf (P.applied r.preprocess) (R.answers r.resolver p) a };

    ghost texts = { λ r. R.texts r.resolver };

    ghost display_names = { λ r. R.display_names r.resolver };

    ghost asked = { λ r. R.asked r.resolver };

    ghost holds = { λ r. R.holds r.resolver };

    #[tactic(auto, using(crate::proofs::Making::text_stays, crate::proofs::Making::same_made))]
    fn resolve_source(&mut self, alloc: Global, path: &ModulePath) -> Result<Text, ResolveError> {
        self.resolver.resolve_source(alloc, path)
    }

    #[tactic(auto, using(crate::proofs::Making::made_told, crate::proofs::Making::error_stays, crate::proofs::Making::asks_made, crate::proofs::Making::same_made))]
    fn resolve_module(
        &mut self,
        alloc: Global,
        path: &ModulePath,
    ) -> Result<TranslationUnit, ResolveError> {
        match self.resolver.resolve_module(alloc, path) {
            Ok(unit) => made(alloc, path, unit, &self.preprocess),
            Err(error) => Err(error),
        }
    }

    #[tactic(auto, using(crate::proofs::Making::same_made))]
    fn display_name(
        &mut self,
        alloc: Global,
        path: &ModulePath,
    ) -> Result<Option<Text>, AllocError> {
        self.resolver.display_name(alloc, path)
    }

    ghost one_answer = { λ r p. one_made (P.applied r.preprocess) (R.answers r.resolver p) (R.one_answer r.resolver p) };

    ghost one_text = { λ r. R.one_text r.resolver };

    ghost text_of_unit = { λ r p. text_of_made (P.applied r.preprocess) (R.answers r.resolver p) (R.texts r.resolver p) (R.text_of_unit r.resolver p) };
}
