//! A resolver without modules.

use crate::error::ResolveError;
use crate::resolver::Resolver;
use std::alloc::{AllocError, Global};
use wgsl_base::{CloneIn, Text};
use wgsl_declarations::TranslationUnit;
use wgsl_path::ModulePath;

/// Finds no module at any path.
#[derive(Clone, Copy, Debug, PartialEq, Eq)]
pub struct NoResolver;

impl Resolver for NoResolver {
    ghost use Rattle.std.specs.Prelude.{◌≡◌};
    ghost use Rattle.std.proofs.Common.{sym, subst, ◌∙◌};
    ghost use Rattle.wesl_resolvers.specs.Found.{not_found, is_unit};

    ghost answers = { λ _ _ a. a ≡ not_found };

    ghost texts = { λ _ _ _. ⊥ };

    fn resolve_source(&mut self, alloc: Global, path: &ModulePath) -> Result<Text, ResolveError> {
        Err(ResolveError::ModuleNotFound(path.clone_in(alloc)?))
    }

    fn resolve_module(
        &mut self,
        alloc: Global,
        path: &ModulePath,
    ) -> Result<TranslationUnit, ResolveError> {
        Err(ResolveError::ModuleNotFound(path.clone_in(alloc)?))
    }

    fn display_name(
        &mut self,
        _alloc: Global,
        _path: &ModulePath,
    ) -> Result<Option<Text>, AllocError> {
        Ok(None)
    }

    ghost one_answer = { λ _ _ a b h k. h ∙ sym k };

    ghost one_text = { λ _ _ a b h k. absurd h };

    ghost text_of_unit = { λ _ _ u h. absurd (subst is_unit h tt) };
}
