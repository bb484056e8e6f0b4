//! Modules whose conditions are decided, found by a resolver that is lent.

use crate::conditions::Conditions;
use std::alloc::{AllocError, Global};
use wesl_resolve_fn::Preprocessor;
use wesl_resolvers::{ResolveError, Resolver};
use wgsl_base::Text;
use wgsl_declarations::TranslationUnit;
use wgsl_path::ModulePath;

/// A resolver that is lent, whose modules have their conditions decided by feature flags.
#[derive(Drop)]
pub struct Decided<'a, R> {
    pub inner: Preprocessor<&'a mut R, Conditions<'a>>,
}

impl<'a, R: Resolver> Resolver for Decided<'a, R> {
    ghost use Rattle.std.specs.Prelude.{Some};
    ghost use Rattle.wesl_preprocess.specs.Conditions.{decided};
    ghost use Rattle.wesl_resolve_fn.specs.Applying.{IsMadeOf, one_made, text_of_made};

    ghost answers = { λ d p a. IsMadeOf (decided d.inner.preprocess.features.now) (R.answers d.inner.resolver.now p) a };

    ghost texts = { λ d. R.texts d.inner.resolver.now };

    ghost display_names = { λ d. R.display_names d.inner.resolver.now };

    ghost asked = { λ d. R.asked d.inner.resolver.now };

    ghost holds = { λ d. Some d.inner.resolver.ghost_name };

    fn resolve_source(&mut self, alloc: Global, path: &ModulePath) -> Result<Text, ResolveError> {
        self.inner.resolve_source(alloc, path)
    }

    fn resolve_module(
        &mut self,
        alloc: Global,
        path: &ModulePath,
    ) -> Result<TranslationUnit, ResolveError> {
        self.inner.resolve_module(alloc, path)
    }

    fn display_name(
        &mut self,
        alloc: Global,
        path: &ModulePath,
    ) -> Result<Option<Text>, AllocError> {
        self.inner.display_name(alloc, path)
    }

    ghost one_answer = { λ d p. one_made (decided d.inner.preprocess.features.now) (R.answers d.inner.resolver.now p) (R.one_answer d.inner.resolver.now p) };

    ghost one_text = { λ d. R.one_text d.inner.resolver.now };

    ghost text_of_unit = { λ d p. text_of_made (decided d.inner.preprocess.features.now) (R.answers d.inner.resolver.now p) (R.texts d.inner.resolver.now p) (R.text_of_unit d.inner.resolver.now p) };
}
