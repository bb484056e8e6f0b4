//! Resolvers behind boxes and references: each answers as what it holds or points to.

use crate::error::ResolveError;
use crate::resolver::Resolver;
use std::alloc::{AllocError, Global};
use wgsl_base::Text;
use wgsl_declarations::TranslationUnit;
use wgsl_path::ModulePath;

impl<T: Resolver> Resolver for Box<T> {
    ghost answers = { λ r. T.answers r.value };

    ghost texts = { λ r. T.texts r.value };

    ghost display_names = { λ r. T.display_names r.value };

    ghost asked = { λ r. T.asked r.value };

    ghost holds = { λ r. T.holds r.value };

    fn resolve_source(&mut self, alloc: Global, path: &ModulePath) -> Result<Text, ResolveError> {
        (**self).resolve_source(alloc, path)
    }

    fn resolve_module(
        &mut self,
        alloc: Global,
        path: &ModulePath,
    ) -> Result<TranslationUnit, ResolveError> {
        (**self).resolve_module(alloc, path)
    }

    fn display_name(
        &mut self,
        alloc: Global,
        path: &ModulePath,
    ) -> Result<Option<Text>, AllocError> {
        (**self).display_name(alloc, path)
    }

    ghost one_answer = { λ r. T.one_answer r.value };

    ghost one_text = { λ r. T.one_text r.value };

    ghost text_of_unit = { λ r. T.text_of_unit r.value };
}

impl<T: Resolver> Resolver for &mut T {
    ghost use Rattle.std.specs.Prelude.{Some};

    ghost answers = { λ r. T.answers r.now };

    ghost texts = { λ r. T.texts r.now };

    ghost display_names = { λ r. T.display_names r.now };

    ghost asked = { λ r. T.asked r.now };

    ghost holds = { λ r. Some r.ghost_name };

    fn resolve_source(&mut self, alloc: Global, path: &ModulePath) -> Result<Text, ResolveError> {
        (**self).resolve_source(alloc, path)
    }

    fn resolve_module(
        &mut self,
        alloc: Global,
        path: &ModulePath,
    ) -> Result<TranslationUnit, ResolveError> {
        (**self).resolve_module(alloc, path)
    }

    fn display_name(
        &mut self,
        alloc: Global,
        path: &ModulePath,
    ) -> Result<Option<Text>, AllocError> {
        (**self).display_name(alloc, path)
    }

    ghost one_answer = { λ r. T.one_answer r.now };

    ghost one_text = { λ r. T.one_text r.now };

    ghost text_of_unit = { λ r. T.text_of_unit r.now };
}
