//! A resolver that records what it is asked for.

ghost use Rattle.std.specs.Prelude.{◌≡◌, []};

use crate::error::ResolveError;
use crate::resolver::Resolver;
use std::alloc::{AllocError, Global};
use wgsl_base::{CloneIn, Items, Text};
use wgsl_declarations::TranslationUnit;
use wgsl_path::ModulePath;

/// A resolver, and the paths of the modules that it was asked for, in order.
#[derive(Drop)]
pub struct RecordingResolver<R> {
    pub resolver: R,
    pub requests: Items<ModulePath>,
}

impl<R: Resolver> RecordingResolver<R> {
    /// Nothing was asked for.
    pub fn new(alloc: Global, resolver: R) -> RecordingResolver<R>
        ensures { result ≡ record { resolver = resolver; requests = [] } }
    {
        RecordingResolver {
            resolver,
            requests: Items::new(alloc),
        }
    }
}

impl<R: Resolver> Resolver for RecordingResolver<R> {
    ghost use Rattle.std.specs.Prelude.{Some};

    ghost answers = { λ r. R.answers r.resolver };

    ghost texts = { λ r. R.texts r.resolver };

    ghost display_names = { λ r. R.display_names r.resolver };

    ghost asked = { λ r. Some r.requests };

    ghost holds = { λ r. R.holds r.resolver };

    fn resolve_source(&mut self, alloc: Global, path: &ModulePath) -> Result<Text, ResolveError> {
        self.resolver.resolve_source(alloc, path)
    }

    fn resolve_module(
        &mut self,
        alloc: Global,
        path: &ModulePath,
    ) -> Result<TranslationUnit, ResolveError> {
        self.requests.push(path.clone_in(alloc)?)?;
        self.resolver.resolve_module(alloc, path)
    }

    fn display_name(
        &mut self,
        alloc: Global,
        path: &ModulePath,
    ) -> Result<Option<Text>, AllocError> {
        self.resolver.display_name(alloc, path)
    }

    ghost one_answer = { λ r. R.one_answer r.resolver };

    ghost one_text = { λ r. R.one_text r.resolver };

    ghost text_of_unit = { λ r. R.text_of_unit r.resolver };
}
