//! A resolver over other resolvers of one type.

use crate::ask::{module_at, module_behind, name_at, name_behind, source_at, source_behind};
use crate::choice::choose;
use std::alloc::{AllocError, Global};
use wesl_resolvers::{ResolveError, Resolver};
use wgsl_base::{Items, Text};
use wgsl_declarations::TranslationUnit;
use wgsl_path::ModulePath;

/// Resolvers that are mounted under prefixes. A path is asked of the one with the longest prefix that the path starts with, of
/// several such the last mounted, with what stands behind the prefix as a path from the root; where there is none, of the
/// fallback, unchanged. What is refused is told of the path that was asked for.
#[derive(Drop)]
pub struct Routes<R> {
    prefixes: Items<ModulePath>,
    mounts: Vec<R>,
    fallback: Option<R>,
}

impl<R: Resolver> Routes<R> {
    ghost use Rattle.std.specs.Prelude.{◌≡◌, ◌++◌, ◌∷◌, [], Some, None, OnOk, OnErr};

    /// Nothing is mounted.
    pub fn new(alloc: Global) -> Routes<R>
        ensures prefixes { result.prefixes ≡ [] }
        ensures mounts { result.mounts.items ≡ [] }
        ensures fallback { result.fallback ≡ None }
    {
        Routes {
            prefixes: Items::new(alloc),
            mounts: Vec::new(alloc),
            fallback: None,
        }
    }

    /// Mounts a resolver under a prefix. Where memory is refused nothing is changed.
    pub fn mount(&mut self, prefix: ModulePath, resolver: R) -> Result<(), AllocError>
        ensures prefixes { OnOk result (self.new.prefixes ≡ self.old.prefixes ++ prefix ∷ []) }
        ensures mounts { OnOk result (self.new.mounts.items ≡ self.old.mounts.items ++ resolver ∷ []) }
        ensures prefixes_refused { OnErr result (self.new.prefixes ≡ self.old.prefixes) }
        ensures mounts_refused { OnErr result (self.new.mounts.items ≡ self.old.mounts.items) }
        ensures fallback { self.new.fallback ≡ self.old.fallback }
    {
        self.mounts.push(resolver)?;
        match self.prefixes.push(prefix) {
            Ok(()) => Ok(()),
            Err(AllocError) => {
                drop(self.mounts.pop());
                Err(AllocError)
            }
        }
    }

    /// Sets the resolver of all paths that start with no prefix.
    pub fn mount_fallback(&mut self, resolver: R)
        ensures fallback { self.new.fallback ≡ Some resolver }
        ensures prefixes { self.new.prefixes ≡ self.old.prefixes }
        ensures mounts { self.new.mounts.items ≡ self.old.mounts.items }
    {
        self.fallback = Some(resolver);
    }
}

impl<R: Resolver> Resolver for Routes<R> {
    ghost use Rattle.wesl_router.specs.Routing.{target, answered, texted, named};
    ghost use Rattle.wesl_router.specs.Laws.{one_routed, one_text_routed, text_routed};

    ghost answers = { λ r p. answered R.answers (target r.prefixes r.mounts.items r.fallback p) };

    ghost texts = { λ r p. texted R.texts (target r.prefixes r.mounts.items r.fallback p) };

    ghost display_names = { λ r p. named R.display_names (target r.prefixes r.mounts.items r.fallback p) };

    fn resolve_source(&mut self, alloc: Global, path: &ModulePath) -> Result<Text, ResolveError> {
        match choose(path, self.prefixes.as_slice()) {
            Some(served) => source_at(alloc, &mut self.mounts, served, path),
            None => source_behind(alloc, &mut self.fallback, path),
        }
    }

    fn resolve_module(
        &mut self,
        alloc: Global,
        path: &ModulePath,
    ) -> Result<TranslationUnit, ResolveError> {
        match choose(path, self.prefixes.as_slice()) {
            Some(served) => module_at(alloc, &mut self.mounts, served, path),
            None => module_behind(alloc, &mut self.fallback, path),
        }
    }

    fn display_name(
        &mut self,
        alloc: Global,
        path: &ModulePath,
    ) -> Result<Option<Text>, AllocError> {
        match choose(path, self.prefixes.as_slice()) {
            Some(served) => name_at(alloc, &mut self.mounts, served, path),
            None => name_behind(alloc, &mut self.fallback, path),
        }
    }

    ghost one_answer = { λ r p. one_routed R.answers R.texts R.one_answer (target r.prefixes r.mounts.items r.fallback p) };

    ghost one_text = { λ r p. one_text_routed R.answers R.texts R.one_text (target r.prefixes r.mounts.items r.fallback p) };

    ghost text_of_unit = { λ r p. text_routed R.answers R.texts R.text_of_unit (target r.prefixes r.mounts.items r.fallback p) };
}
