//! Resolvers in boxes, whatever their types.

use crate::routes::Routes;
use std::alloc::{AllocError, Global};
use wesl_resolvers::{ResolveError, Resolver};
use wgsl_base::Text;
use wgsl_declarations::TranslationUnit;
use wgsl_path::ModulePath;

/// A resolver of any type. It holds no reference.
#[derive(Drop)]
pub struct Mount {
    resolver: Box<dyn Resolver>,
}

impl Resolver for Mount {
    ghost answers = { λ m. (Resolver-box m.resolver).answers m.resolver.value };

    ghost texts = { λ m. (Resolver-box m.resolver).texts m.resolver.value };

    ghost display_names = { λ m. (Resolver-box m.resolver).display_names m.resolver.value };

    ghost one_answer = { λ m. (Resolver-box m.resolver).one_answer m.resolver.value };

    ghost one_text = { λ m. (Resolver-box m.resolver).one_text m.resolver.value };

    ghost text_of_unit = { λ m. (Resolver-box m.resolver).text_of_unit m.resolver.value };

    fn resolve_source(&mut self, alloc: Global, path: &ModulePath) -> Result<Text, ResolveError> {
        self.resolver.resolve_source(alloc, path)
    }

    fn resolve_module(
        &mut self,
        alloc: Global,
        path: &ModulePath,
    ) -> Result<TranslationUnit, ResolveError> {
        self.resolver.resolve_module(alloc, path)
    }

    fn display_name(
        &mut self,
        alloc: Global,
        path: &ModulePath,
    ) -> Result<Option<Text>, AllocError> {
        self.resolver.display_name(alloc, path)
    }
}

/// Resolvers of any types that are mounted under prefixes.
pub type Router = Routes<Mount>;

impl Routes<Mount> {
    ghost use Rattle.std.specs.Prelude.{◌≡◌, ◌++◌, ◌∷◌, [], Some, None, OnOk, OnErr};

    /// Mounts a resolver under a prefix. Where memory is refused nothing is changed.
    pub fn mount_resolver(
        &mut self,
        prefix: ModulePath,
        resolver: Box<dyn Resolver>,
    ) -> Result<(), AllocError>
        ensures prefixes { OnOk result (self.new.prefixes ≡ self.old.prefixes ++ prefix ∷ []) }
        ensures mounts { OnOk result (self.new.mounts.items ≡ self.old.mounts.items ++ record { resolver = resolver } ∷ []) }
        ensures prefixes_refused { OnErr result (self.new.prefixes ≡ self.old.prefixes) }
        ensures mounts_refused { OnErr result (self.new.mounts.items ≡ self.old.mounts.items) }
        ensures fallback { self.new.fallback ≡ self.old.fallback }
    {
        self.mount(prefix, Mount { resolver })
    }

    /// Sets the resolver of all paths that start with no prefix.
    pub fn mount_fallback_resolver(&mut self, resolver: Box<dyn Resolver>)
        ensures fallback { self.new.fallback ≡ Some (record { resolver = resolver }) }
        ensures prefixes { self.new.prefixes ≡ self.old.prefixes }
        ensures mounts { self.new.mounts.items ≡ self.old.mounts.items }
    {
        self.mount_fallback(Mount { resolver });
    }
}
