//! A mangler that remembers what it mangled.

use crate::mangler::Mangler;
use std::alloc::{AllocError, Global};
use wesl_resolve::{BasicSourceMap, SourceMap};
use wgsl_base::{CloneIn, Text};
use wgsl_path::ModulePath;

/// Mangles as another mangler. A name is read back as what was last mangled into it, and otherwise as the other mangler reads it.
#[derive(Debug, Drop)]
pub struct CacheMangler<M> {
    mangler: M,
    mangled: BasicSourceMap,
}

impl<M: Mangler> CacheMangler<M> {
    ghost use Rattle.std.specs.Prelude.{◌≡◌, None, ℕ, List};
    ghost use Rattle.wesl_resolve.specs.SourceMaps.{decl_at};

    /// Nothing was mangled.
    pub fn new(alloc: Global, mangler: M) -> CacheMangler<M>
        ensures mangler { result.mangler ≡ mangler }
        ensures mangled { (name : List ℕ) → decl_at result.mangled name ≡ None }
    {
        CacheMangler {
            mangler,
            mangled: BasicSourceMap::new(alloc),
        }
    }

    /// The inner mangler.
    pub fn into_inner(self) -> M
        ensures { result ≡ self.mangler }
    {
        let CacheMangler { mangler, mangled } = self;
        drop(mangled);
        mangler
    }
}

impl<M: Mangler> Mangler for CacheMangler<M> {
    ghost use Rattle.std.specs.Prelude.{◌≡◌, Some, IfOk, OnOk, OnErr};
    ghost use Rattle.wesl_resolve.specs.SourceMaps.{decl_at, IsSet, IsKept};
    ghost use Rattle.wesl_mangle.specs.Cached.{IsReadBack};

    ghost names = { λ m. M.names m.mangler };

    ghost unmangled = { λ m name. IsReadBack (decl_at m.mangled name) (M.unmangled m.mangler name) };

    ghost holds = { λ m. M.holds m.mangler };

    fn mangle(&mut self, alloc: Global, path: &ModulePath, item: &str) -> Result<Text, AllocError>
        ensures mangled { IfOk result (λ name. name ≡ M.names self.old.mangler path.now item.now) }
        ensures same_names { M.names self.new.mangler ≡ M.names self.old.mangler }
        ensures same_reference { M.holds self.new.mangler ≡ M.holds self.old.mangler }
        ensures remembered { OnOk result (IsSet (decl_at self.old.mangled) (M.names self.old.mangler path.now item.now) (Some (path.now, item.now)) (decl_at self.new.mangled)) }
        ensures refused { OnErr result (IsKept (decl_at self.old.mangled) (decl_at self.new.mangled)) }
    {
        let name = self.mangler.mangle(alloc, path, item)?;
        self.mangled.add_decl(name.as_str(), path, item)?;
        Ok(name)
    }

    fn unmangle(
        &mut self,
        alloc: Global,
        name: &str,
    ) -> Result<Option<(ModulePath, Text)>, AllocError> {
        match self.mangled.get_decl(name) {
            Some((path, item)) => Ok(Some((path.clone_in(alloc)?, Text::from_str(alloc, item)?))),
            None => self.mangler.unmangle(alloc, name),
        }
    }
}
