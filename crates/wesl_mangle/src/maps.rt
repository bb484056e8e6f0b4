//! A source map that holds nothing.

use std::alloc::{AllocError, Global};
use wesl_resolve::SourceMap;
use wgsl_path::ModulePath;

/// A source map that holds nothing.
#[derive(Clone, Copy, Debug, PartialEq, Eq)]
pub struct NoSourceMap;

impl SourceMap for NoSourceMap {
    ghost use Rattle.std.specs.Prelude.{None};

    ghost decls = { λ _ _. None };

    ghost sources = { λ _ _. None };

    ghost display_names = { λ _ _. None };

    ghost default_source = { λ _. None };

    fn get_decl(&self, _decl: &str) -> Option<(&ModulePath, &str)> {
        None
    }

    fn get_source(&self, _alloc: Global, _path: &ModulePath) -> Result<Option<&str>, AllocError> {
        Ok(None)
    }

    fn get_display_name(
        &self,
        _alloc: Global,
        _path: &ModulePath,
    ) -> Result<Option<&str>, AllocError> {
        Ok(None)
    }

    fn get_default_source(&self) -> Option<&str> {
        None
    }
}
