//! Manglers without memory.

use crate::mangler::Mangler;
use std::alloc::{AllocError, Global};
use wesl_resolve::EscapeMangler;
use wgsl_base::Text;
use wgsl_path::ModulePath;

impl Mangler for EscapeMangler {
    ghost use Rattle.wesl_resolve.specs.Mangling.{mangled as mangled_name};
    ghost use Rattle.wesl_resolve.specs.Unmangling.{IsUnmangled};

    ghost names = { λ _. mangled_name };

    ghost unmangled = { λ _. IsUnmangled };

    fn mangle(&mut self, alloc: Global, path: &ModulePath, item: &str) -> Result<Text, AllocError> {
        EscapeMangler::mangle(self, alloc, path, item)
    }

    fn unmangle(
        &mut self,
        alloc: Global,
        name: &str,
    ) -> Result<Option<(ModulePath, Text)>, AllocError> {
        EscapeMangler::unmangle(self, alloc, name)
    }
}

/// Leaves each item its own name, and reads none back.
#[derive(Clone, Copy, Debug, PartialEq, Eq)]
pub struct NoMangler;

impl Mangler for NoMangler {
    ghost use Rattle.std.specs.Prelude.{◌≡◌, None};

    ghost names = { λ _ _ item. item };

    ghost unmangled = { λ _ _ answer. answer ≡ None };

    fn mangle(
        &mut self,
        alloc: Global,
        _path: &ModulePath,
        item: &str,
    ) -> Result<Text, AllocError> {
        Text::from_str(alloc, item)
    }

    fn unmangle(
        &mut self,
        _alloc: Global,
        _name: &str,
    ) -> Result<Option<(ModulePath, Text)>, AllocError> {
        Ok(None)
    }
}
