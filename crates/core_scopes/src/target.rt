//! What a name of a module's own scope means.

ghost use Rattle.std.specs.Prelude.{◌≡◌, Some, IfOk, string_bytes};
ghost use Rattle.wgsl_path.specs.Paths.{path_text};

use std::alloc::{AllocError, Global};
use wgsl_base::{CloneIn, Text};
use wgsl_path::ModulePath;

/// An item of a module, as an import names it.
#[derive(Drop)]
pub struct Target {
    pub path: ModulePath,
    /// The module's path as it is printed.
    pub printed_path: String,
    pub item: Text,
    ghost printed: { string_bytes printed_path ≡ path_text path },
}

impl Target {
    /// An item of the module at a path.
    pub fn new(alloc: Global, path: &ModulePath, item: &Text) -> Result<Target, AllocError>
        ensures path { IfOk result (λ target. target.path ≡ path.now) }
        ensures item { IfOk result (λ target. target.item ≡ item.now) }
    {
        Ok(Target {
            printed_path: path.to_string(alloc)?,
            path: path.clone_in(alloc)?,
            item: item.clone_in(alloc)?,
        })
    }
}

/// What a name of a module's own scope means.
#[derive(Drop)]
pub enum Meaning {
    /// The module's declaration at this place.
    Declared(usize),
    /// An item of another module.
    Imported(Target),
    /// An item that an import names with no module before it.
    Bare(Text),
}
