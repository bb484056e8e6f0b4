//! Names of items in a linked text.

ghost use Rattle.std.specs.Prelude.{◌≡◌, ℕ, List, Option, None, IfOk};
ghost use Rattle.std.specs.Borrow.{GName};
ghost use Rattle.wgsl_path.specs.declared.path.ModulePath.{ModulePath as Path};

use std::alloc::{AllocError, Global};
use wgsl_base::Text;
use wgsl_path::ModulePath;

/// Gives the items of modules names. The name is a fixed function of the path and the item, which no call changes.
pub trait Mangler: Drop {
    /// The name of an item of a module.
    ghost names: { Self → Path → List ℕ → List ℕ };

    /// What a name may be read back as.
    ghost unmangled: { Self → List ℕ → Option (Path × List ℕ) → Type 0 };

    /// The reference that it holds, where it holds one. No call replaces it.
    ghost holds: { Self → Option GName } = { λ _. None };

    /// The name of an item of a module.
    fn mangle(&mut self, alloc: Global, path: &ModulePath, item: &str) -> Result<Text, AllocError>
        ensures mangled { IfOk result (λ name. name ≡ names self.old path.now item.now) }
        ensures same_names { names self.new ≡ names self.old }
        ensures same_reference { holds self.new ≡ holds self.old };

    /// The module and the item that a name was mangled from, where that can be told.
    fn unmangle(
        &mut self,
        alloc: Global,
        name: &str,
    ) -> Result<Option<(ModulePath, Text)>, AllocError>
        ensures told { IfOk result (unmangled self.old name.now) }
        ensures same_names { names self.new ≡ names self.old }
        ensures same_reference { holds self.new ≡ holds self.old };
}

impl<T: Mangler> Mangler for Box<T> {
    ghost names = { λ m. T.names m.value };

    ghost unmangled = { λ m. T.unmangled m.value };

    ghost holds = { λ m. T.holds m.value };

    fn mangle(&mut self, alloc: Global, path: &ModulePath, item: &str) -> Result<Text, AllocError> {
        (**self).mangle(alloc, path, item)
    }

    fn unmangle(
        &mut self,
        alloc: Global,
        name: &str,
    ) -> Result<Option<(ModulePath, Text)>, AllocError> {
        (**self).unmangle(alloc, name)
    }
}

impl<T: Mangler> Mangler for &mut T {
    ghost use Rattle.std.specs.Prelude.{Some};

    ghost names = { λ m. T.names m.now };

    ghost unmangled = { λ m. T.unmangled m.now };

    ghost holds = { λ m. Some m.ghost_name };

    fn mangle(&mut self, alloc: Global, path: &ModulePath, item: &str) -> Result<Text, AllocError> {
        (**self).mangle(alloc, path, item)
    }

    fn unmangle(
        &mut self,
        alloc: Global,
        name: &str,
    ) -> Result<Option<(ModulePath, Text)>, AllocError> {
        (**self).unmangle(alloc, name)
    }
}
