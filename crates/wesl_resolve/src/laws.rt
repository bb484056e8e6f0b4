//! Laws of mangled names.

ghost use Rattle.std.specs.Prelude.{◌≡◌, Some, IfOk};
ghost use Rattle.wesl_resolve.specs.Laws.{MangledOnce};
ghost use Rattle.wesl_resolve.specs.Unmangling.{IsPlainItem};

use crate::mangle::EscapeMangler;
use std::alloc::{AllocError, Global};
use wgsl_base::Text;
use wgsl_path::ModulePath;

/// Items with one mangled name are one item. The function states it, and does nothing.
pub fn mangled_once()
    ensures { MangledOnce }
{}

/// An item of a module, mangled and read back: it is that item of that module again.
pub fn mangled_and_back(
    alloc: Global,
    path: &ModulePath,
    item: &str,
) -> Result<Option<(ModulePath, Text)>, AllocError>
    requires { IsPlainItem path.now item.now }
    ensures { IfOk result (λ answer. answer ≡ Some (path.now, item.now)) }
{
    let name = EscapeMangler.mangle(alloc, path, item)?;
    EscapeMangler.unmangle(alloc, name.as_str())
}
