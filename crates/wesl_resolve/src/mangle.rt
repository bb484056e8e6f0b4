//! Names of items that tell apart the modules that declare them.

ghost use Rattle.std.specs.Prelude.{◌≡◌, ◌++◌, ◌∷◌, IfOk, OnOk};
ghost use Rattle.wesl_resolve.specs.Mangling.{mangled, mangled_origin, escaped, escaped_parts, more_supers};

use std::alloc::{AllocError, Global};
use wgsl_base::Text;
use wgsl_path::{ModulePath, PathOrigin};

/// Writes the origin of a path, its components and the item with `_` between. A part that has underscores is written
/// behind `_` and their number, so that different items have different names.
#[derive(Clone, Copy, Debug, PartialEq, Eq)]
pub struct EscapeMangler;

impl EscapeMangler {
    /// The name of an item of a module.
    pub fn mangle(&self, alloc: Global, path: &ModulePath, item: &str) -> Result<Text, AllocError>
        ensures { IfOk result (λ name. name ≡ mangled path.now item.now) }
    {
        let mut name = Text::new(alloc);
        push_path(alloc, &mut name, path)?;
        push_part(alloc, &mut name, item)?;
        Ok(name)
    }
}

fn push_path(alloc: Global, name: &mut Text, path: &ModulePath) -> Result<(), AllocError>
    ensures { OnOk result (name.new ≡ name.old ++ mangled_origin path.now.origin ++ escaped_parts path.now.components) }
{
    push_origin(alloc, name, &path.origin)?;
    for component in path.components.as_slice() {
        push_part(alloc, name, component.as_str())?;
    }
    Ok(())
}

/// A part of a name, behind `_`.
fn push_part(alloc: Global, name: &mut Text, part: &str) -> Result<(), AllocError>
    ensures { OnOk result (name.new ≡ name.old ++ 95 ∷ escaped part.now) }
{
    name.push_str("_")?;
    push_escaped(alloc, name, part)
}

fn push_origin(alloc: Global, name: &mut Text, origin: &PathOrigin) -> Result<(), AllocError>
    ensures { OnOk result (name.new ≡ name.old ++ mangled_origin origin.now) }
{
    match origin {
        PathOrigin::Absolute => name.push_str("package"),
        PathOrigin::Relative(0) => name.push_str("self"),
        PathOrigin::Relative(levels) => {
            name.push_str("super")?;
            push_supers(name, *levels - 1)
        }
        PathOrigin::Package(package) => push_escaped(alloc, name, package.as_str()),
    }
}

fn push_escaped(alloc: Global, name: &mut Text, part: &str) -> Result<(), AllocError>
    ensures { OnOk result (name.new ≡ name.old ++ escaped part.now) }
{
    let underscores = part.bytes().filter(|byte| *byte == b'_').count();
    if underscores > 0 {
        let number = format!(in alloc; "_{underscores}")?;
        name.push_str(number.as_str())?;
    }
    name.push_str(part)
}

fn push_supers(name: &mut Text, levels: usize) -> Result<(), AllocError>
    ensures { OnOk result (name.new ≡ name.old ++ more_supers levels) }
{
    for _level in 0..levels {
        name.push_str("_super")?;
    }
    Ok(())
}
