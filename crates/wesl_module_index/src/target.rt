//! Modules that a module names.

ghost use Rattle.std.specs.Prelude.{◌≡◌, [], Option, IfOk, option_map, string_bytes};
ghost use Rattle.wgsl_path.specs.declared.path.ModulePath as spec;
ghost use Rattle.wgsl_path.specs.Joining.{with_names};
ghost use Rattle.wgsl_path.specs.declared.path.PathOrigin.TheVariants.{Package};
ghost use Rattle.wgsl_path.specs.Paths.{path_text};
ghost use Rattle.wesl_chains.specs.Canonical.{canonical};
ghost use Rattle.wesl_chains.specs.Senses.{meant_by, item_as_module};

use std::alloc::{AllocError, Global};
use wgsl_base::{CloneIn, Items, Text};
use wgsl_path::{ModulePath, ModulePathParseError, PathOrigin};

/// A module that is named, loaded or not. Paths that print alike name one module.
#[derive(Drop)]
pub struct Target {
    /// The path that the text is read as; of a text that is no path, a package of that name.
    pub path: ModulePath,
    /// The path as it is printed.
    pub printed_path: String,
    pub ghost canonical: { path ≡ canonical (string_bytes printed_path) },
    pub ghost printed: { path_text path ≡ string_bytes printed_path },
}

impl Target {
    /// The module at a path.
    pub fn new(alloc: Global, path: &ModulePath) -> Result<Target, AllocError>
        ensures { IfOk result (λ target. string_bytes target.printed_path ≡ path_text path.now) }
    {
        let printed_path = path.to_string(alloc)?;
        Ok(Target {
            path: path_of_text(alloc, printed_path.as_str())?,
            printed_path,
        })
    }
}

fn path_of_text(alloc: Global, text: &str) -> Result<ModulePath, AllocError>
    ensures canonical { IfOk result (λ path. path ≡ canonical text.now) }
    ensures printed { IfOk result (λ path. path_text path ≡ text.now) }
{
    match ModulePath::from_str(alloc, text) {
        Ok(path) => Ok(path),
        Err(ModulePathParseError::OutOfMemory) => Err(AllocError),
        Err(_) => package(alloc, text),
    }
}

/// The root of a package of this name.
pub(crate) fn package(alloc: Global, name: &str) -> Result<ModulePath, AllocError>
    ensures { IfOk result (λ path. path ≡ record { origin = Package name.now; components = [] }) }
{
    Ok(ModulePath {
        origin: PathOrigin::Package(Text::from_str(alloc, name)?),
        components: Items::new(alloc),
    })
}

/// A path that a module writes, as it is meant there: `package` is the root of the module's own package, `super` counts from the
/// module's own path.
pub(crate) fn meant(
    alloc: Global,
    own: &ModulePath,
    written: &ModulePath,
) -> Result<ModulePath, AllocError>
    ensures { IfOk result (λ path. path ≡ meant_by own.now written.now written.now.origin) }
{
    match &written.origin {
        PathOrigin::Absolute => Ok(ModulePath {
            origin: own.origin.clone_in(alloc)?,
            components: written.components.clone_in(alloc)?,
        }),
        PathOrigin::Relative(_) => own.join_path(alloc, written),
        PathOrigin::Package(_) => written.clone_in(alloc),
    }
}

/// What a name that is imported stands for.
#[derive(Drop)]
pub struct ImportItem {
    /// The module before the last name, by its number among those that imports name; `None` where the import is one bare name.
    pub module: Option<usize>,
    /// The last name: that of the item in that module.
    pub name: Text,
    /// Whether other modules may import the item from here.
    pub is_published: bool,
}

impl ImportItem {
    /// The whole path of the import of a module, as a module, and names behind it.
    pub(crate) fn path_behind(
        &self,
        alloc: Global,
        target: Option<&Target>,
        names: &Items<Text>,
    ) -> Result<ModulePath, AllocError>
        ensures { (base : Option spec.ModulePath) → option_map (λ t. string_bytes t.now.printed_path) target.entry ≡ option_map path_text base
            → IfOk result (λ path. path_text path ≡ path_text (with_names (item_as_module base self.now.name) names.now)) }
    {
        let names = names.clone_in(alloc)?;
        self.whole_path(alloc, target)?.join(names)
    }

    fn whole_path(&self, alloc: Global, target: Option<&Target>) -> Result<ModulePath, AllocError>
        ensures { (base : Option spec.ModulePath) → option_map (λ t. string_bytes t.now.printed_path) target.entry ≡ option_map path_text base
            → IfOk result (λ path. path_text path ≡ path_text (item_as_module base self.now.name)) }
    {
        match target {
            None => package(alloc, self.name.as_str()),
            Some(target) => {
                let name = self.name.clone_in(alloc)?;
                target.path.clone_in(alloc)?.with_name(name)
            }
        }
    }
}
