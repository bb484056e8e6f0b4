//! From the linked unit back to the modules.

ghost use Rattle.std.specs.Prelude.{◌≡◌};
ghost use Rattle.core_resolver.specs.Asked.{StayAsked};

use crate::link::LinkedModules;
use crate::refusal::of_resolve;
use std::alloc::{AllocError, Global};
use wesl_module_index::{DeclarationId, Modules};
use wesl_resolvers::Resolver;
use weslc_errors::{BasicSourceMap, CompileError};
use wgsl_base::Text;
use wgsl_path::ModulePath;

/// The map of what is linked without texts: the held symbols under their names in the linked unit.
pub fn declaration_map(
    alloc: Global,
    linked: &LinkedModules,
) -> Result<BasicSourceMap, AllocError> {
    let mut map = BasicSourceMap::new(alloc);
    let spots = linked.numbering.spots();
    for (spot, name) in spots.iter().zip(linked.names.as_slice()) {
        add_decl(&mut map, &linked.modules, *spot, name)?;
    }
    Ok(map)
}

/// The map of what is linked: the held symbols under their names in the linked unit, the loaded modules with the texts and display names
/// that the resolver has, and the root's text as default.
pub fn source_map<R: Resolver>(
    alloc: Global,
    resolver: &mut R,
    root: &ModulePath,
    linked: &LinkedModules,
) -> Result<BasicSourceMap, CompileError>
    ensures asked { StayAsked (R.asked resolver.old) (R.asked resolver.new) }
    ensures same_reference { R.holds resolver.new ≡ R.holds resolver.old }
{
    let mut map = declaration_map(alloc, linked)?;
    for number in 0..linked.modules.len() {
        if let Some(module) = linked.modules.get(number) {
            add_source(alloc, resolver, &module.target.path, &mut map)?;
        }
    }
    map.set_default_source(source_of(alloc, resolver, root)?);
    Ok(map)
}

fn add_decl(
    map: &mut BasicSourceMap,
    modules: &Modules,
    spot: DeclarationId,
    name: &Text,
) -> Result<(), AllocError> {
    if let Some(module) = modules.get(spot.module)
        && let Some(item) = module.name_at(spot.place)
    {
        map.add_decl(name.as_str(), &module.target.path, item)?;
    }
    Ok(())
}

fn add_source<R: Resolver>(
    alloc: Global,
    resolver: &mut R,
    path: &ModulePath,
    map: &mut BasicSourceMap,
) -> Result<(), CompileError>
    ensures asked { StayAsked (R.asked resolver.old) (R.asked resolver.new) }
    ensures same_reference { R.holds resolver.new ≡ R.holds resolver.old }
{
    let name = resolver.display_name(alloc, path)?;
    let text = source_of(alloc, resolver, path)?;
    map.add_source(path, name, text)?;
    Ok(())
}

fn source_of<R: Resolver>(
    alloc: Global,
    resolver: &mut R,
    path: &ModulePath,
) -> Result<Text, CompileError>
    ensures asked { StayAsked (R.asked resolver.old) (R.asked resolver.new) }
    ensures same_reference { R.holds resolver.new ≡ R.holds resolver.old }
{
    match resolver.resolve_source(alloc, path) {
        Ok(text) => Ok(text),
        Err(error) => Err(of_resolve(error)),
    }
}
