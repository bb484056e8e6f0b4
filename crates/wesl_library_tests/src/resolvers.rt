//! Resolvers.

use std::alloc::Global;
use std::test::Fail;
use wesl_conditions::{Feature, Features};
use wesl_load::HeldUnit;
use wesl_mangle::{BasicSourceMap, Mangler, NoMangler, SourceMap, SourceMapper};
use wesl_preprocess::{Conditions, Preprocessor};
use wesl_resolvers::{NoResolver, RecordingResolver, ResolveError, Resolver};
use wesl_router::Router;
use wesl_virtual_resolver::VirtualResolver;
use wgsl_base::Text;
use wgsl_parser::parse_str;
use wgsl_path::ModulePath;

const M: &str = "const two = 2;\n";

pub fn path(alloc: Global, text: &str) -> Option<ModulePath> {
    ModulePath::from_str(alloc, text).ok()
}

pub fn unit(alloc: Global, text: &str) -> Option<HeldUnit> {
    Some(HeldUnit::new(parse_str(alloc, text).ok()?))
}

/// Whether a module prints as a text.
pub fn prints(alloc: Global, unit: &HeldUnit, wanted: &str) -> bool {
    let unit = unit.get();
    match format!(in alloc; "{unit}") {
        Ok(text) => text.as_str() == wanted,
        Err(_) => false,
    }
}

/// Whether a resolver has one module at a path, without a display name; nothing where it has none.
fn finds<R: Resolver>(alloc: Global, resolver: &mut R, path: &ModulePath) -> Option<bool> {
    let source = resolver.resolve_source(alloc, path).ok()?;
    let unit = HeldUnit::new(resolver.resolve_module(alloc, path).ok()?);
    let name = resolver.display_name(alloc, path).ok()?;
    Some(source.as_str() == M && prints(alloc, &unit, M) && name.is_none())
}

/// Whether a resolver has the module.
fn has_m<R: Resolver>(alloc: Global, resolver: &mut R) -> bool {
    match path(alloc, "package::m") {
        Some(path) => finds(alloc, resolver, &path) == Some(true),
        None => false,
    }
}

/// The module by its tree, at a path.
fn texts(alloc: Global, at: &str) -> Option<VirtualResolver> {
    let unit = unit(alloc, M)?;
    let mut resolver = VirtualResolver::new(alloc);
    let path = path(alloc, at)?;
    resolver.add_translation_unit(path, unit.get()).ok()?;
    Some(resolver)
}

/// Whether the text is there, and nothing else.
fn stores(alloc: Global, texts: &VirtualResolver) -> Option<bool> {
    let (m, z) = (path(alloc, "package::m")?, path(alloc, "package::z")?);
    let is_there = texts.contains(&m).ok()? && !texts.contains(&z).ok()?;
    Some(is_there && texts.get_module(&m).ok() == Some(M))
}

/// A router with the module under `package::m`.
fn router(alloc: Global) -> Option<Router> {
    let mut router = Router::new(alloc);
    let resolver = Box::new(alloc, texts(alloc, "package")?).ok()?;
    router
        .mount_resolver(path(alloc, "package::m")?, resolver)
        .ok()?;
    Some(router)
}

fn routed(alloc: Global) -> bool {
    match router(alloc) {
        Some(mut router) => has_m(alloc, &mut router),
        None => false,
    }
}

fn boxed(alloc: Global) -> Option<bool> {
    let mut boxed = Box::new(alloc, texts(alloc, "package::m")?).ok()?;
    Some(has_m(alloc, &mut boxed))
}

fn preprocessed(alloc: Global) -> Option<bool> {
    let features = Features::new(alloc, Feature::Disable);
    let conditions = Conditions {
        features: &features,
    };
    let mut resolver = Preprocessor::new(texts(alloc, "package::m")?, conditions);
    Some(has_m(alloc, &mut resolver))
}

fn recorded(alloc: Global) -> Option<bool> {
    let mut resolver = RecordingResolver::new(alloc, texts(alloc, "package::m")?);
    Some(has_m(alloc, &mut resolver) && resolver.requests.len() == 1)
}

#[test]
fn resolvers_resolve(rt: HostRuntime) -> Result<(), Fail> {
    let alloc = rt.alloc();
    assert!(rt; routed(alloc));
    assert_eq!(rt; boxed(alloc), Some(true));
    assert_eq!(rt; preprocessed(alloc), Some(true));
    assert_eq!(rt; recorded(alloc), Some(true));
    Ok(())
}

fn stored(alloc: Global) -> Option<bool> {
    let mut texts = texts(alloc, "package::m")?;
    Some(stores(alloc, &texts)? && has_m(alloc, &mut &mut texts))
}

#[test]
fn units_are_added(rt: HostRuntime) -> Result<(), Fail> {
    assert_eq!(rt; stored(rt.alloc()), Some(true));
    Ok(())
}

/// Whether an answer is that there is no module.
fn is_absent<T: Drop>(answer: Result<T, ResolveError>) -> bool {
    match answer {
        Ok(_) => false,
        Err(error) => matches!(error, ResolveError::ModuleNotFound(_)),
    }
}

fn finds_nothing(alloc: Global) -> Option<bool> {
    let m = path(alloc, "package::m")?;
    let mut none = NoResolver;
    Some(
        is_absent(none.resolve_source(alloc, &m))
            && unit_is_absent(alloc, &m)
            && none.display_name(alloc, &m).ok()?.is_none(),
    )
}

fn unit_is_absent(alloc: Global, path: &ModulePath) -> bool {
    match NoResolver.resolve_module(alloc, path) {
        Ok(unit) => {
            drop(HeldUnit::new(unit));
            false
        }
        Err(error) => matches!(error, ResolveError::ModuleNotFound(_)),
    }
}

#[test]
fn no_resolver_finds_nothing(rt: HostRuntime) -> Result<(), Fail> {
    assert_eq!(rt; finds_nothing(rt.alloc()), Some(true));
    Ok(())
}

/// Whether a map has the name and the text.
fn is_recorded(alloc: Global, map: &BasicSourceMap) -> Option<bool> {
    let m = path(alloc, "package::m")?;
    let (module, item) = map.get_decl("two")?;
    let text = map.get_source(alloc, &m).ok()??;
    Some(*module == m && item == "two" && text == M && map.get_default_source() == Some(M))
}

fn mapped(alloc: Global) -> Option<bool> {
    let texts = texts(alloc, "package::m")?;
    let mut mapper = SourceMapper::new(alloc, path(alloc, "package::m")?, texts, NoMangler);
    let is_found = has_m(alloc, &mut mapper);
    let name: Text = mapper
        .mangle(alloc, &path(alloc, "package::m")?, "two")
        .ok()?;
    let is_read_back = mapper.unmangle(alloc, name.as_str()).ok()?.is_some();
    let map = mapper.finish();
    Some(is_found && !is_read_back && is_recorded(alloc, &map)?)
}

#[test]
fn source_mappers_map(rt: HostRuntime) -> Result<(), Fail> {
    assert_eq!(rt; mapped(rt.alloc()), Some(true));
    Ok(())
}
