//! Manglers and source maps.

use crate::resolvers::path;
use std::alloc::Global;
use std::test::Fail;
use wesl_mangle::{
    BasicSourceMap, CacheMangler, EscapeMangler, Mangler, NoMangler, NoSourceMap, SourceMap,
};
use wgsl_base::Text;
use wgsl_path::ModulePath;

/// Whether the item `two` of `package::m` is mangled into a name.
fn mangles<M: Mangler>(alloc: Global, mangler: &mut M, wanted: &str) -> bool {
    let Some(m) = path(alloc, "package::m") else {
        return false;
    };
    match mangler.mangle(alloc, &m, "two") {
        Ok(name) => name.as_str() == wanted,
        Err(_) => false,
    }
}

fn is_two_of_m(alloc: Global, module: &ModulePath, item: &Text) -> bool {
    match path(alloc, "package::m") {
        Some(m) => *module == m && item.as_str() == "two",
        None => false,
    }
}

/// Whether a name is read back as that item; nothing where memory is refused or it is read as none.
fn reads_back<M: Mangler>(alloc: Global, mangler: &mut M, name: &str) -> Option<bool> {
    let (module, item) = mangler.unmangle(alloc, name).ok()??;
    Some(is_two_of_m(alloc, &module, &item))
}

/// Whether it mangles the item into a name, and reads that back.
fn goes_both_ways<M: Mangler>(alloc: Global, mangler: &mut M, wanted: &str) -> bool {
    mangles(alloc, mangler, wanted) && reads_back(alloc, mangler, wanted) == Some(true)
}

fn boxed_goes_both_ways(alloc: Global) -> bool {
    match Box::new(alloc, EscapeMangler) {
        Ok(mut mangler) => goes_both_ways(alloc, &mut mangler, "package_m_two"),
        Err(_) => false,
    }
}

#[test]
fn manglers_mangle(rt: HostRuntime) -> Result<(), Fail> {
    let alloc = rt.alloc();
    let mut escape = EscapeMangler;
    assert!(rt; goes_both_ways(alloc, &mut escape, "package_m_two"));
    assert!(rt; goes_both_ways(alloc, &mut &mut escape, "package_m_two"));
    assert!(rt; boxed_goes_both_ways(alloc));
    let mut cache = CacheMangler::new(alloc, NoMangler);
    assert!(rt; goes_both_ways(alloc, &mut cache, "two"));
    let mut none = NoMangler;
    assert!(rt; mangles(alloc, &mut none, "two"));
    assert!(rt; matches!(none.unmangle(alloc, "two"), Ok(None)));
    Ok(())
}

/// Whether a map gives a module's text.
fn gives_source<S: SourceMap>(
    alloc: Global,
    map: &S,
    path: &ModulePath,
    wanted: Option<&str>,
) -> bool {
    map.get_source(alloc, path).ok() == Some(wanted)
}

/// Whether a map gives a module's display name.
fn gives_name<S: SourceMap>(
    alloc: Global,
    map: &S,
    path: &ModulePath,
    wanted: Option<&str>,
) -> bool {
    map.get_display_name(alloc, path).ok() == Some(wanted)
}

/// Fills a map; nothing where memory is refused.
fn fill(alloc: Global, map: &mut BasicSourceMap, path: &ModulePath) -> Option<()> {
    let name = Text::from_str(alloc, "m.wesl").ok()?;
    let text = Text::from_str(alloc, "const two = 2;").ok()?;
    map.add_source(path, Some(name), text).ok()?;
    map.add_decl("two", path, "two").ok()
}

fn map_holds(alloc: Global, m: &ModulePath) -> bool {
    let mut map = BasicSourceMap::new(alloc);
    if fill(alloc, &mut map, m).is_none() {
        return false;
    }
    let map = Some(map);
    gives_source(alloc, &map, m, Some("const two = 2;"))
        && gives_name(alloc, &map, m, Some("m.wesl"))
        && map.get_decl("two").is_some()
}

fn maps_hold(alloc: Global) -> bool {
    let Some(m) = path(alloc, "package::m") else {
        return false;
    };
    map_holds(alloc, &m)
        && gives_source(alloc, &NoSourceMap, &m, None)
        && gives_name(alloc, &NoSourceMap, &m, None)
}

#[test]
fn source_maps_hold(rt: HostRuntime) -> Result<(), Fail> {
    assert!(rt; maps_hold(rt.alloc()));
    Ok(())
}
