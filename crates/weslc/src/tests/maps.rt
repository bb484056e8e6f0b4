//! What the calls answer. The expected bytes are those of the project's description.

use std::alloc::Global;
use std::test::Fail;
use weslc_bundle::{
    BasicSourceMap, CoreAnswer, EscapeMangler, Options, SourceMap, VirtualResolver, link,
    try_compile,
};
use wgsl_base::Text;
use wgsl_path::ModulePath;

const ROOT: &str = "import package::m::two; fn g() -> u32 { return two + 1; }";

const M: &str = "const two = 2;";

const LINKED: &str =
    "fn g() -> u32 {\n    return package_m_two + 1;\n}\nconst package_m_two = 2;\n";

const COMPILED: &str = "fn g() -> u32 {\n    return 3u;\n}\n";

/// A root beyond what is compiled.
const WHOLE_ROOT: &str =
    "import package::m::two; struct S { a: u32 } fn g() -> S { return S(two + 1); }";

const WHOLE_LINKED: &str =
    "struct S {\n    a: u32,\n}\nfn g() -> S {\n    return S(package_m_two + 1);\n}\nconst package_m_two = 2;\n";

/// The calls that are made.
#[derive(Clone, Copy)]
enum Call {
    Link,
    Compile,
    /// Links a root beyond what is compiled.
    LinkWhole,
}

impl Call {
    /// The root's text.
    fn root(self) -> &'static str {
        match self {
            Call::Link | Call::Compile => ROOT,
            Call::LinkWhole => WHOLE_ROOT,
        }
    }
}

fn add(resolver: &mut VirtualResolver, alloc: Global, path: &str, text: &str) -> Option<()> {
    let path = ModulePath::from_str(alloc, path).ok()?;
    resolver
        .add_module(path, Text::from_str(alloc, text).ok()?)
        .ok()
}

fn add_both(resolver: &mut VirtualResolver, alloc: Global, call: Call) -> Option<()> {
    add(resolver, alloc, "package", call.root())?;
    add(resolver, alloc, "package::m", M)
}

fn keep_g(alloc: Global, options: &mut Options) -> Option<()> {
    options.keep.push(Text::from_str(alloc, "g").ok()?).ok()
}

/// Whether the map tells where the imported const was declared.
fn is_declared(map: &BasicSourceMap, m: &ModulePath) -> bool {
    match map.get_decl("package_m_two") {
        Some((module, item)) => *module == *m && item == "two",
        None => false,
    }
}

/// Whether the map has the texts of both modules.
fn has_texts(alloc: Global, map: &BasicSourceMap, m: &ModulePath, root: &str) -> bool {
    map.get_source(alloc, m).ok() == Some(Some(M)) && map.get_default_source() == Some(root)
}

fn maps_back(alloc: Global, map: &BasicSourceMap, root: &str) -> Option<bool> {
    let m = ModulePath::from_str(alloc, "package::m").ok()?;
    Some(is_declared(map, &m) && has_texts(alloc, map, &m, root))
}

/// Whether a call gives this text and a map that maps its names back. Over any errors, since to prove their drop is dear.
fn gives<E: Drop>(
    alloc: Global,
    answer: Result<(String, BasicSourceMap), E>,
    root: &str,
    wanted: &str,
) -> Option<bool> {
    let (text, map) = answer.ok()?;
    Some(text.as_str() == wanted && maps_back(alloc, &map, root)?)
}

fn answers(
    alloc: Global,
    call: Call,
    resolver: &mut VirtualResolver,
    root: &ModulePath,
    options: &Options,
) -> Option<bool> {
    let source = call.root();
    match call {
        Call::Link => gives(alloc, link(alloc, resolver, root, options), source, LINKED),
        Call::Compile => match try_compile(alloc, resolver, root, options) {
            CoreAnswer::Answered(answer) => gives(alloc, answer, source, COMPILED),
            CoreAnswer::BeyondCore(_) => None,
        },
        Call::LinkWhole => gives(
            alloc,
            link(alloc, resolver, root, options),
            source,
            WHOLE_LINKED,
        ),
    }
}

fn keeping_g(
    alloc: Global,
    call: Call,
    resolver: &mut VirtualResolver,
    root: &ModulePath,
) -> Option<bool> {
    let mut options = Options::new(alloc);
    keep_g(alloc, &mut options)?;
    answers(alloc, call, resolver, root, &options)
}

fn of_root(alloc: Global, call: Call, resolver: &mut VirtualResolver) -> Option<bool> {
    let root = ModulePath::from_str(alloc, "package").ok()?;
    keeping_g(alloc, call, resolver, &root)
}

/// Whether a call on the two modules gives what it should; nothing where it, or what it needs, is refused.
fn is_right(alloc: Global, call: Call) -> Option<bool> {
    let mut resolver = VirtualResolver::new(alloc);
    add_both(&mut resolver, alloc, call)?;
    of_root(alloc, call, &mut resolver)
}

#[test]
fn linked_names_map_back(rt: HostRuntime) -> Result<(), Fail> {
    assert_eq!(rt; is_right(rt.alloc(), Call::Link), Some(true));
    Ok(())
}

#[test]
fn names_of_whole_modules_map_back(rt: HostRuntime) -> Result<(), Fail> {
    assert_eq!(rt; is_right(rt.alloc(), Call::LinkWhole), Some(true));
    Ok(())
}

#[test]
fn compiled_names_map_back(rt: HostRuntime) -> Result<(), Fail> {
    assert_eq!(rt; is_right(rt.alloc(), Call::Compile), Some(true));
    Ok(())
}

/// Whether a name is read back as this path and item.
fn is_unmangled(alloc: Global, path: &ModulePath, item: &str, name: &str) -> Option<bool> {
    let (module, back) = EscapeMangler.unmangle(alloc, name).ok()??;
    Some(module == *path && back.as_str() == item)
}

/// Whether a path and an item are mangled into this name.
fn is_mangled(alloc: Global, path: &ModulePath, item: &str, name: &str) -> Option<bool> {
    let mangled = EscapeMangler.mangle(alloc, path, item).ok()?;
    Some(mangled.as_str() == name)
}

/// Whether a path and an item are mangled into this name and come back.
fn comes_back(alloc: Global, path: &str, item: &str, name: &str) -> Option<bool> {
    let path = ModulePath::from_str(alloc, path).ok()?;
    Some(is_mangled(alloc, &path, item, name)? && is_unmangled(alloc, &path, item, name)?)
}

#[test]
fn mangled_names_come_back(rt: HostRuntime) -> Result<(), Fail> {
    let alloc = rt.alloc();
    let lighting = "package__1bevy_pbr_lighting_item";
    let back = comes_back(alloc, "package::bevy_pbr::lighting", "item", lighting);
    assert_eq!(rt; back, Some(true));
    let back = comes_back(alloc, "a_b::c_d::e", "item", "_1a_b__1c_d_e_item");
    assert_eq!(rt; back, Some(true));
    Ok(())
}
