//! What is handed to calls.

use std::alloc::Global;
use wesl_cond::{Feature, Features};
use weslc_bundle::{Options, VirtualResolver};
use wgsl_base::Text;
use wgsl_path::ModulePath;

pub const COMPARISON: &str =
    "fn f(p: bool, q: bool, r: bool) -> bool { return q; } fn g(a: i32, b: i32, c: i32, d: i32) { let r = f(a < b, true || (1 == 2), c > d); v = r; } var<private> v: bool;";

pub const KERNEL: &str =
    "import package::m::two; @group(0) @binding(0) var<storage, read_write> dst: array<u32>; @compute @workgroup_size(1) fn main(@builtin(local_invocation_index) i: u32) { dst[i] = i + two; }";

pub const KERNEL_LOWERED: &str =
    "@group(0) @binding(0) var<storage, read_write> dst: array<u32>;\n@compute @workgroup_size(1) fn main(@builtin(local_invocation_index) i: u32) {\n    dst[i] = i + 2;\n}\n";

pub fn text(alloc: Global, text: &str) -> Option<Text> {
    Text::from_str(alloc, text).ok()
}

pub fn path(alloc: Global, text: &str) -> Option<ModulePath> {
    ModulePath::from_str(alloc, text).ok()
}

/// Options that keep one name.
pub fn keeping(alloc: Global, name: &str) -> Option<Options> {
    let mut options = Options::new(alloc);
    options.keep.push(text(alloc, name)?).ok()?;
    Some(options)
}

/// Adds a module.
pub fn add(alloc: Global, resolver: &mut VirtualResolver, at: &str, says: &str) -> Option<()> {
    let path = path(alloc, at)?;
    resolver.add_module(path, text(alloc, says)?).ok()
}

/// Modules, of which there is one.
pub fn one_module(alloc: Global, at: &str, says: &str) -> Option<VirtualResolver> {
    let mut resolver = VirtualResolver::new(alloc);
    add(alloc, &mut resolver, at, says)?;
    Some(resolver)
}

/// Whether these are the modules, in this order.
pub fn has(alloc: Global, resolver: &VirtualResolver, wanted: &[(&str, &str)]) -> Option<bool> {
    let modules = resolver.modules().ok()?;
    if modules.len() != wanted.len() {
        return Some(false);
    }
    for (module, (at, says)) in modules.as_slice().iter().zip(wanted) {
        let printed = module.0.to_string(alloc).ok()?;
        if printed.as_str() != *at || module.1 != *says {
            return Some(false);
        }
    }
    Some(true)
}

/// The flag `f` is false, `k` is kept.
pub fn features(alloc: Global) -> Option<Features> {
    let mut features = Features::new(alloc, Feature::Error);
    let f = String::from_str(alloc, "f").ok()?;
    features.set(f, Feature::Disable).ok()?;
    let k = String::from_str(alloc, "k").ok()?;
    features.set(k, Feature::Keep).ok()?;
    Some(features)
}
