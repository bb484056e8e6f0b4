//! Which prefix serves a path.

ghost use Rattle.std.specs.Prelude.{◌≡◌, IfOk};
ghost use Rattle.wesl_router.specs.Choice.{best_of, is_no_shorter, better, rest_behind, starts};

use std::alloc::{AllocError, Global};
use wgsl_base::{CloneIn, Items};
use wgsl_path::{ModulePath, PathOrigin};

/// A prefix that serves a path: its place among the prefixes and how many names it has.
#[derive(Clone, Copy)]
pub struct Served {
    pub place: usize,
    pub names: usize,
}

/// Whether a prefix of so many names is no shorter than another, if there is one.
fn is_no_shorter_than(best: Option<Served>, names: usize) -> bool
    ensures { result ≡ is_no_shorter best names }
{
    match best {
        None => true,
        Some(served) => served.names <= names,
    }
}

fn begins(path: &ModulePath, prefix: &ModulePath) -> bool
    ensures { result ≡ starts path.now prefix.now }
{
    path.starts_with(prefix)
}

/// The better of the best so far and one more prefix.
fn better_of(
    path: &ModulePath,
    place: usize,
    best: Option<Served>,
    prefix: &ModulePath,
) -> Option<Served>
    ensures { result ≡ better path.now place best prefix.now }
{
    let names = prefix.components.len();
    if begins(path, prefix) && is_no_shorter_than(best, names) {
        Some(Served { place, names })
    } else {
        best
    }
}

/// The longest prefix with which a path starts, and of several of that length the last.
pub(crate) fn choose(path: &ModulePath, prefixes: &[ModulePath]) -> Option<Served>
    ensures { result ≡ best_of path.now prefixes.now }
{
    let mut best = None;
    for place in 0..prefixes.len() {
        best = better_of(path, place, best, &prefixes[place]);
    }
    best
}

/// What stands behind so many names, as a path from the root.
pub(crate) fn rest_of(
    alloc: Global,
    path: &ModulePath,
    names: usize,
) -> Result<ModulePath, AllocError>
    ensures { IfOk result (λ rest. rest ≡ rest_behind names path.now) }
{
    let all = path.components.as_slice();
    let from = names.min(all.len());
    let mut components = Items::new(alloc);
    for name in &all[from..] {
        components.push(name.clone_in(alloc)?)?;
    }
    Ok(ModulePath::new(PathOrigin::Absolute, components))
}
