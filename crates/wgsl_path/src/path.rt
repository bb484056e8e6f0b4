//! Paths of modules.

ghost use Rattle.std.specs.Prelude.{◌≡◌, Some, IfOk};
ghost use Rattle.std.specs.Fmt.{WritesOnOk};
ghost use Rattle.wgsl_path.specs.Paths.{supers, origin_text, path_text};

use std::alloc::{AllocError, Global};
use std::fmt;
use wgsl_base::{CloneIn, Items, Text};

/// Where a path starts.
#[derive(Debug, Drop, PartialEq, Eq)]
pub enum PathOrigin {
    /// At the root of the own package: `package`.
    Absolute,
    /// At the own module (`self`, 0) or so many levels above it (`super`).
    Relative(usize),
    /// At the root of a package of this name.
    Package(Text),
}

/// The path of a module: an origin and the names from there on.
#[derive(Debug, Drop, PartialEq)]
pub struct ModulePath {
    pub origin: PathOrigin,
    pub components: Items<Text>,
}

impl ModulePath {
    pub fn new(origin: PathOrigin, components: Items<Text>) -> ModulePath
        ensures { result ≡ record { origin = origin; components = components } }
    {
        ModulePath { origin, components }
    }
}

impl CloneIn for PathOrigin {
    fn clone_in(&self, alloc: Global) -> Result<PathOrigin, AllocError> {
        match self {
            PathOrigin::Absolute => Ok(PathOrigin::Absolute),
            PathOrigin::Relative(levels) => Ok(PathOrigin::Relative(*levels)),
            PathOrigin::Package(name) => Ok(PathOrigin::Package(name.clone_in(alloc)?)),
        }
    }
}

impl CloneIn for ModulePath {
    fn clone_in(&self, alloc: Global) -> Result<ModulePath, AllocError> {
        Ok(ModulePath {
            origin: self.origin.clone_in(alloc)?,
            components: self.components.clone_in(alloc)?,
        })
    }
}

impl fmt::Display for PathOrigin {
    ghost output = { λ origin. Some (origin_text origin) };

    fn fmt<W: fmt::Write>(&self, f: &mut fmt::Formatter<W>) -> fmt::Result {
        match self {
            PathOrigin::Absolute => f.write_str("package"),
            PathOrigin::Relative(0) => f.write_str("self"),
            PathOrigin::Relative(levels) => {
                f.write_str("super")?;
                write_supers(*levels - 1, f)
            }
            PathOrigin::Package(name) => name.fmt(f),
        }
    }
}

fn write_supers<W: fmt::Write>(levels: usize, f: &mut fmt::Formatter<W>) -> fmt::Result
    ensures { WritesOnOk W.write_str_gives f.old result (supers levels) f.new }
{
    for _level in 0..levels {
        f.write_str("::super")?;
    }
    Ok(())
}

impl fmt::Display for ModulePath {
    ghost output = { λ path. Some (path_text path) };

    fn fmt<W: fmt::Write>(&self, f: &mut fmt::Formatter<W>) -> fmt::Result {
        self.origin.fmt(f)?;
        for component in self.components.as_slice() {
            f.write_str("::")?;
            component.fmt(f)?;
        }
        Ok(())
    }
}
