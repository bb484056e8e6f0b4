//! Paths that go on from others, and paths that begin with others.

ghost use Rattle.std.specs.Prelude.{◌≡◌, ◌∷◌, [], ◌++◌, ◌-◌, ◌↔◌, length, take, slice_get, IsTrue, IfOk, OnOk, OnErr};
ghost use Rattle.std.specs.Option.{option_copied};
ghost use Rattle.wgsl_path.specs.Joining.{root_path, with_names, origin_above, path_up, joined, BeginsWith, StartsWith};

use crate::path::{ModulePath, PathOrigin};
use std::alloc::{AllocError, Global};
use wgsl_base::{CloneIn, Items, Text};

impl ModulePath {
    /// The root of the own package. It needs no memory.
    pub fn new_root(alloc: Global) -> ModulePath
        ensures { result ≡ root_path }
    {
        ModulePath {
            origin: PathOrigin::Absolute,
            components: Items::new(alloc),
        }
    }

    /// Whether this is the root of the own package.
    pub fn is_root(&self) -> bool
        ensures { IsTrue result ↔ (self.now ≡ root_path) }
    {
        match self.origin {
            PathOrigin::Absolute => self.components.is_empty(),
            PathOrigin::Relative(_) | PathOrigin::Package(_) => false,
        }
    }

    /// The first name behind the origin.
    pub fn first(&self) -> Option<&str>
        ensures { option_copied result ≡ slice_get self.now.components 0 }
    {
        match self.components.as_slice().first() {
            None => None,
            Some(name) => Some(name.as_str()),
        }
    }

    /// The last name behind the origin.
    pub fn last(&self) -> Option<&str>
        ensures { option_copied result ≡ slice_get self.now.components (length self.now.components - 1) }
    {
        match self.components.as_slice().last() {
            None => None,
            Some(name) => Some(name.as_str()),
        }
    }

    /// Adds a name at the end. Where memory is refused the path is unchanged.
    pub fn push(&mut self, alloc: Global, item: &str) -> Result<(), AllocError>
        ensures ok { OnOk result (self.new ≡ with_names self.old (item.now ∷ [])) }
        ensures err { OnErr result (self.new ≡ self.old) }
    {
        let name = Text::from_str(alloc, item)?;
        self.components.push(name)
    }

    /// This path, and this name behind it.
    pub fn with_name(self, name: Text) -> Result<ModulePath, AllocError>
        ensures { IfOk result (λ path. path ≡ with_names self (name ∷ [])) }
    {
        let ModulePath {
            origin,
            mut components,
        } = self;
        components.push(name)?;
        Ok(ModulePath { origin, components })
    }

    /// This path, and names behind it.
    pub fn join(self, suffix: Items<Text>) -> Result<ModulePath, AllocError>
        ensures { IfOk result (λ path. path ≡ with_names self suffix) }
    {
        let ModulePath { origin, components } = self;
        let components = chained(components, suffix)?;
        Ok(ModulePath { origin, components })
    }

    /// A path as it is meant in the module of this path. A relative one goes as many levels up as it has `super`: as many of the last
    /// names go, but nothing is above a root, and a relative path takes what is left over as more `super`, up to `usize::MAX`. Then
    /// the names of the other path follow. A path that isn't relative is the answer itself.
    pub fn join_path(&self, alloc: Global, suffix: &ModulePath) -> Result<ModulePath, AllocError>
        ensures { IfOk result (λ path. path ≡ joined self.now suffix.now) }
    {
        match &suffix.origin {
            PathOrigin::Absolute | PathOrigin::Package(_) => suffix.clone_in(alloc),
            PathOrigin::Relative(supers) => {
                let ModulePath { origin, components } = self.up(alloc, *supers)?;
                let components = with_copies(alloc, components, suffix.components.as_slice())?;
                Ok(ModulePath { origin, components })
            }
        }
    }

    fn up(&self, alloc: Global, levels: usize) -> Result<ModulePath, AllocError>
        ensures { IfOk result (λ path. path ≡ path_up levels self.now) }
    {
        let names = self.components.as_slice();
        let kept = names.len().saturating_sub(levels);
        let left_over = levels.saturating_sub(names.len());
        let components = with_copies(alloc, Items::new(alloc), &names[..kept])?;
        Ok(ModulePath {
            origin: self.origin.up(alloc, left_over)?,
            components,
        })
    }

    /// Whether this path has the other's origin, and its names begin with the other's.
    pub fn starts_with(&self, prefix: &ModulePath) -> bool
        ensures { IsTrue result ↔ StartsWith self.now prefix.now }
    {
        self.origin == prefix.origin
            && begins_with(self.components.as_slice(), prefix.components.as_slice())
    }
}

impl PathOrigin {
    fn up(&self, alloc: Global, levels: usize) -> Result<PathOrigin, AllocError>
        ensures { IfOk result (λ origin. origin ≡ origin_above levels self.now) }
    {
        match self {
            PathOrigin::Relative(supers) => {
                Ok(PathOrigin::Relative(supers.saturating_add(levels)))
            }
            PathOrigin::Absolute | PathOrigin::Package(_) => self.clone_in(alloc),
        }
    }
}

/// A list, and another behind it.
fn chained(names: Items<Text>, more: Items<Text>) -> Result<Items<Text>, AllocError>
    ensures { IfOk result (λ chained. chained ≡ names ++ more) }
{
    let mut chained = names;
    for name in more.into_vec() {
        chained.push(name)?;
    }
    Ok(chained)
}

/// A list, and copies of more behind it.
fn with_copies(alloc: Global, names: Items<Text>, more: &[Text]) -> Result<Items<Text>, AllocError>
    ensures { IfOk result (λ all. all ≡ names ++ more.now) }
{
    let mut all = names;
    for name in more {
        all.push(name.clone_in(alloc)?)?;
    }
    Ok(all)
}

fn begins_with(names: &[Text], first: &[Text]) -> bool
    ensures { IsTrue result ↔ BeginsWith names.now first.now }
{
    first.len() <= names.len() && &names[..first.len()] == first
}
