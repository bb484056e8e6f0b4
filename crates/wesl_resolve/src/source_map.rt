//! From the linked unit back to the modules.

ghost use Rattle.std.specs.Prelude.{◌≡◌, ℕ, List, Option, Some, None, IfOk, OnOk, OnErr};
ghost use Rattle.std.specs.Option.{option_map, option_copied};
ghost use Rattle.wgsl_path.specs.declared.path.ModulePath.{ModulePath as Path};
ghost use Rattle.wgsl_path.specs.Paths.{path_text};
ghost use Rattle.wesl_resolve.specs.SourceMaps.{decl_at, source_at, display_name_at, IsSet, IsKept};

use std::alloc::{AllocError, Global};
use std::collections::HashMap;
use wgsl_base::{CloneIn, Text};
use wgsl_path::ModulePath;

/// From names and paths of the linked unit back to declarations and texts.
pub trait SourceMap {
    /// The module and the item that a name stands for.
    ghost decls: { Self → List ℕ → Option (Path × List ℕ) };

    /// The text of the module at a printed path, and the name that a message gives it.
    ghost sources: { Self → List ℕ → Option (List ℕ) };

    ghost display_names: { Self → List ℕ → Option (List ℕ) };

    ghost default_source: { Self → Option (List ℕ) };

    /// The module and the item that a name of the linked unit stands for.
    fn get_decl(&self, decl: &str) -> Option<(&ModulePath, &str)>
        ensures { option_map (λ found. (found.0.now, found.1.now)) result ≡ decls self.now decl.now };

    /// The text of a module.
    fn get_source(&self, alloc: Global, path: &ModulePath) -> Result<Option<&str>, AllocError>
        ensures { IfOk result (λ found. option_copied found ≡ sources self.now (path_text path.now)) };

    /// The name that a message gives a module.
    fn get_display_name(&self, alloc: Global, path: &ModulePath) -> Result<Option<&str>, AllocError>
        ensures { IfOk result (λ found. option_copied found ≡ display_names self.now (path_text path.now)) };

    /// The text that a place belongs to where no module is named.
    fn get_default_source(&self) -> Option<&str>
        ensures { option_copied result ≡ default_source self.now };
}

#[derive(Debug, Drop)]
struct SourceDecl {
    module: ModulePath,
    item: Text,
}

#[derive(Debug, Drop)]
struct Source {
    text: Text,
    display_name: Option<Text>,
}

/// A source map that holds what was recorded. Paths that print alike are one path.
#[derive(Debug, Drop)]
pub struct BasicSourceMap {
    alloc: Global,
    decls: HashMap<String, SourceDecl>,
    sources: HashMap<String, Source>,
    default_source: Option<Text>,
}

impl BasicSourceMap {
    /// An empty map.
    pub fn new(alloc: Global) -> BasicSourceMap
        ensures decls { (x : List ℕ) → decl_at result x ≡ None }
        ensures sources { (p : List ℕ) → source_at result p ≡ None }
        ensures default_source { result.default_source ≡ None }
    {
        BasicSourceMap {
            alloc,
            decls: HashMap::new(alloc),
            sources: HashMap::new(alloc),
            default_source: None,
        }
    }

    /// Records what a name of the linked unit stands for. Where memory is refused nothing is changed.
    pub fn add_decl(
        &mut self,
        decl: &str,
        module: &ModulePath,
        item: &str,
    ) -> Result<(), AllocError>
        ensures recorded { OnOk result (IsSet (decl_at self.old) decl.now (Some («module».now, item.now)) (decl_at self.new)) }
        ensures refused { OnErr result (IsKept (decl_at self.old) (decl_at self.new)) }
        ensures sources { self.new.sources ≡ self.old.sources }
        ensures default_source { self.new.default_source ≡ self.old.default_source }
    {
        let key = String::from_str(self.alloc, decl)?;
        let item = Text::from_str(self.alloc, item)?;
        let module = module.clone_in(self.alloc)?;
        let value = SourceDecl { module, item };
        drop(self.decls.insert(key, value)?);
        Ok(())
    }

    /// Records the text of a module and the name that a message gives it. Where memory is refused nothing is changed.
    pub fn add_source(
        &mut self,
        path: &ModulePath,
        display_name: Option<Text>,
        text: Text,
    ) -> Result<(), AllocError>
        ensures text { OnOk result (IsSet (source_at self.old) (path_text path.now) (Some text) (source_at self.new)) }
        ensures display_name { OnOk result (IsSet (display_name_at self.old) (path_text path.now) display_name (display_name_at self.new)) }
        ensures text_refused { OnErr result (IsKept (source_at self.old) (source_at self.new)) }
        ensures display_name_refused { OnErr result (IsKept (display_name_at self.old) (display_name_at self.new)) }
        ensures decls { self.new.decls ≡ self.old.decls }
        ensures default_source { self.new.default_source ≡ self.old.default_source }
    {
        let value = Source { text, display_name };
        drop(self.sources.insert(path.to_string(self.alloc)?, value)?);
        Ok(())
    }

    pub fn set_default_source(&mut self, text: Text)
        ensures { self.new ≡ record self.old { default_source = Some text } }
    {
        self.default_source = Some(text);
    }
}

impl SourceMap for BasicSourceMap {
    ghost use Rattle.wesl_resolve.specs.SourceMaps.{decl_at, source_at, display_name_at};

    ghost decls = { decl_at };

    ghost sources = { source_at };

    ghost display_names = { display_name_at };

    ghost default_source = { λ map. map.default_source };

    fn get_decl(&self, decl: &str) -> Option<(&ModulePath, &str)> {
        let found = self.decls.get(decl)?;
        Some((&found.module, found.item.as_str()))
    }

    fn get_source(&self, alloc: Global, path: &ModulePath) -> Result<Option<&str>, AllocError> {
        let text = path.to_string(alloc)?;
        match self.sources.get(text.as_str()) {
            None => Ok(None),
            Some(source) => Ok(Some(source.text.as_str())),
        }
    }

    fn get_display_name(
        &self,
        alloc: Global,
        path: &ModulePath,
    ) -> Result<Option<&str>, AllocError> {
        let text = path.to_string(alloc)?;
        match self.sources.get(text.as_str()) {
            None => Ok(None),
            Some(source) => match &source.display_name {
                None => Ok(None),
                Some(name) => Ok(Some(name.as_str())),
            },
        }
    }

    fn get_default_source(&self) -> Option<&str> {
        match &self.default_source {
            None => None,
            Some(text) => Some(text.as_str()),
        }
    }
}

/// What the map holds, where there is one.
impl<T: SourceMap> SourceMap for Option<T> {
    ghost use Rattle.std.specs.Option.{option_and_then};

    ghost decls = { λ m x. option_and_then (λ map. T.decls map x) m };

    ghost sources = { λ m p. option_and_then (λ map. T.sources map p) m };

    ghost display_names = { λ m p. option_and_then (λ map. T.display_names map p) m };

    ghost default_source = { λ m. option_and_then T.default_source m };

    fn get_decl(&self, decl: &str) -> Option<(&ModulePath, &str)> {
        match self {
            None => None,
            Some(map) => map.get_decl(decl),
        }
    }

    fn get_source(&self, alloc: Global, path: &ModulePath) -> Result<Option<&str>, AllocError> {
        match self {
            None => Ok(None),
            Some(map) => map.get_source(alloc, path),
        }
    }

    fn get_display_name(
        &self,
        alloc: Global,
        path: &ModulePath,
    ) -> Result<Option<&str>, AllocError> {
        match self {
            None => Ok(None),
            Some(map) => map.get_display_name(alloc, path),
        }
    }

    fn get_default_source(&self) -> Option<&str> {
        match self {
            None => None,
            Some(map) => map.get_default_source(),
        }
    }
}
