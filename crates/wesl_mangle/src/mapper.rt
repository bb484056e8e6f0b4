//! A source map that is made while modules are resolved and items are mangled.

ghost use Rattle.std.specs.Prelude.{◌≡◌, ◌↔◌, ℕ, List, Some, None, OnOk, OnErr, IsTrue};
ghost use Rattle.wgsl_path.specs.Paths.{path_text};
ghost use Rattle.wesl_resolve.specs.declared.source_map.BasicSourceMap.{BasicSourceMap as Map};
ghost use Rattle.wesl_resolve.specs.SourceMaps.{decl_at, source_at, display_name_at, IsSet};
ghost use Rattle.wesl_mangle.specs.Recorded.{IsRecorded, IsUnchangedMap};

use crate::mangler::Mangler;
use std::alloc::{AllocError, Global};
use wesl_resolve::BasicSourceMap;
use wesl_resolvers::{ResolveError, Resolver};
use wgsl_base::{CloneIn, Text};
use wgsl_declarations::{TranslationUnit, let_go};
use wgsl_path::ModulePath;

/// A resolver and a mangler, which answer as before, and the source map of what they were asked for: the text and the display name of
/// each path that was resolved, and each mangled pair. The text of the root is the default source.
#[derive(Debug, Drop)]
pub struct SourceMapper<R, M> {
    pub root: ModulePath,
    pub resolver: R,
    pub mangler: M,
    pub map: BasicSourceMap,
}

/// Whether a path is the root's.
#[tactic(auto, using(crate::proofs::Recording::same_path))]
fn is_root(path: &ModulePath, root: &ModulePath) -> bool
    ensures { IsTrue result ↔ (path.now ≡ root.now) }
{
    path == root
}

/// Records the text and the display name of the root, whose text is the default source. Where memory is refused nothing is changed.
fn keep_root(
    alloc: Global,
    map: &mut BasicSourceMap,
    path: &ModulePath,
    display_name: Option<Text>,
    text: Text,
) -> Result<(), AllocError>
    ensures text { OnOk result (IsSet (source_at map.old) (path_text path.now) (Some text) (source_at map.new)) }
    ensures name { OnOk result (IsSet (display_name_at map.old) (path_text path.now) display_name (display_name_at map.new)) }
    ensures default_source { OnOk result (map.new.default_source ≡ Some text) }
    ensures decls { OnOk result (map.new.decls ≡ map.old.decls) }
    ensures refused { OnErr result (IsUnchangedMap map.old map.new) }
{
    let copy = text.clone_in(alloc)?;
    map.add_source(path, display_name, text)?;
    map.set_default_source(copy);
    Ok(())
}

/// Records the text and the display name of a module. Where memory is refused nothing is changed.
#[tactic(auto, using(crate::proofs::Recording::root_recorded, crate::proofs::Recording::other_recorded))]
fn keep_source(
    alloc: Global,
    map: &mut BasicSourceMap,
    root: &ModulePath,
    path: &ModulePath,
    display_name: Option<Text>,
    text: Text,
) -> Result<(), AllocError>
    ensures recorded { OnOk result (IsRecorded root.now path.now display_name text map.old map.new) }
    ensures refused { OnErr result (IsUnchangedMap map.old map.new) }
{
    if is_root(path, root) {
        keep_root(alloc, map, path, display_name, text)?;
        return Ok(());
    }
    map.add_source(path, display_name, text)?;
    Ok(())
}

impl<R: Resolver, M: Mangler> SourceMapper<R, M> {
    ghost use Rattle.wesl_resolvers.specs.Found.{SameAnswers, SameTexts};
    ghost use Rattle.wesl_mangle.specs.Recorded.{TellsNoText};

    /// Nothing is recorded.
    pub fn new(alloc: Global, root: ModulePath, resolver: R, mangler: M) -> SourceMapper<R, M>
        ensures root { result.root ≡ root }
        ensures resolver { result.resolver ≡ resolver }
        ensures mangler { result.mangler ≡ mangler }
        ensures decls { (x : List ℕ) → decl_at result.map x ≡ None }
        ensures sources { (p : List ℕ) → source_at result.map p ≡ None }
        ensures default_source { result.map.default_source ≡ None }
    {
        SourceMapper {
            root,
            resolver,
            mangler,
            map: BasicSourceMap::new(alloc),
        }
    }

    /// The map of what was recorded.
    pub fn finish(self) -> BasicSourceMap
        ensures { result ≡ self.map }
    {
        let SourceMapper {
            root,
            resolver,
            mangler,
            map,
        } = self;
        drop(root);
        drop(resolver);
        drop(mangler);
        map
    }

    /// Records the text and the display name of a module that was resolved.
    #[tactic(auto, using(crate::proofs::Telling::text_refused, crate::proofs::Telling::two_same))]
    fn note(&mut self, alloc: Global, path: &ModulePath) -> Result<(), ResolveError>
        ensures told { TellsNoText (R.answers self.old.resolver path.now) path.now result }
        ensures same_answers { SameAnswers (R.answers self.old.resolver) (R.answers self.new.resolver) }
        ensures same_texts { SameTexts (R.texts self.old.resolver) (R.texts self.new.resolver) }
        ensures same_names { R.display_names self.new.resolver ≡ R.display_names self.old.resolver }
        ensures asked { R.asked self.new.resolver ≡ R.asked self.old.resolver }
        ensures same_reference { R.holds self.new.resolver ≡ R.holds self.old.resolver }
        ensures mangler { self.new.mangler ≡ self.old.mangler }
    {
        let text = self.resolver.resolve_source(alloc, path)?;
        let display_name = self.resolver.display_name(alloc, path)?;
        keep_source(alloc, &mut self.map, &self.root, path, display_name, text)?;
        Ok(())
    }
}

impl<R: Resolver, M: Mangler> Resolver for SourceMapper<R, M> {
    ghost answers = { λ m. R.answers m.resolver };

    ghost texts = { λ m. R.texts m.resolver };

    ghost display_names = { λ m. R.display_names m.resolver };

    ghost asked = { λ m. R.asked m.resolver };

    ghost holds = { λ m. R.holds m.resolver };

    #[tactic(auto, using(crate::proofs::Telling::two_same))]
    fn resolve_source(&mut self, alloc: Global, path: &ModulePath) -> Result<Text, ResolveError> {
        let text = self.resolver.resolve_source(alloc, path)?;
        let display_name = self.resolver.display_name(alloc, path)?;
        let copy = text.clone_in(alloc)?;
        keep_source(alloc, &mut self.map, &self.root, path, display_name, copy)?;
        Ok(text)
    }

    #[tactic(auto, using(crate::proofs::Telling::unit_refused, crate::proofs::Telling::two_same, crate::proofs::Telling::asks_still))]
    fn resolve_module(
        &mut self,
        alloc: Global,
        path: &ModulePath,
    ) -> Result<TranslationUnit, ResolveError> {
        match self.resolver.resolve_module(alloc, path) {
            Ok(unit) => match self.note(alloc, path) {
                Ok(()) => Ok(unit),
                Err(error) => {
                    let_go(unit);
                    Err(error)
                }
            },
            Err(error) => Err(error),
        }
    }

    fn display_name(
        &mut self,
        alloc: Global,
        path: &ModulePath,
    ) -> Result<Option<Text>, AllocError> {
        self.resolver.display_name(alloc, path)
    }

    ghost one_answer = { λ m. R.one_answer m.resolver };

    ghost one_text = { λ m. R.one_text m.resolver };

    ghost text_of_unit = { λ m. R.text_of_unit m.resolver };
}

impl<R: Resolver, M: Mangler> Mangler for SourceMapper<R, M> {
    ghost names = { λ m. M.names m.mangler };

    ghost unmangled = { λ m. M.unmangled m.mangler };

    ghost holds = { λ m. M.holds m.mangler };

    fn mangle(&mut self, alloc: Global, path: &ModulePath, item: &str) -> Result<Text, AllocError> {
        let name = self.mangler.mangle(alloc, path, item)?;
        self.map.add_decl(name.as_str(), path, item)?;
        Ok(name)
    }

    fn unmangle(
        &mut self,
        alloc: Global,
        name: &str,
    ) -> Result<Option<(ModulePath, Text)>, AllocError> {
        self.mangler.unmangle(alloc, name)
    }
}
