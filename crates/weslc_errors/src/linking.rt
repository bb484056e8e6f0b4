//! Modules that are loaded, mapped and linked.

ghost use Rattle.std.specs.Prelude.{◌≡◌, ◌<◌, List, [], ◌∷◌, map, IfOk, IfErr, OnOk};
ghost use Rattle.wgsl_path.specs.Paths.{path_text};
ghost use Rattle.core_syntax.specs.View.{unit_tree};
ghost use Rattle.wesl_resolve.specs.Found.{unit_of, SameAnswers, SameTexts, HasAsked};
ghost use Rattle.core_link_spec.specs.Occurrences.{Name};
ghost use Rattle.wgsl_path.specs.declared.path.ModulePath.{ModulePath as Path};
ghost use Rattle.core_laws.specs.Headline.{IsLinkedFrom};
ghost use Rattle.weslc_errors.specs.Mapped.{IsFound, AreAllFound, AreFound, HasText, HaveTexts, HasOnly, AddsOnly, HasNames, HasDefault};
ghost use Rattle.weslc_errors.specs.Asked.{AreAsked, AreAskedAsLoaded};
ghost use Rattle.core_reach.specs.Asking.{AsksForOne};
ghost use Rattle.core_reach.specs.Alone.{only, Alone};
ghost use Rattle.weslc_errors.specs.Answers.{RefusesLinking, AreTablesOf, IsMapped, TellsTables, IsToldFrom};

use crate::error::CompileError;
use crate::options::Options;
use core_link::{BasicSourceMap, Resolutions, Resolver, resolve_lazy};
use core_syntax::TranslationUnit;
use std::alloc::Global;
use wgsl_path::ModulePath;

/// The one unit that modules are linked into, and the map from it back to them.
#[derive(Drop)]
pub struct Linked {
    pub unit: TranslationUnit,
    pub map: BasicSourceMap,
}

/// What is linked, or the first fault of linking: too many modules, one that isn't found, one whose text is no module's, a
/// name that is declared twice, missing or private, or a name that is read otherwise than meant.
pub fn linked_unit<R: Resolver>(
    alloc: Global,
    resolver: &mut R,
    root: &ModulePath,
    options: &Options,
) -> Result<Linked, CompileError>
    ensures unit { IfOk result (λ linked. IsLinkedFrom (R.answers resolver.old) (path_text root.now) options.now.keep options.now.max_modules (unit_tree linked.unit)) }
    ensures map { IfOk result (λ linked. IsMapped (R.answers resolver.old) (path_text root.now) options.now.keep options.now.max_modules (R.texts resolver.old) linked.map) }
    ensures names { IfOk result (λ linked. HasNames (R.display_names resolver.old) linked.map) }
    ensures told { IfOk result (λ linked. IsToldFrom (R.answers resolver.old) (path_text root.now) options.now.keep options.now.max_modules (unit_tree linked.unit) linked.map) }
    ensures refusal { IfErr result (RefusesLinking (R.answers resolver.old) (path_text root.now) options.now.keep options.now.max_modules) }
    ensures asked { AreAsked (R.answers resolver.old) (path_text root.now) options.now.keep options.now.max_modules (R.asked resolver.old) (R.asked resolver.new) }
    ensures all_asked { OnOk result (AreAskedAsLoaded (R.answers resolver.old) (path_text root.now) options.now.keep options.now.max_modules (R.asked resolver.old) (R.asked resolver.new)) }
    ensures alone_map { Alone (R.asked resolver.old) (R.asked resolver.new) (λ inside. IfOk result (λ linked. IsMapped (only inside (R.answers resolver.old)) (path_text root.now) options.now.keep options.now.max_modules (R.texts resolver.old) linked.map)) }
    ensures alone_told { Alone (R.asked resolver.old) (R.asked resolver.new) (λ inside. IfOk result (λ linked. IsToldFrom (only inside (R.answers resolver.old)) (path_text root.now) options.now.keep options.now.max_modules (unit_tree linked.unit) linked.map)) }
    ensures alone_refusal { Alone (R.asked resolver.old) (R.asked resolver.new) (λ inside. IfErr result (RefusesLinking (only inside (R.answers resolver.old)) (path_text root.now) options.now.keep options.now.max_modules)) }
    ensures same_answers { SameAnswers (R.answers resolver.old) (R.answers resolver.new) }
    ensures same_texts { SameTexts (R.texts resolver.old) (R.texts resolver.new) }
    ensures same_names { R.display_names resolver.new ≡ R.display_names resolver.old }
    ensures same_reference { R.holds resolver.new ≡ R.holds resolver.old }
{
    let (resolutions, map) = load_and_map(alloc, resolver, root, options)?;
    let unit = resolutions.assemble(alloc)?;
    Ok(Linked { unit, map })
}

/// The modules that the kept names of the root lead to, where no name clashes, and the map of what is linked of them.
fn load_and_map<R: Resolver>(
    alloc: Global,
    resolver: &mut R,
    root: &ModulePath,
    options: &Options,
) -> Result<(Resolutions, BasicSourceMap), CompileError>
    ensures tables { IfOk result (λ answer. AreTablesOf (R.answers resolver.old) (path_text root.now) options.now.keep options.now.max_modules answer.0) }
    ensures map { IfOk result (λ answer. IsMapped (R.answers resolver.old) (path_text root.now) options.now.keep options.now.max_modules (R.texts resolver.old) answer.1) }
    ensures names { IfOk result (λ answer. HasNames (R.display_names resolver.old) answer.1) }
    ensures decls { IfOk result (λ answer. TellsTables answer.0 answer.1) }
    ensures refusal { IfErr result (RefusesLinking (R.answers resolver.old) (path_text root.now) options.now.keep options.now.max_modules) }
    ensures asked { AreAsked (R.answers resolver.old) (path_text root.now) options.now.keep options.now.max_modules (R.asked resolver.old) (R.asked resolver.new) }
    ensures all_asked { OnOk result (AreAskedAsLoaded (R.answers resolver.old) (path_text root.now) options.now.keep options.now.max_modules (R.asked resolver.old) (R.asked resolver.new)) }
    ensures alone_tables { Alone (R.asked resolver.old) (R.asked resolver.new) (λ inside. IfOk result (λ answer. AreTablesOf (only inside (R.answers resolver.old)) (path_text root.now) options.now.keep options.now.max_modules answer.0)) }
    ensures alone_map { Alone (R.asked resolver.old) (R.asked resolver.new) (λ inside. IfOk result (λ answer. IsMapped (only inside (R.answers resolver.old)) (path_text root.now) options.now.keep options.now.max_modules (R.texts resolver.old) answer.1)) }
    ensures alone_refusal { Alone (R.asked resolver.old) (R.asked resolver.new) (λ inside. IfErr result (RefusesLinking (only inside (R.answers resolver.old)) (path_text root.now) options.now.keep options.now.max_modules)) }
    ensures same_answers { SameAnswers (R.answers resolver.old) (R.answers resolver.new) }
    ensures same_texts { SameTexts (R.texts resolver.old) (R.texts resolver.new) }
    ensures same_names { R.display_names resolver.new ≡ R.display_names resolver.old }
    ensures same_reference { R.holds resolver.new ≡ R.holds resolver.old }
{
    let resolutions = loaded(alloc, resolver, root, options)?;
    let map = source_map(alloc, resolver, root, &resolutions)?;
    Ok((resolutions, map))
}

/// The modules that the kept names of the root lead to, where no name clashes.
fn loaded<R: Resolver>(
    alloc: Global,
    resolver: &mut R,
    root: &ModulePath,
    options: &Options,
) -> Result<Resolutions, CompileError>
    ensures tables { IfOk result (AreTablesOf (R.answers resolver.old) (path_text root.now) options.now.keep options.now.max_modules) }
    ensures refusal { IfErr result (RefusesLinking (R.answers resolver.old) (path_text root.now) options.now.keep options.now.max_modules) }
    ensures asked { AreAsked (R.answers resolver.old) (path_text root.now) options.now.keep options.now.max_modules (R.asked resolver.old) (R.asked resolver.new) }
    ensures all_asked { OnOk result (AreAskedAsLoaded (R.answers resolver.old) (path_text root.now) options.now.keep options.now.max_modules (R.asked resolver.old) (R.asked resolver.new)) }
    ensures alone_tables { Alone (R.asked resolver.old) (R.asked resolver.new) (λ inside. IfOk result (AreTablesOf (only inside (R.answers resolver.old)) (path_text root.now) options.now.keep options.now.max_modules)) }
    ensures alone_refusal { Alone (R.asked resolver.old) (R.asked resolver.new) (λ inside. IfErr result (RefusesLinking (only inside (R.answers resolver.old)) (path_text root.now) options.now.keep options.now.max_modules)) }
    ensures same_answers { SameAnswers (R.answers resolver.old) (R.answers resolver.new) }
    ensures same_texts { SameTexts (R.texts resolver.old) (R.texts resolver.new) }
    ensures same_names { R.display_names resolver.new ≡ R.display_names resolver.old }
    ensures same_reference { R.holds resolver.new ≡ R.holds resolver.old }
{
    let unit = root_unit(alloc, resolver, root, options.max_modules)?;
    let keep = options.keep.as_slice();
    let resolutions = resolve_lazy(alloc, keep, unit, root, resolver, options.max_modules)?;
    match resolutions.names_clash(alloc)? {
        Some(name) => Err(CompileError::name_clash(name)),
        None => Ok(resolutions),
    }
}

/// The root's unit.
fn root_unit<R: Resolver>(
    alloc: Global,
    resolver: &mut R,
    root: &ModulePath,
    max_modules: u32,
) -> Result<TranslationUnit, CompileError>
    ensures unit { IfOk result (λ unit. R.answers resolver.old (path_text root.now) (unit_of (unit_tree unit))) }
    ensures refusal { IfErr result (λ e. (asked : List Name) → RefusesLinking (R.answers resolver.old) (path_text root.now) asked max_modules e) }
    ensures asks { AsksForOne (R.asked resolver.old) 0 max_modules (path_text root.now) (R.asked resolver.new) }
    ensures asked { OnOk result ((0 < max_modules) × HasAsked (R.asked resolver.old) (path_text root.now ∷ []) (R.asked resolver.new)) }
    ensures alone { Alone (R.asked resolver.old) (R.asked resolver.new) (λ inside. IfErr result (λ e. (asked : List Name) → RefusesLinking (only inside (R.answers resolver.old)) (path_text root.now) asked max_modules e)) }
    ensures same_answers { SameAnswers (R.answers resolver.old) (R.answers resolver.new) }
    ensures same_texts { SameTexts (R.texts resolver.old) (R.texts resolver.new) }
    ensures same_names { R.display_names resolver.new ≡ R.display_names resolver.old }
    ensures same_reference { R.holds resolver.new ≡ R.holds resolver.old }
{
    if max_modules == 0 {
        return Err(CompileError::too_many_modules(alloc, root)?);
    }
    Ok(resolver.resolve_module(alloc, root)?)
}

/// The map of what is linked: the held symbols under their names in the linked unit, the loaded modules, and the root's text
/// as default.
fn source_map<R: Resolver>(
    alloc: Global,
    resolver: &mut R,
    root: &ModulePath,
    resolutions: &Resolutions,
) -> Result<BasicSourceMap, CompileError>
    ensures memory { AreFound (R.answers resolver.old) (path_text root.now) (map (λ e. e.1.path) resolutions.now.modules.entries) → IfErr result (λ e. e ≡ CompileError.OutOfMemory) }
    ensures texts { IfOk result (λ new. HaveTexts (R.texts resolver.old) new (map (λ e. e.1.path) resolutions.now.modules.entries)) }
    ensures default_source { IfOk result (HasDefault (R.texts resolver.old) (path_text root.now)) }
    ensures only { IfOk result (λ new. HasOnly new (map (λ e. e.1.path) resolutions.now.modules.entries)) }
    ensures names { IfOk result (HasNames (R.display_names resolver.old)) }
    ensures decls { IfOk result (TellsTables resolutions.now) }
    ensures same_answers { SameAnswers (R.answers resolver.old) (R.answers resolver.new) }
    ensures same_texts { SameTexts (R.texts resolver.old) (R.texts resolver.new) }
    ensures same_names { R.display_names resolver.new ≡ R.display_names resolver.old }
    ensures same_reference { R.holds resolver.new ≡ R.holds resolver.old }
    ensures same_asked { R.asked resolver.new ≡ R.asked resolver.old }
{
    let mut map = BasicSourceMap::new(alloc);
    resolutions.add_decls(&mut map)?;
    let paths = resolutions.paths(alloc)?;
    add_sources(alloc, resolver, paths.as_slice(), &mut map)?;
    map.set_default_source(resolver.resolve_source(alloc, root)?);
    Ok(map)
}

/// Records the texts of modules.
fn add_sources<R: Resolver>(
    alloc: Global,
    resolver: &mut R,
    paths: &[&ModulePath],
    recorded: &mut BasicSourceMap,
) -> Result<(), CompileError>
    ensures memory { AreAllFound (R.answers resolver.old) (map (λ p. p.now) paths.now) → IfErr result (λ e. e ≡ CompileError.OutOfMemory) }
    ensures texts { OnOk result (HaveTexts (R.texts resolver.old) recorded.new (map (λ p. p.now) paths.now)) }
    ensures only { OnOk result (AddsOnly (map (λ p. p.now) paths.now) recorded.old recorded.new) }
    ensures names { OnOk result (HasNames (R.display_names resolver.old) recorded.old → HasNames (R.display_names resolver.old) recorded.new) }
    ensures decls { recorded.new.decls ≡ recorded.old.decls }
    ensures same_answers { SameAnswers (R.answers resolver.old) (R.answers resolver.new) }
    ensures same_texts { SameTexts (R.texts resolver.old) (R.texts resolver.new) }
    ensures same_names { R.display_names resolver.new ≡ R.display_names resolver.old }
    ensures same_reference { R.holds resolver.new ≡ R.holds resolver.old }
    ensures same_asked { R.asked resolver.new ≡ R.asked resolver.old }
{
    for path in paths {
        add_source(alloc, resolver, path, recorded)?;
    }
    Ok(())
}

fn add_source<R: Resolver>(
    alloc: Global,
    resolver: &mut R,
    path: &ModulePath,
    recorded: &mut BasicSourceMap,
) -> Result<(), CompileError>
    ensures memory { IsFound (R.answers resolver.old) (path_text path.now) → IfErr result (λ e. e ≡ CompileError.OutOfMemory) }
    ensures text { OnOk result (HasText (R.texts resolver.old) recorded.new path.now) }
    ensures texts { OnOk result ((q : Path) → HasText (R.texts resolver.old) recorded.old q → HasText (R.texts resolver.old) recorded.new q) }
    ensures only { OnOk result (AddsOnly (path.now ∷ []) recorded.old recorded.new) }
    ensures names { OnOk result (HasNames (R.display_names resolver.old) recorded.old → HasNames (R.display_names resolver.old) recorded.new) }
    ensures decls { recorded.new.decls ≡ recorded.old.decls }
    ensures same_answers { SameAnswers (R.answers resolver.old) (R.answers resolver.new) }
    ensures same_texts { SameTexts (R.texts resolver.old) (R.texts resolver.new) }
    ensures same_names { R.display_names resolver.new ≡ R.display_names resolver.old }
    ensures same_reference { R.holds resolver.new ≡ R.holds resolver.old }
    ensures same_asked { R.asked resolver.new ≡ R.asked resolver.old }
{
    let name = resolver.display_name(alloc, path)?;
    let text = resolver.resolve_source(alloc, path)?;
    recorded.add_source(path, name, text)?;
    Ok(())
}
