//! Loads what the kept names reach, a round of modules after another.

ghost use Rattle.std.specs.Prelude.{◌≡◌, [], ◌∷◌, length, IfOk, OnOk};
ghost use Rattle.std.specs.String.{string_cmp};
ghost use Rattle.std.specs.BTreeMap.{IsOrdered};
ghost use Rattle.wgsl_path.specs.Paths.{path_text};
ghost use Rattle.core_syntax.specs.View.{unit_tree};
ghost use Rattle.wesl_resolve.specs.Found.{SameAnswers, SameTexts, HasAsked};
ghost use Rattle.core_link_spec.specs.Kept.{kept_names};
ghost use Rattle.core_reach.specs.Loading.{LoadsOne, IsInsertedAt};
ghost use Rattle.core_reach.specs.Asking.{AsksForOne};
ghost use Rattle.core_reach.specs.Alone.{only, Alone, AsksMore};
ghost use Rattle.core_reach.specs.LoadingClauses.{LoadsFrom, AsksBehind, AsksThoseLoaded, RootLoads, RootAsks, RootAsksThose, RoundsLoad, RoundsAsk, RoundsAskThose, LoadsAsked, AsksAsked};

use crate::closing::{close_asked, close_root};
use crate::linking::{Asked, HeldNames, Linking};
use core_scopes::{ImportError, Module, Modules, entry_points};
use core_syntax::TranslationUnit;
use std::alloc::{AllocError, Global};
use wesl_resolve::Resolver;
use wgsl_base::{CloneIn, Items, Text};
use wgsl_path::ModulePath;

/// The modules that were loaded, and what is reached in them.
#[derive(Drop)]
pub struct Reached {
    pub modules: Modules,
    /// The root's printed path.
    pub root: String,
    pub held: HeldNames,
}

/// Loads the modules that the kept names of the root lead to. Where no name is kept, the root's entry points are.
///
/// The rounds: each takes the newly asked modules in byte order of their printed paths. Then the reached declarations are
/// closed over the loaded modules, and the first occurrence in them that denotes nothing is refused, by printed path and
/// then place. What is still asked for is the next round.
pub fn load_reached<R: Resolver>(
    alloc: Global,
    keep: &[Text],
    unit: TranslationUnit,
    path: &ModulePath,
    resolver: &mut R,
    max_modules: u32,
) -> Result<Reached, ImportError>
    ensures loading { LoadsFrom (R.answers resolver.old) path.now keep.now unit max_modules result }
    ensures asked { AsksBehind (R.answers resolver.old) path.now keep.now unit max_modules (R.asked resolver.old) (R.asked resolver.new) }
    ensures all_asked { AsksThoseLoaded (R.answers resolver.old) path.now keep.now unit max_modules (R.asked resolver.old) (R.asked resolver.new) result }
    ensures alone { Alone (R.asked resolver.old) (R.asked resolver.new) (λ inside. LoadsFrom (only inside (R.answers resolver.old)) path.now keep.now unit max_modules result) }
    ensures more { AsksMore (R.asked resolver.old) (R.asked resolver.new) }
    ensures same_answers { SameAnswers (R.answers resolver.old) (R.answers resolver.new) }
    ensures same_texts { SameTexts (R.texts resolver.old) (R.texts resolver.new) }
    ensures same_names { R.display_names resolver.new ≡ R.display_names resolver.old }
    ensures same_reference { R.holds resolver.new ≡ R.holds resolver.old }
{
    if max_modules == 0 {
        drop(unit);
        return Err(ImportError::TooManyModules(path.clone_in(alloc)?));
    }
    let root = path.to_string(alloc)?;
    let names = names_to_keep(alloc, keep, &unit)?;
    let module = Module::new(alloc, path, unit)?;
    load_from_root(
        alloc,
        resolver,
        names.as_slice(),
        path,
        root,
        module,
        max_modules,
    )
}

/// The root's round, and those behind it. The root's path prints as `root`.
fn load_from_root<R: Resolver>(
    alloc: Global,
    resolver: &mut R,
    keep: &[Text],
    path: &ModulePath,
    root: String,
    module: Module,
    max_modules: u32,
) -> Result<Reached, ImportError>
    ensures loading { RootLoads (R.answers resolver.old) path.now root «module» keep.now max_modules result }
    ensures asked { RootAsks (R.answers resolver.old) path.now root «module» keep.now max_modules (R.asked resolver.old) (R.asked resolver.new) }
    ensures all_asked { RootAsksThose (R.answers resolver.old) path.now root «module» keep.now max_modules (R.asked resolver.old) (R.asked resolver.new) result }
    ensures alone { Alone (R.asked resolver.old) (R.asked resolver.new) (λ inside. RootLoads (only inside (R.answers resolver.old)) path.now root «module» keep.now max_modules result) }
    ensures more { AsksMore (R.asked resolver.old) (R.asked resolver.new) }
    ensures same_answers { SameAnswers (R.answers resolver.old) (R.answers resolver.new) }
    ensures same_texts { SameTexts (R.texts resolver.old) (R.texts resolver.new) }
    ensures same_names { R.display_names resolver.new ≡ R.display_names resolver.old }
    ensures same_reference { R.holds resolver.new ≡ R.holds resolver.old }
{
    let mut modules = Modules::new(alloc);
    insert_module(alloc, &mut modules, root.as_str(), module)?;
    let mut held = HeldNames::new(alloc);
    let start = Linking {
        modules: &modules,
        root: root.as_str(),
        keep,
    };
    let asked = close_root(alloc, &start, path, &mut held)?;
    let reached = Reached {
        modules,
        root,
        held,
    };
    load_rounds(alloc, resolver, keep, reached, asked, max_modules)
}

/// The rounds behind the root's.
fn load_rounds<R: Resolver>(
    alloc: Global,
    resolver: &mut R,
    keep: &[Text],
    mut reached: Reached,
    mut asked: Asked,
    max_modules: u32,
) -> Result<Reached, ImportError>
    ensures loading { RoundsLoad (R.answers resolver.old) reached keep.now asked max_modules result }
    ensures asked { RoundsAsk (R.answers resolver.old) reached keep.now asked max_modules (R.asked resolver.old) (R.asked resolver.new) }
    ensures all_asked { RoundsAskThose (R.answers resolver.old) reached keep.now asked max_modules (R.asked resolver.old) (R.asked resolver.new) result }
    ensures alone { Alone (R.asked resolver.old) (R.asked resolver.new) (λ inside. RoundsLoad (only inside (R.answers resolver.old)) reached keep.now asked max_modules result) }
    ensures more { AsksMore (R.asked resolver.old) (R.asked resolver.new) }
    ensures same_answers { SameAnswers (R.answers resolver.old) (R.answers resolver.new) }
    ensures same_texts { SameTexts (R.texts resolver.old) (R.texts resolver.new) }
    ensures same_names { R.display_names resolver.new ≡ R.display_names resolver.old }
    ensures same_reference { R.holds resolver.new ≡ R.holds resolver.old }
{
    for _round in 1..max_modules {
        if asked.is_empty() {
            return Ok(reached);
        }
        load_all(alloc, resolver, &mut reached.modules, &asked, max_modules)?;
        let linking = Linking {
            modules: &reached.modules,
            root: reached.root.as_str(),
            keep,
        };
        asked = close_asked(alloc, &linking, &asked, &mut reached.held)?;
    }
    match asked.iter().next() {
        Some((_, module)) => Err(ImportError::TooManyModules(module.path.clone_in(alloc)?)),
        None => Ok(reached),
    }
}

fn names_to_keep(
    alloc: Global,
    keep: &[Text],
    unit: &TranslationUnit,
) -> Result<Items<Text>, AllocError>
    ensures { IfOk result (λ names. names ≡ kept_names keep.now (unit_tree unit.now)) }
{
    if keep.is_empty() {
        return Ok(Items::from_vec(entry_points(alloc, unit)?));
    }
    let mut names = Items::new(alloc);
    for name in keep {
        names.push(name.clone_in(alloc)?)?;
    }
    Ok(names)
}

/// Loads the modules that are asked for, in byte order of their printed paths.
fn load_all<R: Resolver>(
    alloc: Global,
    resolver: &mut R,
    modules: &mut Modules,
    asked: &Asked,
    max_modules: u32,
) -> Result<(), ImportError>
    ensures ordered { IsOrdered string_cmp asked.now }
    ensures loads { LoadsAsked (R.answers resolver.old) max_modules modules.old asked.now modules.new result }
    ensures asks { AsksAsked (R.answers resolver.old) max_modules (R.asked resolver.old) (R.asked resolver.new) modules.old asked.now modules.new result }
    ensures alone { Alone (R.asked resolver.old) (R.asked resolver.new) (λ inside. LoadsAsked (only inside (R.answers resolver.old)) max_modules modules.old asked.now modules.new result) }
    ensures more { AsksMore (R.asked resolver.old) (R.asked resolver.new) }
    ensures same_answers { SameAnswers (R.answers resolver.old) (R.answers resolver.new) }
    ensures same_texts { SameTexts (R.texts resolver.old) (R.texts resolver.new) }
    ensures same_names { R.display_names resolver.new ≡ R.display_names resolver.old }
    ensures same_reference { R.holds resolver.new ≡ R.holds resolver.old }
{
    for (text, module) in asked {
        load_one(
            alloc,
            resolver,
            modules,
            text.as_str(),
            &module.path,
            max_modules,
        )?;
    }
    Ok(())
}

/// Loads the module at a path, which prints so.
fn load_one<R: Resolver>(
    alloc: Global,
    resolver: &mut R,
    modules: &mut Modules,
    text: &str,
    path: &ModulePath,
    max_modules: u32,
) -> Result<(), ImportError>
    ensures loads { path_text path.now ≡ text.now → LoadsOne (R.answers resolver.old) max_modules modules.old path.now text.now modules.new result }
    ensures asks { AsksForOne (R.asked resolver.old) (length modules.old.entries) max_modules (path_text path.now) (R.asked resolver.new) }
    ensures asked { OnOk result (HasAsked (R.asked resolver.old) (path_text path.now ∷ []) (R.asked resolver.new)) }
    ensures alone { Alone (R.asked resolver.old) (R.asked resolver.new) (λ inside. path_text path.now ≡ text.now → LoadsOne (only inside (R.answers resolver.old)) max_modules modules.old path.now text.now modules.new result) }
    ensures same_answers { SameAnswers (R.answers resolver.old) (R.answers resolver.new) }
    ensures same_texts { SameTexts (R.texts resolver.old) (R.texts resolver.new) }
    ensures same_names { R.display_names resolver.new ≡ R.display_names resolver.old }
    ensures same_reference { R.holds resolver.new ≡ R.holds resolver.old }
{
    if modules.len() >= max_modules as usize {
        return Err(ImportError::TooManyModules(path.clone_in(alloc)?));
    }
    let unit = resolver.resolve_module(alloc, path)?;
    let module = Module::new(alloc, path, unit)?;
    insert_module(alloc, modules, text, module)?;
    Ok(())
}

fn insert_module(
    alloc: Global,
    modules: &mut Modules,
    text: &str,
    module: Module,
) -> Result<(), AllocError>
    ensures { OnOk result (IsInsertedAt modules.old text.now «module» modules.new) }
{
    drop(modules.insert(String::from_str(alloc, text)?, module)?);
    Ok(())
}
