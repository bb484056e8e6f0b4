//! Reading the files that a call asks for.

use crate::files::Folders;
use crate::gathering::loading::{Loading, Stop};
use crate::gathering::sources::Sources;
use std::alloc::{AllocError, Global};
use std::rt::Files;
use wesl_conditions::Features;
use wesl_load::HeldUnit;
use wesl_preprocess::{Conditions, Preprocessor};
use wesl_reachability::Asked;
use wesl_resolvers::{ResolveError, Resolver};
use weslc_run::{EvalExpression, OWN_NAME};
use wgsl_base::{CloneIn, Items, Text};
use wgsl_path::ModulePath;

/// What a call is asked for.
#[derive(Clone, Copy)]
pub struct Wanted<'a, 'r> {
    pub root: &'a ModulePath,
    /// What the feature flags of conditions are set to.
    pub features: &'a Features,
    /// The names of the root that are kept; where there is none, its entry points are.
    pub keep: &'a [Text],
    /// Whether all declarations of loaded modules count as reached.
    pub is_eager: bool,
    /// How many modules may be loaded, the root counted.
    pub max_modules: u32,
    /// The entry point that is run: it is kept too.
    pub entry: Option<&'r str>,
    /// The expression that is evaluated: a const at the end of the root stands for it, and is kept alone.
    pub expression: Option<&'r str>,
}

/// Reads the files of the modules that a call asks for, round by round as the call loads them, beside the root, which was read. Where it
/// ends early, as at a file that can't be read, the call itself says why.
pub fn gather<R: Files + AllocGlobal>(
    rt: &R,
    folders: &Folders,
    sources: &mut Sources,
    wanted: Wanted<'_, '_>,
) -> Result<(), AllocError> {
    match load_rounds(rt, folders, sources, wanted) {
        Ok(()) | Err(Stop::Fault) => Ok(()),
        Err(Stop::OutOfMemory) => Err(AllocError),
    }
}

/// The module at a path, its conditions decided.
fn decided(
    alloc: Global,
    sources: &mut Sources,
    features: &Features,
    path: &ModulePath,
) -> Result<HeldUnit, ResolveError> {
    let mut decided = Preprocessor::new(&mut sources.resolver, Conditions { features });
    match decided.resolve_module(alloc, path) {
        Ok(unit) => Ok(HeldUnit::new(unit)),
        Err(error) => Err(error),
    }
}

/// Adds the const that stands for an expression to the root.
fn append_question(alloc: Global, unit: &mut HeldUnit, expression: &str) -> Result<(), Stop> {
    match EvalExpression::parse(alloc, expression) {
        Ok(question) => Ok(question.append(alloc, unit.get_mut())?),
        Err(_) => Err(Stop::Fault),
    }
}

/// The names of the root that are kept.
fn kept_names(alloc: Global, wanted: Wanted<'_, '_>) -> Result<Items<Text>, AllocError> {
    let mut keep = Items::new(alloc);
    if wanted.expression.is_some() {
        keep.push(Text::from_str(alloc, OWN_NAME)?)?;
        return Ok(keep);
    }
    for name in wanted.keep {
        keep.push(name.clone_in(alloc)?)?;
    }
    if let Some(entry) = wanted.entry {
        keep.push(Text::from_str(alloc, entry)?)?;
    }
    Ok(keep)
}

/// The root, loaded.
fn loaded_root(
    alloc: Global,
    sources: &mut Sources,
    wanted: Wanted<'_, '_>,
) -> Result<Loading, Stop> {
    let keep = kept_names(alloc, wanted)?;
    let mut unit = decided(alloc, sources, wanted.features, wanted.root)?;
    if let Some(expression) = wanted.expression {
        append_question(alloc, &mut unit, expression)?;
    }
    Loading::new(alloc, wanted.root, unit, keep.as_slice(), wanted.is_eager)
}

fn load_rounds<R: Files + AllocGlobal>(
    rt: &R,
    folders: &Folders,
    sources: &mut Sources,
    wanted: Wanted<'_, '_>,
) -> Result<(), Stop> {
    let mut loading = loaded_root(rt.alloc(), sources, wanted)?;
    let mut asked = loading.close()?;
    for _round in 1..wanted.max_modules {
        if asked.is_empty() {
            break;
        }
        let first = loading.modules.len();
        load_asked(rt, folders, sources, wanted, &mut loading, &asked)?;
        loading.seek(first, &asked)?;
        asked = loading.close()?;
    }
    Ok(())
}

/// Loads the modules that are asked for, in byte order of their printed paths.
fn load_asked<R: Files + AllocGlobal>(
    rt: &R,
    folders: &Folders,
    sources: &mut Sources,
    wanted: Wanted<'_, '_>,
    loading: &mut Loading,
    asked: &Asked,
) -> Result<(), Stop> {
    for target in asked.modules.values() {
        if loading.modules.len() >= wanted.max_modules as usize {
            return Err(Stop::Fault);
        }
        let path = &target.path;
        sources.read(rt, folders, path)?;
        let unit = decided(rt.alloc(), sources, wanted.features, path)?;
        loading.add(path, unit)?;
    }
    Ok(())
}
