//! What is asked of one of several resolvers.

ghost use Rattle.std.specs.Prelude.{◌≡◌, IfOk, slice_get};
ghost use Rattle.wesl_resolvers.specs.Found.{TellsUnit, TellsText};
ghost use Rattle.wesl_router.specs.Choice.{rest_behind};
ghost use Rattle.wesl_router.specs.Telling.{ToldOf, NotFoundAt};
ghost use Rattle.wesl_router.specs.Routing.{asked_of, answered, texted, named, IsSame, Alike, AreAlike};

use crate::choice::{Served, rest_of};
use std::alloc::{AllocError, Global};
use wesl_resolvers::{ResolveError, Resolver};
use wgsl_base::{CloneIn, Text};
use wgsl_declarations::TranslationUnit;
use wgsl_path::ModulePath;

/// What a mount refused, told of the path that was asked for.
fn told_of(alloc: Global, path: &ModulePath, error: ResolveError) -> ResolveError
    ensures { ToldOf path.now error result }
{
    let path = match path.clone_in(alloc) {
        Ok(path) => path,
        Err(AllocError) => return ResolveError::OutOfMemory,
    };
    match error {
        ResolveError::ModuleNotFound(_) => ResolveError::ModuleNotFound(path),
        ResolveError::Syntax(_, error) => ResolveError::Syntax(path, error),
        ResolveError::GaveUp(_, refusal) => ResolveError::GaveUp(path, refusal),
        ResolveError::Condition(_, error) => ResolveError::Condition(path, error),
        ResolveError::ConditionLeft(_) => ResolveError::ConditionLeft(path),
        ResolveError::OutOfMemory => ResolveError::OutOfMemory,
    }
}

fn not_found(alloc: Global, path: &ModulePath) -> ResolveError
    ensures { NotFoundAt path.now result }
{
    match path.clone_in(alloc) {
        Ok(path) => ResolveError::ModuleNotFound(path),
        Err(AllocError) => ResolveError::OutOfMemory,
    }
}

/// The module of one of several resolvers, of which the others stay.
pub(crate) fn module_at<R: Resolver>(
    alloc: Global,
    mounts: &mut Vec<R>,
    served: Served,
    path: &ModulePath,
) -> Result<TranslationUnit, ResolveError>
    ensures told { TellsUnit (answered R.answers (asked_of (slice_get mounts.old.items served.place) (rest_behind served.names path.now))) path.now result }
    ensures same { AreAlike (IsSame R.answers R.texts R.display_names) mounts.old.items mounts.new.items }
{
    let rest = rest_of(alloc, path, served.names)?;
    if served.place < mounts.len() {
        match mounts[served.place].resolve_module(alloc, &rest) {
            Ok(unit) => Ok(unit),
            Err(error) => Err(told_of(alloc, path, error)),
        }
    } else {
        Err(not_found(alloc, path))
    }
}

pub(crate) fn source_at<R: Resolver>(
    alloc: Global,
    mounts: &mut Vec<R>,
    served: Served,
    path: &ModulePath,
) -> Result<Text, ResolveError>
    ensures told { TellsText (answered R.answers (asked_of (slice_get mounts.old.items served.place) (rest_behind served.names path.now))) (texted R.texts (asked_of (slice_get mounts.old.items served.place) (rest_behind served.names path.now))) path.now result }
    ensures same { AreAlike (IsSame R.answers R.texts R.display_names) mounts.old.items mounts.new.items }
{
    let rest = rest_of(alloc, path, served.names)?;
    if served.place < mounts.len() {
        match mounts[served.place].resolve_source(alloc, &rest) {
            Ok(text) => Ok(text),
            Err(error) => Err(told_of(alloc, path, error)),
        }
    } else {
        Err(not_found(alloc, path))
    }
}

pub(crate) fn name_at<R: Resolver>(
    alloc: Global,
    mounts: &mut Vec<R>,
    served: Served,
    path: &ModulePath,
) -> Result<Option<Text>, AllocError>
    ensures told { IfOk result (λ name. name ≡ named R.display_names (asked_of (slice_get mounts.old.items served.place) (rest_behind served.names path.now))) }
    ensures same { AreAlike (IsSame R.answers R.texts R.display_names) mounts.old.items mounts.new.items }
{
    let rest = rest_of(alloc, path, served.names)?;
    if served.place < mounts.len() {
        mounts[served.place].display_name(alloc, &rest)
    } else {
        Ok(None)
    }
}

/// The module of a resolver, where there is one.
pub(crate) fn module_behind<R: Resolver>(
    alloc: Global,
    fallback: &mut Option<R>,
    path: &ModulePath,
) -> Result<TranslationUnit, ResolveError>
    ensures told { TellsUnit (answered R.answers (asked_of fallback.old path.now)) path.now result }
    ensures same { Alike (IsSame R.answers R.texts R.display_names) fallback.old fallback.new }
{
    match fallback {
        Some(resolver) => resolver.resolve_module(alloc, path),
        None => Err(not_found(alloc, path)),
    }
}

pub(crate) fn source_behind<R: Resolver>(
    alloc: Global,
    fallback: &mut Option<R>,
    path: &ModulePath,
) -> Result<Text, ResolveError>
    ensures told { TellsText (answered R.answers (asked_of fallback.old path.now)) (texted R.texts (asked_of fallback.old path.now)) path.now result }
    ensures same { Alike (IsSame R.answers R.texts R.display_names) fallback.old fallback.new }
{
    match fallback {
        Some(resolver) => resolver.resolve_source(alloc, path),
        None => Err(not_found(alloc, path)),
    }
}

pub(crate) fn name_behind<R: Resolver>(
    alloc: Global,
    fallback: &mut Option<R>,
    path: &ModulePath,
) -> Result<Option<Text>, AllocError>
    ensures told { IfOk result (λ name. name ≡ named R.display_names (asked_of fallback.old path.now)) }
    ensures same { Alike (IsSame R.answers R.texts R.display_names) fallback.old fallback.new }
{
    match fallback {
        Some(resolver) => resolver.display_name(alloc, path),
        None => Ok(None),
    }
}
