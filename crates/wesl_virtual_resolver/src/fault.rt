//! Faults of texts, as a resolver tells them.

ghost use Rattle.wesl_virtual_resolver.specs.Refused.{RefusedAs};

use std::alloc::Global;
use wesl_resolvers::ResolveError;
use wgsl_base::CloneIn;
use wgsl_path::ModulePath;
use wgsl_token::fault::{Error, Refusal};

/// The fault of the text of the module at a path.
pub(crate) fn refusal(alloc: Global, path: &ModulePath, error: Error) -> ResolveError
    ensures { RefusedAs path.now error result }
{
    let Ok(path) = path.clone_in(alloc) else {
        return ResolveError::OutOfMemory;
    };
    match error.refusal() {
        None => ResolveError::Syntax(path, error),
        Some(Refusal::OutOfMemory) => ResolveError::OutOfMemory,
        Some(refusal) => ResolveError::GaveUp(path, refusal),
    }
}
