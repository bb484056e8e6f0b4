//! What loading is refused for, as the calls tell it.

use wesl_module_index::ImportError;
use wesl_resolvers::ResolveError;
use weslc_errors::{CompileError, ErrorContext, ImportKind, ResolveKind};

/// The refusal of a module by its resolver.
pub fn of_resolve(error: ResolveError) -> CompileError {
    match error {
        ResolveError::ModuleNotFound(path) => {
            CompileError::Resolve(ErrorContext::of_module(path), ResolveKind::ModuleNotFound)
        }
        ResolveError::Syntax(path, error) => {
            CompileError::Syntax(ErrorContext::of_module(path), error)
        }
        ResolveError::GaveUp(path, refusal) => {
            CompileError::GaveUp(ErrorContext::of_module(path), refusal)
        }
        ResolveError::Condition(path, error) => {
            CompileError::Condition(ErrorContext::of_module(path), error)
        }
        ResolveError::ConditionLeft(path) => {
            CompileError::ConditionLeft(ErrorContext::of_module(path))
        }
        ResolveError::OutOfMemory => CompileError::OutOfMemory,
    }
}

/// The refusal of loading.
pub(crate) fn of_import(error: ImportError) -> CompileError {
    match error {
        ImportError::DuplicateSymbol(path, name) => {
            CompileError::Import(
                ErrorContext::of_item(path, name),
                ImportKind::DuplicateSymbol,
            )
        }
        ImportError::MissingDecl(path, name) => {
            CompileError::Import(ErrorContext::of_item(path, name), ImportKind::MissingDecl)
        }
        ImportError::Private(path, name) => {
            CompileError::Import(ErrorContext::of_item(path, name), ImportKind::Private)
        }
        ImportError::Resolve(error) => of_resolve(error),
        ImportError::TooManyModules(path) => {
            CompileError::TooManyModules(ErrorContext::of_module(path))
        }
        ImportError::OutOfMemory => CompileError::OutOfMemory,
    }
}
