//! The first fault of a linked unit that needs no values.

use crate::link::LinkedModules;
use std::alloc::{AllocError, Global};
use wesl_module_index::{DeclarationId, Modules};
use wesl_validate::ValidateFault;
use weslc_errors::{CompileError, ErrorContext, ValidateError};
use wgsl_base::{CloneIn, OrOutOfMemory, Text};
use wgsl_words::builtin_names;

/// Whether a linked unit is faultless; else its first fault that needs no values. The declaration that holds its place is named as its
/// module names it.
pub fn validate(alloc: Global, linked: &LinkedModules) -> Result<(), CompileError> {
    match linked.outline.validate(alloc, builtin_names()) {
        Ok(()) => Ok(()),
        Err(OrOutOfMemory::Error(fault)) => Err(told(alloc, linked, fault)),
        Err(OrOutOfMemory::OutOfMemory) => Err(CompileError::OutOfMemory),
    }
}

/// Refuses the first name of a linked unit, in the order of its text, that lowering could capture: of a declaration, where another one has
/// it or the table of WGSL's names; of a local, where a declaration has it or the table.
pub fn check_clear(alloc: Global, linked: &LinkedModules) -> Result<(), CompileError> {
    match linked.outline.unclear_name(alloc, builtin_names())? {
        None => Ok(()),
        Some(name) => {
            let name = Text::from_str(alloc, name)?;
            Err(CompileError::UnclearName(ErrorContext::of_name(name)))
        }
    }
}

fn told(alloc: Global, linked: &LinkedModules, fault: ValidateFault) -> CompileError {
    let ValidateFault { kind, place, name } = fault;
    match context(alloc, &linked.modules, linked.origins.get(place), name) {
        Ok(context) => CompileError::Validate(context, kind_of(kind)),
        Err(AllocError) => CompileError::OutOfMemory,
    }
}

fn context(
    alloc: Global,
    modules: &Modules,
    origin: Option<&DeclarationId>,
    name: Text,
) -> Result<ErrorContext, AllocError> {
    let mut context = ErrorContext::of_name(name);
    if let Some(spot) = origin
        && let Some(module) = modules.get(spot.module)
    {
        context.module = Some(module.target.path.clone_in(alloc)?);
        context.decl = match module.name_at(spot.place) {
            None => None,
            Some(name) => Some(Text::from_str(alloc, name)?),
        };
    }
    Ok(context)
}

fn kind_of(kind: wesl_validate::ValidateError) -> ValidateError {
    match kind {
        wesl_validate::ValidateError::UndefinedSymbol => ValidateError::UndefinedSymbol,
        wesl_validate::ValidateError::ParamCount => ValidateError::ParamCount,
        wesl_validate::ValidateError::NotCallable => ValidateError::NotCallable,
        wesl_validate::ValidateError::Duplicate => ValidateError::Duplicate,
        wesl_validate::ValidateError::Cycle => ValidateError::Cycle,
    }
}
