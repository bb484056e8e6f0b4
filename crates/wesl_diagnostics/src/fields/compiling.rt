//! Errors of linking, compiling and evaluating.

use crate::fields::condition::{flag_of, kind_of};
use crate::fields::kind::Kind;
use crate::fields::told::{Told, written};
use std::alloc::{AllocError, Global};
use weslc_bundle::{
    CompileError, CompileRefusal, CondCompError, ErrorContext, Fault, ImportKind, ResolveKind,
    eval_kind, syntax_kind, validate_kind,
};
use wgsl_base::Text;
use wgsl_path::ModulePath;
use wgsl_token::fault::Error;

fn resolve_kind(kind: ResolveKind) -> &'static str {
    match kind {
        ResolveKind::ModuleNotFound => "ModuleNotFound",
    }
}

fn import_kind(kind: ImportKind) -> &'static str {
    match kind {
        ImportKind::DuplicateSymbol => "DuplicateSymbol",
        ImportKind::MissingDecl => "MissingDecl",
        ImportKind::Private => "Private",
    }
}

/// The fields of the refusal of linking.
pub fn told_compile_error(alloc: Global, error: &CompileError) -> Result<Told, AllocError> {
    match error {
        CompileError::TooManyModules(context) => about(alloc, "TooManyModules", context),
        CompileError::Resolve(context, kind) => {
            inner(alloc, "Resolve", resolve_kind(*kind), context)
        }
        CompileError::Syntax(context, error) => syntax(alloc, context, *error),
        CompileError::GaveUp(context, refusal) => syntax(alloc, context, Error::refused(*refusal)),
        CompileError::Condition(context, error) => condition(alloc, context, error),
        CompileError::ConditionLeft(context) => about(alloc, "ConditionLeft", context),
        CompileError::Unsupported(context) => about(alloc, "Unsupported", context),
        CompileError::Import(context, kind) => inner(alloc, "Import", import_kind(*kind), context),
        CompileError::NameClash(context) => about(alloc, "NameClash", context),
        CompileError::Validate(context, kind) => {
            inner(alloc, "Validate", validate_kind(*kind), context)
        }
        CompileError::UnclearName(context) => about(alloc, "UnclearName", context),
        CompileError::Eval(context, fault) => inner(alloc, "Eval", eval_kind(fault), context),
        CompileError::Unprintable(context) => about(alloc, "Unprintable", context),
        CompileError::OutOfMemory => Told::of_kind(alloc, Kind::alone("OutOfMemory")),
    }
}

fn about(alloc: Global, family: &'static str, context: &ErrorContext) -> Result<Told, AllocError> {
    Told::of_context(alloc, Kind::alone(family), context, None)
}

fn inner(
    alloc: Global,
    family: &'static str,
    inner: &'static str,
    context: &ErrorContext,
) -> Result<Told, AllocError> {
    Told::of_context(alloc, Kind::inner(family, inner), context, None)
}

/// A text that is not read. What was printed and is not read again is no module's, and its place is left out.
fn syntax(alloc: Global, context: &ErrorContext, error: Error) -> Result<Told, AllocError> {
    let span = match &context.module {
        Some(_) => Some(error.span),
        None => None,
    };
    let kind = Kind::inner("Syntax", syntax_kind(error.kind));
    Told::of_context(alloc, kind, context, span)
}

/// The conditions of a module.
fn condition(
    alloc: Global,
    context: &ErrorContext,
    error: &CondCompError,
) -> Result<Told, AllocError> {
    let module = written::<ModulePath>(alloc, context.module.as_ref())?;
    let mut told = Told::of_subject::<Text>(alloc, kind_of(error), flag_of(error))?;
    told.module = module;
    Ok(told)
}

/// The fields of a fault of evaluation.
pub fn told_fault(
    alloc: Global,
    context: &ErrorContext,
    fault: &Fault,
) -> Result<Told, AllocError> {
    inner(alloc, "Eval", fault.kind(), context)
}

/// The fields of the refusal of a compilation.
pub fn told_compile_refusal(alloc: Global, refusal: &CompileRefusal) -> Result<Told, AllocError> {
    match refusal {
        CompileRefusal::Compile(error) => told_compile_error(alloc, error),
        CompileRefusal::Eval(context, fault) => told_fault(alloc, context, fault),
    }
}
