//! All errors of a call.

use crate::fields::compiling::{told_compile_error, told_fault};
use crate::fields::condition::{flag_of, kind_of};
use crate::fields::kind::Kind;
use crate::fields::told::{Told, written};
use std::alloc::{AllocError, Global};
use weslc_bundle::{BundleError, Key, PrecompileError, RunRefusal, ServeError, syntax_kind};
use wgsl_base::Text;
use wgsl_path::ModulePath;
use wgsl_token::fault::Error;

/// The fields of the error of a call, as the line that `weslc` writes has them.
pub fn told_refusal(alloc: Global, refusal: &ServeError) -> Result<Told, AllocError> {
    match refusal {
        ServeError::Read => Told::of_kind(alloc, Kind::alone("Read")),
        ServeError::TooLong => told_bundle(alloc, Some("size")),
        ServeError::NoRoot => told_bundle(alloc, Some("root")),
        ServeError::OutOfMemory => Told::of_kind(alloc, Kind::alone("OutOfMemory")),
        ServeError::Bundle(error) => told_bundle_error(alloc, error),
        ServeError::Compile(error) => told_compile_error(alloc, error),
        ServeError::Eval(context, fault) => told_fault(alloc, context, fault),
        ServeError::Precompile(error) => told_precompile_error(alloc, error),
        ServeError::Run(refusal) => told_run_refusal(alloc, refusal),
    }
}

/// The fields of what a key does not take.
pub fn told_value(alloc: Global, key: Key) -> Result<Told, AllocError> {
    Told::of_subject::<Key>(alloc, Kind::alone("Bundle"), Some(&key))
}

fn told_bundle(alloc: Global, subject: Option<&str>) -> Result<Told, AllocError> {
    let mut told = Told::of_kind(alloc, Kind::alone("Bundle"))?;
    if let Some(subject) = subject {
        told.subject = Some(String::from_str(alloc, subject)?);
    }
    Ok(told)
}

fn told_bundle_error(alloc: Global, error: &BundleError) -> Result<Told, AllocError> {
    match error {
        BundleError::NotAnObject => told_bundle(alloc, None),
        BundleError::UnknownKey(key) => {
            Told::of_subject::<Text>(alloc, Kind::alone("Bundle"), Some(key))
        }
        BundleError::Value(key) => {
            Told::of_subject::<Key>(alloc, Kind::alone("Bundle"), Some(key))
        }
        BundleError::DuplicateModule(path) => {
            let mut told = Told::of_kind(alloc, Kind::alone("DuplicateModule"))?;
            told.module = written::<ModulePath>(alloc, Some(path))?;
            Ok(told)
        }
        BundleError::OutOfMemory => Told::of_kind(alloc, Kind::alone("OutOfMemory")),
    }
}

fn told_text(alloc: Global, family: &'static str, error: Error) -> Result<Told, AllocError> {
    let kind = Kind::inner(family, syntax_kind(error.kind));
    Told::of_span(alloc, kind, error.span)
}

fn told_precompile_error(alloc: Global, error: &PrecompileError) -> Result<Told, AllocError> {
    match error {
        PrecompileError::Syntax(error) => told_text(alloc, "Syntax", *error),
        PrecompileError::GaveUp(refusal) => told_text(alloc, "Syntax", Error::refused(*refusal)),
        PrecompileError::Condition(error) => {
            Told::of_subject::<Text>(alloc, kind_of(error), flag_of(error))
        }
        PrecompileError::Unprintable(name) => {
            Told::of_subject::<Text>(alloc, Kind::alone("Unprintable"), name.as_ref())
        }
        PrecompileError::OutOfMemory => Told::of_kind(alloc, Kind::alone("OutOfMemory")),
    }
}

fn told_run_refusal(alloc: Global, refusal: &RunRefusal) -> Result<Told, AllocError> {
    match refusal {
        RunRefusal::Expression(error) => told_text(alloc, "Expression", *error),
        RunRefusal::Compile(error) => told_compile_error(alloc, error),
        RunRefusal::Eval(context, fault) => told_fault(alloc, context, fault),
        RunRefusal::OutOfMemory => Told::of_kind(alloc, Kind::alone("OutOfMemory")),
    }
}
