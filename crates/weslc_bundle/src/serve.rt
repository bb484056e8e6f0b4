//! The program: from a bundle to a text or an error line.

ghost use Rattle.std.specs.Prelude.{◌≡◌, ◌⊎◌, ◌≤◌, List, ℕ, IfOk, IfErr, string_bytes};
ghost use Rattle.std.specs.Io.KnownBytes.{Appends};
ghost use Rattle.weslc_bundle.specs.Served.{Answered, Refused, HasRefusal, IsCutShort, status_of};

use crate::answer::answer;
use crate::bundle::read_bundle;
use crate::error::ServeError;
use crate::field::Field;
use crate::input::read_input;
use crate::kinds::{condition_kind, eval_kind, syntax_kind, validate_kind};
use crate::output::write_text;
use crate::request::BundleError;
use std::alloc::Global;
use std::io;
use std::io::{Read, Write};
use wesl_conditions::CondCompError;
use weslc_compile::{CompileError, ErrorContext};
use weslc_precompile::PrecompileError;
use weslc_run::RunRefusal;
use wgsl_base::Text;
use wgsl_eval_machine::Fault;
use wgsl_path::{ModulePath, Span};
use wgsl_token::fault::Error;

/// Reads a bundle, and writes the text that it asks for, or one line about its first fault. It gives the program's status: 0
/// for a text, 1 for a refused call or a write that fails, 2 for what is no bundle, one that has no root to precompile, or a read
/// that fails. Where a text could not be written, the writer has got a beginning of it, and all of it where only flushing failed.
pub fn serve_bundle<R: Read, W: Write, E: Write>(
    alloc: Global,
    reader: &mut R,
    writer: &mut W,
    errors: &mut E,
) -> u8
    ensures text { result ≡ 0 → (text : List ℕ) × Answered (R.remaining reader.old) text × Appends (W.contents writer.old) (W.contents writer.new) text × (errors.new ≡ errors.old) }
    ensures refused { result ≡ 1 → (HasRefusal (R.remaining reader.old) × (writer.new ≡ writer.old))
        ⊎ (IsCutShort (R.remaining reader.old) (W.contents writer.old) (W.contents writer.new) × (errors.new ≡ errors.old)) }
    ensures no_bundle { result ≡ 2 → (refusal : ServeError) × Refused (R.remaining reader.old) refusal × (status_of refusal ≡ 2) × (writer.new ≡ writer.old) }
    ensures statuses { result ≤ 2 }
{
    match run_bundle(alloc, reader) {
        Ok(text) => match write_text(writer, text.as_str()) {
            Ok(()) => 0,
            Err(_) => 1,
        },
        Err(refusal) => {
            let written = write_refusal(errors, &refusal);
            let status = status(&refusal);
            drop(refusal);
            match written {
                Ok(()) => status,
                Err(_) => 1,
            }
        }
    }
}

fn run_bundle<R: Read>(alloc: Global, reader: &mut R) -> Result<String, ServeError>
    ensures text { IfOk result (λ text. Answered (R.remaining reader.old) (string_bytes text)) }
    ensures refusal { IfErr result (λ refusal. Refused (R.remaining reader.old) refusal) }
{
    let bytes = read_input(alloc, reader)?;
    let bundle = read_bundle(alloc, bytes.as_slice())?;
    drop(bytes);
    answer(alloc, bundle)
}

fn status(refusal: &ServeError) -> u8
    ensures { result ≡ status_of refusal.now }
{
    match refusal {
        ServeError::Read | ServeError::TooLong | ServeError::Bundle(_) | ServeError::NoRoot => 2,
        ServeError::Compile(_)
        | ServeError::Eval(_, _)
        | ServeError::Precompile(_)
        | ServeError::Run(_)
        | ServeError::OutOfMemory => 1,
    }
}

/// Writes the line about a refusal. It needs no memory.
fn write_refusal<E: Write>(errors: &mut E, refusal: &ServeError) -> io::Result<()> {
    match refusal {
        ServeError::Read => errors.write_all(b"error: Read - - - -\n"),
        ServeError::TooLong => errors.write_all(b"error: Bundle - - - size\n"),
        ServeError::OutOfMemory => errors.write_all(b"error: OutOfMemory - - - -\n"),
        ServeError::NoRoot => errors.write_all(b"error: Bundle - - - root\n"),
        ServeError::Bundle(error) => write_bundle_error(errors, error),
        ServeError::Compile(error) => write_compile_error(errors, error),
        ServeError::Eval(context, fault) => write_fault(errors, context, fault),
        ServeError::Precompile(error) => write_precompile_error(errors, error),
        ServeError::Run(refusal) => write_run_refusal(errors, refusal),
    }?;
    errors.flush()
}

fn write_bundle_error<E: Write>(errors: &mut E, error: &BundleError) -> io::Result<()> {
    match error {
        BundleError::NotAnObject => errors.write_all(b"error: Bundle - - - -\n"),
        BundleError::UnknownKey(key) => {
            let key = Field(Some(key));
            writeln!(errors, "error: Bundle - - - {key}")
        }
        BundleError::Value(key) => writeln!(errors, "error: Bundle - - - {key}"),
        BundleError::DuplicateModule(path) => {
            let path = Field(Some(path));
            writeln!(errors, "error: DuplicateModule {path} - - -")
        }
        BundleError::OutOfMemory => errors.write_all(b"error: OutOfMemory - - - -\n"),
    }
}

/// The line about a call that is refused. It needs no memory.
fn write_compile_error<E: Write>(errors: &mut E, error: &CompileError) -> io::Result<()> {
    match error {
        CompileError::TooManyModules(context) => {
            errors.write_all(b"error: TooManyModules")?;
            write_context(errors, context, None)
        }
        CompileError::Resolve(context, kind) => {
            write!(errors, "error: Resolve.{kind}")?;
            write_context(errors, context, None)
        }
        CompileError::Syntax(context, error) => write_syntax_error(errors, context, *error),
        CompileError::GaveUp(context, refusal) => {
            write_syntax_error(errors, context, Error::refused(*refusal))
        }
        CompileError::Condition(context, error) => {
            write_module_condition(errors, context, error)
        }
        CompileError::ConditionLeft(context) => {
            errors.write_all(b"error: ConditionLeft")?;
            write_context(errors, context, None)
        }
        CompileError::Unsupported(context) => {
            errors.write_all(b"error: Unsupported")?;
            write_context(errors, context, None)
        }
        CompileError::Import(context, kind) => {
            write!(errors, "error: Import.{kind}")?;
            write_context(errors, context, None)
        }
        CompileError::NameClash(context) => {
            errors.write_all(b"error: NameClash")?;
            write_context(errors, context, None)
        }
        CompileError::Validate(context, kind) => {
            let kind = validate_kind(*kind);
            write!(errors, "error: Validate.{kind}")?;
            write_context(errors, context, None)
        }
        CompileError::UnclearName(context) => {
            errors.write_all(b"error: UnclearName")?;
            write_context(errors, context, None)
        }
        CompileError::Eval(context, fault) => {
            let kind = eval_kind(fault);
            write!(errors, "error: Eval.{kind}")?;
            write_context(errors, context, None)
        }
        CompileError::Unprintable(context) => {
            errors.write_all(b"error: Unprintable")?;
            write_context(errors, context, None)
        }
        CompileError::OutOfMemory => errors.write_all(b"error: OutOfMemory - - - -\n"),
    }
}

/// The line about a run or an evaluation.
fn write_run_refusal<E: Write>(errors: &mut E, refusal: &RunRefusal) -> io::Result<()> {
    match refusal {
        RunRefusal::Expression(error) => {
            let kind = syntax_kind(error.kind);
            let (start, end) = (error.span.start, error.span.end);
            writeln!(errors, "error: Expression.{kind} - - {start}..{end} -")
        }
        RunRefusal::Compile(error) => write_compile_error(errors, error),
        RunRefusal::Eval(context, fault) => write_fault(errors, context, fault),
        RunRefusal::OutOfMemory => errors.write_all(b"error: OutOfMemory - - - -\n"),
    }
}

/// The line about a fault of evaluation. It needs no memory.
fn write_fault<E: Write>(errors: &mut E, context: &ErrorContext, fault: &Fault) -> io::Result<()> {
    let kind = fault.kind();
    write!(errors, "error: Eval.{kind}")?;
    write_context(errors, context, None)
}

/// The line about a text that is not read. What was printed and is not read again is no module's, and its place is left out.
fn write_syntax_error<E: Write>(
    errors: &mut E,
    context: &ErrorContext,
    error: Error,
) -> io::Result<()> {
    let kind = syntax_kind(error.kind);
    write!(errors, "error: Syntax.{kind}")?;
    let span = match &context.module {
        Some(_) => Some(error.span),
        None => None,
    };
    write_context(errors, context, span)
}

fn write_precompile_error<E: Write>(errors: &mut E, error: &PrecompileError) -> io::Result<()> {
    match error {
        PrecompileError::Syntax(error) => write_text_error(errors, *error),
        PrecompileError::GaveUp(refusal) => write_text_error(errors, Error::refused(*refusal)),
        PrecompileError::Condition(error) => write_condition_error(errors, error),
        PrecompileError::Unprintable(name) => {
            let name = Field(name.as_ref());
            writeln!(errors, "error: Unprintable - - - {name}")
        }
        PrecompileError::OutOfMemory => errors.write_all(b"error: OutOfMemory - - - -\n"),
    }
}

/// The line about the text of the root.
fn write_text_error<E: Write>(errors: &mut E, error: Error) -> io::Result<()> {
    let kind = syntax_kind(error.kind);
    let (start, end) = (error.span.start, error.span.end);
    writeln!(errors, "error: Syntax.{kind} - - {start}..{end} -")
}

fn write_condition_error<E: Write>(errors: &mut E, error: &CondCompError) -> io::Result<()> {
    let kind = condition_kind(error);
    let flag = Field(flag_of(error));
    writeln!(errors, "error: Condition.{kind} - - - {flag}")
}

/// The line about the conditions of a module.
fn write_module_condition<E: Write>(
    errors: &mut E,
    context: &ErrorContext,
    error: &CondCompError,
) -> io::Result<()> {
    let kind = condition_kind(error);
    let module = Field(context.module.as_ref());
    let flag = Field(flag_of(error));
    writeln!(errors, "error: Condition.{kind} {module} - - {flag}")
}

/// The flag that an error is about.
fn flag_of(error: &CondCompError) -> Option<&Text> {
    match error {
        CondCompError::InvalidFeatureFlag(flag) | CondCompError::UnexpectedFeatureFlag(flag) => {
            Some(flag)
        }
        CondCompError::InvalidExpression
        | CondCompError::NoPrecedingIf
        | CondCompError::DuplicateIf
        | CondCompError::OutOfMemory => None,
    }
}

/// The rest of an error line: module, declaration, place and name.
fn write_context<E: Write>(
    errors: &mut E,
    context: &ErrorContext,
    span: Option<Span>,
) -> io::Result<()> {
    let module: Field<'_, ModulePath> = Field(context.module.as_ref());
    let decl: Field<'_, Text> = Field(context.decl.as_ref());
    let name: Field<'_, Text> = Field(context.name.as_ref());
    match span {
        Some(span) => {
            let (start, end) = (span.start, span.end);
            writeln!(errors, " {module} {decl} {start}..{end} {name}")
        }
        None => writeln!(errors, " {module} {decl} - {name}"),
    }
}
