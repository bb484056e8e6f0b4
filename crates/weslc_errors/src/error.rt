//! What a call is refused for.

ghost use Rattle.std.specs.Prelude.{◌≡◌, None, IfOk, IfSome, MatchOption};
ghost use Rattle.std.specs.Option.{option_copied};
ghost use Rattle.wesl_resolve.specs.SourceMaps.{decl_at};
ghost use Rattle.weslc_errors.specs.Told.{context_of, about_module, about_item, about_name, about_maybe, about_declaration, Tells, TellsOfFault, TellsOfEvaluation, fault_name};

use core_link::{BasicSourceMap, ImportError, ResolveError, SourceMap};
use core_unit::{DeclarationFault, Fault, UnitRefusal, ValidateError, ValidateFault};
use std::alloc::{AllocError, AllocFailed, Global};
use std::fmt;
use thiserror::Error as Message;
use wesl_conditions::CondCompError;
use wgsl_base::{CloneIn, Text};
use wgsl_path::ModulePath;
use wgsl_token::fault::{Error, Refusal};

/// What a refusal is about.
#[derive(Debug, Drop)]
pub struct ErrorContext {
    /// The module that is refused, or where a name was sought.
    pub module: Option<ModulePath>,
    pub decl: Option<Text>,
    pub name: Option<Text>,
}

/// Why a module is not found.
#[derive(Clone, Copy, Debug, PartialEq, Eq)]
pub enum ResolveKind {
    ModuleNotFound,
}

/// What is wrong with an import or a name.
#[derive(Clone, Copy, Debug, PartialEq, Eq)]
pub enum ImportKind {
    DuplicateSymbol,
    MissingDecl,
    Private,
}

/// Why a call gives no text. The first fault is named, in the order of these variants.
#[derive(Debug, Drop, Message)]
pub enum CompileError {
    #[error("too many modules")]
    TooManyModules(ErrorContext),
    #[error("a module is not found")]
    Resolve(ErrorContext, ResolveKind),
    #[error("a module's text is no module: {1}")]
    Syntax(ErrorContext, Error),
    /// The first error of a module's conditions. The name is that of the flag that it is about.
    #[error("a module's conditions are at fault: {1}")]
    Condition(ErrorContext, CondCompError),
    /// A condition of a module is not decided.
    #[error("a condition is left")]
    ConditionLeft(ErrorContext),
    #[error("a module uses what is not supported yet")]
    Unsupported(ErrorContext),
    #[error("a name is declared twice, missing or private")]
    Import(ErrorContext, ImportKind),
    #[error("a name of the linked unit is read otherwise than meant")]
    NameClash(ErrorContext),
    /// A fault of the linked unit that needs no values. The declaration that holds its place is named as its module names it.
    #[error("the linked unit is at fault: {1}")]
    Validate(ErrorContext, ValidateError),
    #[error("a name of the text would be unclear")]
    UnclearName(ErrorContext),
    /// A fault of a const's value, or of what is rewritten, in the declaration that is named.
    #[error("an evaluation goes wrong")]
    Eval(ErrorContext, Fault),
    #[error("no text stands for what is left")]
    Unprintable(ErrorContext),
    /// The parser gave up: on the text of the module that is named, which is nested too deep, or on what was printed, where none is named.
    /// This says nothing else of the modules.
    #[error("{1}")]
    GaveUp(ErrorContext, Refusal),
    /// Memory was refused. This says nothing of the modules.
    #[error("out of memory")]
    OutOfMemory,
}

impl ErrorContext {
    /// About a module.
    pub fn of_module(module: ModulePath) -> ErrorContext
        ensures { result ≡ about_module «module» }
    {
        ErrorContext {
            module: Some(module),
            decl: None,
            name: None,
        }
    }

    /// About a name that is sought in a module.
    pub fn of_item(module: ModulePath, name: Text) -> ErrorContext
        ensures { result ≡ about_item «module» name }
    {
        ErrorContext {
            module: Some(module),
            decl: None,
            name: Some(name),
        }
    }

    /// About a name.
    pub fn of_name(name: Text) -> ErrorContext
        ensures { result ≡ about_name name }
    {
        ErrorContext::of_maybe(Some(name))
    }

    /// About a name, where there is one.
    pub fn of_maybe(name: Option<Text>) -> ErrorContext
        ensures { result ≡ about_maybe name }
    {
        ErrorContext {
            module: None,
            decl: None,
            name,
        }
    }

    /// Of a declaration of the linked unit, by the module that has it and its name there.
    pub fn of_declaration(
        alloc: Global,
        map: &BasicSourceMap,
        declaration: &str,
        name: Option<Text>,
    ) -> Result<ErrorContext, AllocError>
        ensures { IfOk result (λ context. context ≡ about_declaration (decl_at map.now declaration.now) name) }
    {
        let Some((module, item)) = map.get_decl(declaration) else {
            return Ok(ErrorContext {
                module: None,
                decl: None,
                name,
            });
        };
        Ok(ErrorContext {
            module: Some(module.clone_in(alloc)?),
            decl: Some(Text::from_str(alloc, item)?),
            name,
        })
    }
}

impl ErrorContext {
    /// The declaration and the name that a fault is about. None where memory was refused.
    fn of_evaluation(
        alloc: Global,
        map: &BasicSourceMap,
        declaration: &Text,
        fault: &Fault,
    ) -> Option<ErrorContext>
        ensures { IfSome result (λ context. context ≡ about_declaration (decl_at map.now declaration.now) (fault_name fault.now)) }
    {
        let name = name_of(alloc, fault).ok()?;
        ErrorContext::of_declaration(alloc, map, declaration.as_str(), name).ok()
    }
}

/// The name that a fault is about, where it is about a name.
fn name_of(alloc: Global, fault: &Fault) -> Result<Option<Text>, AllocError>
    ensures { IfOk result (λ name. name ≡ fault_name fault.now) }
{
    match fault {
        Fault::StepLimit | Fault::Operation(_) | Fault::Deferred(_) | Fault::NegativeAttr(_) => Ok(
            None,
        ),
        Fault::Name(_, name) => Ok(Some(name.clone_in(alloc)?)),
    }
}

impl CompileError {
    pub fn too_many_modules(alloc: Global, module: &ModulePath) -> Result<CompileError, AllocError>
        ensures { IfOk result (λ e. e ≡ CompileError.TooManyModules (about_module «module».now)) }
    {
        Ok(CompileError::TooManyModules(ErrorContext::of_module(module.clone_in(alloc)?)))
    }

    pub fn name_clash(name: Text) -> CompileError
        ensures { result ≡ CompileError.NameClash (about_name name) }
    {
        CompileError::NameClash(ErrorContext::of_name(name))
    }

    pub fn unprintable(name: Option<Text>) -> CompileError
        ensures { result ≡ CompileError.Unprintable (about_maybe name) }
    {
        CompileError::Unprintable(ErrorContext::of_maybe(name))
    }

    /// The parser gave up on what was printed.
    pub fn gave_up(refusal: Refusal) -> CompileError
        ensures { result ≡ CompileError.GaveUp (about_maybe None) refusal }
    {
        CompileError::GaveUp(ErrorContext::of_maybe(None), refusal)
    }

    /// The refusal of a linked unit, with its declaration as the module names it that declares it.
    pub fn of_unit(alloc: Global, map: &BasicSourceMap, refusal: UnitRefusal) -> CompileError
        ensures { Tells (decl_at map.now) refusal result }
    {
        match refusal {
            UnitRefusal::Validate(fault) => CompileError::of_fault(alloc, map, fault),
            UnitRefusal::UnclearName(name) => CompileError::UnclearName(ErrorContext::of_name(
                name,
            )),
            UnitRefusal::Eval(refusal) => CompileError::of_evaluation(alloc, map, refusal),
            UnitRefusal::Unprintable(name) => CompileError::unprintable(name),
            UnitRefusal::GaveUp(refusal) => CompileError::gave_up(refusal),
            UnitRefusal::OutOfMemory => CompileError::OutOfMemory,
        }
    }

    fn of_fault(alloc: Global, map: &BasicSourceMap, fault: ValidateFault) -> CompileError
        ensures { TellsOfFault (decl_at map.now) fault result }
    {
        let ValidateFault {
            kind,
            declaration,
            name,
        } = fault;
        match ErrorContext::of_declaration(alloc, map, declaration.as_str(), Some(name)) {
            Ok(context) => CompileError::Validate(context, kind),
            Err(_) => CompileError::OutOfMemory,
        }
    }

    fn of_evaluation(alloc: Global, map: &BasicSourceMap, refusal: DeclarationFault) -> CompileError
        ensures { TellsOfEvaluation (decl_at map.now) refusal result }
    {
        let DeclarationFault { declaration, fault } = refusal;
        let context = ErrorContext::of_evaluation(alloc, map, &declaration, &fault);
        CompileError::of_context(context, fault)
    }

    // A fault where its context is there; else memory was refused.
    fn of_context(context: Option<ErrorContext>, fault: Fault) -> CompileError
        ensures { MatchOption context (result ≡ CompileError.OutOfMemory) (λ c. result ≡ CompileError.Eval c fault) }
    {
        match context {
            Some(context) => CompileError::Eval(context, fault),
            None => CompileError::OutOfMemory,
        }
    }

    /// What the refusal is about, where it is about something.
    pub fn context(&self) -> Option<&ErrorContext>
        ensures { option_copied result ≡ context_of self.now }
    {
        match self {
            CompileError::TooManyModules(context) => Some(context),
            CompileError::Resolve(context, _) => Some(context),
            CompileError::Syntax(context, _) => Some(context),
            CompileError::Condition(context, _) => Some(context),
            CompileError::ConditionLeft(context) => Some(context),
            CompileError::Unsupported(context) => Some(context),
            CompileError::Import(context, _) => Some(context),
            CompileError::NameClash(context) => Some(context),
            CompileError::Validate(context, _) => Some(context),
            CompileError::UnclearName(context) => Some(context),
            CompileError::Eval(context, _) => Some(context),
            CompileError::Unprintable(context) => Some(context),
            CompileError::GaveUp(context, _) => Some(context),
            CompileError::OutOfMemory => None,
        }
    }
}

impl From<AllocError> for CompileError {
    ghost use Rattle.std.specs.Prelude.{◌≡◌};
    ghost use Rattle.weslc_errors.specs.declared.error.CompileError.TheVariants.{OutOfMemory};

    ghost from_gives = { λ _ e. e ≡ OutOfMemory };

    fn from(_: AllocError) -> CompileError {
        CompileError::OutOfMemory
    }
}

impl<T: Drop> From<AllocFailed<T>> for CompileError {
    ghost use Rattle.std.specs.Prelude.{◌≡◌};
    ghost use Rattle.weslc_errors.specs.declared.error.CompileError.TheVariants.{OutOfMemory};

    ghost from_gives = { λ _ e. e ≡ OutOfMemory };

    fn from(_: AllocFailed<T>) -> CompileError {
        CompileError::OutOfMemory
    }
}

impl From<ResolveError> for CompileError {
    ghost use Rattle.std.specs.Prelude.{◌≡◌};
    ghost use Rattle.weslc_errors.specs.Told.{of_resolving};

    ghost from_gives = { λ error e. e ≡ of_resolving error };

    fn from(error: ResolveError) -> CompileError {
        match error {
            ResolveError::ModuleNotFound(module) => {
                CompileError::Resolve(ErrorContext::of_module(module), ResolveKind::ModuleNotFound)
            }
            ResolveError::Syntax(module, error) => CompileError::Syntax(
                ErrorContext::of_module(module),
                error,
            ),
            ResolveError::Unsupported(module) => CompileError::Unsupported(ErrorContext::of_module(
                module,
            )),
            ResolveError::GaveUp(module, refusal) => {
                CompileError::GaveUp(ErrorContext::of_module(module), refusal)
            }
            ResolveError::OutOfMemory => CompileError::OutOfMemory,
        }
    }
}

impl From<ImportError> for CompileError {
    ghost use Rattle.std.specs.Prelude.{◌≡◌};
    ghost use Rattle.weslc_errors.specs.Told.{of_loading};

    ghost from_gives = { λ error e. e ≡ of_loading error };

    fn from(error: ImportError) -> CompileError {
        match error {
            ImportError::TooManyModules(module) => CompileError::TooManyModules(
                ErrorContext::of_module(module),
            ),
            ImportError::Resolve(error) => CompileError::from(error),
            ImportError::DuplicateSymbol(module, name) => {
                CompileError::Import(
                    ErrorContext::of_item(module, name),
                    ImportKind::DuplicateSymbol,
                )
            }
            ImportError::MissingDecl(module, name) => {
                CompileError::Import(ErrorContext::of_item(module, name), ImportKind::MissingDecl)
            }
            ImportError::Private(module, name) => {
                CompileError::Import(ErrorContext::of_item(module, name), ImportKind::Private)
            }
            ImportError::OutOfMemory => CompileError::OutOfMemory,
        }
    }
}

impl fmt::Display for ResolveKind {
    ghost use Rattle.std.specs.Prelude.{Some};
    ghost use Rattle.weslc_errors.specs.Told.{resolve_text};

    ghost output = { λ kind. Some (resolve_text kind) };

    fn fmt<W: fmt::Write>(&self, f: &mut fmt::Formatter<W>) -> fmt::Result {
        match self {
            ResolveKind::ModuleNotFound => f.write_str("ModuleNotFound"),
        }
    }
}

impl fmt::Display for ImportKind {
    ghost use Rattle.std.specs.Prelude.{Some};
    ghost use Rattle.weslc_errors.specs.Told.{import_text};

    ghost output = { λ kind. Some (import_text kind) };

    fn fmt<W: fmt::Write>(&self, f: &mut fmt::Formatter<W>) -> fmt::Result {
        match self {
            ImportKind::DuplicateSymbol => f.write_str("DuplicateSymbol"),
            ImportKind::MissingDecl => f.write_str("MissingDecl"),
            ImportKind::Private => f.write_str("Private"),
        }
    }
}
