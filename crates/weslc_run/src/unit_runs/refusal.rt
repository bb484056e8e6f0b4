//! What a run or an evaluation is refused for.

use crate::eval_question::OWN_NAME;
use crate::unit_runs::fault::{FaultPlace, RunError, RunFault};
use core_calls::{CompileError, Error, ErrorContext, Unprintable, check_unit};
use std::alloc::{AllocError, AllocFailed, Global};
use wesl_module_index::{DeclarationId, Modules};
use weslc_link::LinkedModules;
use wgsl_base::{CloneIn, OrOutOfMemory, Text};
use wgsl_declarations::TranslationUnit;
use wgsl_eval_machine::Fault;
use wgsl_token::fault::Refusal;

/// Why a run or an evaluation has no answer.
#[derive(Debug, Drop)]
pub enum RunRefusal {
    /// The text of the expression is none.
    Expression(Error),
    /// The modules are not linked, the linked unit is at fault, or no text stands for it.
    Compile(CompileError),
    /// A fault of evaluation, in the declaration that is named.
    Eval(ErrorContext, Fault),
    /// Memory was refused. This says nothing of the modules.
    OutOfMemory,
}

impl RunRefusal {
    /// The refusal of a text that was read as no expression.
    pub(crate) fn of_expression(error: Error) -> RunRefusal {
        match error.refusal() {
            Some(Refusal::OutOfMemory) => RunRefusal::OutOfMemory,
            _ => RunRefusal::Expression(error),
        }
    }
}

impl From<AllocError> for RunRefusal {
    fn from(_: AllocError) -> RunRefusal {
        RunRefusal::OutOfMemory
    }
}

impl<T: Drop> From<AllocFailed<T>> for RunRefusal {
    fn from(_: AllocFailed<T>) -> RunRefusal {
        RunRefusal::OutOfMemory
    }
}

impl From<CompileError> for RunRefusal {
    fn from(error: CompileError) -> RunRefusal {
        match error {
            CompileError::OutOfMemory => RunRefusal::OutOfMemory,
            error => RunRefusal::Compile(error),
        }
    }
}

/// Whether a text stands for the linked unit.
pub(crate) fn check_printable(alloc: Global, unit: &TranslationUnit) -> Result<(), CompileError> {
    match check_unit(alloc, unit) {
        Ok(()) => Ok(()),
        Err(Unprintable::Node(name)) => Err(CompileError::unprintable(name)),
        Err(Unprintable::GaveUp(Refusal::OutOfMemory)) => Err(CompileError::OutOfMemory),
        Err(Unprintable::GaveUp(refusal)) => Err(CompileError::gave_up(refusal)),
    }
}

/// Where a declaration of the linked unit comes from, by its number among the declarations.
fn origin_of(linked: &LinkedModules, declaration: usize) -> Option<DeclarationId> {
    let directives = linked.unit.get().global_directives.len();
    match linked.origins.get(directives.checked_add(declaration)?) {
        Some(spot) => Some(*spot),
        None => None,
    }
}

/// Names the declaration of a context. The const of an evaluation isn't named, nor is its module.
fn name_declaration(
    alloc: Global,
    context: &mut ErrorContext,
    modules: &Modules,
    spot: DeclarationId,
) -> Result<(), AllocError> {
    let Some(module) = modules.get(spot.module) else {
        return Ok(());
    };
    let name = module.name_at(spot.place);
    if name == Some(OWN_NAME) {
        return Ok(());
    }
    context.module = Some(module.target.path.clone_in(alloc)?);
    if let Some(name) = name {
        context.decl = Some(Text::from_str(alloc, name)?);
    }
    Ok(())
}

fn name_of(alloc: Global, fault: &Fault) -> Result<Option<Text>, AllocError> {
    match fault.name() {
        Some(name) => Ok(Some(Text::from_str(alloc, name)?)),
        None => Ok(None),
    }
}

fn context_of(
    alloc: Global,
    linked: &LinkedModules,
    entry: Option<usize>,
    refusal: &RunFault,
) -> Result<ErrorContext, AllocError> {
    let mut context = ErrorContext::of_maybe(name_of(alloc, &refusal.fault)?);
    let declaration = match refusal.place {
        FaultPlace::Started(declaration) => declaration,
        FaultPlace::Entry => entry,
    };
    if let Some(declaration) = declaration
        && let Some(spot) = origin_of(linked, declaration)
    {
        name_declaration(alloc, &mut context, &linked.modules, spot)?;
    }
    Ok(context)
}

/// A fault of evaluation with the declaration that is named. The entry point is told by its number among the declarations.
pub(crate) fn told(
    alloc: Global,
    linked: &LinkedModules,
    entry: Option<usize>,
    error: RunError,
) -> RunRefusal {
    let refusal = match error {
        OrOutOfMemory::Error(refusal) => refusal,
        OrOutOfMemory::OutOfMemory => return RunRefusal::OutOfMemory,
    };
    let context = context_of(alloc, linked, entry, &refusal);
    let RunFault { place: _, fault } = refusal;
    match context {
        Ok(context) => RunRefusal::Eval(context, fault),
        Err(_) => RunRefusal::OutOfMemory,
    }
}

/// A refusal of validation in which the const of an evaluation isn't named, nor is its module.
pub(crate) fn without_own(error: CompileError) -> CompileError {
    match error {
        CompileError::Validate(context, kind) => {
            let ErrorContext { module, decl, name } = context;
            let is_own = match &decl {
                Some(decl) => decl.as_str() == OWN_NAME,
                None => false,
            };
            if is_own {
                drop(module);
                drop(decl);
                CompileError::Validate(ErrorContext::of_maybe(name), kind)
            } else {
                CompileError::Validate(ErrorContext { module, decl, name }, kind)
            }
        }
        error => error,
    }
}
