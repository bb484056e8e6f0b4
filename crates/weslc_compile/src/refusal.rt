//! What a compilation is refused for.

use std::alloc::{AllocError, Global};
use wesl_module_index::DeclarationId;
use weslc_calls::{CompileError, ErrorContext, LinkedModules};
use wgsl_base::{CloneIn, OrOutOfMemory, Text};
use wgsl_eval_machine::{EvalError, Fault};
use wgsl_lower::{Place, Refused};

/// Why modules have no compiled text.
#[derive(Debug, Drop)]
pub enum CompileRefusal {
    /// They are not linked, the linked unit is at fault, or no text stands for what it is lowered to.
    Compile(CompileError),
    /// A fault of evaluation, in the declaration that is named.
    Eval(ErrorContext, Fault),
}

impl From<AllocError> for CompileRefusal {
    fn from(_: AllocError) -> CompileRefusal {
        CompileRefusal::Compile(CompileError::OutOfMemory)
    }
}

impl From<CompileError> for CompileRefusal {
    ghost use Rattle.std.specs.Prelude.{◌≡◌};
    ghost use Rattle.weslc_compile.specs.declared.refusal.CompileRefusal.TheVariants.{Compile};

    ghost from_gives = { λ error refusal. refusal ≡ Compile error };

    fn from(error: CompileError) -> CompileRefusal {
        CompileRefusal::Compile(error)
    }
}

/// Where a part of the linked unit, which has so many directives, comes from, and whether it is a declaration.
fn origin_of(
    linked: &LinkedModules,
    directives: usize,
    place: Place,
) -> Option<(DeclarationId, bool)> {
    let (number, is_declaration) = match place {
        Place::Unit => return None,
        Place::Directive(number) => (number, false),
        Place::Declaration(number) => (directives.checked_add(number)?, true),
    };
    match linked.origins.get(number) {
        Some(spot) => Some((*spot, is_declaration)),
        None => None,
    }
}

fn name_of(alloc: Global, fault: &Fault) -> Result<Option<Text>, AllocError> {
    match fault.name() {
        Some(name) => Ok(Some(Text::from_str(alloc, name)?)),
        None => Ok(None),
    }
}

fn context_of(
    alloc: Global,
    linked: &LinkedModules,
    directives: usize,
    place: Place,
    fault: &Fault,
) -> Result<ErrorContext, AllocError> {
    let mut context = ErrorContext::of_maybe(name_of(alloc, fault)?);
    let Some((spot, is_declaration)) = origin_of(linked, directives, place) else {
        return Ok(context);
    };
    let Some(module) = linked.modules.get(spot.module) else {
        return Ok(context);
    };
    context.module = Some(module.target.path.clone_in(alloc)?);
    if is_declaration && let Some(name) = module.name_at(spot.place) {
        context.decl = Some(Text::from_str(alloc, name)?);
    }
    Ok(context)
}

fn of_fault(
    alloc: Global,
    linked: &LinkedModules,
    directives: usize,
    place: Place,
    error: EvalError,
) -> CompileRefusal {
    let OrOutOfMemory::Error(fault) = error else {
        return CompileRefusal::Compile(CompileError::OutOfMemory);
    };
    match context_of(alloc, linked, directives, place, &fault) {
        Ok(context) => CompileRefusal::Eval(context, fault),
        Err(error) => {
            drop(fault);
            CompileRefusal::from(error)
        }
    }
}

/// The refusal of lowering of the linked unit, which has so many directives, with the declaration as its module names it.
pub(crate) fn told(
    alloc: Global,
    linked: &LinkedModules,
    directives: usize,
    refused: Refused,
) -> CompileRefusal {
    let Refused { place, error } = refused;
    of_fault(alloc, linked, directives, place, error)
}
