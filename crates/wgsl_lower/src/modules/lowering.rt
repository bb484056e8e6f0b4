//! Lowering.

ghost use Rattle.std.specs.Prelude.{◌≡◌, [], IfOk, OnOk, OnErr};
ghost use Rattle.wgsl_lower.specs.Lowered.{AllStay};

use crate::folding::{EvalError, Evaluator};
use crate::modules::declarations::stays;
use crate::modules::source::evaluated_part;
use crate::modules::unit::{Place, effects_of, fold_unit};
use crate::pruning::{Effects, prune};
use std::alloc::{AllocError, Global};
use std::mem;
use wgsl_base::OrOutOfMemory;
use wgsl_declarations::{GlobalDeclarationNode, TranslationUnit, let_go, retain_declarations};
use wgsl_eval::UnitUses;
use wgsl_expressions::{CloneIn, Items};

/// Why a module isn't lowered: the first fault, and what was being done.
#[derive(Debug, Drop)]
pub struct Refused {
    pub place: Place,
    pub error: EvalError,
}

impl From<AllocError> for Refused {
    fn from(_error: AllocError) -> Refused {
        Refused {
            place: Place::Unit,
            error: OrOutOfMemory::OutOfMemory,
        }
    }
}

/// Drops the declarations that only the compiler needs.
fn keep_what_stays(declarations: &mut Items<GlobalDeclarationNode>)
    ensures { AllStay declarations.new }
{
    retain_declarations(declarations, |node| stays(node.node()));
}

/// Drops the imports.
fn drop_imports(alloc: Global, unit: &mut TranslationUnit)
    ensures { unit.new.imports ≡ [] }
{
    let imports = mem::replace(&mut unit.imports, Items::new(alloc));
    let_go(TranslationUnit {
        imports,
        global_directives: Items::new(alloc),
        global_declarations: Items::new(alloc),
    });
}

/// Folds a module. The names of the functions whose calls may do something are the answer.
fn folded_effects<'s>(
    alloc: Global,
    evaluator: &mut Evaluator<'s>,
    unit: &mut TranslationUnit,
) -> Result<Effects<'s>, Refused> {
    match fold_unit(evaluator, unit) {
        Ok(()) => Ok(effects_of(alloc, evaluator)?),
        Err((place, stop)) => {
            let error = evaluator.error_of(stop);
            Err(Refused { place, error })
        }
    }
}

/// Lowers a module, of which `source` is the evaluated part.
fn lower_from(
    alloc: Global,
    unit: &mut TranslationUnit,
    source: &TranslationUnit,
    uses: UnitUses,
    max_steps: u64,
) -> Result<(), Refused>
    ensures imports { OnOk result (unit.new.imports ≡ []) }
    ensures declarations { OnOk result (AllStay unit.new.global_declarations) }
{
    let mut evaluator = Evaluator::new(alloc, source, uses, max_steps)?;
    let folded = folded_effects(alloc, &mut evaluator, unit);
    drop(evaluator);
    let effects = folded?;
    prune(alloc, unit, &effects);
    drop_imports(alloc, unit);
    keep_what_stays(&mut unit.global_declarations);
    Ok(())
}

/// Lowers a module, in place. One that is refused is left as it was then.
fn lower_in_place(alloc: Global, unit: &mut TranslationUnit, max_steps: u64) -> Result<(), Refused>
    ensures imports { OnOk result (unit.new.imports ≡ []) }
    ensures declarations { OnOk result (AllStay unit.new.global_declarations) }
{
    let uses = UnitUses::new(alloc, unit)?;
    let source = evaluated_part(alloc, unit, &uses)?;
    let lowered = lower_from(alloc, unit, &source, uses, max_steps);
    let_go(source);
    lowered
}

/// The lowered module, or the first fault. Each evaluation of an expression or a declaration may take `max_steps` steps. What is copied of the
/// module is what evaluation reads: not the bodies of functions that aren't const.
///
/// Consts and assertions are started, each after those that it reaches. Then, in document order: an outermost expression with a const
/// value becomes that value, as it is written; conversions of arguments and of what is returned become calls of constructors; types are
/// written in full. Imports, consts, aliases and assertions go, and so do calls and statements that do nothing.
pub fn lower_owned(
    alloc: Global,
    unit: TranslationUnit,
    max_steps: u64,
) -> Result<TranslationUnit, Refused>
    ensures imports { IfOk result (λ lowered. lowered.imports ≡ []) }
    ensures declarations { IfOk result (λ lowered. AllStay lowered.global_declarations) }
{
    let mut unit = unit;
    match lower_in_place(alloc, &mut unit, max_steps) {
        Ok(()) => Ok(unit),
        Err(refused) => {
            let_go(unit);
            Err(refused)
        }
    }
}

/// Lowers a module, of which `source` is a copy.
fn lower_beside(
    alloc: Global,
    unit: &mut TranslationUnit,
    source: &TranslationUnit,
    max_steps: u64,
) -> Result<(), Refused>
    ensures imports { OnOk result (unit.new.imports ≡ []) }
    ensures declarations { OnOk result (AllStay unit.new.global_declarations) }
{
    let uses = UnitUses::new(alloc, source)?;
    lower_from(alloc, unit, source, uses, max_steps)
}

/// Lowers a module, in place, as `lower_owned` does. Where it is refused the module is as it was.
pub fn lower(alloc: Global, unit: &mut TranslationUnit, max_steps: u64) -> Result<(), Refused>
    ensures imports { OnOk result (unit.new.imports ≡ []) }
    ensures declarations { OnOk result (AllStay unit.new.global_declarations) }
    ensures refused { OnErr result (unit.new ≡ unit.old) }
{
    let source = unit.clone_in(alloc)?;
    match lower_beside(alloc, unit, &source, max_steps) {
        Ok(()) => {
            let_go(source);
            Ok(())
        }
        Err(refused) => {
            let_go(mem::replace(unit, source));
            Err(refused)
        }
    }
}
