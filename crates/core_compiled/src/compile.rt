//! The steps of compiling a linked unit.

ghost use Rattle.std.specs.Prelude.{OnOk, IfOk, IfErr, string_bytes};
ghost use Rattle.core_syntax.specs.View.{unit_tree};
ghost use Rattle.core_unit.specs.Compiled.{IsValid, IsClear, IsCompiled, RefusesInvalid, RefusesUnclear, Refuses};

use core_syntax::TranslationUnit;
use core_unit::{UnitRefusal, print_lowered};
use core_validate::{unclear_name, validate_wesl};
use std::alloc::Global;
use wgsl_base::OrOutOfMemory;
use wgsl_words::builtin_names;

fn check_valid(alloc: Global, unit: &TranslationUnit) -> Result<(), UnitRefusal>
    ensures ok { OnOk result (IsValid (unit_tree unit.now)) }
    ensures refusal { IfErr result (RefusesInvalid (unit_tree unit.now)) }
{
    match validate_wesl(alloc, unit, builtin_names()) {
        Ok(()) => Ok(()),
        Err(OrOutOfMemory::Error(fault)) => Err(UnitRefusal::Validate(fault)),
        Err(OrOutOfMemory::OutOfMemory) => Err(UnitRefusal::OutOfMemory),
    }
}

fn check_clear(alloc: Global, unit: &TranslationUnit) -> Result<(), UnitRefusal>
    ensures ok { OnOk result (IsClear (unit_tree unit.now)) }
    ensures refusal { IfErr result (RefusesUnclear (unit_tree unit.now)) }
{
    match unclear_name(alloc, unit, builtin_names())? {
        None => Ok(()),
        Some(name) => Err(UnitRefusal::UnclearName(name)),
    }
}

/// The text of what a linked unit is lowered to, or the unit's first fault: of validation, then a name that is unclear, then
/// of a const or of what is rewritten, then that no text stands for what is left. Each evaluation of an expression or a declaration
/// may take `max_steps` steps.
#[tactic(auto, using(crate::proofs::Steps::compiled, crate::proofs::Steps::refused))]
pub fn compile_unit(
    alloc: Global,
    unit: &TranslationUnit,
    max_steps: u64,
) -> Result<String, UnitRefusal>
    ensures text { IfOk result (λ text. IsCompiled max_steps (unit_tree unit.now) (string_bytes text)) }
    ensures refusal { IfErr result (Refuses max_steps (unit_tree unit.now)) }
{
    check_valid(alloc, unit)?;
    check_clear(alloc, unit)?;
    print_lowered(alloc, unit, max_steps)
}
