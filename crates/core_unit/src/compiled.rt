//! The text of what a linked unit is lowered to.

ghost use Rattle.std.specs.Prelude.{Ok, IfOk, IfErr, string_bytes};
ghost use Rattle.core_syntax.specs.View.{unit_tree};
ghost use Rattle.core_lower.specs.Keeps.{AreClear, Keeps};
ghost use Rattle.core_lower.specs.Lowered.{Lowers};
ghost use Rattle.core_unit.specs.Compiled.{RefusesValues, IsLoweredText, RefusesLowering};

use crate::error::UnitRefusal;
use core_lower::lower;
use core_syntax::TranslationUnit;
use core_texts::{PrintError, print_core};
use std::alloc::Global;
use wgsl_base::OrOutOfMemory;

fn lowered(
    alloc: Global,
    unit: &TranslationUnit,
    max_steps: u64,
) -> Result<TranslationUnit, UnitRefusal>
    ensures exactly { IfOk result (λ low. Lowers max_steps (unit_tree unit.now) (Ok (unit_tree low))) }
    ensures keeps { AreClear (unit_tree unit.now).declarations → IfOk result (λ low. Keeps (unit_tree unit.now).declarations (unit_tree low).declarations) }
    ensures refusal { IfErr result (RefusesValues max_steps (unit_tree unit.now)) }
{
    match lower(alloc, unit, max_steps) {
        Ok(low) => Ok(low),
        Err(OrOutOfMemory::Error(refusal)) => Err(UnitRefusal::Eval(refusal)),
        Err(OrOutOfMemory::OutOfMemory) => Err(UnitRefusal::OutOfMemory),
    }
}

/// The text of what a unit is lowered to, or its first fault: of a const or of what is rewritten, then that no text stands for what is
/// left. Each evaluation of an expression or a declaration may take `max_steps` steps.
pub fn print_lowered(
    alloc: Global,
    unit: &TranslationUnit,
    max_steps: u64,
) -> Result<String, UnitRefusal>
    ensures text { IfOk result (λ text. IsLoweredText max_steps (unit_tree unit.now) (string_bytes text)) }
    ensures refusal { IfErr result (RefusesLowering max_steps (unit_tree unit.now)) }
{
    let low = lowered(alloc, unit, max_steps)?;
    match print_core(alloc, low) {
        Ok(text) => Ok(text),
        Err(PrintError::Unprintable(name)) => Err(UnitRefusal::Unprintable(name)),
        Err(PrintError::GaveUp(refusal)) => Err(UnitRefusal::GaveUp(refusal)),
        Err(PrintError::OutOfMemory) => Err(UnitRefusal::OutOfMemory),
    }
}
