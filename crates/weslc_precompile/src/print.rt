//! Modules that are printed, where some text derives them.

ghost use Rattle.wgsl_declarations.specs.View.{unit_tree};
ghost use Rattle.weslc_precompile.specs.Precompiling.{PrintsBack};

use crate::error::PrecompileError;
use std::alloc::Global;
use wgsl_check_unit::{Unprintable, print_checked};
use wgsl_declarations::TranslationUnit;
use wgsl_token::fault::Refusal;

/// The text of a module, which says it.
pub(crate) fn print_back(
    alloc: Global,
    unit: &mut TranslationUnit,
) -> Result<String, PrecompileError>
    ensures { PrintsBack (unit_tree unit.old) result }
{
    match print_checked(alloc, unit) {
        Ok(printed) => Ok(printed),
        Err(Unprintable::Node(name)) => Err(PrecompileError::Unprintable(name)),
        Err(Unprintable::GaveUp(Refusal::OutOfMemory)) => Err(PrecompileError::OutOfMemory),
        Err(Unprintable::GaveUp(refusal)) => Err(PrecompileError::GaveUp(refusal)),
    }
}
