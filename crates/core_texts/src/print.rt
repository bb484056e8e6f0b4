//! Units that are printed.

ghost use Rattle.core_syntax.specs.View.{unit_tree};
ghost use Rattle.core_texts.specs.Texts.{Prints};

use crate::error::PrintError;
use core_syntax::TranslationUnit;
use core_widening::widen;
use std::alloc::Global;
use wgsl_check_unit::{Unprintable, print_checked};
use wgsl_declarations::let_go;
use wgsl_token::fault::Refusal;

/// The text of a unit, which is read as that unit. Where no text is, it says so, and names the first node that no text derives, or the
/// declaration that holds it.
pub fn print_core(alloc: Global, unit: TranslationUnit) -> Result<String, PrintError>
    ensures { Prints (unit_tree unit) result }
{
    let widened = widen(alloc, &unit);
    drop(unit);
    let mut module = widened?;
    let printed = print_checked(alloc, &mut module);
    let_go(module);
    match printed {
        Ok(text) => Ok(text),
        Err(Unprintable::Node(name)) => Err(PrintError::Unprintable(name)),
        Err(Unprintable::GaveUp(Refusal::OutOfMemory)) => Err(PrintError::OutOfMemory),
        Err(Unprintable::GaveUp(refusal)) => Err(PrintError::GaveUp(refusal)),
    }
}
