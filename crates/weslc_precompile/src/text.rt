//! The text that is left of a module's text.

ghost use Rattle.std.specs.Prelude.{◌≡◌};
ghost use Rattle.wgsl_declarations.specs.View.{unit_tree};
ghost use Rattle.wgsl_check_unit.specs.Derivable.{Says};
ghost use Rattle.weslc_precompile.specs.Precompiling.{Precompiles, Fixes, RefusesSo};

use crate::error::PrecompileError;
use crate::print::print_back;
use std::alloc::Global;
use wesl_cond::{CondCompError, Features, run};
use wgsl_check_unit::{Error, parse_str};
use wgsl_declarations::{TranslationUnit, let_go};
use wgsl_token::fault::Refusal;

/// Fixes the flags of a module.
#[tactic(auto, using(crate::proofs::Steps::condition_told))]
fn fix(
    alloc: Global,
    unit: &mut TranslationUnit,
    features: &Features,
) -> Result<(), PrecompileError>
    ensures { Fixes features.now (unit_tree unit.old) result (unit_tree unit.new) }
{
    match run(alloc, unit, features) {
        Ok(()) => Ok(()),
        Err(CondCompError::OutOfMemory) => Err(PrecompileError::OutOfMemory),
        Err(error) => Err(PrecompileError::Condition(error)),
    }
}

/// The text of what is left of a module.
#[tactic(auto, using(crate::proofs::Steps::fix_refused))]
fn left_text(
    alloc: Global,
    unit: &mut TranslationUnit,
    features: &Features,
    text: &str,
) -> Result<String, PrecompileError>
    requires { Says text.now unit.old }
    ensures { Precompiles features.now text.now result }
{
    fix(alloc, unit, features)?;
    print_back(alloc, unit)
}

fn refusal(error: Error) -> PrecompileError
    ensures { RefusesSo error result }
{
    match error.refusal() {
        None => PrecompileError::Syntax(error),
        Some(Refusal::OutOfMemory) => PrecompileError::OutOfMemory,
        Some(refusal) => PrecompileError::GaveUp(refusal),
    }
}

/// Fixes feature flags ahead in the text of a module, and prints what is left (WESL, "Conditional Translation"). What is printed says what is left:
/// it is parsed again to see that.
///
/// An error is the fault of the text, the first error of its conditions, or that no text derives what is left, as `check_unit` tells it; or
/// memory was refused, or the text is nested too deep.
#[tactic(auto, using(crate::proofs::Steps::fault_told))]
pub fn precompile(alloc: Global, text: &str, features: &Features) -> Result<String, PrecompileError>
    ensures { Precompiles features.now text.now result }
{
    match parse_str(alloc, text) {
        Ok(mut unit) => {
            let left = left_text(alloc, &mut unit, features, text);
            let_go(unit);
            left
        }
        Err(error) => Err(refusal(error)),
    }
}
