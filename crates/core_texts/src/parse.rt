//! Texts parsed as units of the part.

ghost use Rattle.std.specs.Prelude.{◌≡◌, IfOk};
ghost use Rattle.core_widening.specs.Places as part;
ghost use Rattle.core_widening.specs.ModulePlaces as places;
ghost use Rattle.core_texts.specs.Texts.{Parses, Finds, StandsIn};

use crate::error::PartError;
use core_syntax::TranslationUnit;
use core_widening::{is_in_core, narrow};
use std::alloc::Global;
use wgsl_check_unit::parse_str;
use wgsl_declarations as whole;
use wgsl_declarations::let_go;
use wgsl_token::fault::Refusal;

/// The unit of the part that a module is.
#[tactic(auto, using(crate::proofs::Reading::found, crate::proofs::Reading::more_than_part, crate::proofs::Reading::none_found))]
fn unit_of(alloc: Global, parsed: &whole::TranslationUnit) -> Result<TranslationUnit, PartError>
    ensures unit { Finds parsed.now result }
    ensures places { IfOk result (λ u. part.places u ≡ places.places parsed.now) }
{
    let unit = narrow(alloc, parsed)?;
    if is_in_core(&unit) {
        Ok(unit)
    } else {
        Err(PartError::Unsupported)
    }
}

/// The unit of the part of which this is a text, or the first fault of the text, or that it is a module which uses what is beyond the part.
/// Its nodes stand where the parser says those of the module do, in bytes.
#[tactic(auto, using(crate::proofs::Reading::parsed, crate::proofs::Reading::stands, crate::proofs::Reading::whole_fault))]
pub fn parse_core(alloc: Global, text: &str) -> Result<TranslationUnit, PartError>
    ensures unit { Parses text.now result }
    ensures places { IfOk result (StandsIn text.now) }
{
    match parse_str(alloc, text) {
        Ok(module) => {
            let unit = unit_of(alloc, &module);
            let_go(module);
            unit
        }
        Err(error) => match error.refusal() {
            None => Err(PartError::Syntax(error)),
            Some(Refusal::OutOfMemory) => Err(PartError::OutOfMemory),
            Some(refusal) => Err(PartError::GaveUp(refusal)),
        },
    }
}
