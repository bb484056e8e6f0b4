//! Modules as units of the part.

ghost use Rattle.wgsl_declarations.specs.View as whole_views;
ghost use Rattle.core_resolver.specs.Found.{Finds};

use core_narrowing::{NarrowError, is_in_core, narrow};
use core_syntax::TranslationUnit;
use std::alloc::Global;
use wgsl_declarations as whole;

/// The unit of the part that a module is.
#[tactic(auto, using(crate::proofs::Reading::found, crate::proofs::Reading::more_than_part, crate::proofs::Reading::none_found))]
pub(crate) fn narrowed(
    alloc: Global,
    module: &whole::TranslationUnit,
) -> Result<TranslationUnit, NarrowError>
    ensures { Finds (whole_views.unit_tree «module».now) result }
{
    let unit = narrow(alloc, module)?;
    if is_in_core(&unit) {
        Ok(unit)
    } else {
        Err(NarrowError::Unsupported)
    }
}
