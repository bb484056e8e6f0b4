//! Conditions that are decided in each module.

use std::alloc::Global;
use wesl_cond::run;
use wesl_cond_left::has_conditions;
use wesl_conditions::{CondCompError, Features};
use wesl_resolve_fn::{ApplyError, ResolveFn};
use wgsl_declarations::TranslationUnit;

/// Decides the conditions of each module by these feature flags. A module is refused for the first error of its conditions, or where a
/// condition is left anywhere, also where none is decided, as on the body of a function.
#[derive(Clone, Copy, Debug, Drop)]
pub struct Conditions<'a> {
    pub features: &'a Features,
}

impl<'a> ResolveFn for Conditions<'a> {
    ghost use Rattle.wesl_preprocess.specs.Conditions.{decided};

    ghost applied = { λ c. decided c.features.now };

    #[tactic(auto, using(crate::proofs::DecidingLemmas::whole, crate::proofs::DecidingLemmas::left_there, crate::proofs::DecidingLemmas::faulty))]
    fn apply(&self, alloc: Global, unit: &mut TranslationUnit) -> Result<(), ApplyError> {
        match run(alloc, unit, self.features) {
            Ok(()) => {
                if has_conditions(unit) {
                    Err(ApplyError::Left)
                } else {
                    Ok(())
                }
            }
            Err(CondCompError::OutOfMemory) => Err(ApplyError::OutOfMemory),
            Err(error) => Err(ApplyError::Condition(error)),
        }
    }
}
