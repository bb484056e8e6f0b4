//! A context is dropped by a call of this module, so that whoever holds one need not prove the drop of all that it owns again.

use std::alloc::{AllocError, Global};
use wgsl_context::Context;
use wgsl_declarations::TranslationUnit;

/// A context of evaluation.
pub(crate) struct HeldContext<'s> {
    context: Context<'s>,
}

impl<'s> HeldContext<'s> {
    /// A context of a unit of which nothing is computed, in which at most so many steps are taken.
    pub(crate) fn new(
        alloc: Global,
        unit: &'s TranslationUnit,
        max_steps: u64,
    ) -> Result<HeldContext<'s>, AllocError> {
        match Context::new(alloc, unit) {
            Ok(context) => {
                let mut held = HeldContext { context };
                held.context.set_step_limit(max_steps);
                Ok(held)
            }
            Err(error) => Err(error),
        }
    }

    pub(crate) fn get_mut(&mut self) -> &mut Context<'s> {
        &mut self.context
    }
}

impl<'s> Drop for HeldContext<'s> {
    fn drop(self) {
        let HeldContext { context } = self;
        drop(context);
    }
}
