//! Evaluations of expressions.

use crate::eval_question::OWN_NAME;
use crate::unit_runs::fault::{FaultPlace, RunError, at};
use crate::unit_runs::held::HeldContext;
use std::alloc::Global;
use weslc_values::instance_text;
use wgsl_base::{OrOutOfMemory, Text};
use wgsl_context::{Context, Start};
use wgsl_declarations::TranslationUnit;
use wgsl_instance::Instance;

/// Starts a linked unit in which a const stands for an expression, and gives the value of that const as text.
pub fn eval_unit(alloc: Global, unit: &TranslationUnit, max_steps: u64) -> Result<Text, RunError> {
    let mut held = HeldContext::new(alloc, unit, max_steps)?;
    started_text(held.get_mut(), alloc)
}

fn started_text(context: &mut Context<'_>, alloc: Global) -> Result<Text, RunError> {
    match context.start(Start::Consts) {
        Ok(()) => text_of(alloc, context.value(OWN_NAME)),
        Err(error) => Err(at(FaultPlace::Started(context.place()), error)),
    }
}

/// The text of the value of the const.
fn text_of(alloc: Global, value: Option<&Instance>) -> Result<Text, RunError> {
    match value {
        Some(value) => match instance_text(alloc, value) {
            Ok(text) => Ok(text),
            Err(_) => Err(OrOutOfMemory::OutOfMemory),
        },
        None => Err(OrOutOfMemory::OutOfMemory),
    }
}
