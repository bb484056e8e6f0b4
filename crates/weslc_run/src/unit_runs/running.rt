//! Runs of entry points.

use crate::unit_runs::fault::{FaultPlace, RunError, at};
use crate::unit_runs::held::HeldContext;
use std::alloc::{AllocError, Global};
use std::collections::BTreeMap;
use weslc_values::{Binding, RunResult};
use wgsl_base::{Items, Text};
use wgsl_context::{Context, Start};
use wgsl_declarations::TranslationUnit;
use wgsl_instance::Instance;
use wgsl_memory::Inputs;

/// The value of an override of the linked unit, by the name that it has there.
#[derive(Debug, Drop)]
pub struct HandedOverride {
    pub name: Text,
    pub value: Instance,
}

/// Hands in the values of bindings and overrides.
fn hand_in(
    context: &mut Context<'_>,
    alloc: Global,
    bindings: &[Binding],
    overrides: &[HandedOverride],
) -> Result<(), AllocError> {
    for binding in bindings {
        let value = binding.value.clone(alloc)?;
        context.add_binding(
            binding.group,
            binding.binding,
            binding.space,
            binding.access,
            value,
        )?;
    }
    for handed in overrides {
        let value = handed.value.clone(alloc)?;
        context.add_override(handed.name.as_str(), value)?;
    }
    Ok(())
}

/// A group and a number in it as one number, by which bindings are in order.
fn slot(binding: &Binding) -> u64 {
    (u64::from(binding.group) << 32) | u64::from(binding.binding)
}

/// The positions of the bindings in order of group and number; of equal ones the last.
fn in_order(alloc: Global, bindings: &[Binding]) -> Result<BTreeMap<u64, usize>, AllocError> {
    let mut order = BTreeMap::new(alloc);
    for (position, binding) in bindings.iter().enumerate() {
        order.insert(slot(binding), position)?;
    }
    Ok(order)
}

/// A binding with the value that it has now, if it has another one than at first.
fn binding_now(
    alloc: Global,
    binding: &Binding,
    now: Option<&Instance>,
) -> Result<Binding, AllocError> {
    let value = match now {
        Some(value) => value.clone(alloc)?,
        None => binding.value.clone(alloc)?,
    };
    Ok(Binding {
        group: binding.group,
        binding: binding.binding,
        space: binding.space,
        access: binding.access,
        value,
    })
}

/// All bindings, in order of group and number, with the values that they have now.
fn bindings_now(
    context: &Context<'_>,
    alloc: Global,
    bindings: &[Binding],
) -> Result<Items<Binding>, AllocError> {
    let order = in_order(alloc, bindings)?;
    let mut now = Items::new(alloc);
    for position in order.values() {
        if let Some(binding) = bindings.get(*position) {
            let value = context.binding(binding.group, binding.binding);
            now.push(binding_now(alloc, binding, value)?)?;
        }
    }
    Ok(now)
}

/// Hands bindings and overrides in, and starts the unit.
fn start(
    context: &mut Context<'_>,
    alloc: Global,
    bindings: &[Binding],
    overrides: &[HandedOverride],
) -> Result<(), RunError> {
    hand_in(context, alloc, bindings, overrides)?;
    match context.start(Start::All) {
        Ok(()) => Ok(()),
        Err(error) => Err(at(FaultPlace::Started(context.place()), error)),
    }
}

/// What a run leaves that had this answer.
fn left_by(
    answer: Option<Instance>,
    bindings: Result<Items<Binding>, AllocError>,
    steps: u64,
) -> Result<RunResult, RunError> {
    match bindings {
        Ok(bindings) => Ok(RunResult {
            answer,
            bindings,
            steps,
        }),
        Err(AllocError) => Err(RunError::OutOfMemory),
    }
}

fn run_with(
    context: &mut Context<'_>,
    alloc: Global,
    entry: &str,
    inputs: &Inputs,
    bindings: &[Binding],
    overrides: &[HandedOverride],
) -> Result<RunResult, RunError> {
    start(context, alloc, bindings, overrides)?;
    match context.exec_entrypoint(entry, inputs) {
        Ok(answer) => {
            let now = bindings_now(context, alloc, bindings);
            left_by(answer, now, context.steps())
        }
        Err(error) => Err(at(FaultPlace::Entry, error)),
    }
}

/// Starts a linked unit, with values for bindings and overrides, and runs one of its entry points. Of equal bindings and overrides the
/// last holds.
pub fn run_unit(
    alloc: Global,
    unit: &TranslationUnit,
    entry: &str,
    inputs: &Inputs,
    bindings: &[Binding],
    overrides: &[HandedOverride],
    max_steps: u64,
) -> Result<RunResult, RunError> {
    let mut held = HeldContext::new(alloc, unit, max_steps)?;
    run_with(held.get_mut(), alloc, entry, inputs, bindings, overrides)
}
