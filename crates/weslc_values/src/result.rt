//! What a run leaves, and its text.

use crate::bindings::Binding;
use crate::error::ValueError;
use crate::print::instance_text;
use std::alloc::{AllocError, Global};
use wgsl_base::{Items, OrOutOfMemory, Text};
use wgsl_instance::Instance;

/// What a run leaves: what the entry point returned, if anything, the bound values, in the order of their groups and numbers, and how
/// many steps it took.
#[derive(Debug, Drop)]
pub struct RunResult {
    pub answer: Option<Instance>,
    pub bindings: Items<Binding>,
    pub steps: u64,
}

/// The text of a value. One that no expression is written for is `Unexpected`.
fn text_of(alloc: Global, value: &Instance) -> Result<Text, ValueError> {
    match instance_text(alloc, value) {
        Ok(text) => Ok(text),
        Err(OrOutOfMemory::Error(_)) => Err(ValueError::Unexpected),
        Err(OrOutOfMemory::OutOfMemory) => Err(ValueError::OutOfMemory),
    }
}

fn answer_line(alloc: Global, answer: Option<&Instance>) -> Result<String, ValueError> {
    match answer {
        Some(answer) => {
            let answer = text_of(alloc, answer)?;
            Ok(format!(in alloc; "answer: {answer}\n")?)
        }
        None => Ok(String::from_str(alloc, "answer: none\n")?),
    }
}

fn binding_line(alloc: Global, binding: &Binding) -> Result<String, ValueError> {
    let value = text_of(alloc, &binding.value)?;
    let (group, number) = (binding.group, binding.binding);
    Ok(format!(in alloc; "binding {group} {number}: {value}\n")?)
}

fn push_steps(alloc: Global, text: &mut String, steps: u64) -> Result<(), AllocError> {
    let line = format!(in alloc; "steps: {steps}\n")?;
    text.push_str(line.as_str())
}

fn push_bindings(alloc: Global, text: &mut String, bindings: &[Binding]) -> Result<(), ValueError> {
    for binding in bindings {
        let line = binding_line(alloc, binding)?;
        text.push_str(line.as_str())?;
    }
    Ok(())
}

/// The text of what a run leaves: a line `answer: V`, or `answer: none`, a line `binding G B: V` for each bound value, and a line
/// `steps: N`. A value that no expression is written for is `Unexpected`.
pub fn result_text(alloc: Global, run: &RunResult) -> Result<String, ValueError> {
    let mut text = answer_line(alloc, run.answer.as_ref())?;
    push_bindings(alloc, &mut text, run.bindings.as_slice())?;
    push_steps(alloc, &mut text, run.steps)?;
    Ok(text)
}
