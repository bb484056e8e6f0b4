//! What a run is handed: JSON in files.

use crate::failure::{Failure, failed};
use serde_json::Value;
use std::rt::Files;
use wesl_command::Request;
use wesl_diagnostics::{
    Binding, Key, OverrideValue, ValueError, inputs_of, read_bindings, read_inputs, read_overrides,
    zero_inputs,
};
use wesl_folders::{FileProblem, read_text};
use wgsl_base::Items;
use wgsl_memory::Inputs;

/// What a run is handed. It is dropped by a call of this module.
pub struct Handed {
    pub inputs: Inputs,
    pub bindings: Items<Binding>,
    pub overrides: Items<OverrideValue>,
}

impl Drop for Handed {
    fn drop(self) {
        let Handed {
            inputs,
            bindings,
            overrides,
        } = self;
        drop(inputs);
        drop(bindings);
        drop(overrides);
    }
}

/// The JSON of a file.
fn read_json<R: Files + AllocGlobal>(rt: &R, file: &str) -> Result<Value, FileProblem> {
    let text = read_text(rt, file)?;
    match Value::from_str(rt.alloc(), text.as_str()) {
        Ok(value) => Ok(value),
        Err(error) if error.is_memory() => Err(FileProblem::OutOfMemory),
        Err(_) => Err(FileProblem::NotJson),
    }
}

/// The JSON of a file that may be named.
fn json_at<'a, R: Files + AllocGlobal>(
    rt: &R,
    file: Option<&'a str>,
) -> Result<Option<(&'a str, Value)>, Failure<'a>> {
    let Some(file) = file else {
        return Ok(None);
    };
    match read_json(rt, file) {
        Ok(value) => Ok(Some((file, value))),
        Err(problem) => Err(failed(rt.alloc(), file, problem)),
    }
}

/// What was read of a file, or that it has nothing of the kind.
fn taken<'a, T: Drop>(
    file: &'a str,
    key: Key,
    read: Result<T, ValueError>,
) -> Result<T, Failure<'a>> {
    match read {
        Ok(value) => Ok(value),
        Err(ValueError::Unexpected) => Err(Failure::Value(file, key)),
        Err(ValueError::OutOfMemory) => Err(Failure::OutOfMemory),
    }
}

fn inputs_at<'a, R: Files + AllocGlobal>(
    rt: &R,
    file: Option<&'a str>,
) -> Result<Inputs, Failure<'a>> {
    let settings = match json_at(rt, file)? {
        Some((file, value)) => taken(file, Key::Inputs, read_inputs(rt.alloc(), &value))?,
        None => zero_inputs(rt.alloc()),
    };
    Ok(inputs_of(rt.alloc(), settings)?)
}

fn bindings_at<'a, R: Files + AllocGlobal>(
    rt: &R,
    file: Option<&'a str>,
) -> Result<Items<Binding>, Failure<'a>> {
    match json_at(rt, file)? {
        Some((file, value)) => taken(file, Key::Bindings, read_bindings(rt.alloc(), &value)),
        None => Ok(Items::new(rt.alloc())),
    }
}

fn overrides_at<'a, R: Files + AllocGlobal>(
    rt: &R,
    file: Option<&'a str>,
) -> Result<Items<OverrideValue>, Failure<'a>> {
    match json_at(rt, file)? {
        Some((file, value)) => taken(file, Key::Overrides, read_overrides(rt.alloc(), &value)),
        None => Ok(Items::new(rt.alloc())),
    }
}

/// What a request hands to a run.
pub fn handed_of<'a, R: Files + AllocGlobal>(
    rt: &R,
    request: &Request<'a>,
) -> Result<Handed, Failure<'a>> {
    let inputs = inputs_at(rt, request.inputs)?;
    let bindings = bindings_at(rt, request.bindings)?;
    let overrides = overrides_at(rt, request.overrides)?;
    Ok(Handed {
        inputs,
        bindings,
        overrides,
    })
}
