//! What a bundle hands to a run and an evaluation: the keys `entry`, `inputs`, `bindings`, `overrides` and `expression`.

ghost use Rattle.std.specs.Prelude.{◌≡◌, ◌⊎◌, IfErr};
ghost use Rattle.serde_json.specs.View.{view};
ghost use Rattle.wgsl_base.specs.declared.items.error.OrOutOfMemory.TheVariants.{Error, OutOfMemory};
ghost use Rattle.weslc_values.specs.Keys.{IsNeeded, WrongAt};

use crate::bindings::{Binding, OverrideValue, read_bindings, read_overrides};
use crate::error::ValueError;
use crate::inputs::{InputSettings, read_inputs, zero_inputs};
use serde_json::Value;
use std::alloc::Global;
use std::fmt;
use wgsl_base::{Items, OrOutOfMemory, Text};

/// A key of what is handed to a run or an evaluation.
#[derive(Clone, Copy)]
pub enum RunKey {
    Entry,
    Inputs,
    Bindings,
    Overrides,
    Expression,
}

impl fmt::Display for RunKey {
    fn fmt<W: fmt::Write>(&self, f: &mut fmt::Formatter<W>) -> fmt::Result {
        match self {
            RunKey::Entry => f.write_str("entry"),
            RunKey::Inputs => f.write_str("inputs"),
            RunKey::Bindings => f.write_str("bindings"),
            RunKey::Overrides => f.write_str("overrides"),
            RunKey::Expression => f.write_str("expression"),
        }
    }
}

/// Which of the keys have to be there.
#[derive(Clone, Copy)]
pub enum Needed {
    Nothing,
    /// A run needs `entry`.
    Entry,
    /// An evaluation needs `expression`.
    Expression,
}

/// What is handed to a run or an evaluation.
#[derive(Drop)]
pub struct RunSettings {
    pub entry: Option<Text>,
    pub inputs: InputSettings,
    pub bindings: Items<Binding>,
    pub overrides: Items<OverrideValue>,
    pub expression: Option<Text>,
}

/// What stands under a key is missing or is nothing that may stand there.
fn at_key(key: RunKey, error: ValueError) -> OrOutOfMemory<RunKey>
    ensures { (result ≡ OutOfMemory) ⊎ (result ≡ Error key) }
{
    match error {
        ValueError::Unexpected => OrOutOfMemory::Error(key),
        ValueError::OutOfMemory => OrOutOfMemory::OutOfMemory,
    }
}

/// What was read under a key, or that nothing was.
fn under<T: Drop>(key: RunKey, read: Result<T, ValueError>) -> Result<T, OrOutOfMemory<RunKey>>
    ensures { IfErr result (λ e. (e ≡ OutOfMemory) ⊎ (e ≡ Error key)) }
{
    match read {
        Ok(value) => Ok(value),
        Err(error) => Err(at_key(key, error)),
    }
}

fn text_in(alloc: Global, value: &Value) -> Result<Option<Text>, ValueError> {
    match value.as_str() {
        Some(text) => Ok(Some(Text::from_str(alloc, text)?)),
        None => Err(ValueError::Unexpected),
    }
}

/// No text stands at the key. That is an error where it is needed.
fn missing(key: RunKey, needed: Needed) -> Result<Option<Text>, OrOutOfMemory<RunKey>>
    ensures { IfErr result (λ e. (e ≡ Error key) × IsNeeded needed key) }
{
    match (needed, key) {
        (Needed::Entry, RunKey::Entry) | (Needed::Expression, RunKey::Expression) => {
            Err(OrOutOfMemory::Error(key))
        }
        _ => Ok(None),
    }
}

fn entry_at(
    alloc: Global,
    value: &Value,
    needed: Needed,
) -> Result<Option<Text>, OrOutOfMemory<RunKey>>
    ensures { IfErr result (WrongAt needed (view value.now)) }
{
    match value.get("entry") {
        Some(entry) => under(RunKey::Entry, text_in(alloc, entry)),
        None => missing(RunKey::Entry, needed),
    }
}

fn inputs_at(
    alloc: Global,
    value: &Value,
    needed: Needed,
) -> Result<InputSettings, OrOutOfMemory<RunKey>>
    ensures { IfErr result (WrongAt needed (view value.now)) }
{
    match value.get("inputs") {
        Some(inputs) => under(RunKey::Inputs, read_inputs(alloc, inputs)),
        None => Ok(zero_inputs(alloc)),
    }
}

fn bindings_at(
    alloc: Global,
    value: &Value,
    needed: Needed,
) -> Result<Items<Binding>, OrOutOfMemory<RunKey>>
    ensures { IfErr result (WrongAt needed (view value.now)) }
{
    match value.get("bindings") {
        Some(bindings) => under(RunKey::Bindings, read_bindings(alloc, bindings)),
        None => Ok(Items::new(alloc)),
    }
}

fn overrides_at(
    alloc: Global,
    value: &Value,
    needed: Needed,
) -> Result<Items<OverrideValue>, OrOutOfMemory<RunKey>>
    ensures { IfErr result (WrongAt needed (view value.now)) }
{
    match value.get("overrides") {
        Some(overrides) => under(RunKey::Overrides, read_overrides(alloc, overrides)),
        None => Ok(Items::new(alloc)),
    }
}

fn expression_at(
    alloc: Global,
    value: &Value,
    needed: Needed,
) -> Result<Option<Text>, OrOutOfMemory<RunKey>>
    ensures { IfErr result (WrongAt needed (view value.now)) }
{
    match value.get("expression") {
        Some(expression) => under(RunKey::Expression, text_in(alloc, expression)),
        None => missing(RunKey::Expression, needed),
    }
}

/// Reads the keys `entry`, `inputs`, `bindings`, `overrides` and `expression` of a JSON object. What is missing is empty, and inputs are
/// then zero. The error is the first of these keys, in this order, under which stands what may not, or that is missing and needed.
pub fn read_run_settings(
    alloc: Global,
    value: &Value,
    needed: Needed,
) -> Result<RunSettings, OrOutOfMemory<RunKey>>
    ensures { IfErr result (WrongAt needed (view value.now)) }
{
    let entry = entry_at(alloc, value, needed)?;
    let inputs = inputs_at(alloc, value, needed)?;
    let bindings = bindings_at(alloc, value, needed)?;
    let overrides = overrides_at(alloc, value, needed)?;
    let expression = expression_at(alloc, value, needed)?;
    Ok(RunSettings {
        entry,
        inputs,
        bindings,
        overrides,
        expression,
    })
}
