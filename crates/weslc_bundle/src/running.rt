//! Runs and evaluations.

ghost use Rattle.std.specs.Prelude.{IfErr};
ghost use Rattle.weslc_bundle.specs.Served.{IsOfRun};

use crate::bundle::Bundle;
use crate::error::ServeError;
use std::alloc::Global;
use weslc_run::{RunRefusal, eval, run};
use weslc_values::{RunResult, RunSettings, inputs_of, result_text};
use wgsl_base::Text;

/// The lines about what the run of an entry point leaves.
pub(crate) fn run_entry(alloc: Global, bundle: Bundle) -> Result<String, ServeError>
    ensures { IfErr result IsOfRun }
{
    let Bundle {
        command: _,
        root,
        mut resolver,
        options,
        handed,
    } = bundle;
    let RunSettings {
        entry,
        inputs,
        bindings,
        overrides,
        expression: _,
    } = handed;
    let inputs = inputs_of(alloc, inputs)?;
    let entry = text_or_empty(&entry);
    let ran = run(
        alloc,
        &mut resolver,
        &root,
        &options,
        entry,
        &inputs,
        bindings.as_slice(),
        overrides.as_slice(),
    );
    match ran {
        Ok(ran) => text_of(alloc, &ran),
        Err(refusal) => Err(refused(refusal)),
    }
}

/// A text; nothing is the empty one. A run has an entry point's name, and an evaluation has an expression.
fn text_or_empty(text: &Option<Text>) -> &str {
    match text {
        Some(text) => text.as_str(),
        None => "",
    }
}

fn text_of(alloc: Global, ran: &RunResult) -> Result<String, ServeError>
    ensures { IfErr result IsOfRun }
{
    match result_text(alloc, ran) {
        Ok(text) => Ok(text),
        Err(_) => Err(ServeError::OutOfMemory),
    }
}

/// The value of the expression and a line break.
pub(crate) fn eval_expression(alloc: Global, bundle: &mut Bundle) -> Result<String, ServeError>
    ensures { IfErr result IsOfRun }
{
    let expression = text_or_empty(&bundle.handed.expression);
    match eval(
        alloc,
        &mut bundle.resolver,
        &bundle.root,
        &bundle.options,
        expression,
    ) {
        Ok(value) => Ok(format!(in alloc; "{value}\n")?),
        Err(refusal) => Err(refused(refusal)),
    }
}

fn refused(refusal: RunRefusal) -> ServeError
    ensures { IsOfRun result }
{
    match refusal {
        RunRefusal::Compile(error) => ServeError::Compile(error),
        RunRefusal::OutOfMemory => ServeError::OutOfMemory,
        refusal => ServeError::Run(refusal),
    }
}
