//! Values as they are printed.

ghost use Rattle.std.specs.Prelude.{◌≡◌, IfOk};
ghost use Rattle.wgsl_expressions.specs.Print.{exp_text};
ghost use Rattle.wgsl_expressions.specs.View.{tree};
ghost use Rattle.wgsl_to_expr.specs.Written.{Writes};
ghost use Rattle.weslc_values.specs.Texts.{value_text, itself};

use std::alloc::{AllocError, Global};
use wgsl_base::{OrOutOfMemory, Text};
use wgsl_expressions::Expression;
use wgsl_instance::Instance;
use wgsl_to_expr::written_instance;

/// The text of a value, as `42u`, `(-3)`, `vec2(1u, 2u)` or `array(0u, 3u)`: of the expression that is written for it. A part for which
/// none is written is the error.
pub fn instance_text<'a>(
    alloc: Global,
    value: &'a Instance,
) -> Result<Text, OrOutOfMemory<&'a Instance>>
    ensures { Writes itself (value_text value.now) result }
{
    let expression = written_instance(alloc, value)?;
    Ok(expression_text(alloc, &expression)?)
}

fn expression_text(alloc: Global, expression: &Expression) -> Result<Text, AllocError>
    ensures { IfOk result (λ text. text ≡ exp_text (tree expression.now)) }
{
    let text = expression.to_string(alloc)?;
    Ok(Text::from_string(text))
}
