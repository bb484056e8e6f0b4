//! Names: what has a value is written as that value.

ghost use Rattle.std.specs.Prelude.{◌≡◌, [], Ok};
ghost use Rattle.core_syntax.specs.View.{tree, node_tree};
ghost use Rattle.core_meaning.specs.Meaning as meaning;
ghost use Rattle.core_meaning.specs.ConstStage.{stage};
ghost use Rattle.core_eval.specs.Ends.{Gives};
ghost use Rattle.core_eval.specs.Scopes.{scope_of};
ghost use Rattle.core_written.specs.Lacking as spec;
ghost use Rattle.core_written.specs.Reduced as reduced;

use core_eval::{EvalError, Fault, NameFault, Scope, eval_value};
use core_syntax::{Expression, ExpressionNode};
use std::alloc::Global;
use wgsl_base::{CloneIn, OrOutOfMemory};
use wgsl_shader_type::LiteralInstance;

/// What lowering makes of an expression.
#[derive(Drop)]
pub enum Reduced {
    /// Its value.
    Value(LiteralInstance),
    /// The expression with its parts lowered, where it has no value.
    Parts(ExpressionNode),
}

impl Reduced {
    /// The value, if this is one.
    pub fn value(&self) -> Option<LiteralInstance>
        ensures { result ≡ (reduced.reduction self.now).value }
    {
        match self {
            Reduced::Value(value) => Some(*value),
            Reduced::Parts(_) => None,
        }
    }
}

/// Whether the fault says that an expression has no const value.
pub fn lacks_value(error: &EvalError) -> bool
    ensures { result ≡ spec.lacks error.now }
{
    matches!(
        error,
        OrOutOfMemory::Error(Fault::Name(NameFault::NotAccessible | NameFault::NotConst, _))
    )
}

// The value of an expression at the const stage, if it has one.
fn const_value(
    alloc: Global,
    scope: &Scope<'_>,
    expression: &Expression,
) -> Result<Option<LiteralInstance>, EvalError>
    ensures { Gives (λ v. v) (spec.const_value (meaning.value (stage (scope_of scope.now)) [] (tree expression.now))) result }
{
    match eval_value(alloc, scope, expression) {
        Ok(value) => Ok(Some(value)),
        Err(error) => {
            if lacks_value(&error) {
                Ok(None)
            } else {
                Err(error)
            }
        }
    }
}

/// What a name becomes: its value, or itself.
pub fn named(alloc: Global, scope: &Scope<'_>, node: &ExpressionNode) -> Result<Reduced, EvalError>
    ensures { Gives reduced.reduction (reduced.reduced_to (spec.const_value (meaning.value (stage (scope_of scope.now)) [] (node_tree node.now))) (spec.unless_const (meaning.value (stage (scope_of scope.now)) [] (node_tree node.now)) (Ok (node_tree node.now)))) result }
{
    match const_value(alloc, scope, node.node())? {
        Some(value) => Ok(Reduced::Value(value)),
        None => Ok(Reduced::Parts(node.clone_in(alloc)?)),
    }
}
