//! Values of expressions at the const stage.

ghost use Rattle.std.specs.Prelude.{◌≡◌, [], map};
ghost use Rattle.core_syntax.specs.Tree.{exps};
ghost use Rattle.core_syntax.specs.View.{tree, node_tree, type_tree, call_layer};
ghost use Rattle.core_meaning.specs.Meaning as spec;
ghost use Rattle.core_meaning.specs.Values.{decides};
ghost use Rattle.core_meaning.specs.Names.{plain_name};
ghost use Rattle.core_meaning.specs.Programs.{called_at, here_if};
ghost use Rattle.core_meaning.specs.ConstStage.{stage, callee_of};
ghost use Rattle.core_eval.specs.Ends.{Ends, Gives};
ghost use Rattle.core_eval.specs.Scopes.{scope_of};

use crate::error::{EvalError, computed, named};
use crate::find::{built_in_type, declaration, found, plain_name};
use crate::literal::literal_value;
use crate::scope::Scope;
use core_meaning::{NameFault, ScalarType, binary_scalar_op, construct_scalar, unary_scalar_op};
use core_syntax::{
    BinaryOperator, Expression, ExpressionNode, FunctionCall, GlobalDeclaration, TypeExpression,
};
use std::alloc::Global;
use wgsl_base::{Items, Text};
use wgsl_shader_type::LiteralInstance;
use wgsl_words::ShaderStage;

/// The value of a name: of a const that has one by now.
#[inline(never)]
pub(crate) fn name_value(
    alloc: Global,
    scope: &Scope<'_>,
    name: &Text,
) -> Result<LiteralInstance, EvalError>
    ensures { Ends ((stage (scope_of scope.now)).value_of name.now) result }
{
    if found(name, scope.parameters).is_some() {
        return Err(named(alloc, NameFault::NotAccessible, name));
    }
    if let Some(value) = scope.consts.get(name.as_str()) {
        return Ok(*value);
    }
    match declaration(name, scope.declarations) {
        Some(GlobalDeclaration::Declaration(_)) => Err(named(alloc, NameFault::CyclicDecl, name)),
        Some(GlobalDeclaration::Function(_)) | None => Err(named(
            alloc,
            NameFault::UnknownDecl,
            name,
        )),
    }
}

/// The type that a name constructs. Calls of functions aren't evaluated yet.
pub fn callee(alloc: Global, scope: &Scope<'_>, name: &Text) -> Result<ScalarType, EvalError>
    ensures { Gives (λ t. t) (callee_of (scope_of scope.now) name.now) result }
{
    if found(name, scope.parameters).is_some() {
        Err(named(alloc, NameFault::NotCallable, name))
    } else if declaration(name, scope.declarations).is_some() {
        Err(named(alloc, NameFault::Todo, name))
    } else {
        built_in_type(alloc, name)
    }
}

/// The value of a call of a constructor with these arguments.
pub fn call(
    alloc: Global,
    scope: &Scope<'_>,
    name: &Text,
    arguments: &[LiteralInstance],
) -> Result<LiteralInstance, EvalError>
    ensures { Ends ((stage (scope_of scope.now)).result_of name.now arguments.now) result }
{
    let ty = callee(alloc, scope, name)?;
    match arguments {
        [] => computed(alloc, construct_scalar(ty, LiteralInstance::AbstractInt(0))),
        [value] => computed(alloc, construct_scalar(ty, *value)),
        _ => Err(named(alloc, NameFault::Signature, name)),
    }
}

/// Whether the left operand of `&&` or `||` is the result already (WGSL, "Logical Expressions").
pub fn decides(operator: BinaryOperator, left: LiteralInstance) -> bool
    ensures { result ≡ decides operator left }
{
    matches!(
        (operator, left),
        (
            BinaryOperator::ShortCircuitAnd,
            LiteralInstance::Bool(false)
        ) | (BinaryOperator::ShortCircuitOr, LiteralInstance::Bool(true))
    )
}

/// The value of an expression at the const stage, or its fault.
#[cycle(evaluating)]
#[tactic(auto, using(core_syntax::proofs::Trees::tree_of_call))]
pub fn eval_value(
    alloc: Global,
    scope: &Scope<'_>,
    expression: &Expression,
) -> Result<LiteralInstance, EvalError>
    ensures { Ends (spec.value (stage (scope_of scope.now)) [] (tree expression.now)) result }
{
    match expression {
        Expression::Literal(literal) => Ok(literal_value(*literal)),
        Expression::Parenthesized(x) => eval_value(alloc, scope, x.expression.node()),
        Expression::Unary(x) => {
            let value = eval_value(alloc, scope, x.operand.node())?;
            computed(
                alloc,
                unary_scalar_op(x.operator, value, ShaderStage::Const),
            )
        }
        Expression::Binary(x) => {
            let left = eval_value(alloc, scope, x.left.node())?;
            if decides(x.operator, left) {
                return Ok(left);
            }
            let right = eval_value(alloc, scope, x.right.node())?;
            computed(
                alloc,
                binary_scalar_op(x.operator, left, right, ShaderStage::Const),
            )
        }
        Expression::FunctionCall(x) => call_value(alloc, scope, x.get()),
        Expression::TypeOrIdentifier(x) => {
            let name = plain_name(alloc, x)?;
            name_value(alloc, scope, name)
        }
    }
}

#[cycle(evaluating)]
#[inline(never)]
fn call_value(
    alloc: Global,
    scope: &Scope<'_>,
    x: &FunctionCall,
) -> Result<LiteralInstance, EvalError>
    ensures { Ends (spec.value (stage (scope_of scope.now)) [] (call_layer tree x.now)) result }
{
    let arguments = values(alloc, scope, x.arguments.as_slice())?;
    let name = plain_name(alloc, &x.ty)?;
    call(alloc, scope, name, arguments.as_slice())
}

/// The values of expressions, in order.
#[cycle(evaluating)]
pub fn values(
    alloc: Global,
    scope: &Scope<'_>,
    nodes: &[ExpressionNode],
) -> Result<Items<LiteralInstance>, EvalError>
    ensures { Ends (spec.values (stage (scope_of scope.now)) [] (exps (map node_tree nodes.now))) result }
{
    let mut done = Items::new(alloc);
    for node in nodes {
        done.push(eval_value(alloc, scope, node.node())?)?;
    }
    Ok(done)
}
