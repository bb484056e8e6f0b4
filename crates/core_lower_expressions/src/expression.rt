//! Lowered expressions. One walk finds the value of an expression, or the expression with its parts lowered.

ghost use Rattle.std.specs.Prelude.{◌≡◌, [], map, Ok, Err, IfOk};
ghost use Rattle.wgsl_base.specs.Memory.{UnlessOutOfMemory};
ghost use Rattle.core_syntax.specs.Tree.{binary, exps};
ghost use Rattle.core_syntax.specs.View.{tree, node_tree, type_tree, call_layer};
ghost use Rattle.core_meaning.specs.Meaning as meaning;
ghost use Rattle.core_meaning.specs.ConstStage.{stage};
ghost use Rattle.core_written.specs.Ends.{Gives};
ghost use Rattle.core_written.specs.Scopes.{scope_of};
ghost use Rattle.core_lower_expressions.specs.Computed as spec;
ghost use Rattle.core_lower_expressions.specs.Reduced as reduced;

use core_syntax::{
    BinaryExpression, BinaryOperator, Expression, ExpressionNode, FunctionCall,
    ParenthesizedExpression, Span, Spanned, TypeExpression, UnaryExpression, UnaryOperator,
};
use core_written::{
    EvalError, Reduced, Scope, call, callee, computed, decides, lacks_value, literal_value, named,
    plain_name, to_expr, values,
};
use std::alloc::{AllocError, Global};
use wgsl_base::{Boxed, CloneIn, Items, Text};
use wgsl_scalar::{binary_scalar_op, unary_scalar_op};
use wgsl_shader_type::LiteralInstance;
use wgsl_words::ShaderStage;

/// What lowering makes of the arguments of a call.
#[derive(Drop)]
pub(crate) struct Arguments {
    /// Their values, if each has one.
    pub(crate) values: Option<Items<LiteralInstance>>,
    /// What is written for them.
    pub(crate) nodes: Items<ExpressionNode>,
}

// The values of expressions at the const stage, if each has one.
fn const_values(
    alloc: Global,
    scope: &Scope<'_>,
    nodes: &[ExpressionNode],
) -> Result<Option<Items<LiteralInstance>>, EvalError>
    ensures { Gives (λ v. v) (spec.const_value (meaning.values (stage (scope_of scope.now)) [] (exps (map node_tree nodes.now)))) result }
{
    match values(alloc, scope, nodes) {
        Ok(values) => Ok(Some(values)),
        Err(error) => {
            if lacks_value(&error) {
                Ok(None)
            } else {
                Err(error)
            }
        }
    }
}

// What is written for an expression at a place.
fn written(alloc: Global, whole: Reduced, span: Span) -> Result<ExpressionNode, AllocError>
    ensures { IfOk result (λ node. node_tree node ≡ (reduced.reduction whole).text) }
{
    match whole {
        Reduced::Value(value) => {
            let expression = to_expr(alloc, value, span)?;
            Spanned::new(alloc, expression, span)
        }
        Reduced::Parts(node) => Ok(node),
    }
}

/// The expression with outermost constant expressions written as their values.
#[tactic(auto, using(crate::proofs::Reduces::lowered_from))]
pub fn lowered(
    alloc: Global,
    scope: &Scope<'_>,
    node: &ExpressionNode,
) -> Result<ExpressionNode, EvalError>
    ensures { Gives node_tree (spec.lowered (scope_of scope.now) (node_tree node.now)) result }
{
    let whole = reduce(alloc, scope, node)?;
    Ok(written(alloc, whole, node.span())?)
}

// In parentheses: a value is written without them.
#[tactic(auto, using(core_syntax::proofs::Trees::tree_of_parenthesized))]
fn in_parentheses(alloc: Global, inner: Reduced, span: Span) -> Result<Reduced, AllocError>
    ensures { IfOk result (λ whole. reduced.reduction whole ≡ reduced.in_parentheses (reduced.reduction inner)) }
{
    match inner {
        Reduced::Value(value) => Ok(Reduced::Value(value)),
        Reduced::Parts(expression) => {
            let tree = Expression::Parenthesized(ParenthesizedExpression { expression });
            Ok(Reduced::Parts(Spanned::new(alloc, tree, span)?))
        }
    }
}

#[tactic(auto, using(core_syntax::proofs::Trees::tree_of_unary))]
fn under_operator(
    alloc: Global,
    operator: UnaryOperator,
    operand: Reduced,
    span: Span,
) -> Result<Reduced, EvalError>
    ensures { Gives reduced.reduction (reduced.under_operator operator (reduced.reduction operand)) result }
{
    match operand {
        Reduced::Value(value) => {
            let value = computed(alloc, unary_scalar_op(operator, value, ShaderStage::Const))?;
            Ok(Reduced::Value(value))
        }
        Reduced::Parts(operand) => {
            let tree = Expression::Unary(UnaryExpression { operator, operand });
            Ok(Reduced::Parts(Spanned::new(alloc, tree, span)?))
        }
    }
}

// The operands with their operator, where one of them has no value.
#[tactic(auto, using(core_syntax::proofs::Trees::tree_of_binary))]
fn joined(
    alloc: Global,
    x: &BinaryExpression,
    left: Reduced,
    right: Reduced,
    span: Span,
) -> Result<Reduced, AllocError>
    ensures { IfOk result (λ whole. reduced.reduction whole ≡ reduced.rewritten (binary x.now.operator (reduced.reduction left).text (reduced.reduction right).text)) }
{
    let left = written(alloc, left, x.left.span())?;
    let right = written(alloc, right, x.right.span())?;
    let operator = x.operator;
    let tree = Expression::Binary(BinaryExpression {
        operator,
        left,
        right,
    });
    Ok(Reduced::Parts(Spanned::new(alloc, tree, span)?))
}

fn between_operands(
    alloc: Global,
    x: &BinaryExpression,
    left: Reduced,
    right: Reduced,
    span: Span,
) -> Result<Reduced, EvalError>
    ensures { Gives reduced.reduction (reduced.between_operands x.now.operator (reduced.reduction left) (reduced.reduction right)) result }
{
    let Some(first) = left.value() else {
        return Ok(joined(alloc, x, left, right, span)?);
    };
    let Some(second) = right.value() else {
        return Ok(joined(alloc, x, left, right, span)?);
    };
    let operation = binary_scalar_op(x.operator, first, second, ShaderStage::Const);
    Ok(Reduced::Value(computed(alloc, operation)?))
}

// The name of a callee that is a constructor.
fn constructor_name<'a>(
    alloc: Global,
    scope: &Scope<'_>,
    ty: &'a TypeExpression,
) -> Result<&'a Text, EvalError>
    ensures { Gives (λ name. name.now) (reduced.constructor_name (scope_of scope.now) (type_tree ty.now)) result }
{
    let name = plain_name(alloc, ty)?;
    let _ty = callee(alloc, scope, name)?;
    Ok(name)
}

// A call whose callee is none that is evaluated: that fault comes behind the arguments' values.
#[tactic(auto, using(crate::proofs::Reduces::call_refused))]
fn refused_call(
    alloc: Global,
    scope: &Scope<'_>,
    x: &FunctionCall,
    fault: EvalError,
) -> Result<Reduced, EvalError>
    requires { UnlessOutOfMemory (λ f. reduced.constructor_name (scope_of scope.now) (type_tree x.now.ty) ≡ Err f) fault }
    ensures { Gives reduced.reduction (reduced.reduced (scope_of scope.now) (call_layer tree x.now)) result }
{
    let _values = const_values(alloc, scope, x.arguments.as_slice())?;
    Err(fault)
}

// A call of a constructor: its value, where each argument has one.
#[tactic(auto, using(core_syntax::proofs::Trees::tree_of_call))]
fn constructed(
    alloc: Global,
    scope: &Scope<'_>,
    name: &Text,
    ty: &TypeExpression,
    arguments: Arguments,
    span: Span,
) -> Result<Reduced, EvalError>
    ensures { Gives reduced.reduction (reduced.of_arguments (scope_of scope.now) name.now (type_tree ty.now) (reduced.reductions arguments)) result }
{
    let Arguments { values, nodes } = arguments;
    let Some(values) = values else {
        let ty = ty.clone_in(alloc)?;
        let arguments = nodes;
        let call = Boxed::new(alloc, FunctionCall { ty, arguments })?;
        return Ok(Reduced::Parts(Spanned::new(alloc, Expression::FunctionCall(call), span)?));
    };
    let value = call(alloc, scope, name, values.as_slice())?;
    Ok(Reduced::Value(value))
}

// One argument more.
fn with_argument(
    alloc: Global,
    arguments: Arguments,
    argument: Reduced,
    span: Span,
) -> Result<Arguments, AllocError>
    ensures { IfOk result (λ more. reduced.reductions more ≡ reduced.with_argument (reduced.reductions arguments) (reduced.reduction argument)) }
{
    let Arguments { values, mut nodes } = arguments;
    let values = valued_too(values, argument.value())?;
    nodes.push(written(alloc, argument, span)?)?;
    Ok(Arguments { values, nodes })
}

fn valued_too(
    values: Option<Items<LiteralInstance>>,
    value: Option<LiteralInstance>,
) -> Result<Option<Items<LiteralInstance>>, AllocError>
    ensures { IfOk result (λ more. more ≡ reduced.all_valued values value) }
{
    let Some(mut values) = values else {
        return Ok(None);
    };
    let Some(value) = value else {
        return Ok(None);
    };
    values.push(value)?;
    Ok(Some(values))
}

/// One walk: the value of an expression, or the expression with its parts lowered.
#[cycle(reducing)]
pub(crate) fn reduce(
    alloc: Global,
    scope: &Scope<'_>,
    node: &ExpressionNode,
) -> Result<Reduced, EvalError>
    ensures { Gives reduced.reduction (reduced.reduced (scope_of scope.now) (node_tree node.now)) result }
{
    match node.node() {
        Expression::Literal(literal) => Ok(Reduced::Value(literal_value(*literal))),
        Expression::Parenthesized(x) => {
            let inner = reduce(alloc, scope, &x.expression)?;
            Ok(in_parentheses(alloc, inner, node.span())?)
        }
        Expression::Unary(x) => {
            let operand = reduce(alloc, scope, &x.operand)?;
            under_operator(alloc, x.operator, operand, node.span())
        }
        Expression::Binary(x) => reduce_binary(alloc, scope, x, node.span()),
        Expression::FunctionCall(x) => reduce_call(alloc, scope, x.get(), node.span()),
        Expression::TypeOrIdentifier(_) => named(alloc, scope, node),
    }
}

#[cycle(reducing)]
fn reduce_binary(
    alloc: Global,
    scope: &Scope<'_>,
    x: &BinaryExpression,
    span: Span,
) -> Result<Reduced, EvalError>
    ensures { Gives reduced.reduction (reduced.reduced (scope_of scope.now) (binary x.now.operator (node_tree x.now.left) (node_tree x.now.right))) result }
{
    let left = reduce(alloc, scope, &x.left)?;
    if is_decided(x.operator, &left) {
        return Ok(left);
    }
    let right = reduce(alloc, scope, &x.right)?;
    between_operands(alloc, x, left, right, span)
}

#[cycle(reducing)]
fn reduce_call(
    alloc: Global,
    scope: &Scope<'_>,
    x: &FunctionCall,
    span: Span,
) -> Result<Reduced, EvalError>
    ensures { Gives reduced.reduction (reduced.reduced (scope_of scope.now) (call_layer tree x.now)) result }
{
    match constructor_name(alloc, scope, &x.ty) {
        Ok(name) => {
            let arguments = reduce_arguments(alloc, scope, x.arguments.as_slice())?;
            constructed(alloc, scope, name, &x.ty, arguments, span)
        }
        Err(fault) => refused_call(alloc, scope, x, fault),
    }
}

#[cycle(reducing)]
fn reduce_arguments(
    alloc: Global,
    scope: &Scope<'_>,
    nodes: &[ExpressionNode],
) -> Result<Arguments, EvalError>
    ensures { Gives reduced.reductions (reduced.all_reduced (scope_of scope.now) (exps (map node_tree nodes.now))) result }
{
    let mut arguments = Arguments {
        values: Some(Items::new(alloc)),
        nodes: Items::new(alloc),
    };
    for node in nodes {
        let argument = reduce(alloc, scope, node)?;
        arguments = with_argument(alloc, arguments, argument, node.span())?;
    }
    Ok(arguments)
}

// Whether the left operand is the result already.
fn is_decided(operator: BinaryOperator, left: &Reduced) -> bool
    ensures { result ≡ reduced.decided_by operator (reduced.reduction left.now).value }
{
    match left {
        Reduced::Value(value) => decides(operator, *value),
        Reduced::Parts(_) => false,
    }
}
