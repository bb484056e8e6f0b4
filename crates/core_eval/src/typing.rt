//! Types of expressions, and values of initializers, at the const stage.

ghost use Rattle.std.specs.Prelude.{◌≡◌, [], map, Some, None};
ghost use Rattle.std.specs.Option.{option_map};
ghost use Rattle.core_syntax.specs.Tree.{exps};
ghost use Rattle.core_syntax.specs.View.{tree, node_tree, type_tree, call_layer, declaration_tree};
ghost use Rattle.core_syntax.specs.declared.declaration.GlobalDeclaration.TheVariants.{Declaration as TheDeclaration};
ghost use Rattle.core_meaning.specs.Meaning as spec;
ghost use Rattle.core_meaning.specs.Outcome.{bind, at_once};
ghost use Rattle.core_meaning.specs.ConstStage.{stage, result_written};
ghost use Rattle.core_meaning.specs.Names.{find, built_in_type};
ghost use Rattle.core_eval.specs.Ends.{Ends};
ghost use Rattle.core_eval.specs.Scopes.{scope_of, outside};

use crate::error::{EvalError, computed, named};
use crate::evaluate::{eval_value, name_value};
use crate::find::{built_in_type, declaration, found, plain_name};
use crate::literal::literal_value;
use crate::scope::{Declarations, Scope, Values};
use core_meaning::{
    NameFault, ScalarType, convert_scalar, scalar_binary_type, scalar_unary_type, type_of,
};
use core_syntax::{
    Declaration, Expression, ExpressionNode, Function, FunctionCall, GlobalDeclaration,
    TypeExpression,
};
use std::alloc::Global;
use wgsl_base::{Items, Text};
use wgsl_shader_type::LiteralInstance;

#[inline(never)]
fn name_type(alloc: Global, scope: &Scope<'_>, name: &Text) -> Result<ScalarType, EvalError>
    ensures { Ends (spec.local_or (find name.now scope.now.parameters.now) (spec.type_in_world ((stage (scope_of scope.now)).value_of name.now))) result }
{
    match found(name, scope.parameters) {
        Some(ty) => Ok(ty),
        None => Ok(type_of(name_value(alloc, scope, name)?)),
    }
}

fn construct_type(
    alloc: Global,
    name: &Text,
    arguments: &[ScalarType],
) -> Result<ScalarType, EvalError>
    ensures { Ends (bind (at_once (built_in_type name.now)) (λ t. spec.construct_type name.now t arguments.now)) result }
{
    let ty = built_in_type(alloc, name)?;
    match arguments {
        [] | [_] => Ok(ty),
        _ => Err(named(alloc, NameFault::Signature, name)),
    }
}

/// The type of what a function hands back.
fn result_type(
    alloc: Global,
    scope: &Scope<'_>,
    name: &Text,
    function: &Function,
) -> Result<ScalarType, EvalError>
    ensures { Ends (result_written (scope_of scope.now) name.now (option_map type_tree function.now.return_type)) result }
{
    match &function.return_type {
        Some(ty) => ty_eval_ty(alloc, scope, ty),
        None => Err(named(alloc, NameFault::Void, name)),
    }
}

fn declared_type(
    alloc: Global,
    scope: &Scope<'_>,
    name: &Text,
    arguments: &[ScalarType],
) -> Result<ScalarType, EvalError>
    ensures { Ends ((stage (scope_of scope.now)).result_type name.now arguments.now) result }
{
    match declaration(name, scope.declarations) {
        Some(GlobalDeclaration::Function(function)) => result_type(alloc, scope, name, function),
        Some(GlobalDeclaration::Declaration(_)) => Err(named(alloc, NameFault::NotCallable, name)),
        None => construct_type(alloc, name, arguments),
    }
}

#[inline(never)]
fn call_type(
    alloc: Global,
    scope: &Scope<'_>,
    name: &Text,
    arguments: &[ScalarType],
) -> Result<ScalarType, EvalError>
    ensures { Ends (spec.called_or name.now (find name.now scope.now.parameters.now) ((stage (scope_of scope.now)).result_type name.now arguments.now)) result }
{
    if found(name, scope.parameters).is_some() {
        Err(named(alloc, NameFault::NotCallable, name))
    } else {
        declared_type(alloc, scope, name, arguments)
    }
}

/// The type of an expression at the const stage, or its fault.
#[cycle(typing)]
#[tactic(auto, using(core_syntax::proofs::Trees::tree_of_call))]
pub fn eval_ty(
    alloc: Global,
    scope: &Scope<'_>,
    expression: &Expression,
) -> Result<ScalarType, EvalError>
    ensures { Ends (spec.typed (stage (scope_of scope.now)) scope.now.parameters.now (tree expression.now)) result }
{
    match expression {
        Expression::Literal(literal) => Ok(type_of(literal_value(*literal))),
        Expression::Parenthesized(x) => eval_ty(alloc, scope, x.expression.node()),
        Expression::Unary(x) => {
            let ty = eval_ty(alloc, scope, x.operand.node())?;
            computed(alloc, scalar_unary_type(x.operator, ty))
        }
        Expression::Binary(x) => {
            let left = eval_ty(alloc, scope, x.left.node())?;
            let right = eval_ty(alloc, scope, x.right.node())?;
            computed(alloc, scalar_binary_type(x.operator, left, right))
        }
        Expression::FunctionCall(x) => typed_call(alloc, scope, x.get()),
        Expression::TypeOrIdentifier(x) => {
            let name = plain_name(alloc, x)?;
            name_type(alloc, scope, name)
        }
    }
}

#[cycle(typing)]
#[inline(never)]
fn typed_call(alloc: Global, scope: &Scope<'_>, x: &FunctionCall) -> Result<ScalarType, EvalError>
    ensures { Ends (spec.typed (stage (scope_of scope.now)) scope.now.parameters.now (call_layer tree x.now)) result }
{
    let arguments = types(alloc, scope, x.arguments.as_slice())?;
    let name = plain_name(alloc, &x.ty)?;
    call_type(alloc, scope, name, arguments.as_slice())
}

#[cycle(typing)]
fn types(
    alloc: Global,
    scope: &Scope<'_>,
    nodes: &[ExpressionNode],
) -> Result<Items<ScalarType>, EvalError>
    ensures { Ends (spec.all_typed (stage (scope_of scope.now)) scope.now.parameters.now (exps (map node_tree nodes.now))) result }
{
    let mut done = Items::new(alloc);
    for node in nodes {
        done.push(eval_ty(alloc, scope, node.node())?)?;
    }
    Ok(done)
}

/// The type that a text names.
pub fn ty_eval_ty(
    alloc: Global,
    scope: &Scope<'_>,
    ty: &TypeExpression,
) -> Result<ScalarType, EvalError>
    ensures { Ends (spec.type_written (stage (scope_of scope.now)) (type_tree ty.now)) result }
{
    let name = plain_name(alloc, ty)?;
    if declaration(name, scope.declarations).is_some() {
        Err(named(alloc, NameFault::NotType, name))
    } else {
        built_in_type(alloc, name)
    }
}

fn initial_of_type(
    alloc: Global,
    scope: &Scope<'_>,
    ty: &TypeExpression,
    expression: &Expression,
) -> Result<LiteralInstance, EvalError>
    ensures { Ends (spec.initial (stage (scope_of scope.now)) (Some (type_tree ty.now)) (tree expression.now)) result }
{
    let ty = ty_eval_ty(alloc, scope, ty)?;
    let value = eval_value(alloc, scope, expression)?;
    computed(alloc, convert_scalar(ty, value))
}

fn initial_untyped(
    alloc: Global,
    scope: &Scope<'_>,
    expression: &Expression,
) -> Result<LiteralInstance, EvalError>
    requires { scope.now.parameters.now ≡ [] }
    ensures { Ends (spec.initial (stage (scope_of scope.now)) None (tree expression.now)) result }
{
    let _ty = eval_ty(alloc, scope, expression)?;
    eval_value(alloc, scope, expression)
}

/// The value of a const, where these consts have values by now.
pub fn const_value(
    alloc: Global,
    declarations: &Declarations<'_>,
    consts: &Values<'_>,
    declared: &Declaration,
) -> Result<LiteralInstance, EvalError>
    ensures { Ends (spec.const_in (stage (outside declarations.now consts.now)) declared.now.ident.name (Some (declaration_tree (TheDeclaration declared.now)))) result }
{
    let scope = Scope {
        declarations,
        consts,
        parameters: &[],
    };
    let Some(initializer) = &declared.initializer else {
        return Err(named(alloc, NameFault::UninitConst, &declared.ident.name));
    };
    match &declared.ty {
        Some(ty) => initial_of_type(alloc, &scope, ty, initializer.node()),
        None => initial_untyped(alloc, &scope, initializer.node()),
    }
}
