//! Calls that do nothing: of functions that are const by the rule.

use wgsl_eval_names::{Declared, Meaning};
use wgsl_expressions::{
    Attribute, AttributeNode, Expression, ExpressionNode, FunctionCall, TemplateArgs,
    TypeExpression,
};
use wgsl_lower_expressions::{Evaluator, Stop, fold_attributes, fold_call};
use wgsl_simple_statements::FunctionCallStatement;

/// Whether what a type expression names is no function, or one that is const by the rule.
fn is_quiet_callee(evaluator: &mut Evaluator<'_>, ty: &TypeExpression) -> Result<bool, Stop> {
    let made = evaluator.target(ty);
    let Some(target) = evaluator.forgiven(made, true)? else {
        return Ok(true);
    };
    let Meaning::Module(number) = target.meaning else {
        return Ok(true);
    };
    match evaluator.directory().declared(number) {
        Declared::Function(_) => Ok(evaluator.is_const_function(number)),
        _ => Ok(true),
    }
}

/// Whether all functions that are called in an expression are const by the rule.
#[cycle(quiet)]
fn is_quiet(evaluator: &mut Evaluator<'_>, node: &ExpressionNode) -> Result<bool, Stop> {
    match node.node() {
        Expression::Literal(_) => Ok(true),
        Expression::Parenthesized(x) => is_quiet(evaluator, &x.expression),
        Expression::NamedComponent(x) => is_quiet(evaluator, &x.base),
        Expression::Indexing(x) => {
            Ok(is_quiet(evaluator, &x.base)? && is_quiet(evaluator, &x.index)?)
        }
        Expression::Unary(x) => is_quiet(evaluator, &x.operand),
        Expression::Binary(x) => Ok(
            is_quiet(evaluator, &x.left)? && is_quiet(evaluator, &x.right)?,
        ),
        Expression::FunctionCall(x) => is_quiet_call(evaluator, x.get()),
        Expression::TypeOrIdentifier(x) => is_quiet_template(evaluator, &x.template_args),
    }
}

#[cycle(quiet)]
fn is_quiet_template(
    evaluator: &mut Evaluator<'_>,
    arguments: &TemplateArgs,
) -> Result<bool, Stop> {
    let Some(arguments) = arguments else {
        return Ok(true);
    };
    for argument in arguments.get().as_slice() {
        if !is_quiet(evaluator, &argument.expression)? {
            return Ok(false);
        }
    }
    Ok(true)
}

#[cycle(quiet)]
fn is_quiet_call(evaluator: &mut Evaluator<'_>, call: &FunctionCall) -> Result<bool, Stop> {
    if !is_quiet_callee(evaluator, &call.ty)?
        || !is_quiet_template(evaluator, &call.ty.template_args)?
    {
        return Ok(false);
    }
    for argument in call.arguments.as_slice() {
        if !is_quiet(evaluator, argument)? {
            return Ok(false);
        }
    }
    Ok(true)
}

fn is_must_use(attributes: &[AttributeNode]) -> bool {
    for attribute in attributes {
        if let Attribute::MustUse = attribute.node() {
            return true;
        }
    }
    false
}

/// Whether a callee is a function that is const by the rule and whose result need not be used.
fn may_go(evaluator: &mut Evaluator<'_>, ty: &TypeExpression) -> Result<bool, Stop> {
    let target = evaluator.target(ty)?;
    let Meaning::Module(number) = target.meaning else {
        return Ok(false);
    };
    match evaluator.directory().declared(number) {
        Declared::Function(header) => {
            Ok(evaluator.is_const_function(number) && !is_must_use(header.attributes))
        }
        _ => Ok(false),
    }
}

/// Folds a call that stands as a statement, unless it goes, as the answer says: one without attributes that does nothing.
pub(crate) fn fold_call_statement(
    evaluator: &mut Evaluator<'_>,
    x: &mut FunctionCallStatement,
) -> Result<bool, Stop> {
    if x.attributes.is_empty()
        && may_go(evaluator, &x.call.ty)?
        && is_quiet_call(evaluator, &x.call)?
    {
        return Ok(true);
    }
    fold_attributes(evaluator, &mut x.attributes)?;
    fold_call(evaluator, &mut x.call)?;
    Ok(false)
}
