//! Calls of functions, in what a loop's header declares.

use std::collections::HashSet;
use wgsl_expressions::{
    Attribute, AttributeNode, Expression, ExpressionNode, FunctionCall, TemplateArgs,
    TypeExpression,
};
use wgsl_simple_statements::Declaration;

/// The names of the functions of a module whose calls may do something: those that aren't const by the rule.
pub type Effects<'a> = HashSet<&'a str>;

/// Whether an expression calls one of these functions.
#[cycle(calls)]
fn calls(expression: &Expression, effects: &Effects<'_>) -> bool {
    match expression {
        Expression::Literal(_) => false,
        Expression::Parenthesized(x) => calls(x.expression.node(), effects),
        Expression::NamedComponent(x) => calls(x.base.node(), effects),
        Expression::Indexing(x) => {
            calls(x.base.node(), effects) || calls(x.index.node(), effects)
        }
        Expression::Unary(x) => calls(x.operand.node(), effects),
        Expression::Binary(x) => calls(x.left.node(), effects) || calls(x.right.node(), effects),
        Expression::FunctionCall(x) => calls_in_call(x.get(), effects),
        Expression::TypeOrIdentifier(x) => calls_in_template(&x.template_args, effects),
    }
}

#[cycle(calls)]
fn calls_in_call(call: &FunctionCall, effects: &Effects<'_>) -> bool {
    effects.contains(call.ty.ident.as_str())
        || calls_in_template(&call.ty.template_args, effects)
        || calls_in_any(call.arguments.as_slice(), effects)
}

#[cycle(calls)]
fn calls_in_template(arguments: &TemplateArgs, effects: &Effects<'_>) -> bool {
    let Some(arguments) = arguments else {
        return false;
    };
    for argument in arguments.get().as_slice() {
        if calls(argument.expression.node(), effects) {
            return true;
        }
    }
    false
}

#[cycle(calls)]
fn calls_in_any(expressions: &[ExpressionNode], effects: &Effects<'_>) -> bool {
    for expression in expressions {
        if calls(expression.node(), effects) {
            return true;
        }
    }
    false
}

fn calls_in_maybe(expression: &Option<ExpressionNode>, effects: &Effects<'_>) -> bool {
    match expression {
        None => false,
        Some(expression) => calls(expression.node(), effects),
    }
}

fn calls_in_attribute(attribute: &Attribute, effects: &Effects<'_>) -> bool {
    match attribute {
        Attribute::Align(x)
        | Attribute::Binding(x)
        | Attribute::BlendSrc(x)
        | Attribute::Group(x)
        | Attribute::Id(x)
        | Attribute::Location(x)
        | Attribute::Size(x)
        | Attribute::If(x)
        | Attribute::Elif(x) => calls(x.node(), effects),
        Attribute::WorkgroupSize(x) => {
            let sizes = x.get();
            calls(sizes.x.node(), effects)
                || calls_in_maybe(&sizes.y, effects)
                || calls_in_maybe(&sizes.z, effects)
        }
        Attribute::Custom(x) => match &x.get().arguments {
            None => false,
            Some(arguments) => calls_in_any(arguments.as_slice(), effects),
        },
        _ => false,
    }
}

fn calls_in_attributes(attributes: &[AttributeNode], effects: &Effects<'_>) -> bool {
    for attribute in attributes {
        if calls_in_attribute(attribute.node(), effects) {
            return true;
        }
    }
    false
}

fn calls_in_type(ty: &Option<TypeExpression>, effects: &Effects<'_>) -> bool {
    match ty {
        None => false,
        Some(ty) => calls_in_template(&ty.template_args, effects),
    }
}

/// Whether a declaration calls one of these functions.
pub fn calls_in_declaration(declaration: &Declaration, effects: &Effects<'_>) -> bool {
    calls_in_attributes(declaration.attributes.as_slice(), effects)
        || calls_in_type(&declaration.ty, effects)
        || calls_in_maybe(&declaration.initializer, effects)
}
