//! The names that expressions are.

ghost use Rattle.std.specs.Prelude.{◌≡◌, IfOk, is_some};
ghost use Rattle.std.specs.Option.{option_copied};
ghost use Rattle.wgsl_attribute_words.specs.Names as names;

use crate::choices::{
    access_mode, address_space, builtin_value, interpolation_sampling, interpolation_type, severity,
};
use std::alloc::{AllocError, Global};
use wgsl_base::Text;
use wgsl_expressions::{Expression, ExpressionNode, NamedComponentExpression, TypeExpression};
use wgsl_words::{
    AccessMode, AddressSpace, BuiltinValue, DiagnosticSeverity, InterpolationSampling,
    InterpolationType,
};

fn alone(ty: &TypeExpression) -> Option<&str>
    ensures { option_copied result ≡ names.alone ty.now.path ty.now.template_args ty.now.ident.name }
{
    match (&ty.path, &ty.template_args) {
        (None, None) => Some(ty.ident.as_str()),
        (None, Some(_)) => None,
        (Some(_), _) => None,
    }
}

/// The name that an expression is, if it is no more than a name.
fn name_of(expression: &Expression) -> Option<&str>
    ensures { option_copied result ≡ names.name_of expression.now }
{
    match expression {
        Expression::TypeOrIdentifier(ty) => alone(ty),
        _ => None,
    }
}

fn name_text(alloc: Global, expression: &Expression) -> Result<Option<Text>, AllocError>
    ensures { IfOk result (λ text. text ≡ names.name_of expression.now) }
{
    match name_of(expression) {
        None => Ok(None),
        Some(name) => Ok(Some(Text::from_str(alloc, name)?)),
    }
}

fn two_names(
    alloc: Global,
    component: &NamedComponentExpression,
) -> Result<Option<Text>, AllocError>
    ensures { IfOk result (λ text. text ≡ names.two_names component.now) }
{
    match name_text(alloc, component.base.node())? {
        None => Ok(None),
        Some(first) => {
            let mut rule = first;
            rule.push_str(".")?;
            rule.push_str(component.component.as_str())?;
            Ok(Some(rule))
        }
    }
}

/// The rule of a diagnostic that an expression is: a name, or two names with a period between.
pub(crate) fn rule_of(alloc: Global, expression: &Expression) -> Result<Option<Text>, AllocError>
    ensures { IfOk result (λ rule. rule ≡ names.rule_of expression.now) }
{
    match expression {
        Expression::NamedComponent(x) => two_names(alloc, x),
        other => name_text(alloc, other),
    }
}

/// Whether an expression is a rule of a diagnostic.
fn is_rule(expression: &Expression) -> bool
    ensures { result ≡ is_some (names.rule_of expression.now) }
{
    match expression {
        Expression::NamedComponent(x) => name_of(x.base.node()).is_some(),
        other => name_of(other).is_some(),
    }
}

/// Whether two arguments have the form of a diagnostic's: a name, known as a severity or not, and a rule.
pub fn is_setting(severity: &ExpressionNode, rule: &ExpressionNode) -> bool
    ensures { result ≡ names.is_setting severity.now rule.now }
{
    name_of(severity.node()).is_some() && is_rule(rule.node())
}

pub fn severity_in(node: &ExpressionNode) -> Option<DiagnosticSeverity>
    ensures { result ≡ names.severity_in node.now }
{
    match name_of(node.node()) {
        None => None,
        Some(name) => severity(name),
    }
}

pub(crate) fn interpolation_type_in(node: &ExpressionNode) -> Option<InterpolationType>
    ensures { result ≡ names.interpolation_type_in node.now }
{
    match name_of(node.node()) {
        None => None,
        Some(name) => interpolation_type(name),
    }
}

pub(crate) fn interpolation_sampling_in(node: &ExpressionNode) -> Option<InterpolationSampling>
    ensures { result ≡ names.interpolation_sampling_in node.now }
{
    match name_of(node.node()) {
        None => None,
        Some(name) => interpolation_sampling(name),
    }
}

pub(crate) fn builtin_value_in(node: &ExpressionNode) -> Option<BuiltinValue>
    ensures { result ≡ names.builtin_value_in node.now }
{
    match name_of(node.node()) {
        None => None,
        Some(name) => builtin_value(name),
    }
}

pub(crate) fn address_space_in(node: &ExpressionNode) -> Option<AddressSpace>
    ensures { result ≡ names.address_space_in node.now }
{
    match name_of(node.node()) {
        None => None,
        Some(name) => address_space(name),
    }
}

pub(crate) fn access_mode_in(node: &ExpressionNode) -> Option<AccessMode>
    ensures { result ≡ names.access_mode_in node.now }
{
    match name_of(node.node()) {
        None => None,
        Some(name) => access_mode(name),
    }
}
