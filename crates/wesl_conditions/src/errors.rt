//! The first error of a condition.

ghost use Rattle.wgsl_expressions.specs.View.{tree, type_tree};
ghost use Rattle.wesl_conditions.specs.Conditions.{condition_fault, literal_fault, name_fault, flag_fault};
ghost use Rattle.wesl_conditions.specs.Told.{TellsFault};

use crate::features::{CondCompError, Feature, Features};
use crate::simplification::{flag_of, is_and, is_not, is_or};
use std::alloc::Global;
use wgsl_base::Text;
use wgsl_expressions::{Expression, LiteralExpression, TypeExpression};

/// The first error of a condition, from left to right. Both sides of an operator count.
#[cycle(check)]
#[tactic(auto, using(wgsl_expressions::proofs::Trees::tree_of_literal, wgsl_expressions::proofs::Trees::tree_of_parenthesized, wgsl_expressions::proofs::Trees::tree_of_component, wgsl_expressions::proofs::Trees::tree_of_indexed, wgsl_expressions::proofs::Trees::tree_of_unary, wgsl_expressions::proofs::Trees::tree_of_binary, wgsl_expressions::proofs::Trees::tree_of_call, wgsl_expressions::proofs::Trees::tree_of_named))]
pub fn check_condition(
    alloc: Global,
    condition: &Expression,
    features: &Features,
) -> Result<(), CondCompError>
    ensures { TellsFault (condition_fault features.now (tree condition.now)) result }
{
    match condition {
        Expression::Literal(x) => check_literal(x),
        Expression::Parenthesized(x) => check_condition(alloc, x.expression.node(), features),
        Expression::Unary(x) => {
            if is_not(x.operator) {
                check_condition(alloc, x.operand.node(), features)
            } else {
                Err(CondCompError::InvalidExpression)
            }
        }
        Expression::Binary(x) => {
            if is_and(x.operator) || is_or(x.operator) {
                check_condition(alloc, x.left.node(), features)?;
                check_condition(alloc, x.right.node(), features)
            } else {
                Err(CondCompError::InvalidExpression)
            }
        }
        Expression::TypeOrIdentifier(x) => check_name(alloc, x, features),
        Expression::NamedComponent(_) => Err(CondCompError::InvalidExpression),
        Expression::Indexing(_) => Err(CondCompError::InvalidExpression),
        Expression::FunctionCall(_) => Err(CondCompError::InvalidExpression),
    }
}

fn check_literal(x: &LiteralExpression) -> Result<(), CondCompError>
    ensures { TellsFault (literal_fault x.now) result }
{
    match x {
        LiteralExpression::Bool(_) => Ok(()),
        _ => Err(CondCompError::InvalidExpression),
    }
}

fn check_name(alloc: Global, x: &TypeExpression, features: &Features) -> Result<(), CondCompError>
    ensures { TellsFault (name_fault features.now (type_tree x.now)) result }
{
    match flag_of(x) {
        Some(name) => check_flag(alloc, name, features.get(name)),
        None => Err(CondCompError::InvalidFeatureFlag(Text::from_string(x.to_string(alloc)?))),
    }
}

fn check_flag(alloc: Global, name: &str, feature: Feature) -> Result<(), CondCompError>
    ensures { TellsFault (flag_fault feature name.now) result }
{
    match feature {
        Feature::Error => Err(CondCompError::UnexpectedFeatureFlag(Text::from_str(alloc, name)?)),
        Feature::Enable => Ok(()),
        Feature::Disable => Ok(()),
        Feature::Keep => Ok(()),
    }
}
