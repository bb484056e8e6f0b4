//! The truth value of a condition, as far as features decide it.

ghost use Rattle.std.specs.Prelude.{◌≡◌};
ghost use Rattle.wgsl_expressions.specs.View.{tree, type_tree};
ghost use Rattle.wesl_conditions.specs.Conditions as conditions;
ghost use Rattle.wesl_conditions.specs.Conditions.{left_of_name, simplified};
ghost use Rattle.wgsl_expressions.specs.Tree as tree_of;
ghost use Rattle.wesl_conditions.specs.Values.{opposite_of, both_values, either_value};

use crate::features::{Feature, Features};
use crate::simplification::{flag_of, is_and, is_not, is_or, known_literal};
use wgsl_expressions::{Expression, TypeExpression};

/// The truth value that features leave of a condition, if they decide it.
#[cycle(value)]
#[tactic(auto, using(wgsl_expressions::proofs::Trees::tree_of_literal, wgsl_expressions::proofs::Trees::tree_of_parenthesized, wgsl_expressions::proofs::Trees::tree_of_component, wgsl_expressions::proofs::Trees::tree_of_indexed, wgsl_expressions::proofs::Trees::tree_of_unary, wgsl_expressions::proofs::Trees::tree_of_binary, wgsl_expressions::proofs::Trees::tree_of_call, wgsl_expressions::proofs::Trees::tree_of_named, crate::proofs::Knowing::of_group, crate::proofs::Knowing::of_negation, crate::proofs::Knowing::of_junction))]
pub fn condition_value(condition: &Expression, features: &Features) -> Option<bool>
    ensures { result ≡ conditions.known (simplified features.now (tree condition.now)) }
{
    match condition {
        Expression::Literal(x) => known_literal(x),
        Expression::Parenthesized(x) => condition_value(x.expression.node(), features),
        Expression::Unary(x) => {
            if is_not(x.operator) {
                opposite(condition_value(x.operand.node(), features))
            } else {
                None
            }
        }
        Expression::Binary(x) => {
            if is_and(x.operator) {
                both(
                    condition_value(x.left.node(), features),
                    condition_value(x.right.node(), features),
                )
            } else if is_or(x.operator) {
                either(
                    condition_value(x.left.node(), features),
                    condition_value(x.right.node(), features),
                )
            } else {
                None
            }
        }
        Expression::TypeOrIdentifier(x) => name_value(x, features),
        Expression::NamedComponent(_) => None,
        Expression::Indexing(_) => None,
        Expression::FunctionCall(_) => None,
    }
}

fn opposite(value: Option<bool>) -> Option<bool>
    ensures { result ≡ opposite_of value }
{
    match value {
        Some(value) => Some(!value),
        None => None,
    }
}

fn both(left: Option<bool>, right: Option<bool>) -> Option<bool>
    ensures { result ≡ both_values left right }
{
    match (left, right) {
        (Some(true), right) => right,
        (Some(false), _) => Some(false),
        (None, Some(false)) => Some(false),
        (None, _) => None,
    }
}

fn either(left: Option<bool>, right: Option<bool>) -> Option<bool>
    ensures { result ≡ either_value left right }
{
    match (left, right) {
        (Some(true), _) => Some(true),
        (Some(false), right) => right,
        (None, Some(true)) => Some(true),
        (None, _) => None,
    }
}

fn name_value(x: &TypeExpression, features: &Features) -> Option<bool>
    ensures { result ≡ conditions.known (left_of_name features.now (type_tree x.now)) }
{
    match flag_of(x) {
        None => None,
        Some(name) => match features.get(name) {
            Feature::Enable => Some(true),
            Feature::Disable => Some(false),
            Feature::Keep => None,
            Feature::Error => None,
        },
    }
}
