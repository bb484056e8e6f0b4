//! What features leave of a condition.

ghost use Rattle.std.specs.Prelude.{◌≡◌, true, if◌then◌else◌};
ghost use Rattle.wgsl_expressions.specs.Tree as tree_of;
ghost use Rattle.wgsl_expressions.specs.View.{tree, node_tree, type_tree};
ghost use Rattle.wesl_conditions.specs.Conditions as conditions;
ghost use Rattle.wesl_conditions.specs.Conditions.{is_negation, is_conjunction, is_disjunction, truth, grouped, negated, both_of, one_of, left_of_name, simplified};
ghost use Rattle.std.specs.Option.{option_copied};
ghost use Rattle.wesl_conditions.specs.Absorbed.{absorbed, is_operation, with_operands, flag};

use crate::features::{Feature, Features};
use std::mem;
use wgsl_expressions::{
    BinaryExpression, Expression, LiteralExpression, ParenthesizedExpression, TypeExpression,
    UnaryExpression,
};
use wgsl_words::{BinaryOperator, UnaryOperator};

/// The truth value that an expression is, if it is one.
#[tactic(auto, using(wgsl_expressions::proofs::Trees::tree_of_literal, wgsl_expressions::proofs::Trees::tree_of_parenthesized, wgsl_expressions::proofs::Trees::tree_of_component, wgsl_expressions::proofs::Trees::tree_of_indexed, wgsl_expressions::proofs::Trees::tree_of_unary, wgsl_expressions::proofs::Trees::tree_of_binary, wgsl_expressions::proofs::Trees::tree_of_call, wgsl_expressions::proofs::Trees::tree_of_named))]
pub(crate) fn known(expression: &Expression) -> Option<bool>
    ensures { result ≡ conditions.known (tree expression.now) }
{
    match expression {
        Expression::Literal(x) => known_literal(x),
        Expression::Parenthesized(_) => None,
        Expression::NamedComponent(_) => None,
        Expression::Indexing(_) => None,
        Expression::Unary(_) => None,
        Expression::Binary(_) => None,
        Expression::FunctionCall(_) => None,
        Expression::TypeOrIdentifier(_) => None,
    }
}

pub(crate) fn known_literal(x: &LiteralExpression) -> Option<bool>
    ensures { result ≡ conditions.known (tree_of.literal x.now) }
{
    match x {
        LiteralExpression::Bool(value) => Some(*value),
        _ => None,
    }
}

#[tactic(auto, using(wgsl_expressions::proofs::Trees::tree_of_literal))]
fn truth_value(value: bool) -> Expression
    ensures { tree result ≡ truth value }
{
    Expression::Literal(LiteralExpression::Bool(value))
}

pub(crate) fn is_not(operator: UnaryOperator) -> bool
    ensures { result ≡ is_negation operator }
{
    matches!(operator, UnaryOperator::LogicalNegation)
}

pub(crate) fn is_and(operator: BinaryOperator) -> bool
    ensures { result ≡ is_conjunction operator }
{
    matches!(operator, BinaryOperator::ShortCircuitAnd)
}

pub(crate) fn is_or(operator: BinaryOperator) -> bool
    ensures { result ≡ is_disjunction operator }
{
    matches!(operator, BinaryOperator::ShortCircuitOr)
}

/// Simplifies a condition: flags as they are set, and truth values absorbed. What is no condition stays. It needs no memory.
#[cycle(simplify)]
#[tactic(auto, using(crate::proofs::Absorbing::from_parts, crate::proofs::Absorbing::without_parts))]
pub fn simplify(condition: &mut Expression, features: &Features)
    ensures { tree condition.new ≡ simplified features.now (tree condition.old) }
{
    if has_operands(condition) {
        simplify_operands(condition, features);
    }
    let whole = mem::replace(condition, truth_value(false));
    *condition = absorb(whole, features);
}

/// Whether it is a condition that has operands.
#[tactic(auto, using(wgsl_expressions::proofs::Trees::tree_of_literal, wgsl_expressions::proofs::Trees::tree_of_parenthesized, wgsl_expressions::proofs::Trees::tree_of_component, wgsl_expressions::proofs::Trees::tree_of_indexed, wgsl_expressions::proofs::Trees::tree_of_unary, wgsl_expressions::proofs::Trees::tree_of_binary, wgsl_expressions::proofs::Trees::tree_of_call, wgsl_expressions::proofs::Trees::tree_of_named))]
fn has_operands(condition: &Expression) -> bool
    ensures { result ≡ is_operation (tree condition.now) }
{
    match condition {
        Expression::Parenthesized(_) => true,
        Expression::Unary(x) => is_not(x.operator),
        Expression::Binary(x) => is_and(x.operator) || is_or(x.operator),
        Expression::Literal(_) => false,
        Expression::NamedComponent(_) => false,
        Expression::Indexing(_) => false,
        Expression::FunctionCall(_) => false,
        Expression::TypeOrIdentifier(_) => false,
    }
}

/// Simplifies the operands of an expression.
#[cycle(simplify)]
#[tactic(auto, using(wgsl_expressions::proofs::Trees::tree_of_literal, wgsl_expressions::proofs::Trees::tree_of_parenthesized, wgsl_expressions::proofs::Trees::tree_of_component, wgsl_expressions::proofs::Trees::tree_of_indexed, wgsl_expressions::proofs::Trees::tree_of_unary, wgsl_expressions::proofs::Trees::tree_of_binary, wgsl_expressions::proofs::Trees::tree_of_call, wgsl_expressions::proofs::Trees::tree_of_named))]
fn simplify_operands(condition: &mut Expression, features: &Features)
    ensures { tree condition.new ≡ with_operands (simplified features.now) (tree condition.old) }
{
    match condition {
        Expression::Parenthesized(x) => simplify_parenthesized(x, features),
        Expression::Unary(x) => simplify_unary(x, features),
        Expression::Binary(x) => simplify_binary(x, features),
        Expression::Literal(_) => {}
        Expression::NamedComponent(_) => {}
        Expression::Indexing(_) => {}
        Expression::FunctionCall(_) => {}
        Expression::TypeOrIdentifier(_) => {}
    }
}

#[cycle(simplify)]
fn simplify_parenthesized(x: &mut ParenthesizedExpression, features: &Features)
    ensures { node_tree x.new.expression ≡ simplified features.now (node_tree x.old.expression) }
{
    simplify(x.expression.node_mut(), features);
}

#[cycle(simplify)]
fn simplify_unary(x: &mut UnaryExpression, features: &Features)
    ensures operator { x.new.operator ≡ x.old.operator }
    ensures operand { node_tree x.new.operand ≡ simplified features.now (node_tree x.old.operand) }
{
    simplify(x.operand.node_mut(), features);
}

#[cycle(simplify)]
fn simplify_binary(x: &mut BinaryExpression, features: &Features)
    ensures operator { x.new.operator ≡ x.old.operator }
    ensures left { node_tree x.new.left ≡ simplified features.now (node_tree x.old.left) }
    ensures right { node_tree x.new.right ≡ simplified features.now (node_tree x.old.right) }
{
    simplify(x.left.node_mut(), features);
    simplify(x.right.node_mut(), features);
}

/// A condition whose operands are simplified, simplified.
#[tactic(auto, using(wgsl_expressions::proofs::Trees::tree_of_literal, wgsl_expressions::proofs::Trees::tree_of_parenthesized, wgsl_expressions::proofs::Trees::tree_of_component, wgsl_expressions::proofs::Trees::tree_of_indexed, wgsl_expressions::proofs::Trees::tree_of_unary, wgsl_expressions::proofs::Trees::tree_of_binary, wgsl_expressions::proofs::Trees::tree_of_call, wgsl_expressions::proofs::Trees::tree_of_named))]
fn absorb(condition: Expression, features: &Features) -> Expression
    ensures { tree result ≡ absorbed features.now (tree condition) }
{
    match condition {
        Expression::Parenthesized(x) => group(x),
        Expression::Unary(x) => negate(x),
        Expression::Binary(x) => join(x),
        Expression::TypeOrIdentifier(x) => set_name(x, features),
        Expression::Literal(x) => Expression::Literal(x),
        Expression::NamedComponent(x) => Expression::NamedComponent(x),
        Expression::Indexing(x) => Expression::Indexing(x),
        Expression::FunctionCall(x) => Expression::FunctionCall(x),
    }
}

#[tactic(auto, using(wgsl_expressions::proofs::Trees::tree_of_parenthesized))]
fn group(x: ParenthesizedExpression) -> Expression
    ensures { tree result ≡ grouped (node_tree x.expression) }
{
    match known(x.expression.node()) {
        Some(value) => truth_value(value),
        None => Expression::Parenthesized(x),
    }
}

#[tactic(auto, using(wgsl_expressions::proofs::Trees::tree_of_unary))]
fn negate(x: UnaryExpression) -> Expression
    ensures { tree result ≡ (if is_negation x.operator then negated (node_tree x.operand) else tree_of.unary x.operator (node_tree x.operand)) }
{
    if !is_not(x.operator) {
        return Expression::Unary(x);
    }
    match known(x.operand.node()) {
        Some(value) => truth_value(!value),
        None => Expression::Unary(x),
    }
}

#[tactic(auto, using(wgsl_expressions::proofs::Trees::tree_of_binary))]
fn join(x: BinaryExpression) -> Expression
    ensures { tree result ≡ (if is_conjunction x.operator then both_of (node_tree x.left) (node_tree x.right) else (if is_disjunction x.operator then one_of (node_tree x.left) (node_tree x.right) else tree_of.binary x.operator (node_tree x.left) (node_tree x.right))) }
{
    if is_and(x.operator) {
        both(x)
    } else if is_or(x.operator) {
        either(x)
    } else {
        Expression::Binary(x)
    }
}

/// Both: `true` goes, and `false` is the whole.
#[tactic(auto, using(wgsl_expressions::proofs::Trees::tree_of_binary, crate::proofs::Absorbing::conjunction))]
fn both(x: BinaryExpression) -> Expression
    requires { is_conjunction x.operator ≡ true }
    ensures { tree result ≡ both_of (node_tree x.left) (node_tree x.right) }
{
    match known(x.left.node()) {
        Some(true) => x.right.into_inner(),
        Some(false) => truth_value(false),
        None => match known(x.right.node()) {
            Some(true) => x.left.into_inner(),
            Some(false) => truth_value(false),
            None => Expression::Binary(x),
        },
    }
}

/// One of both: `false` goes, and `true` is the whole.
#[tactic(auto, using(wgsl_expressions::proofs::Trees::tree_of_binary, crate::proofs::Absorbing::disjunction))]
fn either(x: BinaryExpression) -> Expression
    requires { is_disjunction x.operator ≡ true }
    ensures { tree result ≡ one_of (node_tree x.left) (node_tree x.right) }
{
    match known(x.left.node()) {
        Some(true) => truth_value(true),
        Some(false) => x.right.into_inner(),
        None => match known(x.right.node()) {
            Some(true) => truth_value(true),
            Some(false) => x.left.into_inner(),
            None => Expression::Binary(x),
        },
    }
}

/// A flag as it is set.
#[tactic(auto, using(wgsl_expressions::proofs::Trees::tree_of_named))]
fn set_name(x: TypeExpression, features: &Features) -> Expression
    ensures { tree result ≡ left_of_name features.now (type_tree x) }
{
    match flag_of(&x) {
        None => Expression::TypeOrIdentifier(x),
        Some(name) => match features.get(name) {
            Feature::Enable => truth_value(true),
            Feature::Disable => truth_value(false),
            Feature::Keep => Expression::TypeOrIdentifier(x),
            Feature::Error => Expression::TypeOrIdentifier(x),
        },
    }
}

/// The flag that a name is, where it has no path and no template arguments.
pub(crate) fn flag_of(x: &TypeExpression) -> Option<&str>
    ensures { option_copied result ≡ flag (type_tree x.now) }
{
    if x.path.is_none() && x.template_args.is_none() {
        Some(x.ident.as_str())
    } else {
        None
    }
}
