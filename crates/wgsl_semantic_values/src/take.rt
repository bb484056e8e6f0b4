//! Parts that are taken from those of a phrase, the first first. A part that does not fit is answered by an error. What was taken is held
//! as a `Result` until no part is left, so that a caller has one early return, with nothing of its own to drop.

ghost use Rattle.std.specs.Prelude.{◌≡◌, ◌∷◌, [], IfOk, Ok, Some};
ghost use Rattle.wgsl_semantic_values.specs.Reading.{TakesAs, expression_in, expressions_of, attributes_of};

use crate::held::{Held, next};
use crate::part::{Part, QualifiedName, TypedName};
use std::alloc::Global;
use wgsl_base::{Boxed, Items, Stack};
use wgsl_declarations::{Attributes, CompoundStatement, ConstAssert, Declaration, DeclarationKind};
use wgsl_expressions::{ExpressionNode, FunctionCall, LiteralExpression, TypeExpression};
use wgsl_path::Ident;
use wgsl_token::fault::Refusal;

/// The first part.
pub fn first(parts: &mut Stack<Held>) -> Result<Part, Refusal>
    ensures { IfOk result (λ part. parts.old ≡ part ∷ parts.new) }
{
    match next(parts) {
        Some(part) => Ok(part),
        None => Err(Refusal::Misfit),
    }
}

/// No part is left.
pub fn end(parts: &mut Stack<Held>) -> Result<(), Refusal>
    ensures { IfOk result (λ _. parts.old ≡ []) }
{
    match next(parts) {
        None => Ok(()),
        Some(part) => misfit(part),
    }
}

/// A part that does not fit.
pub fn misfit<T>(part: Part) -> Result<T, Refusal>
    ensures { IfOk result (λ _. ⊥) }
{
    drop(part);
    Err(Refusal::Misfit)
}

/// A part that does not fit, or none.
pub fn unfit<T>(part: Option<Part>) -> Result<T, Refusal>
    ensures { IfOk result (λ _. ⊥) }
{
    drop(part);
    Err(Refusal::Misfit)
}

/// What was taken, if no part is left.
pub fn ended<T: Drop>(taken: Result<T, Refusal>, parts: &mut Stack<Held>) -> Result<T, Refusal>
    ensures { IfOk result (λ x. (taken ≡ Ok x) × (parts.old ≡ [])) }
{
    let taken = taken?;
    end(parts)?;
    Ok(taken)
}

pub fn ident(parts: &mut Stack<Held>) -> Result<Ident, Refusal>
    ensures { IfOk result (λ x. parts.old ≡ Part.Ident x ∷ parts.new) }
{
    match next(parts) {
        Some(Part::Ident(x)) => Ok(x),
        other => unfit(other),
    }
}

fn ups_in(part: &Option<Part>) -> Result<usize, Refusal>
    ensures { IfOk result (λ n. part.now ≡ Some (Part.Ups n)) }
{
    match part {
        Some(Part::Ups(n)) => Ok(*n),
        _ => Err(Refusal::Misfit),
    }
}

pub fn ups(parts: &mut Stack<Held>) -> Result<usize, Refusal>
    ensures { IfOk result (λ n. parts.old ≡ Part.Ups n ∷ parts.new) }
{
    let part = next(parts);
    let levels = ups_in(&part);
    drop(part);
    levels
}

pub fn ty(parts: &mut Stack<Held>) -> Result<TypeExpression, Refusal>
    ensures { IfOk result (λ x. parts.old ≡ Part.Type x ∷ parts.new) }
{
    match next(parts) {
        Some(Part::Type(x)) => Ok(x),
        other => unfit(other),
    }
}

pub fn call(parts: &mut Stack<Held>) -> Result<Boxed<FunctionCall>, Refusal>
    ensures { IfOk result (λ x. parts.old ≡ Part.Call x ∷ parts.new) }
{
    match next(parts) {
        Some(Part::Call(x)) => Ok(x),
        other => unfit(other),
    }
}

pub fn expression(parts: &mut Stack<Held>) -> Result<ExpressionNode, Refusal>
    ensures { IfOk result (λ x. parts.old ≡ Part.Expression x ∷ parts.new) }
{
    match next(parts) {
        Some(Part::Expression(x)) => Ok(x),
        other => unfit(other),
    }
}

pub fn declaration(parts: &mut Stack<Held>) -> Result<Boxed<Declaration>, Refusal>
    ensures { IfOk result (λ x. parts.old ≡ Part.Declaration x ∷ parts.new) }
{
    match next(parts) {
        Some(Part::Declaration(x)) => Ok(x),
        other => unfit(other),
    }
}

pub fn assertion(parts: &mut Stack<Held>) -> Result<ConstAssert, Refusal>
    ensures { IfOk result (λ x. parts.old ≡ Part.Assertion x ∷ parts.new) }
{
    match next(parts) {
        Some(Part::Assertion(x)) => Ok(x),
        other => unfit(other),
    }
}

pub fn block(parts: &mut Stack<Held>) -> Result<CompoundStatement, Refusal>
    ensures { IfOk result (λ x. parts.old ≡ Part.Block x ∷ parts.new) }
{
    match next(parts) {
        Some(Part::Block(x)) => Ok(x),
        other => unfit(other),
    }
}

/// An expression that may be absent.
pub fn optional_expression(parts: &mut Stack<Held>) -> Result<Option<ExpressionNode>, Refusal>
    ensures { IfOk result (λ x. TakesAs expression_in parts.old x parts.new) }
{
    match next(parts) {
        Some(Part::Absent) => Ok(None),
        Some(Part::Expression(x)) => Ok(Some(x)),
        other => unfit(other),
    }
}

/// Expressions that may be absent.
pub fn expressions(alloc: Global, parts: &mut Stack<Held>) -> Result<Items<ExpressionNode>, Refusal>
    ensures { IfOk result (λ xs. TakesAs expressions_of parts.old xs parts.new) }
{
    match next(parts) {
        Some(Part::Absent) => Ok(Items::new(alloc)),
        Some(Part::Expressions(xs)) => Ok(xs),
        other => unfit(other),
    }
}

/// Attributes that may be absent.
pub fn attributes(alloc: Global, parts: &mut Stack<Held>) -> Result<Attributes, Refusal>
    ensures { IfOk result (λ xs. TakesAs attributes_of parts.old xs parts.new) }
{
    match next(parts) {
        Some(Part::Absent) => Ok(Items::new(alloc)),
        Some(Part::Attributes(xs)) => Ok(xs),
        other => unfit(other),
    }
}

pub(crate) fn literal(parts: &mut Stack<Held>) -> Result<LiteralExpression, Refusal>
    ensures { IfOk result (λ x. parts.old ≡ Part.Literal x ∷ parts.new) }
{
    match next(parts) {
        Some(Part::Literal(x)) => Ok(x),
        other => unfit(other),
    }
}

pub(crate) fn path(parts: &mut Stack<Held>) -> Result<QualifiedName, Refusal>
    ensures { IfOk result (λ x. parts.old ≡ Part.Path x ∷ parts.new) }
{
    match next(parts) {
        Some(Part::Path(x)) => Ok(x),
        other => unfit(other),
    }
}

/// Expressions that are never absent.
pub(crate) fn list(parts: &mut Stack<Held>) -> Result<Items<ExpressionNode>, Refusal>
    ensures { IfOk result (λ xs. parts.old ≡ Part.Expressions xs ∷ parts.new) }
{
    match next(parts) {
        Some(Part::Expressions(xs)) => Ok(xs),
        other => unfit(other),
    }
}

fn kind_in(part: &Option<Part>) -> Result<DeclarationKind, Refusal>
    ensures { IfOk result (λ x. part.now ≡ Some (Part.Kind x)) }
{
    match part {
        Some(Part::Kind(x)) => Ok(*x),
        _ => Err(Refusal::Misfit),
    }
}

pub(crate) fn kind(parts: &mut Stack<Held>) -> Result<DeclarationKind, Refusal>
    ensures { IfOk result (λ x. parts.old ≡ Part.Kind x ∷ parts.new) }
{
    let part = next(parts);
    let kind = kind_in(&part);
    drop(part);
    kind
}

pub(crate) fn typed_name(parts: &mut Stack<Held>) -> Result<TypedName, Refusal>
    ensures { IfOk result (λ x. parts.old ≡ Part.Typed x ∷ parts.new) }
{
    match next(parts) {
        Some(Part::Typed(x)) => Ok(x.into_inner()),
        other => unfit(other),
    }
}

/// Both of what was taken.
pub fn both<A: Drop, B: Drop>(
    a: Result<A, Refusal>,
    b: Result<B, Refusal>,
) -> Result<(A, B), Refusal>
    ensures { IfOk result (λ pair. (a ≡ Ok pair.0) × (b ≡ Ok pair.1)) }
{
    let a = a?;
    let b = b?;
    Ok((a, b))
}

/// All three.
pub fn three<A: Drop, B: Drop, C: Drop>(
    a: Result<A, Refusal>,
    b: Result<B, Refusal>,
    c: Result<C, Refusal>,
) -> Result<(A, B, C), Refusal>
    ensures { IfOk result (λ taken. (a ≡ Ok taken.0) × (b ≡ Ok taken.1) × (c ≡ Ok taken.2)) }
{
    let (a, (b, c)) = both(a, both(b, c))?;
    Ok((a, b, c))
}
