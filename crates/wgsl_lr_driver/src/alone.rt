//! Productions of one part, whose phrase is made in the place of the part's.

ghost use Rattle.std.specs.Prelude.{◌≡◌, ◌∷◌, [], Some, IfOk};
ghost use Rattle.wgsl_reduce_actions.specs.Making as making;
ghost use Rattle.wgsl_lr_driver.specs.Gathering.{extent_of};
ghost use Rattle.wgsl_lr_driver.specs.Alone.{MakesAlone};
ghost use Rattle.wgsl_lr_driver.specs.Phrases.{made};

use crate::driver::deeper;
use crate::failure::{failure_at, made_failed, severity_alone_failed};
use crate::gather::first_failure;
use crate::phrase::Phrase;
use std::alloc::Global;
use wgsl_base::Stack;
use wgsl_expressions::{Expression, TypeExpression};
use wgsl_path::Span;
use wgsl_reduce_actions::make;
use wgsl_semantic_values::{
    ExpressionLabel, Held, Label, NameLabel, Part, QualifiedName, one_expression, placed,
};
use wgsl_token::fault::Refusal;

/// Makes a name of a word in its place. Whether it did; if not, the phrase stays. No check of a name fails.
fn name_in_place(value: &mut Phrase<Held>) -> bool
    ensures { MakesAlone (Label.Name NameLabel.NameAlone) value.old value.new result }
{
    match value.part.take() {
        Part::Ident(ident) => {
            value
                .part
                .put(Part::Path(QualifiedName { path: None, ident }));
            value.failure = first_failure(value.failure, None);
            true
        }
        part => {
            value.part.put(part);
            false
        }
    }
}

/// Makes a type of a name in its place. Whether it did; if not, the phrase stays. No check of a type fails.
fn type_in_place(value: &mut Phrase<Held>) -> bool
    ensures { MakesAlone (Label.Name NameLabel.Simple) value.old value.new result }
{
    match value.part.take() {
        Part::Path(QualifiedName { path, ident }) => {
            let ty = TypeExpression {
                path,
                ident,
                template_args: None,
            };
            value.part.put(Part::Type(ty));
            value.failure = first_failure(value.failure, None);
            true
        }
        part => {
            value.part.put(part);
            false
        }
    }
}

/// Makes an expression of a literal or a type in its place. Whether it did; if not, the phrase stays. No check of an expression fails.
fn expression_in_place(
    alloc: Global,
    label: ExpressionLabel,
    value: &mut Phrase<Held>,
) -> Result<bool, Refusal>
    ensures { IfOk result (MakesAlone (Label.Expression label) value.old value.new) }
{
    let depth = deeper(Label::Expression(label), value.depth, value.span)?;
    let expression = match (label, value.part.take()) {
        (ExpressionLabel::ALiteral, Part::Literal(literal)) => Expression::Literal(literal),
        (ExpressionLabel::Named, Part::Type(ty)) => Expression::TypeOrIdentifier(ty),
        (_, part) => {
            value.part.put(part);
            return Ok(false);
        }
    };
    let expression = placed(alloc, expression, value.span)?;
    value.part.put(Part::Expression(expression));
    value.failure = first_failure(value.failure, None);
    value.depth = depth;
    Ok(true)
}

/// Makes a list of an expression in its place. Whether it did; if not, the phrase stays. No check of a list fails.
fn list_in_place(alloc: Global, value: &mut Phrase<Held>) -> Result<bool, Refusal>
    ensures { IfOk result (MakesAlone Label.First value.old value.new) }
{
    match value.part.take() {
        Part::Expression(expression) => {
            let list = one_expression(alloc, expression)?;
            value.part.put(Part::Expressions(list));
            value.failure = first_failure(value.failure, None);
            Ok(true)
        }
        part => {
            value.part.put(part);
            Ok(false)
        }
    }
}

/// The most frequent productions of one part. Whether it was one; if not, the phrase stays.
fn made_in_place(alloc: Global, label: Label, value: &mut Phrase<Held>) -> Result<bool, Refusal>
    ensures { IfOk result (MakesAlone label value.old value.new) }
{
    match label {
        Label::Name(NameLabel::NameAlone) => Ok(name_in_place(value)),
        Label::Name(NameLabel::Simple) => Ok(type_in_place(value)),
        Label::Expression(label) => expression_in_place(alloc, label, value),
        Label::First => list_in_place(alloc, value),
        _ => Ok(false),
    }
}

/// What a production makes of one part, in the way of all productions.
fn make_in_room(
    alloc: Global,
    label: Label,
    span: Span,
    part: Part,
    room: &mut Stack<Held>,
) -> Result<Part, Refusal>
    ensures { IfOk result (λ made. made ≡ making.make label span (part ∷ [])) }
{
    room.clear();
    room.push(Held::new(part))?;
    make(alloc, label, span, room)
}

/// Puts what a production makes of one part in the place of that part's phrase, in the way of all productions.
#[inline(never)]
fn remade_in_room(
    alloc: Global,
    label: Label,
    value: &mut Phrase<Held>,
    room: &mut Stack<Held>,
) -> Result<(), Refusal>
    ensures { IfOk result (λ _. value.new ≡ made label (Some (extent_of value.old)) (value.old.part ∷ [])) }
{
    let depth = deeper(label, value.depth, value.span)?;
    let severity = severity_alone_failed(label, &value.part);
    let part = value.part.take();
    let part = make_in_room(alloc, label, value.span, part, room)?;
    let failure = failure_at(value.last, severity, made_failed(label, &part));
    value.part.put(part);
    value.failure = first_failure(value.failure, failure);
    value.depth = depth;
    Ok(())
}

/// Puts what a production makes of one part in the place of that part's phrase.
pub(crate) fn remade(
    alloc: Global,
    label: Label,
    value: &mut Phrase<Held>,
    room: &mut Stack<Held>,
) -> Result<(), Refusal>
    ensures { IfOk result (λ _. value.new ≡ made label (Some (extent_of value.old)) (value.old.part ∷ [])) }
{
    if made_in_place(alloc, label, value)? {
        return Ok(());
    }
    remade_in_room(alloc, label, value, room)
}
