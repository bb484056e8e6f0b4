//! What a parser makes of the parts of a phrase as it reduces.

ghost use Rattle.std.specs.Prelude.{◌≡◌, IfOk};
ghost use Rattle.wgsl_reduce_actions.specs.Making as making;

use crate::attribute::make_attribute;
use crate::clause::make_clause;
use crate::declaration::make_declaration;
use crate::directive::make_directive;
use crate::import::make_import;
use crate::statement::make_statement;
use std::alloc::Global;
use wgsl_path::Span;
use wgsl_semantic_values::{
    Held, Label, Part, Stack, make_expression, make_first, make_more, make_name, make_plain,
    make_value, pass,
};
use wgsl_token::fault::Refusal;

/// What the production of this label makes of its parts, where the phrase has this extent. It takes what it needs off the parts. Parts
/// that do not fit, and more `super` than a `usize` counts, are answered as a misfit.
pub fn make(
    alloc: Global,
    label: Label,
    span: Span,
    parts: &mut Stack<Held>,
) -> Result<Part, Refusal>
    ensures { IfOk result (λ part. part ≡ making.make label span parts.old) }
{
    match label {
        Label::Pass => pass(parts),
        Label::First => make_first(alloc, parts),
        Label::More => make_more(parts),
        Label::Name(label) => make_name(alloc, label, parts),
        Label::Expression(label) => make_expression(alloc, label, span, parts),
        Label::Attribute(label) => make_attribute(alloc, label, span, parts),
        Label::Value(label) => make_value(alloc, label, parts),
        Label::Plain(label) => make_plain(alloc, label, parts),
        Label::Statement(label) => make_statement(alloc, label, span, parts),
        Label::Clause(label) => make_clause(alloc, label, parts),
        Label::Import(label) => make_import(alloc, label, parts),
        Label::Directive(label) => make_directive(alloc, label, parts),
        Label::Declaration(label) => make_declaration(alloc, label, span, parts),
    }
}
