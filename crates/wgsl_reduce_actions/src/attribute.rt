//! Attributes, and what `var` says of a variable.

ghost use Rattle.std.specs.Prelude.{◌≡◌, IfOk};
ghost use Rattle.wgsl_reduce_actions.specs.Attributes as making;

use crate::take::{arguments, list, reserved, word};
use std::alloc::Global;
use wgsl_attribute_words::{attribute_of, template_of};
use wgsl_base::{Boxed, Items, Text};
use wgsl_expressions::{Attribute, CustomAttribute, ExpressionNode};
use wgsl_path::{Span, Spanned};
use wgsl_semantic_values::take::{both, end, ended, expressions, ident};
use wgsl_semantic_values::{AttributeLabel, Held, Part, Stack};
use wgsl_simple_statements::DeclarationKind;
use wgsl_token::fault::Refusal;

/// The attribute of a word and arguments. Where they fail its check it is custom.
fn checked(
    alloc: Global,
    word: Text,
    arguments: Option<Items<ExpressionNode>>,
) -> Result<Attribute, Refusal>
    ensures { IfOk result (λ made. made ≡ making.checked word arguments) }
{
    match attribute_of(alloc, word.as_str(), &arguments)? {
        Some(attribute) => Ok(attribute),
        None => {
            let custom = CustomAttribute {
                name: word,
                arguments,
            };
            Ok(Attribute::Custom(Boxed::new(alloc, custom)?))
        }
    }
}

/// What the production of this label makes of its parts. Parts that do not fit are answered as a misfit.
pub fn make_attribute(
    alloc: Global,
    label: AttributeLabel,
    span: Span,
    parts: &mut Stack<Held>,
) -> Result<Part, Refusal>
    ensures { IfOk result (λ part. part ≡ making.make_attribute label span parts.old) }
{
    match label {
        AttributeLabel::Word => {
            let name = ended(ident(parts), parts)?;
            Ok(Part::Word(name.into_name()))
        }
        AttributeLabel::ReservedWord => Ok(Part::Word(ended(reserved(parts), parts)?)),
        AttributeLabel::Keyword(kind) => Ok(Part::Word(Text::from_str(alloc, kind.as_str())?)),
        AttributeLabel::Arguments => {
            let arguments = ended(expressions(alloc, parts), parts)?;
            Ok(Part::Arguments(arguments))
        }
        AttributeLabel::Attribute => {
            let word = word(parts);
            let arguments = arguments(parts);
            let (word, arguments) = ended(both(word, arguments), parts)?;
            let attribute = checked(alloc, word, arguments)?;
            Ok(Part::Attribute(Spanned::new(alloc, attribute, span)?))
        }
        AttributeLabel::VarKind => {
            end(parts)?;
            Ok(Part::Kind(DeclarationKind::Var(None)))
        }
        AttributeLabel::VarIn => {
            let arguments = ended(list(parts), parts)?;
            Ok(Part::Kind(DeclarationKind::Var(template_of(arguments.as_slice()))))
        }
    }
}
