//! Expressions, and places that are assigned.

ghost use Rattle.std.specs.Prelude.{◌≡◌, IfOk};
ghost use Rattle.wgsl_semantic_values.specs.Making as making;

use crate::held::Held;
use crate::label::ExpressionLabel;
use crate::part::{Part, QualifiedName};
use crate::take::{both, call, end, ended, expression, ident, literal, path, ty};
use std::alloc::Global;
use wgsl_base::{Stack, Text};
use wgsl_expressions::{
    BinaryExpression, Expression, IndexingExpression, NamedComponentExpression,
    ParenthesizedExpression, TypeExpression, UnaryExpression,
};
use wgsl_path::{Ident, Span, Spanned};
use wgsl_token::fault::Refusal;

/// Expressions with operands. The other labels are answered as a misfit.
fn make_operation(
    alloc: Global,
    label: ExpressionLabel,
    span: Span,
    parts: &mut Stack<Held>,
) -> Result<Part, Refusal>
    ensures { IfOk result (λ part. part ≡ making.make_expression label span parts.old) }
{
    let operation = match label {
        ExpressionLabel::Component => {
            let base = expression(parts);
            let component = ident(parts);
            let (base, component) = ended(both(base, component), parts)?;
            Expression::NamedComponent(NamedComponentExpression { base, component })
        }
        ExpressionLabel::Indexed => {
            let base = expression(parts);
            let index = expression(parts);
            let (base, index) = ended(both(base, index), parts)?;
            Expression::Indexing(IndexingExpression { base, index })
        }
        ExpressionLabel::Unary(operator) => {
            let operand = ended(expression(parts), parts)?;
            Expression::Unary(UnaryExpression { operator, operand })
        }
        ExpressionLabel::Binary(operator) => {
            let left = expression(parts);
            let right = expression(parts);
            let (left, right) = ended(both(left, right), parts)?;
            Expression::Binary(BinaryExpression {
                operator,
                left,
                right,
            })
        }
        _ => return Err(Refusal::Misfit),
    };
    Ok(Part::Expression(Spanned::new(alloc, operation, span)?))
}

/// What the production of this label makes of its parts. Parts that do not fit are answered as a misfit.
pub fn make_expression(
    alloc: Global,
    label: ExpressionLabel,
    span: Span,
    parts: &mut Stack<Held>,
) -> Result<Part, Refusal>
    ensures { IfOk result (λ part. part ≡ making.make_expression label span parts.old) }
{
    let expression = match label {
        ExpressionLabel::ALiteral => Expression::Literal(ended(literal(parts), parts)?),
        ExpressionLabel::Named => Expression::TypeOrIdentifier(ended(ty(parts), parts)?),
        ExpressionLabel::Called => Expression::FunctionCall(ended(call(parts), parts)?),
        ExpressionLabel::Parenthesized => {
            let expression = ended(expression(parts), parts)?;
            Expression::Parenthesized(ParenthesizedExpression { expression })
        }
        ExpressionLabel::PlaceName => {
            let QualifiedName { path, ident } = ended(path(parts), parts)?;
            Expression::TypeOrIdentifier(TypeExpression {
                path,
                ident,
                template_args: None,
            })
        }
        ExpressionLabel::Underscore => {
            end(parts)?;
            Expression::TypeOrIdentifier(TypeExpression {
                path: None,
                ident: Ident::new(Text::from_str(alloc, "_")?),
                template_args: None,
            })
        }
        rest => return make_operation(alloc, rest, span, parts),
    };
    Ok(Part::Expression(Spanned::new(alloc, expression, span)?))
}
