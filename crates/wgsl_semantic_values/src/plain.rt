//! Statements that hold no other statement, without their `;`.

ghost use Rattle.std.specs.Prelude.{◌≡◌, IfOk};
ghost use Rattle.wgsl_semantic_values.specs.Values as making;

use crate::held::Held;
use crate::label::PlainLabel;
use crate::part::Part;
use crate::take::{
    assertion, both, call, declaration, end, ended, expression, optional_expression,
};
use std::alloc::Global;
use wgsl_base::{Boxed, Items, Stack};
use wgsl_declarations::{
    AssignmentStatement, BreakStatement, ContinueStatement, DecrementStatement, DiscardStatement,
    FunctionCallStatement, IncrementStatement, ReturnStatement, Statement,
};
use wgsl_token::fault::Refusal;

/// Statements of a keyword, and declarations. The other labels are answered as a misfit.
fn make_keyword(alloc: Global, label: PlainLabel, parts: &mut Stack<Held>) -> Result<Part, Refusal>
    ensures { IfOk result (λ part. part ≡ making.make_plain label parts.old) }
{
    let statement = match label {
        PlainLabel::Break => {
            end(parts)?;
            let attributes = Items::new(alloc);
            Statement::Break(BreakStatement { attributes })
        }
        PlainLabel::Continue => {
            end(parts)?;
            let attributes = Items::new(alloc);
            Statement::Continue(ContinueStatement { attributes })
        }
        PlainLabel::Discard => {
            end(parts)?;
            let attributes = Items::new(alloc);
            Statement::Discard(DiscardStatement { attributes })
        }
        PlainLabel::Return => {
            let expression = ended(optional_expression(parts), parts)?;
            Statement::Return(ReturnStatement {
                attributes: Items::new(alloc),
                expression,
            })
        }
        PlainLabel::Local => Statement::Declaration(ended(declaration(parts), parts)?),
        PlainLabel::Asserted => Statement::ConstAssert(ended(assertion(parts), parts)?),
        _ => return Err(Refusal::Misfit),
    };
    Ok(Part::Plain(Boxed::new(alloc, statement)?))
}

/// What the production of this label makes of its parts. Parts that do not fit are answered as a misfit.
pub fn make_plain(
    alloc: Global,
    label: PlainLabel,
    parts: &mut Stack<Held>,
) -> Result<Part, Refusal>
    ensures { IfOk result (λ part. part ≡ making.make_plain label parts.old) }
{
    let statement = match label {
        PlainLabel::CalledStatement => {
            let call = ended(call(parts), parts)?.into_inner();
            let attributes = Items::new(alloc);
            Statement::FunctionCall(Boxed::new(alloc, FunctionCallStatement { attributes, call })?)
        }
        PlainLabel::Assignment(operator) => {
            let lhs = expression(parts);
            let rhs = expression(parts);
            let (lhs, rhs) = ended(both(lhs, rhs), parts)?;
            Statement::Assignment(AssignmentStatement {
                attributes: Items::new(alloc),
                operator,
                lhs,
                rhs,
            })
        }
        PlainLabel::Increment => {
            let expression = ended(expression(parts), parts)?;
            Statement::Increment(IncrementStatement {
                attributes: Items::new(alloc),
                expression,
            })
        }
        PlainLabel::Decrement => {
            let expression = ended(expression(parts), parts)?;
            Statement::Decrement(DecrementStatement {
                attributes: Items::new(alloc),
                expression,
            })
        }
        rest => return make_keyword(alloc, rest, parts),
    };
    Ok(Part::Plain(Boxed::new(alloc, statement)?))
}
