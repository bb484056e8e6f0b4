//! What statements consist of.

ghost use Rattle.std.specs.Prelude.{◌≡◌, IfOk};
ghost use Rattle.wgsl_reduce_actions.specs.Statements as making;

use crate::take::{break_if, selectors, statements};
use std::alloc::Global;
use wgsl_base::{Boxed, Items};
use wgsl_semantic_values::take::{attributes, block, both, end, ended, expression, three};
use wgsl_semantic_values::{ClauseLabel, Held, Part, Stack};
use wgsl_simple_statements::{BreakIfStatement, CaseSelector};
use wgsl_statements::{CompoundStatement, ContinuingStatement, ElseIfClause, SwitchClause};
use wgsl_token::fault::Refusal;

fn continuing_block(alloc: Global, parts: &mut Stack<Held>) -> Result<Part, Refusal>
    ensures { IfOk result (λ part. part ≡ making.continuing_block parts.old) }
{
    let attributes = attributes(alloc, parts);
    let statements = statements(alloc, parts);
    let break_if = break_if(parts);
    let (attributes, statements, break_if) = ended(three(attributes, statements, break_if), parts)?;
    let continuing = ContinuingStatement {
        attributes: Items::new(alloc),
        body: CompoundStatement {
            attributes,
            statements,
        },
        break_if,
    };
    Ok(Part::Continuing(Boxed::new(alloc, continuing)?))
}

/// What the productions of the clauses of `switch` make of their parts.
fn make_switch_clause(
    alloc: Global,
    label: ClauseLabel,
    parts: &mut Stack<Held>,
) -> Result<Part, Refusal>
    ensures { IfOk result (λ part. part ≡ making.make_clause label parts.old) }
{
    match label {
        ClauseLabel::Case => {
            let case_selectors = selectors(parts);
            let body = block(parts);
            let (case_selectors, body) = ended(both(case_selectors, body), parts)?;
            let clause = SwitchClause {
                case_selectors,
                body,
            };
            Ok(Part::Clause(Boxed::new(alloc, clause)?))
        }
        ClauseLabel::Default => {
            let body = ended(block(parts), parts)?;
            let mut case_selectors = Items::new(alloc);
            case_selectors.push(CaseSelector::Default)?;
            let clause = SwitchClause {
                case_selectors,
                body,
            };
            Ok(Part::Clause(Boxed::new(alloc, clause)?))
        }
        _ => Err(Refusal::Misfit),
    }
}

/// What the production of this label makes of its parts. Parts that do not fit are answered as a misfit.
pub fn make_clause(
    alloc: Global,
    label: ClauseLabel,
    parts: &mut Stack<Held>,
) -> Result<Part, Refusal>
    ensures { IfOk result (λ part. part ≡ making.make_clause label parts.old) }
{
    match label {
        ClauseLabel::Block => {
            let attributes = attributes(alloc, parts);
            let statements = statements(alloc, parts);
            let (attributes, statements) = ended(both(attributes, statements), parts)?;
            Ok(Part::Block(CompoundStatement {
                attributes,
                statements,
            }))
        }
        ClauseLabel::ElseIf => {
            let expression = expression(parts);
            let body = block(parts);
            let (expression, body) = ended(both(expression, body), parts)?;
            Ok(Part::ElseIf(ElseIfClause { expression, body }))
        }
        ClauseLabel::DefaultSelector => {
            end(parts)?;
            Ok(Part::Selector(CaseSelector::Default))
        }
        ClauseLabel::Selector => {
            let expression = ended(expression(parts), parts)?;
            Ok(Part::Selector(CaseSelector::Expression(expression)))
        }
        ClauseLabel::Continuing => continuing_block(alloc, parts),
        ClauseLabel::BreakIf => {
            let expression = ended(expression(parts), parts)?;
            Ok(Part::BreakIf(BreakIfStatement {
                attributes: Items::new(alloc),
                expression,
            }))
        }
        ClauseLabel::Case | ClauseLabel::Default => make_switch_clause(alloc, label, parts),
    }
}
