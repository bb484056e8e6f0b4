//! Statements, at the extent of their phrase.

ghost use Rattle.std.specs.Prelude.{◌≡◌, IfOk};
ghost use Rattle.wgsl_reduce_actions.specs.Statements as making;

use crate::attributed::statement_behind;
use crate::take::{clauses, continuing, else_ifs, otherwise, plain, statement, statements};
use std::alloc::Global;
use wgsl_base::Boxed;
use wgsl_path::{Span, Spanned};
use wgsl_semantic_values::take::{
    attributes, block, both, end, ended, expression, optional_expression, three,
};
use wgsl_semantic_values::{Held, Part, Stack, StatementLabel};
use wgsl_statements::{
    CompoundStatement, ForStatement, IfClause, IfStatement, LoopStatement, Statement,
    SwitchStatement, WhileStatement,
};
use wgsl_token::fault::Refusal;

/// What the productions of `if` and `switch` make of their parts.
fn make_branching(
    alloc: Global,
    label: StatementLabel,
    span: Span,
    parts: &mut Stack<Held>,
) -> Result<Part, Refusal>
    ensures { IfOk result (λ part. part ≡ making.make_statement label span parts.old) }
{
    match label {
        StatementLabel::If => {
            let attributes = attributes(alloc, parts);
            let expression = expression(parts);
            let body = block(parts);
            let more = else_ifs(alloc, parts);
            let last = otherwise(parts);
            let taken = both(both(attributes, expression), three(body, more, last));
            let ((attributes, expression), (body, more, last)) = ended(taken, parts)?;
            let statement = IfStatement {
                attributes,
                if_clause: IfClause { expression, body },
                else_if_clauses: more,
                else_clause: last,
            };
            let statement = Statement::If(Boxed::new(alloc, statement)?);
            Ok(Part::Statement(Spanned::new(alloc, statement, span)?))
        }
        StatementLabel::Switch => {
            let outer = attributes(alloc, parts);
            let expression = expression(parts);
            let inner = attributes(alloc, parts);
            let clauses = clauses(parts);
            let taken = both(both(outer, expression), both(inner, clauses));
            let ((outer, expression), (inner, clauses)) = ended(taken, parts)?;
            let statement = SwitchStatement {
                attributes: outer,
                expression,
                body_attributes: inner,
                clauses,
            };
            let statement = Statement::Switch(Boxed::new(alloc, statement)?);
            Ok(Part::Statement(Spanned::new(alloc, statement, span)?))
        }
        _ => Err(Refusal::Misfit),
    }
}

/// What the productions of `loop` and `for` make of their parts.
fn make_loop(
    alloc: Global,
    label: StatementLabel,
    span: Span,
    parts: &mut Stack<Held>,
) -> Result<Part, Refusal>
    ensures { IfOk result (λ part. part ≡ making.make_statement label span parts.old) }
{
    match label {
        StatementLabel::Loop => {
            let outer = attributes(alloc, parts);
            let inner = attributes(alloc, parts);
            let statements = statements(alloc, parts);
            let continuing = continuing(parts);
            let taken = both(both(outer, inner), both(statements, continuing));
            let ((outer, inner), (statements, continuing)) = ended(taken, parts)?;
            let statement = LoopStatement {
                attributes: outer,
                body: CompoundStatement {
                    attributes: inner,
                    statements,
                },
                continuing,
            };
            let statement = Statement::Loop(Boxed::new(alloc, statement)?);
            Ok(Part::Statement(Spanned::new(alloc, statement, span)?))
        }
        StatementLabel::For => {
            let attributes = attributes(alloc, parts);
            let start = statement(parts);
            let condition = optional_expression(parts);
            let update = statement(parts);
            let body = block(parts);
            let taken = both(both(attributes, start), three(condition, update, body));
            let ((attributes, initializer), (condition, update, body)) = ended(taken, parts)?;
            let statement = ForStatement {
                attributes,
                initializer,
                condition,
                update,
                body,
            };
            let statement = Statement::For(Boxed::new(alloc, statement)?);
            Ok(Part::Statement(Spanned::new(alloc, statement, span)?))
        }
        _ => Err(Refusal::Misfit),
    }
}

/// What the production of this label makes of its parts. Parts that do not fit are answered as a misfit.
pub fn make_statement(
    alloc: Global,
    label: StatementLabel,
    span: Span,
    parts: &mut Stack<Held>,
) -> Result<Part, Refusal>
    ensures { IfOk result (λ part. part ≡ making.make_statement label span parts.old) }
{
    match label {
        StatementLabel::Header => {
            let statement = ended(plain(parts), parts)?;
            Ok(Part::Statement(Spanned::new_boxed(statement, span)))
        }
        StatementLabel::PlainStatement => {
            let attributes = attributes(alloc, parts);
            let statement = plain(parts);
            let (attributes, statement) = ended(both(attributes, statement), parts)?;
            let statement = statement_behind(attributes, statement);
            Ok(Part::Statement(Spanned::new_boxed(statement, span)))
        }
        StatementLabel::VoidStatement => {
            end(parts)?;
            Ok(Part::Statement(Spanned::new(alloc, Statement::Void, span)?))
        }
        StatementLabel::Compound => {
            let block = Statement::Compound(ended(block(parts), parts)?);
            Ok(Part::Statement(Spanned::new(alloc, block, span)?))
        }
        StatementLabel::While => {
            let attributes = attributes(alloc, parts);
            let condition = expression(parts);
            let body = block(parts);
            let (attributes, condition, body) = ended(three(attributes, condition, body), parts)?;
            let statement = WhileStatement {
                attributes,
                condition,
                body,
            };
            let statement = Statement::While(Boxed::new(alloc, statement)?);
            Ok(Part::Statement(Spanned::new(alloc, statement, span)?))
        }
        StatementLabel::If | StatementLabel::Switch => make_branching(alloc, label, span, parts),
        StatementLabel::Loop | StatementLabel::For => make_loop(alloc, label, span, parts),
    }
}
