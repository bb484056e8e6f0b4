//! Lists of statements, and their levels of names.

use crate::frames::{StatementFrame, Works};
use wgsl_eval_expressions::{Flow, Local, Machine};
use wgsl_eval_machine::Stop;
use wgsl_statements::{CompoundStatement, Statement};

/// The statements of a body come next, in a level of their own.
pub(crate) fn block_first<'s>(
    machine: &mut Machine,
    works: &mut Works<'s>,
    body: &'s CompoundStatement,
) -> Result<(), Stop> {
    machine.enter()?;
    works.push(StatementFrame::Leave)?;
    works.push(StatementFrame::Statements(body, 0))?;
    Ok(())
}

/// The statements of a list from this one on.
pub(crate) fn statements<'s>(
    machine: &Machine,
    works: &mut Works<'s>,
    body: &'s CompoundStatement,
    at: usize,
) -> Result<(), Stop> {
    if machine.flow != Flow::Next {
        return Ok(());
    }
    if let Some(statement) = body.statements.get(at) {
        works.push(StatementFrame::Statements(body, at.saturating_add(1)))?;
        works.push(StatementFrame::Statement(statement))?;
    }
    Ok(())
}

/// Each name that a list declares and that hasn't been reached stands for nothing.
pub(crate) fn unset_rest(machine: &mut Machine, body: &CompoundStatement) -> Result<(), Stop> {
    for statement in body.statements.as_slice() {
        if let Statement::Declaration(x) = statement.node() {
            let name = x.get().ident.name();
            if !machine.locals.last_contains(name) {
                machine.locals.add(machine.alloc, name, Local::Unset)?;
            }
        }
    }
    Ok(())
}
