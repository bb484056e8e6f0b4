//! `if` and `switch`.

use crate::frames::{BranchFrame, StatementFrame, Works};
use crate::scopes::block_first;
use wgsl_eval_expressions::{
    ConversionPlace, Flow, Frames, Machine, Operand, at_const, loaded_first, refuse_conversion,
    truth,
};
use wgsl_eval_machine::Stop;
use wgsl_expressions::ExpressionNode;
use wgsl_instance::Instance;
use wgsl_shader_type::Error;
use wgsl_simple_statements::CaseSelector;
use wgsl_statements::{CompoundStatement, IfStatement, SwitchClause, SwitchStatement};

/// The condition of an `if`, counted from the first, and its body.
fn clause<'s>(
    x: &'s IfStatement,
    at: usize,
) -> Option<(&'s ExpressionNode, &'s CompoundStatement)> {
    match at.checked_sub(1) {
        None => Some((&x.if_clause.expression, &x.if_clause.body)),
        Some(before) => match x.else_if_clauses.get(before) {
            Some(clause) => Some((&clause.expression, &clause.body)),
            None => None,
        },
    }
}

/// A condition of an `if`, counted from the first, comes next; behind the last it is `else`.
pub(crate) fn condition_first<'s>(
    machine: &mut Machine,
    frames: &mut Frames<'s>,
    works: &mut Works<'s>,
    x: &'s IfStatement,
    at: usize,
) -> Result<(), Stop> {
    match clause(x, at) {
        Some((condition, _)) => {
            works.push(StatementFrame::Branch(BranchFrame::Condition(x, at)))?;
            loaded_first(frames, condition)
        }
        None => match &x.else_clause {
            Some(clause) => block_first(machine, works, &clause.body),
            None => Ok(()),
        },
    }
}

fn condition<'s>(
    machine: &mut Machine,
    frames: &mut Frames<'s>,
    works: &mut Works<'s>,
    x: &'s IfStatement,
    at: usize,
) -> Result<(), Stop> {
    if !truth(machine)? {
        return condition_first(machine, frames, works, x, at.saturating_add(1));
    }
    match clause(x, at) {
        Some((_, body)) => block_first(machine, works, body),
        None => Ok(()),
    }
}

pub(crate) fn switch_first<'s>(
    frames: &mut Frames<'s>,
    works: &mut Works<'s>,
    x: &'s SwitchStatement,
) -> Result<(), Stop> {
    works.push(StatementFrame::Branch(BranchFrame::Selector(x, 0, 0)))?;
    loaded_first(frames, &x.expression)
}

fn is_default(clause: &SwitchClause) -> bool {
    for selector in clause.case_selectors.as_slice() {
        if let CaseSelector::Default = selector {
            return true;
        }
    }
    false
}

fn clause_first<'s>(
    machine: &mut Machine,
    works: &mut Works<'s>,
    clause: &'s SwitchClause,
) -> Result<(), Stop> {
    drop(machine.pop_operand());
    works.push(StatementFrame::Branch(BranchFrame::EndSwitch))?;
    block_first(machine, works, &clause.body)
}

/// No selector was the value: the first clause with `default` comes next.
fn default_first<'s>(
    machine: &mut Machine,
    works: &mut Works<'s>,
    x: &'s SwitchStatement,
) -> Result<(), Stop> {
    for clause in x.clauses.as_slice() {
        if is_default(clause) {
            return clause_first(machine, works, clause);
        }
    }
    drop(machine.pop_operand());
    Ok(())
}

fn selector<'s>(
    machine: &mut Machine,
    frames: &mut Frames<'s>,
    works: &mut Works<'s>,
    x: &'s SwitchStatement,
    at: usize,
    number: usize,
) -> Result<(), Stop> {
    let Some(clause) = x.clauses.get(at) else {
        return default_first(machine, works, x);
    };
    match clause.case_selectors.get(number) {
        None => next(works, x, at.saturating_add(1), 0),
        Some(CaseSelector::Default) => next(works, x, at, number.saturating_add(1)),
        Some(CaseSelector::Expression(expression)) => {
            works.push(StatementFrame::Branch(BranchFrame::Selected(x, at, number)))?;
            at_const(machine, frames)?;
            loaded_first(frames, expression)
        }
    }
}

fn next<'s>(
    works: &mut Works<'s>,
    x: &'s SwitchStatement,
    at: usize,
    number: usize,
) -> Result<(), Stop> {
    Ok(works.push(StatementFrame::Branch(BranchFrame::Selector(x, at, number)))?)
}

fn converted_selector(machine: &mut Machine, selector: Instance) -> Result<Instance, Stop> {
    let ty = match machine.operands.top() {
        Some(Operand::Value(value)) => value.ty(machine.alloc),
        _ => return Err(Stop::OutOfMemory),
    };
    match ty {
        Ok(ty) => {
            let made = selector.convert_to(machine.alloc, &ty);
            drop(ty);
            drop(selector);
            match made {
                Ok(value) => Ok(value),
                Err(Error::Conversion(from, to)) => {
                    refuse_conversion(machine, ConversionPlace::Initializer, from, to)
                }
                Err(error) => machine.refuse_operation(error),
            }
        }
        Err(error) => {
            drop(selector);
            Err(Stop::from(error))
        }
    }
}

/// Whether the selector that is the uppermost operand, which is taken off, is the value below it.
fn is_chosen(machine: &mut Machine) -> Result<bool, Stop> {
    let selector = machine.pop()?;
    let selector = converted_selector(machine, selector)?;
    let is_chosen = match machine.operands.top() {
        Some(Operand::Value(value)) => *value == selector,
        _ => false,
    };
    drop(selector);
    Ok(is_chosen)
}

fn selected<'s>(
    machine: &mut Machine,
    works: &mut Works<'s>,
    x: &'s SwitchStatement,
    at: usize,
    number: usize,
) -> Result<(), Stop> {
    if !is_chosen(machine)? {
        return next(works, x, at, number.saturating_add(1));
    }
    match x.clauses.get(at) {
        Some(clause) => clause_first(machine, works, clause),
        None => Ok(()),
    }
}

/// What a frame of `if` and `switch` does.
pub(crate) fn step_branch<'s>(
    machine: &mut Machine,
    frames: &mut Frames<'s>,
    works: &mut Works<'s>,
    frame: BranchFrame<'s>,
) -> Result<(), Stop> {
    match frame {
        BranchFrame::Condition(x, at) => condition(machine, frames, works, x, at),
        BranchFrame::Selector(x, at, number) => selector(machine, frames, works, x, at, number),
        BranchFrame::Selected(x, at, number) => selected(machine, works, x, at, number),
        BranchFrame::EndSwitch => {
            if machine.flow == Flow::Break {
                machine.flow = Flow::Next;
            }
            Ok(())
        }
    }
}
