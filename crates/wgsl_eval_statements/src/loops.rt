//! Loops.

use crate::frames::{LoopFrame, StatementFrame, Works};
use crate::scopes::{block_first, unset_rest};
use wgsl_eval_expressions::{Flow, Frames, Machine, loaded_first, truth};
use wgsl_eval_machine::{PlainFault, Stop};
use wgsl_statements::{ForStatement, LoopStatement, WhileStatement};

fn then<'s>(works: &mut Works<'s>, frame: LoopFrame<'s>) -> Result<(), Stop> {
    Ok(works.push(StatementFrame::Loop(frame))?)
}

/// Whether a loop ends by how its body ended.
fn ends(machine: &mut Machine) -> bool {
    match machine.flow {
        Flow::Next => false,
        Flow::Continue => {
            machine.flow = Flow::Next;
            false
        }
        Flow::Break => {
            machine.flow = Flow::Next;
            true
        }
        Flow::Return(_) => true,
    }
}

/// A round of a `loop`.
fn begin<'s>(
    machine: &mut Machine,
    works: &mut Works<'s>,
    x: &'s LoopStatement,
) -> Result<(), Stop> {
    machine.tick()?;
    machine.enter()?;
    then(works, LoopFrame::EndBody(x))?;
    works.push(StatementFrame::Statements(&x.body, 0))?;
    Ok(())
}

fn end_body<'s>(
    machine: &mut Machine,
    works: &mut Works<'s>,
    x: &'s LoopStatement,
) -> Result<(), Stop> {
    let is_cut = machine.flow == Flow::Continue;
    if ends(machine) {
        machine.leave();
        return Ok(());
    }
    match &x.continuing {
        None => {
            machine.leave();
            then(works, LoopFrame::Loop(x))
        }
        Some(continuing) => {
            if is_cut {
                unset_rest(machine, &x.body)?;
            }
            machine.enter()?;
            then(works, LoopFrame::EndContinuing(x))?;
            works.push(StatementFrame::Statements(&continuing.body, 0))?;
            Ok(())
        }
    }
}

fn end_continuing<'s>(
    machine: &mut Machine,
    frames: &mut Frames<'s>,
    works: &mut Works<'s>,
    x: &'s LoopStatement,
) -> Result<(), Stop> {
    if machine.flow != Flow::Next {
        return machine.refuse_plain(PlainFault::FlowInContinuing);
    }
    let condition = match &x.continuing {
        Some(continuing) => match &continuing.break_if {
            Some(break_if) => Some(&break_if.expression),
            None => None,
        },
        None => None,
    };
    match condition {
        Some(condition) => {
            then(works, LoopFrame::BreakIf(x))?;
            loaded_first(frames, condition)
        }
        None => {
            machine.leave();
            machine.leave();
            then(works, LoopFrame::Loop(x))
        }
    }
}

fn break_if<'s>(
    machine: &mut Machine,
    works: &mut Works<'s>,
    x: &'s LoopStatement,
) -> Result<(), Stop> {
    let is_met = truth(machine)?;
    machine.leave();
    machine.leave();
    if is_met {
        Ok(())
    } else {
        then(works, LoopFrame::Loop(x))
    }
}

pub(crate) fn for_first<'s>(
    machine: &mut Machine,
    works: &mut Works<'s>,
    x: &'s ForStatement,
) -> Result<(), Stop> {
    machine.enter()?;
    works.push(StatementFrame::Leave)?;
    then(works, LoopFrame::For(x))?;
    match &x.initializer {
        None => Ok(()),
        Some(initializer) => Ok(works.push(StatementFrame::Statement(initializer))?),
    }
}

fn for_round<'s>(
    machine: &mut Machine,
    works: &mut Works<'s>,
    x: &'s ForStatement,
) -> Result<(), Stop> {
    machine.tick()?;
    then(works, LoopFrame::EndFor(x))?;
    block_first(machine, works, &x.body)
}

fn for_condition<'s>(
    machine: &mut Machine,
    frames: &mut Frames<'s>,
    works: &mut Works<'s>,
    x: &'s ForStatement,
) -> Result<(), Stop> {
    match &x.condition {
        None => for_round(machine, works, x),
        Some(condition) => {
            then(works, LoopFrame::ForCondition(x))?;
            loaded_first(frames, condition)
        }
    }
}

fn end_for<'s>(
    machine: &mut Machine,
    works: &mut Works<'s>,
    x: &'s ForStatement,
) -> Result<(), Stop> {
    if ends(machine) {
        return Ok(());
    }
    then(works, LoopFrame::For(x))?;
    match &x.update {
        None => Ok(()),
        Some(update) => Ok(works.push(StatementFrame::Statement(update))?),
    }
}

fn while_first<'s>(
    frames: &mut Frames<'s>,
    works: &mut Works<'s>,
    x: &'s WhileStatement,
) -> Result<(), Stop> {
    then(works, LoopFrame::WhileCondition(x))?;
    loaded_first(frames, &x.condition)
}

fn while_round<'s>(
    machine: &mut Machine,
    works: &mut Works<'s>,
    x: &'s WhileStatement,
) -> Result<(), Stop> {
    if !truth(machine)? {
        return Ok(());
    }
    machine.tick()?;
    then(works, LoopFrame::EndWhile(x))?;
    block_first(machine, works, &x.body)
}

/// What a frame of loops does.
pub(crate) fn step_loop<'s>(
    machine: &mut Machine,
    frames: &mut Frames<'s>,
    works: &mut Works<'s>,
    frame: LoopFrame<'s>,
) -> Result<(), Stop> {
    match frame {
        LoopFrame::Loop(x) => begin(machine, works, x),
        LoopFrame::EndBody(x) => end_body(machine, works, x),
        LoopFrame::EndContinuing(x) => end_continuing(machine, frames, works, x),
        LoopFrame::BreakIf(x) => break_if(machine, works, x),
        LoopFrame::For(x) => for_condition(machine, frames, works, x),
        LoopFrame::ForCondition(x) => {
            if truth(machine)? {
                for_round(machine, works, x)
            } else {
                Ok(())
            }
        }
        LoopFrame::EndFor(x) => end_for(machine, works, x),
        LoopFrame::While(x) => while_first(frames, works, x),
        LoopFrame::WhileCondition(x) => while_round(machine, works, x),
        LoopFrame::EndWhile(x) => {
            if ends(machine) {
                Ok(())
            } else {
                then(works, LoopFrame::While(x))
            }
        }
    }
}
