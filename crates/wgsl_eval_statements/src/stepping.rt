//! What each frame of statements does.

use crate::branching::{condition_first, step_branch, switch_first};
use crate::frames::{LoopFrame, SimpleFrame, StatementFrame, Works};
use crate::loops::{for_first, step_loop};
use crate::scopes::{block_first, statements};
use crate::simple::{assertion, assignment, call, declaration, increment, leave, step_simple};
use wgsl_eval_expressions::{Flow, Frame, Frames, Machine, loaded_first};
use wgsl_eval_machine::{PlainFault, Stop};
use wgsl_eval_names::Directory;
use wgsl_statements::{CompoundStatement, Statement, StatementNode};

fn loop_first<'s>(works: &mut Works<'s>, frame: LoopFrame<'s>) -> Result<(), Stop> {
    Ok(works.push(StatementFrame::Loop(frame))?)
}

fn statement<'s>(
    directory: &Directory<'s>,
    machine: &mut Machine,
    frames: &mut Frames<'s>,
    works: &mut Works<'s>,
    node: &'s StatementNode,
) -> Result<(), Stop> {
    match node.node() {
        Statement::Void => Ok(()),
        Statement::Compound(x) => block_first(machine, works, x),
        Statement::Assignment(x) => assignment(frames, works, x),
        Statement::Increment(x) => increment(frames, works, &x.expression, SimpleFrame::Increment),
        Statement::Decrement(x) => increment(frames, works, &x.expression, SimpleFrame::Decrement),
        Statement::If(x) => condition_first(machine, frames, works, x.get(), 0),
        Statement::Switch(x) => switch_first(frames, works, x.get()),
        Statement::Loop(x) => loop_first(works, LoopFrame::Loop(x.get())),
        Statement::For(x) => for_first(machine, works, x.get()),
        Statement::While(x) => loop_first(works, LoopFrame::While(x.get())),
        Statement::Break(_) => {
            machine.flow = Flow::Break;
            Ok(())
        }
        Statement::Continue(_) => {
            machine.flow = Flow::Continue;
            Ok(())
        }
        Statement::Return(x) => leave(machine, frames, works, x),
        Statement::Discard(_) => machine.refuse_plain(PlainFault::DiscardInConst),
        Statement::FunctionCall(x) => call(directory, machine, frames, &x.get().call),
        Statement::ConstAssert(x) => assertion(machine, frames, works, x),
        Statement::Declaration(x) => declaration(frames, works, x.get()),
    }
}

/// The body of a function is begun: it is what is left of statements, and its end is marked among the frames.
pub fn begin_body<'s>(
    frames: &mut Frames<'s>,
    works: &mut Works<'s>,
    body: &'s CompoundStatement,
) -> Result<(), Stop> {
    frames.push(Frame::Body)?;
    works.push(StatementFrame::End)?;
    works.push(StatementFrame::Statements(body, 0))?;
    Ok(())
}

/// What a frame of statements does.
pub fn step_statement<'s>(
    directory: &Directory<'s>,
    machine: &mut Machine,
    frames: &mut Frames<'s>,
    works: &mut Works<'s>,
    frame: StatementFrame<'s>,
) -> Result<(), Stop> {
    match frame {
        StatementFrame::Statements(body, at) => statements(machine, works, body, at),
        StatementFrame::Statement(node) => statement(directory, machine, frames, works, node),
        StatementFrame::Value(node) => loaded_first(frames, node),
        StatementFrame::Leave => {
            machine.leave();
            Ok(())
        }
        StatementFrame::Simple(x) => step_simple(machine, frames, works, x),
        StatementFrame::Branch(x) => step_branch(machine, frames, works, x),
        StatementFrame::Loop(x) => step_loop(machine, frames, works, x),
        StatementFrame::End => {
            drop(frames.pop());
            Ok(())
        }
    }
}
