//! What each frame does but those of statements.

use crate::applying::{apply, typed_apply, valued};
use crate::entering::{bind, result, returned};
use crate::initial::{assert_true, initial, resource, store, variable};
use crate::inputs::{input, located};
use crate::starting::{close, declared_type, order, start};
use wgsl_eval_expressions::{
    convert, push_call, push_typed_call, step_type, step_value, step_written, structure,
};
use wgsl_eval_machine::{CallFrame, DeclarationFrame, Frame, Frames, Machine, Root, Stop};
use wgsl_eval_names::Directory;

/// The structure of the uppermost type, built of so many operands.
fn build(machine: &mut Machine, count: usize) -> Result<(), Stop> {
    let ty = machine.pop_type()?;
    match machine.take(count) {
        Ok(arguments) => {
            let made = structure(machine, ty, arguments)?;
            machine.push_value(made)
        }
        Err(stop) => {
            drop(ty);
            Err(stop)
        }
    }
}

fn step_declaration<'s>(
    directory: &Directory<'s>,
    machine: &mut Machine,
    frames: &mut Frames<'s>,
    frame: DeclarationFrame<'s>,
) -> Result<(), Stop> {
    match frame {
        DeclarationFrame::Order(position) => order(machine, frames, position),
        DeclarationFrame::Start(number) => start(directory, machine, frames, number),
        DeclarationFrame::Push(number) => machine.push_known(Root::Module(number)),
        DeclarationFrame::Type(x) => declared_type(machine, frames, x),
        DeclarationFrame::Initial(number) => initial(directory, machine, frames, number),
        DeclarationFrame::Convert(place) => convert(machine, place),
        DeclarationFrame::Store(number) => store(machine, number),
        DeclarationFrame::Variable(number) => variable(directory, machine, number),
        DeclarationFrame::Resource(number) => resource(directory, machine, number),
        DeclarationFrame::Assert => assert_true(machine),
        DeclarationFrame::Close(stage) => close(machine, stage),
    }
}

fn step_call<'s>(
    directory: &Directory<'s>,
    machine: &mut Machine,
    frames: &mut Frames<'s>,
    frame: CallFrame<'s>,
) -> Result<(), Stop> {
    match frame {
        CallFrame::Call(x) => push_call(directory, machine, frames, x),
        CallFrame::Apply(x) => apply(directory, machine, frames, x),
        CallFrame::Valued(x) => valued(directory, machine, x),
        CallFrame::Discard => {
            drop(machine.pop_operand());
            Ok(())
        }
        CallFrame::Typed(x) => push_typed_call(directory, machine, frames, x),
        CallFrame::TypedApply(x) => typed_apply(directory, machine, frames, x),
        CallFrame::Build(count) => build(machine, count),
        CallFrame::Result => result(machine),
        CallFrame::Bind(name) => bind(machine, name),
        CallFrame::Input(x) => input(machine, frames, x),
        CallFrame::Located(x) => located(machine, x),
        CallFrame::Return(number) => returned(directory, machine, number),
    }
}

/// What a frame does. The bodies of functions are left to the steps of statements.
pub fn step<'s>(
    directory: &Directory<'s>,
    machine: &mut Machine,
    frames: &mut Frames<'s>,
    frame: Frame<'s>,
) -> Result<(), Stop> {
    match frame {
        Frame::Value(x) => step_value(directory, machine, frames, x),
        Frame::Type(x) => step_type(directory, machine, frames, x),
        Frame::Written(x) => step_written(directory, machine, frames, x),
        Frame::Declaration(x) => step_declaration(directory, machine, frames, x),
        Frame::Call(x) => step_call(directory, machine, frames, x),
        Frame::Stage(stage) => {
            machine.stage = stage;
            Ok(())
        }
        Frame::Leave => {
            machine.leave();
            Ok(())
        }
        Frame::Enter(_) | Frame::Body => Err(Stop::OutOfMemory),
    }
}
