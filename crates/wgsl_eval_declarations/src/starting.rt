//! The starts of declarations.

use wgsl_eval_expressions::loaded_first;
use wgsl_eval_machine::{
    DeclarationFrame, Frame, Frames, Machine, NameFault, PlainFault, Slot, Stop, TypeFrame,
    WrittenFrame,
};
use wgsl_eval_names::{Declared, Directory};
use wgsl_simple_statements::Declaration;
use wgsl_words::ShaderStage;

fn then<'s>(frames: &mut Frames<'s>, frame: DeclarationFrame<'s>) -> Result<(), Stop> {
    Ok(frames.push(Frame::Declaration(frame))?)
}

/// The declarations of the order from a position on.
pub(crate) fn order<'s>(
    machine: &mut Machine,
    frames: &mut Frames<'s>,
    position: usize,
) -> Result<(), Stop> {
    match machine.order.get(position) {
        None => Ok(()),
        Some(number) => {
            then(frames, DeclarationFrame::Order(position.saturating_add(1)))?;
            then(frames, DeclarationFrame::Start(*number))
        }
    }
}

/// The declared type of a value.
pub(crate) fn declared_type<'s>(
    machine: &mut Machine,
    frames: &mut Frames<'s>,
    x: &'s Declaration,
) -> Result<(), Stop> {
    match (&x.ty, &x.initializer) {
        (Some(ty), _) => Ok(frames.push(Frame::Written(WrittenFrame::Type(ty)))?),
        (None, Some(initializer)) => {
            frames.push(Frame::Type(TypeFrame::Untyped(x)))?;
            frames.push(Frame::Type(TypeFrame::Load))?;
            frames.push(Frame::Type(TypeFrame::Node(initializer)))?;
            Ok(())
        }
        (None, None) => machine.refuse_plain(PlainFault::UntypedDecl),
    }
}

/// A declaration is being started from now on, with the names of the module alone and at the const stage.
fn begin_start<'s>(
    machine: &mut Machine,
    frames: &mut Frames<'s>,
    number: usize,
) -> Result<(), Stop> {
    machine.set_slot(number, Slot::Open);
    machine.doing.push(number)?;
    machine.enter_closed()?;
    then(frames, DeclarationFrame::Close(machine.stage))?;
    machine.stage = ShaderStage::Const;
    Ok(())
}

fn begin<'s>(
    directory: &Directory<'s>,
    machine: &mut Machine,
    frames: &mut Frames<'s>,
    number: usize,
) -> Result<(), Stop> {
    match directory.declared(number) {
        Declared::Value(x) => {
            begin_start(machine, frames, number)?;
            then(frames, DeclarationFrame::Initial(number))?;
            then(frames, DeclarationFrame::Type(x))
        }
        Declared::Assertion(x) => {
            begin_start(machine, frames, number)?;
            then(frames, DeclarationFrame::Assert)?;
            loaded_first(frames, &x.expression)
        }
        _ => Ok(()),
    }
}

/// The value of a declaration, or its assertion, if it isn't known yet.
pub(crate) fn start<'s>(
    directory: &Directory<'s>,
    machine: &mut Machine,
    frames: &mut Frames<'s>,
    number: usize,
) -> Result<(), Stop> {
    match machine.slots.get(number) {
        Some(Slot::Unknown) => begin(directory, machine, frames, number),
        Some(Slot::Open) => machine.refuse_name(NameFault::CyclicDecl, directory.name_of(number)),
        _ => Ok(()),
    }
}

/// A declaration is done, and the machine goes on at a stage.
pub(crate) fn close(machine: &mut Machine, stage: ShaderStage) -> Result<(), Stop> {
    machine.leave_cells();
    machine.stage = stage;
    if let Some(number) = machine.doing.pop() {
        let is_open = matches!(machine.slots.get(number), Some(Slot::Open));
        if is_open {
            machine.set_slot(number, Slot::Tested);
        }
    }
    Ok(())
}
