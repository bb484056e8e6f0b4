//! What a callee means, and the parts of a call.

use crate::valuing::loaded_first;
use wgsl_eval_machine::{NameFault, Stop};
use wgsl_eval_names::{Directory, Meaning, Target};
use wgsl_eval_operands::{CallFrame, Frame, Frames, Machine, TypeFrame, WrittenFrame};
use wgsl_expressions::{FunctionCall, TemplateArg, TypeExpression};

/// What a type expression means, with the names that are in scope.
pub fn follow<'s>(
    directory: &Directory<'s>,
    machine: &mut Machine,
    ty: &'s TypeExpression,
) -> Result<Target<'s>, Stop> {
    let name = ty.ident.name();
    let is_local = ty.path.is_none() && machine.is_local(name);
    match directory.follow(ty, is_local) {
        Some(target) => Ok(target),
        None => machine.refuse_name(NameFault::CyclicDecl, name),
    }
}

/// Template arguments come next, the first first.
pub(crate) fn arguments_first<'s>(
    frames: &mut Frames<'s>,
    arguments: &'s [TemplateArg],
) -> Result<(), Stop> {
    for argument in arguments.iter().rev() {
        frames.push(Frame::Written(WrittenFrame::Argument(argument)))?;
    }
    Ok(())
}

/// The template arguments of a callee come next, with the names that are in scope where they stand.
pub(crate) fn template_first<'s>(
    machine: &mut Machine,
    frames: &mut Frames<'s>,
    target: Target<'s>,
) -> Result<(), Stop> {
    let Some(arguments) = &target.ty.template_args else {
        return Ok(());
    };
    if let Meaning::Module(_) = target.meaning {
        frames.push(Frame::Written(WrittenFrame::Refused(target.ty.ident.name())))?;
    }
    if target.is_aliased {
        machine.enter_closed()?;
        frames.push(Frame::Leave)?;
    }
    arguments_first(frames, arguments.get().as_slice())
}

/// A call comes next: its template arguments, its arguments, and then what is done with them.
pub fn push_call<'s>(
    directory: &Directory<'s>,
    machine: &mut Machine,
    frames: &mut Frames<'s>,
    call: &'s FunctionCall,
) -> Result<(), Stop> {
    let target = follow(directory, machine, &call.ty)?;
    frames.push(Frame::Call(CallFrame::Apply(call)))?;
    for argument in call.arguments.as_slice().iter().rev() {
        loaded_first(frames, argument)?;
    }
    template_first(machine, frames, target)
}

/// The type of a call comes next: its template arguments, the types of its arguments, and then what is done with them.
pub fn push_typed_call<'s>(
    directory: &Directory<'s>,
    machine: &mut Machine,
    frames: &mut Frames<'s>,
    call: &'s FunctionCall,
) -> Result<(), Stop> {
    let target = follow(directory, machine, &call.ty)?;
    frames.push(Frame::Call(CallFrame::TypedApply(call)))?;
    for argument in call.arguments.as_slice().iter().rev() {
        frames.push(Frame::Type(TypeFrame::Load))?;
        frames.push(Frame::Type(TypeFrame::Node(argument)))?;
    }
    template_first(machine, frames, target)
}
